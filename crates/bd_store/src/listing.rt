//! The lines of a list.
ghost use Rattle.std.specs.Prelude.{◌≡◌, IfOk};
ghost use Rattle.bd_roll.specs.Catalogue.{oldest_in};
ghost use Rattle.bd_catalog.specs.Standing.{lines_from};

use bd_catalog::Catalog;
use bd_model::{VersionLine, VersionLines};
use std::alloc::{AllocError as OutOfMemory, Global};

/// The retained versions of a catalogue, ascending.
pub(crate) fn lines_of(alloc: Global, catalog: &Catalog) -> Result<VersionLines, OutOfMemory>
    ensures { IfOk result (λ lines. lines.items ≡ lines_from (oldest_in catalog.now.found.catalogue) catalog.now.found.catalogue.versions) }
{
    let retained = catalog.retained();
    let oldest = u64::from(catalog.newest()) + 1 - u64::from(retained);
    let mut lines = VersionLines::new(alloc);
    lines.reserve(retained as usize)?;
    for index in 0..retained {
        let version = (oldest + u64::from(index)) as u32;
        let Some(row) = catalog.version(version) else {
            unreachable!()
        };
        lines.push(VersionLine {
            version,
            bytes: row.length,
            chunks: row.chunks,
            fresh: row.fresh,
        });
    }
    Ok(lines)
}
