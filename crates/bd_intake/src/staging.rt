//! What is staged of a version while its chunks come.
ghost use Rattle.std.specs.Prelude.{◌≡◌, ℕ, ◌+◌, ◌≤◌, List, [], ◌++◌, ◌∷◌, length, OnOk, IfErr, if◌then◌else◌};
ghost use Rattle.bd_disk.specs.Runs.{Writes};
ghost use Rattle.bd_model.specs.Sizes.{sizes_of, disk_bytes};
ghost use Rattle.bd_space.specs.Allotment.{held_count};
ghost use Rattle.bd_catalog.specs.Agreement.{InExtents};
ghost use Rattle.bd_intake.specs.Causes.{FailsByDisk};
ghost use Rattle.bd_intake.specs.Given.{given_of};
ghost use Rattle.bd_intake.specs.Staging.{Grows, IsStaging, PutsChunk, staged_extents};
ghost use Rattle.bd_intake.specs.Taking.{RefusesChunk, TakesChunk};

use crate::fault::IntakeFault;
use crate::pending::Pending;
use crate::record::put_parts;
use crate::room::make_room;
use crate::seen::Seen;
use crate::terms::Terms;
use bd_disk::Disk;
use bd_marks::mark_of;
use bd_model::RecipeEntry;
use bd_space::{Owned, Space};

/// What is staged of a version while its chunks come.
#[derive(Drop)]
pub(crate) struct Staging {
    // the marks of the chunks that came
    pub(crate) seen: Seen,
    // the extents of the records, what was put of these, their bytes and their number
    pub(crate) fresh: Owned,
    pub(crate) records: Pending,
    pub(crate) fresh_bytes: u64,
    pub(crate) fresh_chunks: u64,
    // the extents of the recipe, what was put of it, the number of its entries, and the bytes of the stream so far
    pub(crate) recipe: Owned,
    pub(crate) entries: Pending,
    pub(crate) chunks: u64,
    pub(crate) length: u64,
}

// The bytes of the chunk's record where it is new.
fn record_bytes(is_new: bool, body: &[u8]) -> u64
    requires { length body.now ≤ 65536 }
    ensures { result ≡ (if is_new then 36 + length body.now else 0) }
{
    if is_new { 36 + body.len() as u64 } else { 0 }
}

/// Takes one chunk: its record, where the version before lacks it and none with its mark came, and its entry.
pub(crate) fn take_chunk<D: Disk>(
    staging: &mut Staging,
    disk: &mut D,
    space: &mut Space,
    terms: &Terms<'_>,
    body: &[u8],
) -> Result<(), IntakeFault>
    requires room { disk_bytes (sizes_of terms.now.shape) ≤ D.bytes disk.old }
    requires staging { IsStaging (given_of terms.now) space.old staging.old }
    requires some { 1 ≤ length body.now }
    requires short { length body.now ≤ terms.now.shape.max }
    ensures disk { Writes D.Disk (InExtents (sizes_of terms.now.shape) (staged_extents staging.new)) disk.old disk.new }
    ensures cause { FailsByDisk (D.faults disk.old) (D.faults disk.new) result }
    ensures grows { Grows space.old space.new staging.old staging.new }
    ensures staging { OnOk result (IsStaging (given_of terms.now) space.new staging.new) }
    ensures taken { OnOk result (TakesChunk (given_of terms.now) body.now staging.old staging.new) }
    ensures put { OnOk result (PutsChunk D.Disk (given_of terms.now) body.now staging.old staging.new disk.old disk.new) }
    ensures refused { RefusesChunk (given_of terms.now) body.now staging.old (held_count space.old) result }
{
    let own = mark_of(body);
    let met = staging.seen.meet(terms.neighbour, terms.version, &own)?;
    let fresh_bytes = staging.fresh_bytes + record_bytes(met.is_new, body);
    make_room(staging, space, terms, fresh_bytes)?;
    let entry = RecipeEntry {
        mark: own,
        length: body.len() as u32,
        start: met.start,
    };
    put_parts(disk, &terms.shape, staging, met.is_new, &entry, body)?;
    staging.fresh_bytes = fresh_bytes;
    staging.fresh_chunks += u64::from(met.is_new);
    staging.chunks += 1;
    staging.length += body.len() as u64;
    Ok(())
}
