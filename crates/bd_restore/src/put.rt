//! Bodies put at their places in the target.
ghost use Rattle.std.specs.Prelude.{◌≡◌, ◌≢◌, ℕ, ◌<◌, ◌≤◌, length, true, OnOk, slice_set};
ghost use Rattle.std.specs.FinMap as map;
ghost use Rattle.bd_disk.specs.Images.{overwritten};
ghost use Rattle.bd_restore.specs.Faults.{FailsByTarget, IfDamageMet, OfTarget};
ghost use Rattle.bd_restore.specs.Met.{HasEntry};
ghost use Rattle.bd_restore.specs.Target.{held, length_at, mark_at, place_at, ChangesTarget, Fills, IsTarget, PutsBody};

use crate::fault::RestoreFault;
use crate::tables::Tables;
use bd_files::Files;
use bd_model::{Damage, Mark, Name};

// PutsBody the body at the place of the entry of this index.
fn put_at<F: Files>(
    tables: &Tables,
    version: u32,
    filled: &mut [bool],
    files: &mut F,
    name: &Name,
    index: usize,
    body: &[u8],
) -> Result<(), RestoreFault>
    requires within { index < length tables.now }
    requires flags { length filled.old ≡ length tables.now }
    requires short { length body.now ≤ 65536 }
    requires there { F.tells → IsTarget tables.now name.now (F.files files.old) }
    ensures cause { FailsByTarget (F.target_faults files.old) (F.target_faults files.new) result }
    ensures only { OfTarget result }
    ensures files { ChangesTarget F.Files name.now files.old files.new }
    ensures sized { OnOk result (length body.now ≡ length_at tables.now index) }
    ensures filled { OnOk result (filled.new ≡ slice_set filled.old index true) }
    ensures put { OnOk result (F.tells → F.files files.new ≡ map.insert (F.files files.old) name.now (overwritten (held (F.files files.old) name.now) (place_at tables.now index) body.now)) }
    ensures damage { IfDamageMet result (λ damage. (m : Mark) × (damage ≡ Damage.Length version m (length_at tables.now index) (length body.now)) × (m.0 ≡ mark_at tables.now index) × (length body.now ≢ length_at tables.now index)) }
{
    let entry = tables.entry(index);
    let found = body.len() as u32;
    if entry.length != found {
        let damage = Damage::Length {
            version,
            mark: entry.mark,
            recorded: entry.length,
            found,
        };
        return Err(RestoreFault::Damaged { damage });
    }
    if files.put(name, tables.place(index), body).is_err() {
        return Err(RestoreFault::TargetFault);
    }
    filled[index] = true;
    Ok(())
}

/// PutsBody the body at the place of each entry with this mark.
#[tactic(auto, using(crate::proofs::Frames::targets))]
pub(crate) fn put_everywhere<F: Files>(
    tables: &Tables,
    version: u32,
    filled: &mut [bool],
    files: &mut F,
    name: &Name,
    mark: &Mark,
    body: &[u8],
) -> Result<(), RestoreFault>
    requires flags { length filled.old ≡ length tables.now }
    requires short { length body.now ≤ 65536 }
    requires there { F.tells → IsTarget tables.now name.now (F.files files.old) }
    ensures cause { FailsByTarget (F.target_faults files.old) (F.target_faults files.new) result }
    ensures only { OfTarget result }
    ensures files { ChangesTarget F.Files name.now files.old files.new }
    ensures there { OnOk result (F.tells → IsTarget tables.now name.now (F.files files.new)) }
    ensures filled { OnOk result (Fills tables.now mark.now.0 (length tables.now) filled.old filled.new) }
    ensures put { OnOk result (F.tells → PutsBody tables.now mark.now.0 body.now (length tables.now) (held (F.files files.old) name.now) (held (F.files files.new) name.now)) }
    ensures damage { IfDamageMet result (λ damage. (e : ℕ) × (m : Mark) × (damage ≡ Damage.Length version m e (length body.now)) × (m.0 ≡ mark.now.0) × (length body.now ≢ e) × HasEntry tables.now mark.now.0 e) }
{
    let mut next = tables.first(mark);
    while let Some(index) = next {
        put_at(tables, version, filled, files, name, index, body)?;
        next = tables.next(index);
    }
    Ok(())
}
