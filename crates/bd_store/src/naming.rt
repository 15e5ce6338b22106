//! What is staged, named by one commit.
ghost use Rattle.std.specs.Prelude.{◌≡◌, ◌+◌, ◌≤◌, ◌++◌, OnOk};
ghost use Rattle.bd_disk.specs.Calls.{HasCause};
ghost use Rattle.bd_disk.specs.Runs.{Writes};
ghost use Rattle.bd_model.specs.Sizes.{disk_bytes};
ghost use Rattle.bd_catalog.specs.Agreement.{Agrees};
ghost use Rattle.bd_space.specs.Allotment.{extent_count, TakenExactly, KeepsHeld};
ghost use Rattle.bd_roll.specs.Catalogue.{all_extents};
ghost use Rattle.bd_catalog.specs.Ledger.{HasRoom};
ghost use Rattle.bd_roll.specs.Shown.{version_entry};
ghost use Rattle.bd_roll.specs.Steps.{brought, fresh_actives, FitsBackup};
ghost use Rattle.bd_catalog.specs.Steps.{after_step, InOtherHalf, IsMade, LeavesEither};
ghost use Rattle.bd_store.specs.Naming.{AnswersNaming};

use crate::fault::StoreFault;
use bd_catalog::{Catalog, Step};
use bd_disk::Disk;
use bd_intake::Staged;
use bd_model::Answer;
use bd_space::Space;

/// Names what is staged by one commit.
pub(crate) fn name_version<D: Disk>(
    disk: &mut D,
    catalog: &mut Catalog,
    space: &mut Space,
    staged: Staged,
) -> Result<Answer, StoreFault>
    requires room { disk_bytes catalog.old.found.sizes ≤ D.bytes disk.old }
    requires reserved { HasRoom catalog.old }
    requires fits { FitsBackup catalog.old.found.sizes catalog.old.found.catalogue (version_entry staged.version) (fresh_actives staged.fresh) }
    requires agrees { D.tells → Agrees catalog.old.found (D.history disk.old) }
    requires owners { TakenExactly space.old (all_extents catalog.old.found.catalogue ++ brought (Step.Backup staged.version staged.fresh)) }
    ensures disk { Writes D.Disk (InOtherHalf catalog.old.found) disk.old disk.new }
    ensures cause { HasCause (D.faults disk.old) (D.faults disk.new) result }
    ensures answer { AnswersNaming (catalog.old.found.catalogue.newest + 1) staged result }
    ensures either { D.tells →
        LeavesEither catalog.old.found (after_step catalog.old.found (Step.Backup staged.version staged.fresh))
        (D.history disk.old) (D.history disk.new) }
    ensures made { OnOk result (catalog.new.found ≡ after_step catalog.old.found (Step.Backup staged.version staged.fresh)) }
    ensures done { OnOk result (D.tells →
        IsMade catalog.old.found (after_step catalog.old.found (Step.Backup staged.version staged.fresh))
        (D.history disk.old) (D.history disk.new)) }
    ensures owners { OnOk result (TakenExactly space.new (all_extents catalog.new.found.catalogue)) }
    ensures counts { (extent_count space.new ≡ extent_count space.old) × KeepsHeld space.old space.new }
{
    let Staged {
        version,
        fresh,
        need,
    } = staged;
    let (bytes, chunks, fresh_chunks) = (version.length, version.chunks, version.fresh);
    if catalog
        .commit(disk, space, Step::Backup { version, fresh })
        .is_err()
    {
        return Err(StoreFault::DiskFault);
    }
    Ok(Answer::BackedUp {
        version: catalog.newest(),
        bytes,
        chunks,
        fresh: fresh_chunks,
        need,
    })
}
