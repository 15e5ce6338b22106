//! A planned restore, carried out.
ghost use Rattle.std.specs.Prelude.{◌≡◌, ℕ, ◌≤◌, IfOk, OnOk};
ghost use Rattle.bd_disk.specs.History.{contents};
ghost use Rattle.bd_disk.specs.Runs.{Reads};
ghost use Rattle.bd_files.specs.Files.{IsFinished};
ghost use Rattle.bd_model.specs.Sizes.{disk_bytes};
ghost use Rattle.bd_catalog.specs.Rows.{walk};
ghost use Rattle.bd_recipe.specs.Reading.{total};
ghost use Rattle.bd_restore.specs.Faults.{FailsByCounts, IfDamageMet};
ghost use Rattle.bd_restore.specs.Plan.{IsPlanOf};
ghost use Rattle.bd_restore.specs.Restored.{HasGivenBack, IsMetBy, ReadsWalk};
ghost use Rattle.bd_restore.specs.Target.{ChangesTarget};
ghost use Rattle.bd_restore.specs.Walk.{InRows};

use crate::fault::RestoreFault;
use crate::missing::first_missing;
use crate::plan::Plan;
use bd_catalog::Catalog;
use bd_disk::Disk;
use bd_files::Files;
use bd_model::{Damage, Name};

/// Gives the planned version back: walks over the rows that begin at it or before, of its own and of later closed volumes,
/// and then over the open categories that do. Of every record there it reads the header, and the body of the first with each
/// mark of the recipe, and puts that at each of its places in the target. The answer is the version's length. It takes no
/// memory.
pub fn run_plan<D: Disk, F: Files>(
    plan: Plan,
    disk: &mut D,
    catalog: &Catalog,
    files: &mut F,
    name: &Name,
) -> Result<u64, RestoreFault>
    requires room { disk_bytes catalog.now.found.sizes ≤ D.bytes disk.old }
    requires plan { IsPlanOf catalog.now.found.sizes catalog.now.found.catalogue plan.version plan }
    // At every answer the disk was read only within the rows of the walk, and not written.
    ensures disk { Reads D.Disk (InRows catalog.now.found.sizes (walk catalog.now.found.catalogue plan.version)) disk.old disk.new }
    ensures files { ChangesTarget F.Files name.now files.old files.new }
    ensures cause { FailsByCounts (D.faults disk.old) (D.faults disk.new) (F.target_faults files.old) (F.target_faults files.new) result }
    ensures length { IfOk result (λ bytes. bytes ≡ total plan.entries) }
    ensures file { OnOk result (D.tells → F.tells → HasGivenBack catalog.now.found plan (contents (D.history disk.old)) name.now (F.files files.old) (F.files files.new)) }
    ensures finished { OnOk result (F.tells → IsFinished name.now (F.unfinished files.new)) }
    ensures read { OnOk result (D.tells → ReadsWalk catalog.now.found plan (D.history disk.old) (D.history disk.new)) }
    ensures damage { IfDamageMet result (λ damage. D.tells → IsMetBy catalog.now.found plan damage (D.history disk.old) (D.history disk.new)) }
{
    let (wanted, mut progress) = plan.into_parts();
    if files.begin(name, wanted.length).is_err() {
        return Err(RestoreFault::TargetFault);
    }
    wanted.walk(&mut progress, disk, catalog, files, name)?;
    if let Some(index) = first_missing(&progress.filled) {
        let damage = Damage::Missing {
            version: wanted.version,
            index: index as u64,
            mark: wanted.tables.entry(index).mark,
        };
        return Err(RestoreFault::Damaged { damage });
    }
    if files.finish(name).is_err() {
        return Err(RestoreFault::TargetFault);
    }
    Ok(wanted.length)
}
