//! A source taken in, from its first byte to its last.
ghost use Rattle.std.specs.Prelude.{◌≡◌, ℕ, ◌+◌, ◌<◌, ◌≤◌, List, [], OnOk, IfOk, IfErr};
ghost use Rattle.bd_disk.specs.Runs.{Writes};
ghost use Rattle.bd_model.specs.Sizes.{sizes_of, disk_bytes};
ghost use Rattle.bd_model.specs.declared.layout.Phase.TheVariants.{Settled};
ghost use Rattle.bd_space.specs.Allotment.{extent_count, held_count, TakenExactly};
ghost use Rattle.bd_roll.specs.Catalogue.{all_extents};
ghost use Rattle.bd_catalog.specs.Agreement.{InExtents, InFree};
ghost use Rattle.bd_intake.specs.Answers.{CountsSource, FitsStaged, LeavesSpace, StoresSource};
ghost use Rattle.bd_intake.specs.Causes.{FailsByTheirCounts};
ghost use Rattle.bd_intake.specs.Filling.{LeavesFiles};
ghost use Rattle.bd_intake.specs.Given.{FitsSums, given_of, IsRecipeOrNone};
ghost use Rattle.bd_intake.specs.Staging.{Grows, HasPut, HasTaken, IsStaging, staged_extents};
ghost use Rattle.bd_intake.specs.Taking.{RefusesSource, StagesSource};

use crate::fault::IntakeFault;
use crate::finish::{finished, give_back, nothing_staged};
use crate::need::whole_need;
use crate::record::write_out;
use crate::source::fill;
use crate::staged::Staged;
use crate::staging::Staging;
use crate::stream::take_chunks;
use crate::terms::Terms;
use bd_catalog::Catalog;
use bd_disk::Disk;
use bd_files::Files;
use bd_gear::{Chunker, Gear};
use bd_model::Name;
use bd_recipe::Neighbour;
use bd_space::Space;
use std::alloc::Global;

// Stages the chunks of the source, and answers how many extents their version needs. What is held is written at the end.
fn stage<D: Disk, F: Files>(
    alloc: Global,
    staging: &mut Staging,
    disk: &mut D,
    space: &mut Space,
    terms: &Terms<'_>,
    files: &mut F,
    name: &Name,
) -> Result<u64, IntakeFault>
    requires room { disk_bytes (sizes_of terms.now.shape) ≤ D.bytes disk.old }
    requires staging { IsStaging (given_of terms.now) space.old staging.old }
    requires taken { HasTaken (given_of terms.now) [] staging.old }
    requires nothing { (image : List ℕ) → HasPut (given_of terms.now) [] staging.old image }
    requires sums { FitsSums terms.now.neighbour.now.entries }
    ensures disk { Writes D.Disk (InExtents (sizes_of terms.now.shape) (staged_extents staging.new)) disk.old disk.new }
    ensures cause { FailsByTheirCounts (D.faults disk.old) (D.faults disk.new) (F.source_faults files.old) (F.source_faults files.new) result }
    ensures files { LeavesFiles F.Files name.now files.old files.new result }
    ensures grows { Grows space.old space.new staging.old staging.new }
    ensures staging { OnOk result (IsStaging (given_of terms.now) space.new staging.new) }
    ensures whole { IfOk result (StagesSource D.Disk disk.new F.Files name.now files.old (given_of terms.now) staging.new) }
    ensures refused { RefusesSource F.Files name.now files.old (given_of terms.now) (held_count space.old) result }
{
    let mut chunker = Chunker::new(alloc, *terms.gear, terms.shape)?;
    fill(staging, &mut chunker, disk, space, terms, files, name)?;
    chunker.finish();
    take_chunks(staging, &mut chunker, disk, space, terms)?;
    let need = whole_need(alloc, staging, space, terms)?;
    write_out(disk, &terms.shape, staging)?;
    Ok(need)
}

/// Takes in the stream under the name as the version after the newest: each chunk that the newest version lacks is stored
/// once, and its recipe, in extents that were free. The space counts what is staged as taken; a refusal gives everything
/// back. The neighbour is that of the newest recipe, or an empty one where nothing is retained.
pub fn intake<D: Disk, F: Files>(
    alloc: Global,
    disk: &mut D,
    catalog: &Catalog,
    space: &mut Space,
    gear: &Gear,
    neighbour: &Neighbour,
    files: &mut F,
    name: &Name,
) -> Result<Staged, IntakeFault>
    requires room { disk_bytes catalog.now.found.sizes ≤ D.bytes disk.old }
    requires settled { catalog.now.found.catalogue.phase ≡ Settled }
    requires entries { IsRecipeOrNone catalog.now.found.sizes catalog.now.found.catalogue neighbour.now.entries }
    requires number { catalog.now.found.catalogue.newest < 4294967295 }
    requires owners { TakenExactly space.old (all_extents catalog.now.found.catalogue) }
    requires size { extent_count space.old ≡ catalog.now.found.sizes.extents }
    ensures disk { Writes D.Disk (InFree catalog.now.found.sizes space.old) disk.old disk.new }
    ensures cause { FailsByTheirCounts (D.faults disk.old) (D.faults disk.new) (F.source_faults files.old) (F.source_faults files.new) result }
    ensures files { LeavesFiles F.Files name.now files.old files.new result }
    ensures space { LeavesSpace catalog.now.found.catalogue space.old space.new result }
    ensures fits { IfOk result (FitsStaged catalog.now.found) }
    // What is counted, by the stream and the marks of its chunks.
    ensures counted { CountsSource F.Files name.now files.old catalog.now.found neighbour.now.entries space.old result }
    // What is written.
    ensures stored { IfOk result (StoresSource D.Disk disk.new F.Files name.now files.old catalog.now.found neighbour.now.entries) }
{
    let terms = Terms {
        shape: catalog.shape(),
        gear,
        neighbour,
        version: catalog.newest() + 1,
        free: space.free(),
    };
    let mut staging = nothing_staged(alloc, neighbour.entries().len())?;
    match stage(alloc, &mut staging, disk, space, &terms, files, name) {
        Ok(need) => Ok(finished(staging, terms.version, need)),
        Err(fault) => {
            give_back(staging, space);
            Err(fault)
        }
    }
}
