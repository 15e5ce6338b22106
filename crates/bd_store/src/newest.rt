//! The recipe of the newest version.
ghost use Rattle.std.specs.Prelude.{◌≤◌, [], IfOk, OnOk};
ghost use Rattle.bd_disk.specs.Calls.{FailsByCount};
ghost use Rattle.bd_disk.specs.History.{contents};
ghost use Rattle.bd_disk.specs.Runs.{Reads};
ghost use Rattle.bd_disk.specs.Trace.{ReadsOnly};
ghost use Rattle.bd_model.specs.Sizes.{disk_bytes};
ghost use Rattle.bd_roll.specs.Catalogue.{retained_in};
ghost use Rattle.bd_catalog.specs.Damages.{IsSeen};
ghost use Rattle.bd_intake.specs.Given.{IsRecipeOrNone};
ghost use Rattle.bd_recipe.specs.Reading.{IfDamaged, InRecipe, is_disk_fault_of_read};
ghost use Rattle.bd_store.specs.Newest.{AnswersNewest, newest_places};

use bd_catalog::Catalog;
use bd_disk::Disk;
use bd_recipe::{Neighbour, ReadFault, Recipe, read_recipe};
use std::alloc::Global;

/// The recipe of the newest version, to be looked up by marks; one of no entries where nothing is retained.
pub(crate) fn newest_recipe<D: Disk>(
    alloc: Global,
    disk: &mut D,
    catalog: &Catalog,
) -> Result<Neighbour, ReadFault>
    requires room { disk_bytes catalog.now.found.sizes ≤ D.bytes disk.old }
    ensures disk { Reads D.Disk (InRecipe catalog.now.found.sizes catalog.now.found.catalogue catalog.now.found.catalogue.newest) disk.old disk.new }
    ensures cause { FailsByCount is_disk_fault_of_read (D.faults disk.old) (D.faults disk.new) result }
    ensures recipe { IfOk result (λ n. IsRecipeOrNone catalog.now.found.sizes catalog.now.found.catalogue n.entries) }
    ensures some { IfDamaged result (λ damage. 1 ≤ retained_in catalog.now.found.catalogue) }
    ensures entries { D.tells → AnswersNewest catalog.now.found (contents (D.history disk.old)) result }
    ensures places { OnOk result (D.tells → ReadsOnly (newest_places catalog.now.found) (D.history disk.old) (D.history disk.new)) }
    ensures seen { IfDamaged result (λ damage. D.tells → IsSeen catalog.now.found.sizes catalog.now.found.catalogue (contents (D.history disk.old)) [] damage (D.history disk.old) (D.history disk.new)) }
{
    if catalog.retained() == 0 {
        let none = Neighbour::of(alloc, Recipe::new(alloc))?;
        return Ok(none);
    }
    let recipe = read_recipe(alloc, disk, catalog, catalog.newest())?;
    let neighbour = Neighbour::of(alloc, recipe)?;
    Ok(neighbour)
}
