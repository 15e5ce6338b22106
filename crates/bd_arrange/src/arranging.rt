//! A store, arranged by one commit.
ghost use Rattle.std.specs.Prelude.{◌≡◌, ◌≢◌, ◌≤◌, [], ◌++◌, IfOk, IsOk, OnOk, Ok};
ghost use Rattle.bd_disk.specs.Calls.{FailsByCount};
ghost use Rattle.bd_disk.specs.History.{contents};
ghost use Rattle.bd_disk.specs.Runs.{Works, Writes};
ghost use Rattle.bd_model.specs.Sizes.{disk_bytes};
ghost use Rattle.bd_model.specs.declared.layout.Phase.TheVariants.{Settled};
ghost use Rattle.bd_space.specs.Allotment.{extent_count, free_count, held_count, TakenExactly, KeepsHeld};
ghost use Rattle.bd_catalog.specs.Agreement.{Agrees};
ghost use Rattle.bd_roll.specs.Catalogue.{all_extents};
ghost use Rattle.bd_catalog.specs.Ledger.{HasRoom};
ghost use Rattle.bd_roll.specs.Shown.{open_entry};
ghost use Rattle.bd_roll.specs.Splitting.{FitsArrange};
ghost use Rattle.bd_catalog.specs.Steps.{InOtherHalf};
ghost use Rattle.bd_recipe.specs.Reading.{IfDamaged, is_disk_fault_of_read, recipe_found};
ghost use Rattle.bd_arrange.specs.Arranged.{AnswersDue, ButDiskFault, InDue, IsAllotted, IsDamageOfDue, IsSpared, KeepsStates, LeavesFound};
ghost use Rattle.bd_arrange.specs.Desks.{new_extents};
ghost use Rattle.bd_arrange.specs.Opens.{IsSafeOpening};
ghost use Rattle.bd_arrange.specs.Turns.{due, is_due};
ghost use Rattle.bd_arrange.specs.Underway.{HasSplits, IsStaged, IsTakenFor, IsUnderway, Names, arranged_at};

use crate::desk::Desk;
use bd_catalog::{ActiveCategory, Catalog, Step};
use bd_disk::Disk;
use bd_model::Phase;
use bd_recipe::{Neighbour, ReadFault};
use bd_space::Space;
use std::alloc::{AllocError as OutOfMemory, Global};

/// Arranges the store by one commit, with the newest recipe as neighbour: of each open category that is due, what that recipe
/// lacks goes to the newest closed volume, and the rest into new extents. On an image that came about elsewhere a category
/// stays as it is where its split would lack room, or its row would follow a later one. A settled store stays untouched.
///
/// It reads the headers of the categories that are due, and moves whole stretches of records through one buffer of 1 MiB.
/// Beside that it takes memory for the stretches of one category at a time. It hashes nothing: a record keeps its mark.
pub fn arrange<D: Disk>(
    alloc: Global,
    disk: &mut D,
    catalog: &mut Catalog,
    space: &mut Space,
    neighbour: &Neighbour,
) -> Result<(), ReadFault>
    requires room { disk_bytes catalog.old.found.sizes ≤ D.bytes disk.old }
    requires agrees { D.tells → Agrees catalog.old.found (D.history disk.old) }
    requires allotted { IsAllotted catalog.old.found space.old }
    requires newest { D.tells → catalog.old.found.catalogue.phase ≢ Settled →
        recipe_found catalog.old.found.sizes catalog.old.found.catalogue (contents (D.history disk.old)) catalog.old.found.catalogue.newest ≡ Ok neighbour.now.entries }
    ensures disk { Works D.Disk (InDue catalog.old.found) (IsSpared catalog.old.found) disk.old disk.new }
    ensures cause { FailsByCount is_disk_fault_of_read (D.faults disk.old) (D.faults disk.new) result }
    ensures settled { catalog.old.found.catalogue.phase ≡ Settled → IsOk result × (disk.new ≡ disk.old) × (catalog.new ≡ catalog.old) × (space.new ≡ space.old) }
    ensures found { LeavesFound catalog.old.found catalog.new.found result }
    ensures space { (extent_count space.new ≡ extent_count space.old) × KeepsHeld space.old space.new × ButDiskFault result (IsAllotted catalog.new.found space.new) }
    ensures agrees { D.tells → ButDiskFault result (Agrees catalog.new.found (D.history disk.new)) }
    ensures answer { D.tells → AnswersDue (held_count space.old) catalog.old.found catalog.new.found (D.history disk.old) (D.history disk.new) result }
    ensures states { D.tells → KeepsStates (held_count space.old) (D.history disk.old) (D.history disk.new) result }
    ensures opens { D.tells → IsSafeOpening (held_count space.old) catalog.old.found (D.history disk.old) (D.history disk.new) }
{
    if let Phase::Settled = catalog.phase() {
        return Ok(());
    }
    catalog.reserve()?;
    let mut desk = desk_for(alloc, catalog)?;
    match arrange_all(&mut desk, disk, catalog, space, neighbour) {
        Ok(()) => name_all(desk, disk, catalog, space),
        Err(fault) => {
            desk.give_back(space);
            Err(fault)
        }
    }
}

// A desk for the newest closed volume as it is.
fn desk_for(alloc: Global, catalog: &Catalog) -> Result<Desk, OutOfMemory>
    requires waits { catalog.now.found.catalogue.phase ≢ Settled }
    ensures { IfOk result (λ desk. HasSplits catalog.now.found.catalogue [] desk) }
{
    let volumes = catalog.volumes();
    let oldest = catalog.newest() - volumes.len() as u32;
    Desk::new(alloc, &volumes[volumes.len() - 1], oldest)
}

// Whether a category is due.
fn is_waiting(catalog: &Catalog, category: &ActiveCategory) -> bool
    ensures { result ≡ is_due catalog.now.found.catalogue.newest catalog.now.found.catalogue.phase (open_entry category.now) }
{
    match catalog.phase() {
        Phase::Settled => false,
        Phase::Waiting { cursor } => {
            cursor <= category.row.start && category.row.start < catalog.newest()
        }
    }
}

// Gives each category that is due its turn, one after the other.
fn arrange_all<D: Disk>(
    desk: &mut Desk,
    disk: &mut D,
    catalog: &Catalog,
    space: &mut Space,
    neighbour: &Neighbour,
) -> Result<(), ReadFault>
    requires room { disk_bytes catalog.now.found.sizes ≤ D.bytes disk.old }
    requires agrees { D.tells → Agrees catalog.now.found (D.history disk.old) }
    requires waits { catalog.now.found.catalogue.phase ≢ Settled }
    requires allotted { IsAllotted catalog.now.found space.old }
    requires begins { HasSplits catalog.now.found.catalogue [] desk.old }
    ensures disk { Works D.Disk (InDue catalog.now.found) (IsStaged catalog.now.found) disk.old disk.new }
    ensures cause { FailsByCount is_disk_fault_of_read (D.faults disk.old) (D.faults disk.new) result }
    ensures taken { IsTakenFor catalog.now.found space.old space.new desk.new }
    ensures arranged { OnOk result (IsUnderway D.Disk catalog.now.found neighbour.now.entries (free_count space.old) (due catalog.now.found.catalogue) desk.new disk.old disk.new) }
    ensures damage { IfDamaged result (λ damage. D.tells → IsDamageOfDue catalog.now.found damage (D.history disk.old) (D.history disk.new)) }
{
    let shape = catalog.shape();
    for category in catalog.actives().as_slice() {
        if is_waiting(catalog, category) {
            desk.arrange_category(disk, &shape, space, category, neighbour)?;
        }
    }
    Ok(())
}

// Names what was made at the desk by one commit.
fn name_all<D: Disk>(
    desk: Desk,
    disk: &mut D,
    catalog: &mut Catalog,
    space: &mut Space,
) -> Result<(), ReadFault>
    requires room { disk_bytes catalog.old.found.sizes ≤ D.bytes disk.old }
    requires reserved { HasRoom catalog.old }
    requires fits { FitsArrange catalog.old.found.sizes catalog.old.found.catalogue desk.filling.rows desk.filling.added desk.splits }
    requires agrees { D.tells → Agrees catalog.old.found (D.history disk.old) }
    requires owners { TakenExactly space.old (all_extents catalog.old.found.catalogue ++ new_extents desk) }
    ensures disk { Writes D.Disk (InOtherHalf catalog.old.found) disk.old disk.new }
    ensures cause { FailsByCount is_disk_fault_of_read (D.faults disk.old) (D.faults disk.new) result }
    ensures named { Names D.Disk catalog.old.found (arranged_at catalog.old.found desk) space.old catalog.new.found space.new result disk.old disk.new }
{
    let (volume, splits) = desk.finish();
    catalog.commit(disk, space, Step::Arrange { volume, splits })?;
    Ok(())
}
