//! A store, opened from what its disk holds.
ghost use Rattle.std.specs.Prelude.{◌<◌, ◌≤◌, IfOk};
ghost use Rattle.bd_disk.specs.Calls.{FailsByCount};
ghost use Rattle.bd_disk.specs.History.{contents};
ghost use Rattle.bd_disk.specs.Images.{InRange};
ghost use Rattle.bd_disk.specs.Runs.{Reads};
ghost use Rattle.bd_model.specs.Sizes.{sizes_of, disk_bytes};
ghost use Rattle.bd_gate.specs.Halves.{BeforeExtents};
ghost use Rattle.bd_gate.specs.Superblock.{sizes_at};
ghost use Rattle.bd_catalog.specs.Opening.{opened};
ghost use Rattle.bd_recover.specs.Opens.{is_disk_fault_of_opening, AnswersRecovery, AnswersShape, AnswersShort, HasSpace, Rests, SyncsFirst};

use crate::claims::space_of;
use crate::fault::OpenFault;
use crate::superblock::checked_superblock;
use bd_catalog::Catalog;
use bd_disk::Disk;
use bd_model::{Place, Shape};
use bd_space::Space;
use std::alloc::Global;

/// An open store: its catalogue, and which extents are free.
#[derive(Drop)]
pub struct Opened {
    pub catalog: Catalog,
    pub space: Space,
}

/// Opens the store on a disk, or names the first check that fails. It makes sure of the disk first, and then reads of the
/// superblock and the halves alone.
pub fn open_image<D: Disk>(alloc: Global, disk: &mut D) -> Result<Opened, OpenFault>
    ensures disk { Reads D.Disk (BeforeExtents (sizes_at (contents (D.history disk.old)))) disk.old disk.new }
    ensures cause { FailsByCount is_disk_fault_of_opening (D.faults disk.old) (D.faults disk.new) result }
    ensures synced { D.tells → SyncsFirst (D.history disk.old) (D.history disk.new) }
    ensures opened { D.tells → AnswersRecovery (opened (contents (D.history disk.old))) result }
    ensures short { D.bytes disk.old < 64 → AnswersShort result }
    ensures room { IfOk result (λ made. disk_bytes made.catalog.found.sizes ≤ D.bytes disk.new) }
    ensures rests { IfOk result (λ made. D.tells → Rests made.catalog.found (D.history disk.new)) }
    ensures space { IfOk result (λ made. HasSpace made) }
{
    disk.sync()?;
    let shape = read_shape(disk)?;
    let catalog = Catalog::load(alloc, disk, shape)?;
    let space = space_of(alloc, &catalog)?;
    Ok(Opened { catalog, space })
}

// The shape of the store on a disk that is large enough for it, or the first check of the superblock that fails.
#[tactic(auto, using(bd_disk::proofs::RunLemmas::runs))]
fn read_shape<D: Disk>(disk: &mut D) -> Result<Shape, OpenFault>
    ensures disk { Reads D.Disk (InRange 0 64) disk.old disk.new }
    ensures cause { FailsByCount is_disk_fault_of_opening (D.faults disk.old) (D.faults disk.new) result }
    ensures shape { D.tells → AnswersShape (contents (D.history disk.old)) result }
    ensures short { D.bytes disk.old < 64 → AnswersShort result }
    ensures room { IfOk result (λ shape. disk_bytes (sizes_of shape) ≤ D.bytes disk.old) }
{
    let have = disk.size();
    if have < 64 {
        return Err(OpenFault::NotAStore {
            place: Place::Short,
        });
    }
    let mut bytes = [0u8; 64];
    disk.read(0, &mut bytes)?;
    let shape = checked_superblock(&bytes)?;
    if have < shape.disk_bytes() {
        return Err(OpenFault::NotAStore { place: Place::Room });
    }
    Ok(shape)
}
