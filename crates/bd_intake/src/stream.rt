//! The chunks of a stream, as they are decided.
ghost use Rattle.std.specs.Prelude.{◌≡◌, ℕ, ◌<◌, ◌≤◌, List, [], ◌++◌, length, OnOk, IfErr, IsTrue};
ghost use Rattle.bd_disk.specs.Runs.{Writes};
ghost use Rattle.bd_model.specs.Sizes.{sizes_of, disk_bytes};
ghost use Rattle.bd_space.specs.Allotment.{held_count};
ghost use Rattle.bd_catalog.specs.Agreement.{InExtents};
ghost use Rattle.bd_intake.specs.Causes.{FailsByDisk};
ghost use Rattle.bd_intake.specs.Given.{given_of};
ghost use Rattle.bd_intake.specs.Staging.{Grows, IsFed, IsStaging, staged_extents};
ghost use Rattle.bd_intake.specs.Taking.{RefusesDecided, TakesDecided};

use crate::fault::IntakeFault;
use crate::staging::{Staging, take_chunk};
use crate::terms::Terms;
use bd_disk::Disk;
use bd_gear::Chunker;
use bd_space::Space;

/// Takes every chunk that is decided.
pub(crate) fn take_chunks<D: Disk>(
    staging: &mut Staging,
    chunker: &mut Chunker,
    disk: &mut D,
    space: &mut Space,
    terms: &Terms<'_>,
) -> Result<(), IntakeFault>
    requires room { disk_bytes (sizes_of terms.now.shape) ≤ D.bytes disk.old }
    requires staging { IsStaging (given_of terms.now) space.old staging.old }
    requires fed { IsFed (sizes_of terms.now.shape) chunker.old }
    ensures disk { Writes D.Disk (InExtents (sizes_of terms.now.shape) (staged_extents staging.new)) disk.old disk.new }
    ensures cause { FailsByDisk (D.faults disk.old) (D.faults disk.new) result }
    ensures grows { Grows space.old space.new staging.old staging.new }
    ensures staging { OnOk result (IsStaging (given_of terms.now) space.new staging.new) }
    ensures short { OnOk result (length chunker.new.held < 65536) }
    ensures finished { OnOk result (chunker.new.finished ≡ chunker.old.finished) }
    ensures taken { OnOk result (TakesDecided D.Disk (IsTrue chunker.old.finished) (given_of terms.now) chunker.old chunker.new staging.old staging.new disk.old disk.new) }
    ensures refused { RefusesDecided (given_of terms.now) chunker.old staging.old (held_count space.old) result }
{
    while let Some(len) = chunker.next_length() {
        let taken = take_chunk(staging, disk, space, terms, chunker.chunk(len));
        chunker.advance(len);
        taken?;
    }
    Ok(())
}
