//! A source, piece after piece.
ghost use Rattle.std.specs.Prelude.{◌<◌, ◌≤◌, length, OnOk, IfOk, IsFalse};
ghost use Rattle.bd_disk.specs.History.{contents};
ghost use Rattle.bd_disk.specs.Runs.{Writes};
ghost use Rattle.bd_files.specs.Files.{Fetches};
ghost use Rattle.bd_model.specs.Sizes.{sizes_of, disk_bytes};
ghost use Rattle.bd_space.specs.Allotment.{held_count};
ghost use Rattle.bd_catalog.specs.Agreement.{InExtents};
ghost use Rattle.bd_intake.specs.Causes.{FailsByTheirCounts, FailsByDisk, FailsBySource};
ghost use Rattle.bd_intake.specs.Filling.{HasCome, ComesIn, LeavesFiles};
ghost use Rattle.bd_intake.specs.Given.{given_of};
ghost use Rattle.bd_intake.specs.Staging.{Grows, IsFed, IsStaging, staged_extents};
ghost use Rattle.bd_intake.specs.Taking.{RefusesPiece, RefusesSource, TakesPiece};

use crate::fault::IntakeFault;
use crate::staging::Staging;
use crate::stream::take_chunks;
use crate::terms::Terms;
use bd_disk::Disk;
use bd_files::Files;
use bd_gear::Chunker;
use bd_model::Name;
use bd_space::Space;

/// The bytes that are fetched at once. A chunker that has no decided chunk left has room for them.
const PIECE: usize = 65_536;

// Fetches bytes of the source from place `at` on, and answers how many.
fn fetch_piece<F: Files>(
    files: &mut F,
    name: &Name,
    at: u64,
    into: &mut [u8],
) -> Result<usize, IntakeFault>
    ensures cause { FailsBySource (F.source_faults files.old) (F.source_faults files.new) result }
    ensures files { LeavesFiles F.Files name.now files.old files.new result }
    ensures within { IfOk result (λ n. n ≤ length into.old) }
    ensures read { IfOk result (λ n. F.tells → Fetches (F.files files.old) name.now at (length into.old) n into.new) }
{
    match files.fetch(name, at, into) {
        Ok(count) => Ok(count),
        Err(_) => Err(IntakeFault::SourceFault),
    }
}

// Takes the chunks that these bytes decide.
fn take_piece<D: Disk>(
    staging: &mut Staging,
    chunker: &mut Chunker,
    disk: &mut D,
    space: &mut Space,
    terms: &Terms<'_>,
    piece: &[u8],
) -> Result<(), IntakeFault>
    requires room { disk_bytes (sizes_of terms.now.shape) ≤ D.bytes disk.old }
    requires staging { IsStaging (given_of terms.now) space.old staging.old }
    requires fed { IsFed (sizes_of terms.now.shape) chunker.old }
    requires few { length piece.now ≤ 65536 }
    requires open { IsFalse chunker.old.finished }
    requires short { length chunker.old.held < 65536 }
    ensures disk { Writes D.Disk (InExtents (sizes_of terms.now.shape) (staged_extents staging.new)) disk.old disk.new }
    ensures cause { FailsByDisk (D.faults disk.old) (D.faults disk.new) result }
    ensures grows { Grows space.old space.new staging.old staging.new }
    ensures staging { OnOk result (IsStaging (given_of terms.now) space.new staging.new) }
    ensures open { OnOk result (IsFalse chunker.new.finished) }
    ensures short { OnOk result (length chunker.new.held < 65536) }
    ensures taken { OnOk result (TakesPiece D.Disk (given_of terms.now) piece.now chunker.old chunker.new staging.old staging.new disk.old disk.new) }
    ensures refused { RefusesPiece (given_of terms.now) piece.now chunker.old staging.old (held_count space.old) result }
{
    chunker.feed(piece);
    take_chunks(staging, chunker, disk, space, terms)
}

/// Takes the chunks of the source, all but those that its end decides.
pub(crate) fn fill<D: Disk, F: Files>(
    staging: &mut Staging,
    chunker: &mut Chunker,
    disk: &mut D,
    space: &mut Space,
    terms: &Terms<'_>,
    files: &mut F,
    name: &Name,
) -> Result<(), IntakeFault>
    requires room { disk_bytes (sizes_of terms.now.shape) ≤ D.bytes disk.old }
    requires staging { IsStaging (given_of terms.now) space.old staging.old }
    requires open { IsFalse chunker.old.finished }
    requires short { length chunker.old.held < 65536 }
    requires fills { ComesIn (given_of terms.now) 0 chunker.old staging.old D.tells (contents (D.history disk.old)) F.tells (F.files files.old) name.now }
    ensures disk { Writes D.Disk (InExtents (sizes_of terms.now.shape) (staged_extents staging.new)) disk.old disk.new }
    ensures cause { FailsByTheirCounts (D.faults disk.old) (D.faults disk.new) (F.source_faults files.old) (F.source_faults files.new) result }
    ensures files { LeavesFiles F.Files name.now files.old files.new result }
    ensures grows { Grows space.old space.new staging.old staging.new }
    ensures staging { OnOk result (IsStaging (given_of terms.now) space.new staging.new) }
    ensures filled { OnOk result (HasCome (given_of terms.now) chunker.new staging.new D.tells (contents (D.history disk.new)) F.tells (F.files files.old) name.now) }
    ensures refused { RefusesSource F.Files name.now files.old (given_of terms.now) (held_count space.old) result }
{
    let mut buffer = [0u8; PIECE];
    let mut at = 0u64;
    loop {
        let count = fetch_piece(files, name, at, &mut buffer)?;
        if count == 0 {
            return Ok(());
        }
        take_piece(staging, chunker, disk, space, terms, &buffer[..count])?;
        at += count as u64;
    }
}
