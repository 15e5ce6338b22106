//! The empty store, made on a disk.
ghost use Rattle.std.specs.Prelude.{◌≡◌, ◌≢◌, Err, ◌+◌, ◌≤◌, ◌==◌, length, OnOk, IfOk, Ok};
ghost use Rattle.bd_disk.specs.Calls.{FailsByCount, HasCause};
ghost use Rattle.bd_disk.specs.History.{contents};
ghost use Rattle.bd_disk.specs.Images.{InRange};
ghost use Rattle.bd_disk.specs.Made.{IsSettled, TouchesNothing};
ghost use Rattle.bd_disk.specs.Runs.{Reads, Works, Writes};
ghost use Rattle.bd_model.specs.Sizes.{sizes_of, disk_bytes};
ghost use Rattle.bd_gate.specs.Halves.{BeforeExtents};
ghost use Rattle.bd_gate.specs.Superblock.{is_marked, byte_at, open_gate};
ghost use Rattle.bd_catalog.specs.Opening.{opened};
ghost use Rattle.bd_recover.specs.Fresh.{fresh_found, FormatStops, HoldsFresh, InParts};
ghost use Rattle.bd_recover.specs.Answers.{format_refusal, is_disk_fault_of_format, AnswersFormat, IsFormatAnswer, MeasuresFormat, TakesNoMemory};
ghost use Rattle.bd_recover.specs.Opens.{HasSpace, Rests, SyncsFirst};

use crate::fault::FormatFault;
use crate::fresh::{fresh_half, superblock_body};
use crate::opening::Opened;
use bd_catalog::Catalog;
use bd_disk::{Disk, Failed};
use bd_gate::{CLOSED_GATE, OPEN_GATE, store};
use bd_model::Shape;
use bd_space::Space;
use std::alloc::Global;

/// Makes the empty store of this shape on a disk, as `format_disk` does, and opens it. All memory is taken before the disk
/// is asked for anything.
#[tactic(auto, using(bd_disk::proofs::RunLemmas::runs))]
pub fn format<D: Disk>(alloc: Global, disk: &mut D, shape: Shape) -> Result<Opened, FormatFault>
    ensures disk { Works D.Disk (InRange 0 64) (BeforeExtents (sizes_of shape)) disk.old disk.new }
    ensures cause { FailsByCount is_disk_fault_of_format (D.faults disk.old) (D.faults disk.new) result }
    ensures memory { result ≡ Err FormatFault.OutOfMemory → D.tells → TouchesNothing (D.history disk.old) (D.history disk.new) }
    ensures synced { result ≢ Err FormatFault.OutOfMemory → D.tells → SyncsFirst (D.history disk.old) (D.history disk.new) }
    ensures answer { IsFormatAnswer D.Disk (sizes_of shape) disk.old disk.new result }
    ensures made { IfOk result (λ made. made.catalog.found ≡ fresh_found (sizes_of shape)) }
    ensures rests { IfOk result (λ made. D.tells → Rests made.catalog.found (D.history disk.new)) }
    ensures space { IfOk result (λ made. HasSpace made) }
    ensures stops { D.tells → FormatStops (sizes_of shape) (D.history disk.old) (D.history disk.new) }
{
    let catalog = Catalog::empty(alloc, shape)?;
    let space = Space::new(alloc, shape.extents())?;
    format_disk(disk, &shape)?;
    Ok(Opened { catalog, space })
}

/// Makes the empty store of this shape on a disk that is large enough and isn't a store already. The gate of the
/// superblock is closed first and opened last, so that a stop leaves no store or the empty one.
#[tactic(auto, using(bd_disk::proofs::RunLemmas::runs))]
pub fn format_disk<D: Disk>(disk: &mut D, shape: &Shape) -> Result<(), FormatFault>
    ensures disk { Works D.Disk (InRange 0 64) (BeforeExtents (sizes_of shape.now)) disk.old disk.new }
    ensures cause { FailsByCount is_disk_fault_of_format (D.faults disk.old) (D.faults disk.new) result }
    ensures memory { TakesNoMemory result }
    ensures synced { D.tells → SyncsFirst (D.history disk.old) (D.history disk.new) }
    ensures answer { IsFormatAnswer D.Disk (sizes_of shape.now) disk.old disk.new result }
    // The contents are the empty store, and a stop leaves nothing else.
    ensures made { OnOk result (D.tells → opened (contents (D.history disk.new)) ≡ Ok (fresh_found (sizes_of shape.now))) }
    ensures settled { OnOk result (D.tells → IsSettled (D.history disk.new)) }
    ensures stops { D.tells → FormatStops (sizes_of shape.now) (D.history disk.old) (D.history disk.new) }
{
    shut_gate(disk, shape)?;
    write_parts(disk, shape)?;
    store(disk, 0, &[OPEN_GATE])?;
    Ok(())
}

// Closes the first gate where it is open, or tells why the disk isn't formatted.
fn shut_gate<D: Disk>(disk: &mut D, shape: &Shape) -> Result<(), FormatFault>
    ensures disk { Works D.Disk (InRange 0 64) (InRange 0 1) disk.old disk.new }
    ensures cause { FailsByCount is_disk_fault_of_format (D.faults disk.old) (D.faults disk.new) result }
    ensures memory { TakesNoMemory result }
    ensures synced { D.tells → SyncsFirst (D.history disk.old) (D.history disk.new) }
    ensures answer { IsFormatAnswer D.Disk (sizes_of shape.now) disk.old disk.new result }
    ensures shut { OnOk result (D.tells → byte_at (contents (D.history disk.new)) 0 ≢ open_gate) }
    ensures settled { OnOk result (D.tells → IsSettled (D.history disk.old) → IsSettled (D.history disk.new)) }
    ensures stops { D.tells → FormatStops (sizes_of shape.now) (D.history disk.old) (D.history disk.new) }
{
    if asks_for_closing(disk, shape)? {
        store(disk, 0, &[CLOSED_GATE])?;
    }
    Ok(())
}

// Whether the first gate has to be closed; or why the disk isn't formatted.
fn asks_for_closing<D: Disk>(disk: &mut D, shape: &Shape) -> Result<bool, FormatFault>
    ensures disk { Reads D.Disk (InRange 0 64) disk.old disk.new }
    ensures cause { FailsByCount is_disk_fault_of_format (D.faults disk.old) (D.faults disk.new) result }
    ensures memory { TakesNoMemory result }
    ensures synced { D.tells → SyncsFirst (D.history disk.old) (D.history disk.new) }
    ensures size { MeasuresFormat (sizes_of shape.now) (D.bytes disk.old) result }
    ensures refused { D.tells → AnswersFormat (format_refusal (sizes_of shape.now) (D.bytes disk.old) (contents (D.history disk.old))) result }
    ensures gate { IfOk result (λ closing. D.tells → closing ≡ (byte_at (contents (D.history disk.old)) 0 == open_gate)) }
{
    disk.sync()?;
    let have = disk.size();
    let need = shape.disk_bytes();
    if have < 64 {
        return Err(FormatFault::TooSmall { need, have });
    }
    let mut bytes = [0u8; 64];
    disk.read(0, &mut bytes)?;
    if is_marked(&bytes) {
        return Err(FormatFault::AlreadyAStore);
    }
    if have < need {
        return Err(FormatFault::TooSmall { need, have });
    }
    Ok(bytes[0] == OPEN_GATE)
}

// Whether a superblock says that the disk is a store.
fn is_marked(superblock: &[u8; 64]) -> bool
    ensures { result ≡ is_marked superblock.now }
{
    superblock[0] == OPEN_GATE && &superblock[1..8] == b"BDSTORE".as_slice()
}

// All but the gate of the superblock.
fn write_parts<D: Disk>(disk: &mut D, shape: &Shape) -> Result<(), Failed>
    requires room { disk_bytes (sizes_of shape.now) ≤ D.bytes disk.old }
    ensures disk { Writes D.Disk (InParts (sizes_of shape.now)) disk.old disk.new }
    ensures cause { HasCause (D.faults disk.old) (D.faults disk.new) result }
    ensures fresh { OnOk result (D.tells → HoldsFresh (sizes_of shape.now) (contents (D.history disk.new))) }
    ensures settled { OnOk result (D.tells → IsSettled (D.history disk.new)) }
{
    disk.write(64, &fresh_half())?;
    disk.write(64 + shape.half_bytes(), &[CLOSED_GATE])?;
    disk.write(1, &superblock_body(shape))?;
    disk.sync()?;
    Ok(())
}
