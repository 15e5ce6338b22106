//! The calls of a commit: a half is closed, filled and opened.
ghost use Rattle.std.specs.Prelude.{◌≡◌, ◌+◌, ◌-◌, ◌<◌, ◌≤◌, [], ◌∷◌, true, false, length, OnOk};
ghost use Rattle.bd_disk.specs.Calls.{HasCause};
ghost use Rattle.bd_disk.specs.History.{contents};
ghost use Rattle.bd_disk.specs.Images.{InRange};
ghost use Rattle.bd_disk.specs.Made.{Stores};
ghost use Rattle.bd_disk.specs.Runs.{Writes};
ghost use Rattle.bd_model.specs.Sizes.{sizes_of, disk_bytes, half_bytes, half_place};
ghost use Rattle.bd_gate.specs.Commits.{closing_calls, commit_calls, MakesOrFails, StoresOrFails};
ghost use Rattle.bd_gate.specs.Halves.{InFrame, InGate, InHalf};
ghost use Rattle.bd_gate.specs.Standing.{IsOlderHalf, IsNextTurn, BeginsNextTurn, BringsNextTurn, KeepsStanding, KeepsOrOpens, KeepsOrCommits, LeavesOpened, LeavesCommitted};
ghost use Rattle.bd_gate.specs.Superblock.{open_gate, closed_gate};

use crate::half::{CLOSED_GATE, OPEN_GATE, place_of_half};
use bd_disk::{Disk, Failed};
use bd_model::Shape;

/// Writes these bytes with one call, and makes sure of them with another. Behind a call that failed it makes no other.
pub fn store<D: Disk>(disk: &mut D, at: u64, from: &[u8]) -> Result<(), Failed>
    requires { at + length from.now ≤ D.bytes disk.old }
    ensures disk { Writes D.Disk (InRange at (length from.now)) disk.old disk.new }
    ensures cause { HasCause (D.faults disk.old) (D.faults disk.new) result }
    ensures stored { D.tells → StoresOrFails at from.now (D.history disk.old) (D.history disk.new) result }
{
    disk.write(at, from)?;
    disk.sync()?;
    Ok(())
}

/// Closes the gate of a half that is open and isn't the newest, and makes sure of it.
///
/// A stop at any moment leaves the newest half as it is.
pub fn close_half<D: Disk>(disk: &mut D, shape: &Shape, number: u8) -> Result<(), Failed>
    requires number { number < 2 }
    requires room { disk_bytes (sizes_of shape.now) ≤ D.bytes disk.old }
    requires ready { D.tells → IsOlderHalf (sizes_of shape.now) number true (D.history disk.old) }
    ensures disk { Writes D.Disk (InGate (sizes_of shape.now) number) disk.old disk.new }
    ensures cause { HasCause (D.faults disk.old) (D.faults disk.new) result }
    ensures stops { D.tells → KeepsStanding (sizes_of shape.now) (D.history disk.old) (D.history disk.new) }
    ensures stored { D.tells → StoresOrFails (half_place (sizes_of shape.now) number) (closed_gate ∷ []) (D.history disk.old) (D.history disk.new) result }
    // The half can be filled.
    ensures done { OnOk result (D.tells →
        IsOlderHalf (sizes_of shape.now) number false (D.history disk.new)) }
{
    let place = place_of_half(shape, number);
    store(disk, place, &[CLOSED_GATE])?;
    Ok(())
}

/// Writes a frame into a half that is closed, behind its gate, and makes sure of it. A frame is the half's turn, the
/// length of its payload in eight bytes, the payload and a closed gate.
///
/// A stop at any moment leaves the newest half as it is.
pub fn fill_half<D: Disk>(
    disk: &mut D,
    shape: &Shape,
    number: u8,
    frame: &[u8],
) -> Result<(), Failed>
    requires number { number < 2 }
    requires room { disk_bytes (sizes_of shape.now) ≤ D.bytes disk.old }
    requires some { 1 ≤ length frame.now }
    requires fits { length frame.now + 1 ≤ half_bytes (sizes_of shape.now) }
    requires ready { D.tells → IsOlderHalf (sizes_of shape.now) number false (D.history disk.old) }
    ensures disk { Writes D.Disk (InFrame (sizes_of shape.now) number (length frame.now)) disk.old disk.new }
    ensures cause { HasCause (D.faults disk.old) (D.faults disk.new) result }
    ensures stops { D.tells → KeepsStanding (sizes_of shape.now) (D.history disk.old) (D.history disk.new) }
    ensures stored { D.tells → StoresOrFails (half_place (sizes_of shape.now) number + 1) frame.now (D.history disk.old) (D.history disk.new) result }
    // The half can be opened, if the frame begins with the next turn.
    ensures done { OnOk result (D.tells →
        IsOlderHalf (sizes_of shape.now) number false (D.history disk.new)) }
    ensures turn { OnOk result (D.tells →
        BringsNextTurn (sizes_of shape.now) number frame.now (D.history disk.old) (D.history disk.new)) }
{
    let place = place_of_half(shape, number);
    store(disk, place + 1, frame)?;
    Ok(())
}

/// Opens the gate of a half that is closed and filled, whose turn is the next one, and makes sure of it.
///
/// A stop at any moment leaves the newest half as it was, or this one; once it has answered Ok, this one.
pub fn open_half<D: Disk>(disk: &mut D, shape: &Shape, number: u8) -> Result<(), Failed>
    requires number { number < 2 }
    requires room { disk_bytes (sizes_of shape.now) ≤ D.bytes disk.old }
    requires ready { D.tells → IsOlderHalf (sizes_of shape.now) number false (D.history disk.old) }
    requires turn { D.tells →
        IsNextTurn (sizes_of shape.now) number (contents (D.history disk.old)) }
    ensures disk { Writes D.Disk (InGate (sizes_of shape.now) number) disk.old disk.new }
    ensures cause { HasCause (D.faults disk.old) (D.faults disk.new) result }
    ensures stops { D.tells → KeepsOrOpens (sizes_of shape.now) number (D.history disk.old) (D.history disk.new) }
    ensures stored { D.tells → StoresOrFails (half_place (sizes_of shape.now) number) (open_gate ∷ []) (D.history disk.old) (D.history disk.new) result }
    ensures done { OnOk result (D.tells → LeavesOpened (sizes_of shape.now) number (D.history disk.old) (D.history disk.new)) }
    // The other half is open, and is the next one to be closed.
    ensures next { OnOk result (D.tells →
        IsOlderHalf (sizes_of shape.now) (1 - number) true (D.history disk.new)) }
{
    let place = place_of_half(shape, number);
    store(disk, place, &[OPEN_GATE])?;
    Ok(())
}

// Closes a half that isn't the newest, where it is open. A closed gate isn't written, since a stop within that write
// could leave it open.
fn close_where_open<D: Disk>(
    disk: &mut D,
    shape: &Shape,
    number: u8,
    is_open: bool,
) -> Result<(), Failed>
    requires number { number < 2 }
    requires room { disk_bytes (sizes_of shape.now) ≤ D.bytes disk.old }
    requires ready { D.tells → IsOlderHalf (sizes_of shape.now) number is_open (D.history disk.old) }
    ensures disk { Writes D.Disk (InGate (sizes_of shape.now) number) disk.old disk.new }
    ensures cause { HasCause (D.faults disk.old) (D.faults disk.new) result }
    ensures stops { D.tells → KeepsStanding (sizes_of shape.now) (D.history disk.old) (D.history disk.new) }
    ensures calls { D.tells → MakesOrFails (closing_calls (sizes_of shape.now) number is_open) (D.history disk.old) (D.history disk.new) result }
    ensures done { OnOk result (D.tells →
        IsOlderHalf (sizes_of shape.now) number false (D.history disk.new)) }
{
    if !is_open {
        return Ok(());
    }
    close_half(disk, shape, number)?;
    Ok(())
}

/// Puts a frame in the place of the newest half: closes this half, which isn't the newest, where it is open, fills it with
/// the frame, and opens it, each with one write and one sync. A half that is closed already isn't closed again. Behind a
/// call that failed it makes no other.
///
/// A stop at any moment, also after `Failed`, leaves the newest half as it was, or the frame and everything outside this
/// half as it was. Once it has answered Ok a stop leaves the frame.
pub fn commit_frame<D: Disk>(
    disk: &mut D,
    shape: &Shape,
    number: u8,
    is_open: bool,
    frame: &[u8],
) -> Result<(), Failed>
    requires number { number < 2 }
    requires room { disk_bytes (sizes_of shape.now) ≤ D.bytes disk.old }
    requires some { 1 ≤ length frame.now }
    requires fits { length frame.now + 1 ≤ half_bytes (sizes_of shape.now) }
    requires ready { D.tells → IsOlderHalf (sizes_of shape.now) number is_open (D.history disk.old) }
    requires turn { D.tells →
        BeginsNextTurn (sizes_of shape.now) number frame.now (contents (D.history disk.old)) }
    ensures disk { Writes D.Disk (InHalf (sizes_of shape.now) number) disk.old disk.new }
    ensures cause { HasCause (D.faults disk.old) (D.faults disk.new) result }
    ensures stops { D.tells → KeepsOrCommits (sizes_of shape.now) number frame.now (D.history disk.old) (D.history disk.new) }
    // The contents are the old ones with the open gate and the frame, and a stop leaves nothing else.
    ensures stores { OnOk result (D.tells →
        Stores (half_place (sizes_of shape.now) number) (open_gate ∷ frame.now)
        (D.history disk.old) (D.history disk.new)) }
    ensures calls { D.tells → MakesOrFails (commit_calls (sizes_of shape.now) number is_open frame.now) (D.history disk.old) (D.history disk.new) result }
    ensures done { OnOk result (D.tells →
        LeavesCommitted (sizes_of shape.now) number frame.now (D.history disk.old) (D.history disk.new)) }
    // The other half is open, and is the next one to be written.
    ensures next { OnOk result (D.tells →
        IsOlderHalf (sizes_of shape.now) (1 - number) true (D.history disk.new)) }
{
    close_where_open(disk, shape, number, is_open)?;
    fill_half(disk, shape, number, frame)?;
    open_half(disk, shape, number)?;
    Ok(())
}
