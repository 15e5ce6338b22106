//! The log of the newest half: a record is appended to it, and its bytes are read.
ghost use Rattle.std.specs.Prelude.{◌≡◌, ◌+◌, ◌<◌, ◌≤◌, [], ◌∷◌, length, OnOk};
ghost use Rattle.bd_disk.specs.Calls.{HasCause};
ghost use Rattle.bd_disk.specs.History.{contents};
ghost use Rattle.bd_disk.specs.Images.{InRange, bytes_at};
ghost use Rattle.bd_disk.specs.Made.{Stores};
ghost use Rattle.bd_disk.specs.Runs.{Reads, Writes};
ghost use Rattle.bd_disk.specs.Trace.{ReadsOnly, upward};
ghost use Rattle.bd_model.specs.Sizes.{sizes_of, disk_bytes, half_bytes, half_place};
ghost use Rattle.bd_gate.specs.Commits.{MakesOrFails};
ghost use Rattle.bd_gate.specs.Logs.{append_calls, EndsShut, InRecord, IsLogEnd, KeepsOrAppends};
ghost use Rattle.bd_gate.specs.Replays.{first_gated};
ghost use Rattle.bd_gate.specs.Superblock.{open_gate};

use crate::commit::store;
use crate::half::{Half, OPEN_GATE, place_of_half};
use bd_disk::{Disk, Failed};
use bd_model::Shape;

/// Appends a record to the log of the newest half: writes the frame behind the closed gate that ends the log, and opens
/// that gate, with one write and one sync each. A frame is the record's length in four bytes, the record, and the next
/// gate, which is closed. Behind a call that failed it makes no other.
///
/// A stop at any moment, also after `Failed`, leaves the halves as they were and the gate closed, where nothing is said of
/// the bytes behind it; or the whole record and all else as it was.
pub fn append_gated<D: Disk>(
    disk: &mut D,
    shape: &Shape,
    half: &Half,
    at: u64,
    frame: &[u8],
) -> Result<(), Failed>
    requires room { disk_bytes (sizes_of shape.now) ≤ D.bytes disk.old }
    requires number { half.now.number < 2 }
    requires fits { at + 1 + length frame.now ≤ half_bytes (sizes_of shape.now) }
    requires ends { EndsShut frame.now }
    requires ready { D.tells →
        IsLogEnd (sizes_of shape.now) half.now.number (half_place (sizes_of shape.now) half.now.number + at) (D.history disk.old) }
    ensures disk { Writes D.Disk (InRecord (half_place (sizes_of shape.now) half.now.number + at) (length frame.now)) disk.old disk.new }
    ensures cause { HasCause (D.faults disk.old) (D.faults disk.new) result }
    ensures stops { D.tells →
        KeepsOrAppends (sizes_of shape.now) (half_place (sizes_of shape.now) half.now.number + at) frame.now (D.history disk.old) (D.history disk.new) }
    // The contents are the old ones with the open gate and the frame, and a stop leaves nothing else.
    ensures stores { OnOk result (D.tells →
        Stores (half_place (sizes_of shape.now) half.now.number + at) (open_gate ∷ frame.now)
        (D.history disk.old) (D.history disk.new)) }
    ensures calls { D.tells →
        MakesOrFails (append_calls (half_place (sizes_of shape.now) half.now.number + at) frame.now) (D.history disk.old) (D.history disk.new) result }
    // The gate at the end of the frame ends the log.
    ensures next { OnOk result (D.tells →
        IsLogEnd (sizes_of shape.now) half.now.number (half_place (sizes_of shape.now) half.now.number + at + length frame.now) (D.history disk.new)) }
{
    let place = place_of_half(shape, half.number) + at;
    store(disk, place + 1, frame)?;
    store(disk, place, &[OPEN_GATE])?;
    Ok(())
}

/// Reads the bytes of a half from this place of it on.
pub fn read_log<D: Disk>(
    disk: &mut D,
    shape: &Shape,
    half: &Half,
    at: u64,
    into: &mut [u8],
) -> Result<(), Failed>
    requires room { disk_bytes (sizes_of shape.now) ≤ D.bytes disk.old }
    requires number { half.now.number < 2 }
    requires behind { 10 + half.now.length ≤ at }
    requires inside { at + length into.old ≤ half_bytes (sizes_of shape.now) }
    ensures disk { Reads D.Disk (InRange (half_place (sizes_of shape.now) half.now.number + at) (length into.old)) disk.old disk.new }
    ensures cause { HasCause (D.faults disk.old) (D.faults disk.new) result }
    ensures read { OnOk result (D.tells →
        into.new ≡ bytes_at (half_place (sizes_of shape.now) half.now.number + at) (length into.old) (contents (D.history disk.old))) }
    ensures places { OnOk result (D.tells →
        ReadsOnly (upward (half_place (sizes_of shape.now) half.now.number + at) (length into.old))
        (D.history disk.old) (D.history disk.new)) }
{
    let place = place_of_half(shape, half.number) + at;
    disk.read(place, into)?;
    Ok(())
}

/// What stands at a gate of a log.
#[derive(Clone, Copy, PartialEq, Eq, Debug)]
pub enum Gated {
    /// A closed gate, which ends the log.
    Ends,
    /// An open gate, and the record or the gate behind it doesn't end among the bytes.
    Broken,
    /// An open gate, and behind it the length of a record in four bytes, so many bytes of it, and a gate.
    Record { length: u32 },
}

/// What stands at the gate with which these bytes begin.
pub fn first_record(bytes: &[u8]) -> Gated
    requires some { 1 ≤ length bytes.now }
    ensures { result ≡ first_gated bytes.now }
{
    if bytes[0] != OPEN_GATE {
        return Gated::Ends;
    }
    if bytes.len() < 6 {
        return Gated::Broken;
    }
    let mut told = [0u8; 4];
    told.copy_from_slice(&bytes[1..5]);
    let length = u32::from_be_bytes(told);
    if ((bytes.len() - 6) as u64) < u64::from(length) {
        return Gated::Broken;
    }
    Gated::Record { length }
}
