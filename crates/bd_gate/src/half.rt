//! The newest half, and its payload.
ghost use Rattle.std.specs.Prelude.{◌≡◌, ◌+◌, ◌*◌, ◌<◌, ◌≤◌, ◌==◌, length, IfOk, OnOk};
ghost use Rattle.bd_disk.specs.Calls.{FailsByCount, HasCause};
ghost use Rattle.bd_disk.specs.History.{contents};
ghost use Rattle.bd_disk.specs.Runs.{Reads};
ghost use Rattle.bd_disk.specs.Trace.{ReadsOnly, upward};
ghost use Rattle.bd_model.specs.Sizes.{sizes_of, disk_bytes, half_bytes, half_place, payload_room};
ghost use Rattle.bd_gate.specs.Finding.{is_disk_fault_of_gate, front_places, IsFound, UnlessFault};
ghost use Rattle.bd_gate.specs.Halves.{newer, newest_by, payload_of, InFronts, InPayload};
ghost use Rattle.bd_gate.specs.Superblock.{open_gate, byte_at, eight_at};

use bd_disk::{Disk, Failed};
use bd_model::Shape;

/// The byte of an open gate. Every other byte is a closed one.
pub const OPEN_GATE: u8 = 0x4F;

/// The byte that is written to close a gate.
pub const CLOSED_GATE: u8 = 0;

/// The newest half.
#[derive(Clone, Copy, PartialEq, Eq, Debug)]
pub struct Half {
    /// 0 or 1.
    pub number: u8,
    /// 0, 1 or 2.
    pub turn: u8,
    /// The bytes of its payload.
    pub length: u64,
    /// Whether the gate of the other half is open.
    pub other_open: bool,
}

/// Why no newest half was found.
#[derive(Clone, Copy, PartialEq, Eq, Debug)]
pub enum GateFault {
    /// The gates and the turns of both halves leave none as the newest.
    NoHalf { gates: [u8; 2], turns: [u8; 2] },
    /// The disk answered `Failed`.
    DiskFault,
}

impl From<Failed> for GateFault {
    ghost use Rattle.std.specs.Prelude.{◌≡◌};
    ghost use Rattle.bd_gate.specs.declared.half.GateFault.TheVariants.{DiskFault};

    ghost from_gives = { λ _ e. e ≡ DiskFault };

    fn from(_failed: Failed) -> GateFault {
        GateFault::DiskFault
    }
}

// What stands before the payload of a half.
#[derive(Clone, Copy)]
struct Front {
    gate: u8,
    turn: u8,
    length: u64,
}

impl Front {
    fn is_open(&self) -> bool
        ensures { result ≡ (self.now.gate == open_gate) }
    {
        self.gate == OPEN_GATE
    }
}

/// The place at which a half begins.
pub(crate) fn place_of_half(shape: &Shape, number: u8) -> u64
    requires { number < 2 }
    ensures place { result ≡ half_place (sizes_of shape.now) number }
    ensures inside { result + half_bytes (sizes_of shape.now) ≤ disk_bytes (sizes_of shape.now) }
    ensures small { result + half_bytes (sizes_of shape.now) < 8388608 }
{
    64 + u64::from(number) * shape.half_bytes()
}

// What stands on the disk before the payload of a half.
fn read_front<D: Disk>(disk: &mut D, shape: &Shape, number: u8) -> Result<Front, Failed>
    requires number { number < 2 }
    requires room { disk_bytes (sizes_of shape.now) ≤ D.bytes disk.old }
    ensures disk { Reads D.Disk (InFronts (sizes_of shape.now)) disk.old disk.new }
    ensures cause { HasCause (D.faults disk.old) (D.faults disk.new) result }
    ensures gate { IfOk result (λ front. D.tells →
        front.gate ≡ byte_at (contents (D.history disk.old)) (half_place (sizes_of shape.now) number)) }
    ensures turn { IfOk result (λ front. D.tells →
        front.turn ≡ byte_at (contents (D.history disk.old)) (half_place (sizes_of shape.now) number + 1)) }
    ensures length { IfOk result (λ front. D.tells →
        front.length ≡ eight_at (contents (D.history disk.old)) (half_place (sizes_of shape.now) number + 2)) }
    ensures places { OnOk result (D.tells →
        ReadsOnly (upward (half_place (sizes_of shape.now) number) 10)
        (D.history disk.old) (D.history disk.new)) }
{
    let mut bytes = [0u8; 10];
    let place = place_of_half(shape, number);
    disk.read(place, &mut bytes)?;
    let mut length = [0u8; 8];
    length.copy_from_slice(&bytes[2..]);
    Ok(Front {
        gate: bytes[0],
        turn: bytes[1],
        length: u64::from_be_bytes(length),
    })
}

// The newer of two open halves: its turn is one ahead, modulo 3.
fn newer_of(first: u8, second: u8) -> Option<u8>
    requires first { first ≤ 2 }
    requires second { second ≤ 2 }
    ensures { result ≡ newer first second }
{
    if second == (first + 1) % 3 {
        Some(1)
    } else if first == (second + 1) % 3 {
        Some(0)
    } else {
        None
    }
}

// The newest of the two halves, by their gates and turns.
#[tactic(auto, unfolding(crate::specs::Halves::newest_by))]
fn newest_of(first: Front, second: Front) -> Option<u8>
    ensures { result ≡ newest_by (first.gate == open_gate) first.turn (second.gate == open_gate) second.turn }
{
    if first.is_open() && second.is_open() {
        if first.turn > 2 || second.turn > 2 {
            None
        } else {
            newer_of(first.turn, second.turn)
        }
    } else if first.is_open() && first.turn <= 2 {
        Some(0)
    } else if second.is_open() && second.turn <= 2 {
        Some(1)
    } else {
        None
    }
}

/// Finds the newest half of a disk, by ten bytes of each half.
///
/// It is the one half whose gate is open, if its turn is at most 2. Where both are open, both turns must be at most 2 and
/// differ, and it is the half whose turn is the other's plus one, modulo 3. Else there is none, and the answer is `NoHalf`.
#[tactic(auto, using(bd_disk::proofs::RunLemmas::runs))]
pub fn newest_half<D: Disk>(disk: &mut D, shape: &Shape) -> Result<Half, GateFault>
    requires room { disk_bytes (sizes_of shape.now) ≤ D.bytes disk.old }
    ensures disk { Reads D.Disk (InFronts (sizes_of shape.now)) disk.old disk.new }
    ensures cause { FailsByCount is_disk_fault_of_gate (D.faults disk.old) (D.faults disk.new) result }
    ensures found { D.tells → IsFound (sizes_of shape.now) (contents (D.history disk.old)) result }
    ensures range { IfOk result (λ half. (half.number ≤ 1) × (half.turn ≤ 2)) }
    ensures places { UnlessFault result (D.tells →
        ReadsOnly (front_places (sizes_of shape.now)) (D.history disk.old) (D.history disk.new)) }
{
    let first = read_front(disk, shape, 0)?;
    let second = read_front(disk, shape, 1)?;
    match newest_of(first, second) {
        Some(0) => Ok(Half {
            number: 0,
            turn: first.turn,
            length: first.length,
            other_open: second.is_open(),
        }),
        Some(_) => Ok(Half {
            number: 1,
            turn: second.turn,
            length: second.length,
            other_open: first.is_open(),
        }),
        None => Err(GateFault::NoHalf {
            gates: [first.gate, second.gate],
            turns: [first.turn, second.turn],
        }),
    }
}

/// Reads the payload of a half.
pub fn read_payload<D: Disk>(
    disk: &mut D,
    shape: &Shape,
    half: &Half,
    into: &mut [u8],
) -> Result<(), Failed>
    requires room { disk_bytes (sizes_of shape.now) ≤ D.bytes disk.old }
    requires number { half.now.number < 2 }
    requires fits { half.now.length ≤ payload_room (sizes_of shape.now) }
    requires into { length into.old ≡ half.now.length }
    ensures disk { Reads D.Disk (InPayload (sizes_of shape.now) half.now) disk.old disk.new }
    ensures cause { HasCause (D.faults disk.old) (D.faults disk.new) result }
    ensures read { OnOk result (D.tells →
        into.new ≡ payload_of (sizes_of shape.now) half.now (contents (D.history disk.old))) }
    ensures places { OnOk result (D.tells →
        ReadsOnly (upward (half_place (sizes_of shape.now) half.now.number + 10) half.now.length)
        (D.history disk.old) (D.history disk.new)) }
{
    let place = place_of_half(shape, half.number);
    disk.read(place + 10, into)?;
    Ok(())
}
