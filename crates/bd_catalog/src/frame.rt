//! The frame that a commit writes.
ghost use Rattle.std.specs.Prelude.{◌≡◌, ◌+◌, ◌-◌, ◌%◌, ◌≤◌, length, take, IsTrue, IfOk, OnOk};
ghost use Rattle.bd_disk.specs.Calls.{HasCause};
ghost use Rattle.bd_disk.specs.History.{contents};
ghost use Rattle.bd_disk.specs.Made.{IsSettled};
ghost use Rattle.bd_disk.specs.Runs.{Writes};
ghost use Rattle.bd_model.specs.Sizes.{sizes_of, disk_bytes, payload_room};
ghost use Rattle.bd_gate.specs.Commits.{frame_of, MakesOrFails};
ghost use Rattle.bd_gate.specs.Halves.{InHalf, log_place};
ghost use Rattle.bd_gate.specs.Standing.{IsOlderHalf, next_turn};
ghost use Rattle.bd_roll.specs.Rules.{obeys};
ghost use Rattle.bd_roll.specs.Shown.{catalogue_of_contents};
ghost use Rattle.bd_roll.specs.Spelling.{spelled};
ghost use Rattle.bd_catalog.specs.Steps.{calls_beside, next_half, LeavesBeside, StopsBeside};
ghost use Rattle.bd_roll.specs.Widths.{IsSpellable};

use bd_disk::{Disk, Failed};
use bd_gate::{CLOSED_GATE, Half, commit_frame};
use bd_model::Shape;
use bd_roll::{Contents, put_contents};
use bd_wire::{put_u8, put_u64};

// Writes a frame to the front, and answers its length: the turn, the length of the spelling, the spelling and a closed gate.
pub(crate) fn put_frame(into: &mut [u8], turn: u8, contents: &Contents) -> usize
    requires fits { IsSpellable (catalogue_of_contents contents.now) }
    requires room { length (spelled (catalogue_of_contents contents.now)) + 10 ≤ length into.old }
    ensures written { take result into.new ≡ frame_of turn (spelled (catalogue_of_contents contents.now)) }
    ensures behind { result ≡ length (spelled (catalogue_of_contents contents.now)) + 10 }
    ensures size { length into.new ≡ length into.old }
{
    let count = put_contents(&mut into[9..], contents);
    put_u8(into, 0, turn);
    put_u64(into, 1, count as u64);
    put_u8(into, count + 9, CLOSED_GATE);
    count + 10
}

// Where the log of this half begins.
pub(crate) fn log_place(shape: &Shape, half: &Half) -> u64
    requires number { half.now.number ≤ 1 }
    requires fits { half.now.length ≤ payload_room (sizes_of shape.now) }
    ensures { result ≡ log_place (sizes_of shape.now) half.now }
{
    64 + u64::from(half.number) * shape.half_bytes() + 10 + half.length
}

// Puts this catalogue in the place of the newest half, which is this one, by a commit to the other half.
// Answers that half.
#[tactic(auto, using(bd_disk::proofs::RunLemmas::runs))]
pub(crate) fn write_beside<D: Disk>(
    disk: &mut D,
    shape: &Shape,
    half: &Half,
    catalogue: &Contents,
    buffer: &mut [u8],
) -> Result<Half, Failed>
    requires number { half.now.number ≤ 1 }
    requires turn { half.now.turn ≤ 2 }
    requires buffer { length buffer.old ≡ payload_room (sizes_of shape.now) + 10 }
    requires rules { IsTrue (obeys (sizes_of shape.now) (catalogue_of_contents catalogue.now)) }
    requires room { disk_bytes (sizes_of shape.now) ≤ D.bytes disk.old }
    requires ready { D.tells → IsOlderHalf (sizes_of shape.now) (1 - half.now.number) half.now.other_open (D.history disk.old) }
    requires next { D.tells → (half.now.turn + 1) % 3 ≡ next_turn (sizes_of shape.now) (1 - half.now.number) (contents (D.history disk.old)) }
    ensures buffer { length buffer.new ≡ length buffer.old }
    ensures half { IfOk result (λ next. next ≡ next_half half.now (length (spelled (catalogue_of_contents catalogue.now)))) }
    ensures disk { Writes D.Disk (InHalf (sizes_of shape.now) (1 - half.now.number)) disk.old disk.new }
    ensures cause { HasCause (D.faults disk.old) (D.faults disk.new) result }
    ensures stops { D.tells →
        StopsBeside (sizes_of shape.now) half.now (catalogue_of_contents catalogue.now) (D.history disk.old) (D.history disk.new) }
    ensures settled { OnOk result (D.tells → IsSettled (D.history disk.new)) }
    ensures calls { D.tells →
        MakesOrFails (calls_beside (sizes_of shape.now) half.now (catalogue_of_contents catalogue.now)) (D.history disk.old) (D.history disk.new) result }
    ensures done { OnOk result (D.tells →
        LeavesBeside (sizes_of shape.now) half.now (catalogue_of_contents catalogue.now) (D.history disk.old) (D.history disk.new)) }
{
    let number = 1 - half.number;
    let turn = (half.turn + 1) % 3;
    let count = put_frame(buffer, turn, catalogue);
    commit_frame(disk, shape, number, half.other_open, &buffer[..count])?;
    Ok(Half {
        number,
        turn,
        length: (count - 10) as u64,
        other_open: true,
    })
}
