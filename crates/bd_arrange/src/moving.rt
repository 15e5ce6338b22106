//! Stretches of records, moved out of an open category.
ghost use Rattle.std.specs.Prelude.{◌≡◌, ◌≤◌, false, true, length, not, OnOk};
ghost use Rattle.bd_disk.specs.Calls.{FailsByCount};
ghost use Rattle.bd_disk.specs.Runs.{Works};
ghost use Rattle.bd_model.specs.Sizes.{sizes_of, disk_bytes};
ghost use Rattle.bd_extio.specs.Ranges.{InOwner};
ghost use Rattle.bd_volume.specs.Copies.{InSection};
ghost use Rattle.bd_volume.specs.Growing.{AddsExtents, AreCounted, CanGrow, HasFreeFor, IsSource, NoneLater, is_disk_fault_of_append};
ghost use Rattle.bd_arrange.specs.Cuts.{going};
ghost use Rattle.bd_arrange.specs.Moving.{CanMove, InMoved, IsPlaceForKept, Moves, MovesOne, bytes_of, share};

use crate::cut::Stretch;
use bd_disk::Disk;
use bd_model::Shape;
use bd_space::Space;
use bd_volume::{AppendFault, Filling, Records, Section, append_records, copy_range};

/// Where a stretch goes.
#[derive(Clone, Copy)]
pub(crate) struct Target<'a> {
    /// Whether it is kept. Else it goes to the volume.
    pub(crate) kept: bool,
    /// The extents of what is kept.
    pub(crate) extents: &'a [u32],
    /// How many bytes of it are there.
    pub(crate) at: u64,
}

/// The stretches of a category that is split.
#[derive(Clone, Copy)]
pub(crate) struct Errand<'a> {
    /// The start of the category.
    pub(crate) start: u32,
    /// The extents of the category, from whose first byte on the stretches lie.
    pub(crate) from: &'a [u32],
    pub(crate) stretches: &'a [Stretch],
    /// The extents of what is kept.
    pub(crate) to: &'a [u32],
}

// Moves one stretch through the buffer: behind what was kept before, or behind the records of the volume.
fn move_records<D: Disk>(
    disk: &mut D,
    shape: &Shape,
    space: &mut Space,
    filling: &mut Filling,
    moved: &Records<'_>,
    target: &Target<'_>,
    buffer: &mut [u8],
) -> Result<(), AppendFault>
    requires room { disk_bytes (sizes_of shape.now) ≤ D.bytes disk.old }
    requires grows { CanGrow (sizes_of shape.now) space.old filling.old }
    requires order { NoneLater filling.old moved.now.start }
    requires counted { AreCounted (sizes_of shape.now) moved.now.chunks moved.now.from.bytes }
    requires source { IsSource (sizes_of shape.now) space.old filling.old moved.now.from }
    requires target { IsPlaceForKept (sizes_of shape.now) space.old filling.old moved.now.from target.now }
    requires free { HasFreeFor (sizes_of shape.now) space.old filling.old (share (not target.now.kept) moved.now.from.bytes) }
    requires buffer { 1 ≤ length buffer.old }
    ensures disk { Works D.Disk (InSection (sizes_of shape.now) moved.now.from) (InMoved (sizes_of shape.now) space.old filling.old target.now.extents.now target.now.at (share target.now.kept moved.now.from.bytes)) disk.old disk.new }
    ensures cause { FailsByCount is_disk_fault_of_append (D.faults disk.old) (D.faults disk.new) result }
    ensures adds { AddsExtents space.old space.new filling.old filling.new }
    ensures moves { OnOk result (MovesOne D.Disk (sizes_of shape.now) space.new filling.old filling.new moved.now target.now disk.old disk.new) }
{
    if target.kept {
        copy_range(disk, shape, &moved.from, target.extents, target.at, buffer)?;
        return Ok(());
    }
    append_records(disk, shape, space, filling, moved, buffer)
}

/// Moves the stretches through the buffer, each to its side in the order in which they lie. After a refusal the extents that
/// were added to the volume are still taken.
pub(crate) fn move_stretches<D: Disk>(
    disk: &mut D,
    shape: &Shape,
    space: &mut Space,
    filling: &mut Filling,
    errand: &Errand<'_>,
    buffer: &mut [u8],
) -> Result<(), AppendFault>
    requires room { disk_bytes (sizes_of shape.now) ≤ D.bytes disk.old }
    requires grows { CanGrow (sizes_of shape.now) space.old filling.old }
    requires order { NoneLater filling.old errand.now.start }
    requires errand { CanMove (sizes_of shape.now) space.old filling.old errand.now }
    requires free { HasFreeFor (sizes_of shape.now) space.old filling.old (bytes_of (going false errand.now.stretches.now)) }
    requires buffer { 1 ≤ length buffer.old }
    ensures disk { Works D.Disk (InOwner (sizes_of shape.now) errand.now.from.now 0 (bytes_of errand.now.stretches.now)) (InMoved (sizes_of shape.now) space.old filling.old errand.now.to.now 0 (bytes_of (going true errand.now.stretches.now))) disk.old disk.new }
    ensures cause { FailsByCount is_disk_fault_of_append (D.faults disk.old) (D.faults disk.new) result }
    ensures adds { AddsExtents space.old space.new filling.old filling.new }
    ensures moves { OnOk result (Moves D.Disk (sizes_of shape.now) errand.now.start errand.now.from.now errand.now.to.now errand.now.stretches.now space.new filling.old filling.new disk.old disk.new) }
{
    let mut at = 0;
    let mut kept = 0;
    for stretch in errand.stretches {
        let moved = Records {
            start: errand.start,
            chunks: stretch.chunks,
            from: Section {
                extents: errand.from,
                at,
                bytes: stretch.bytes,
            },
        };
        let target = Target {
            kept: stretch.kept,
            extents: errand.to,
            at: kept,
        };
        move_records(disk, shape, space, filling, &moved, &target, buffer)?;
        at += stretch.bytes;
        kept += kept_bytes(stretch);
    }
    Ok(())
}

// The bytes of a stretch that are kept.
fn kept_bytes(stretch: &Stretch) -> u64
    ensures { result ≡ share stretch.now.kept stretch.now.bytes }
{
    if stretch.kept { stretch.bytes } else { 0 }
}
