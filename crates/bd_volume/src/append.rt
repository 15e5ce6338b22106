//! Records, appended to a closed volume.
ghost use Rattle.std.specs.Prelude.{◌≡◌, ◌+◌, ◌*◌, ◌<◌, ◌≤◌, All, length, OnOk, IfErr, Err};
ghost use Rattle.bd_disk.specs.Calls.{FailsByCount};
ghost use Rattle.bd_disk.specs.Runs.{Writes};
ghost use Rattle.bd_model.specs.Sizes.{sizes_of, disk_bytes};
ghost use Rattle.bd_category.specs.Records.{record_with};
ghost use Rattle.bd_volume.specs.Copies.{bytes_on};
ghost use Rattle.bd_volume.specs.Growing.{AddsExtents, Appends, AppendsFrom, AreCounted, Behind, CanGrow, HasFreeFor, IsSource, KeepsRows, MovesSection, NoneLater, is_disk_fault_of_append, rows_after};

use crate::copy::{Section, copy_range};
use crate::fault::AppendFault;
use crate::filling::Filling;
use bd_category::write_chunk;
use bd_disk::Disk;
use bd_model::{Mark, Shape};
use bd_space::Space;

/// The bytes of a body's length in a header.
const LENGTH: usize = 4;

/// Records that lie end to end among the bytes of an owner.
#[derive(Clone, Copy)]
pub struct Records<'a> {
    /// The version at which their chunks begin.
    pub start: u32,
    /// How many they are.
    pub chunks: u64,
    pub from: Section<'a>,
}

/// Appends these records to the volume, in the row of the greater of their start and the oldest retained version. They
/// are moved through the buffer, and written behind the records that the rows count. A refusal leaves the rows, and one
/// for want of memory leaves all; after a fault of the disk the extents that were added are still taken.
pub fn append_records<D: Disk>(
    disk: &mut D,
    shape: &Shape,
    space: &mut Space,
    filling: &mut Filling,
    moved: &Records<'_>,
    buffer: &mut [u8],
) -> Result<(), AppendFault>
    requires room { disk_bytes (sizes_of shape.now) ≤ D.bytes disk.old }
    requires grows { CanGrow (sizes_of shape.now) space.old filling.old }
    requires order { NoneLater filling.old moved.now.start }
    requires counted { AreCounted (sizes_of shape.now) moved.now.chunks moved.now.from.bytes }
    requires source { IsSource (sizes_of shape.now) space.old filling.old moved.now.from }
    requires free { HasFreeFor (sizes_of shape.now) space.old filling.old moved.now.from.bytes }
    requires buffer { 1 ≤ length buffer.old }
    ensures disk { MovesSection D.Disk (sizes_of shape.now) filling.old filling.new moved.now.from disk.old disk.new }
    ensures cause { FailsByCount is_disk_fault_of_append (D.faults disk.old) (D.faults disk.new) result }
    ensures rows { OnOk result (filling.new.rows ≡ rows_after filling.old moved.now.start moved.now.chunks moved.now.from.bytes) }
    ensures refused { IfErr result (KeepsRows (sizes_of shape.now) space.new filling.old filling.new moved.now.from.bytes) }
    ensures adds { AddsExtents space.old space.new filling.old filling.new }
    ensures grows { OnOk result (CanGrow (sizes_of shape.now) space.new filling.new) }
    ensures memory { result ≡ Err AppendFault.OutOfMemory → (disk.new ≡ disk.old) × (space.new ≡ space.old) × (filling.new.numbers ≡ filling.old.numbers) }
    ensures written { OnOk result (AppendsFrom D.Disk (sizes_of shape.now) filling.old filling.new moved.now.from disk.old disk.new) }
    ensures bytes { OnOk result (D.tells → All (λ b. b < 256) (bytes_on D.Disk (sizes_of shape.now) moved.now.from disk.old)) }
{
    let place = filling.bytes();
    filling.make_room(shape, space, moved.from.bytes)?;
    copy_range(disk, shape, &moved.from, filling.numbers(), place, buffer)?;
    filling.put(moved.start, moved.chunks, moved.from.bytes);
    Ok(())
}

/// Appends one record to the volume, in the row of the greater of its start and the oldest retained version: this mark,
/// and this body. What a refusal leaves is as in `append_records`.
pub fn append_category<D: Disk>(
    disk: &mut D,
    shape: &Shape,
    space: &mut Space,
    filling: &mut Filling,
    start: u32,
    mark: &Mark,
    body: &[u8],
) -> Result<(), AppendFault>
    requires room { disk_bytes (sizes_of shape.now) ≤ D.bytes disk.old }
    requires grows { CanGrow (sizes_of shape.now) space.old filling.old }
    requires order { NoneLater filling.old start }
    requires some { 1 ≤ length body.now }
    requires short { length body.now ≤ shape.now.max }
    requires free { HasFreeFor (sizes_of shape.now) space.old filling.old (36 + length body.now) }
    ensures disk { Writes D.Disk (Behind (sizes_of shape.now) filling.old filling.new (36 + length body.now)) disk.old disk.new }
    ensures cause { FailsByCount is_disk_fault_of_append (D.faults disk.old) (D.faults disk.new) result }
    ensures rows { OnOk result (filling.new.rows ≡ rows_after filling.old start 1 (36 + length body.now)) }
    ensures refused { IfErr result (KeepsRows (sizes_of shape.now) space.new filling.old filling.new (36 + length body.now)) }
    ensures adds { AddsExtents space.old space.new filling.old filling.new }
    ensures grows { OnOk result (CanGrow (sizes_of shape.now) space.new filling.new) }
    ensures memory { result ≡ Err AppendFault.OutOfMemory → (disk.new ≡ disk.old) × (space.new ≡ space.old) × (filling.new.numbers ≡ filling.old.numbers) }
    ensures written { OnOk result (Appends D.Disk (sizes_of shape.now) filling.old filling.new (record_with mark.now body.now) disk.old disk.new) }
{
    let place = filling.bytes();
    let bytes = record_bytes(mark, body);
    filling.make_room(shape, space, bytes)?;
    write_chunk(disk, shape, filling.numbers(), place, mark, body)?;
    filling.put(start, 1, bytes);
    Ok(())
}

// The bytes of a record: the body's length, the mark, and the body.
fn record_bytes(mark: &Mark, body: &[u8]) -> u64
    ensures so { result ≡ 36 + length body.now }
    ensures sized { result ≡ length (record_with mark.now body.now) }
{
    (LENGTH + mark.0.as_slice().len() + body.len()) as u64
}
