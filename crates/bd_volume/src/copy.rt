//! Bytes of one owner, copied among those of another.
ghost use Rattle.std.specs.Prelude.{◌≡◌, ◌+◌, ◌-◌, ◌%◌, ◌<◌, ◌≤◌, All, min, length, OnOk};
ghost use Rattle.bd_disk.specs.Calls.{HasCause};
ghost use Rattle.bd_disk.specs.Runs.{Works};
ghost use Rattle.bd_model.specs.Sizes.{sizes_of, disk_bytes};
ghost use Rattle.bd_extio.specs.Owned.{Overwrites};
ghost use Rattle.bd_extio.specs.Ranges.{AreExtents, InOwner, IsWithin};
ghost use Rattle.bd_volume.specs.Copies.{AreApart, bytes_on, InSection, IsSection};

use bd_disk::{Disk, Failed};
use bd_extio::{read_at, write_at};
use bd_model::Shape;

/// Bytes of an owner.
#[derive(Clone, Copy)]
pub struct Section<'a> {
    /// The owner's extents.
    pub extents: &'a [u32],
    /// The place of the first byte among the owner's.
    pub at: u64,
    /// How many bytes.
    pub bytes: u64,
}

// Copies bytes that have room in the buffer, and fill it.
fn copy_part<D: Disk>(
    disk: &mut D,
    shape: &Shape,
    from: &Section<'_>,
    to: &[u32],
    place: u64,
    buffer: &mut [u8],
) -> Result<(), Failed>
    requires room { disk_bytes (sizes_of shape.now) ≤ D.bytes disk.old }
    requires source { IsSection (sizes_of shape.now) from.now }
    requires target { AreExtents (sizes_of shape.now) to.now }
    requires range { IsWithin (sizes_of shape.now) to.now place from.now.bytes }
    requires buffer { length buffer.old ≡ from.now.bytes }
    ensures disk { Works D.Disk (InSection (sizes_of shape.now) from.now) (InOwner (sizes_of shape.now) to.now place from.now.bytes) disk.old disk.new }
    ensures cause { HasCause (D.faults disk.old) (D.faults disk.new) result }
    ensures copied { OnOk result (Overwrites D.Disk (sizes_of shape.now) to.now place (bytes_on D.Disk (sizes_of shape.now) from.now disk.old) disk.old disk.new) }
    ensures bytes { OnOk result (D.tells → All (λ b. b < 256) (bytes_on D.Disk (sizes_of shape.now) from.now disk.old)) }
{
    read_at(disk, shape, from.extents, from.at, buffer)?;
    write_at(disk, shape, to, place, buffer)?;
    Ok(())
}

/// Copies the bytes among those of another owner, from `place` on, through the buffer. A part of them ends where an extent
/// of the target does, so that it is written in one call. Each number that was copied is a byte.
pub fn copy_range<D: Disk>(
    disk: &mut D,
    shape: &Shape,
    from: &Section<'_>,
    to: &[u32],
    place: u64,
    buffer: &mut [u8],
) -> Result<(), Failed>
    requires room { disk_bytes (sizes_of shape.now) ≤ D.bytes disk.old }
    requires source { IsSection (sizes_of shape.now) from.now }
    requires target { AreExtents (sizes_of shape.now) to.now }
    requires apart { AreApart from.now.extents.now to.now }
    requires range { IsWithin (sizes_of shape.now) to.now place from.now.bytes }
    requires buffer { 1 ≤ length buffer.old }
    ensures disk { Works D.Disk (InSection (sizes_of shape.now) from.now) (InOwner (sizes_of shape.now) to.now place from.now.bytes) disk.old disk.new }
    ensures cause { HasCause (D.faults disk.old) (D.faults disk.new) result }
    ensures copied { OnOk result (Overwrites D.Disk (sizes_of shape.now) to.now place (bytes_on D.Disk (sizes_of shape.now) from.now disk.old) disk.old disk.new) }
    ensures bytes { OnOk result (D.tells → All (λ b. b < 256) (bytes_on D.Disk (sizes_of shape.now) from.now disk.old)) }
{
    let mut done = 0;
    while done < from.bytes {
        let n = part_at(shape, place + done, from.bytes - done, buffer.len());
        let part = Section {
            extents: from.extents,
            at: from.at + done,
            bytes: n as u64,
        };
        copy_part(disk, shape, &part, to, place + done, &mut buffer[..n])?;
        done += part.bytes;
    }
    Ok(())
}

// How many of the bytes that are left to write from a place on are written in one call, through so many of a buffer.
fn part_at(shape: &Shape, place: u64, left: u64, most: usize) -> usize
    ensures { result ≡ min (min left most) (shape.now.extent - place % shape.now.extent) }
{
    let extent = u64::from(shape.extent());
    left.min(most as u64).min(extent - place % extent) as usize
}
