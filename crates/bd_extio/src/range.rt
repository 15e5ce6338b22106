//! Ranges of an owner's bytes, read and written.
ghost use Rattle.std.specs.Prelude.{◌≡◌, ◌≤◌, length, OnOk};
ghost use Rattle.bd_disk.specs.Calls.{HasCause};
ghost use Rattle.bd_disk.specs.History.{contents};
ghost use Rattle.bd_disk.specs.Runs.{Reads, Writes};
ghost use Rattle.bd_disk.specs.Trace.{ReadsOnly};
ghost use Rattle.bd_model.specs.Sizes.{sizes_of, disk_bytes};
ghost use Rattle.bd_model.specs.Extents.{places_at};
ghost use Rattle.bd_extio.specs.Owned.{Overwrites};
ghost use Rattle.bd_extio.specs.Ranges.{AreExtents, InOwner, IsWithin, owner_range};

use crate::piece::piece_at;
use bd_disk::{Disk, Failed};
use bd_model::Shape;

/// Reads the bytes of an owner of these extents from `at` on.
pub fn read_at<D: Disk>(
    disk: &mut D,
    shape: &Shape,
    extents: &[u32],
    at: u64,
    into: &mut [u8],
) -> Result<(), Failed>
    requires room { disk_bytes (sizes_of shape.now) ≤ D.bytes disk.old }
    requires numbers { AreExtents (sizes_of shape.now) extents.now }
    requires range { IsWithin (sizes_of shape.now) extents.now at (length into.old) }
    ensures disk { Reads D.Disk (InOwner (sizes_of shape.now) extents.now at (length into.old)) disk.old disk.new }
    ensures cause { HasCause (D.faults disk.old) (D.faults disk.new) result }
    ensures read { OnOk result (D.tells → into.new ≡ owner_range (sizes_of shape.now) extents.now at (length into.old) (contents (D.history disk.old))) }
    ensures places { OnOk result (D.tells → ReadsOnly (places_at (sizes_of shape.now) extents.now at (length into.old)) (D.history disk.old) (D.history disk.new)) }
{
    let mut done = 0;
    while done < into.len() {
        let piece = piece_at(shape, extents, at + done as u64, into.len() - done);
        let end = done + piece.length;
        disk.read(piece.place, &mut into[done..end])?;
        done = end;
    }
    Ok(())
}

/// Writes the bytes of an owner of these extents from `at` on.
pub fn write_at<D: Disk>(
    disk: &mut D,
    shape: &Shape,
    extents: &[u32],
    at: u64,
    from: &[u8],
) -> Result<(), Failed>
    requires room { disk_bytes (sizes_of shape.now) ≤ D.bytes disk.old }
    requires numbers { AreExtents (sizes_of shape.now) extents.now }
    requires range { IsWithin (sizes_of shape.now) extents.now at (length from.now) }
    ensures disk { Writes D.Disk (InOwner (sizes_of shape.now) extents.now at (length from.now)) disk.old disk.new }
    ensures cause { HasCause (D.faults disk.old) (D.faults disk.new) result }
    ensures written { OnOk result (Overwrites D.Disk (sizes_of shape.now) extents.now at from.now disk.old disk.new) }
{
    let mut done = 0;
    while done < from.len() {
        let piece = piece_at(shape, extents, at + done as u64, from.len() - done);
        let end = done + piece.length;
        disk.write(piece.place, &from[done..end])?;
        done = end;
    }
    Ok(())
}
