//! The bytes of an entry.
ghost use Rattle.std.specs.Prelude.{◌≡◌, ◌+◌, ◌*◌, ◌≤◌, length, drop, OnOk};
ghost use Rattle.bd_disk.specs.Calls.{HasCause};
ghost use Rattle.bd_disk.specs.Images.{overwritten};
ghost use Rattle.bd_disk.specs.Runs.{Writes};
ghost use Rattle.bd_model.specs.Sizes.{sizes_of, disk_bytes};
ghost use Rattle.bd_model.specs.Records.{entry_at, spelled_entry};
ghost use Rattle.bd_extio.specs.Owned.{Overwrites};
ghost use Rattle.bd_extio.specs.Ranges.{AreExtents, IsWithin};
ghost use Rattle.bd_recipe.specs.Pieces.{InEntries};

use bd_disk::{Disk, Failed};
use bd_extio::write_at;
use bd_model::{Mark, RecipeEntry, Shape};
use bd_wire::{Cursor, put_u32};

/// How many bytes an entry has.
pub const ENTRY: usize = 40;

/// How many entries are read at a time.
pub(crate) const PIECE: usize = 1024;

/// The bytes of so many entries.
pub(crate) const BUFFER: usize = 40_960;

/// Writes the entry of this index into the recipe of an owner of these extents.
pub fn write_entry<D: Disk>(
    disk: &mut D,
    shape: &Shape,
    extents: &[u32],
    index: u64,
    entry: &RecipeEntry,
) -> Result<(), Failed>
    requires room { disk_bytes (sizes_of shape.now) ≤ D.bytes disk.old }
    requires numbers { AreExtents (sizes_of shape.now) extents.now }
    requires range { IsWithin (sizes_of shape.now) extents.now (40 * index) 40 }
    ensures disk { Writes D.Disk (InEntries (sizes_of shape.now) extents.now index 1) disk.old disk.new }
    ensures cause { HasCause (D.faults disk.old) (D.faults disk.new) result }
    ensures written { OnOk result (Overwrites D.Disk (sizes_of shape.now) extents.now (40 * index) (spelled_entry entry.now) disk.old disk.new) }
{
    let bytes = entry_bytes(entry);
    write_at(disk, shape, extents, ENTRY as u64 * index, &bytes)?;
    Ok(())
}

/// The bytes of an entry: the mark, the length of the chunk, and where it starts.
pub fn entry_bytes(entry: &RecipeEntry) -> [u8; ENTRY]
    ensures so { result ≡ spelled_entry entry.now }
    ensures sized { length result ≡ 40 }
{
    let mut bytes = [0u8; ENTRY];
    put_entry(&mut bytes, 0, entry);
    bytes
}

// Writes the bytes of an entry from place `at` on, and changes nothing else.
fn put_entry(into: &mut [u8], at: usize, entry: &RecipeEntry)
    requires { at + 40 ≤ length into.old }
    ensures written { into.new ≡ overwritten into.old at (spelled_entry entry.now) }
    ensures sized { length (spelled_entry entry.now) ≡ 40 }
{
    put_mark(into, at, &entry.mark);
    put_u32(into, at + 32, entry.length);
    put_u32(into, at + 36, entry.start);
}

fn put_mark(into: &mut [u8], at: usize, mark: &Mark)
    requires { at + 32 ≤ length into.old }
    ensures written { into.new ≡ overwritten into.old at mark.now.0 }
    ensures sized { length mark.now.0 ≡ 32 }
{
    into[at..at + 32].copy_from_slice(&mark.0);
}

// The entry that the 40 bytes from place `at` on say.
pub(crate) fn entry_from(bytes: &[u8], at: usize) -> RecipeEntry
    requires { at + 40 ≤ length bytes.now }
    ensures { result ≡ entry_at (drop at bytes.now) }
{
    let mut mark = [0u8; 32];
    mark.copy_from_slice(&bytes[at..at + 32]);
    let mut fields = Cursor::new(&bytes[at + 32..]);
    let length = fields.take_u32().unwrap();
    let start = fields.take_u32().unwrap();
    RecipeEntry {
        mark: Mark(mark),
        length,
        start,
    }
}
