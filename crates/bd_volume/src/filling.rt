//! A closed volume while records are appended to it.
ghost use Rattle.std.specs.Prelude.{◌≡◌, ◌+◌, ◌-◌, ◌^◌, ◌<◌, ◌≤◌, [], ◌++◌, length, take, min, sum_by, IfOk, OnOk, OnErr};
ghost use Rattle.bd_model.specs.Laws.{rows_more};
ghost use Rattle.bd_model.specs.Room.{up};
ghost use Rattle.bd_model.specs.Sizes.{sizes_of};
ghost use Rattle.bd_roll.specs.Catalogue.{bytes_of_rows};
ghost use Rattle.bd_space.specs.Allotment.{free_count, free_numbers};
ghost use Rattle.bd_volume.specs.Growing.{AddsExtents, HasExtents, HasFreeFor, Takes, rows_after};

use bd_catalog::{ClosedVolume, Rows};
use bd_model::{CategoryRow, Shape};
use bd_space::{Owned, Space};
use std::alloc::{AllocError as OutOfMemory, Global};
use std::marker::Model;

/// A closed volume while records are appended to it, before the commit that names them. Contracts see its rows, the
/// numbers of its extents, those of them that were added, the oldest retained version, and as `spare` how many rows more
/// fit before memory has to be taken.
#[derive(Drop)]
pub struct Filling {
    rows: Rows,
    // the sum of their bytes, or the greatest number where that is less
    bytes: u64,
    numbers: Vec<u32>,
    added: Owned,
    oldest: u32,
}

impl Model for Filling {
    ghost use Rattle.std.specs.Prelude.{◌≡◌, ◌^◌, ◌-◌, min};
    ghost use Rattle.bd_roll.specs.Catalogue.{bytes_of_rows};
    ghost use Rattle.bd_volume.specs.Filled.{Filled};

    ghost Value = { Filled };

    ghost view = { λ f. record { rows = f.rows.items; numbers = f.numbers.items; added = f.added.numbers; oldest = f.oldest; spare = f.rows.spare } };

    ghost invariant = { λ f. f.bytes ≡ min (bytes_of_rows f.rows.items) (2 ^ 64 - 1) };
}

impl Filling {
    /// The volume's rows and numbers, with nothing added. The volume itself stays as it is.
    pub fn of(alloc: Global, volume: &ClosedVolume, oldest: u32) -> Result<Filling, OutOfMemory>
        ensures rows { IfOk result (λ filling. filling.rows ≡ volume.now.rows.items) }
        ensures numbers { IfOk result (λ filling. filling.numbers ≡ volume.now.extents.numbers) }
        ensures added { IfOk result (λ filling. filling.added ≡ []) }
        ensures oldest { IfOk result (λ filling. filling.oldest ≡ oldest) }
    {
        let rows = volume.rows.as_slice().to_vec(alloc)?;
        let numbers = volume.extents.numbers().to_vec(alloc)?;
        Ok(Filling {
            bytes: bytes_of(&rows),
            rows: Rows::from_vec(rows),
            numbers,
            added: Owned::none(alloc),
            oldest,
        })
    }

    /// All rows, and the extents that were added. It takes no memory.
    pub fn finish(self) -> (Rows, Owned)
        ensures rows { result.0.items ≡ self.rows }
        ensures added { result.1.numbers ≡ self.added }
    {
        (self.rows, self.added)
    }

    /// Its rows.
    pub fn rows(&self) -> &[CategoryRow]
        ensures { result.now ≡ self.now.rows }
    {
        self.rows.as_slice()
    }

    /// The numbers of its extents.
    pub fn numbers(&self) -> &[u32]
        ensures { result.now ≡ self.now.numbers }
    {
        &self.numbers
    }

    /// The bytes of its records.
    pub fn bytes(&self) -> u64
        requires { bytes_of_rows self.now.rows < 2 ^ 64 }
        ensures { result ≡ bytes_of_rows self.now.rows }
    {
        self.bytes
    }

    // Makes room for a row, and takes the extents that so many bytes more want.
    pub(crate) fn make_room(
        &mut self,
        shape: &Shape,
        space: &mut Space,
        bytes: u64,
    ) -> Result<(), OutOfMemory>
        requires extents { HasExtents (sizes_of shape.now) space.old self.old (bytes_of_rows self.old.rows) }
        requires small { bytes_of_rows self.old.rows + bytes < 2 ^ 64 }
        requires free { HasFreeFor (sizes_of shape.now) space.old self.old bytes }
        ensures rows { self.new.rows ≡ self.old.rows }
        ensures adds { AddsExtents space.old space.new self.old self.new }
        ensures spare { OnOk result (1 ≤ self.new.spare) }
        ensures room { OnOk result (HasExtents (sizes_of shape.now) space.new self.new (bytes_of_rows self.old.rows + bytes)) }
        ensures refused { OnErr result ((space.new ≡ space.old) × (self.new.numbers ≡ self.old.numbers)) }
    {
        self.rows.reserve(1)?;
        let more = missing(shape, self.bytes + bytes, self.numbers.len());
        take_extents(space, &mut self.numbers, &mut self.added, more)?;
        Ok(())
    }

    // Counts records that came behind the others: in the last row where that is the one of their recorded start, and else
    // in a row of their own.
    pub(crate) fn put(&mut self, start: u32, chunks: u64, bytes: u64)
        requires spare { 1 ≤ self.old.spare }
        requires chunks { sum_by (λ row. row.chunks) self.old.rows + chunks < 2 ^ 64 }
        requires bytes { bytes_of_rows self.old.rows + bytes < 2 ^ 64 }
        ensures { self.new ≡ record self.old { rows = rows_after self.old start chunks bytes; spare = self.new.spare } }
    {
        put_behind(&mut self.rows, start.max(self.oldest), chunks, bytes);
        self.bytes += bytes;
    }
}

// The sum of the rows' bytes, or the greatest number where that is less.
fn bytes_of(rows: &[CategoryRow]) -> u64
    ensures { result ≡ min (bytes_of_rows rows.now) (2 ^ 64 - 1) }
{
    let mut bytes = 0u64;
    for row in rows {
        bytes = bytes.saturating_add(row.bytes);
    }
    bytes
}

// How many extents so many bytes want beside those that there are.
fn missing(shape: &Shape, bytes: u64, extents: usize) -> u32
    requires more { extents ≤ up shape.now.extent bytes }
    requires few { up shape.now.extent bytes < extents + 2 ^ 32 }
    ensures { extents + result ≡ up shape.now.extent bytes }
{
    (bytes.div_ceil(u64::from(shape.extent())) - extents as u64) as u32
}

// Both lists get so many numbers more, the lowest that are free, which are taken then. Where memory is refused nothing
// changes.
fn take_extents(
    space: &mut Space,
    numbers: &mut Vec<u32>,
    added: &mut Owned,
    more: u32,
) -> Result<(), OutOfMemory>
    requires { more ≤ free_count space.old }
    ensures numbers { OnOk result (numbers.new.items ≡ numbers.old.items ++ take more (free_numbers space.old)) }
    ensures added { OnOk result (added.new.numbers ≡ added.old.numbers ++ take more (free_numbers space.old)) }
    ensures grown { OnOk result (length numbers.new.items ≡ length numbers.old.items + more) }
    ensures takes { OnOk result (Takes (take more (free_numbers space.old)) space.old space.new) }
    ensures refused { OnErr result (space.new ≡ space.old) }
    ensures same_numbers { OnErr result (numbers.new.items ≡ numbers.old.items) }
    ensures same_added { OnErr result (added.new.numbers ≡ added.old.numbers) }
{
    numbers.reserve(more as usize)?;
    let known = added.len();
    if space.extend(added, more).is_err() {
        return Err(OutOfMemory);
    }
    let _ = numbers.extend_from_slice(&added.numbers()[known..]);
    Ok(())
}

// One row more, or the last one longer.
fn put_behind(rows: &mut Rows, start: u32, chunks: u64, bytes: u64)
    requires spare { 1 ≤ rows.old.spare }
    requires chunks { sum_by (λ row. row.chunks) rows.old.items + chunks < 2 ^ 64 }
    requires bytes { bytes_of_rows rows.old.items + bytes < 2 ^ 64 }
    ensures { rows.new.items ≡ rows_more start chunks bytes rows.old.items }
{
    let row = CategoryRow {
        start,
        chunks,
        bytes,
    };
    match rows.pop() {
        Some(last) if last.start == start => rows.push(CategoryRow {
            start,
            chunks: last.chunks + chunks,
            bytes: last.bytes + bytes,
        }),
        Some(last) => {
            rows.push(last);
            rows.push(row);
        }
        None => rows.push(row),
    }
}
