//! What is spelled in bytes, and lists of it.
ghost use Rattle.std.specs.Prelude.{◌≡◌, ℕ, ◌+◌, ◌≤◌, List, length, map, All, IfOk};
ghost use Rattle.std.specs.List.{flat_map};
ghost use Rattle.bd_roll.specs.Catalogue.{VersionEntry, VolumeEntry, OpenEntry};
ghost use Rattle.bd_roll.specs.Reading.{TakesSpelling, FitMany, EndsItself};
ghost use Rattle.bd_roll.specs.Spelling.{spelled_version, spelled_volume, spelled_active};
ghost use Rattle.bd_roll.specs.Shown.{version_entry, volume_entry, open_entry};
ghost use Rattle.bd_roll.specs.Widths.{FitsVersion, FitsVolume, FitsOpen};
ghost use Rattle.bd_roll.specs.Writing.{put_at};

use crate::decode::{take_extents, take_row, take_rows, take_sizes};
use crate::encode::{put_extents, put_row, put_rows};
use crate::rows::{ActiveCategory, ClosedVolume, VersionRow};
use bd_wire::{Cursor, put_u64};
use std::alloc::{AllocError as OutOfMemory, Global};

/// What bytes spell.
pub(crate) trait Spelled: Drop {
    /// What it shows.
    ghost Entry: { Type 0 };

    ghost entry: { Self → Entry };

    /// The bytes that spell what is shown.
    ghost spell: { Entry → List ℕ };

    /// That the numbers fit the fields that spell them.
    ghost fits: { Entry → Type 0 };

    /// Writes from place `at` on, and answers the place behind what it wrote.
    fn put(&self, into: &mut [u8], at: usize) -> usize
        requires room { at + length (spell (entry self.now)) ≤ length into.old }
        requires fits { fits (entry self.now) }
        ensures written { into.new ≡ put_at into.old at (spell (entry self.now)) }
        ensures behind { result ≡ at + length (spell (entry self.now)) };

    /// TakesSpelling one off the front; None where the bytes begin with no spelling.
    fn take(alloc: Global, cursor: &mut Cursor) -> Result<Option<Self>, OutOfMemory>
        ensures { IfOk result (λ found. TakesSpelling spell fits entry found cursor.old cursor.new) };
}

impl Spelled for VersionRow {
    ghost Entry = { VersionEntry };

    ghost entry = { version_entry };

    ghost spell = { spelled_version };

    ghost fits = { FitsVersion };

    fn put(&self, into: &mut [u8], at: usize) -> usize {
        put_u64(into, at, self.length);
        put_u64(into, at + 8, self.chunks);
        put_u64(into, at + 16, self.fresh);
        put_extents(into, at + 24, self.recipe.numbers())
    }

    fn take(alloc: Global, cursor: &mut Cursor) -> Result<Option<Self>, OutOfMemory> {
        let Some((length, chunks, fresh)) = take_sizes(cursor) else {
            return Ok(None);
        };
        let found = take_extents(alloc, cursor)?;
        let Some(recipe) = found else {
            return Ok(None);
        };
        Ok(Some(VersionRow {
            length,
            chunks,
            fresh,
            recipe,
        }))
    }
}

impl Spelled for ClosedVolume {
    ghost Entry = { VolumeEntry };

    ghost entry = { volume_entry };

    ghost spell = { spelled_volume };

    ghost fits = { FitsVolume };

    fn put(&self, into: &mut [u8], at: usize) -> usize {
        let place = put_rows(into, at, self.rows.as_slice());
        put_extents(into, place, self.extents.numbers())
    }

    fn take(alloc: Global, cursor: &mut Cursor) -> Result<Option<Self>, OutOfMemory> {
        let found = take_rows(alloc, cursor)?;
        let Some(rows) = found else {
            return Ok(None);
        };
        let owned = take_extents(alloc, cursor)?;
        let Some(extents) = owned else {
            return Ok(None);
        };
        Ok(Some(ClosedVolume { rows, extents }))
    }
}

impl Spelled for ActiveCategory {
    ghost Entry = { OpenEntry };

    ghost entry = { open_entry };

    ghost spell = { spelled_active };

    ghost fits = { FitsOpen };

    fn put(&self, into: &mut [u8], at: usize) -> usize {
        let place = put_row(into, at, &self.row);
        put_extents(into, place, self.extents.numbers())
    }

    fn take(alloc: Global, cursor: &mut Cursor) -> Result<Option<Self>, OutOfMemory> {
        let Some(row) = take_row(cursor) else {
            return Ok(None);
        };
        let found = take_extents(alloc, cursor)?;
        let Some(extents) = found else {
            return Ok(None);
        };
        Ok(Some(ActiveCategory { row, extents }))
    }
}

// Writes the items one behind the other, and answers the place behind them.
pub(crate) fn put_many<T: Spelled>(into: &mut [u8], at: usize, items: &[T]) -> usize
    requires room { at + length (flat_map T.spell (map T.entry items.now)) ≤ length into.old }
    requires fit { All T.fits (map T.entry items.now) }
    ensures written { into.new ≡ put_at into.old at (flat_map T.spell (map T.entry items.now)) }
    ensures behind { result ≡ at + length (flat_map T.spell (map T.entry items.now)) }
{
    let mut place = at;
    for item in items {
        place = item.put(into, place);
    }
    place
}

// TakesSpelling `count` of them off the front; None where the bytes don't begin with so many.
pub(crate) fn take_many<T: Spelled>(
    alloc: Global,
    cursor: &mut Cursor,
    count: u32,
) -> Result<Option<Vec<T>>, OutOfMemory>
    requires { EndsItself T.spell T.fits }
    ensures { IfOk result (λ found. TakesSpelling (flat_map T.spell) (FitMany T.fits count) (λ xs. map T.entry xs.items) found cursor.old cursor.new) }
{
    let mut items = Vec::new(alloc);
    for _ in 0..count {
        let found = T::take(alloc, cursor)?;
        let Some(item) = found else {
            return Ok(None);
        };
        items.push(item)?;
    }
    Ok(Some(items))
}
