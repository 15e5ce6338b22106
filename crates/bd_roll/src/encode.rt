//! Writing the spelling of a catalogue.
ghost use Rattle.std.specs.Prelude.{◌≡◌, ℕ, ◌+◌, ◌*◌, ◌^◌, ◌<◌, ◌≤◌, List, ◌∷◌, ◌++◌, length, drop, map, All};
ghost use Rattle.std.specs.List.{flat_map};
ghost use Rattle.bd_model.specs.Records.{four};
ghost use Rattle.bd_roll.specs.Spelling.{spelled_extents, spelled_phase, spelled_row, spelled};
ghost use Rattle.bd_roll.specs.Shown.{catalogue_of_contents};
ghost use Rattle.bd_roll.specs.Widths.{IsSpellable};
ghost use Rattle.bd_roll.specs.Writing.{put_at, spelled_head};

use crate::contents::Contents;
use crate::spelled::put_many;
use bd_model::{CategoryRow, Phase};
use bd_wire::{put_u8, put_u32, put_u64};

// Each of these writes from place `at` on and answers the place behind what it wrote.

pub(crate) fn put_extents(into: &mut [u8], at: usize, numbers: &[u32]) -> usize
    requires room { at + length (spelled_extents numbers.now) ≤ length into.old }
    requires count { length numbers.now < 2 ^ 32 }
    ensures written { into.new ≡ put_at into.old at (spelled_extents numbers.now) }
    ensures behind { result ≡ at + length (spelled_extents numbers.now) }
{
    put_u32(into, at, numbers.len() as u32);
    let mut place = at + 4;
    for number in numbers {
        put_u32(into, place, *number);
        place += 4;
    }
    place
}

pub(crate) fn put_row(into: &mut [u8], at: usize, row: &CategoryRow) -> usize
    requires { at + 20 ≤ length into.old }
    ensures written { into.new ≡ put_at into.old at (spelled_row row.now) }
    ensures behind { result ≡ at + 20 }
{
    put_u32(into, at, row.start);
    put_u64(into, at + 4, row.chunks);
    put_u64(into, at + 12, row.bytes);
    at + 20
}

pub(crate) fn put_rows(into: &mut [u8], at: usize, rows: &[CategoryRow]) -> usize
    requires room { at + length (four (length rows.now) ++ flat_map spelled_row rows.now) ≤ length into.old }
    requires count { length rows.now < 2 ^ 32 }
    ensures written { into.new ≡ put_at into.old at (four (length rows.now) ++ flat_map spelled_row rows.now) }
    ensures behind { result ≡ at + length (four (length rows.now) ++ flat_map spelled_row rows.now) }
{
    put_u32(into, at, rows.len() as u32);
    let mut place = at + 4;
    for row in rows {
        place = put_row(into, place, row);
    }
    place
}

// Whether it waits, and the cursor.
fn put_waiting(into: &mut [u8], at: usize, waiting: u8, cursor: u32) -> usize
    requires { at + 5 ≤ length into.old }
    ensures written { into.new ≡ put_at into.old at (waiting ∷ four cursor) }
    ensures behind { result ≡ at + 5 }
{
    put_u8(into, at, waiting);
    put_u32(into, at + 1, cursor);
    at + 5
}

fn put_phase(into: &mut [u8], at: usize, phase: Phase) -> usize
    requires { at + 5 ≤ length into.old }
    ensures written { into.new ≡ put_at into.old at (spelled_phase phase) }
    ensures behind { result ≡ at + 5 }
{
    match phase {
        Phase::Settled => put_waiting(into, at, 0, 0),
        Phase::Waiting { cursor } => put_waiting(into, at, 1, cursor),
    }
}

// The base, the newest number, how many versions there are, and the phase.
fn put_head(into: &mut [u8], contents: &Contents) -> usize
    requires room { 17 ≤ length into.old }
    requires count { length contents.now.versions.items < 2 ^ 32 }
    ensures written { into.new ≡ put_at into.old 0 (spelled_head (catalogue_of_contents contents.now)) }
    ensures behind { result ≡ 17 }
{
    put_u32(into, 0, contents.base);
    put_u32(into, 4, contents.newest);
    put_u32(into, 8, contents.versions.len() as u32);
    put_phase(into, 12, contents.phase)
}

/// Writes the spelling to the front, and answers its length.
pub fn put_contents(into: &mut [u8], contents: &Contents) -> usize
    requires fits { IsSpellable (catalogue_of_contents contents.now) }
    requires room { length (spelled (catalogue_of_contents contents.now)) ≤ length into.old }
    ensures written { into.new ≡ spelled (catalogue_of_contents contents.now) ++ drop result into.old }
    ensures behind { result ≡ length (spelled (catalogue_of_contents contents.now)) }
{
    let place = put_head(into, contents);
    let place = put_many(into, place, &contents.versions);
    let place = put_many(into, place, &contents.volumes);
    put_u32(into, place, contents.actives.len() as u32);
    put_many(into, place + 4, contents.actives.as_slice())
}
