//! Reading the spelling of a catalogue, front to back.
ghost use Rattle.std.specs.Prelude.{◌≡◌, ℕ, ◌+◌, ◌-◌, ◌^◌, ◌<◌, ◌≤◌, List, ◌++◌, length, map, All, IfSome, IfNone, IfOk};
ghost use Rattle.std.specs.List.{flat_map};
ghost use Rattle.bd_model.specs.Records.{four, eight};
ghost use Rattle.bd_roll.specs.Reading.{Took, SpellsNone, TakesSpelling, FitMany, spelled_rows, spelled_actives};
ghost use Rattle.bd_roll.specs.Spelling.{spelled_extents, spelled_phase, spelled_row, spelled_version, spelled_volume, spelled_active, spelled};
ghost use Rattle.bd_roll.specs.Shown.{version_entry, volume_entry, open_entry, catalogue_of_contents};
ghost use Rattle.bd_roll.specs.Widths.{FitList, FitsFour, FitsRow, FitsVersion, FitsVolume, FitsOpen, FitsPhase, IsSpellable};

use crate::contents::Contents;
use crate::rows::{Actives, Rows};
use crate::spelled::take_many;
use bd_model::{CategoryRow, Phase};
use bd_space::Owned;
use bd_wire::Cursor;
use std::alloc::{AllocError as OutOfMemory, Global};

// Each of these takes what it names off the front; None where the bytes begin with no spelling of it.

// Three fields of 4 bytes.
fn take_numbers(cursor: &mut Cursor) -> Option<(u32, u32, u32)>
    ensures taken { IfSome result (λ n. cursor.old ≡ four n.0 ++ (four n.1 ++ (four n.2 ++ cursor.new))) }
    ensures short { IfNone result (length cursor.old < 12) }
{
    let first = cursor.take_u32()?;
    let second = cursor.take_u32()?;
    let third = cursor.take_u32()?;
    Some((first, second, third))
}

// Three fields of 8 bytes.
pub(crate) fn take_sizes(cursor: &mut Cursor) -> Option<(u64, u64, u64)>
    ensures taken { IfSome result (λ n. cursor.old ≡ eight n.0 ++ (eight n.1 ++ (eight n.2 ++ cursor.new))) }
    ensures short { IfNone result (length cursor.old < 24) }
{
    let first = cursor.take_u64()?;
    let second = cursor.take_u64()?;
    let third = cursor.take_u64()?;
    Some((first, second, third))
}

pub(crate) fn take_row(cursor: &mut Cursor) -> Option<CategoryRow>
    ensures taken { IfSome result (λ row. Took spelled_row FitsRow row cursor.old cursor.new) }
    ensures short { IfNone result (length cursor.old < 20) }
{
    let start = cursor.take_u32()?;
    let chunks = cursor.take_u64()?;
    let bytes = cursor.take_u64()?;
    Some(CategoryRow {
        start,
        chunks,
        bytes,
    })
}

fn take_phase(cursor: &mut Cursor) -> Option<Phase>
    ensures taken { IfSome result (λ phase. Took spelled_phase FitsPhase phase cursor.old cursor.new) }
    ensures none { IfNone result (SpellsNone spelled_phase FitsPhase cursor.old) }
{
    let waiting = cursor.take_u8()?;
    let place = cursor.take_u32()?;
    match (waiting, place) {
        (0, 0) => Some(Phase::Settled),
        (1, _) => Some(Phase::Waiting { cursor: place }),
        _ => None,
    }
}

pub(crate) fn take_extents(alloc: Global, cursor: &mut Cursor) -> Result<Option<Owned>, OutOfMemory>
    ensures { IfOk result (λ found. TakesSpelling spelled_extents (FitList FitsFour) (λ owned. owned.numbers) found cursor.old cursor.new) }
{
    let Some(count) = cursor.take_u32() else {
        return Ok(None);
    };
    if cursor.left() / 4 < count as usize {
        return Ok(None);
    }
    let mut numbers = Vec::with_capacity(alloc, count as usize)?;
    for _ in 0..count {
        let Some(number) = cursor.take_u32() else {
            return Ok(None);
        };
        numbers.push(number)?;
    }
    Ok(Some(Owned::from_vec(numbers)))
}

pub(crate) fn take_rows(alloc: Global, cursor: &mut Cursor) -> Result<Option<Rows>, OutOfMemory>
    ensures { IfOk result (λ found. TakesSpelling spelled_rows (FitList FitsRow) (λ rows. rows.items) found cursor.old cursor.new) }
{
    let Some(count) = cursor.take_u32() else {
        return Ok(None);
    };
    if cursor.left() / 20 < count as usize {
        return Ok(None);
    }
    let mut rows = Rows::new(alloc);
    rows.reserve(count as usize)?;
    for _ in 0..count {
        let Some(row) = take_row(cursor) else {
            return Ok(None);
        };
        rows.push(row);
    }
    Ok(Some(rows))
}

fn take_actives(alloc: Global, cursor: &mut Cursor) -> Result<Option<Actives>, OutOfMemory>
    ensures { IfOk result (λ found. TakesSpelling spelled_actives (FitList FitsOpen) (λ actives. map open_entry actives.items) found cursor.old cursor.new) }
{
    let Some(count) = cursor.take_u32() else {
        return Ok(None);
    };
    let found = take_many(alloc, cursor, count)?;
    let Some(actives) = found else {
        return Ok(None);
    };
    Ok(Some(Actives::from_vec(actives)))
}

/// TakesSpelling a catalogue off the front; None where the bytes begin with no spelling of one.
pub fn take_contents(alloc: Global, cursor: &mut Cursor) -> Result<Option<Contents>, OutOfMemory>
    ensures { IfOk result (λ found. TakesSpelling spelled IsSpellable catalogue_of_contents found cursor.old cursor.new) }
{
    let Some((base, newest, count)) = take_numbers(cursor) else {
        return Ok(None);
    };
    let Some(phase) = take_phase(cursor) else {
        return Ok(None);
    };
    let retained = take_many(alloc, cursor, count)?;
    let Some(versions) = retained else {
        return Ok(None);
    };
    let closed = take_many(alloc, cursor, count.saturating_sub(1))?;
    let Some(volumes) = closed else {
        return Ok(None);
    };
    let open = take_actives(alloc, cursor)?;
    let Some(actives) = open else {
        return Ok(None);
    };
    Ok(Some(Contents {
        base,
        newest,
        phase,
        versions,
        volumes,
        actives,
    }))
}
