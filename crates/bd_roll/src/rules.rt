//! The rules that every catalogue obeys.
ghost use Rattle.std.specs.Prelude.{◌≡◌, ℕ, ◌+◌, ◌-◌, ◌^◌, ◌<◌, ◌≤◌, length, map, IfSome, IfNone, IfOk, Some, None, is_some, if◌then◌else◌};
ghost use Rattle.std.specs.List.{list_all, flat_map};
ghost use Rattle.bd_model.specs.Sizes.{sizes_of};
ghost use Rattle.bd_model.specs.Room.{up};
ghost use Rattle.bd_roll.specs.Catalogue.{row_starts, bytes_of_rows, oldest_in, retained_in, all_extents};
ghost use Rattle.bd_roll.specs.Rules.{ascends, numbers_hold, phase_holds, version_holds, starts_hold, actives_hold, extents_hold, obeys, row_holds, volume_holds, active_holds};
ghost use Rattle.bd_roll.specs.Shown.{version_entry, volume_entry, open_entry, catalogue_of_contents};
ghost use Rattle.bd_roll.specs.Checked.{lists_hold, marked};

use crate::contents::Contents;
use crate::rows::{ActiveCategory, ClosedVolume, OwnsExtents, VersionRow};
use bd_model::{CategoryRow, Phase, Shape};
use std::alloc::{AllocError as OutOfMemory, Global};

// The extents of this many bytes.
fn extents_for(shape: &Shape, bytes: u64) -> u64
    ensures { result ≡ up shape.now.extent bytes }
{
    bytes.div_ceil(u64::from(shape.extent()))
}

fn numbers_hold(shape: &Shape, contents: &Contents) -> bool
    ensures { result ≡ numbers_hold (sizes_of shape.now) (catalogue_of_contents contents.now) }
{
    let base = contents.base;
    let newest = contents.newest;
    let retained = contents.versions.len() as u64;
    if retained > u64::from(shape.retain()) {
        return false;
    }
    if u64::from(base) + retained > u64::from(newest) {
        return false;
    }
    if retained == 0 && base != newest {
        return false;
    }
    contents.volumes.len() as u64 == retained.saturating_sub(1)
}

fn phase_holds(contents: &Contents) -> bool
    ensures { result ≡ phase_holds (catalogue_of_contents contents.now) contents.now.phase }
{
    match contents.phase {
        Phase::Settled => true,
        Phase::Waiting { cursor } => {
            contents.versions.len() >= 2 && contents.base < cursor && cursor <= contents.newest
        }
    }
}

fn version_holds(shape: &Shape, row: &VersionRow) -> bool
    ensures { result ≡ version_holds (sizes_of shape.now) (version_entry row.now) }
{
    let Some(most) = u64::from(shape.max()).checked_mul(row.chunks) else {
        return false;
    };
    let Some(entries) = 40u64.checked_mul(row.chunks) else {
        return false;
    };
    row.fresh <= row.chunks
        && row.chunks <= row.length
        && row.length <= most
        && row.recipe.len() as u64 == extents_for(shape, entries)
}

fn row_holds(shape: &Shape, row: &CategoryRow) -> bool
    ensures { result ≡ row_holds (sizes_of shape.now) row.now }
{
    let Some(most) = (36 + u64::from(shape.max())).checked_mul(row.chunks) else {
        return false;
    };
    row.chunks >= 1 && 37 * row.chunks <= row.bytes && row.bytes <= most
}

// The sum of the rows' bytes, where it is below 2^64.
fn bytes_of(rows: &[CategoryRow]) -> Option<u64>
    ensures sum { IfSome result (λ bytes. bytes ≡ bytes_of_rows rows.now) }
    ensures large { IfNone result (2 ^ 64 ≤ bytes_of_rows rows.now) }
{
    let mut bytes: u64 = 0;
    for row in rows {
        bytes = bytes.checked_add(row.bytes)?;
    }
    Some(bytes)
}

fn rows_hold(shape: &Shape, rows: &[CategoryRow]) -> bool
    ensures { result ≡ list_all (row_holds (sizes_of shape.now)) rows.now }
{
    rows.iter().all(|row| row_holds(shape, row))
}

fn volume_holds(shape: &Shape, volume: &ClosedVolume) -> bool
    ensures { result ≡ volume_holds (sizes_of shape.now) (volume_entry volume.now) }
{
    let Some(bytes) = bytes_of(volume.rows.as_slice()) else {
        return false;
    };
    rows_hold(shape, volume.rows.as_slice())
        && volume.extents.len() as u64 == extents_for(shape, bytes)
}

fn active_holds(shape: &Shape, active: &ActiveCategory) -> bool
    ensures { result ≡ active_holds (sizes_of shape.now) (open_entry active.now) }
{
    row_holds(shape, &active.row)
        && active.extents.len() as u64 == extents_for(shape, active.row.bytes)
}

// Whether the starts ascend from `low` to `high`.
fn rows_ascend(rows: &[CategoryRow], low: u64, high: u64) -> bool
    requires { low ≤ 2 ^ 32 }
    ensures { result ≡ ascends low high (row_starts rows.now) }
{
    let mut least = low;
    for row in rows {
        let start = u64::from(row.start);
        if start < least || high < start {
            return false;
        }
        least = start + 1;
    }
    true
}

fn actives_ascend(actives: &[ActiveCategory], low: u64, high: u64) -> bool
    requires { low ≤ 2 ^ 32 }
    ensures { result ≡ ascends low high (map (λ e. e.row.start) (map open_entry actives.now)) }
{
    let mut least = low;
    for active in actives {
        let start = u64::from(active.row.start);
        if start < least || high < start {
            return false;
        }
        least = start + 1;
    }
    true
}

fn versions_hold(shape: &Shape, rows: &[VersionRow]) -> bool
    ensures { result ≡ list_all (λ x. version_holds (sizes_of shape.now) (version_entry x)) rows.now }
{
    rows.iter().all(|row| version_holds(shape, row))
}

fn volumes_hold(shape: &Shape, volumes: &[ClosedVolume]) -> bool
    ensures { result ≡ list_all (λ x. volume_holds (sizes_of shape.now) (volume_entry x)) volumes.now }
{
    volumes.iter().all(|volume| volume_holds(shape, volume))
}

fn each_active_holds(shape: &Shape, actives: &[ActiveCategory]) -> bool
    ensures { result ≡ list_all (λ x. active_holds (sizes_of shape.now) (open_entry x)) actives.now }
{
    actives.iter().all(|active| active_holds(shape, active))
}

fn starts_hold(contents: &Contents) -> bool
    requires oldest { retained_in (catalogue_of_contents contents.now) ≤ contents.now.newest + 1 }
    requires few { length contents.now.volumes.items < 2 ^ 32 }
    ensures { let c = catalogue_of_contents contents.now in result ≡ starts_hold (oldest_in c) (oldest_in c) c.volumes }
{
    let oldest = contents.oldest();
    let mut number = oldest;
    for volume in &contents.volumes {
        if !rows_ascend(volume.rows.as_slice(), oldest, number) {
            return false;
        }
        number += 1;
    }
    true
}

fn actives_hold(contents: &Contents) -> bool
    ensures { result ≡ actives_hold (catalogue_of_contents contents.now) }
{
    let base = u64::from(contents.base);
    let newest = u64::from(contents.newest);
    actives_ascend(contents.actives.as_slice(), base + 1, newest)
        && (contents.versions.len() > 0 || contents.actives.len() == 0)
}

// The rules on phases, rows and starts.
fn lists_hold(shape: &Shape, contents: &Contents) -> bool
    requires oldest { retained_in (catalogue_of_contents contents.now) ≤ contents.now.newest + 1 }
    requires few { length contents.now.volumes.items < 2 ^ 32 }
    ensures { result ≡ lists_hold (sizes_of shape.now) (catalogue_of_contents contents.now) }
{
    if !phase_holds(contents) {
        return false;
    }
    if !versions_hold(shape, &contents.versions) {
        return false;
    }
    if !starts_hold(contents) {
        return false;
    }
    if !actives_hold(contents) {
        return false;
    }
    volumes_hold(shape, &contents.volumes) && each_active_holds(shape, contents.actives.as_slice())
}

// Marks the numbers as seen. False where one of them was seen before or has no mark.
fn mark_all(seen: &mut [bool], numbers: &[u32]) -> bool
    ensures { marked seen.old numbers.now ≡ (if result then Some seen.new else None) }
{
    for number in numbers {
        let at = *number as usize;
        if at >= seen.len() || seen[at] {
            return false;
        }
        seen[at] = true;
    }
    true
}

// Marks the numbers of these owners as seen, as `mark_all` does.
fn mark_owners<T: OwnsExtents>(seen: &mut [bool], owners: &[T]) -> bool
    ensures { marked seen.old (flat_map T.numbers owners.now) ≡ (if result then Some seen.new else None) }
{
    for owner in owners {
        if !mark_all(seen, owner.extents().numbers()) {
            return false;
        }
    }
    true
}

// Marks the numbers of all owners as seen, as `mark_all` does.
fn mark_owned(seen: &mut [bool], contents: &Contents) -> bool
    ensures { result ≡ is_some (marked seen.old (all_extents (catalogue_of_contents contents.now))) }
{
    if !mark_owners(seen, &contents.versions) {
        return false;
    }
    if !mark_owners(seen, &contents.volumes) {
        return false;
    }
    mark_owners(seen, contents.actives.as_slice())
}

// Whether each number names an extent and none stands twice.
fn extents_hold(alloc: Global, shape: &Shape, contents: &Contents) -> Result<bool, OutOfMemory>
    ensures { IfOk result (λ holds. holds ≡ extents_hold (sizes_of shape.now) (catalogue_of_contents contents.now)) }
{
    let mut seen = vec![in alloc; false; shape.extents() as usize]?;
    Ok(mark_owned(&mut seen, contents))
}

/// Whether the contents obey all rules for the shape.
pub fn obeys(alloc: Global, shape: &Shape, contents: &Contents) -> Result<bool, OutOfMemory>
    ensures { IfOk result (λ obeyed. obeyed ≡ obeys (sizes_of shape.now) (catalogue_of_contents contents.now)) }
{
    if !numbers_hold(shape, contents) || !lists_hold(shape, contents) {
        return Ok(false);
    }
    extents_hold(alloc, shape, contents)
}
