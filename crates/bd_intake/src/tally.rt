//! What arranging takes once a version is there, counted from the marks.
ghost use Rattle.std.specs.Prelude.{◌≡◌, ℕ, ◌^◌, ◌<◌, ◌≤◌, List, [], ◌∷◌, ◌++◌, length, not, take, slice_get, Some, IfOk, OnOk, IsTrue};
ghost use Rattle.bd_model.specs.Recipe.{has_mark};
ghost use Rattle.bd_model.specs.declared.layout.RecipeEntry.{RecipeEntry};
ghost use Rattle.bd_recipe.specs.Marked.{first_from};
ghost use Rattle.bd_intake.specs.Given.{FitsSums};
ghost use Rattle.bd_intake.specs.Seen.{AreUsed, IsUsedBy};
ghost use Rattle.bd_intake.specs.Tallies.{CountsNeighbour, IsCounted, gone_with, moved_of, share_at, share_with};

use crate::extents::extents_for;
use bd_model::{RecipeEntry, Shape};
use bd_recipe::Neighbour;
use std::alloc::{AllocError as OutOfMemory, Global};
use std::collections::HashMap;

/// Of the records that begin at one version: the bytes of those that are used on, and whether one isn't.
#[derive(Clone, Copy)]
pub(crate) struct Share {
    pub(crate) kept: u64,
    pub(crate) goes: bool,
}

/// What is counted over the entries of the version before.
#[derive(Drop)]
pub(crate) struct Tally {
    // the different starts, in the order of their first occurrence
    pub(crate) starts: Vec<u32>,
    pub(crate) shares: HashMap<u32, Share>,
    // the bytes of the records that aren't used on
    pub(crate) archived: u64,
}

// What is told of a start.
fn told_of(tally: &Tally, start: u32) -> Share
    ensures { result ≡ share_at tally.now start }
{
    match tally.shares.get(&start) {
        Some(share) => *share,
        None => Share {
            kept: 0,
            goes: false,
        },
    }
}

// The share of its start with this entry. Only of the first with its mark there is a record.
fn with_entry(share: Share, entry: &RecipeEntry, is_first: bool, is_used: bool) -> Share
    requires { share.kept ≤ 2 ^ 62 }
    ensures { result ≡ share_with share entry.now is_first is_used }
{
    if !is_first {
        return share;
    }
    if is_used {
        let length = entry.length;
        return Share {
            kept: share.kept + 36 + u64::from(length),
            goes: share.goes,
        };
    }
    Share {
        kept: share.kept,
        goes: true,
    }
}

// The bytes of the entry's record where it isn't used on.
fn bytes_gone(entry: &RecipeEntry, is_first: bool, is_used: bool) -> u64
    ensures bytes { result ≡ gone_with entry.now is_first is_used }
    ensures small { result < 2 ^ 33 }
{
    let length = entry.length;
    if is_first && !is_used {
        36 + u64::from(length)
    } else {
        0
    }
}

// CountsNeighbour one entry more.
fn count_entry(
    tally: &mut Tally,
    entry: &RecipeEntry,
    is_first: bool,
    is_used: bool,
) -> Result<(), OutOfMemory>
    requires kept { (share_at tally.old entry.now.start).kept ≤ 2 ^ 62 }
    requires archived { tally.old.archived ≤ 2 ^ 62 }
    ensures counted { OnOk result ((old new : List RecipeEntry) → CountsNeighbour old new tally.old → is_first ≡ not (has_mark old entry.now.mark.0) →
        (IsTrue is_first → is_used ≡ has_mark new entry.now.mark.0) → CountsNeighbour (old ++ entry.now ∷ []) new tally.new) }
{
    let share = with_entry(told_of(tally, entry.start), entry, is_first, is_used);
    tally.archived += bytes_gone(entry, is_first, is_used);
    let before = tally.shares.insert(entry.start, share)?;
    if before.is_none() {
        tally.starts.push(entry.start)?;
    }
    Ok(())
}

// Whether no entry before this one has its mark.
fn is_first(neighbour: &Neighbour, index: usize, entry: &RecipeEntry) -> bool
    requires { slice_get neighbour.now.entries index ≡ Some entry.now }
    ensures first { result ≡ not (has_mark (take index neighbour.now.entries) entry.now.mark.0) }
    ensures found { IsTrue result → first_from 0 neighbour.now.entries entry.now.mark.0 ≡ Some index }
{
    match neighbour.first_index(&entry.mark) {
        Some(first) => first == index,
        None => false,
    }
}

// CountsNeighbour over all entries.
fn tallied(alloc: Global, neighbour: &Neighbour, used: &[bool]) -> Result<Tally, OutOfMemory>
    requires sums { FitsSums neighbour.now.entries }
    requires used { IsUsedBy neighbour.now.entries used.now }
    ensures counted { IfOk result (λ tally. (new : List RecipeEntry) → AreUsed neighbour.now.entries (has_mark new) used.now → CountsNeighbour neighbour.now.entries new tally) }
{
    let mut tally = Tally {
        starts: Vec::new(alloc),
        shares: HashMap::new(alloc),
        archived: 0,
    };
    let entries = neighbour.entries().as_slice();
    for index in 0..entries.len() {
        let entry = entries[index];
        let first = is_first(neighbour, index, &entry);
        count_entry(&mut tally, &entry, first, used[index])?;
    }
    Ok(tally)
}

// The extents that arranging takes.
fn total_of(tally: &Tally, shape: &Shape) -> u64
    requires { IsCounted tally.now }
    ensures moved { (old new : List RecipeEntry) → FitsSums old → CountsNeighbour old new tally.now → result ≡ moved_of shape.now.extent old new }
    ensures small { result < 2 ^ 63 }
{
    let mut extents = extents_for(shape, tally.archived);
    for start in &tally.starts {
        let share = told_of(tally, *start);
        if share.goes {
            extents += extents_for(shape, share.kept);
        }
    }
    extents
}

/// The extents that arranging takes once the version is there of which these entries of the version before are used.
pub(crate) fn moved_extents(
    alloc: Global,
    shape: &Shape,
    neighbour: &Neighbour,
    used: &[bool],
) -> Result<u64, OutOfMemory>
    requires sums { FitsSums neighbour.now.entries }
    requires used { IsUsedBy neighbour.now.entries used.now }
    ensures moved { IfOk result (λ extents. (new : List RecipeEntry) → AreUsed neighbour.now.entries (has_mark new) used.now → extents ≡ moved_of shape.now.extent neighbour.now.entries new) }
    ensures small { IfOk result (λ extents. extents < 2 ^ 63) }
{
    let tally = tallied(alloc, neighbour, used)?;
    Ok(total_of(&tally, shape))
}
