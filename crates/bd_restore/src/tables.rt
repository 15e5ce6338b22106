//! The entries of a recipe by their marks.
ghost use Rattle.std.specs.Prelude.{◌≡◌, ℕ, ◌+◌, ◌<◌, ◌≤◌, ◌^◌, length, All, IfOk, IfSome};
ghost use Rattle.bd_recipe.specs.Marked.{first_from, next_after};
ghost use Rattle.bd_restore.specs.Target.{length_at, mark_at, place_at, ArePlaces};

use bd_model::{Mark, RecipeEntry};
use bd_recipe::{Neighbour, Recipe};
use std::alloc::{AllocError as OutOfMemory, Global};
use std::marker::Model;

/// The entries of a recipe, found by their marks, and the place of each one's chunk in the stream.
#[derive(Drop)]
pub(crate) struct Tables {
    index: Neighbour,
    places: Vec<u64>,
}

impl Model for Tables {
    ghost use Rattle.std.specs.Prelude.{List};
    ghost use Rattle.bd_model.specs.declared.layout.RecipeEntry.{RecipeEntry};
    ghost use Rattle.bd_restore.specs.Target.{ArePlaces};

    ghost Value = { List RecipeEntry };

    ghost view = { λ t. t.index.entries };

    ghost invariant = { λ t. ArePlaces t.index.entries t.places.items };
}

impl Tables {
    /// The tables of these entries. With the entries they take about 110 bytes for each.
    pub(crate) fn of(alloc: Global, recipe: Recipe) -> Result<Tables, OutOfMemory>
        requires few { length recipe.items ≤ 2 ^ 40 }
        requires short { All (λ e. e.length ≤ 65536) recipe.items }
        ensures { IfOk result (λ tables. tables ≡ recipe.items) }
    {
        let places = places_of(alloc, recipe.as_slice())?;
        let index = Neighbour::of(alloc, recipe)?;
        Ok(Tables { index, places })
    }

    /// How many entries there are.
    pub(crate) fn len(&self) -> usize
        ensures { result ≡ length self.now }
    {
        self.index.entries().len()
    }

    /// The entry of this index.
    pub(crate) fn entry(&self, index: usize) -> RecipeEntry
        requires within { index < length self.now }
        ensures mark { result.mark.0 ≡ mark_at self.now index }
        ensures length { result.length ≡ length_at self.now index }
    {
        self.index.entries().as_slice()[index]
    }

    /// The place of this entry's chunk in the stream.
    pub(crate) fn place(&self, index: usize) -> u64
        requires within { index < length self.now }
        ensures { result ≡ place_at self.now index }
    {
        self.places[index]
    }

    /// The index of the first entry with this mark.
    pub(crate) fn first(&self, mark: &Mark) -> Option<usize>
        ensures index { result ≡ first_from 0 self.now mark.now.0 }
        ensures within { IfSome result (λ index. index < length self.now) }
    {
        self.index.first_index(mark)
    }

    /// The index of the next entry behind this one that has its mark.
    pub(crate) fn next(&self, index: usize) -> Option<usize>
        ensures index { result ≡ next_after self.now index }
        ensures later { IfSome result (λ later. (index < later) × (later < length self.now)) }
    {
        self.index.next_index(index)
    }
}

// The place of each entry's chunk in the stream.
fn places_of(alloc: Global, entries: &[RecipeEntry]) -> Result<Vec<u64>, OutOfMemory>
    requires few { length entries.now ≤ 2 ^ 40 }
    requires short { All (λ e. e.length ≤ 65536) entries.now }
    ensures { IfOk result (λ places. ArePlaces entries.now places.items) }
{
    let mut places = Vec::with_capacity(alloc, entries.len())?;
    let mut at: u64 = 0;
    for entry in entries {
        places.push(at)?;
        at += u64::from(entry.length);
    }
    Ok(places)
}
