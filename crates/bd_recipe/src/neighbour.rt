//! A recipe that can be looked up by fingerprint.
ghost use Rattle.std.specs.Prelude.{◌≡◌, ◌<◌, ◌↔◌, false, length, IfOk, IfSome, IsNone};
ghost use Rattle.std.specs.Option.{option_map};
ghost use Rattle.bd_model.specs.Recipe.{has_mark};
ghost use Rattle.bd_recipe.specs.Marked.{first_from, first_with, next_after};

use crate::recipe::Recipe;
use bd_model::Mark;
use std::alloc::{AllocError as OutOfMemory, Global};
use std::collections::HashMap;
use std::marker::Model;

/// A recipe that can be looked up by fingerprint.
#[derive(Drop)]
pub struct Neighbour {
    recipe: Recipe,
    // the index of the first entry with each mark
    first: HashMap<[u8; 32], u32>,
    // for each entry the index of the next one with the same mark, which is past 0, or else 0
    next: Vec<u32>,
}

impl Model for Neighbour {
    ghost use Rattle.bd_recipe.specs.Marked.{Marked, IsIndexOf};

    ghost Value = { Marked };

    ghost view = { λ n. record { entries = n.recipe.items } };

    ghost invariant = { λ n. IsIndexOf n.recipe.items n.first.entries n.next.items };
}

impl Neighbour {
    /// The index of the recipe. With the recipe it takes about 100 bytes an entry. More entries than 32 bits count are
    /// refused as want of memory.
    pub fn of(alloc: Global, recipe: Recipe) -> Result<Neighbour, OutOfMemory>
        ensures entries { IfOk result (λ n. n.entries ≡ recipe.items) }
    {
        let count = recipe.len();
        if count > u32::MAX as usize {
            return Err(OutOfMemory);
        }
        let mut first = HashMap::with_capacity(alloc, count)?;
        let mut next = vec![in alloc; 0u32; count]?;
        for index in (0..count).rev() {
            let mark = recipe.as_slice()[index].mark.0;
            next[index] = first.insert(mark, index as u32)?.unwrap_or(0);
        }
        Ok(Neighbour {
            recipe,
            first,
            next,
        })
    }

    /// The entries of the recipe that it was made of, in order.
    pub fn entries(&self) -> &Recipe
        ensures entries { result.now.items ≡ self.now.entries }
    {
        &self.recipe
    }

    /// Start and length of the first entry with this mark; `None` exactly where there is none.
    pub fn find(&self, mark: &Mark) -> Option<(u32, u32)>
        ensures entry { result ≡ first_with self.now.entries mark.now.0 }
        ensures none { IsNone result ↔ (has_mark self.now.entries mark.now.0 ≡ false) }
    {
        let index = self.first_index(mark)?;
        let entry = &self.recipe.as_slice()[index];
        Some((entry.start, entry.length))
    }

    /// The index of the first entry with this mark; `None` exactly where there is none.
    pub fn first_index(&self, mark: &Mark) -> Option<usize>
        ensures index { result ≡ first_from 0 self.now.entries mark.now.0 }
        ensures within { IfSome result (λ index. index < length self.now.entries) }
        ensures none { IsNone result ↔ (has_mark self.now.entries mark.now.0 ≡ false) }
    {
        match self.first.get(&mark.0) {
            Some(index) => Some(*index as usize),
            None => None,
        }
    }

    /// The least index greater than this one whose entry has the same mark; `None` exactly where there is none.
    pub fn next_index(&self, index: usize) -> Option<usize>
        ensures index { result ≡ next_after self.now.entries index }
        ensures later { IfSome result (λ later. (index < later) × (later < length self.now.entries)) }
    {
        let later = *self.next.get(index)?;
        if later == 0 {
            None
        } else {
            Some(later as usize)
        }
    }
}
