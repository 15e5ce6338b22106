//! Which chunks came already.
ghost use Rattle.std.specs.Prelude.{◌≡◌, ℕ, List, [], ◌||◌, ◌&&◌, Bool, false, not, length, replicate, IfOk, OnOk};
ghost use Rattle.std.specs.Str.{bytes_eq};
ghost use Rattle.bd_model.specs.Laws.{start_in};
ghost use Rattle.bd_model.specs.Recipe.{has_mark};
ghost use Rattle.bd_intake.specs.Firsts.{knows};
ghost use Rattle.bd_intake.specs.Seen.{AreUsed};

use bd_model::Mark;
use bd_recipe::Neighbour;
use std::alloc::{AllocError as OutOfMemory, Global};
use std::collections::HashSet;
use std::marker::Model;

/// What is known of a chunk once its mark came.
#[derive(Clone, Copy)]
pub(crate) struct Met {
    /// Whether the version before lacks it, and none with its mark came.
    pub(crate) is_new: bool,
    /// The version from which on each has it.
    pub(crate) start: u32,
}

/// The marks that came so far.
#[derive(Drop)]
pub(crate) struct Seen {
    // of those that the version before lacks
    marks: HashSet<[u8; 32]>,
    // for the first entry with a mark in the version before, whether the mark came
    used: Vec<bool>,
}

impl Model for Seen {
    ghost use Rattle.bd_intake.specs.Seen.{SeenMarks};

    ghost Value = { SeenMarks };

    ghost view = { λ s. record { marks = s.marks.keys; used = s.used.items } };
}

impl Seen {
    /// None, beside so many entries of the version before.
    pub(crate) fn none(alloc: Global, entries: usize) -> Result<Seen, OutOfMemory>
        ensures marks { IfOk result (λ seen. seen.marks ≡ []) }
        ensures used { IfOk result (λ seen. seen.used ≡ replicate entries false) }
    {
        Ok(Seen {
            marks: HashSet::new(alloc),
            used: vec![in alloc; false; entries]?,
        })
    }

    /// Whether a chunk with this mark is new, which it isn't from then on, and where it starts.
    pub(crate) fn meet(
        &mut self,
        neighbour: &Neighbour,
        version: u32,
        mark: &Mark,
    ) -> Result<Met, OutOfMemory>
        requires flags { length self.old.used ≡ length neighbour.now.entries }
        ensures start { IfOk result (λ met. met.start ≡ start_in neighbour.now.entries mark.now.0 version) }
        ensures is_new { IfOk result (λ met. met.is_new ≡ not (has_mark neighbour.now.entries mark.now.0 || knows self.old.marks mark.now.0)) }
        ensures known { OnOk result ((m : List ℕ) →
            knows self.new.marks m ≡ (knows self.old.marks m || (bytes_eq m mark.now.0 && not (has_mark neighbour.now.entries m)))) }
        ensures used { OnOk result ((came : List ℕ → Bool) → AreUsed neighbour.now.entries came self.old.used →
            AreUsed neighbour.now.entries (λ m. came m || bytes_eq m mark.now.0) self.new.used) }
    {
        match neighbour.first_index(mark) {
            Some(index) => {
                self.used[index] = true;
                let start = neighbour.entries().as_slice()[index].start;
                Ok(Met {
                    is_new: false,
                    start,
                })
            }
            None => Ok(Met {
                is_new: self.marks.insert(mark.0)?,
                start: version,
            }),
        }
    }

    /// For the first entry with a mark in the version before, whether the mark came.
    pub(crate) fn used(&self) -> &[bool]
        ensures { result.now ≡ self.now.used }
    {
        &self.used
    }
}
