//! Lists that are finished.
ghost use Rattle.std.specs.Prelude.{◌≡◌, ◌↔◌, ◌<◌, [], length, IsTrue, IsSome, IfSome, slice_index_or};

use crate::sequence::Sequence;
use std::marker::Model;

/// A list to which nothing is added any more. Contracts see it as the plain list of its items, whatever room its making
/// left, so that what holds such lists is compared as it is: an answer that lists versions, a report with its findings.
#[derive(Drop)]
pub struct Finished<T> {
    list: Sequence<T>,
}

impl<T> Model for Finished<T> {
    ghost use Rattle.std.specs.Prelude.{List};

    ghost Value = { List T };

    ghost view = { λ s. s.list.items };
}

impl<T: Drop> Finished<T> {
    /// The items that were pushed. It takes no memory.
    pub fn new(list: Sequence<T>) -> Self
        ensures { result ≡ list.items }
    {
        Finished { list }
    }

    /// How many items there are.
    pub fn len(&self) -> usize
        ensures { result ≡ length self.now }
    {
        self.list.len()
    }

    /// Whether there is no item.
    pub fn is_empty(&self) -> bool
        ensures { IsTrue result ↔ (self.now ≡ []) }
    {
        self.list.is_empty()
    }

    /// The item at this index, counted from 0.
    pub fn get(&self, index: usize) -> Option<&T>
        ensures within { IsSome result ↔ (index < length self.now) }
        ensures item { IfSome result (λ x. x.now ≡ slice_index_or self.now index x.now) }
    {
        self.list.get(index)
    }

    /// All items, in the order in which they were pushed.
    pub fn as_slice(&self) -> &[T]
        ensures { result.now ≡ self.now }
    {
        self.list.as_slice()
    }
}
