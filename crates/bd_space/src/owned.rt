//! The extents of one owner.
ghost use Rattle.std.specs.Prelude.{◌≡◌, ◌+◌, ◌≤◌, [], ◌∷◌, ◌++◌, length, ◌↔◌, IsTrue, IfOk, IsOk, OnOk, OnErr};
ghost use Rattle.bd_space.specs.Holding.{Holding};

use std::alloc::{AllocError as OutOfMemory, Global};
use std::marker::Model;

/// A list of extent numbers, in the order in which they came. It takes memory only in `of`, in `reserve`
/// and where `Space::extend` finds too little room.
#[derive(Drop)]
pub struct Owned {
    numbers: Vec<u32>,
}

impl Model for Owned {
    ghost use Rattle.std.specs.Prelude.{◌-◌};
    ghost use Rattle.bd_space.specs.Holding.{Holding};

    ghost Value = { Holding };

    ghost view = { λ o. record { numbers = o.numbers.items; spare = o.numbers.cap - o.numbers.len } };
}

impl Owned {
    /// No extent.
    pub fn none(alloc: Global) -> Owned
        ensures { result.numbers ≡ [] }
    {
        Owned {
            numbers: Vec::new(alloc),
        }
    }

    /// These numbers. No space counts them as taken until `Space::claim`.
    pub fn of(alloc: Global, numbers: &[u32]) -> Result<Owned, OutOfMemory>
        ensures { IfOk result (λ owned. owned.numbers ≡ numbers.now) }
    {
        let numbers = numbers.to_vec(alloc)?;
        Ok(Owned { numbers })
    }

    /// These numbers, as `of` takes them, with no copy.
    pub fn from_vec(numbers: Vec<u32>) -> Owned
        ensures { result.numbers ≡ numbers.items }
    {
        Owned { numbers }
    }

    /// Makes room for `more` numbers. It asks for memory only where that room is missing.
    pub fn reserve(&mut self, more: u32) -> Result<(), OutOfMemory>
        ensures numbers { self.new.numbers ≡ self.old.numbers }
        ensures room { OnOk result (more ≤ self.new.spare) }
        ensures spare { self.old.spare ≤ self.new.spare }
        ensures enough { more ≤ self.old.spare → IsOk result }
        ensures refused { OnErr result (self.new ≡ self.old) }
    {
        self.numbers.reserve(more as usize)
    }

    /// The other's numbers go last. Takes no memory.
    pub fn append(&mut self, other: Owned)
        requires { length other.numbers ≤ self.old.spare }
        ensures numbers { self.new.numbers ≡ self.old.numbers ++ other.numbers }
        ensures spare { self.old.spare ≤ self.new.spare + length other.numbers }
    {
        let _ = self.numbers.extend_from_slice(&other.numbers);
    }

    /// How many numbers there are.
    pub fn len(&self) -> usize
        ensures { result ≡ length self.now.numbers }
    {
        self.numbers.len()
    }

    /// Whether there is none.
    pub fn is_empty(&self) -> bool
        ensures { IsTrue result ↔ (self.now.numbers ≡ []) }
    {
        self.numbers.is_empty()
    }

    /// The numbers, in the order in which they came.
    pub fn numbers(&self) -> &[u32]
        ensures { result.now ≡ self.now.numbers }
    {
        &self.numbers
    }

    // Takes no memory.
    pub(crate) fn push(&mut self, number: u32)
        requires { 1 ≤ self.old.spare }
        ensures numbers { self.new.numbers ≡ self.old.numbers ++ number ∷ [] }
        ensures spare { self.old.spare ≤ self.new.spare + 1 }
    {
        let _ = self.numbers.push(number);
    }
}
