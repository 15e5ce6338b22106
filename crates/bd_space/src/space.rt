//! The use of each extent.
ghost use Rattle.std.specs.Prelude.{◌≡◌, ◌≢◌, ℕ, ◌+◌, ◌^◌, ◌<◌, ◌≤◌, ◌++◌, length, take, drop, replicate, All, IfOk, OnOk, OnErr, MatchResult, nat_eq};
ghost use Rattle.std.specs.List.{IsDistinct};
ghost use Rattle.bd_space.specs.Allotment.{Allotment, IsFree, IsTaken, is_free, is_held, numbers_from, free_numbers, free_count, held_count, Marks, KeepsHeld};
ghost use Rattle.bd_space.specs.Marking.{marked_uses, IsCountedRight};
ghost use Rattle.bd_space.specs.Refusal.{IsRefusal};

use crate::owned::Owned;
use std::alloc::{AllocError as OutOfMemory, Global};
use std::marker::Model;

/// What an extent number is used for.
#[derive(Clone, Copy, Debug, PartialEq, Eq)]
pub enum Use {
    /// Nothing.
    Free,
    /// An owner has it.
    Taken,
    /// It was given back while a reader still needs it.
    Held,
}

/// Why an owner was not extended.
#[derive(Debug, PartialEq, Eq, Drop)]
pub enum SpaceFault {
    /// More numbers are wanted than are free.
    NoRoom { want: u32, free: u32 },
    OutOfMemory,
}

/// Which extent numbers are free, and which are not.
#[derive(Drop)]
pub struct Space {
    uses: Vec<Use>,
    free: u32,
    held: u32,
    // no number below it is free
    lowest: usize,
}

impl Model for Space {
    ghost use Rattle.bd_space.specs.Allotment.{Allotment};
    ghost use Rattle.bd_space.specs.Marking.{IsCountedRight};

    ghost Value = { Allotment };

    ghost view = { λ s. record { uses = s.uses.items } };

    ghost invariant = { λ s. IsCountedRight s.uses.items s.free s.held s.lowest };
}

impl Space {
    /// All numbers below `extents` are free.
    pub fn new(alloc: Global, extents: u32) -> Result<Space, OutOfMemory>
        ensures uses { IfOk result (λ space. space.uses ≡ replicate extents Use.Free) }
        ensures free { IfOk result (λ space. free_count space ≡ extents) }
        ensures held { IfOk result (λ space. held_count space ≡ 0) }
    {
        let uses = vec![in alloc; Use::Free; extents as usize]?;
        Ok(Space {
            uses,
            free: extents,
            held: 0,
            lowest: 0,
        })
    }

    /// Appends the `count` lowest free numbers to the owner's list, and they are taken. `NoRoom` comes
    /// exactly where more are wanted than are free. Memory is asked for only where the owner lacks
    /// room. A refusal changes nothing.
    pub fn extend(&mut self, owner: &mut Owned, count: u32) -> Result<(), SpaceFault>
        ensures answers { MatchResult result (λ _. count ≤ free_count self.old) (IsRefusal count (free_count self.old)) }
        ensures enough { count ≤ owner.old.spare → result ≢ Err SpaceFault.OutOfMemory }

        ensures appended { OnOk result (owner.new.numbers ≡ owner.old.numbers ++ take count (free_numbers self.old)) }
        ensures grown { OnOk result (length owner.new.numbers ≡ length owner.old.numbers + count) }
        ensures spare { OnOk result (owner.old.spare ≤ owner.new.spare + count) }

        ensures were_free { OnOk result (All (IsFree self.old) (take count (free_numbers self.old))) }
        ensures distinct { OnOk result (IsDistinct nat_eq (take count (free_numbers self.old))) }
        ensures taken { OnOk result (Marks (take count (free_numbers self.old)) Use.Taken self.old self.new) }
        ensures free { OnOk result (free_count self.new + count ≡ free_count self.old) }
        ensures held { OnOk result (KeepsHeld self.old self.new) }

        ensures refused { OnErr result (self.new ≡ self.old) }
        ensures owner_refused { OnErr result (owner.new ≡ owner.old) }
    {
        if self.free < count {
            return Err(SpaceFault::NoRoom {
                want: count,
                free: self.free,
            });
        }
        if owner.reserve(count).is_err() {
            return Err(SpaceFault::OutOfMemory);
        }
        self.lowest = take_lowest(&mut self.uses, self.lowest, count, owner);
        self.free -= count;
        Ok(())
    }

    /// The owner's numbers, which are all free, are taken. Takes no memory.
    pub fn claim(&mut self, owner: &Owned)
        requires free { All (IsFree self.old) owner.now.numbers }
        requires distinct { IsDistinct nat_eq owner.now.numbers }
        ensures taken { Marks owner.now.numbers Use.Taken self.old self.new }
        ensures free { free_count self.new + length owner.now.numbers ≡ free_count self.old }
        ensures held { KeepsHeld self.old self.new }
    {
        mark(&mut self.uses, owner.numbers(), Use::Taken);
        self.free -= owner.len() as u32;
    }

    /// The owner's numbers, which are all taken, are free. Takes no memory.
    pub fn give_back(&mut self, owner: Owned)
        requires taken { All (IsTaken self.old) owner.numbers }
        requires distinct { IsDistinct nat_eq owner.numbers }
        ensures freed { Marks owner.numbers Use.Free self.old self.new }
        ensures free { free_count self.new ≡ free_count self.old + length owner.numbers }
        ensures held { KeepsHeld self.old self.new }
    {
        mark(&mut self.uses, owner.numbers(), Use::Free);
        self.free += owner.len() as u32;
        self.lowest = lowest_of(self.lowest, owner.numbers());
    }

    /// How many numbers are free.
    pub fn free(&self) -> u32
        ensures { result ≡ free_count self.now }
    {
        self.free
    }

    /// How many numbers are held.
    pub fn held(&self) -> u32
        ensures { result ≡ held_count self.now }
    {
        self.held
    }
}

// Appends the `count` lowest free numbers and marks them as taken, where none below `lowest` is free.
// No number below the answer is free afterwards.
fn take_lowest(uses: &mut [Use], lowest: usize, count: u32, owner: &mut Owned) -> usize
    requires small { length uses.old < 2 ^ 32 }
    requires room { count ≤ owner.old.spare }
    requires below { numbers_from is_free lowest (drop lowest uses.old) ≡ numbers_from is_free 0 uses.old }
    requires found { count ≤ length (numbers_from is_free 0 uses.old) }
    ensures appended { owner.new.numbers ≡ owner.old.numbers ++ take count (numbers_from is_free 0 uses.old) }
    ensures grown { length owner.new.numbers ≡ length owner.old.numbers + count }
    ensures spare { owner.old.spare ≤ owner.new.spare + count }
    ensures marked { uses.new ≡ marked_uses uses.old (take count (numbers_from is_free 0 uses.old)) Use.Taken }
    ensures rest { numbers_from is_free result (drop result uses.old) ≡ drop count (numbers_from is_free 0 uses.old) }
{
    let known = owner.len();
    let behind = collect_free(uses, lowest, count, owner);
    mark(uses, &owner.numbers()[known..], Use::Taken);
    behind
}

// Appends the `count` lowest free numbers from `from` on, and answers the place behind the last.
fn collect_free(uses: &[Use], from: usize, count: u32, owner: &mut Owned) -> usize
    requires small { length uses.now < 2 ^ 32 }
    requires room { count ≤ owner.old.spare }
    requires found { count ≤ length (numbers_from is_free from (drop from uses.now)) }
    ensures appended { owner.new.numbers ≡ owner.old.numbers ++ take count (numbers_from is_free from (drop from uses.now)) }
    ensures spare { owner.old.spare ≤ owner.new.spare + count }
    ensures rest { numbers_from is_free result (drop result uses.now) ≡ drop count (numbers_from is_free from (drop from uses.now)) }
{
    let mut found = 0;
    for at in from..uses.len() {
        if found == count {
            return at;
        }
        if let Use::Free = uses[at] {
            owner.push(at as u32);
            found += 1;
        }
    }
    uses.len()
}

// These numbers get this use.
fn mark(uses: &mut [Use], numbers: &[u32], usage: Use)
    requires { All (λ n. n < length uses.old) numbers.now }
    ensures { uses.new ≡ marked_uses uses.old numbers.now usage }
{
    for number in numbers {
        uses[*number as usize] = usage;
    }
}

// No more than `lowest`, and no more than any of the numbers.
fn lowest_of(lowest: usize, numbers: &[u32]) -> usize
    ensures no_more { result ≤ lowest }
    ensures least { All (λ n. result ≤ n) numbers.now }
{
    let mut least = lowest;
    for number in numbers {
        least = least.min(*number as usize);
    }
    least
}
