//! A stream cut into chunks while it comes in pieces.
ghost use Rattle.std.specs.Prelude.{◌≡◌, ℕ, ◌+◌, ◌-◌, ◌^◌, ◌<◌, ◌≤◌, min, Bool, List, [], ◌∷◌, ◌++◌, length, take, drop, true, false, Option, Some, None, IfOk, IfNone, MatchOption, IsTrue, IsFalse, vec_len};
ghost use Rattle.bd_model.specs.Chunks.{Cut, chunks};
ghost use Rattle.bd_model.specs.State.{cut_of};
ghost use Rattle.bd_gear.specs.Chunking.{next_given, next_len};
ghost use Rattle.bd_gear.specs.Feeding.{HasFed, place_after};
ghost use Rattle.bd_gear.specs.Seeking.{LooksOn};

use crate::buffer::{append, make_room};
use crate::gear::Gear;
use crate::scan::seek;
use bd_model::Shape;
use std::alloc::{AllocError as OutOfMemory, Global};
use std::marker::Model;

/// The most bytes that a chunker holds.
pub const ROOM: usize = 131_072;

/// Cuts a stream into chunks while it comes in pieces. Contracts see the bytes that it holds, how far it has looked for the
/// end of the next chunk, and whether input may follow; `HasFed` says which stream it was fed and which chunks were taken.
#[derive(Drop)]
pub struct Chunker {
    gear: Gear,
    shape: Shape,
    // ROOM bytes, of which those held stand from `start` to `end`
    buffer: Vec<u8>,
    start: usize,
    end: usize,
    // how many of them the hash has rolled over, and the hash there
    scanned: usize,
    hash: u64,
    // whether these are the next chunk
    found: bool,
    finished: bool,
}

impl Model for Chunker {
    ghost use Rattle.bd_gear.specs.Chunking.{Chunking};

    ghost Value = { Chunking };

    ghost use Rattle.std.specs.Prelude.{◌≡◌, ℕ, ◌-◌, ◌≤◌, ◌<◌, slice_range, vec_len, IsTrue};
    ghost use Rattle.bd_model.specs.State.{cut_of};
    ghost use Rattle.bd_gear.specs.Buffers.{IsBuffer};

    ghost view = { λ c. record {
      cut = cut_of c.shape;
      held = slice_range c.buffer.items c.start c.end;
      scanned = c.scanned;
      hash = c.hash;
      found = c.found;
      finished = c.finished;
    } };

    ghost invariant = { λ c. IsBuffer (vec_len c.buffer) c.start c.end c.scanned c.found c.shape.max };
}

impl Chunker {
    /// A chunker that was fed nothing. It takes all its memory here: `ROOM` bytes, once.
    pub fn new(alloc: Global, gear: Gear, shape: Shape) -> Result<Chunker, OutOfMemory>
        ensures held { IfOk result (λ c. c.held ≡ []) }
        ensures open { IfOk result (λ c. IsFalse c.finished) }
        ensures begun { IfOk result (HasFed (cut_of shape) [] []) }
    {
        let buffer = vec![in alloc; 0u8; ROOM]?;
        Ok(Chunker {
            gear,
            shape,
            buffer,
            start: 0,
            end: 0,
            scanned: 0,
            hash: 0,
            found: false,
            finished: false,
        })
    }

    /// Appends the first of these bytes, as many as there is room for, and gives their number: it holds up to 131,072
    /// bytes (`ROOM`), and fewer than half of that once `next_length` gave None.
    pub fn feed(&mut self, bytes: &[u8]) -> usize
        requires { IsFalse self.old.finished }
        ensures count { result ≡ min (length bytes.now) (131072 - length self.old.held) }
        ensures appended { self.new ≡ record self.old { held = self.old.held ++ take result bytes.now } }
        ensures fed { (cut : Cut) (s : List ℕ) (taken : List (List ℕ)) → HasFed cut s taken self.old
            → HasFed cut (s ++ take result bytes.now) taken self.new }
    {
        let held = self.end - self.start;
        let count = bytes.len().min(ROOM - held);
        self.start = make_room(&mut self.buffer, self.start, self.end, count);
        self.end = self.start + held;
        append(&mut self.buffer, self.start, self.end, &bytes[..count]);
        self.end += count;
        count
    }

    /// The length of the next chunk in bytes. None before it is decided by the bytes that were fed, and after the end of
    /// input where none is left. No byte is looked at twice, however often it is asked.
    pub fn next_length(&mut self) -> Option<u32>
        ensures next { (cut : Cut) (s : List ℕ) (taken : List (List ℕ)) → HasFed cut s taken self.old
            → result ≡ next_len cut s (place_after taken) self.old.finished }
        ensures ended { IfNone result (IsTrue self.old.finished → (cut : Cut) (s : List ℕ) (taken : List (List ℕ))
            → HasFed cut s taken self.old → taken ≡ chunks cut s) }
        ensures sized { MatchOption result ((length self.old.held < self.old.cut.most) × (self.old.cut.most ≤ 65536))
            (λ n. (1 ≤ n) × (n ≤ length self.old.held)) }
        ensures next_given { next_given self.new ≡ result }
        ensures cut { self.new.cut ≡ self.old.cut }
        ensures held { self.new.held ≡ self.old.held }
        ensures finished { self.new.finished ≡ self.old.finished }
        ensures fed { (cut : Cut) (s : List ℕ) (taken : List (List ℕ)) → HasFed cut s taken self.old
            → HasFed cut s taken self.new }
    {
        if !self.found {
            self.look_on();
        }
        if self.found {
            Some(self.scanned as u32)
        } else {
            None
        }
    }

    // Looks for the end of the next chunk in the bytes that are not scanned.
    fn look_on(&mut self)
        requires { IsFalse self.old.found }
        ensures { LooksOn self.old self.new }
    {
        let held = &self.buffer[self.start..self.end];
        let next = seek(
            &self.gear,
            &self.shape,
            held,
            self.scanned,
            self.hash,
            self.finished,
        );
        self.scanned = next.count;
        self.hash = next.hash;
        self.found = next.found;
    }

    /// The bytes of the next chunk. Its length is the one that `next_length` gave.
    pub fn chunk(&self, len: u32) -> &[u8]
        requires { next_given self.now ≡ Some len }
        ensures bytes { result.now ≡ take len self.now.held }
        ensures len { length result.now ≡ len }
    {
        &self.buffer[self.start..self.start + len as usize]
    }

    /// Removes the next chunk. Its length is the one that `next_length` gave. The hash stays: it goes back over the cut.
    pub fn advance(&mut self, len: u32)
        requires { next_given self.old ≡ Some len }
        ensures removed { self.new ≡ record self.old { held = drop len self.old.held; scanned = 0; found = false } }
        ensures taken { (cut : Cut) (s : List ℕ) (taken : List (List ℕ)) → HasFed cut s taken self.old
            → HasFed cut s (taken ++ take len self.old.held ∷ []) self.new }
    {
        self.start += len as usize;
        self.scanned = 0;
        self.found = false;
    }

    /// No input follows.
    pub fn finish(&mut self)
        ensures finished { self.new ≡ record self.old { finished = true } }
        ensures fed { (cut : Cut) (s : List ℕ) (taken : List (List ℕ)) → HasFed cut s taken self.old
            → HasFed cut s taken self.new }
    {
        self.finished = true;
    }
}
