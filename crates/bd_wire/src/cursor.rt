//! Fields read from the front of some bytes.
ghost use Rattle.std.specs.Prelude.{◌≡◌, ℕ, ◌<◌, ◌≤◌, ◌↔◌, List, [], ◌∷◌, ◌++◌, length, IsSome, IfSome, IfNone};
ghost use Rattle.std.specs.Int.{w32, w64, to_be_bytes};

use std::marker::Model;

/// Bytes that are read field by field, from the front. Contracts see the bytes that are left.
#[derive(Drop)]
pub struct Cursor<'a> {
    rest: &'a [u8],
}

impl<'a> Model for Cursor<'a> {
    ghost use Rattle.std.specs.Prelude.{ℕ, List};

    ghost Value = { List ℕ };

    ghost view = { λ c. c.rest.now };
}

impl<'a> Cursor<'a> {
    /// All of these bytes are left.
    pub fn new(bytes: &'a [u8]) -> Cursor<'a>
        ensures { result ≡ bytes.now }
    {
        Cursor { rest: bytes }
    }

    /// The number of bytes that are left.
    pub fn left(&self) -> usize
        ensures { result ≡ length self.now }
    {
        self.rest.len()
    }

    /// The next byte, or None where none is left.
    pub fn take_u8(&mut self) -> Option<u8>
        ensures enough { IsSome result ↔ (1 ≤ length self.old) }
        ensures stays { IfNone result (self.new ≡ self.old) }
        ensures field { IfSome result (λ value. self.old ≡ (value ∷ []) ++ self.new) }
    {
        let [value] = self.take_bytes::<1>()?;
        Some(value)
    }

    /// The value of the next 4 bytes, the high byte first, or None where fewer are left.
    pub fn take_u32(&mut self) -> Option<u32>
        ensures enough { IsSome result ↔ (4 ≤ length self.old) }
        ensures stays { IfNone result (self.new ≡ self.old) }
        ensures field { IfSome result (λ value. self.old ≡ to_be_bytes w32 value ++ self.new) }
    {
        Some(u32::from_be_bytes(self.take_bytes()?))
    }

    /// The value of the next 8 bytes, the high byte first, or None where fewer are left.
    pub fn take_u64(&mut self) -> Option<u64>
        ensures enough { IsSome result ↔ (8 ≤ length self.old) }
        ensures stays { IfNone result (self.new ≡ self.old) }
        ensures field { IfSome result (λ value. self.old ≡ to_be_bytes w64 value ++ self.new) }
    {
        Some(u64::from_be_bytes(self.take_bytes()?))
    }

    /// The next 32 bytes, or None where fewer are left.
    pub fn take_32(&mut self) -> Option<[u8; 32]>
        ensures enough { IsSome result ↔ (32 ≤ length self.old) }
        ensures stays { IfNone result (self.new ≡ self.old) }
        ensures field { IfSome result (λ bytes. self.old ≡ bytes ++ self.new) }
    {
        self.take_bytes()
    }

    // The next N bytes, or None where fewer are left.
    fn take_bytes<const N: usize>(&mut self) -> Option<[u8; N]>
        ensures enough { IsSome result ↔ (N ≤ length self.old) }
        ensures stays { IfNone result (self.new ≡ self.old) }
        ensures field { IfSome result (λ bytes. self.old ≡ bytes ++ self.new) }
    {
        let (bytes, rest) = self.rest.split_first_chunk::<N>()?;
        self.rest = rest;
        Some(*bytes)
    }
}
