//! The number that each byte adds to the hash.
ghost use Rattle.std.specs.Prelude.{◌≡◌};
ghost use Rattle.bd_gear.specs.Rolling.{rolled_over};
ghost use Rattle.bd_gear.specs.Table.{AreGears};
ghost use Rattle.bd_model.specs.Chunks.{gear};

use sha2::{Digest, Sha256};

/// The gear of each byte: the big-endian number of the first eight bytes of the SHA-256 of this one byte.
#[derive(Clone, Copy)]
pub struct Gear {
    table: [u64; 256],
    ghost entries: { AreGears table },
}

impl Gear {
    /// Computes the table by 256 digests. It takes no memory.
    pub fn new() -> Gear {
        let mut table = [0; 256];
        for byte in 0..256 {
            table[byte] = gear_of(byte as u8);
        }
        Gear { table }
    }

    /// The gear of this byte.
    pub fn entry(&self, byte: u8) -> u64
        ensures { result ≡ gear byte }
    {
        self.table[usize::from(byte)]
    }

    /// The hash after one more byte.
    pub(crate) fn roll(&self, hash: u64, byte: u8) -> u64
        ensures { result ≡ rolled_over hash byte }
    {
        hash.wrapping_shl(1).wrapping_add(self.entry(byte))
    }

    /// The hash after one more byte, and after another. The second waits for the hash only once.
    pub(crate) fn roll_twice(&self, hash: u64, first: u8, second: u8) -> (u64, u64)
        ensures first { result.0 ≡ rolled_over hash first }
        ensures second { result.1 ≡ rolled_over (rolled_over hash first) second }
    {
        let gear = self.entry(first);
        let both = gear.wrapping_shl(1).wrapping_add(self.entry(second));
        (
            hash.wrapping_shl(1).wrapping_add(gear),
            hash.wrapping_shl(2).wrapping_add(both),
        )
    }
}

fn gear_of(byte: u8) -> u64
    ensures { result ≡ gear byte }
{
    let digest = Sha256::digest(&[byte]);
    u64::from_be_bytes([
        digest[0], digest[1], digest[2], digest[3], digest[4], digest[5], digest[6], digest[7],
    ])
}
