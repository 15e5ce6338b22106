//! The search for the end of a chunk.
ghost use Rattle.std.specs.Prelude.{◌≡◌, ◌+◌, ◌-◌, ◌^◌, ◌≤◌, length};
ghost use Rattle.bd_model.specs.State.{cut_of};
ghost use Rattle.bd_gear.specs.Rolling.{rolled_on, RollsTo, ScansTo};
ghost use Rattle.bd_gear.specs.Seeking.{Seeks};

use crate::gear::Gear;
use bd_model::Shape;

/// How far the hash was rolled over some bytes.
#[derive(Clone, Copy)]
pub(crate) struct Scan {
    pub count: usize,
    pub hash: u64,
    /// Whether what is looked for ends there.
    pub found: bool,
}

/// Looks for the end of the next chunk in the bytes held, of which `scanned` are passed.
pub(crate) fn seek(
    gear: &Gear,
    shape: &Shape,
    held: &[u8],
    scanned: usize,
    hash: u64,
    finished: bool,
) -> Scan
    requires held { scanned ≤ length held.now }
    requires at_most { scanned ≤ shape.now.max }
    ensures { Seeks (cut_of shape.now) held.now scanned hash finished result.count result.hash result.found }
{
    let scan = scan_held(gear, shape, held, scanned, hash);
    let is_full = scan.count == shape.max() as usize;
    let is_rest = finished && scan.count > 0;
    Scan {
        found: scan.found || is_full || is_rest,
        ..scan
    }
}

// Goes on over the bytes held, of which `scanned` are passed, to the first length that ends at a candidate, or to the most
// that a chunk may have.
fn scan_held(gear: &Gear, shape: &Shape, held: &[u8], scanned: usize, hash: u64) -> Scan
    requires held { scanned ≤ length held.now }
    requires at_most { scanned ≤ shape.now.max }
    ensures { ScansTo (cut_of shape.now) held.now scanned hash result.count result.hash result.found }
{
    let most = held.len().min(shape.max() as usize);
    let untried = most.min(shape.min() as usize - 1).max(scanned);
    let hash = roll(gear, hash, &held[scanned..untried]);
    let last = last_candidate(shape.bits());
    let scan = roll_to_candidate(gear, hash, last, &held[untried..most]);
    Scan {
        count: untried + scan.count,
        ..scan
    }
}

// The greatest hash of a candidate.
fn last_candidate(bits: u32) -> u64
    requires { bits ≤ 32 }
    ensures { result + 1 ≡ 2 ^ (64 - bits) }
{
    u64::MAX >> bits
}

// How many bytes the hash goes back.
const WINDOW: usize = 64;

// The hash after these bytes. It has forgotten all but the last of them.
fn roll(gear: &Gear, hash: u64, bytes: &[u8]) -> u64
    ensures { result ≡ rolled_on hash bytes.now }
{
    roll_over(gear, hash, &bytes[bytes.len().saturating_sub(WINDOW)..])
}

// The hash after these bytes, one after the other.
fn roll_over(gear: &Gear, hash: u64, bytes: &[u8]) -> u64
    ensures { result ≡ rolled_on hash bytes.now }
{
    bytes.iter().fold(hash, |hash, byte| gear.roll(hash, *byte))
}

// Rolls the hash up to the first that is at most `last`, or over all the bytes, two of them a turn.
fn roll_to_candidate(gear: &Gear, hash: u64, last: u64, bytes: &[u8]) -> Scan
    ensures { RollsTo (last + 1) bytes.now hash result.count result.hash result.found }
{
    let mut hash = hash;
    let mut count = 0;
    while bytes.len() - count >= 2 {
        let (odd, even) = gear.roll_twice(hash, bytes[count], bytes[count + 1]);
        if odd <= last {
            return Scan {
                count: count + 1,
                hash: odd,
                found: true,
            };
        }
        if even <= last {
            return Scan {
                count: count + 2,
                hash: even,
                found: true,
            };
        }
        hash = even;
        count += 2;
    }
    let mut found = false;
    if count < bytes.len() {
        hash = gear.roll(hash, bytes[count]);
        count += 1;
        found = hash <= last;
    }
    Scan { count, hash, found }
}
