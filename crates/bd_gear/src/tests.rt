//! Streams cut in pieces of many lengths.
ghost use Rattle.std.specs.Prelude.{◌≡◌, ℕ, ◌<◌, ◌≤◌, List, OnOk, IfOk, IsTrue, IsFalse, length};
ghost use Rattle.bd_model.specs.Chunks.{Cut, chunks};
ghost use Rattle.bd_model.specs.State.{cut_of};
ghost use Rattle.bd_gear.specs.Chunking.{as_chunks};
ghost use Rattle.bd_gear.specs.Feeding.{HasFed};

use crate::{Chunker, Gear};
use bd_model::Shape;
use std::alloc::{AllocError as OutOfMemory, Global};
use std::test::Fail;

// Takes every chunk that is decided.
fn take_chunks(
    alloc: Global,
    chunker: &mut Chunker,
    found: &mut Vec<Vec<u8>>,
) -> Result<(), OutOfMemory>
    ensures taken { OnOk result ((cut : Cut) (s : List ℕ) → HasFed cut s (as_chunks found.old.items) chunker.old
        → HasFed cut s (as_chunks found.new.items) chunker.new) }
    ensures ended { OnOk result (IsTrue chunker.old.finished → (cut : Cut) (s : List ℕ)
        → HasFed cut s (as_chunks found.old.items) chunker.old → as_chunks found.new.items ≡ chunks cut s) }
    ensures short { OnOk result (length chunker.new.held < chunker.old.cut.most) }
    ensures cut { chunker.new.cut ≡ chunker.old.cut }
    ensures finished { chunker.new.finished ≡ chunker.old.finished }
{
    while let Some(len) = chunker.next_length() {
        found.push(Vec::from_slice(alloc, chunker.chunk(len))?)?;
        chunker.advance(len);
    }
    Ok(())
}

// The chunks of a stream that is fed in pieces of this many bytes.
fn cut_in_pieces(
    alloc: Global,
    shape: Shape,
    stream: &[u8],
    piece: usize,
) -> Result<Vec<Vec<u8>>, OutOfMemory>
    requires { 1 ≤ piece }
    ensures { IfOk result (λ found. as_chunks found.items ≡ chunks (cut_of shape) stream.now) }
{
    let mut chunker = Chunker::new(alloc, Gear::new(), shape)?;
    let mut found = Vec::new(alloc);
    let mut rest = stream;
    while !rest.is_empty() {
        let count = chunker.feed(&rest[..rest.len().min(piece)]);
        rest = &rest[count..];
        take_chunks(alloc, &mut chunker, &mut found)?;
    }
    chunker.finish();
    take_chunks(alloc, &mut chunker, &mut found)?;
    Ok(found)
}

// Some bytes in no order.
fn mixed(alloc: Global, count: usize) -> Result<Vec<u8>, OutOfMemory> {
    let mut bytes = Vec::new(alloc);
    let mut state: u32 = 1;
    for _i in 0..count {
        state = state.wrapping_mul(1_664_525).wrapping_add(1_013_904_223);
        bytes.push((state >> 24) as u8)?;
    }
    Ok(bytes)
}

#[test]
fn gears_are_those_of_sha_256(rt: HostRuntime) -> Result<(), Fail> {
    let gear = Gear::new();
    for (byte, entry) in [
        (0, 0x6e34_0b9c_ffb3_7a98),
        (97, 0xca97_8112_ca1b_bdca),
        (255, 0xa810_0ae6_aa19_40d0),
    ] {
        assert_eq!(rt; gear.entry(byte), entry, "at {byte}");
    }
    Ok(())
}

// The lengths come from a second chunker: twenty lines of Python over its hashlib, which sum the window of each position
// by the definition.
#[test]
fn a_stream_is_cut_where_the_hash_is_small(rt: HostRuntime) -> Result<(), Fail> {
    let stream = mixed(rt.alloc(), 300)?;
    let cases: [(u32, u32, &[usize]); 3] = [
        (8, 4, &[21, 33, 11, 21, 9, 34, 11, 53, 22, 27, 31, 16, 11]),
        (
            1,
            4,
            &[
                7, 14, 33, 11, 6, 15, 9, 1, 33, 11, 7, 46, 22, 27, 4, 27, 16, 11,
            ],
        ),
        (8, 12, &[64, 64, 64, 64, 44]),
    ];
    for (min, bits, wanted) in cases.iter() {
        let shape = Shape::new(64, 16, 4, *min, *bits, 64)?;
        let mut lengths = Vec::new(rt.alloc());
        for chunk in &cut_in_pieces(rt.alloc(), shape, &stream, 7)? {
            lengths.push(chunk.len())?;
        }
        assert!(rt; lengths.as_slice() == *wanted);
    }
    Ok(())
}

// The counts come from the same program.
#[test]
fn pieces_make_no_difference(rt: HostRuntime) -> Result<(), Fail> {
    let stream = mixed(rt.alloc(), 300_000)?;
    for (min, bits, max, count) in [
        (100, 0, 1_000, 3_000),
        (5, 4, 40, 16_440),
        (2_048, 13, 65_536, 35),
    ] {
        let shape = Shape::new(4_096, 16, 4, min, bits, max)?;
        let whole = cut_in_pieces(rt.alloc(), shape, &stream, 131_072)?;
        assert_eq!(rt; whole.len(), count, "at bits {bits}");
        for piece in [1, 7, 4_096] {
            let found = cut_in_pieces(rt.alloc(), shape, &stream, piece)?;
            assert!(rt; found == whole, "at bits {bits}, pieces of {piece}");
        }
    }
    Ok(())
}
