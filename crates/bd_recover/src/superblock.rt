//! The first 64 bytes of a store, checked.
ghost use Rattle.std.specs.Prelude.{◌≡◌, ◌+◌, ◌≤◌, ◌==◌, true, false, replicate, bytes_eq, MatchOption};
ghost use Rattle.bd_disk.specs.Images.{bytes_at};
ghost use Rattle.bd_model.specs.Sizes.{sizes_of, is_shape};
ghost use Rattle.bd_gate.specs.Superblock.{byte_at, four_at, magic, open_gate, sizes_at};
ghost use Rattle.bd_recover.specs.Opens.{AnswersSuperblock};

use bd_gate::OPEN_GATE;
use bd_model::{Place, Shape};

/// The shape that a superblock names, or the first of its checks that fails.
pub(crate) fn checked_superblock(bytes: &[u8; 64]) -> Result<Shape, Place>
    ensures { AnswersSuperblock bytes.now result }
{
    if !has_open_gate(bytes) {
        return Err(Place::Gate);
    }
    if !has_magic(bytes) {
        return Err(Place::Magic);
    }
    if number_at(bytes, 8) != 1 {
        return Err(Place::Number);
    }
    let Some(shape) = shape_in(bytes) else {
        return Err(Place::Shape);
    };
    if !has_padding(bytes) {
        return Err(Place::Padding);
    }
    Ok(shape)
}

fn has_open_gate(bytes: &[u8; 64]) -> bool
    ensures { result ≡ (byte_at bytes.now 0 == open_gate) }
{
    bytes[0] == OPEN_GATE
}

fn has_magic(bytes: &[u8; 64]) -> bool
    ensures { result ≡ bytes_eq (bytes_at 1 7 bytes.now) magic }
{
    &bytes[1..8] == b"BDSTORE".as_slice()
}

fn has_padding(bytes: &[u8; 64]) -> bool
    ensures { result ≡ bytes_eq (bytes_at 36 28 bytes.now) (replicate 28 0) }
{
    &bytes[36..64] == [0u8; 28].as_slice()
}

// The number of four bytes at a place.
fn number_at(bytes: &[u8; 64], at: usize) -> u32
    requires { at + 4 ≤ 64 }
    ensures { result ≡ four_at bytes.now at }
{
    let mut field = [0u8; 4];
    field.copy_from_slice(&bytes[at..at + 4]);
    u32::from_be_bytes(field)
}

// The shape of the sizes that a superblock names.
fn shape_in(bytes: &[u8; 64]) -> Option<Shape>
    ensures { MatchOption result (is_shape (sizes_at bytes.now) ≡ false) (λ shape. (is_shape (sizes_at bytes.now) ≡ true) × (sizes_of shape ≡ sizes_at bytes.now)) }
{
    let extent = number_at(bytes, 12);
    let extents = number_at(bytes, 16);
    let retain = number_at(bytes, 20);
    let min = number_at(bytes, 24);
    let bits = number_at(bytes, 28);
    let max = number_at(bytes, 32);
    match Shape::new(extent, extents, retain, min, bits, max) {
        Ok(shape) => Some(shape),
        Err(_) => None,
    }
}
