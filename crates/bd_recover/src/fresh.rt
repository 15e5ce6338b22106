//! The bytes of the empty store.
ghost use Rattle.std.specs.Prelude.{◌≡◌};
ghost use Rattle.bd_model.specs.Sizes.{sizes_of};
ghost use Rattle.bd_recover.specs.Fresh.{fresh_half, superblock_body};

use bd_gate::OPEN_GATE;
use bd_model::Shape;
use bd_wire::{put_u8, put_u32, put_u64};

/// The bytes of a superblock behind its gate.
pub(crate) fn superblock_body(shape: &Shape) -> [u8; 63]
    ensures { result ≡ superblock_body (sizes_of shape.now) }
{
    let mut bytes = [0u8; 63];
    bytes[..7].copy_from_slice(b"BDSTORE");
    put_u32(&mut bytes, 7, 1);
    put_u32(&mut bytes, 11, shape.extent());
    put_u32(&mut bytes, 15, shape.extents());
    put_u32(&mut bytes, 19, shape.retain());
    put_u32(&mut bytes, 23, shape.min());
    put_u32(&mut bytes, 27, shape.bits());
    put_u32(&mut bytes, 31, shape.max());
    bytes
}

/// An open half of turn 0 with the empty catalogue, and the closed first gate of its log.
pub(crate) fn fresh_half() -> [u8; 32]
    ensures { result ≡ fresh_half }
{
    let mut bytes = [0u8; 32];
    put_u8(&mut bytes, 0, OPEN_GATE);
    put_u64(&mut bytes, 2, 21);
    bytes
}
