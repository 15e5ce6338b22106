//! Where a range goes from extent to extent.
ghost use Rattle.std.specs.Prelude.{◌≡◌, ◌+◌, ◌-◌, ◌%◌, ◌≤◌, min, length};
ghost use Rattle.bd_model.specs.Sizes.{sizes_of, disk_bytes};
ghost use Rattle.bd_extio.specs.Ranges.{AreExtents, place_of, IsWithin};

use bd_model::Shape;

/// Bytes of an owner that lie in one extent: their place on the disk, and how many.
#[derive(Clone, Copy)]
pub struct Piece {
    pub place: u64,
    pub length: usize,
}

/// The bytes from `at` on that lie in the same extent, at most `left` of them.
pub fn piece_at(shape: &Shape, extents: &[u32], at: u64, left: usize) -> Piece
    requires some { 1 ≤ left }
    requires numbers { AreExtents (sizes_of shape.now) extents.now }
    requires range { IsWithin (sizes_of shape.now) extents.now at left }
    ensures place { result.place ≡ place_of (sizes_of shape.now) extents.now at }
    ensures length { result.length ≡ min left (shape.now.extent - at % shape.now.extent) }
    ensures some { 1 ≤ result.length }
    ensures inside { result.place + result.length ≤ disk_bytes (sizes_of shape.now) }
{
    let extent = u64::from(shape.extent());
    let within = at % extent;
    let number = extents[(at / extent) as usize];
    Piece {
        place: shape.extent_place(number) + within,
        length: left.min((extent - within) as usize),
    }
}
