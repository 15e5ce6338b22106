//! How many extents bytes take.
ghost use Rattle.std.specs.Prelude.{◌≡◌, ◌^◌, ◌<◌};
ghost use Rattle.bd_model.specs.Room.{up};

use bd_model::Shape;

/// How many extents so many bytes take.
pub(crate) fn extents_for(shape: &Shape, bytes: u64) -> u64
    requires { bytes < 2 ^ 63 }
    ensures { result ≡ up shape.now.extent bytes }
{
    let extent = u64::from(shape.extent());
    (bytes + (extent - 1)) / extent
}
