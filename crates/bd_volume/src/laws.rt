//! What holds of every image that stands for a state.
ghost use Rattle.bd_volume.specs.Holding.{LayoutsAreHeld};
ghost use Rattle.bd_volume.specs.Named.{NamedBytesDecide};

/// An image that stands for a state holds its layout, at whatever phase of arranging: each row of a closed volume counts
/// the chunks of its recorded start, each open category its own, and their records are its bytes.
pub fn layouts_are_held()
    ensures { LayoutsAreHeld }
{}

/// What an image stands for is decided by its catalogue and the bytes that this names. So records may be appended behind
/// those of an owner, in its last extent and in further ones, and whatever a stop leaves of them, the state is as it was.
pub fn named_bytes_decide()
    ensures { NamedBytesDecide }
{}
