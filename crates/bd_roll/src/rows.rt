//! What a catalogue says of versions, closed volumes and open categories.
ghost use Rattle.std.specs.Prelude.{◌≡◌, ℕ, List};

use bd_model::{CategoryRow, Sequence};
use bd_space::Owned;

/// The rows of a closed volume.
pub type Rows = Sequence<CategoryRow>;
/// Open categories.
pub type Actives = Sequence<ActiveCategory>;

/// A retained version.
#[derive(Drop)]
pub struct VersionRow {
    /// The bytes of the stream.
    pub length: u64,
    /// How many chunks the stream has.
    pub chunks: u64,
    /// How many different chunks the version before it lacked.
    pub fresh: u64,
    /// The extents of its recipe.
    pub recipe: Owned,
}

/// The volume of a version that is retained and isn't the newest.
#[derive(Drop)]
pub struct ClosedVolume {
    /// Ascending by their starts.
    pub rows: Rows,
    /// The extents of its records.
    pub extents: Owned,
}

/// An open category.
#[derive(Drop)]
pub struct ActiveCategory {
    pub row: CategoryRow,
    /// The extents of its records.
    pub extents: Owned,
}

/// What owns extents.
pub trait OwnsExtents {
    /// Their numbers.
    ghost numbers: { Self → List ℕ };

    fn extents(&self) -> &Owned
        ensures { result.now.numbers ≡ numbers self.now };
}

impl OwnsExtents for VersionRow {
    ghost numbers = { λ row. row.recipe.numbers };

    fn extents(&self) -> &Owned {
        &self.recipe
    }
}

impl OwnsExtents for ClosedVolume {
    ghost numbers = { λ volume. volume.extents.numbers };

    fn extents(&self) -> &Owned {
        &self.extents
    }
}

impl OwnsExtents for ActiveCategory {
    ghost numbers = { λ active. active.extents.numbers };

    fn extents(&self) -> &Owned {
        &self.extents
    }
}
