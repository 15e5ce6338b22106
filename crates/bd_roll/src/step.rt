//! The steps that a commit makes.
use crate::rows::{ActiveCategory, ClosedVolume, VersionRow};
use bd_model::Sequence;

/// What becomes of open categories, ascending by their starts.
pub type Splits = Sequence<SplitRow>;

/// What becomes of one open category.
#[derive(Drop)]
pub struct SplitRow {
    /// The start of the open category.
    pub start: u32,
    /// What stands in its place; nothing where all its chunks are archived.
    pub kept: Option<ActiveCategory>,
}

/// A change of a catalogue.
#[derive(Drop)]
pub enum Step {
    /// A new version, and the open category of its fresh chunks.
    Backup {
        version: VersionRow,
        fresh: Option<ActiveCategory>,
    },
    /// The oldest version goes, with its recipe and its closed volume; with the only version everything goes.
    Expire,
    /// The newest closed volume gets these rows, and these extents behind its own. What is kept of each category that was
    /// split stands in its place, every other open category stays, and the store is settled.
    Arrange {
        volume: ClosedVolume,
        splits: Splits,
    },
}
