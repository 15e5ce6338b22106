//! A version that is written and not yet named.
use bd_catalog::{ActiveCategory, VersionRow};

/// A version that is written and not yet named by the catalogue.
#[derive(Drop)]
pub struct Staged {
    /// The version, with the extents of its recipe.
    pub version: VersionRow,
    /// The open category of its fresh chunks, where there are some.
    pub fresh: Option<ActiveCategory>,
    /// How many extents it needs.
    pub need: u64,
}
