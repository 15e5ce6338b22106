//! What the entries of a version may say.
ghost use Rattle.std.specs.Prelude.{◌≡◌};
ghost use Rattle.bd_recipe.specs.Entries.{is_within, limits_for};

use bd_catalog::Catalog;
use bd_model::{Damage, RecipeEntry};

/// What the entries of a version may say: a length of 1 to `max`, and a start past `base` and up to `version`.
#[derive(Clone, Copy)]
pub(crate) struct Limits {
    pub(crate) max: u32,
    pub(crate) base: u32,
    pub(crate) version: u32,
}

impl Limits {
    /// The limits of this version's entries.
    pub(crate) fn of(catalog: &Catalog, version: u32) -> Limits
        ensures { result ≡ limits_for catalog.now.found.sizes catalog.now.found.catalogue version }
    {
        Limits {
            max: catalog.shape().max(),
            base: catalog.base(),
            version,
        }
    }

    /// Whether the entry is within them.
    pub(crate) fn hold(&self, entry: &RecipeEntry) -> bool
        ensures { result ≡ is_within self.now entry.now }
    {
        entry.length >= 1
            && entry.length <= self.max
            && self.base < entry.start
            && entry.start <= self.version
    }

    /// The damage that the entry of this index is.
    pub(crate) fn damage(&self, index: u64, entry: &RecipeEntry) -> Damage
        ensures { result ≡ Damage.Entry self.now.version index entry.now.length entry.now.start }
    {
        Damage::Entry {
            version: self.version,
            index,
            length: entry.length,
            start: entry.start,
        }
    }
}
