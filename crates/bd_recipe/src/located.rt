//! Where the recipe of a version lies.
ghost use Rattle.std.specs.Prelude.{◌≤◌};
ghost use Rattle.bd_model.specs.Sizes.{sizes_of};
ghost use Rattle.bd_roll.specs.Catalogue.{oldest_in};
ghost use Rattle.bd_recipe.specs.Located.{IsLocated};

use crate::limits::Limits;
use bd_catalog::Catalog;
use bd_model::Shape;

/// Where the recipe of a retained version lies, and what it may say.
#[derive(Clone, Copy)]
pub(crate) struct Located<'a> {
    pub(crate) shape: Shape,
    pub(crate) extents: &'a [u32],
    pub(crate) chunks: u64,
    pub(crate) length: u64,
    pub(crate) limits: Limits,
}

/// Finds the recipe of this version in the catalogue.
pub(crate) fn locate(catalog: &Catalog, version: u32) -> Located<'_>
    requires oldest { oldest_in catalog.now.found.catalogue ≤ version }
    requires newest { version ≤ catalog.now.found.catalogue.newest }
    ensures { IsLocated catalog.now.found.sizes catalog.now.found.catalogue version (sizes_of result.shape) result.extents.now result.chunks result.length result.limits }
{
    let row = catalog.version(version).unwrap();
    Located {
        shape: catalog.shape(),
        extents: row.recipe.numbers(),
        chunks: row.chunks,
        length: row.length,
        limits: Limits::of(catalog, version),
    }
}
