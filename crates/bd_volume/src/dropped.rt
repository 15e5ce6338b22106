//! The extents that go with the oldest version.
ghost use Rattle.std.specs.Prelude.{◌≡◌, ◌≤◌, ◌<◌, ◌^◌, length};
ghost use Rattle.std.specs.List.{flat_map};
ghost use Rattle.bd_roll.specs.Catalogue.{retained_in};
ghost use Rattle.bd_roll.specs.Splitting.{expired};

use bd_catalog::{ActiveCategory, Catalog};

// How many extents these categories have.
fn category_extents(actives: &[ActiveCategory]) -> u64
    requires { length (flat_map (λ a. a.extents.numbers) actives.now) < 2 ^ 64 }
    ensures { result ≡ length (flat_map (λ a. a.extents.numbers) actives.now) }
{
    let mut count = 0;
    for active in actives {
        count += active.extents.len() as u64;
    }
    count
}

/// How many extents go with the oldest version: those of its recipe and of its closed volume; with the only version all. It
/// takes no memory, and goes over the open categories at most.
pub fn drop_volume(catalog: &Catalog) -> u64
    requires { 1 ≤ retained_in catalog.now.found.catalogue }
    ensures { result ≡ length (expired catalog.now.found.catalogue) }
{
    let recipe = catalog.versions()[0].recipe.len() as u64;
    if let Some(volume) = catalog.volumes().first() {
        return recipe + volume.extents.len() as u64;
    }
    recipe + category_extents(catalog.actives().as_slice())
}
