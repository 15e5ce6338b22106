//! The extents of an owner.
ghost use Rattle.std.specs.Prelude.{◌≡◌, ℕ, ◌<◌, ◌≤◌, length, map, nat_lt, IsTrue, slice_index};
ghost use Rattle.bd_roll.specs.Rules.{obeys};
ghost use Rattle.bd_roll.specs.Shown.{open_entry};
ghost use Rattle.bd_restore.specs.Owners.{starts_in, AreRising, IsOwner};
ghost use Rattle.bd_volume.specs.Pieces.{extents_of};

use bd_catalog::{ActiveCategory, Catalog};
use bd_model::Owner;

// How many of these open categories, which begin later and later, begin before the version.
fn begun_before(actives: &[ActiveCategory], start: u32) -> usize
    requires { AreRising (starts_in (map open_entry actives.now)) }
    ensures within { result ≤ length actives.now }
    ensures before { (k : ℕ) → k < result → slice_index (starts_in (map open_entry actives.now)) k < start }
    ensures behind { (k : ℕ) → result ≤ k → k < length actives.now → start ≤ slice_index (starts_in (map open_entry actives.now)) k }
{
    actives.partition_point(
        |active: &ActiveCategory| -> bool
            ensures { result ≡ nat_lt active.now.row.start start }
        { active.row.start < start },
    )
}

/// The extents of an owner, whose records lie in them in this order. Among open categories it is searched for by its start.
pub(crate) fn extents_of(catalog: &Catalog, who: Owner) -> &[u32]
    requires rules { IsTrue (obeys catalog.now.found.sizes catalog.now.found.catalogue) }
    requires owner { IsOwner catalog.now.found.catalogue who }
    ensures { result.now ≡ extents_of catalog.now.found.catalogue who }
{
    match who {
        Owner::Volume(number) => catalog.volume(number).unwrap().extents.numbers(),
        Owner::Active(start) => {
            let actives = catalog.actives().as_slice();
            actives[begun_before(actives, start)].extents.numbers()
        }
    }
}
