//! The extents that a catalogue's owners have.
ghost use Rattle.std.specs.Prelude.{◌≡◌, All, IfOk, nat_eq};
ghost use Rattle.std.specs.List.{flat_map, IsDistinct};
ghost use Rattle.bd_space.specs.Allotment.{IsFree, Marks, TakenExactly, extent_count, held_count, KeepsHeld};
ghost use Rattle.bd_roll.specs.Catalogue.{all_extents};

use bd_catalog::{Catalog, OwnsExtents};
use bd_space::{Space, Use};
use std::alloc::{AllocError as OutOfMemory, Global};

/// The space of a store: the extents of its catalogue are taken, and all others free.
pub(crate) fn space_of(alloc: Global, catalog: &Catalog) -> Result<Space, OutOfMemory>
    ensures owners { IfOk result (λ space. TakenExactly space (all_extents catalog.now.found.catalogue)) }
    ensures extents { IfOk result (λ space. extent_count space ≡ catalog.now.found.sizes.extents) }
    ensures held { IfOk result (λ space. held_count space ≡ 0) }
{
    let shape = catalog.shape();
    let mut space = Space::new(alloc, shape.extents())?;
    claim_owners(&mut space, catalog.versions());
    claim_owners(&mut space, catalog.volumes());
    claim_owners(&mut space, catalog.actives().as_slice());
    Ok(space)
}

// The extents of these owners, which are all free, are taken.
fn claim_owners<T: OwnsExtents>(space: &mut Space, owners: &[T])
    requires free { All (IsFree space.old) (flat_map T.numbers owners.now) }
    requires distinct { IsDistinct nat_eq (flat_map T.numbers owners.now) }
    ensures taken { Marks (flat_map T.numbers owners.now) Use.Taken space.old space.new }
    ensures held { KeepsHeld space.old space.new }
{
    for owner in owners {
        space.claim(owner.extents());
    }
}
