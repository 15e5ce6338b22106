//! Extents for what is staged.
ghost use Rattle.std.specs.Prelude.{◌≡◌, ◌+◌, ◌*◌, ◌^◌, ◌<◌, ◌≤◌, length, OnOk, IfErr};
ghost use Rattle.bd_model.specs.Room.{up};
ghost use Rattle.bd_model.specs.Sizes.{sizes_of};
ghost use Rattle.bd_space.specs.Allotment.{free_count, held_count};
ghost use Rattle.bd_intake.specs.Answers.{RefusesRoom};
ghost use Rattle.bd_intake.specs.declared.fault.IntakeFault.TheVariants.{Full};
ghost use Rattle.bd_intake.specs.Causes.{NothingFailed, OnlyMemory};
ghost use Rattle.bd_intake.specs.Spaces.{Adds};
ghost use Rattle.bd_intake.specs.Staging.{Grows, OwnersHaveExtents};

use crate::extents::extents_for;
use crate::fault::IntakeFault;
use crate::staging::Staging;
use crate::terms::Terms;
use bd_space::{Owned, Space};

/// The bytes of an entry of a recipe.
const ENTRY: u64 = 40;

/// The refusal of so many extents that are counted.
pub(crate) fn full(counted: u64, free: u32, space: &Space) -> IntakeFault
    ensures { result ≡ Full counted free (held_count space.now) }
{
    IntakeFault::Full {
        counted,
        free: u64::from(free),
        held: u64::from(space.held()),
    }
}

// Extends the owner to so many extents, where so many are free.
fn extend_to(space: &mut Space, owner: &mut Owned, count: u64) -> Result<(), IntakeFault>
    requires more { length owner.old.numbers ≤ count }
    requires enough { count ≤ length owner.old.numbers + free_count space.old }
    requires small { count < 2 ^ 32 }
    ensures added { Adds space.old space.new owner.old.numbers owner.new.numbers }
    ensures reached { OnOk result (length owner.new.numbers ≡ count) }
    ensures refused { IfErr result OnlyMemory }
    ensures counted { OnOk result (free_count space.new + count ≡ free_count space.old + length owner.old.numbers) }
{
    let more = (count - owner.len() as u64) as u32;
    match space.extend(owner, more) {
        Ok(()) => Ok(()),
        Err(_) => Err(IntakeFault::OutOfMemory),
    }
}

// Extends both owners to what they take with these bytes of records and with one entry more.
pub(crate) fn make_room(
    staging: &mut Staging,
    space: &mut Space,
    terms: &Terms<'_>,
    fresh_bytes: u64,
) -> Result<(), IntakeFault>
    requires extents { OwnersHaveExtents (sizes_of terms.now.shape) staging.old }
    requires counted { free_count space.old + (length staging.old.recipe.numbers + length staging.old.fresh.numbers) ≡ terms.now.free }
    requires more { staging.old.fresh_bytes ≤ fresh_bytes }
    requires small { fresh_bytes < 2 ^ 63 }
    requires few { 40 * (staging.old.chunks + 1) < 2 ^ 63 }
    ensures grows { Grows space.old space.new staging.old staging.new }
    ensures same { staging.new ≡ record staging.old { fresh = staging.new.fresh; recipe = staging.new.recipe } }
    ensures fresh { OnOk result (length staging.new.fresh.numbers ≡ up terms.now.shape.extent fresh_bytes) }
    ensures recipe { OnOk result (length staging.new.recipe.numbers ≡ up terms.now.shape.extent (40 * (staging.old.chunks + 1))) }
    ensures quiet { NothingFailed result }
    ensures refused { IfErr result (RefusesRoom (up terms.now.shape.extent fresh_bytes + up terms.now.shape.extent (40 * (staging.old.chunks + 1))) terms.now.free (held_count space.old)) }
{
    let fresh = extents_for(&terms.shape, fresh_bytes);
    let recipe = extents_for(&terms.shape, ENTRY * (staging.chunks + 1));
    let free = terms.free;
    if fresh + recipe > u64::from(free) {
        return Err(full(fresh + recipe, free, space));
    }
    extend_to(space, &mut staging.fresh, fresh)?;
    extend_to(space, &mut staging.recipe, recipe)?;
    Ok(())
}
