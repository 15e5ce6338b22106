//! All that a version needs.
ghost use Rattle.std.specs.Prelude.{◌≡◌, ℕ, ◌≤◌, List, IfOk, IfErr};
ghost use Rattle.bd_space.specs.Allotment.{held_count};
ghost use Rattle.bd_intake.specs.Answers.{RefusesRoom};
ghost use Rattle.bd_intake.specs.Causes.{NothingFailed};
ghost use Rattle.bd_intake.specs.Given.{FitsSums, given_of};
ghost use Rattle.bd_intake.specs.Needs.{Needs, need_in};
ghost use Rattle.bd_intake.specs.Staging.{HasTaken, IsStaging};

use crate::fault::IntakeFault;
use crate::room::full;
use crate::staging::Staging;
use crate::tally::moved_extents;
use crate::terms::Terms;
use bd_space::Space;
use std::alloc::Global;

/// How many extents the version needs whose chunks are staged: for its new records, for its recipe, and for what arranging
/// takes. It is refused where these are more than what was free.
pub(crate) fn whole_need(
    alloc: Global,
    staging: &Staging,
    space: &Space,
    terms: &Terms<'_>,
) -> Result<u64, IntakeFault>
    requires staging { IsStaging (given_of terms.now) space.now staging.now }
    requires sums { FitsSums terms.now.neighbour.now.entries }
    ensures quiet { NothingFailed result }
    ensures need { IfOk result (λ need. (taken : List (List ℕ)) → HasTaken (given_of terms.now) taken staging.now → Needs (given_of terms.now) taken need) }
    ensures refused { (taken : List (List ℕ)) → HasTaken (given_of terms.now) taken staging.now → IfErr result (RefusesRoom (need_in (given_of terms.now) taken) terms.now.free (held_count space.now)) }
{
    let moved = moved_extents(alloc, &terms.shape, terms.neighbour, staging.seen.used())?;
    let staged = staging.fresh.len() as u64 + staging.recipe.len() as u64;
    let need = staged + moved;
    if need > u64::from(terms.free) {
        return Err(full(need, terms.free, space));
    }
    Ok(need)
}
