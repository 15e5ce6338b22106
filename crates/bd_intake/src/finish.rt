//! The ends of what is staged: a version, or nothing.
ghost use Rattle.std.specs.Prelude.{◌≡◌, ℕ, ◌+◌, ◌<◌, ◌^◌, List, [], ◌∷◌, ◌++◌, length, nat_lt, IfOk, if◌then◌else◌};
ghost use Rattle.bd_roll.specs.Shown.{version_entry};
ghost use Rattle.bd_roll.specs.Steps.{fresh_actives};
ghost use Rattle.bd_space.specs.Allotment.{extent_count, TakenExactly, KeepsHeld};
ghost use Rattle.bd_intake.specs.Answers.{fresh_extents};
ghost use Rattle.bd_intake.specs.Given.{Given};
ghost use Rattle.bd_intake.specs.Spaces.{IsOwned};
ghost use Rattle.bd_intake.specs.Staging.{HasTaken};

use crate::pending::Pending;
use crate::seen::Seen;
use crate::staged::Staged;
use crate::staging::Staging;
use bd_catalog::{ActiveCategory, VersionRow};
use bd_model::CategoryRow;
use bd_space::{Owned, Space};
use std::alloc::{AllocError as OutOfMemory, Global};

/// Nothing is staged, beside so many entries of the version before.
pub(crate) fn nothing_staged(alloc: Global, entries: usize) -> Result<Staging, OutOfMemory>
    ensures taken { IfOk result (λ staging. (t : Given) → length t.old ≡ entries → HasTaken t [] staging) }
    ensures recipe { IfOk result (λ staging. staging.recipe.numbers ≡ []) }
    ensures fresh { IfOk result (λ staging. staging.fresh.numbers ≡ []) }
    ensures entries { IfOk result (λ staging. staging.entries ≡ record { held = []; written = 0 }) }
    ensures records { IfOk result (λ staging. staging.records ≡ record { held = []; written = 0 }) }
{
    Ok(Staging {
        seen: Seen::none(alloc, entries)?,
        fresh: Owned::none(alloc),
        records: Pending::none(alloc)?,
        fresh_bytes: 0,
        fresh_chunks: 0,
        recipe: Owned::none(alloc),
        entries: Pending::none(alloc)?,
        chunks: 0,
        length: 0,
    })
}

// The open category that begins with this version, where it has chunks.
fn category_of(version: u32, chunks: u64, bytes: u64, extents: Owned) -> Option<ActiveCategory>
    requires { chunks ≡ 0 → extents.numbers ≡ [] }
    ensures entries { fresh_actives result ≡ (if nat_lt 0 chunks then record { row = record { start = version; chunks = chunks; bytes = bytes }; extents = extents.numbers } ∷ [] else []) }
    ensures extents { fresh_extents result ≡ extents.numbers }
{
    if chunks > 0 {
        return Some(ActiveCategory {
            row: CategoryRow {
                start: version,
                chunks,
                bytes,
            },
            extents,
        });
    }
    None
}

/// The version that is staged, which needs so many extents.
pub(crate) fn finished(staging: Staging, version: u32, need: u64) -> Staged
    requires none { staging.fresh_chunks ≡ 0 → staging.fresh.numbers ≡ [] }
    ensures version { version_entry result.version ≡ record { length = staging.length; chunks = staging.chunks; fresh = staging.fresh_chunks; extents = staging.recipe.numbers } }
    ensures entries { fresh_actives result.fresh ≡ (if nat_lt 0 staging.fresh_chunks
        then record { row = record { start = version; chunks = staging.fresh_chunks; bytes = staging.fresh_bytes }; extents = staging.fresh.numbers } ∷ [] else []) }
    ensures extents { fresh_extents result.fresh ≡ staging.fresh.numbers }
    ensures need { result.need ≡ need }
{
    let Staging {
        seen: _,
        fresh,
        records: _,
        fresh_bytes,
        fresh_chunks,
        recipe,
        entries: _,
        chunks,
        length,
    } = staging;
    Staged {
        version: VersionRow {
            length,
            chunks,
            fresh: fresh_chunks,
            recipe,
        },
        fresh: category_of(version, fresh_chunks, fresh_bytes, fresh),
        need,
    }
}

/// Gives back the extents of what is staged.
pub(crate) fn give_back(staging: Staging, space: &mut Space)
    requires { IsOwned space.old staging.recipe.numbers staging.fresh.numbers }
    ensures owners { (base : List ℕ) → TakenExactly space.old (base ++ staging.recipe.numbers ++ staging.fresh.numbers) → TakenExactly space.new base }
    ensures size { extent_count space.new ≡ extent_count space.old }
    ensures held { KeepsHeld space.old space.new }
{
    let Staging {
        seen: _,
        fresh,
        records: _,
        fresh_bytes: _,
        fresh_chunks: _,
        recipe,
        entries: _,
        chunks: _,
        length: _,
    } = staging;
    space.give_back(fresh);
    space.give_back(recipe);
}
