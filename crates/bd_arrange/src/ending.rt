//! How the work at a desk ends.
ghost use Rattle.std.specs.Prelude.{◌≡◌, map};
ghost use Rattle.std.specs.List.{flat_map};
ghost use Rattle.bd_roll.specs.Giving.{AreOwned, GivesUp};
ghost use Rattle.bd_roll.specs.Splitting.{kept_extents};
ghost use Rattle.bd_roll.specs.Steps.{fresh_actives, kept_entry};
ghost use Rattle.bd_arrange.specs.Desks.{new_extents};

use crate::desk::Desk;
use bd_catalog::{ActiveCategory, ClosedVolume, Splits};
use bd_roll::release;
use bd_space::Space;

// The extents of what is kept of a category are free.
fn free_kept(space: &mut Space, kept: Option<ActiveCategory>)
    requires { AreOwned space.old (flat_map (λ a. a.extents) (fresh_actives kept)) }
    ensures { GivesUp (flat_map (λ a. a.extents) (fresh_actives kept)) space.old space.new }
{
    if let Some(category) = kept {
        release(space, category.extents);
    }
}

// The extents of all that is kept are free.
fn free_splits(space: &mut Space, splits: &mut Splits)
    requires { AreOwned space.old (kept_extents (map kept_entry splits.old.items)) }
    ensures { GivesUp (kept_extents (map kept_entry splits.old.items)) space.old space.new }
{
    while let Some(split) = splits.pop() {
        free_kept(space, split.kept);
    }
}

impl Desk {
    /// The rows of the volume with the extents that were added, and what is kept of each category. It takes no memory.
    pub(crate) fn finish(self) -> (ClosedVolume, Splits)
        ensures rows { result.0.rows.items ≡ self.filling.rows }
        ensures added { result.0.extents.numbers ≡ self.filling.added }
        ensures splits { map kept_entry result.1.items ≡ self.splits }
    {
        let (rows, extents) = self.filling.finish();
        (ClosedVolume { rows, extents }, self.splits)
    }

    /// Gives the extents that were taken back to the space. It takes no memory.
    pub(crate) fn give_back(self, space: &mut Space)
        requires { AreOwned space.old (new_extents self) }
        ensures { GivesUp (new_extents self) space.old space.new }
    {
        let (volume, mut splits) = self.finish();
        free_splits(space, &mut splits);
        release(space, volume.extents);
    }
}
