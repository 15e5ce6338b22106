//! What is kept of open categories that are split, in their place.
ghost use Rattle.std.specs.Prelude.{◌≡◌, ℕ, ◌≤◌, [], map, length, All, nat_eq, ◌<◌, ◌≢◌, IfSome, None, slice_index_or};
ghost use Rattle.std.specs.List.{IsDistinct};
ghost use Rattle.bd_roll.specs.Giving.{AreOwned, GivesUp};
ghost use Rattle.bd_roll.specs.Capacity.{room_of};
ghost use Rattle.bd_roll.specs.Shown.{catalogue_of_contents, open_entry};
ghost use Rattle.bd_roll.specs.Splitting.{after_arrange, extents_at, in_place, put_in_place, replaced, AreSplits};
ghost use Rattle.bd_roll.specs.Steps.{fresh_actives, kept_entry};

use crate::contents::Contents;
use crate::giving::release;
use crate::rows::{ActiveCategory, Actives, ClosedVolume};
use crate::step::{SplitRow, Splits};
use bd_model::Phase;
use bd_space::Space;

// Where the category that begins at this start stands.
fn index_of(actives: &Actives, start: u32) -> Option<usize>
    ensures none { result ≡ None → All (λ a. a.row.start ≢ start) actives.now.items }
    ensures some { IfSome result (λ i. (i < length actives.now.items) × ((d : ActiveCategory) → (slice_index_or actives.now.items i d).row.start ≡ start)) }
{
    actives
        .as_slice()
        .iter()
        .position(|active| active.row.start == start)
}

// Puts what is kept in the place of the open category of its start, whose extents are free then.
fn place(actives: &mut Actives, space: &mut Space, split: SplitRow)
    requires differ { IsDistinct nat_eq (map (λ a. a.row.start) (map open_entry actives.old.items)) }
    requires owned { AreOwned space.old (extents_at split.start (map open_entry actives.old.items)) }
    ensures actives { map open_entry actives.new.items ≡ put_in_place split.start (fresh_actives split.kept) (map open_entry actives.old.items) }
    ensures gives { GivesUp (extents_at split.start (map open_entry actives.old.items)) space.old space.new }
{
    let SplitRow { start, kept } = split;
    let Some(index) = index_of(actives, start) else {
        return;
    };
    let before = match kept {
        Some(kept) => actives.set(index, kept),
        None => actives.remove(index),
    };
    release(space, before.extents);
}

// The same for each split.
fn place_all(actives: &mut Actives, space: &mut Space, splits: Splits)
    requires splits { AreSplits (map kept_entry splits.items) (map open_entry actives.old.items) }
    requires owned { AreOwned space.old (replaced (map kept_entry splits.items) (map open_entry actives.old.items)) }
    ensures actives { map open_entry actives.new.items ≡ in_place (map kept_entry splits.items) (map open_entry actives.old.items) }
    ensures gives { GivesUp (replaced (map kept_entry splits.items) (map open_entry actives.old.items)) space.old space.new }
{
    let mut splits = splits;
    while let Some(split) = splits.pop() {
        place(actives, space, split);
    }
}

impl Contents {
    /// Puts these rows into the newest closed volume, with further extents that it has room for, and what is kept of each
    /// category that was split into its place. Takes no memory.
    pub fn arrange(&mut self, space: &mut Space, volume: ClosedVolume, splits: Splits)
        requires some { 1 ≤ length self.old.volumes.items }
        requires room { length volume.extents.numbers ≤ (room_of self.old).extents }
        requires splits { AreSplits (map kept_entry splits.items) (map open_entry self.old.actives.items) }
        requires owned { AreOwned space.old (replaced (map kept_entry splits.items) (map open_entry self.old.actives.items)) }
        ensures catalogue { catalogue_of_contents self.new ≡ after_arrange (catalogue_of_contents self.old) volume.rows.items volume.extents.numbers (map kept_entry splits.items) }
        ensures gives { GivesUp (replaced (map kept_entry splits.items) (map open_entry self.old.actives.items)) space.old space.new }
    {
        let count = self.volumes.len();
        let last = &mut self.volumes[count - 1];
        last.rows = volume.rows;
        last.extents.append(volume.extents);
        self.phase = Phase::Settled;
        place_all(&mut self.actives, space, splits);
    }
}
