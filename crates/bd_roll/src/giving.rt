//! What is given up: extents, and the oldest version.
ghost use Rattle.std.specs.Prelude.{◌≡◌, ◌≢◌, ℕ, ◌+◌, ◌-◌, ◌^◌, ◌<◌, ◌≤◌, [], map, length, All, IsTrue};
ghost use Rattle.std.specs.List.{flat_map};
ghost use Rattle.bd_model.specs.Laws.{rows_to};
ghost use Rattle.bd_roll.specs.Catalogue.{all_extents, emptied_catalogue, retained_in};
ghost use Rattle.bd_roll.specs.Giving.{AreOwned, GivesUp, SumsFit};
ghost use Rattle.bd_roll.specs.Shown.{catalogue_of_contents, open_entry, volume_entry};
ghost use Rattle.bd_roll.specs.Splitting.{after_expire, begun_from, expired};

use crate::contents::Contents;
use crate::rows::{Actives, ClosedVolume, Rows, VersionRow};
use bd_model::{CategoryRow, Phase};
use bd_space::{Owned, Space};

/// The owner's extents are free.
pub fn release(space: &mut Space, owner: Owned)
    requires { AreOwned space.old owner.numbers }
    ensures { GivesUp owner.numbers space.old space.new }
{
    space.give_back(owner);
}

// The extents of the version's recipe are free.
fn release_recipe(space: &mut Space, version: VersionRow)
    requires { AreOwned space.old version.recipe.numbers }
    ensures { GivesUp version.recipe.numbers space.old space.new }
{
    release(space, version.recipe);
}

// The extents of all these categories are free, and none is left.
fn release_all(space: &mut Space, actives: &mut Actives)
    requires { AreOwned space.old (flat_map (λ a. a.extents.numbers) actives.old.items) }
    ensures none { actives.new.items ≡ [] }
    ensures gives { GivesUp (flat_map (λ a. a.extents.numbers) actives.old.items) space.old space.new }
{
    while let Some(category) = actives.pop() {
        release(space, category.extents);
    }
}

// The rows where this is the oldest version: those that begin there or before become one.
fn begin_rows(rows: &mut Rows, oldest: u32)
    requires { SumsFit rows.old.items }
    ensures { rows.new.items ≡ rows_to oldest rows.old.items }
{
    let Some(first) = rows.get(0).copied() else {
        return;
    };
    match rows.get(1).copied() {
        Some(second) if second.start <= oldest => {
            let _ = rows.remove(0);
            let both = CategoryRow {
                chunks: first.chunks + second.chunks,
                bytes: first.bytes + second.bytes,
                ..first
            };
            let _ = rows.set(0, both);
            begin_rows(rows, oldest);
        }
        _ => {
            let start = first.start.max(oldest);
            let _ = rows.set(0, CategoryRow { start, ..first });
        }
    }
}

// The same for each of these volumes.
fn begin_volumes(volumes: &mut [ClosedVolume], oldest: u32)
    requires { All (λ v. SumsFit v.rows.items) volumes.old }
    ensures { map volume_entry volumes.new ≡ map (begun_from oldest) (map volume_entry volumes.old) }
{
    for volume in volumes.iter_mut() {
        begin_rows(&mut volume.rows, oldest);
    }
}

impl Contents {
    // Gives up the only version, and with it everything.
    fn give_up_all(&mut self, space: &mut Space)
        requires one { length self.old.versions.items ≡ 1 }
        requires volumes { self.old.volumes.items ≡ [] }
        requires owned { AreOwned space.old (all_extents (catalogue_of_contents self.old)) }
        ensures catalogue { catalogue_of_contents self.new ≡ emptied_catalogue (catalogue_of_contents self.old) }
        ensures gives { GivesUp (all_extents (catalogue_of_contents self.old)) space.old space.new }
    {
        release_all(space, &mut self.actives);
        if let Some(version) = self.versions.pop() {
            release_recipe(space, version);
        }
        self.base = self.newest;
        self.phase = Phase::Settled;
    }

    // Gives up the oldest of several versions, with its closed volume.
    fn give_up_oldest(&mut self, space: &mut Space)
        requires two { 2 ≤ length self.old.versions.items }
        requires numbered { length self.old.versions.items ≤ self.old.newest }
        requires volumes { length self.old.volumes.items + 1 ≡ length self.old.versions.items }
        requires sums { All (λ v. SumsFit v.rows.items) self.old.volumes.items }
        requires owned { AreOwned space.old (expired (catalogue_of_contents self.old)) }
        ensures catalogue { catalogue_of_contents self.new ≡ after_expire (catalogue_of_contents self.old) }
        ensures gives { GivesUp (expired (catalogue_of_contents self.old)) space.old space.new }
    {
        let oldest = self.oldest() as u32 + 1;
        let version = self.versions.remove(0);
        let volume = self.volumes.remove(0);
        release(space, volume.extents);
        release_recipe(space, version);
        begin_volumes(&mut self.volumes, oldest);
    }

    /// Gives up the oldest version. Takes no memory.
    pub fn expire(&mut self, space: &mut Space)
        requires some { 1 ≤ length self.old.versions.items }
        requires numbered { length self.old.versions.items ≤ self.old.newest }
        requires volumes { length self.old.volumes.items + 1 ≡ length self.old.versions.items }
        requires sums { All (λ v. SumsFit v.rows.items) self.old.volumes.items }
        requires owned { AreOwned space.old (expired (catalogue_of_contents self.old)) }
        ensures catalogue { catalogue_of_contents self.new ≡ after_expire (catalogue_of_contents self.old) }
        ensures gives { GivesUp (expired (catalogue_of_contents self.old)) space.old space.new }
    {
        if self.versions.len() <= 1 {
            self.give_up_all(space);
        } else {
            self.give_up_oldest(space);
        }
    }
}
