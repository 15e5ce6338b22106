//! What a catalogue spells.
ghost use Rattle.std.specs.Prelude.{◌≡◌, ◌+◌, ◌^◌, ◌<◌, ◌≤◌, OnOk};
ghost use Rattle.bd_roll.specs.Catalogue.{retained_in, oldest_in};
ghost use Rattle.bd_roll.specs.Growing.{after_backup};
ghost use Rattle.bd_roll.specs.Capacity.{RoomIs, room_of};
ghost use Rattle.bd_roll.specs.Shown.{catalogue_of_contents, version_entry};
ghost use Rattle.bd_roll.specs.Steps.{fresh_actives};

use crate::rows::{ActiveCategory, Actives, ClosedVolume, Rows, VersionRow};
use bd_model::Phase;
use bd_space::Owned;
use std::alloc::{AllocError as OutOfMemory, Global};

/// What a catalogue spells.
#[derive(Drop)]
pub struct Contents {
    pub base: u32,
    pub newest: u32,
    pub phase: Phase,
    pub versions: Vec<VersionRow>,
    pub volumes: Vec<ClosedVolume>,
    pub actives: Actives,
}

impl Contents {
    /// The number of the oldest retained version; behind the newest where nothing is retained.
    pub fn oldest(&self) -> u64
        requires { retained_in (catalogue_of_contents self.now) ≤ self.now.newest + 1 }
        ensures { result ≡ oldest_in (catalogue_of_contents self.now) }
    {
        u64::from(self.newest) + 1 - self.versions.len() as u64
    }

    /// Makes room for one more version, volume, open category and row of the last volume, and for so many more extents
    /// of it.
    pub fn reserve(&mut self, extents: u32) -> Result<(), OutOfMemory>
        ensures same { catalogue_of_contents self.new ≡ catalogue_of_contents self.old }
        ensures room { OnOk result (RoomIs extents self.new) }
    {
        self.versions.reserve(1)?;
        self.volumes.reserve(1)?;
        self.actives.reserve(1)?;
        let count = self.volumes.len();
        if count > 0 {
            let last = &mut self.volumes[count - 1];
            last.rows.reserve(1)?;
            last.extents.reserve(extents)?;
        }
        Ok(())
    }

    /// Puts in one version more, with the open category of its fresh chunks where there are some, into room that was made.
    /// The version before it gets a volume of which nothing is archived yet. Takes no memory.
    pub fn back_up(&mut self, alloc: Global, version: VersionRow, fresh: Option<ActiveCategory>)
        requires versions { 1 ≤ (room_of self.old).versions }
        requires volumes { 1 ≤ (room_of self.old).volumes }
        requires actives { 1 ≤ (room_of self.old).actives }
        requires base { self.old.base ≤ self.old.newest }
        requires number { self.old.newest + 1 < 2 ^ 32 }
        ensures { catalogue_of_contents self.new ≡ after_backup (catalogue_of_contents self.old) (version_entry version) (fresh_actives fresh) }
    {
        self.phase = Phase::Settled;
        if self.versions.len() > 0 {
            self.phase = Phase::Waiting {
                cursor: self.base + 1,
            };
            let _ = self.volumes.push(ClosedVolume {
                rows: Rows::new(alloc),
                extents: Owned::none(alloc),
            });
        }
        let _ = self.versions.push(version);
        self.newest += 1;
        if let Some(category) = fresh {
            self.actives.push(category);
        }
    }
}
