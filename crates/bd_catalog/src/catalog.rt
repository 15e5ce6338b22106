//! The catalogue of a store, with its place on the disk, and its commits.
ghost use Rattle.std.specs.Prelude.{◌≡◌, ℕ, ◌+◌, ◌-◌, ◌≤◌, ◌<◌, ◌↔◌, ◌++◌, drop, map, length, IsTrue, IfOk, OnOk, IfSome, IfNone, Some, None, IsSome, slice_get};
ghost use Rattle.bd_disk.specs.Calls.{HasCause};
ghost use Rattle.bd_disk.specs.Runs.{Writes};
ghost use Rattle.bd_model.specs.Sizes.{sizes_of, disk_bytes, payload_room};
ghost use Rattle.bd_gate.specs.Commits.{MakesOrFails};
ghost use Rattle.bd_gate.specs.Halves.{log_place};
ghost use Rattle.bd_space.specs.Allotment.{extent_count, TakenExactly, KeepsHeld};
ghost use Rattle.bd_catalog.specs.Agreement.{Agrees};
ghost use Rattle.bd_roll.specs.Catalogue.{all_extents, empty_catalogue, oldest_in, retained_in};
ghost use Rattle.bd_catalog.specs.Ledger.{found_alone, found_in, IsPlaced, HasRoom};
ghost use Rattle.bd_roll.specs.Rules.{obeys, catalogue_of};
ghost use Rattle.bd_roll.specs.Spelling.{spelled};
ghost use Rattle.bd_roll.specs.Shown.{catalogue_of_contents, version_entry, volume_entry, open_entry};
ghost use Rattle.bd_roll.specs.Steps.{brought, stepped, Fits, NeedsRoom};
ghost use Rattle.bd_catalog.specs.Steps.{after_step, catalogue_calls, with_catalogue, InOtherHalf, IsMade, LeavesEither};

use crate::frame::{log_place, write_beside};
use bd_disk::{Disk, Failed};
use bd_gate::Half;
use bd_model::{Phase, Shape};
use bd_roll::{
    Actives, ClosedVolume, Contents, Step, VersionRow, obeys, put_contents, take_contents,
};
use bd_space::Space;
use bd_wire::Cursor;
use std::alloc::{AllocError as OutOfMemory, Global};
use std::marker::Model;

/// The catalogue of a store: its versions, closed volumes and open categories with the extents of each, and where on the
/// disk it stands. It always obeys the rules of catalogues for its shape.
#[derive(Drop)]
pub struct Catalog {
    alloc: Global,
    shape: Shape,
    contents: Contents,
    half: Half,
    log_end: u64,
    // what a commit writes, from the turn to the first gate of the log
    frame: Vec<u8>,
    pub ghost rules: { IsTrue (obeys (sizes_of shape) (catalogue_of_contents contents)) },
}

impl Model for Catalog {
    ghost use Rattle.std.specs.Prelude.{length};
    ghost use Rattle.bd_model.specs.Sizes.{sizes_of};
    ghost use Rattle.bd_roll.specs.Shown.{catalogue_of_contents};
    ghost use Rattle.bd_roll.specs.Capacity.{room_of};
    ghost use Rattle.bd_catalog.specs.Ledger.{Ledger, HasItsPlace};

    ghost Value = { Ledger };

    ghost view = { λ c. record {
      found = record {
        sizes = sizes_of c.shape;
        half = c.half;
        catalogue = catalogue_of_contents c.contents;
        log_end = c.log_end;
      };
      room = room_of c.contents;
      rules = c.rules;
      shaped = c.shape.in_range;
    } };

    ghost invariant = { λ c. HasItsPlace (sizes_of c.shape) c.half c.log_end (length c.frame.items) };
}

impl Catalog {
    /// The empty catalogue of a fresh store.
    pub fn empty(alloc: Global, shape: Shape) -> Result<Catalog, OutOfMemory>
        ensures { IfOk result (λ c. c.found ≡ found_alone (sizes_of shape) empty_catalogue) }
    {
        let contents = Contents {
            base: 0,
            newest: 0,
            phase: Phase::Settled,
            versions: Vec::new(alloc),
            volumes: Vec::new(alloc),
            actives: Actives::new(alloc),
        };
        Catalog::alone(alloc, shape, contents, 21)
    }

    /// The catalogue that the bytes spell, in half 0 with an empty log; the other half is closed. None exactly where the
    /// bytes spell no catalogue that obeys the rules for the shape. It takes time linear in the bytes.
    pub fn decode(alloc: Global, shape: Shape, bytes: &[u8]) -> Result<Option<Catalog>, OutOfMemory>
        ensures none { IfOk result (λ found. IfNone found (catalogue_of (sizes_of shape) bytes.now ≡ None)) }
        ensures some { IfOk result (λ found. IfSome found (λ c. catalogue_of (sizes_of shape) bytes.now ≡ Some c.found.catalogue)) }
        ensures place { IfOk result (λ found. IfSome found (λ c. c.found ≡ found_alone (sizes_of shape) c.found.catalogue)) }
    {
        let mut cursor = Cursor::new(bytes);
        let taken = take_contents(alloc, &mut cursor)?;
        let Some(contents) = taken else {
            return Ok(None);
        };
        if cursor.left() > 0 {
            return Ok(None);
        }
        let obeyed = obeys(alloc, &shape, &contents)?;
        if !obeyed {
            return Ok(None);
        }
        let catalog = Catalog::alone(alloc, shape, contents, bytes.len() as u64)?;
        Ok(Some(catalog))
    }

    // The catalogue, which takes so many bytes, in half 0 with an empty log; the other half is closed.
    fn alone(
        alloc: Global,
        shape: Shape,
        contents: Contents,
        payload: u64,
    ) -> Result<Catalog, OutOfMemory>
        requires rules { IsTrue (obeys (sizes_of shape) (catalogue_of_contents contents)) }
        requires spelled { payload ≡ length (spelled (catalogue_of_contents contents)) }
        ensures { IfOk result (λ c. c.found ≡ found_alone (sizes_of shape) (catalogue_of_contents contents)) }
    {
        let half = Half {
            number: 0,
            turn: 0,
            length: payload,
            other_open: false,
        };
        Catalog::placed(alloc, shape, contents, half, 64 + 10 + payload)
    }

    // The catalogue in this half, with the end of its log.
    pub(crate) fn placed(
        alloc: Global,
        shape: Shape,
        contents: Contents,
        half: Half,
        log_end: u64,
    ) -> Result<Catalog, OutOfMemory>
        requires rules { IsTrue (obeys (sizes_of shape) (catalogue_of_contents contents)) }
        requires place { IsPlaced (sizes_of shape) half log_end }
        ensures { IfOk result (λ c. c.found ≡ found_in (sizes_of shape) half (catalogue_of_contents contents) log_end) }
    {
        let frame = vec![in alloc; 0u8; shape.payload_room() as usize + 10]?;
        Ok(Catalog {
            alloc,
            shape,
            contents,
            half,
            log_end,
            frame,
        })
    }

    // The same catalogue, in this half with an empty log.
    pub(crate) fn moved_to(self, half: Half) -> Catalog
        requires number { half.number < 2 }
        requires turn { half.turn ≤ 2 }
        requires fits { half.length ≤ payload_room self.found.sizes }
        ensures { result.found ≡ record self.found { half = half; log_end = log_place self.found.sizes half } }
    {
        let mut moved = self;
        moved.log_end = 64 + u64::from(half.number) * moved.shape.half_bytes() + 10 + half.length;
        moved.half = half;
        moved
    }

    /// Writes the spelling of the catalogue to the front of `into`, and answers how many bytes that is. What lies behind
    /// stays.
    pub fn encode(&self, into: &mut [u8]) -> usize
        requires { payload_room self.now.found.sizes ≤ length into.old }
        ensures written { into.new ≡ spelled self.now.found.catalogue ++ drop result into.old }
        ensures bytes { result ≡ length (spelled self.now.found.catalogue) }
        ensures room { result ≤ payload_room self.now.found.sizes }
    {
        put_contents(into, &self.contents)
    }

    /// Makes room for one step: for one more version, volume and open category, and in the last volume for one more row
    /// and as many more extents as there are. Nothing else changes.
    pub fn reserve(&mut self) -> Result<(), OutOfMemory>
        ensures found { self.new.found ≡ self.old.found }
        ensures room { OnOk result (HasRoom self.new) }
    {
        self.contents.reserve(self.shape.extents())
    }

    // Makes the step in memory alone, where what it gives up is free at once. The half stays.
    fn make(&mut self, space: &mut Space, step: Step)
        requires reserved { NeedsRoom step → HasRoom self.old }
        requires fits { Fits self.old.found.sizes self.old.found.catalogue step }
        requires owners { TakenExactly space.old (all_extents self.old.found.catalogue ++ brought step) }
        ensures found { self.new.found ≡ with_catalogue self.old.found (stepped self.old.found.catalogue step) }
        ensures owners { TakenExactly space.new (all_extents (stepped self.old.found.catalogue step)) }
        ensures extents { extent_count space.new ≡ extent_count space.old }
        ensures held { KeepsHeld space.old space.new }
    {
        match step {
            Step::Backup { version, fresh } => self.contents.back_up(self.alloc, version, fresh),
            Step::Expire => self.contents.expire(space),
            Step::Arrange { volume, splits } => self.contents.arrange(space, volume, splits),
        }
    }

    /// Makes the step, in memory and on the disk: writes the catalogue after it into the half that isn't the newest, with
    /// four or six calls of the disk. Takes no memory. Once it answered Ok, what the step gave up is free in the space.
    ///
    /// A stop at any moment leaves the old catalogue or the new one. Behind a call that failed it makes no other, and the
    /// catalogue isn't used again.
    pub fn commit<D: Disk>(
        &mut self,
        disk: &mut D,
        space: &mut Space,
        step: Step,
    ) -> Result<(), Failed>
        requires room { disk_bytes self.old.found.sizes ≤ D.bytes disk.old }
        requires reserved { NeedsRoom step → HasRoom self.old }
        requires fits { Fits self.old.found.sizes self.old.found.catalogue step }
        requires agrees { D.tells → Agrees self.old.found (D.history disk.old) }
        // The space counts as taken what the catalogue and the step own, each number once.
        requires owners { TakenExactly space.old (all_extents self.old.found.catalogue ++ brought step) }
        ensures disk { Writes D.Disk (InOtherHalf self.old.found) disk.old disk.new }
        ensures cause { HasCause (D.faults disk.old) (D.faults disk.new) result }
        ensures either { D.tells → LeavesEither self.old.found (after_step self.old.found step) (D.history disk.old) (D.history disk.new) }
        ensures calls { D.tells → MakesOrFails (catalogue_calls self.old.found (stepped self.old.found.catalogue step)) (D.history disk.old) (D.history disk.new) result }
        ensures made { OnOk result (self.new.found ≡ after_step self.old.found step) }
        ensures done { OnOk result (D.tells → IsMade self.old.found (after_step self.old.found step) (D.history disk.old) (D.history disk.new)) }
        ensures owners { OnOk result (TakenExactly space.new (all_extents self.new.found.catalogue)) }
        ensures extents { extent_count space.new ≡ extent_count space.old }
        ensures held { KeepsHeld space.old space.new }
    {
        self.make(space, step);
        let half = write_beside(
            disk,
            &self.shape,
            &self.half,
            &self.contents,
            &mut self.frame,
        )?;
        self.log_end = log_place(&self.shape, &half);
        self.half = half;
        Ok(())
    }

    /// The shape of the store.
    pub fn shape(&self) -> Shape
        ensures { sizes_of result ≡ self.now.found.sizes }
    {
        self.shape
    }

    /// The number that the newest version had when the store was last empty.
    pub fn base(&self) -> u32
        ensures { result ≡ self.now.found.catalogue.base }
    {
        self.contents.base
    }

    /// The number of the newest version; where nothing is retained, of the last one that there was.
    pub fn newest(&self) -> u32
        ensures { result ≡ self.now.found.catalogue.newest }
    {
        self.contents.newest
    }

    /// How many versions are retained.
    pub fn retained(&self) -> u32
        ensures { result ≡ retained_in self.now.found.catalogue }
    {
        self.contents.versions.len() as u32
    }

    /// How far the newest version is arranged.
    pub fn phase(&self) -> Phase
        ensures { result ≡ self.now.found.catalogue.phase }
    {
        self.contents.phase
    }

    /// The retained versions, from the oldest on.
    pub fn versions(&self) -> &[VersionRow]
        ensures { map version_entry result.now ≡ self.now.found.catalogue.versions }
    {
        &self.contents.versions
    }

    /// The closed volumes, from that of the oldest retained version on.
    pub fn volumes(&self) -> &[ClosedVolume]
        ensures { map volume_entry result.now ≡ self.now.found.catalogue.volumes }
    {
        &self.contents.volumes
    }

    /// The retained version of this number.
    pub fn version(&self, number: u32) -> Option<&VersionRow>
        ensures retained { IsSome result ↔ ((oldest_in self.now.found.catalogue ≤ number) × (number ≤ self.now.found.catalogue.newest)) }
        ensures row { IfSome result (λ row. slice_get self.now.found.catalogue.versions (number - oldest_in self.now.found.catalogue) ≡ Some (version_entry row.now)) }
    {
        let index = u64::from(number).checked_sub(self.contents.oldest())?;
        self.contents.versions.get(index as usize)
    }

    /// The closed volume of this number.
    pub fn volume(&self, number: u32) -> Option<&ClosedVolume>
        ensures closed { IsSome result ↔ ((oldest_in self.now.found.catalogue ≤ number) × (number < self.now.found.catalogue.newest)) }
        ensures row { IfSome result (λ row. slice_get self.now.found.catalogue.volumes (number - oldest_in self.now.found.catalogue) ≡ Some (volume_entry row.now)) }
    {
        let index = u64::from(number).checked_sub(self.contents.oldest())?;
        self.contents.volumes.get(index as usize)
    }

    /// The open categories, ascending by their starts.
    pub fn actives(&self) -> &Actives
        ensures { map open_entry result.now.items ≡ self.now.found.catalogue.actives }
    {
        &self.contents.actives
    }
}
