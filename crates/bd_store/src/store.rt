//! A store, and the commands on it.
ghost use Rattle.std.specs.Prelude.{◌≡◌, ◌≢◌, ◌≤◌, false, IfOk, Err};
ghost use Rattle.bd_disk.specs.Calls.{FailsByCount};
ghost use Rattle.bd_disk.specs.History.{contents};
ghost use Rattle.bd_disk.specs.Images.{InRange};
ghost use Rattle.bd_disk.specs.Made.{TouchesNothing};
ghost use Rattle.bd_disk.specs.Runs.{Reads, Works};
ghost use Rattle.bd_model.specs.Sizes.{sizes_of, disk_bytes};
ghost use Rattle.bd_model.specs.Step.{without_room};
ghost use Rattle.bd_model.specs.declared.answer.Answer.TheVariants.{Listed};
ghost use Rattle.bd_model.specs.declared.command.Command.TheVariants.{Restore, Scrub};
ghost use Rattle.bd_gate.specs.Halves.{BeforeExtents};
ghost use Rattle.bd_gate.specs.Superblock.{sizes_at};
ghost use Rattle.bd_roll.specs.Catalogue.{oldest_in};
ghost use Rattle.bd_catalog.specs.Opening.{opened};
ghost use Rattle.bd_catalog.specs.Standing.{lines_from};
ghost use Rattle.bd_recover.specs.Answers.{is_disk_fault_of_format as is_format_disk_fault, IsFormatAnswer};
ghost use Rattle.bd_recover.specs.Opens.{is_disk_fault_of_opening as is_open_disk_fault, Rests, SyncsFirst};
ghost use Rattle.bd_files.specs.World.{World, with_disk, with_files};
ghost use Rattle.bd_store.specs.Attempts.{Meets, attempt, scene};
ghost use Rattle.bd_store.specs.Openings.{AnswersOpening, IsNewStore, MakingStops};
ghost use Rattle.bd_store.specs.Shown.{IsOpenOn};

use crate::fault::{StoreFault, fault_of_reading, fault_of_restore, is_disk_fault};
use crate::listing::lines_of;
use bd_catalog::Catalog;
use bd_disk::Disk;
use bd_files::Files;
use bd_model::{Answer, Command, Name, Shape};
use bd_recover::{FormatFault, OpenFault, Opened, format, open_image};
use bd_restore::{plan_for, run_plan};
use bd_space::Space;
use std::alloc::{AllocError as OutOfMemory, Global};
use std::marker::Model;

/// The catalogue and the free extents of a store, in memory. It holds no disk: each call is handed the disk that the store
/// agrees with, which is the one that it was made or opened from.
#[derive(Drop)]
pub struct Store {
    pub(crate) alloc: Global,
    pub(crate) catalog: Catalog,
    pub(crate) space: Space,
    pub(crate) worn: bool,
}

impl Model for Store {
    ghost use Rattle.bd_space.specs.Allotment.{held_count};
    ghost use Rattle.bd_store.specs.Kept.{IsKept};
    ghost use Rattle.bd_store.specs.Shown.{Shown};

    ghost Value = { Shown };

    ghost view = { λ s. record { found = s.catalog.found; held = held_count s.space; worn = s.worn } };

    ghost invariant = { λ s. IsKept s.catalog.found s.space s.worn };
}

impl Store {
    /// Makes the empty store of this shape, on a disk that isn't a store. Its memory is taken first.
    pub fn format<D: Disk>(alloc: Global, disk: &mut D, shape: Shape) -> Result<Store, FormatFault>
        ensures disk { Works D.Disk (InRange 0 64) (BeforeExtents (sizes_of shape)) disk.old disk.new }
        ensures cause { FailsByCount is_format_disk_fault (D.faults disk.old) (D.faults disk.new) result }
        ensures answer { IsFormatAnswer D.Disk (sizes_of shape) disk.old disk.new result }
        ensures memory { result ≡ Err FormatFault.OutOfMemory → D.tells → TouchesNothing (D.history disk.old) (D.history disk.new) }
        ensures made { IfOk result (λ store. IsNewStore D.Disk shape store disk.new) }
        ensures synced { result ≢ Err FormatFault.OutOfMemory → D.tells → SyncsFirst (D.history disk.old) (D.history disk.new) }
        // A stop at any moment leaves no store or the empty one.
        ensures stops { D.tells → MakingStops shape (D.history disk.old) (D.history disk.new) }
    {
        let Opened { catalog, space } = format(alloc, disk, shape)?;
        Ok(Store {
            alloc,
            catalog,
            space,
            worn: false,
        })
    }

    /// Opens the store that a disk holds. It begins with a sync and writes nothing.
    pub fn open_store<D: Disk>(alloc: Global, disk: &mut D) -> Result<Store, OpenFault>
        ensures disk { Reads D.Disk (BeforeExtents (sizes_at (contents (D.history disk.old)))) disk.old disk.new }
        ensures cause { FailsByCount is_open_disk_fault (D.faults disk.old) (D.faults disk.new) result }
        ensures room { IfOk result (λ store. disk_bytes store.found.sizes ≤ D.bytes disk.new) }
        ensures opened { D.tells → AnswersOpening (opened (contents (D.history disk.old))) result }
        ensures rests { IfOk result (λ store. D.tells → Rests store.found (D.history disk.new)) }
        ensures fresh { IfOk result (λ store. (store.worn ≡ false) × (store.held ≡ 0)) }
        ensures synced { D.tells → SyncsFirst (D.history disk.old) (D.history disk.new) }
    {
        let Opened { catalog, space } = open_image(alloc, disk)?;
        Ok(Store {
            alloc,
            catalog,
            space,
            worn: false,
        })
    }

    /// Gives a retained version back: the named target has its stream afterwards, and is finished. It changes nothing on the
    /// disk. A damage that it comes to is answered, and the target may be half written then.
    pub fn restore<D: Disk, F: Files>(
        &mut self,
        disk: &mut D,
        files: &mut F,
        version: u32,
        name: &Name,
    ) -> Result<Answer, StoreFault>
        requires opened { IsOpenOn D.Disk self.old disk.old }
        ensures meets { (w : World) → Meets D.tells F.tells (attempt (Restore version name.now) result (scene self.old (with_files F.Files (with_disk D.Disk w disk.old) files.old)) (scene self.new (with_files F.Files (with_disk D.Disk w disk.new) files.new))) }
    {
        let retained = self.catalog.retained();
        let newest = self.catalog.newest();
        if retained == 0 {
            return Ok(Answer::NothingRetained {
                asked: Some(version),
            });
        }
        let oldest = newest - (retained - 1);
        if version < oldest || newest < version {
            return Ok(Answer::NoVersion {
                asked: version,
                oldest,
                newest,
            });
        }
        self.give_back(disk, files, version, name)
    }

    // Gives this retained version back.
    fn give_back<D: Disk, F: Files>(
        &mut self,
        disk: &mut D,
        files: &mut F,
        version: u32,
        name: &Name,
    ) -> Result<Answer, StoreFault>
        requires oldest { oldest_in self.old.found.catalogue ≤ version }
        requires newest { version ≤ self.old.found.catalogue.newest }
        requires opened { IsOpenOn D.Disk self.old disk.old }
        ensures meets { (w : World) → Meets D.tells F.tells (attempt (Restore version name.now) result (scene self.old (with_files F.Files (with_disk D.Disk w disk.old) files.old)) (scene self.new (with_files F.Files (with_disk D.Disk w disk.new) files.new))) }
    {
        let plan = match plan_for(self.alloc, disk, &self.catalog, version) {
            Ok(plan) => plan,
            Err(fault) => {
                let unread = Err(fault_of_reading(fault));
                self.worn = is_disk_fault(&unread);
                return unread;
            }
        };
        match run_plan(plan, disk, &self.catalog, files, name) {
            Ok(bytes) => Ok(Answer::Restored { version, bytes }),
            Err(fault) => {
                let stopped = Err(fault_of_restore(fault));
                self.worn = is_disk_fault(&stopped);
                stopped
            }
        }
    }

    /// The retained versions, ascending.
    pub fn list(&self) -> Result<Answer, OutOfMemory>
        ensures lines { IfOk result (λ answer. without_room answer ≡ Listed (record { items = lines_from (oldest_in self.now.found.catalogue) self.now.found.catalogue.versions; spare = 0 })) }
    {
        let lines = lines_of(self.alloc, &self.catalog)?;
        Ok(Answer::Listed { lines })
    }

    /// Carries a command out. A scrub isn't one of them yet.
    pub fn carry_out<D: Disk, F: Files>(
        &mut self,
        disk: &mut D,
        files: &mut F,
        command: &Command,
    ) -> Result<Answer, StoreFault>
        requires opened { IsOpenOn D.Disk self.old disk.old }
        requires built { command.now ≢ Scrub }
        ensures meets { (w : World) → Meets D.tells F.tells (attempt command.now result (scene self.old (with_files F.Files (with_disk D.Disk w disk.old) files.old)) (scene self.new (with_files F.Files (with_disk D.Disk w disk.new) files.new))) }
    {
        match command {
            Command::Backup { name } => self.backup(disk, files, name),
            Command::Restore { version, name } => self.restore(disk, files, *version, name),
            Command::List => match self.list() {
                Ok(answer) => Ok(answer),
                Err(OutOfMemory) => Err(StoreFault::OutOfMemory),
            },
            Command::Expire => self.expire(disk),
            Command::Reorganise => self.reorganise(disk),
            Command::Scrub => unreachable!(),
        }
    }

    /// Whether a call met a fault of the disk. The disk is then opened anew.
    pub fn is_worn(&self) -> bool
        ensures { result ≡ self.now.worn }
    {
        self.worn
    }

    /// The shape that the store was formatted with.
    pub fn shape(&self) -> Shape
        ensures { sizes_of result ≡ self.now.found.sizes }
    {
        self.catalog.shape()
    }
}
