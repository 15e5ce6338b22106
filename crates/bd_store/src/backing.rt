//! The backup of a version, and arranging.
ghost use Rattle.std.specs.Prelude.{◌≡◌, ◌↔◌, ◌≤◌, ◌<◌, true, false, Err};
ghost use Rattle.bd_disk.specs.Calls.{FailsByCount};
ghost use Rattle.bd_disk.specs.History.{contents};
ghost use Rattle.bd_disk.specs.Runs.{Works};
ghost use Rattle.bd_model.specs.State.{last_number};
ghost use Rattle.bd_model.specs.declared.command.Command.TheVariants.{Backup, Reorganise};
ghost use Rattle.bd_model.specs.declared.layout.Phase.TheVariants.{Settled};
ghost use Rattle.bd_roll.specs.Catalogue.{retained_in};
ghost use Rattle.bd_recipe.specs.Reading.{is_disk_fault_of_read as is_read_disk_fault};
ghost use Rattle.bd_arrange.specs.Arranged.{IsSpared};
ghost use Rattle.bd_intake.specs.Given.{IsRecipeOrNone};
ghost use Rattle.bd_files.specs.World.{World, with_disk, with_files};
ghost use Rattle.bd_store.specs.Attempts.{Meets, attempt, scene};
ghost use Rattle.bd_store.specs.Following.{Follows};
ghost use Rattle.bd_store.specs.Newest.{IsNewestRecipe};
ghost use Rattle.bd_store.specs.Readying.{Readies, ReadiesOn};
ghost use Rattle.bd_store.specs.Shown.{IsOpenOn};
ghost use Rattle.bd_store.specs.Touches.{InArranging};

use crate::fault::{
    StoreFault, fault_of_reading, is_disk_fault, is_read_fault, refusal_of, with_room,
};
use crate::figures::Figures;
use crate::naming::name_version;
use crate::newest::newest_recipe;
use crate::store::Store;
use bd_arrange::arrange;
use bd_disk::Disk;
use bd_files::Files;
use bd_gear::Gear;
use bd_intake::intake;
use bd_model::{Answer, Name, Phase};
use bd_recipe::{Neighbour, ReadFault};

impl Store {
    // Reads the newest recipe, and arranges the store where it waits.
    pub(crate) fn ready<D: Disk>(&mut self, disk: &mut D) -> Result<Neighbour, ReadFault>
        requires opened { IsOpenOn D.Disk self.old disk.old }
        ensures disk { Works D.Disk (InArranging self.old.found) (IsSpared self.old.found) disk.old disk.new }
        ensures cause { FailsByCount is_read_disk_fault (D.faults disk.old) (D.faults disk.new) result }
        ensures worn { (self.new.worn ≡ true) ↔ (result ≡ Err ReadFault.DiskFault) }
        ensures held { self.new.held ≡ self.old.held }
        ensures store { Readies self.old self.new result }
        ensures told { D.tells → ReadiesOn self.old.held self.old.found self.new.found (D.history disk.old) (D.history disk.new) result }
    {
        let neighbour = match newest_recipe(self.alloc, disk, &self.catalog) {
            Ok(neighbour) => neighbour,
            Err(fault) => {
                self.worn = is_read_fault(fault);
                return Err(fault);
            }
        };
        match arrange(
            self.alloc,
            disk,
            &mut self.catalog,
            &mut self.space,
            &neighbour,
        ) {
            Ok(()) => Ok(neighbour),
            Err(fault) => {
                self.worn = is_read_fault(fault);
                Err(fault)
            }
        }
    }

    /// Stores the named source as the next version. The newest recipe is read before it, and one that doesn't hold is
    /// answered as its damage; a store that waits is arranged then. Where a version can't be numbered or retained nothing is
    /// touched.
    pub fn backup<D: Disk, F: Files>(
        &mut self,
        disk: &mut D,
        files: &mut F,
        name: &Name,
    ) -> Result<Answer, StoreFault>
        requires opened { IsOpenOn D.Disk self.old disk.old }
        ensures meets { (w : World) → Meets D.tells F.tells (attempt (Backup name.now) result (scene self.old (with_files F.Files (with_disk D.Disk w disk.old) files.old)) (scene self.new (with_files F.Files (with_disk D.Disk w disk.new) files.new))) }
    {
        let shape = self.catalog.shape();
        let retained = self.catalog.retained();
        if self.catalog.newest() == u32::MAX {
            return Ok(Answer::FullNumbers);
        }
        if retained == shape.retain() {
            return Ok(Answer::FullVersions { retained });
        }
        self.back_up(disk, files, name)
    }

    // Stores the named source as the next version, where there may be one.
    fn back_up<D: Disk, F: Files>(
        &mut self,
        disk: &mut D,
        files: &mut F,
        name: &Name,
    ) -> Result<Answer, StoreFault>
        requires number { self.old.found.catalogue.newest < last_number }
        requires limit { retained_in self.old.found.catalogue < self.old.found.sizes.retain }
        requires opened { IsOpenOn D.Disk self.old disk.old }
        ensures meets { (w : World) → Meets D.tells F.tells (attempt (Backup name.now) result (scene self.old (with_files F.Files (with_disk D.Disk w disk.old) files.old)) (scene self.new (with_files F.Files (with_disk D.Disk w disk.new) files.new))) }
    {
        match self.ready(disk) {
            Ok(neighbour) => self.take_in(disk, files, name, &neighbour),
            Err(fault) => Err(fault_of_reading(fault)),
        }
    }

    // Stages the named source beside the newest recipe, and names it.
    fn take_in<D: Disk, F: Files>(
        &mut self,
        disk: &mut D,
        files: &mut F,
        name: &Name,
        neighbour: &Neighbour,
    ) -> Result<Answer, StoreFault>
        requires number { self.old.found.catalogue.newest < last_number }
        requires limit { retained_in self.old.found.catalogue < self.old.found.sizes.retain }
        requires settled { self.old.found.catalogue.phase ≡ Settled }
        requires opened { IsOpenOn D.Disk self.old disk.old }
        requires recipe { IsRecipeOrNone self.old.found.sizes self.old.found.catalogue neighbour.now.entries }
        requires newest { D.tells → IsNewestRecipe self.old.found (contents (D.history disk.old)) neighbour.now.entries }
        ensures follows { (w : World) → Follows D.tells F.tells (attempt (Backup name.now) result (scene self.old (with_files F.Files (with_disk D.Disk w disk.old) files.old)) (scene self.new (with_files F.Files (with_disk D.Disk w disk.new) files.new))) }
    {
        if self.catalog.reserve().is_err() {
            return Err(StoreFault::OutOfMemory);
        }
        let gear = Gear::new();
        match intake(
            self.alloc,
            disk,
            &self.catalog,
            &mut self.space,
            &gear,
            neighbour,
            files,
            name,
        ) {
            Ok(staged) => {
                let named = name_version(disk, &mut self.catalog, &mut self.space, staged);
                self.worn = is_disk_fault(&named);
                named
            }
            Err(fault) => {
                let Figures { free, held, .. } = self.figures();
                let refused = refusal_of(with_room(fault, free, held));
                self.worn = is_disk_fault(&refused);
                refused
            }
        }
    }

    /// Arranges the store, where it waits, and answers its figures. A settled store is left as it is.
    pub fn reorganise<D: Disk>(&mut self, disk: &mut D) -> Result<Answer, StoreFault>
        requires opened { IsOpenOn D.Disk self.old disk.old }
        ensures meets { (w : World) → Meets D.tells (Unit {0}) (attempt Reorganise result (scene self.old (with_disk D.Disk w disk.old)) (scene self.new (with_disk D.Disk w disk.new))) }
    {
        match self.catalog.phase() {
            Phase::Settled => {
                let Figures { owned, free, .. } = self.figures();
                Ok(Answer::Arranged { owned, free })
            }
            Phase::Waiting { .. } => match self.ready(disk) {
                Ok(_neighbour) => {
                    let Figures { owned, free, .. } = self.figures();
                    Ok(Answer::Arranged { owned, free })
                }
                Err(fault) => Err(fault_of_reading(fault)),
            },
        }
    }
}
