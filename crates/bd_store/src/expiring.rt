//! The oldest version, given up.
ghost use Rattle.std.specs.Prelude.{◌≡◌, ◌≤◌, true, false};
ghost use Rattle.bd_model.specs.declared.command.Command.TheVariants.{Expire};
ghost use Rattle.bd_roll.specs.Splitting.{FitsExpire};
ghost use Rattle.bd_files.specs.World.{World, with_disk};
ghost use Rattle.bd_store.specs.Attempts.{Meets, attempt, scene};
ghost use Rattle.bd_store.specs.Shown.{IsOpenOn};
ghost use Rattle.bd_store.specs.Touches.{arranges_first};

use crate::fault::{StoreFault, fault_of_reading};
use crate::store::Store;
use bd_catalog::Step;
use bd_disk::{Disk, Failed};
use bd_model::{Answer, Phase};
use bd_volume::drop_volume;

impl Store {
    /// Gives up the oldest version. It reads nothing and takes no memory, but where the store waits with exactly two versions:
    /// it is arranged first then.
    pub fn expire<D: Disk>(&mut self, disk: &mut D) -> Result<Answer, StoreFault>
        requires opened { IsOpenOn D.Disk self.old disk.old }
        ensures meets { (w : World) → Meets D.tells (Unit {0}) (attempt Expire result (scene self.old (with_disk D.Disk w disk.old)) (scene self.new (with_disk D.Disk w disk.new))) }
    {
        let retained = self.catalog.retained();
        if retained == 0 {
            return Ok(Answer::NothingRetained { asked: None });
        }
        if retained == 2 && self.catalog.phase() != Phase::Settled {
            return self.arrange_and_give_up(disk);
        }
        self.give_up_oldest(disk)
    }

    // Arranges the store, and gives up the older of its two versions.
    fn arrange_and_give_up<D: Disk>(&mut self, disk: &mut D) -> Result<Answer, StoreFault>
        requires first { arranges_first self.old.found ≡ true }
        requires opened { IsOpenOn D.Disk self.old disk.old }
        ensures meets { (w : World) → Meets D.tells (Unit {0}) (attempt Expire result (scene self.old (with_disk D.Disk w disk.old)) (scene self.new (with_disk D.Disk w disk.new))) }
    {
        match self.ready(disk) {
            Ok(_) => self.give_up_oldest(disk),
            Err(fault) => Err(fault_of_reading(fault)),
        }
    }

    // Gives up the oldest version by one commit. It reads nothing, and takes no memory.
    fn give_up_oldest<D: Disk>(&mut self, disk: &mut D) -> Result<Answer, StoreFault>
        requires fits { FitsExpire self.old.found.catalogue }
        requires opened { IsOpenOn D.Disk self.old disk.old }
        ensures meets { (w : World) → Meets D.tells (Unit {0}) (attempt Expire result (scene self.old (with_disk D.Disk w disk.old)) (scene self.new (with_disk D.Disk w disk.new))) }
    {
        let version = self.catalog.newest() - (self.catalog.retained() - 1);
        let extents = drop_volume(&self.catalog);
        let named = self.catalog.commit(disk, &mut self.space, Step::Expire);
        self.worn = named.is_err();
        match named {
            Ok(()) => Ok(Answer::Expired { version, extents }),
            Err(Failed) => Err(StoreFault::DiskFault),
        }
    }
}
