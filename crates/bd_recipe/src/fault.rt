//! Why a recipe isn't read.
use bd_disk::Failed;
use bd_model::Damage;
use std::alloc::AllocError as OutOfMemory;

/// Why a recipe wasn't read.
#[derive(Clone, Copy, PartialEq, Eq, Debug)]
pub enum ReadFault {
    /// The disk answered `Failed`.
    DiskFault,
    /// What was read breaks a rule.
    Damaged { damage: Damage },
    OutOfMemory,
}

impl From<Failed> for ReadFault {
    ghost use Rattle.std.specs.Prelude.{◌≡◌};
    ghost use Rattle.bd_recipe.specs.declared.fault.ReadFault.TheVariants.{DiskFault};

    ghost from_gives = { λ _ e. e ≡ DiskFault };

    fn from(_failed: Failed) -> ReadFault {
        ReadFault::DiskFault
    }
}

impl From<Damage> for ReadFault {
    ghost use Rattle.std.specs.Prelude.{◌≡◌};
    ghost use Rattle.bd_recipe.specs.declared.fault.ReadFault.TheVariants.{Damaged};

    ghost from_gives = { λ damage e. e ≡ Damaged damage };

    fn from(damage: Damage) -> ReadFault {
        ReadFault::Damaged { damage }
    }
}

impl From<OutOfMemory> for ReadFault {
    ghost use Rattle.std.specs.Prelude.{◌≡◌};
    ghost use Rattle.bd_recipe.specs.declared.fault.ReadFault.TheVariants.{OutOfMemory as NoMemory};

    ghost from_gives = { λ _ e. e ≡ NoMemory };

    fn from(_refused: OutOfMemory) -> ReadFault {
        ReadFault::OutOfMemory
    }
}
