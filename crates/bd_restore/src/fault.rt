//! Why a version isn't given back.
use bd_category::CategoryFault;
use bd_model::Damage;

/// Why a version wasn't given back.
#[derive(Clone, Copy, PartialEq, Eq, Debug)]
pub enum RestoreFault {
    /// The target answered `Failed`.
    TargetFault,
    /// The disk answered `Failed`.
    DiskFault,
    /// What was read breaks a rule.
    Damaged { damage: Damage },
    OutOfMemory,
}

impl From<CategoryFault> for RestoreFault {
    ghost use Rattle.std.specs.Prelude.{◌≡◌};
    ghost use Rattle.bd_restore.specs.Faults.{restore_fault_of};

    ghost from_gives = { λ fault e. e ≡ restore_fault_of fault };

    fn from(fault: CategoryFault) -> RestoreFault {
        match fault {
            CategoryFault::DiskFault => RestoreFault::DiskFault,
            CategoryFault::Damaged { damage } => RestoreFault::Damaged { damage },
        }
    }
}
