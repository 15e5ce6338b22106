//! Why a version isn't taken in.
use bd_disk::Failed;
use std::alloc::AllocError as OutOfMemory;

/// Why a version wasn't taken in.
#[derive(Clone, Copy, PartialEq, Eq, Debug)]
pub enum IntakeFault {
    /// It needs more extents than are free: so many are counted, free, and held.
    Full { counted: u64, free: u64, held: u64 },
    /// The source failed, or isn't there.
    SourceFault,
    /// The disk answered `Failed`.
    DiskFault,
    OutOfMemory,
}

impl From<Failed> for IntakeFault {
    ghost use Rattle.std.specs.Prelude.{◌≡◌};
    ghost use Rattle.bd_intake.specs.declared.fault.IntakeFault.TheVariants.{DiskFault};

    ghost from_gives = { λ _ e. e ≡ DiskFault };

    fn from(_failed: Failed) -> IntakeFault {
        IntakeFault::DiskFault
    }
}

impl From<OutOfMemory> for IntakeFault {
    ghost use Rattle.std.specs.Prelude.{◌≡◌};
    ghost use Rattle.bd_intake.specs.declared.fault.IntakeFault.TheVariants.{OutOfMemory};

    ghost from_gives = { λ _ e. e ≡ OutOfMemory };

    fn from(_refused: OutOfMemory) -> IntakeFault {
        IntakeFault::OutOfMemory
    }
}
