//! Why records weren't appended.
use bd_disk::Failed;
use std::alloc::AllocError;

/// Why records weren't appended to a closed volume.
#[derive(Clone, Copy, PartialEq, Eq, Debug)]
pub enum AppendFault {
    /// The disk answered `Failed`.
    DiskFault,
    OutOfMemory,
}

impl From<Failed> for AppendFault {
    ghost use Rattle.std.specs.Prelude.{◌≡◌};
    ghost use Rattle.bd_volume.specs.declared.fault.AppendFault.TheVariants.{DiskFault};

    ghost from_gives = { λ _ e. e ≡ DiskFault };

    fn from(_failed: Failed) -> AppendFault {
        AppendFault::DiskFault
    }
}

impl From<AllocError> for AppendFault {
    ghost use Rattle.std.specs.Prelude.{◌≡◌};
    ghost use Rattle.bd_volume.specs.declared.fault.AppendFault.TheVariants.{OutOfMemory};

    ghost from_gives = { λ _ e. e ≡ OutOfMemory };

    fn from(_refused: AllocError) -> AppendFault {
        AppendFault::OutOfMemory
    }
}
