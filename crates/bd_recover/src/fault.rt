//! Why a disk isn't formatted or opened.
use bd_catalog::LoadFault;
use bd_disk::Failed;
use bd_model::Place;
use std::alloc::AllocError;

/// Why a disk wasn't formatted.
#[derive(Clone, Copy, PartialEq, Eq, Debug)]
pub enum FormatFault {
    /// Its first byte is an open gate, and the mark of a store follows.
    AlreadyAStore,
    /// The store needs more bytes than the disk has.
    TooSmall { need: u64, have: u64 },
    /// The disk answered `Failed`.
    DiskFault,
    OutOfMemory,
}

impl From<Failed> for FormatFault {
    ghost use Rattle.std.specs.Prelude.{◌≡◌};
    ghost use Rattle.bd_recover.specs.declared.fault.FormatFault.TheVariants.{DiskFault};

    ghost from_gives = { λ _ e. e ≡ DiskFault };

    fn from(_failed: Failed) -> FormatFault {
        FormatFault::DiskFault
    }
}

impl From<AllocError> for FormatFault {
    ghost use Rattle.std.specs.Prelude.{◌≡◌};
    ghost use Rattle.bd_recover.specs.declared.fault.FormatFault.TheVariants.{OutOfMemory};

    ghost from_gives = { λ _ e. e ≡ OutOfMemory };

    fn from(_refused: AllocError) -> FormatFault {
        FormatFault::OutOfMemory
    }
}

/// Why a disk wasn't opened.
#[derive(Clone, Copy, PartialEq, Eq, Debug)]
pub enum OpenFault {
    /// It holds no store: the first check that fails.
    NotAStore { place: Place },
    /// The disk answered `Failed`.
    DiskFault,
    OutOfMemory,
}

impl From<Failed> for OpenFault {
    ghost use Rattle.std.specs.Prelude.{◌≡◌};
    ghost use Rattle.bd_recover.specs.declared.fault.OpenFault.TheVariants.{DiskFault};

    ghost from_gives = { λ _ e. e ≡ DiskFault };

    fn from(_failed: Failed) -> OpenFault {
        OpenFault::DiskFault
    }
}

impl From<AllocError> for OpenFault {
    ghost use Rattle.std.specs.Prelude.{◌≡◌};
    ghost use Rattle.bd_recover.specs.declared.fault.OpenFault.TheVariants.{OutOfMemory};

    ghost from_gives = { λ _ e. e ≡ OutOfMemory };

    fn from(_refused: AllocError) -> OpenFault {
        OpenFault::OutOfMemory
    }
}

impl From<Place> for OpenFault {
    ghost use Rattle.std.specs.Prelude.{◌≡◌};
    ghost use Rattle.bd_recover.specs.declared.fault.OpenFault.TheVariants.{NotAStore};

    ghost from_gives = { λ place e. e ≡ NotAStore place };

    fn from(place: Place) -> OpenFault {
        OpenFault::NotAStore { place }
    }
}

impl From<LoadFault> for OpenFault {
    ghost use Rattle.std.specs.Prelude.{◌≡◌};
    ghost use Rattle.bd_recover.specs.Faults.{as_opening};

    ghost from_gives = { λ fault e. e ≡ as_opening fault };

    fn from(fault: LoadFault) -> OpenFault {
        match fault {
            LoadFault::Halves => OpenFault::NotAStore {
                place: Place::Halves,
            },
            LoadFault::Payload => OpenFault::NotAStore {
                place: Place::Payload,
            },
            LoadFault::DiskFault => OpenFault::DiskFault,
            LoadFault::OutOfMemory => OpenFault::OutOfMemory,
        }
    }
}
