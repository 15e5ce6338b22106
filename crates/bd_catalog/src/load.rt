//! Loading the catalogue of the newest half.
ghost use Rattle.std.specs.Prelude.{◌≡◌, ◌≤◌, IfOk};
ghost use Rattle.bd_disk.specs.Calls.{FailsByCount};
ghost use Rattle.bd_disk.specs.History.{contents};
ghost use Rattle.bd_disk.specs.Runs.{Reads};
ghost use Rattle.bd_model.specs.Sizes.{sizes_of, disk_bytes};
ghost use Rattle.bd_catalog.specs.Loading.{is_disk_fault_of_load, AnswersLoad, InLoad};
ghost use Rattle.bd_catalog.specs.Opening.{opened_newest};

use crate::catalog::Catalog;
use bd_disk::{Disk, Failed};
use bd_gate::{GateFault, newest_half, read_payload};
use bd_model::Shape;
use std::alloc::{AllocError, Global};

/// Why the catalogue of a disk wasn't loaded.
#[derive(Clone, Copy, PartialEq, Eq, Debug)]
pub enum LoadFault {
    /// No half is the newest.
    Halves,
    /// The newest half holds no catalogue.
    Payload,
    /// The disk answered `Failed`.
    DiskFault,
    OutOfMemory,
}

impl From<GateFault> for LoadFault {
    ghost use Rattle.std.specs.Prelude.{◌≡◌};
    ghost use Rattle.bd_catalog.specs.Loading.{no_half};

    ghost from_gives = { λ fault e. e ≡ no_half fault };

    fn from(fault: GateFault) -> LoadFault {
        match fault {
            GateFault::NoHalf { .. } => LoadFault::Halves,
            GateFault::DiskFault => LoadFault::DiskFault,
        }
    }
}

impl From<Failed> for LoadFault {
    ghost use Rattle.std.specs.Prelude.{◌≡◌};
    ghost use Rattle.bd_catalog.specs.declared.load.LoadFault.TheVariants.{DiskFault};

    ghost from_gives = { λ _ e. e ≡ DiskFault };

    fn from(_failed: Failed) -> LoadFault {
        LoadFault::DiskFault
    }
}

impl From<AllocError> for LoadFault {
    ghost use Rattle.std.specs.Prelude.{◌≡◌};
    ghost use Rattle.bd_catalog.specs.declared.load.LoadFault.TheVariants.{OutOfMemory};

    ghost from_gives = { λ _ e. e ≡ OutOfMemory };

    fn from(_refused: AllocError) -> LoadFault {
        LoadFault::OutOfMemory
    }
}

impl Catalog {
    /// The catalogue of the newest half of a disk, or the first of the two checks that fails: that a half is the newest,
    /// and that it holds a catalogue for the shape. It reads the fronts of both halves and the catalogue.
    pub fn load<D: Disk>(alloc: Global, disk: &mut D, shape: Shape) -> Result<Catalog, LoadFault>
        requires room { disk_bytes (sizes_of shape) ≤ D.bytes disk.old }
        ensures disk { Reads D.Disk (InLoad (sizes_of shape) (contents (D.history disk.old))) disk.old disk.new }
        ensures cause { FailsByCount is_disk_fault_of_load (D.faults disk.old) (D.faults disk.new) result }
        ensures loaded { D.tells → AnswersLoad (opened_newest (sizes_of shape) (contents (D.history disk.old))) result }
        ensures sizes { IfOk result (λ catalog. catalog.found.sizes ≡ sizes_of shape) }
    {
        let half = newest_half(disk, &shape)?;
        if half.length > shape.payload_room() {
            return Err(LoadFault::Payload);
        }
        let mut payload = vec![in alloc; 0u8; half.length as usize]?;
        read_payload(disk, &shape, &half, &mut payload)?;
        let decoded = Catalog::decode(alloc, shape, &payload)?;
        match decoded {
            Some(catalog) => Ok(catalog.moved_to(half)),
            None => Err(LoadFault::Payload),
        }
    }
}
