//! Why a command on a store isn't carried out.
ghost use Rattle.std.specs.Prelude.{◌≡◌, ◌↔◌, true, Err};
ghost use Rattle.bd_store.specs.Naming.{fault_of_reading, fault_of_restore, refusal_of, with_room};

use bd_intake::IntakeFault;
use bd_model::{Answer, Damage};
use bd_restore::{ReadFault, RestoreFault};
use thiserror::Error;

/// Why a command on a store wasn't carried out.
#[derive(Clone, Copy, PartialEq, Eq, Debug, Error)]
pub enum StoreFault {
    /// The source answered `Failed`.
    #[error("the source failed")]
    SourceFault,
    /// The target answered `Failed`.
    #[error("the target failed")]
    TargetFault,
    /// The disk answered `Failed`. The store is worn then, and the disk is opened anew.
    #[error("the disk failed")]
    DiskFault,
    /// What was read from the disk breaks a rule.
    #[error("the store is damaged: {damage:?}")]
    Damaged { damage: Damage },
    #[error("out of memory")]
    OutOfMemory,
}

/// Whether a command met a fault of the disk.
pub(crate) fn is_disk_fault(outcome: &Result<Answer, StoreFault>) -> bool
    ensures { (result ≡ true) ↔ (outcome.now ≡ Err StoreFault.DiskFault) }
{
    matches!(outcome, Err(StoreFault::DiskFault))
}

/// Whether a reading met a fault of the disk.
pub(crate) fn is_read_fault(fault: ReadFault) -> bool
    ensures { (result ≡ true) ↔ (fault ≡ ReadFault.DiskFault) }
{
    matches!(fault, ReadFault::DiskFault)
}

/// The same fault; a want of room with what the store has now.
pub(crate) fn with_room(fault: IntakeFault, free: u64, held: u64) -> IntakeFault
    ensures { result ≡ with_room free held fault }
{
    match fault {
        IntakeFault::Full { counted, .. } => IntakeFault::Full {
            counted,
            free,
            held,
        },
        other => other,
    }
}

/// What a refused intake is answered with.
pub(crate) fn refusal_of(fault: IntakeFault) -> Result<Answer, StoreFault>
    ensures { result ≡ refusal_of fault }
{
    match fault {
        IntakeFault::Full {
            counted,
            free,
            held,
        } => Ok(Answer::FullExtents {
            counted,
            free,
            held,
        }),
        IntakeFault::SourceFault => Err(StoreFault::SourceFault),
        IntakeFault::DiskFault => Err(StoreFault::DiskFault),
        IntakeFault::OutOfMemory => Err(StoreFault::OutOfMemory),
    }
}

/// Why the recipe couldn't be read.
pub(crate) fn fault_of_reading(fault: ReadFault) -> StoreFault
    ensures { result ≡ fault_of_reading fault }
{
    match fault {
        ReadFault::DiskFault => StoreFault::DiskFault,
        ReadFault::Damaged { damage } => StoreFault::Damaged { damage },
        ReadFault::OutOfMemory => StoreFault::OutOfMemory,
    }
}

/// Why the planned version wasn't given back.
pub(crate) fn fault_of_restore(fault: RestoreFault) -> StoreFault
    ensures { result ≡ fault_of_restore fault }
{
    match fault {
        RestoreFault::TargetFault => StoreFault::TargetFault,
        RestoreFault::DiskFault => StoreFault::DiskFault,
        RestoreFault::Damaged { damage } => StoreFault::Damaged { damage },
        RestoreFault::OutOfMemory => StoreFault::OutOfMemory,
    }
}
