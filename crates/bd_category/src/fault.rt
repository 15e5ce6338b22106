//! What stands before a chunk, and why a record isn't read.
use bd_model::{Damage, Mark};

/// What stands before a stored chunk: its length in bytes and its fingerprint, and the place of this header among the
/// bytes of its owner.
#[derive(Clone, Copy, PartialEq, Eq, Debug)]
pub struct Header {
    pub length: u32,
    pub mark: Mark,
    pub at: u64,
}

/// Why a record wasn't read: the disk failed, or what was read breaks a rule.
#[derive(Clone, Copy, PartialEq, Eq, Debug)]
pub enum CategoryFault {
    DiskFault,
    Damaged { damage: Damage },
}
