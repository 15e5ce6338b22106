//! A row of a closed volume, or an open category, with its bytes.
use bd_model::{Owner, Sequence};

/// A row of a closed volume, or an open category: whose it is, and where its records lie among that owner's bytes.
#[derive(Clone, Copy)]
pub struct Piece {
    pub who: Owner,
    /// The version at which its chunks begin.
    pub start: u32,
    /// The place of its first byte among the owner's.
    pub from: u64,
    /// The place behind its last byte.
    pub to: u64,
    /// How many records it has.
    pub chunks: u64,
}

/// Pieces, in order.
pub type Pieces = Sequence<Piece>;
