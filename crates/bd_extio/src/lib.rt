//! The bytes of an owner of extents, as if they lay in one piece.
#![tactic(auto)]

mod piece;
mod range;

pub use range::{read_at, write_at};
