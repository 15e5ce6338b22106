//! Closed volumes and open categories: their rows, which of these a restore walks over, and the appending to a volume.
#![tactic(auto)]

mod append;
mod copy;
mod dropped;
mod fault;
mod filling;
mod laws;
mod piece;
mod walk;

pub use append::{Records, append_category, append_records};
pub use copy::{Section, copy_range};
pub use dropped::drop_volume;
pub use fault::AppendFault;
pub use filling::Filling;
pub use laws::{layouts_are_held, named_bytes_decide};
pub use piece::{Piece, Pieces};
pub use walk::front;
