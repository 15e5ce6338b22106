//! Taking in a new version: its source is read and cut, each chunk is told from the others by its fingerprint, and the new
//! ones and the recipe are written into free extents.
#![tactic(auto)]

mod extents;
mod fault;
mod finish;
mod laws;
mod need;
mod pending;
mod record;
mod room;
mod seen;
mod source;
mod staged;
mod staging;
mod stream;
mod take_in;
mod tally;
mod terms;

pub use fault::IntakeFault;
pub use laws::new_chunks_are_the_fresh_ones;
pub use staged::Staged;
pub use take_in::intake;
