//! Recipes: which chunks a version has, an entry of 40 bytes for each, and the reading and writing of them.
#![tactic(auto)]

mod entry;
mod fault;
mod laws;
mod limits;
mod located;
mod neighbour;
mod recipe;

pub use entry::{entry_bytes, write_entry};
pub use fault::ReadFault;
pub use laws::entries_read_back;
pub use neighbour::Neighbour;
pub use recipe::{Recipe, read_recipe};
