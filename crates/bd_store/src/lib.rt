//! A store of versions on a disk: one command on it is one step of the version machine.
#![tactic(auto)]

mod backing;
mod expiring;
mod fault;
mod figures;
mod listing;
mod naming;
mod newest;
mod store;

pub use bd_recover::{FormatFault, OpenFault};
pub use fault::StoreFault;
pub use figures::Figures;
pub use store::Store;
