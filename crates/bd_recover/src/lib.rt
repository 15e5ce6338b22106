//! Making the empty store on a disk, and opening a store.
#![tactic(auto)]

mod claims;
mod fault;
mod formatting;
mod fresh;
mod opening;
mod superblock;

pub use fault::{FormatFault, OpenFault};
pub use formatting::{format, format_disk};
pub use opening::{Opened, open_image};
