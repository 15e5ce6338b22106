//! Extent numbers, and who uses them: an owner's list, and the use of each number of a space.
#![tactic(auto)]

mod laws;
mod owned;
mod space;

pub use laws::{free_numbers_ascend, taken_numbers_follow_the_owners, uses_partition_the_numbers};
pub use owned::Owned;
pub use space::{Space, SpaceFault, Use};
