//! The catalogue of a store in its place on a disk, and what an image stands for.
#![tactic(auto)]

mod catalog;
mod frame;
mod load;

pub use bd_roll::{
    ActiveCategory, Actives, CategoryRow, ClosedVolume, OwnsExtents, Phase, Rows, SplitRow, Splits,
    Step, VersionRow,
};
pub use catalog::Catalog;
pub use load::LoadFault;
