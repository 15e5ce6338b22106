//! The catalogue of a store by itself: its one spelling, its rules, and what steps make of it.
#![tactic(auto)]

mod contents;
mod decode;
mod encode;
mod giving;
mod laws;
mod placing;
mod rows;
mod rules;
mod spelled;
mod step;

pub use bd_model::{CategoryRow, Phase};
pub use contents::Contents;
pub use decode::take_contents;
pub use encode::put_contents;
pub use giving::release;
pub use laws::{catalogues_read_back, steps_keep_the_rules};
pub use rows::{ActiveCategory, Actives, ClosedVolume, OwnsExtents, Rows, VersionRow};
pub use rules::obeys;
pub use step::{SplitRow, Splits, Step};
