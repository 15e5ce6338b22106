//! Arranging: each open category is split into what the newest version uses and what is archived.
#![tactic(auto)]

mod arranging;
mod cut;
mod desk;
mod ending;
mod laws;
mod moving;

pub use arranging::arrange;
pub use laws::arranged_stores_stand;
