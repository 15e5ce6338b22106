//! Restores: which records a restore of a version walks over, and how it gives the version's stream back.
#![tactic(auto)]

mod fault;
mod missing;
mod owner;
mod plan;
mod put;
mod record;
mod run;
mod tables;
mod walk;

pub use bd_recipe::ReadFault;
pub use fault::RestoreFault;
pub use plan::{Plan, plan_for};
pub use run::run_plan;
