//! Lists of commands on an open store: each is one step of the version machine, and so is the list.
#![tactic(auto)]

pub mod laws;
mod report;
mod telling;
mod turns;

pub use report::{SessionEnd, SessionReport};
pub use telling::{Untold, put_text, tell_answer};
pub use turns::session;

#[cfg(test)]
mod tests;
