//! The words of a command line, and what they ask for.
#![tactic(auto)]

mod fault;
mod request;
mod values;
mod words;

pub use fault::WordsFault;
pub use request::Request;
pub use words::read;
