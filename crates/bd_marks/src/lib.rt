//! Fingerprints of chunks, and their text.
#![tactic(auto)]

mod fingerprint;
mod text;

pub use fingerprint::{hex_of, mark_of};
pub use text::Text;
