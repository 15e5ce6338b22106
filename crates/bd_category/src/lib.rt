//! Records: a chunk on the disk, with its length and its fingerprint, and the reading of one.
#![tactic(auto)]

mod fault;
mod laws;
mod record;

pub use fault::{CategoryFault, Header};
pub use laws::records_read_back;
pub use record::{header_bytes, read_body, read_header, write_chunk};
