//! Big-endian fields: put into a buffer, and taken from the front of a run of bytes.
#![tactic(auto)]

mod cursor;
mod fields;

pub use cursor::Cursor;
pub use fields::{fields_read_back, put_u8, put_u32, put_u64};
