//! Content-defined chunking: a stream is cut where its own bytes say so, by the gear rolling hash. So where two streams have
//! the same bytes, they are mostly cut into the same chunks, also where one has more bytes before.
//!
//! Each byte has a gear, a fixed number of 64 bits. The hash at a position is twice the hash before plus the gear of the
//! byte there, modulo 2^64; so a byte is forgotten after 64 more, and the hash depends on the last 64 bytes alone. The three
//! sizes of a shape say where a chunk ends:
//!
//! - `bits`: a chunk may end at a position whose hash begins with so many zero bits, one in 2^bits. With 0 every position is
//!   such a candidate, and every chunk but the last has `min` bytes.
//! - `min`: no chunk but the last of its stream has fewer bytes. Candidates before are passed over, so the mean is about
//!   `min + 2^bits` bytes.
//! - `max`: no chunk has more bytes. Where no candidate comes up to there, the chunk is cut at `max`.
//!
//! The hash isn't reset at a cut: its window goes back over it. So whether a position is a candidate depends on the stream
//! and not on where the chunks before it began, also where `min` is below 64.
//!
//! A [`Chunker`] takes a stream in pieces of any length. It hands out a chunk once no further byte can change it, and the
//! chunks are the same however the stream was cut into pieces. It holds up to [`ROOM`] bytes: feed it, take every chunk
//! that it gives, and feed it again, since the bytes held move to the front of its buffer where the room at the end is used
//! up.
#![tactic(auto)]

mod buffer;
mod chunker;
mod gear;
pub mod laws;
mod scan;

pub use chunker::{Chunker, ROOM};
pub use gear::Gear;

#[cfg(test)]
mod tests;
