//! Why words ask for nothing.
use bd_model::Field;

/// Why words ask for nothing.
#[derive(Clone, Copy, PartialEq, Eq, Debug)]
pub enum WordsFault {
    /// They are no line that is understood.
    BadWords,
    /// The value of this number, counted from 0, is no number that fits there.
    BadNumber { position: u32 },
    /// A name is empty, longer than 255 bytes, or has a control character.
    BadName,
    /// The first field of the asked shape that is out of range.
    BadShape { field: Field },
    OutOfMemory,
}
