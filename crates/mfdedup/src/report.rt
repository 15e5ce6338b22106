//! What a run answers.
use bd_model::{Answers, Commands, Damage, Field, Moments, Place};
pub use bd_words::Request;

/// How a call ended.
#[derive(Clone, Copy, PartialEq, Eq, Debug)]
pub enum End {
    /// All was done that was asked. An answer may still be a refusal.
    Done,
    /// The words are no line that is understood.
    BadWords,
    /// The value of this number, counted from 0, is no number that fits there.
    BadNumber { position: u32 },
    /// A name is empty, longer than 255 bytes, or has a control character.
    BadName,
    /// The first field of the asked shape that is out of range.
    BadShape { field: Field },
    /// The script is too long.
    LongScript,
    /// The line of this number is no command.
    BadLine { number: u64 },
    /// The disk that was to be formatted holds a store.
    AlreadyAStore,
    /// The disk has too few bytes for the asked shape.
    TooSmall { need: u64, have: u64 },
    /// The disk holds no store: the first check that fails.
    NotAStore { place: Place },
    /// The disk failed.
    DiskFault,
    /// What was read from the disk breaks a rule.
    Damaged { damage: Damage },
    /// The source failed, or is missing.
    SourceFault,
    /// The target failed.
    TargetFault,
    /// A text couldn't be put.
    OutputFault,
    OutOfMemory,
    /// What is asked is still to come, and wasn't begun.
    Unbuilt,
}

/// What a call did.
#[derive(Drop)]
pub struct Report {
    /// The status for the system, which follows from the end and the answers.
    pub status: u8,
    /// What the words were read as; None where they were refused, or not read for want of memory.
    pub request: Option<Request>,
    /// The commands that the store was given.
    pub commands: Commands,
    /// What the commands answered, as far as their texts were put.
    pub answers: Answers,
    /// The clock of the disk at which the text of each answer was put.
    pub clocks: Moments,
    pub end: End,
}
