//! What came of the commands so far.
ghost use Rattle.std.specs.Prelude.{◌≡◌, ◌≤◌, [], IfOk};
ghost use Rattle.mfdedup.specs.declared.report.End.TheVariants.{Done};

use crate::report::End;
use bd_model::{Answers, Commands, Moments};
use std::alloc::{AllocError as OutOfMemory, Global};

/// The commands that the store was given, and what came of them so far.
#[derive(Drop)]
pub struct Progress {
    pub commands: Commands,
    pub answers: Answers,
    pub clocks: Moments,
    pub end: End,
}

impl Progress {
    /// No command was given.
    pub fn none(alloc: Global, end: End) -> Progress
        ensures commands { result.commands.items ≡ [] }
        ensures answers { result.answers.items ≡ [] }
        ensures clocks { result.clocks.items ≡ [] }
        ensures end { result.end ≡ end }
    {
        Progress {
            commands: Commands::new(alloc),
            answers: Answers::new(alloc),
            clocks: Moments::new(alloc),
            end,
        }
    }

    /// No command was given, but something else that has an answer: with room for it.
    pub fn alone(alloc: Global) -> Result<Progress, OutOfMemory>
        ensures commands { IfOk result (λ p. p.commands.items ≡ []) }
        ensures answers { IfOk result (λ p. p.answers.items ≡ []) }
        ensures clocks { IfOk result (λ p. p.clocks.items ≡ []) }
        ensures room { IfOk result (λ p. (1 ≤ p.answers.spare) × (1 ≤ p.clocks.spare)) }
    {
        let mut answers = Answers::new(alloc);
        let mut clocks = Moments::new(alloc);
        answers.reserve(1)?;
        clocks.reserve(1)?;
        Ok(Progress {
            commands: Commands::new(alloc),
            answers,
            clocks,
            end: End::Done,
        })
    }

    /// The same, ended so.
    pub fn ending(self, end: End) -> Progress
        ensures { result ≡ record self { end = end } }
    {
        Progress {
            commands: self.commands,
            answers: self.answers,
            clocks: self.clocks,
            end,
        }
    }
}
