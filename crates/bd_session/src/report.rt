//! What came of a list of commands.
ghost use Rattle.std.specs.Prelude.{◌≡◌, ◌≤◌, [], IfOk};
ghost use Rattle.bd_session.specs.Ends.{end_of};
ghost use Rattle.bd_session.specs.declared.report.SessionEnd.TheVariants.{Done};

use bd_model::{Answers, Damage, Moments};
use bd_store::StoreFault;
use std::alloc::{AllocError as OutOfMemory, Global};

/// How a list of commands ended. Every end but `Done` is that of the command behind the last answer.
#[derive(Clone, Copy, PartialEq, Eq, Debug)]
pub enum SessionEnd {
    /// Every command was answered.
    Done,
    /// The source of a backup answered `Failed`.
    SourceFault,
    /// The target of a restore answered `Failed`.
    TargetFault,
    /// The disk answered `Failed`. The store is worn then.
    DiskFault,
    /// What was read from the disk breaks a rule.
    Damaged { damage: Damage },
    /// The sink answered `Failed`. The command was carried out, and its answer isn't noted.
    OutputFault,
    OutOfMemory,
    /// A scrub, which is still to come. It isn't begun.
    Unbuilt,
}

/// What came of a list of commands.
#[derive(Drop)]
pub struct SessionReport {
    /// The answers that were put to the sink, in the order of the commands.
    pub answers: Answers,
    /// For each answer the disk's clock when its text was put: the moment from which on no stop loses it.
    pub clocks: Moments,
    pub end: SessionEnd,
}

impl SessionReport {
    // No answer yet, and no room for one.
    pub(crate) fn none(alloc: Global, end: SessionEnd) -> SessionReport
        ensures answers { result.answers.items ≡ [] }
        ensures clocks { result.clocks.items ≡ [] }
        ensures end { result.end ≡ end }
    {
        SessionReport {
            answers: Answers::new(alloc),
            clocks: Moments::new(alloc),
            end,
        }
    }

    // No answer yet, and room for so many.
    pub(crate) fn with_room(alloc: Global, count: usize) -> Result<SessionReport, OutOfMemory>
        ensures answers { IfOk result (λ report. (report.answers.items ≡ []) × (count ≤ report.answers.spare)) }
        ensures clocks { IfOk result (λ report. (report.clocks.items ≡ []) × (count ≤ report.clocks.spare)) }
        ensures end { IfOk result (λ report. report.end ≡ Done) }
    {
        let mut answers = Answers::new(alloc);
        let mut clocks = Moments::new(alloc);
        answers.reserve(count)?;
        clocks.reserve(count)?;
        Ok(SessionReport {
            answers,
            clocks,
            end: SessionEnd::Done,
        })
    }

    // The same, ended so.
    pub(crate) fn ending(self, end: SessionEnd) -> SessionReport
        ensures { result ≡ record self { end = end } }
    {
        SessionReport {
            answers: self.answers,
            clocks: self.clocks,
            end,
        }
    }
}

// The end that a fault of the store brings.
pub(crate) fn end_of(fault: StoreFault) -> SessionEnd
    ensures { result ≡ end_of fault }
{
    match fault {
        StoreFault::SourceFault => SessionEnd::SourceFault,
        StoreFault::TargetFault => SessionEnd::TargetFault,
        StoreFault::DiskFault => SessionEnd::DiskFault,
        StoreFault::Damaged { damage } => SessionEnd::Damaged { damage },
        StoreFault::OutOfMemory => SessionEnd::OutOfMemory,
    }
}
