//! Commands on the store that a disk holds.
ghost use Rattle.std.specs.Prelude.{◌≡◌};
ghost use Rattle.mfdedup.specs.Built.{is_built};
ghost use Rattle.mfdedup.specs.Commands.{RunsCommands};
ghost use Rattle.mfdedup.specs.Failing.{end_of_opening, end_of_session};
ghost use Rattle.bd_files.specs.World.{world};

use crate::progress::Progress;
use crate::report::End;
use bd_disk::Disk;
use bd_files::{Files, Sink};
use bd_model::{Command, Commands};
use bd_session::{SessionEnd, session};
use bd_store::{OpenFault, Store};
use std::alloc::Global;

/// Whether a command is built. A scrub is still to come.
pub fn is_built(command: &Command) -> bool
    ensures { result ≡ is_built command.now }
{
    !matches!(command, Command::Scrub)
}

/// Opens the store, and carries the commands out on it, one after the other.
pub fn run_commands<D: Disk, F: Files, O: Sink>(
    alloc: Global,
    commands: Commands,
    disk: &mut D,
    files: &mut F,
    out: &mut O,
) -> Progress
    requires takes { O.tells → D.tells → O.takes D D.history }
    ensures runs { RunsCommands D.tells F.tells O.tells commands.items result (world D.Disk F.Files O.Sink disk.old files.old out.old) (world D.Disk F.Files O.Sink disk.new files.new out.new) }
{
    match Store::open_store(alloc, disk) {
        Ok(mut store) => {
            let report = session(alloc, &mut store, disk, &commands, files, out);
            Progress {
                commands,
                answers: report.answers,
                clocks: report.clocks,
                end: end_of_session(report.end),
            }
        }
        Err(fault) => Progress::none(alloc, end_of_opening(fault)),
    }
}

// The end of the call where the commands ended so.
fn end_of_session(end: SessionEnd) -> End
    ensures { result ≡ end_of_session end }
{
    match end {
        SessionEnd::Done => End::Done,
        SessionEnd::SourceFault => End::SourceFault,
        SessionEnd::TargetFault => End::TargetFault,
        SessionEnd::DiskFault => End::DiskFault,
        SessionEnd::Damaged { damage } => End::Damaged { damage },
        SessionEnd::OutputFault => End::OutputFault,
        SessionEnd::OutOfMemory => End::OutOfMemory,
        SessionEnd::Unbuilt => End::Unbuilt,
    }
}

// The end where the store wasn't opened.
fn end_of_opening(fault: OpenFault) -> End
    ensures { result ≡ end_of_opening fault }
{
    match fault {
        OpenFault::NotAStore { place } => End::NotAStore { place },
        OpenFault::DiskFault => End::DiskFault,
        OpenFault::OutOfMemory => End::OutOfMemory,
    }
}
