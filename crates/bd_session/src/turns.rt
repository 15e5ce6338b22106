//! One command after the other.
ghost use Rattle.std.specs.Prelude.{◌≡◌, ◌≤◌, false};
ghost use Rattle.bd_session.specs.Course.{course};
ghost use Rattle.bd_session.specs.Session.{MeetsSession};
ghost use Rattle.bd_store.specs.Attempts.{scene};
ghost use Rattle.bd_store.specs.Shown.{IsOpenOn};
ghost use Rattle.bd_files.specs.World.{world};

use crate::report::{SessionEnd, SessionReport, end_of};
use crate::telling::{Untold, tell_answer};
use bd_disk::Disk;
use bd_files::{Files, Sink};
use bd_model::{Command, Commands};
use bd_store::Store;
use std::alloc::Global;

/// Carries the commands out on a store, one after the other. The text of each answer is put behind the last sync of its
/// command and before the next command begins. The first fault, damage or want of memory ends the list, and so does a scrub,
/// which is still to come. Room for all answers and clocks is taken before the first command.
pub fn session<D: Disk, F: Files, O: Sink>(
    alloc: Global,
    store: &mut Store,
    disk: &mut D,
    commands: &Commands,
    files: &mut F,
    out: &mut O,
) -> SessionReport
    requires takes { O.tells → D.tells → O.takes D D.history }
    requires opened { IsOpenOn D.Disk store.old disk.old }
    ensures meets { MeetsSession D.tells F.tells O.tells (course commands.now.items result)
        (scene store.old (world D.Disk F.Files O.Sink disk.old files.old out.old))
        (scene store.new (world D.Disk F.Files O.Sink disk.new files.new out.new)) }
{
    let mut report = match SessionReport::with_room(alloc, commands.len()) {
        Ok(report) => report,
        Err(_) => return SessionReport::none(alloc, SessionEnd::OutOfMemory),
    };
    for command in commands.as_slice() {
        if let Command::Scrub = command {
            return report.ending(SessionEnd::Unbuilt);
        }
        match store.carry_out(disk, files, command) {
            Ok(answer) => match tell_answer(alloc, disk, out, &answer) {
                Ok(moment) => {
                    report.answers.push(answer);
                    report.clocks.push(moment);
                }
                Err(Untold::Output) => return report.ending(SessionEnd::OutputFault),
                Err(Untold::Memory) => return report.ending(SessionEnd::OutOfMemory),
            },
            Err(fault) => return report.ending(end_of(fault)),
        }
    }
    report
}
