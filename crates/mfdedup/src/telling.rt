//! Texts that are no command's answers.
ghost use Rattle.std.specs.Prelude.{◌≡◌, ◌≤◌, [], false};
ghost use Rattle.bd_script.specs.Long.{is_long};
ghost use Rattle.mfdedup.specs.Noted.{NothingNoted, NotesAlone, TellsEnd};
ghost use Rattle.bd_files.specs.World.{World, with_disk, with_sink};
ghost use Rattle.mfdedup.specs.Statuses.{end_text};

use crate::progress::Progress;
use crate::report::End;
use crate::status::end_line;
use bd_disk::Disk;
use bd_files::Sink;
use bd_model::Answer;
use bd_session::{put_text, tell_answer};
use std::alloc::Global;

/// Puts the text of an answer of one line, and notes it with its moment.
pub fn note_answer<D: Disk, O: Sink>(
    alloc: Global,
    progress: Progress,
    answer: Answer,
    disk: &D,
    out: &mut O,
) -> Progress
    requires takes { O.tells → D.tells → O.takes D D.history }
    requires short { is_long answer ≡ false }
    requires nothing { NothingNoted progress }
    requires room { (1 ≤ progress.answers.spare) × (1 ≤ progress.clocks.spare) }
    ensures notes { (kept : World) → NotesAlone D.tells O.tells answer result (with_sink O.Sink (with_disk D.Disk kept disk.now) out.old) (with_sink O.Sink (with_disk D.Disk kept disk.now) out.new) }
{
    let Progress {
        commands,
        mut answers,
        mut clocks,
        ..
    } = progress;
    match tell_answer(alloc, disk, out, &answer) {
        Ok(moment) => {
            answers.push(answer);
            clocks.push(moment);
            Progress {
                commands,
                answers,
                clocks,
                end: End::Done,
            }
        }
        Err(_) => Progress {
            commands,
            answers,
            clocks,
            end: End::OutputFault,
        },
    }
}

/// Puts the text of the end, where it has one. Where that fails nothing comes of it.
pub fn put_end<D: Disk, O: Sink>(end: &End, disk: &D, out: &mut O)
    requires takes { O.tells → D.tells → O.takes D D.history }
    ensures tells { (kept : World) → TellsEnd O.tells (end_text end.now) (with_sink O.Sink (with_disk D.Disk kept disk.now) out.old) (with_sink O.Sink (with_disk D.Disk kept disk.now) out.new) }
{
    let line = end_line(end);
    if !line.is_empty() {
        let _ = put_text(disk, out, line.bytes());
    }
}
