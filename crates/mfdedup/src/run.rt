//! A run, from its words to its last line.
ghost use Rattle.std.specs.Prelude.{◌≡◌, ◌⊎◌, [], ◌∷◌, map, string_bytes, IfOk, Some};
ghost use Rattle.bd_model.specs.declared.command.Command.{Command as Asked};
ghost use Rattle.mfdedup.specs.Failing.{end_of_words};
ghost use Rattle.mfdedup.specs.Noted.{TellsEnd};
ghost use Rattle.bd_files.specs.World.{World, world, with_disk, with_sink};
ghost use Rattle.mfdedup.specs.Requests.{WordsUnread};
ghost use Rattle.mfdedup.specs.ScriptRuns.{RunsScript};
ghost use Rattle.mfdedup.specs.Statuses.{end_text, status_of};
ghost use Rattle.bd_words.specs.Words.{AsksFor, Reading, ToRun, reading};
ghost use Rattle.mfdedup.specs.Works.{Did, ComesOfWords, progress_of};

use crate::command::{is_built, run_commands};
use crate::once::{blank, format};
use crate::progress::Progress;
use crate::report::{End, Report, Request};
use crate::script::script_under;
use crate::status::status_of;
use crate::telling::put_end;
use bd_disk::Disk;
use bd_files::{Files, Sink};
use bd_model::{Command, Commands, Name};
use bd_words::{WordsFault, read};
use std::alloc::{AllocError as OutOfMemory, Global};

// Carries out the command that is asked for, where it is built.
fn run_asked<D: Disk, F: Files, O: Sink>(
    alloc: Global,
    commands: &Commands,
    disk: &mut D,
    files: &mut F,
    out: &mut O,
) -> Progress
    requires takes { O.tells → D.tells → O.takes D D.history }
    ensures works { (command : Asked) → commands.now.items ≡ command ∷ [] → ComesOfWords D.tells F.tells O.tells (ToRun command) result (world D.Disk F.Files O.Sink disk.old files.old out.old) (world D.Disk F.Files O.Sink disk.new files.new out.new) }
{
    match commands.get(0) {
        Some(command) => {
            if is_built(command) {
                match alone(alloc, command) {
                    Ok(commands) => run_commands(alloc, commands, disk, files, out),
                    Err(_) => Progress::none(alloc, End::OutOfMemory),
                }
            } else {
                Progress::none(alloc, End::Unbuilt)
            }
        }
        None => Progress::none(alloc, End::Unbuilt),
    }
}

// A list of this command alone.
fn alone(alloc: Global, command: &Command) -> Result<Commands, OutOfMemory>
    ensures { IfOk result (λ commands. commands.items ≡ command.now ∷ []) }
{
    let mut commands = Commands::new(alloc);
    commands.reserve(1)?;
    commands.push(command.try_clone(alloc)?);
    Ok(commands)
}

// Reads the script under a name, and carries out its commands.
fn run_script<D: Disk, F: Files, O: Sink>(
    alloc: Global,
    name: &Name,
    disk: &mut D,
    files: &mut F,
    out: &mut O,
) -> Progress
    requires takes { O.tells → D.tells → O.takes D D.history }
    ensures runs { RunsScript D.tells F.tells O.tells name.now result (world D.Disk F.Files O.Sink disk.old files.old out.old) (world D.Disk F.Files O.Sink disk.new files.new out.new) }
{
    match script_under(alloc, files, name) {
        Ok(commands) => run_commands(alloc, commands, disk, files, out),
        Err(end) => Progress::none(alloc, end),
    }
}

// Does what is asked for.
fn act<D: Disk, F: Files, O: Sink>(
    alloc: Global,
    request: &Request,
    disk: &mut D,
    files: &mut F,
    out: &mut O,
) -> Progress
    requires takes { O.tells → D.tells → O.takes D D.history }
    ensures works { (reading : Reading) → AsksFor reading (Some request.now) → ComesOfWords D.tells F.tells O.tells reading result (world D.Disk F.Files O.Sink disk.old files.old out.old) (world D.Disk F.Files O.Sink disk.new files.new out.new) }
{
    match request {
        Request::Format { shape } => format(alloc, *shape, disk, out),
        Request::Run { commands } => run_asked(alloc, commands, disk, files, out),
        Request::Blank { length, name } => blank(alloc, *length, name, disk, files, out),
        Request::Script { name } => run_script(alloc, name, disk, files, out),
        Request::Soak { .. } => Progress::none(alloc, End::Unbuilt),
    }
}

// Puts the text of the end, and reports.
fn report<D: Disk, O: Sink>(
    request: Option<Request>,
    progress: Progress,
    disk: &D,
    out: &mut O,
) -> Report
    requires takes { O.tells → D.tells → O.takes D D.history }
    ensures request { result.request ≡ request }
    ensures progress { progress_of result ≡ progress }
    ensures status { result.status ≡ status_of progress.end progress.answers.items }
    ensures tells { (kept : World) → TellsEnd O.tells (end_text progress.end) (with_sink O.Sink (with_disk D.Disk kept disk.now) out.old) (with_sink O.Sink (with_disk D.Disk kept disk.now) out.new) }
{
    put_end(&progress.end, disk, out);
    Report {
        status: status_of(&progress.end, &progress.answers),
        request,
        commands: progress.commands,
        answers: progress.answers,
        clocks: progress.clocks,
        end: progress.end,
    }
}

/// Reads the words behind the store's path, does what they ask, and puts every text.
pub fn run<D: Disk, F: Files, O: Sink>(
    alloc: Global,
    words: &[String],
    disk: &mut D,
    files: &mut F,
    out: &mut O,
) -> Report
    requires takes { O.tells → D.tells → O.takes D D.history }
    ensures status { result.status ≡ status_of result.end result.answers.items }
    // The request that was read is shown. Where memory ran out before, none is, and nothing was begun.
    ensures request { AsksFor (reading (map string_bytes words.now)) result.request ⊎ (WordsUnread result.request (progress_of result) × ((disk.new ≡ disk.old) × (files.new ≡ files.old))) }
    // All that comes of the words: what is answered, read, written and kept, over whatever disk, files and sink.
    ensures did { Did D.tells F.tells O.tells (reading (map string_bytes words.now)) (progress_of result) (world D.Disk F.Files O.Sink disk.old files.old out.old) (world D.Disk F.Files O.Sink disk.new files.new out.new) }
{
    match read(alloc, words) {
        Ok(request) => {
            let progress = act(alloc, &request, disk, files, out);
            report(Some(request), progress, disk, out)
        }
        Err(fault) => report(None, Progress::none(alloc, end_of_words(fault)), disk, out),
    }
}

// The end where the words ask for nothing.
fn end_of_words(fault: WordsFault) -> End
    ensures { result ≡ end_of_words fault }
{
    match fault {
        WordsFault::BadWords => End::BadWords,
        WordsFault::BadNumber { position } => End::BadNumber { position },
        WordsFault::BadName => End::BadName,
        WordsFault::BadShape { field } => End::BadShape { field },
        WordsFault::OutOfMemory => End::OutOfMemory,
    }
}
