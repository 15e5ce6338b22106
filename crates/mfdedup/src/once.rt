//! What is asked without a store: the empty one, and a blank file.
ghost use Rattle.std.specs.Prelude.{◌≡◌, ℕ, OnOk, replicate};
ghost use Rattle.std.specs.FinMap as map;
ghost use Rattle.bd_disk.specs.Calls.{HasCause};
ghost use Rattle.bd_files.specs.Files.{ChangesOnly, IsFinished};
ghost use Rattle.bd_model.specs.Sizes.{sizes_of};
ghost use Rattle.mfdedup.specs.Failing.{end_of_format};
ghost use Rattle.bd_files.specs.World.{World, world, with_disk, with_sink};
ghost use Rattle.bd_words.specs.Words.{ToFormat, ToBlank};
ghost use Rattle.mfdedup.specs.Works.{ComesOfWords};

use crate::progress::Progress;
use crate::report::End;
use crate::telling::note_answer;
use bd_disk::{Disk, Failed};
use bd_files::{Files, Sink};
use bd_model::{Answer, Name, Shape};
use bd_store::{FormatFault, Store};
use std::alloc::Global;

/// Makes the empty store of this shape. No file is touched.
pub fn format<D: Disk, O: Sink>(alloc: Global, shape: Shape, disk: &mut D, out: &mut O) -> Progress
    requires takes { O.tells → D.tells → O.takes D D.history }
    ensures works { (kept : World) → ComesOfWords D.tells (Unit {0}) O.tells (ToFormat (sizes_of shape)) result (with_sink O.Sink (with_disk D.Disk kept disk.old) out.old) (with_sink O.Sink (with_disk D.Disk kept disk.new) out.new) }
{
    match Progress::alone(alloc) {
        Ok(progress) => match Store::format(alloc, disk, shape) {
            Ok(_) => note_answer(alloc, progress, Answer::Formatted, disk, out),
            Err(fault) => progress.ending(end_of_format(fault)),
        },
        Err(_) => Progress::none(alloc, End::OutOfMemory),
    }
}

/// The end where a disk wasn't formatted.
fn end_of_format(fault: FormatFault) -> End
    ensures { result ≡ end_of_format fault }
{
    match fault {
        FormatFault::AlreadyAStore => End::AlreadyAStore,
        FormatFault::TooSmall { need, have } => End::TooSmall { need, have },
        FormatFault::DiskFault => End::DiskFault,
        FormatFault::OutOfMemory => End::OutOfMemory,
    }
}

/// Makes a file of so many zero bytes.
pub fn blank<D: Disk, F: Files, O: Sink>(
    alloc: Global,
    length: u64,
    name: &Name,
    disk: &D,
    files: &mut F,
    out: &mut O,
) -> Progress
    requires takes { O.tells → D.tells → O.takes D D.history }
    ensures works { ComesOfWords D.tells F.tells O.tells (ToBlank length name.now) result (world D.Disk F.Files O.Sink disk.now files.old out.old) (world D.Disk F.Files O.Sink disk.now files.new out.new) }
{
    match Progress::alone(alloc) {
        Ok(progress) => match put_zeros(length, name, files) {
            Ok(()) => note_answer(
                alloc,
                progress,
                Answer::Blanked { bytes: length },
                disk,
                out,
            ),
            Err(_) => progress.ending(End::TargetFault),
        },
        Err(_) => Progress::none(alloc, End::OutOfMemory),
    }
}

fn put_zeros<F: Files>(length: u64, name: &Name, files: &mut F) -> Result<(), Failed>
    ensures cause { HasCause (F.target_faults files.old) (F.target_faults files.new) result }
    ensures sources { F.source_faults files.new ≡ F.source_faults files.old }
    ensures strays { F.tells → F.strays files.new ≡ F.strays files.old }
    ensures ok { OnOk result (F.tells → F.files files.new ≡ map.insert (F.files files.old) name.now (replicate length 0)) }
    ensures others { F.tells → ChangesOnly name.now (F.files files.old) (F.files files.new) }
    ensures finished { OnOk result (F.tells → IsFinished name.now (F.unfinished files.new)) }
{
    files.begin(name, length)?;
    files.finish(name)
}
