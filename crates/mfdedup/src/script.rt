//! The script under a name.
ghost use Rattle.std.specs.Prelude.{◌≡◌, ◌≤◌, length, vec_items, IfErr, IfOk};
ghost use Rattle.bd_disk.specs.Calls.{FailsByCount, HasCause};
ghost use Rattle.bd_files.specs.Files.{CountsStrays};
ghost use Rattle.bd_script.specs.Scripts.{AreLinesOf, script_lines};
ghost use Rattle.mfdedup.specs.Script.{CountsScript, EndsUnread, FetchesFront, HasScript, IsNoScript, is_source_fault, longest_script};

use crate::report::End;
use bd_disk::Failed;
use bd_files::Files;
use bd_model::{Commands, Name};
use bd_script::{ScriptFault, read_script};
use std::alloc::{AllocError, Global};

/// The most bytes of a script.
const LONGEST: usize = 1_048_576;

// Fetches the first bytes of a file, as many as there is room for, and answers how many.
fn fetch_front<F: Files>(files: &mut F, name: &Name, into: &mut [u8]) -> Result<usize, Failed>
    requires room { 1 ≤ length into.old }
    ensures cause { HasCause (F.source_faults files.old) (F.source_faults files.new) result }
    ensures targets { F.target_faults files.new ≡ F.target_faults files.old }
    ensures within { IfOk result (λ n. n ≤ length into.old) }
    ensures front { IfOk result (λ n. F.tells → FetchesFront (F.files files.old) name.now n (length into.old) into.new) }
    ensures strays { F.tells → CountsStrays (F.files files.old) name.now (F.strays files.old) (F.strays files.new) }
    ensures files { F.tells → F.files files.new ≡ F.files files.old }
    ensures unfinished { F.tells → F.unfinished files.new ≡ F.unfinished files.old }
{
    let mut at = 0;
    while at < into.len() {
        let count = files.fetch(name, at as u64, &mut into[at..])?;
        if count == 0 {
            break;
        }
        at += count;
    }
    Ok(at)
}

// Room for so many bytes.
fn room_for(alloc: Global, count: usize) -> Result<Vec<u8>, AllocError>
    ensures { IfOk result (λ bytes. length (vec_items bytes) ≡ count) }
{
    vec![in alloc; 0u8; count]
}

// Reads the commands of a script that was fetched so far as there was room.
fn read_front(alloc: Global, front: &[u8]) -> Result<Commands, End>
    ensures script { IfOk result (λ commands. (length front.now ≤ longest_script) × AreLinesOf commands.items (script_lines front.now)) }
    ensures unread { IfErr result (IsNoScript front.now) }
{
    if front.len() > LONGEST {
        return Err(End::LongScript);
    }
    match read_script(alloc, front) {
        Ok(commands) => Ok(commands),
        Err(ScriptFault::BadLine { number }) => Err(End::BadLine { number }),
        Err(ScriptFault::OutOfMemory) => Err(End::OutOfMemory),
    }
}

/// Fetches the script under a name, and reads its commands. Nothing but the source is asked.
pub fn script_under<F: Files>(alloc: Global, files: &mut F, name: &Name) -> Result<Commands, End>
    ensures cause { FailsByCount is_source_fault (F.source_faults files.old) (F.source_faults files.new) result }
    ensures targets { F.target_faults files.new ≡ F.target_faults files.old }
    ensures script { IfOk result (λ commands. F.tells → HasScript (F.files files.old) name.now commands.items) }
    ensures unread { IfErr result (EndsUnread F.tells (F.files files.old) name.now) }
    ensures strays { F.tells → CountsScript (F.files files.old) name.now (F.strays files.old) (F.strays files.new) result }
    ensures files { F.tells → F.files files.new ≡ F.files files.old }
    ensures unfinished { F.tells → F.unfinished files.new ≡ F.unfinished files.old }
{
    let Ok(mut bytes) = room_for(alloc, LONGEST + 1) else {
        return Err(End::OutOfMemory);
    };
    let Ok(count) = fetch_front(files, name, &mut bytes) else {
        return Err(End::SourceFault);
    };
    read_front(alloc, &bytes[..count])
}
