//! Scripts: lists of commands, a line for each.
ghost use Rattle.std.specs.Prelude.{◌≡◌, ◌<◌, ◌≤◌, ℕ, ◌∷◌, ◌==◌, length, count_by, Err, IfOk};
ghost use Rattle.bd_script.specs.Scripts.{AreLinesOf, IsFirstBad, script_lines};
ghost use Rattle.bd_script.specs.declared.script.ScriptFault.TheVariants.{BadLine};

use crate::spelling::{LineFault, command_of};
use crate::splits::cut_at;
use bd_model::Commands;
use std::alloc::Global;
use thiserror::Error;

/// Why a script has no commands.
#[derive(Clone, Copy, PartialEq, Eq, Debug, Error)]
pub enum ScriptFault {
    /// This line, counted from 1, is the first that spells no command.
    #[error("line {number} is no command")]
    BadLine { number: u64 },
    #[error("out of memory")]
    OutOfMemory,
}

/// Reads a script: a line for each command, each ended by a line feed, which the last one may lack. A line is `backup NAME`,
/// `restore V NAME`, `expire`, `reorganise`, `scrub` or `list`, with one space behind the first word and behind V. NAME is the
/// rest of the line. V is a version's number without zeros before it. The memory for the commands is taken once, that for
/// a name when its line is read.
pub fn read_script(alloc: Global, bytes: &[u8]) -> Result<Commands, ScriptFault>
    ensures commands { IfOk result (λ commands. AreLinesOf commands.items (script_lines bytes.now)) }
    ensures bad { (number : ℕ) → result ≡ Err (BadLine number) → IsFirstBad (script_lines bytes.now) number }
{
    let mut commands = Commands::new(alloc);
    if commands.reserve(most_lines(bytes)).is_err() {
        return Err(ScriptFault::OutOfMemory);
    }
    let mut rest = bytes;
    while !rest.is_empty() {
        let (line, behind) = first_line(rest);
        match command_of(alloc, line) {
            Ok(command) => commands.push(command),
            Err(LineFault::NoCommand) => {
                let number = commands.len() as u64 + 1;
                return Err(ScriptFault::BadLine { number });
            }
            Err(LineFault::OutOfMemory) => return Err(ScriptFault::OutOfMemory),
        }
        rest = behind;
    }
    Ok(commands)
}

// The first line, and what is behind its line feed.
fn first_line(bytes: &[u8]) -> (&[u8], &[u8])
    requires { 0 < length bytes.now }
    ensures line { script_lines bytes.now ≡ result.0.now ∷ script_lines result.1.now }
    ensures shorter { length result.1.now < length bytes.now }
{
    match cut_at(bytes, b'\n') {
        Some(parts) => parts,
        None => (bytes, &[]),
    }
}

// So many lines at most.
fn most_lines(bytes: &[u8]) -> usize
    ensures { length (script_lines bytes.now) ≤ result }
{
    line_feeds(bytes) + 1
}

fn line_feeds(bytes: &[u8]) -> usize
    ensures value { result ≡ count_by (λ b. b == 10) bytes.now }
    ensures within { result ≤ length bytes.now }
{
    bytes.iter().filter(|b| **b == b'\n').count()
}
