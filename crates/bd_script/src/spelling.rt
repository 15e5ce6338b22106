//! The command that a line spells.
ghost use Rattle.std.specs.Prelude.{◌≡◌, ◌++◌, codes, Err, IfOk, MatchOption};
ghost use Rattle.bd_script.specs.Numbers.{number_of};
ghost use Rattle.bd_script.specs.Scripts.{IsLineOf, IsNoCommand, IsNoWord, IsTextName};
ghost use Rattle.bd_script.specs.declared.spelling.LineFault.TheVariants.{NoCommand};

use crate::numbers::number;
use crate::splits::{behind, cut_at};
use bd_model::{Command, Name, NameFault};
use std::alloc::Global;
use std::str;

/// Why a line has no command.
#[derive(Clone, Copy, PartialEq, Eq, Debug)]
pub(crate) enum LineFault {
    /// It spells none.
    NoCommand,
    OutOfMemory,
}

/// The command that the line spells. `NoCommand` comes only where it spells none.
pub(crate) fn command_of(alloc: Global, line: &[u8]) -> Result<Command, LineFault>
    ensures spelled { IfOk result (λ command. IsLineOf command line.now) }
    ensures none { result ≡ Err NoCommand → IsNoCommand line.now }
{
    if let Some(name) = behind(line, b"backup ") {
        let name = name_of(alloc, name)?;
        return Ok(Command::Backup { name });
    }
    if let Some(rest) = behind(line, b"restore ") {
        return restore_of(alloc, rest);
    }
    match word_of(line) {
        Some(command) => Ok(command),
        None => Err(LineFault::NoCommand),
    }
}

// The command of a line that begins as a restore and goes on so.
fn restore_of(alloc: Global, rest: &[u8]) -> Result<Command, LineFault>
    ensures spelled { IfOk result (λ command. IsLineOf command (codes "restore " ++ rest.now)) }
    ensures none { result ≡ Err NoCommand → IsNoCommand (codes "restore " ++ rest.now) }
{
    let Some((digits, name)) = cut_at(rest, b' ') else {
        return Err(LineFault::NoCommand);
    };
    let Some(version) = version_of(digits) else {
        return Err(LineFault::NoCommand);
    };
    let name = name_of(alloc, name)?;
    Ok(Command::Restore { version, name })
}

// The number of a version that these digits spell.
fn version_of(digits: &[u8]) -> Option<u32>
    ensures { result ≡ number_of 4294967295 digits.now }
{
    match str::from_utf8(digits) {
        Ok(text) => number(text, u64::from(u32::MAX)).map(|version| version as u32),
        Err(_) => None,
    }
}

// The name that these bytes are.
fn name_of(alloc: Global, bytes: &[u8]) -> Result<Name, LineFault>
    ensures name { IfOk result (λ name. name ≡ bytes.now) }
    ensures text { IfOk result (λ name. IsTextName bytes.now) }
    ensures none { result ≡ Err NoCommand → IsTextName bytes.now → ⊥ }
{
    let Ok(text) = str::from_utf8(bytes) else {
        return Err(LineFault::NoCommand);
    };
    match Name::new(alloc, text) {
        Ok(name) => Ok(name),
        Err(NameFault::BadName) => Err(LineFault::NoCommand),
        Err(NameFault::OutOfMemory) => Err(LineFault::OutOfMemory),
    }
}

// The command of a line that is one word.
fn word_of(line: &[u8]) -> Option<Command>
    ensures { MatchOption result (IsNoWord line.now) (λ command. IsLineOf command line.now) }
{
    match line {
        b"expire" => Some(Command::Expire),
        b"reorganise" => Some(Command::Reorganise),
        b"scrub" => Some(Command::Scrub),
        b"list" => Some(Command::List),
        _ => None,
    }
}
