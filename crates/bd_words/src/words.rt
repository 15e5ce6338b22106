//! What the words of a command line ask for.
ghost use Rattle.std.specs.Prelude.{◌≡◌, ◌⊎◌, ◌≤◌, ◌<◌, ◌^◌, ◌↔◌, ◌∷◌, [], true, false, IfOk, IfErr, IsTrue, drop, length, map, string_bytes, option_map, Some};
ghost use Rattle.bd_model.specs.Limits.{is_name};
ghost use Rattle.bd_model.specs.Sizes.{Sizes};
ghost use Rattle.bd_script.specs.Numbers.{number_of};
ghost use Rattle.bd_words.specs.Words.{AsksFor, ToRun, Refused, are_options, format_request, is_asked_once, is_format, is_option, is_value, reading, reading_alone, reading_one, reading_two, shape_request, size_of, value_of, restore_request, blank_request, soak_request};
ghost use Rattle.bd_words.specs.declared.fault.WordsFault.TheVariants.{BadName, BadNumber, OutOfMemory};

use crate::fault::WordsFault;
use crate::request::Request;
use crate::values::{one_value, options_of, two_values};
use bd_model::{Command, Commands, Name, NameFault, Shape};
use bd_script::number;
use std::alloc::Global;

/// The most bytes of a blank file: the largest disk that a store can have.
const MOST_BLANK: u64 = 1_099_516_763_350;

/// The most turns of a run over drawn streams.
const MOST_TURNS: u64 = 16;

/// Reads the words behind the store's path.
#[tactic(auto, unfolding(crate::specs::Words::reading))]
pub fn read(alloc: Global, words: &[String]) -> Result<Request, WordsFault>
    ensures asked { IfOk result (λ request. AsksFor (reading (map string_bytes words.now)) (Some request)) }
    ensures refused { IfErr result (λ fault. (reading (map string_bytes words.now) ≡ Refused fault) ⊎ (fault ≡ OutOfMemory)) }
{
    if is_format(words) {
        return read_format(alloc, words);
    }
    match words {
        [] => Err(WordsFault::BadWords),
        [word] => read_alone(alloc, word.as_str()),
        [word, value] => read_one(alloc, word.as_str(), value.as_str(), words),
        [word, first, second] => {
            read_two(alloc, word.as_str(), first.as_str(), second.as_str(), words)
        }
        [_, _, _, _, ..] => Err(WordsFault::BadWords),
    }
}

fn is_format(words: &[String]) -> bool
    ensures { result ≡ is_format (map string_bytes words.now) }
{
    match words {
        [word, ..] => word.as_str() == "format",
        [] => false,
    }
}

fn read_alone(alloc: Global, word: &str) -> Result<Request, WordsFault>
    ensures asked { IfOk result (λ request. AsksFor (reading_alone word.now) (Some request)) }
    ensures refused { IfErr result (λ fault. (reading_alone word.now ≡ Refused fault) ⊎ (fault ≡ OutOfMemory)) }
{
    if word == "expire" {
        return run_of(alloc, Command::Expire);
    }
    if word == "reorganise" {
        return run_of(alloc, Command::Reorganise);
    }
    if word == "scrub" {
        return run_of(alloc, Command::Scrub);
    }
    if word == "list" {
        return run_of(alloc, Command::List);
    }
    Err(WordsFault::BadWords)
}

// The words are tested by hand, and clap reads their values.
fn read_one(alloc: Global, word: &str, value: &str, words: &[String]) -> Result<Request, WordsFault>
    requires line { map string_bytes words.now ≡ word.now ∷ value.now ∷ [] }
    ensures asked { IfOk result (λ request. AsksFor (reading_one word.now value.now) (Some request)) }
    ensures refused { IfErr result (λ fault. (reading_one word.now value.now ≡ Refused fault) ⊎ (fault ≡ OutOfMemory)) }
{
    if !is_value(value) {
        return Err(WordsFault::BadWords);
    }
    if word == "backup" {
        let name = name_of(alloc, one_value(alloc, words)?)?;
        return run_of(alloc, Command::Backup { name });
    }
    if word == "run" {
        let name = name_of(alloc, one_value(alloc, words)?)?;
        return Ok(Request::Script { name });
    }
    Err(WordsFault::BadWords)
}

fn read_two(
    alloc: Global,
    word: &str,
    first: &str,
    second: &str,
    words: &[String],
) -> Result<Request, WordsFault>
    requires line { map string_bytes words.now ≡ word.now ∷ first.now ∷ second.now ∷ [] }
    ensures asked { IfOk result (λ request. AsksFor (reading_two word.now first.now second.now) (Some request)) }
    ensures refused { IfErr result (λ fault. (reading_two word.now first.now second.now ≡ Refused fault) ⊎ (fault ≡ OutOfMemory)) }
{
    if !is_value(first) || !is_value(second) {
        return Err(WordsFault::BadWords);
    }
    if word == "restore" {
        let (version, name) = two_values(alloc, words)?;
        return read_restore(alloc, version, name);
    }
    if word == "blank" {
        let (length, name) = two_values(alloc, words)?;
        return read_blank(alloc, length, name);
    }
    if word == "soak" {
        let (seed, count) = two_values(alloc, words)?;
        return read_soak(seed, count);
    }
    Err(WordsFault::BadWords)
}

fn read_restore(alloc: Global, version: &str, name: &str) -> Result<Request, WordsFault>
    ensures asked { IfOk result (λ request. AsksFor (restore_request version.now name.now) (Some request)) }
    ensures refused { IfErr result (λ fault. (restore_request version.now name.now ≡ Refused fault) ⊎ (fault ≡ OutOfMemory)) }
{
    let version = number_at(version, u64::from(u32::MAX), 0)? as u32;
    let name = name_of(alloc, name)?;
    run_of(alloc, Command::Restore { version, name })
}

fn read_blank(alloc: Global, length: &str, name: &str) -> Result<Request, WordsFault>
    ensures asked { IfOk result (λ request. AsksFor (blank_request length.now name.now) (Some request)) }
    ensures refused { IfErr result (λ fault. (blank_request length.now name.now ≡ Refused fault) ⊎ (fault ≡ OutOfMemory)) }
{
    let length = number_at(length, MOST_BLANK, 0)?;
    let name = name_of(alloc, name)?;
    Ok(Request::Blank { length, name })
}

fn read_soak(seed: &str, count: &str) -> Result<Request, WordsFault>
    ensures asked { IfOk result (λ request. AsksFor (soak_request seed.now count.now) (Some request)) }
    ensures refused { IfErr result (λ fault. soak_request seed.now count.now ≡ Refused fault) }
{
    let seed = number_at(seed, u64::MAX, 0)?;
    let count = number_at(count, MOST_TURNS, 1)? as u32;
    if count == 0 {
        return Err(WordsFault::BadNumber { position: 1 });
    }
    Ok(Request::Soak { seed, count })
}

// The request for one command.
fn run_of(alloc: Global, command: Command) -> Result<Request, WordsFault>
    ensures asked { IfOk result (λ request. AsksFor (ToRun command) (Some request)) }
    ensures refused { IfErr result (λ fault. fault ≡ OutOfMemory) }
{
    let mut commands = Commands::new(alloc);
    if commands.reserve(1).is_err() {
        return Err(WordsFault::OutOfMemory);
    }
    commands.push(command);
    Ok(Request::Run { commands })
}

// The shape that options ask for.
fn read_format(alloc: Global, words: &[String]) -> Result<Request, WordsFault>
    requires some { 0 < length words.now }
    ensures asked { IfOk result (λ request. AsksFor (format_request (drop 1 (map string_bytes words.now))) (Some request)) }
    ensures refused { IfErr result (λ fault. (format_request (drop 1 (map string_bytes words.now)) ≡ Refused fault) ⊎ (fault ≡ OutOfMemory)) }
{
    if !has_options(words) {
        return Err(WordsFault::BadWords);
    }
    let options = options_of(alloc, words)?;
    let extent = size_at(options.extent, 1_048_576, 0)?;
    let extents = size_at(options.extents, 4_096, 1)?;
    let retain = size_at(options.retain, 64, 2)?;
    let min = size_at(options.min, 2_048, 3)?;
    let bits = size_at(options.bits, 13, 4)?;
    let max = size_at(options.max, 65_536, 5)?;
    shape_request(extent, extents, retain, min, bits, max)
}

// Whether options stand behind the first word.
fn has_options(words: &[String]) -> bool
    requires { 0 < length words.now }
    ensures { result ≡ are_options (drop 1 (map string_bytes words.now)) }
{
    are_options(&words[1..])
}

fn shape_request(
    extent: u32,
    extents: u32,
    retain: u32,
    min: u32,
    bits: u32,
    max: u32,
) -> Result<Request, WordsFault>
    ensures asked { IfOk result (λ request. AsksFor (shape_request (record { extent = extent; extents = extents; retain = retain; min = min; bits = bits; max = max })) (Some request)) }
    ensures refused { IfErr result (λ fault. shape_request (record { extent = extent; extents = extents; retain = retain; min = min; bits = bits; max = max }) ≡ Refused fault) }
{
    match Shape::new(extent, extents, retain, min, bits, max) {
        Ok(shape) => Ok(Request::Format { shape }),
        Err(fault) => Err(WordsFault::BadShape { field: fault.field }),
    }
}

// The number of an option, or what stands for it where it is missing.
fn size_at(value: Option<&str>, missing: u32, position: u32) -> Result<u32, WordsFault>
    ensures number { IfOk result (λ n. size_of missing (option_map (λ v. v.now) value.entry) ≡ Some n) }
    ensures bad { IfErr result (λ fault. (fault ≡ BadNumber position) × (size_of missing (option_map (λ v. v.now) value.entry) ≡ None)) }
{
    match value {
        Some(value) => Ok(number_at(value, u64::from(u32::MAX), position)? as u32),
        None => Ok(missing),
    }
}

// Whether these are options, each with its value and at most once.
fn are_options(words: &[String]) -> bool
    ensures { result ≡ are_options (map string_bytes words.now) }
{
    match words {
        [] => true,
        [_] => false,
        [word, value, more @ ..] => {
            is_asked_once(word.as_str(), value.as_str(), more) && are_options(more)
        }
    }
}

fn is_asked_once(word: &str, value: &str, words: &[String]) -> bool
    ensures { result ≡ is_asked_once word.now value.now (map string_bytes words.now) }
{
    is_option(word) && is_value(value) && value_of(word, words).is_none()
}

fn is_option(word: &str) -> bool
    ensures { result ≡ is_option word.now }
{
    word == "--extent"
        || word == "--extents"
        || word == "--retain"
        || word == "--min"
        || word == "--bits"
        || word == "--max"
}

// The value behind an option.
fn value_of<'a>(option: &str, words: &'a [String]) -> Option<&'a str>
    ensures { option_map (λ v. v.now) result ≡ value_of option.now (map string_bytes words.now) }
{
    let mut rest = words;
    while let [word, value, more @ ..] = rest {
        if word.as_str() == option {
            return Some(value.as_str());
        }
        rest = more;
    }
    None
}

fn is_value(word: &str) -> bool
    ensures { result ≡ is_value word.now }
{
    !word.starts_with('-')
}

fn name_of(alloc: Global, text: &str) -> Result<Name, WordsFault>
    ensures name { IfOk result (λ name. (name ≡ text.now) × (is_name text.now ≡ true)) }
    ensures bad { IfErr result (λ fault. ((fault ≡ BadName) × (is_name text.now ≡ false)) ⊎ (fault ≡ OutOfMemory)) }
{
    match Name::new(alloc, text) {
        Ok(name) => Ok(name),
        Err(NameFault::BadName) => Err(WordsFault::BadName),
        Err(NameFault::OutOfMemory) => Err(WordsFault::OutOfMemory),
    }
}

// The number that the value of this position is, where it is at most `most`.
fn number_at(text: &str, most: u64, position: u32) -> Result<u64, WordsFault>
    ensures number { IfOk result (λ n. number_of most text.now ≡ Some n) }
    ensures fits { IfOk result (λ n. n ≤ most) }
    ensures bad { IfErr result (λ fault. (fault ≡ BadNumber position) × (number_of most text.now ≡ None)) }
{
    match number(text, most) {
        Some(number) => Ok(number),
        None => Err(WordsFault::BadNumber { position }),
    }
}
