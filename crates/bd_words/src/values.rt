//! The values of a plain line, as clap reads them.
ghost use Rattle.std.specs.Prelude.{◌≡◌, ◌<◌, IfOk, IfErr, IsSome, IsTrue, Some, slice_get, codes, drop, false, length, map, option_map, string_bytes, true};
ghost use Rattle.clap.specs.Words.{App, HasMatchesOf, app_of, first_value, found_of, rule_of, takes, with_rule};
ghost use Rattle.bd_words.specs.Lines.{has_one_value, has_two_values, format_line, new_line, one_value_line, option_rule, two_values_line, value_rule};
ghost use Rattle.bd_words.specs.Words.{are_options, value_of};
ghost use Rattle.bd_words.specs.declared.fault.WordsFault.TheVariants.{OutOfMemory};

use crate::fault::WordsFault;
use clap::error::ErrorKind;
use clap::{Arg, ArgAction, ArgMatches, Command as Line};
use std::alloc::Global;

/// The value of each option of a format that stands among the words.
#[derive(Clone, Copy)]
pub(crate) struct Options<'a> {
    pub extent: Option<&'a str>,
    pub extents: Option<&'a str>,
    pub retain: Option<&'a str>,
    pub min: Option<&'a str>,
    pub bits: Option<&'a str>,
    pub max: Option<&'a str>,
}

/// The values of a format's options, behind the first word.
pub(crate) fn options_of<'a>(alloc: Global, words: &'a [String]) -> Result<Options<'a>, WordsFault>
    requires some { 0 < length words.now }
    requires plain { IsTrue (are_options (drop 1 (map string_bytes words.now))) }
    ensures extent { IfOk result (λ o. option_map (λ v. v.now) o.extent ≡ value_of (codes "--extent") (drop 1 (map string_bytes words.now))) }
    ensures extents { IfOk result (λ o. option_map (λ v. v.now) o.extents ≡ value_of (codes "--extents") (drop 1 (map string_bytes words.now))) }
    ensures retain { IfOk result (λ o. option_map (λ v. v.now) o.retain ≡ value_of (codes "--retain") (drop 1 (map string_bytes words.now))) }
    ensures min { IfOk result (λ o. option_map (λ v. v.now) o.min ≡ value_of (codes "--min") (drop 1 (map string_bytes words.now))) }
    ensures bits { IfOk result (λ o. option_map (λ v. v.now) o.bits ≡ value_of (codes "--bits") (drop 1 (map string_bytes words.now))) }
    ensures max { IfOk result (λ o. option_map (λ v. v.now) o.max ≡ value_of (codes "--max") (drop 1 (map string_bytes words.now))) }
    ensures memory { IfErr result (λ fault. fault ≡ OutOfMemory) }
{
    let matches = parsed(format_line(alloc)?, words)?;
    Ok(Options {
        extent: matches.get_str("extent"),
        extents: matches.get_str("extents"),
        retain: matches.get_str("retain"),
        min: matches.get_str("min"),
        bits: matches.get_str("bits"),
        max: matches.get_str("max"),
    })
}

fn format_line<'a>(alloc: Global) -> Result<Line<'a>, WordsFault>
    ensures line { IfOk result (λ line. app_of line ≡ format_line) }
    ensures memory { IfErr result (λ fault. fault ≡ OutOfMemory) }
{
    let line = new_line(alloc);
    let extent = with(line, option(alloc, "extent"))?;
    let extents = with(extent, option(alloc, "extents"))?;
    let retain = with(extents, option(alloc, "retain"))?;
    let min = with(retain, option(alloc, "min"))?;
    let bits = with(min, option(alloc, "bits"))?;
    with(bits, option(alloc, "max"))
}

/// The value of a line with one, behind the first word.
pub(crate) fn one_value<'a>(alloc: Global, words: &'a [String]) -> Result<&'a str, WordsFault>
    requires plain { IsTrue (has_one_value (map string_bytes words.now)) }
    ensures value { IfOk result (λ v. slice_get (map string_bytes words.now) 1 ≡ Some v.now) }
    ensures memory { IfErr result (λ fault. fault ≡ OutOfMemory) }
{
    let matches = parsed(one_value_line(alloc)?, words)?;
    Ok(found(&matches, "value"))
}

fn one_value_line<'a>(alloc: Global) -> Result<Line<'a>, WordsFault>
    ensures line { IfOk result (λ line. app_of line ≡ one_value_line) }
    ensures memory { IfErr result (λ fault. fault ≡ OutOfMemory) }
{
    let line = new_line(alloc);
    with(line, value(alloc, "value"))
}

/// The values of a line with two, behind the first word.
pub(crate) fn two_values<'a>(
    alloc: Global,
    words: &'a [String],
) -> Result<(&'a str, &'a str), WordsFault>
    requires plain { IsTrue (has_two_values (map string_bytes words.now)) }
    ensures first { IfOk result (λ v. slice_get (map string_bytes words.now) 1 ≡ Some v.0.now) }
    ensures second { IfOk result (λ v. slice_get (map string_bytes words.now) 2 ≡ Some v.1.now) }
    ensures memory { IfErr result (λ fault. fault ≡ OutOfMemory) }
{
    let matches = parsed(two_values_line(alloc)?, words)?;
    Ok((found(&matches, "first"), found(&matches, "second")))
}

fn two_values_line<'a>(alloc: Global) -> Result<Line<'a>, WordsFault>
    ensures line { IfOk result (λ line. app_of line ≡ two_values_line) }
    ensures memory { IfErr result (λ fault. fault ≡ OutOfMemory) }
{
    let line = new_line(alloc);
    let first = with(line, value(alloc, "first"))?;
    with(first, value(alloc, "second"))
}

// The value that was found under this name.
fn found<'a>(matches: &ArgMatches<'a>, name: &str) -> &'a str
    requires { IsSome (first_value (found_of matches.now) name.now) }
    ensures { first_value (found_of matches.now) name.now ≡ Some result.now }
{
    match matches.get_str(name) {
        Some(value) => value,
        None => unreachable!(),
    }
}

// A line without the flag for help. Its first word is passed over.
fn new_line<'a>(alloc: Global) -> Line<'a>
    ensures { app_of result ≡ new_line }
{
    Line::new(alloc, "line").disable_help_flag(true)
}

fn option<'a>(alloc: Global, name: &'a str) -> Arg<'a>
    ensures rule { rule_of result ≡ option_rule name.entry.now }
    ensures local { result.global ≡ false }
{
    Arg::new(alloc, name).long(name).action(ArgAction::Set)
}

fn value<'a>(alloc: Global, name: &'a str) -> Arg<'a>
    ensures rule { rule_of result ≡ value_rule name.entry.now }
    ensures local { result.global ≡ false }
{
    Arg::new(alloc, name).required(true).action(ArgAction::Set)
}

// The line with this option or value behind the others.
fn with<'a>(line: Line<'a>, arg: Arg<'a>) -> Result<Line<'a>, WordsFault>
    requires local { arg.global ≡ false }
    ensures line { IfOk result (λ more. app_of more ≡ with_rule (app_of line.entry) (rule_of arg.entry)) }
    ensures memory { IfErr result (λ fault. fault ≡ OutOfMemory) }
{
    match line.arg(arg) {
        Ok(line) => Ok(line),
        Err(_) => Err(WordsFault::OutOfMemory),
    }
}

// What clap reads of words that the line takes. It fails only for want of memory.
fn parsed<'a>(line: Line<'a>, words: &'a [String]) -> Result<ArgMatches<'a>, WordsFault>
    requires taken { takes (app_of line) (map string_bytes words.now) ≡ true }
    ensures matches { IfOk result (HasMatchesOf (app_of line.entry) (map string_bytes words.now)) }
    ensures memory { IfErr result (λ fault. fault ≡ OutOfMemory) }
{
    match line.try_get_matches_from(words) {
        Ok(matches) => Ok(matches),
        Err(fault) => match fault.kind() {
            ErrorKind::OutOfMemory => Err(WordsFault::OutOfMemory),
            _ => unreachable!(),
        },
    }
}
