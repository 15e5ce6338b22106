//! The text of an answer, whole.
ghost use Rattle.std.specs.Prelude.{◌≡◌, [], ◌++◌, IfOk, IsAscii, codes, length};
ghost use Rattle.std.specs.List.{flat_map};
ghost use Rattle.bd_model.specs.Texts.{answer_text, damage_text, version_text, line, named};
ghost use Rattle.bd_model.specs.declared.answer.Answer.TheVariants.{Scrubbed, Soaked};

use crate::answer::short_line;
use crate::damage::damage_line;
use crate::line::Line;
use bd_marks::Text;
use bd_model::{Answer, Mark, ScrubReport, VersionLine};
use std::alloc::{AllocError as OutOfMemory, Global};

/// The text of an answer. It takes memory for its bytes alone.
pub fn answer_text(alloc: Global, answer: &Answer) -> Result<Text, OutOfMemory>
    ensures { IfOk result (λ text. text ≡ answer_text answer.now) }
{
    Ok(text_of(answer_bytes(alloc, answer)?))
}

fn text_of(bytes: Vec<u8>) -> Text
    requires { IsAscii bytes.items }
    ensures { result ≡ bytes.items }
{
    match String::from_utf8(bytes) {
        Ok(text) => Text::new(text),
        Err(_) => unreachable!(),
    }
}

fn answer_bytes(alloc: Global, answer: &Answer) -> Result<Vec<u8>, OutOfMemory>
    ensures { IfOk result (λ text. text.items ≡ answer_text answer.now) }
{
    if let Some(line) = short_line(answer) {
        return Vec::from_slice(alloc, line.bytes());
    }
    match answer {
        Answer::Scrubbed { report } => report_bytes(alloc, report),
        Answer::Listed { lines } => list_bytes(alloc, lines.as_slice()),
        Answer::Soaked {
            seed,
            versions,
            bytes,
            chunks,
            fresh,
            owned,
            last,
        } => {
            let line = soaked(*seed, *versions, *bytes, *chunks, *fresh, *owned, last);
            Vec::from_slice(alloc, line.bytes())
        }
        _ => unreachable!(),
    }
}

fn report_bytes(alloc: Global, report: &ScrubReport) -> Result<Vec<u8>, OutOfMemory>
    ensures { IfOk result (λ text. text.items ≡ answer_text (Scrubbed report.now)) }
{
    let mut text = Vec::from_slice(
        alloc,
        scrubbed(report.records, report.entries, report.damaged).bytes(),
    )?;
    for damage in report.findings.as_slice() {
        text.extend_from_slice(damage_line(damage).bytes())?;
    }
    Ok(text)
}

fn list_bytes(alloc: Global, versions: &[VersionLine]) -> Result<Vec<u8>, OutOfMemory>
    ensures { IfOk result (λ text. text.items
        ≡ flat_map version_text versions.now ++ line (named [] (length versions.now) ++ codes " versions")) }
{
    let mut text = Vec::new(alloc);
    for version in versions {
        text.extend_from_slice(version_line(version).bytes())?;
    }
    text.extend_from_slice(how_many(versions.len() as u64).bytes())?;
    Ok(text)
}

fn scrubbed(records: u64, entries: u64, damaged: u64) -> Line
    ensures { result
        ≡ line (named (codes "scrub: ") records ++ named (codes " records, ") entries ++ named (codes " entries, ") damaged ++ codes " damaged") }
{
    let mut line = Line::new();
    line.push_named(b"scrub: ", records);
    line.push_named(b" records, ", entries);
    line.push_named(b" entries, ", damaged);
    line.push_text(b" damaged");
    line.push_line_end();
    line
}

fn version_line(version: &VersionLine) -> Line
    ensures { result ≡ version_text version.now }
{
    let mut line = Line::new();
    line.push_number(u64::from(version.version));
    line.push_named(b" ", version.bytes);
    line.push_named(b" ", version.chunks);
    line.push_named(b" ", version.fresh);
    line.push_line_end();
    line
}

fn how_many(versions: u64) -> Line
    ensures { result ≡ line (named [] versions ++ codes " versions") }
{
    let mut line = Line::new();
    line.push_number(versions);
    line.push_text(b" versions");
    line.push_line_end();
    line
}

fn soaked(
    seed: u64,
    versions: u32,
    bytes: u64,
    chunks: u64,
    fresh: u64,
    owned: u64,
    last: &Mark,
) -> Line
    ensures { result ≡ answer_text (Soaked seed versions bytes chunks fresh owned last.now) }
{
    let mut line = Line::new();
    line.push_named(b"soak ", seed);
    line.push_named(b": ", u64::from(versions));
    line.push_named(b" versions, ", bytes);
    line.push_named(b" bytes, ", chunks);
    line.push_named(b" chunks, ", fresh);
    line.push_named(b" new, ", owned);
    line.push_text(b" owned, last ");
    line.push_mark(last);
    line.push_line_end();
    line
}
