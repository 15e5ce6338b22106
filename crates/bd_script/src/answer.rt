//! The lines of answers.
ghost use Rattle.std.specs.Prelude.{◌≡◌, ◌≤◌, ◌↔◌, take, IsTrue, IsNone, IfSome};
ghost use Rattle.bd_model.specs.Texts.{answer_text, none_text};
ghost use Rattle.bd_model.specs.declared.answer.Answer.TheVariants.{BackedUp, Restored, Expired, Arranged, FullVersions, FullExtents, NoVersion, Blanked};
ghost use Rattle.bd_script.specs.Long.{is_long};

use crate::line::Line;
use bd_model::Answer;

/// Puts the text of an answer at the front, and answers how many bytes it has. It takes no memory. None for a list, the
/// report of a scrub and the end of a run over drawn streams.
pub fn short_text(answer: &Answer, into: &mut [u8; 256]) -> Option<usize>
    ensures text { IfSome result (λ n. take n into.new ≡ answer_text answer.now) }
    ensures fits { IfSome result (λ n. n ≤ 256) }
    ensures none { IsNone result ↔ IsTrue (is_long answer.now) }
{
    let line = short_line(answer)?;
    let text = line.bytes();
    into[..text.len()].copy_from_slice(text);
    Some(text.len())
}

/// The line of an answer. None for the same answers.
pub fn short_line(answer: &Answer) -> Option<Line>
    ensures text { IfSome result (λ line. line ≡ answer_text answer.now) }
    ensures none { IsNone result ↔ IsTrue (is_long answer.now) }
{
    match answer {
        Answer::BackedUp {
            version,
            bytes,
            chunks,
            fresh,
            need,
        } => Some(backed_up(*version, *bytes, *chunks, *fresh, *need)),
        Answer::Restored { version, bytes } => Some(restored(*version, *bytes)),
        Answer::Expired { version, extents } => Some(expired(*version, *extents)),
        Answer::Arranged { owned, free } => Some(arranged(*owned, *free)),
        Answer::FullNumbers => Some(Line::whole(b"full: numbers")),
        Answer::FullVersions { retained } => Some(full_versions(*retained)),
        Answer::FullExtents {
            counted,
            free,
            held,
        } => Some(full_extents(*counted, *free, *held)),
        Answer::NoVersion {
            asked,
            oldest,
            newest,
        } => Some(no_version(*asked, *oldest, *newest)),
        Answer::NothingRetained { asked } => Some(nothing_retained(*asked)),
        Answer::Formatted => Some(Line::whole(b"formatted")),
        Answer::Blanked { bytes } => Some(blanked(*bytes)),
        Answer::Scrubbed { .. } | Answer::Listed { .. } | Answer::Soaked { .. } => None,
    }
}

fn backed_up(version: u32, bytes: u64, chunks: u64, fresh: u64, need: u64) -> Line
    ensures { result ≡ answer_text (BackedUp version bytes chunks fresh need) }
{
    let mut line = Line::new();
    line.push_named(b"version ", u64::from(version));
    line.push_named(b": ", bytes);
    line.push_named(b" bytes, ", chunks);
    line.push_named(b" chunks, ", fresh);
    line.push_named(b" new, need ", need);
    line.push_line_end();
    line
}

fn restored(version: u32, bytes: u64) -> Line
    ensures { result ≡ answer_text (Restored version bytes) }
{
    let mut line = Line::new();
    line.push_named(b"restored ", u64::from(version));
    line.push_named(b": ", bytes);
    line.push_text(b" bytes");
    line.push_line_end();
    line
}

fn expired(version: u32, extents: u64) -> Line
    ensures { result ≡ answer_text (Expired version extents) }
{
    let mut line = Line::new();
    line.push_named(b"expired ", u64::from(version));
    line.push_named(b": ", extents);
    line.push_text(b" extents");
    line.push_line_end();
    line
}

fn arranged(owned: u64, free: u64) -> Line
    ensures { result ≡ answer_text (Arranged owned free) }
{
    let mut line = Line::new();
    line.push_named(b"arranged: ", owned);
    line.push_named(b" owned, ", free);
    line.push_text(b" free");
    line.push_line_end();
    line
}

fn full_versions(retained: u32) -> Line
    ensures { result ≡ answer_text (FullVersions retained) }
{
    let mut line = Line::new();
    line.push_named(b"full: ", u64::from(retained));
    line.push_text(b" versions");
    line.push_line_end();
    line
}

fn full_extents(counted: u64, free: u64, held: u64) -> Line
    ensures { result ≡ answer_text (FullExtents counted free held) }
{
    let mut line = Line::new();
    line.push_named(b"full: counted ", counted);
    line.push_named(b", free ", free);
    line.push_named(b", held ", held);
    line.push_line_end();
    line
}

fn no_version(asked: u32, oldest: u32, newest: u32) -> Line
    ensures { result ≡ answer_text (NoVersion asked oldest newest) }
{
    let mut line = Line::new();
    line.push_named(b"no version ", u64::from(asked));
    line.push_named(b": retained ", u64::from(oldest));
    line.push_named(b" to ", u64::from(newest));
    line.push_line_end();
    line
}

fn nothing_retained(asked: Option<u32>) -> Line
    ensures { result ≡ none_text asked }
{
    match asked {
        Some(version) => none_retained(version),
        None => Line::whole(b"no version: none retained"),
    }
}

fn none_retained(version: u32) -> Line
    ensures { result ≡ none_text (Some version) }
{
    let mut line = Line::new();
    line.push_named(b"no version ", u64::from(version));
    line.push_text(b": none retained");
    line.push_line_end();
    line
}

fn blanked(bytes: u64) -> Line
    ensures { result ≡ answer_text (Blanked bytes) }
{
    let mut line = Line::new();
    line.push_named(b"blank: ", bytes);
    line.push_text(b" bytes");
    line.push_line_end();
    line
}
