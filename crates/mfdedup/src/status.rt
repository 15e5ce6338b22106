//! Exit statuses and last lines.
ghost use Rattle.std.specs.Prelude.{◌≡◌, ◌≤◌, ◌+◌, ◌++◌, length};
ghost use Rattle.std.specs.List.{list_any};
ghost use Rattle.bd_model.specs.Texts.{line, named};
ghost use Rattle.mfdedup.specs.Statuses.{end_text, field_text, finds_damage, is_refusal, place_text, status_of};
ghost use Rattle.mfdedup.specs.declared.report.End.TheVariants.{Done, TooSmall};

use crate::report::End;
use bd_model::{Answer, Answers, Field, Place};
use bd_script::{Line, damage_line};

/// The status for the system.
pub fn status_of(end: &End, answers: &Answers) -> u8
    ensures { result ≡ status_of end.now answers.now.items }
{
    match end {
        End::Done => status_of_answers(answers.as_slice()),
        End::AlreadyAStore | End::TooSmall { .. } => 1,
        End::BadWords
        | End::BadNumber { .. }
        | End::BadName
        | End::BadShape { .. }
        | End::LongScript
        | End::BadLine { .. }
        | End::Unbuilt => 2,
        End::DiskFault | End::Damaged { .. } | End::NotAStore { .. } => 3,
        End::SourceFault | End::TargetFault | End::OutputFault => 4,
        End::OutOfMemory => 5,
    }
}

fn status_of_answers(answers: &[Answer]) -> u8
    ensures { result ≡ status_of Done answers.now }
{
    if some_damage(answers) {
        return 3;
    }
    if some_refusal(answers) {
        return 1;
    }
    0
}

fn some_damage(answers: &[Answer]) -> bool
    ensures { result ≡ list_any finds_damage answers.now }
{
    answers.iter().any(|answer| finds_damage(answer))
}

fn some_refusal(answers: &[Answer]) -> bool
    ensures { result ≡ list_any is_refusal answers.now }
{
    answers.iter().any(|answer| is_refusal(answer))
}

fn is_refusal(answer: &Answer) -> bool
    ensures { result ≡ is_refusal answer.now }
{
    matches!(
        answer,
        Answer::FullNumbers
            | Answer::FullVersions { .. }
            | Answer::FullExtents { .. }
            | Answer::NoVersion { .. }
            | Answer::NothingRetained { .. }
    )
}

fn finds_damage(answer: &Answer) -> bool
    ensures { result ≡ finds_damage answer.now }
{
    match answer {
        Answer::Scrubbed { report } => report.damaged > 0,
        _ => false,
    }
}

/// The line of an end; no byte where it has none.
pub fn end_line(end: &End) -> Line
    ensures { result ≡ end_text end.now }
{
    match end {
        End::Done | End::OutputFault => Line::new(),
        End::BadWords => whole_line(b"bad words"),
        End::BadNumber { position } => numbered(b"bad number: ", u64::from(*position)),
        End::BadName => whole_line(b"bad name"),
        End::BadShape { field } => worded(b"bad shape: ", field_text(field)),
        End::LongScript => whole_line(b"script too long"),
        End::BadLine { number } => numbered(b"bad line ", *number),
        End::AlreadyAStore => whole_line(b"already a store"),
        End::TooSmall { need, have } => too_small(*need, *have),
        End::NotAStore { place } => worded(b"not a store: ", place_text(place)),
        End::DiskFault => whole_line(b"disk fault"),
        End::Damaged { damage } => damage_line(damage),
        End::SourceFault => whole_line(b"source fault"),
        End::TargetFault => whole_line(b"target fault"),
        End::OutOfMemory => whole_line(b"out of memory"),
        End::Unbuilt => whole_line(b"unbuilt"),
    }
}

fn whole_line(text: &[u8]) -> Line
    requires { length text.now ≤ 100 }
    ensures { result ≡ line text.now }
{
    let mut line = Line::new();
    line.push_text(text);
    line.push_line_end();
    line
}

fn numbered(word: &[u8], number: u64) -> Line
    requires { length word.now ≤ 100 }
    ensures { result ≡ line (named word.now number) }
{
    let mut line = Line::new();
    line.push_named(word, number);
    line.push_line_end();
    line
}

fn worded(word: &[u8], text: &[u8]) -> Line
    requires { length word.now + length text.now ≤ 100 }
    ensures { result ≡ line (word.now ++ text.now) }
{
    let mut line = Line::new();
    line.push_text(word);
    line.push_text(text);
    line.push_line_end();
    line
}

fn too_small(need: u64, have: u64) -> Line
    ensures { result ≡ end_text (TooSmall need have) }
{
    let mut line = Line::new();
    line.push_named(b"too small: need ", need);
    line.push_named(b", have ", have);
    line.push_line_end();
    line
}

fn place_text(place: &Place) -> &'static [u8]
    ensures text { result.now ≡ place_text place.now }
    ensures short { length result.now ≤ 10 }
{
    match place {
        Place::Short => b"short",
        Place::Gate => b"gate",
        Place::Magic => b"magic",
        Place::Number => b"number",
        Place::Shape => b"shape",
        Place::Padding => b"padding",
        Place::Room => b"room",
        Place::Halves => b"halves",
        Place::Payload => b"payload",
        Place::Log => b"log",
    }
}

fn field_text(field: &Field) -> &'static [u8]
    ensures text { result.now ≡ field_text field.now }
    ensures short { length result.now ≤ 10 }
{
    match field {
        Field::Extent => b"extent",
        Field::Extents => b"extents",
        Field::Retain => b"retain",
        Field::Min => b"min",
        Field::Bits => b"bits",
        Field::Max => b"max",
    }
}
