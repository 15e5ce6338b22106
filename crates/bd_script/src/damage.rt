//! The line of a damage.
ghost use Rattle.std.specs.Prelude.{◌≡◌, ◌+◌, ◌≤◌, ◌++◌, length};
ghost use Rattle.bd_model.specs.Texts.{damage_text, owner_text};
ghost use Rattle.bd_model.specs.declared.damage.Damage.{Damage};
ghost use Rattle.bd_model.specs.declared.damage.Damage.TheVariants.{Entry, Sum, Header, Row, Body, Length, Missing};

use crate::line::Line;
use bd_model::{Damage, Mark, Owner};

/// The line that tells of a damage.
pub fn damage_line(damage: &Damage) -> Line
    ensures { result ≡ damage_text damage.now }
{
    match damage {
        Damage::Entry {
            version,
            index,
            length,
            start,
        } => entry(*version, *index, *length, *start),
        Damage::Sum {
            version,
            recorded,
            found,
        } => sum(*version, *recorded, *found),
        Damage::Header {
            owner,
            at,
            length,
            left,
        } => header(owner, *at, *length, *left),
        Damage::Row {
            owner,
            start,
            recorded,
            found,
        } => row(owner, *start, *recorded, *found),
        Damage::Body {
            owner,
            at,
            recorded,
            found,
        } => body(owner, *at, recorded, found),
        Damage::Length {
            version,
            mark,
            recorded,
            found,
        } => other_length(*version, mark, *recorded, *found),
        Damage::Missing {
            version,
            index,
            mark,
        } => missing(*version, *index, mark),
    }
}

fn push_owner(line: &mut Line, owner: &Owner)
    requires { length line.old + 27 ≤ 256 }
    ensures text { line.new ≡ line.old ++ owner_text owner.now }
    ensures short { length line.new ≤ length line.old + 27 }
{
    match owner {
        Owner::Volume(last) => line.push_named(b"volume ", u64::from(*last)),
        Owner::Active(first) => line.push_named(b"open ", u64::from(*first)),
    }
}

fn entry(version: u32, index: u64, length: u32, start: u32) -> Line
    ensures { result ≡ damage_text (Entry version index length start) }
{
    let mut line = Line::new();
    line.push_named(b"damaged entry: version ", u64::from(version));
    line.push_named(b" index ", index);
    line.push_named(b", length ", u64::from(length));
    line.push_named(b", start ", u64::from(start));
    line.push_line_end();
    line
}

fn sum(version: u32, recorded: u64, found: u64) -> Line
    ensures { result ≡ damage_text (Sum version recorded found) }
{
    let mut line = Line::new();
    line.push_named(b"damaged sum: version ", u64::from(version));
    line.push_named(b", recorded ", recorded);
    line.push_named(b", found ", found);
    line.push_line_end();
    line
}

fn header(owner: &Owner, at: u64, length: u32, left: u64) -> Line
    ensures { result ≡ damage_text (Header owner.now at length left) }
{
    let mut line = Line::new();
    line.push_text(b"damaged header: ");
    push_owner(&mut line, owner);
    line.push_named(b" at ", at);
    line.push_named(b", length ", u64::from(length));
    line.push_named(b", left ", left);
    line.push_line_end();
    line
}

fn row(owner: &Owner, start: u32, recorded: u64, found: u64) -> Line
    ensures { result ≡ damage_text (Row owner.now start recorded found) }
{
    let mut line = Line::new();
    line.push_text(b"damaged row: ");
    push_owner(&mut line, owner);
    line.push_named(b" start ", u64::from(start));
    line.push_named(b", recorded ", recorded);
    line.push_named(b", found ", found);
    line.push_line_end();
    line
}

fn body(owner: &Owner, at: u64, recorded: &Mark, found: &Mark) -> Line
    ensures { result ≡ damage_text (Body owner.now at recorded.now found.now) }
{
    let mut line = Line::new();
    line.push_text(b"damaged body: ");
    push_owner(&mut line, owner);
    line.push_named(b" at ", at);
    line.push_text(b", recorded ");
    line.push_mark(recorded);
    line.push_text(b", found ");
    line.push_mark(found);
    line.push_line_end();
    line
}

fn other_length(version: u32, mark: &Mark, recorded: u32, found: u32) -> Line
    ensures { result ≡ damage_text (Length version mark.now recorded found) }
{
    let mut line = Line::new();
    line.push_named(b"damaged length: version ", u64::from(version));
    line.push_text(b", mark ");
    line.push_mark(mark);
    line.push_named(b", recorded ", u64::from(recorded));
    line.push_named(b", found ", u64::from(found));
    line.push_line_end();
    line
}

fn missing(version: u32, index: u64, mark: &Mark) -> Line
    ensures { result ≡ damage_text (Missing version index mark.now) }
{
    let mut line = Line::new();
    line.push_named(b"missing chunk: version ", u64::from(version));
    line.push_named(b" index ", index);
    line.push_text(b", mark ");
    line.push_mark(mark);
    line.push_line_end();
    line
}
