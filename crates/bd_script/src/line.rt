//! Short texts without memory.
ghost use Rattle.std.specs.Prelude.{◌≡◌, ◌+◌, ◌≤◌, ◌↔◌, [], ◌∷◌, ◌++◌, length, decimal, IsTrue};
ghost use Rattle.bd_model.specs.Texts.{line, named, hex};

use bd_model::Mark;
use itoa::Buffer;
use std::marker::Model;

/// How many bytes a line has room for.
const ROOM: usize = 256;

/// A short text that takes no memory, seen as its bytes. It has room for 256 of them.
#[derive(Drop)]
pub struct Line {
    text: [u8; ROOM],
    used: usize,
}

impl Model for Line {
    ghost use Rattle.std.specs.Prelude.{List, ℕ, ◌≤◌, take};

    ghost Value = { List ℕ };

    ghost view = { λ l. take l.used l.text };

    ghost invariant = { λ l. l.used ≤ 256 };
}

impl Line {
    /// The line with no bytes yet.
    pub fn new() -> Line
        ensures { result ≡ [] }
    {
        Line {
            text: [0; ROOM],
            used: 0,
        }
    }

    /// A text with its line feed.
    pub fn whole(text: &[u8]) -> Line
        requires { length text.now + 1 ≤ 256 }
        ensures { result ≡ line text.now }
    {
        let mut line = Line::new();
        line.push_text(text);
        line.push_line_end();
        line
    }

    /// The bytes so far.
    pub fn bytes(&self) -> &[u8]
        ensures value { result.now ≡ self.now }
        ensures short { length result.now ≤ 256 }
    {
        &self.text[..self.used]
    }

    /// How many bytes the line has.
    pub fn len(&self) -> usize
        ensures value { result ≡ length self.now }
        ensures short { result ≤ 256 }
    {
        self.used
    }

    /// Whether there is no byte.
    pub fn is_empty(&self) -> bool
        ensures { IsTrue result ↔ (self.now ≡ []) }
    {
        self.used == 0
    }

    /// Puts a text behind the bytes so far.
    pub fn push_text(&mut self, text: &[u8])
        requires { length self.old + length text.now ≤ 256 }
        ensures { self.new ≡ self.old ++ text.now }
    {
        let end = self.used + text.len();
        self.text[self.used..end].copy_from_slice(text);
        self.used = end;
    }

    /// Puts a number in decimal digits, with no zeros before it.
    pub fn push_number(&mut self, number: u64)
        requires { length self.old + 20 ≤ 256 }
        ensures text { self.new ≡ self.old ++ decimal number }
        ensures short { length self.new ≤ length self.old + 20 }
    {
        let mut digits = Buffer::new();
        self.push_text(digits.format(number).as_bytes());
    }

    /// Puts words, and the number that they announce.
    pub fn push_named(&mut self, word: &[u8], number: u64)
        requires { length self.old + length word.now + 20 ≤ 256 }
        ensures text { self.new ≡ self.old ++ named word.now number }
        ensures short { length self.new ≤ length self.old + length word.now + 20 }
    {
        self.push_text(word);
        self.push_number(number);
    }

    /// Puts a fingerprint as 64 lower case hexadecimal digits.
    pub fn push_mark(&mut self, mark: &Mark)
        requires { length self.old + 64 ≤ 256 }
        ensures text { self.new ≡ self.old ++ hex mark.now }
        ensures short { length self.new ≡ length self.old + 64 }
    {
        self.push_text(&digits_of(mark));
    }

    /// Puts the line feed.
    pub fn push_line_end(&mut self)
        requires { length self.old + 1 ≤ 256 }
        ensures { self.new ≡ self.old ++ 10 ∷ [] }
    {
        self.push_text(b"\n");
    }
}

fn digits_of(mark: &Mark) -> [u8; 64]
    ensures { result ≡ hex mark.now }
{
    let mut digits = [0; 64];
    let _ = hex::encode_to_slice(&mark.0, &mut digits);
    digits
}
