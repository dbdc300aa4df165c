//! The lines of a whole text, as slices of it.
ghost use Rattle.std.specs.Prelude.{◌≡◌, ◌+◌, ◌==◌, ◌<◌, ◌++◌, ◌∷◌, ◌^◌, [], All, false, length, MatchOption};
ghost use Rattle.std.specs.Str.Lines.{lines, strip_carriage_return};

use crate::scan::{place_far, place_near};
use std::marker::Model;

/// The bytes before the first `byte`, and the bytes after it.
pub fn cut(text: &[u8], byte: u8) -> Option<(&[u8], &[u8])>
    ensures { MatchOption result (All (λ b. (b == byte) ≡ false) text.now)
        (λ p. (text.now ≡ p.0.now ++ byte ∷ p.1.now) × All (λ b. (b == byte) ≡ false) p.0.now) }
{
    let at = place_far(text, byte);
    if at == text.len() {
        return None;
    }
    Some((&text[..at], &text[at + 1..]))
}

/// The same, for a `byte` that is likely to be near.
pub fn cut_near(text: &[u8], byte: u8) -> Option<(&[u8], &[u8])>
    ensures { MatchOption result (All (λ b. (b == byte) ≡ false) text.now)
        (λ p. (text.now ≡ p.0.now ++ byte ∷ p.1.now) × All (λ b. (b == byte) ≡ false) p.0.now) }
{
    let at = place_near(text, byte);
    if at == text.len() {
        return None;
    }
    Some((&text[..at], &text[at + 1..]))
}

/// A line without the one carriage return at its end.
pub fn without_return(line: &[u8]) -> &[u8]
    ensures { result.now ≡ strip_carriage_return line.now }
{
    let n = line.len();
    if n > 0 && line[n - 1] == b'\r' {
        &line[..n - 1]
    } else {
        line
    }
}

/// The first line of a text without its end, LF or CRLF, and the text after it. `None` where there is no line.
pub fn first_line(text: &[u8]) -> Option<(&[u8], &[u8])>
    ensures line { MatchOption result (lines text.now ≡ []) (λ p. lines text.now ≡ p.0.now ∷ lines p.1.now) }
    ensures shorter { MatchOption result (length text.now ≡ 0) (λ p. length p.1.now < length text.now) }
{
    if text.is_empty() {
        return None;
    }
    match cut(text, b'\n') {
        Some((line, rest)) => Some((without_return(line), rest)),
        None => Some((text, &text[text.len()..])),
    }
}

/// A line without its end, and its number, counted from 1.
#[derive(Clone, Copy)]
pub struct Line<'t> {
    pub number: u64,
    pub bytes: &'t [u8],
}

/// The lines of a text that are left. A line ends with LF or CRLF; the last may lack its end.
#[derive(Drop)]
pub struct Lines<'t> {
    rest: &'t [u8],
    number: u64,
}

impl<'t> Model for Lines<'t> {
    ghost use Rattle.std.specs.Prelude.{◌+◌, ◌<◌, ◌^◌, length};
    ghost use Rattle.std.specs.Str.Lines.{lines};
    ghost use Rattle.field_text.specs.Lines.{LinesLeft};

    ghost Value = { LinesLeft };

    ghost view = { λ a. record { number = a.number; left = lines a.rest.now } };

    ghost invariant = { λ a. a.number + length a.rest.now < 2 ^ 63 };
}

impl<'t> Lines<'t> {
    pub fn new(text: &'t [u8]) -> Lines<'t>
        ensures number { result.number ≡ 0 }
        ensures left { result.left ≡ lines text.now }
    {
        Lines {
            rest: text,
            number: 0,
        }
    }

    /// The next line. `None` at the end.
    pub fn next_line(&mut self) -> Option<Line<'t>>
        ensures line { MatchOption result ((self.old.left ≡ []) × (self.new.left ≡ [])) (λ line. self.old.left ≡ line.bytes.now ∷ self.new.left) }
        ensures number { MatchOption result (self.new.number ≡ self.old.number)
            (λ line. (line.number ≡ self.old.number + 1) × (self.new.number ≡ line.number)) }
    {
        let Some((bytes, rest)) = first_line(self.rest) else {
            return None;
        };
        self.rest = rest;
        self.number += 1;
        Some(Line {
            number: self.number,
            bytes,
        })
    }
}
