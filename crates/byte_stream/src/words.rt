//! The words of a text, as slices of it: the parts between spaces, tabs, carriage returns and line feeds.
ghost use Rattle.std.specs.Prelude.{◌≡◌, ◌<◌, ◌≤◌, ◌∷◌, [], true, false, length, take, slice_index, MatchOption, IfSome};
ghost use Rattle.byte_stream.specs.claim.Words.{is_separator, words, AreSeparators, NoSeparator};
ghost use Rattle.byte_stream.specs.Words.{IsWord};

use std::marker::Model;

/// Returns whether a byte separates words.
#[tactic(auto, unfolding(crate::specs::claim::Words::is_separator))]
pub fn is_separator(b: u8) -> bool
    ensures { result ≡ is_separator b }
{
    b == b' ' || b == b'\t' || b == b'\r' || b == b'\n'
}

/// How many separators a text begins with.
pub fn separators_before(text: &[u8]) -> usize
    ensures within { result ≤ length text.now }
    ensures before { AreSeparators (take result text.now) }
    ensures ends { result < length text.now → is_separator (slice_index text.now result) ≡ false }
{
    for (i, b) in text.iter().enumerate() {
        if !is_separator(*b) {
            return i;
        }
    }
    text.len()
}

/// Returns the number of bytes before the first separator of a text.
pub fn bytes_before(text: &[u8]) -> usize
    ensures within { result ≤ length text.now }
    ensures before { NoSeparator (take result text.now) }
    ensures ends { result < length text.now → is_separator (slice_index text.now result) ≡ true }
{
    for (i, b) in text.iter().enumerate() {
        if is_separator(*b) {
            return i;
        }
    }
    text.len()
}

/// The words of a text that are left.
#[derive(Drop)]
pub struct Words<'t> {
    rest: &'t [u8],
}

impl<'t> Model for Words<'t> {
    ghost use Rattle.std.specs.Prelude.{List, ℕ};
    ghost use Rattle.byte_stream.specs.claim.Words.{words};

    ghost Value = { List (List ℕ) };

    ghost view = { λ a. words a.rest.now };
}

impl<'t> Words<'t> {
    pub fn new(text: &'t [u8]) -> Words<'t>
        ensures { result ≡ words text.now }
    {
        Words { rest: text }
    }

    /// The next word. `None` at the end.
    pub fn next_word(&mut self) -> Option<&'t [u8]>
        ensures word { MatchOption result ((self.old ≡ []) × (self.new ≡ [])) (λ word. self.old ≡ word.now ∷ self.new) }
        ensures is { IfSome result (λ word. IsWord word.now) }
    {
        let prefix = &self.rest[separators_before(self.rest)..];
        let len = bytes_before(prefix);
        self.rest = &prefix[len..];
        if len == 0 {
            return None;
        }
        Some(&prefix[..len])
    }
}
