//! The head and the code of a line, which are mostly nearly or quite those of the line before.
ghost use Rattle.std.specs.Prelude.{◌≡◌, ◌≤◌, ℕ, length, take, IsTrue, Some, MatchOption, IfSome};
ghost use Rattle.field_text.specs.claim.Digits.{number_of_digits};
ghost use Rattle.baf_text.specs.Prefix.{HasHead, HasCode};

use crate::row::{ID_DIGITS, code_number, head_of};
use desk_model::block::BlockId;
use field_text::line::{cut_near, without_return};
use std::marker::Model;

/// Whether two slices of one length are equal. Each byte is compared, without a branch: for a length that is known.
#[inline(always)]
fn is_same(one: &[u8], other: &[u8]) -> bool
    requires { length one.now ≡ length other.now }
    ensures { IsTrue result → one.now ≡ other.now }
{
    let mut same = true;
    for k in 0..one.len() {
        same &= one[k] == other[k];
    }
    same
}

/// The first 13 digits of a block's number. The next block's has mostly the same.
#[derive(Drop)]
pub struct LastHead {
    digits: [u8; 13],
    /// The least number that begins with them.
    hundreds: u64,
}

// Clauses see the digits.
impl Model for LastHead {
    ghost use Rattle.std.specs.Prelude.{List, ℕ};
    ghost use Rattle.baf_text.specs.Prefix.{HasHundreds};

    ghost Value = { List ℕ };

    ghost view = { λ a. a.digits };

    ghost invariant = { λ a. HasHundreds a.digits a.hundreds };
}

impl LastHead {
    /// That of block 0.
    pub fn new() -> LastHead {
        LastHead {
            digits: [b'0'; 13],
            hundreds: 0,
        }
    }

    /// The number with which a text begins, where it begins with these digits.
    fn number_of(&self, text: &[u8]) -> Option<u64>
        requires { 15 ≤ length text.now }
        ensures { IfSome result (λ number. number_of_digits 15 (take 15 text.now) ≡ Some number) }
    {
        let tens = text[13];
        let ones = text[14];
        if tens.is_ascii_digit() && ones.is_ascii_digit() && is_same(&text[..13], &self.digits) {
            Some(self.hundreds + (tens - b'0') as u64 * 10 + (ones - b'0') as u64)
        } else {
            None
        }
    }

    /// Keeps the digits with which a text begins.
    fn keep(&mut self, text: &[u8], id: BlockId)
        requires { HasHead text.now id }
    {
        self.digits.copy_from_slice(&text[..13]);
        self.hundreds = id.number() / 100 * 100;
    }

    /// The block with whose number and a bar a text begins.
    pub fn head_of(&mut self, text: &[u8]) -> Option<BlockId>
        ensures { MatchOption result ((block : ℕ) → ¬ HasHead text.now block) (λ block. HasHead text.now block) }
    {
        if text.len() <= ID_DIGITS || text[ID_DIGITS] != b'|' {
            return None;
        }
        if let Some(number) = self.number_of(text) {
            return Some(BlockId::from_number(number));
        }
        match head_of(text) {
            Some(id) => {
                self.keep(text, id);
                Some(id)
            }
            None => None,
        }
    }
}

/// A code with the end of its line, and the number that it writes. The next line has mostly the same.
#[derive(Drop)]
pub struct LastCode<'t> {
    code: &'t [u8],
    number: Option<u16>,
}

// Clauses see the bytes.
impl<'t> Model for LastCode<'t> {
    ghost use Rattle.std.specs.Prelude.{List, [], ℕ};
    ghost use Rattle.baf_text.specs.Prefix.{HasCode};

    ghost Value = { List ℕ };

    ghost view = { λ a. a.code.now };

    ghost invariant = { λ a. HasCode a.code.now a.number [] };
}

/// Whether a text begins with a code. For the usual lengths, with the end of the line, that takes few instructions.
fn begins_with(text: &[u8], code: &[u8]) -> bool
    ensures long { IsTrue result → length code.now ≤ length text.now }
    ensures same { IsTrue result → take (length code.now) text.now ≡ code.now }
{
    match code.len() {
        3 => text.len() >= 3 && is_same(&text[..3], &code[..3]),
        4 => text.len() >= 4 && is_same(&text[..4], &code[..4]),
        5 => text.len() >= 5 && is_same(&text[..5], &code[..5]),
        _ => text.starts_with(code),
    }
}

impl<'t> LastCode<'t> {
    /// No code, which an unassigned block has.
    pub fn new() -> LastCode<'t> {
        LastCode {
            code: b"\n",
            number: None,
        }
    }

    /// The code with which a text begins, and what is after its line. `None` says nothing of the text.
    fn parsed(&mut self, text: &'t [u8]) -> Option<(Option<u16>, &'t [u8])>
        ensures { IfSome result (λ code. HasCode text.now code.0 code.1.now) }
    {
        let Some((code, rest)) = cut_near(text, b'\n') else {
            return None;
        };
        match code_number(without_return(code)) {
            Some(number) => {
                self.code = &text[..code.len() + 1];
                self.number = number;
                Some((number, rest))
            }
            None => None,
        }
    }

    /// The same, where the code is mostly this one.
    pub fn code_of(&mut self, text: &'t [u8]) -> Option<(Option<u16>, &'t [u8])>
        ensures { IfSome result (λ code. HasCode text.now code.0 code.1.now) }
    {
        if begins_with(text, self.code) {
            return Some((self.number, &text[self.code.len()..]));
        }
        self.parsed(text)
    }
}
