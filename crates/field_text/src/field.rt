//! The fields of a line, as slices of it.
ghost use Rattle.std.specs.Prelude.{◌≡◌, ◌+◌, ◌∷◌, [], ◌<◌, drop, get_or, length, MatchOption};
ghost use Rattle.std.specs.List.{slice_get};
ghost use Rattle.std.specs.Option.{option_copied};
ghost use Rattle.field_text.specs.claim.Fields.{fields};

use crate::line::cut_near;
use crate::scan::count_bars;
use std::marker::Model;

/// How many fields a line has.
pub fn count_fields(line: &[u8]) -> usize
    ensures { result ≡ length (fields line.now) }
{
    count_bars(line) + 1
}

/// The fields of a line that are left. A line without bytes has one field, which is empty.
#[derive(Drop)]
pub struct Fields<'t> {
    rest: &'t [u8],
    is_over: bool,
}

impl<'t> Model for Fields<'t> {
    ghost use Rattle.std.specs.Prelude.{List, [], ℕ, if◌then◌else◌};
    ghost use Rattle.field_text.specs.claim.Fields.{fields};

    ghost Value = { List (List ℕ) };

    ghost view = { λ a. if a.is_over then [] else fields a.rest.now };
}

impl<'t> Fields<'t> {
    pub fn new(line: &'t [u8]) -> Fields<'t>
        ensures { result ≡ fields line.now }
    {
        Fields {
            rest: line,
            is_over: false,
        }
    }

    /// The next field. `None` at the end.
    pub fn next_field(&mut self) -> Option<&'t [u8]>
        ensures { MatchOption result ((self.old ≡ []) × (self.new ≡ [])) (λ field. self.old ≡ field.now ∷ self.new) }
    {
        if self.is_over {
            return None;
        }
        match cut_near(self.rest, b'|') {
            Some((field, rest)) => {
                self.rest = rest;
                Some(field)
            }
            None => {
                self.is_over = true;
                Some(self.rest)
            }
        }
    }

    /// The field after `skipped` others, which are passed over.
    pub fn nth_field(&mut self, skipped: usize) -> Option<&'t [u8]>
        ensures field { option_copied result ≡ slice_get self.old skipped }
        ensures rest { self.new ≡ drop (skipped + 1) self.old }
    {
        for _ in 0..skipped {
            self.next_field()?;
        }
        self.next_field()
    }

    /// The same where there is such a field.
    pub fn field_after(&mut self, skipped: usize) -> &'t [u8]
        requires { skipped < length self.old }
        ensures field { result.now ≡ get_or self.old skipped [] }
        ensures rest { self.new ≡ drop (skipped + 1) self.old }
        ensures left { length self.new + (skipped + 1) ≡ length self.old }
    {
        match self.nth_field(skipped) {
            Some(field) => field,
            None => unreachable!(),
        }
    }
}
