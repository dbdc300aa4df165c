//! The lines of a reader, one at a time, however its bytes are cut; or the words after them.
ghost use Rattle.std.specs.Prelude.{◌≡◌, ◌+◌, ◌-◌, ◌<◌, ◌≤◌, ◌^◌, ◌++◌, ℕ, List, [], true, false, Ok, Err};
ghost use Rattle.std.specs.Prelude.{IfOk, MatchBool, length, take, drop, vec_len, min, nat_lt};
ghost use Rattle.byte_stream.specs.claim.Counts.{counted};
ghost use Rattle.std.specs.List.{slice_range};
ghost use Rattle.std.specs.Str.Lines.{strip_carriage_return};
ghost use Rattle.std.specs.Io.KnownBytes.{Consumes};
ghost use Rattle.byte_stream.specs.Turns.{TurnConsumes, failures_after};
ghost use Rattle.byte_stream.specs.claim.Reading.{NoLineFeed, BeginsWithLine, turn_limit};
ghost use Rattle.byte_stream.specs.Reading.{Gives, number_after, failures_after_step, CountsFrom, Fills};
ghost use Rattle.byte_stream.specs.Words.{GivesWord, failures_after_word, TakesWord, TakesLastWord, number_taken, number_after_word};

use crate::source::{Source, Turn};
use crate::words::{bytes_before, separators_before};
use field_text::line::{cut, without_return};
use std::alloc::{AllocError, Global};
use std::marker::Model;

/// A line has at most this many bytes, its end not counted.
pub const LINE_LIMIT: usize = 65_536;

/// A word has at most this many bytes.
pub const WORD_LIMIT: usize = 64;

/// A reader makes at most this many turns.
pub const TURN_LIMIT: u64 = 4_294_967_296;

const BUFFER_LEN: usize = 262_144;

/// Why no line or word is given.
#[derive(Clone, Copy)]
pub enum ReadFault {
    /// The line is longer than `LINE_LIMIT`, or the word than `WORD_LIMIT`.
    TooLong,
    /// The source failed.
    Failed,
    /// The source was asked `TURN_LIMIT` times.
    TurnLimit,
}

/// How far the lines have come.
#[derive(Clone, Copy)]
pub enum Step {
    /// A line that ends.
    Line,
    /// The last line, which lacks its end.
    LastLine,
    /// There is no further line.
    End,
}

/// How far the words have come.
#[derive(Clone, Copy)]
pub enum WordStep {
    /// A word with a separator after it.
    Word,
    /// The last word, which the end of the text ends.
    LastWord,
    /// There is no further word.
    End,
}

/// What the bytes at hand begin with, after separators.
#[derive(Clone, Copy)]
enum AtHand {
    /// A word with a separator after it.
    Word,
    /// More bytes than a word may have.
    Long,
    /// A part that no separator ends, which may be empty.
    Part,
}

/// Makes room after the bytes from `start` to `end`, and returns where these bytes are then.
fn make_room(buffer: &mut Vec<u8>, start: usize, end: usize) -> (usize, usize)
    requires order { start ≤ end }
    requires within { end ≤ vec_len buffer.old }
    requires some { end - start < vec_len buffer.old }
    ensures order { result.0 ≤ result.1 }
    ensures room { result.1 < vec_len buffer.new }
    ensures len { vec_len buffer.new ≡ vec_len buffer.old }
    ensures count { result.1 - result.0 ≡ end - start }
    ensures same { slice_range buffer.new.items result.0 result.1 ≡ slice_range buffer.old.items start end }
{
    if end < buffer.len() {
        return (start, end);
    }
    buffer.copy_within(start..end, 0);
    (0, end - start)
}

/// One turn of the source, into the buffer from `end` on.
fn read_after<R: Source>(reader: &mut R, buffer: &mut [u8], end: usize) -> Turn
    requires { end < length buffer.old }
    ensures prefix { take end buffer.new ≡ take end buffer.old }
    ensures bytes { TurnConsumes (R.remaining reader.old) (R.remaining reader.new) result (drop end buffer.new) }
    ensures turns { R.turns reader.new ≡ counted (R.turns reader.old) 1 }
    ensures failures { R.failures reader.new ≡ failures_after (R.failures reader.old) result }
{
    reader.turn(&mut buffer[end..])
}

/// Gives the lines of a source. It holds one line at a time and makes at most `TURN_LIMIT` turns.
#[derive(Drop)]
pub struct LineReader {
    buffer: Vec<u8>,
    start: usize,
    end: usize,
    line_start: usize,
    line_end: usize,
    number: u64,
    turns: u64,
}

impl Model for LineReader {
    ghost use Rattle.std.specs.Prelude.{◌≡◌, ◌+◌, ◌^◌, ◌≤◌, vec_len};
    ghost use Rattle.std.specs.List.{slice_range};
    ghost use Rattle.byte_stream.specs.Reading.{Reading};

    ghost Value = { Reading };

    ghost use Rattle.byte_stream.specs.Buffer.{reading_of, IsBuffer};

    ghost view = { reading_of };

    ghost invariant = { IsBuffer };
}

impl LineReader {
    pub fn new(alloc: Global) -> Result<LineReader, AllocError>
        ensures held { IfOk result (λ r. r.held ≡ []) }
        ensures number { IfOk result (λ r. r.number ≡ 0) }
        ensures turns { IfOk result (λ r. r.turns ≡ 0) }
    {
        LineReader::with_buffer(alloc, BUFFER_LEN)
    }

    fn with_buffer(alloc: Global, len: usize) -> Result<LineReader, AllocError>
        requires some { 70000 ≤ len }
        requires most { len ≤ 2 ^ 20 }
        ensures held { IfOk result (λ r. r.held ≡ []) }
        ensures number { IfOk result (λ r. r.number ≡ 0) }
        ensures turns { IfOk result (λ r. r.turns ≡ 0) }
    {
        let buffer = vec![in alloc; 0u8; len]?;
        Ok(LineReader {
            buffer,
            start: 0,
            end: 0,
            line_start: 0,
            line_end: 0,
            number: 0,
            turns: 0,
        })
    }

    /// The line at hand, without its end, or the word at hand.
    pub fn line(&self) -> &[u8]
        ensures { result.now ≡ self.now.line }
    {
        &self.buffer[self.line_start..self.line_end]
    }

    /// How many lines and words were given.
    pub fn number(&self) -> u64
        ensures { result ≡ self.now.number }
    {
        self.number
    }

    /// Takes a whole line out of the bytes at hand.
    fn take_line(&mut self) -> bool
        ensures within { self.new.turns ≤ turn_limit }
        ensures line { MatchBool result (BeginsWithLine self.old.held self.new.line self.new.held)
            (NoLineFeed self.old.held × (self.new ≡ self.old)) }
        ensures number { MatchBool result (self.new.number ≡ self.old.number + 1) (self.new.number ≡ self.old.number) }
        ensures turns { self.new.turns ≡ self.old.turns }
        ensures few { self.new.number < 2 ^ 53 }
    {
        let held = &self.buffer[self.start..self.end];
        let Some((raw, _)) = cut(held, b'\n') else {
            return false;
        };
        let raw_len = raw.len();
        let line_len = without_return(raw).len();
        self.line_start = self.start;
        self.line_end = self.start + line_len;
        self.start += raw_len + 1;
        self.number += 1;
        true
    }

    /// Takes the bytes at hand as the last line. Answers whether there are any.
    fn take_last(&mut self) -> bool
        ensures line { MatchBool result ((self.new.line ≡ self.old.held) × (0 < length self.old.held)) (self.old.held ≡ []) }
        ensures held { self.new.held ≡ [] }
        ensures number { MatchBool result (self.new.number ≡ self.old.number + 1) (self.new.number ≡ self.old.number) }
        ensures turns { self.new.turns ≡ self.old.turns }
        ensures few { self.new.number < 2 ^ 53 }
    {
        if self.start == self.end {
            return false;
        }
        self.line_start = self.start;
        self.line_end = self.end;
        self.start = self.end;
        self.number += 1;
        true
    }

    /// Whether the bytes at hand are too long for a line.
    fn is_long(&self) -> bool
        ensures test { result ≡ nat_lt LINE_LIMIT (length (strip_carriage_return self.now.held)) }
        ensures short { result ≡ false → length self.now.held ≤ LINE_LIMIT + 1 }
    {
        without_return(&self.buffer[self.start..self.end]).len() > LINE_LIMIT
    }

    fn has_turns(&self) -> bool
        ensures { MatchBool result (self.now.turns < turn_limit) (self.now.turns ≡ turn_limit) }
    {
        self.turns < TURN_LIMIT
    }

    /// One turn of the source.
    fn fill<R: Source>(&mut self, reader: &mut R) -> Turn
        requires short { length self.old.held ≤ LINE_LIMIT + 1 }
        requires turns { self.old.turns < turn_limit }
        ensures bytes { Fills (R.remaining reader.old) (R.remaining reader.new) self.old.held result self.new.held }
        ensures number { self.new.number ≡ self.old.number }
        ensures turns { self.new.turns ≡ self.old.turns + 1 }
        ensures few { self.new.number < 2 ^ 53 }
        ensures counted { R.turns reader.new ≡ counted (R.turns reader.old) 1 }
        ensures failures { R.failures reader.new ≡ failures_after (R.failures reader.old) result }
    {
        let (start, end) = make_room(&mut self.buffer, self.start, self.end);
        self.start = start;
        self.end = end;
        self.line_start = 0;
        self.line_end = 0;
        self.turns += 1;
        match read_after(reader, self.buffer.as_mut_slice(), end) {
            Turn::Read(n) => {
                self.end = end + n;
                Turn::Read(n)
            }
            Turn::Interrupted => Turn::Interrupted,
            Turn::Failed => Turn::Failed,
        }
    }

    /// Goes on to the next line, which `line` then gives. After `LastLine` and `End` the source isn't asked again.
    pub fn advance<R: Source>(&mut self, reader: &mut R) -> Result<Step, ReadFault>
        ensures bytes { (more : List ℕ) × Consumes (R.remaining reader.old) (R.remaining reader.new) more
            × Gives (self.old.held ++ more) (R.remaining reader.new) result self.new }
        ensures number { self.new.number ≡ number_after self.old.number result }
        ensures few { self.new.number < 2 ^ 53 }
        ensures counted { (first : ℕ) → CountsFrom first self.old.turns (R.turns reader.old) → CountsFrom first self.new.turns (R.turns reader.new) }
        ensures within { self.new.turns ≤ turn_limit }
        ensures limit { result ≡ Err ReadFault.TurnLimit → self.new.turns ≡ turn_limit }
        ensures failures { R.failures reader.new ≡ failures_after_step (R.failures reader.old) result }
    {
        loop {
            if self.take_line() {
                return Ok(Step::Line);
            }
            if self.is_long() {
                return Err(ReadFault::TooLong);
            }
            if !self.has_turns() {
                return Err(ReadFault::TurnLimit);
            }
            match self.fill(reader) {
                Turn::Read(n) => {
                    if n == 0 {
                        let step = if self.take_last() {
                            Step::LastLine
                        } else {
                            Step::End
                        };
                        return Ok(step);
                    }
                }
                Turn::Interrupted => {}
                Turn::Failed => return Err(ReadFault::Failed),
            }
        }
    }
    /// Passes over separators, and takes the word after them where it ends within the bytes at hand.
    fn take_word(&mut self) -> AtHand
        ensures within { self.new.turns ≤ turn_limit }
        ensures word { TakesWord self.old.held result self.new }
        ensures number { self.new.number ≡ number_taken self.old.number result }
        ensures turns { self.new.turns ≡ self.old.turns }
        ensures few { self.new.number < 2 ^ 53 }
    {
        let held = &self.buffer[self.start..self.end];
        let blanks = separators_before(held);
        let word_len = bytes_before(&held[blanks..]);
        self.start += blanks;
        if word_len > WORD_LIMIT {
            return AtHand::Long;
        }
        let word_end = self.start + word_len;
        if word_end == self.end {
            return AtHand::Part;
        }
        self.line_start = self.start;
        self.line_end = word_end;
        self.start = word_end + 1;
        self.number += 1;
        AtHand::Word
    }

    /// Takes the bytes at hand as the last word, if there are any.
    fn take_last_word(&mut self) -> WordStep
        ensures word { TakesLastWord self.old.held result self.new.line }
        ensures held { self.new.held ≡ [] }
        ensures number { self.new.number ≡ number_after_word self.old.number (Ok result) }
        ensures turns { self.new.turns ≡ self.old.turns }
        ensures few { self.new.number < 2 ^ 53 }
    {
        if self.start == self.end {
            return WordStep::End;
        }
        self.line_start = self.start;
        self.line_end = self.end;
        self.start = self.end;
        self.number += 1;
        WordStep::LastWord
    }

    /// Goes on to the next word, which `line` then gives. After `LastWord` and `End` the source isn't asked again.
    pub fn advance_word<R: Source>(&mut self, reader: &mut R) -> Result<WordStep, ReadFault>
        ensures bytes { (more : List ℕ) × Consumes (R.remaining reader.old) (R.remaining reader.new) more
            × GivesWord (self.old.held ++ more) (R.remaining reader.new) result self.new }
        ensures number { self.new.number ≡ number_after_word self.old.number result }
        ensures few { self.new.number < 2 ^ 53 }
        ensures counted { (first : ℕ) → CountsFrom first self.old.turns (R.turns reader.old) → CountsFrom first self.new.turns (R.turns reader.new) }
        ensures within { self.new.turns ≤ turn_limit }
        ensures limit { result ≡ Err ReadFault.TurnLimit → self.new.turns ≡ turn_limit }
        ensures failures { R.failures reader.new ≡ failures_after_word (R.failures reader.old) result }
    {
        loop {
            match self.take_word() {
                AtHand::Word => return Ok(WordStep::Word),
                AtHand::Long => return Err(ReadFault::TooLong),
                AtHand::Part => {}
            }
            if !self.has_turns() {
                return Err(ReadFault::TurnLimit);
            }
            match self.fill(reader) {
                Turn::Read(n) => {
                    if n == 0 {
                        return Ok(self.take_last_word());
                    }
                }
                Turn::Interrupted => {}
                Turn::Failed => return Err(ReadFault::Failed),
            }
        }
    }
}
