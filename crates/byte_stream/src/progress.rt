//! How far a long command is: for whoever sits at a terminal.
ghost use Rattle.std.specs.Prelude.{ℕ};

use itoa::Buffer;
use std::io::Write;

/// Hears again and again how many rows were written, read or taken out so far, or how many pages were read.
pub trait Progress {
    // The total number of rows was announced.
    ghost is_told: { Self → ℕ → Type 0 };

    /// How many rows there are in all, before the first one, where that is known.
    fn expect(&mut self, rows: u64)
        ensures { is_told self.new rows };

    /// How many pages there are in all, where pages are read and not rows.
    fn expect_pages(&mut self, pages: u64);

    /// Reports the number of rows so far. The total that was announced stays.
    fn note(&mut self, rows: u64)
        ensures { (all : ℕ) → is_told self.old all → is_told self.new all };
}

/// How many pages come between two lines.
const PAGES_BETWEEN: u64 = 16_384;

/// Ignores all reports.
#[derive(Drop)]
pub struct NoProgress;

impl Progress for NoProgress {
    ghost is_told = { λ _ _. Unit {0} };

    fn expect(&mut self, _: u64) {}

    fn expect_pages(&mut self, _: u64) {}

    fn note(&mut self, _: u64) {}
}

/// Prints a line to a terminal for every `rows_between` rows, or for every 16,384 pages, with the
/// total if it is known. Prints nothing if standard error is no terminal. A line that cannot be
/// written is dropped.
#[derive(Drop)]
pub struct Telling<E> {
    errors: E,
    is_terminal: bool,
    words: &'static [u8],
    rows_between: u64,
    told: u64,
    all: Option<u64>,
    pages: Option<u64>,
}

impl<E> Telling<E> {
    ghost use Rattle.std.specs.Prelude.{◌≡◌, None};

    /// A report before the first row. `words` precede the number of rows in each line.
    pub fn new(errors: E, is_terminal: bool, words: &'static [u8], rows_between: u64) -> Self
        ensures errors { result.errors ≡ errors }
        ensures terminal { result.is_terminal ≡ is_terminal }
        ensures words { result.words.now ≡ words.now }
        ensures between { result.rows_between ≡ rows_between }
        ensures told { result.told ≡ 0 }
        ensures all { result.all ≡ None }
    {
        Telling {
            errors,
            is_terminal,
            words,
            rows_between,
            told: 0,
            all: None,
            pages: None,
        }
    }

    /// What was written to.
    pub fn into_inner(self) -> E
        ensures { result ≡ self.errors }
    {
        let Telling {
            errors,
            is_terminal: _,
            words: _,
            rows_between: _,
            told: _,
            all: _,
            pages: _,
        } = self;
        errors
    }
}

/// Writes a number and words after it, as far as that can be done.
fn write_number<E: Write>(errors: &mut E, number: u64, words: &[u8]) {
    let mut digits = Buffer::new();
    let _ = errors.write_all(digits.format(number).as_bytes());
    let _ = errors.write_all(words);
}

impl<E: Write> Progress for Telling<E> {
    ghost use Rattle.std.specs.Prelude.{◌≡◌, Some};

    ghost is_told = { λ telling rows. telling.all ≡ Some rows };

    fn expect(&mut self, rows: u64) {
        self.all = Some(rows);
        self.pages = None;
    }

    fn expect_pages(&mut self, pages: u64) {
        self.pages = Some(pages);
    }

    fn note(&mut self, count: u64) {
        let between = match self.pages {
            None => self.rows_between,
            Some(_) => PAGES_BETWEEN,
        };
        if !self.is_terminal || count.wrapping_sub(self.told) < between {
            return;
        }
        self.told = count;
        let _ = self.errors.write_all(self.words);
        if let Some(pages) = self.pages {
            write_number(&mut self.errors, count, b" of ");
            write_number(&mut self.errors, pages, b" pages so far\n");
            return;
        }
        if let Some(all) = self.all {
            write_number(&mut self.errors, count, b" of ");
            write_number(&mut self.errors, all, b" rows so far\n");
        } else {
            write_number(&mut self.errors, count, b" rows so far\n");
        }
    }
}
