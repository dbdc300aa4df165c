//! A reader that tells its bytes, its turns and its failures.
ghost use Rattle.std.specs.Prelude.{◌≡◌, ◌≢◌, ℕ, List, Option};
ghost use Rattle.byte_stream.specs.claim.Counts.{counted};
ghost use Rattle.byte_stream.specs.Turns.{TurnConsumes, failures_after};

use std::io::{ErrorKind, Read};

/// What one turn of reading gave.
#[derive(Clone, Copy, PartialEq, Eq)]
pub enum Turn {
    /// The number of bytes read, 0 at the end of the input.
    Read(usize),
    /// No byte came, and another turn may bring some.
    Interrupted,
    /// The reader failed, and no byte came.
    Failed,
}

/// What is read, turn by turn.
pub trait Source {
    // The bytes that turns will give from here on, where they are known.
    ghost remaining: { Self → Option (List ℕ) };

    // How many turns there were, up to the greatest u64.
    ghost turns: { Self → ℕ };

    // How many of them failed, up to the greatest u64.
    ghost failures: { Self → ℕ };

    /// One turn, which is one call of the reader below. An interrupted one is not tried again.
    fn turn(&mut self, buf: &mut [u8]) -> Turn
        ensures bytes { TurnConsumes (remaining self.old) (remaining self.new) result buf.new }
        ensures turns { turns self.new ≡ counted (turns self.old) 1 }
        ensures failures { failures self.new ≡ failures_after (failures self.old) result };
}

/// The turn of a call that failed so: an interrupted call is a turn without a byte, and every other one a failure.
pub fn turn_of(kind: ErrorKind) -> Turn
    ensures interrupted { kind ≡ ErrorKind.Interrupted → result ≡ Turn.Interrupted }
    ensures failed { kind ≢ ErrorKind.Interrupted → result ≡ Turn.Failed }
{
    match kind {
        ErrorKind::Interrupted => Turn::Interrupted,
        _ => Turn::Failed,
    }
}

/// Any reader, with counts of its turns and failures.
#[derive(Drop)]
pub struct ReadSource<R> {
    reader: R,
    turns: u64,
    failures: u64,
}

impl<R: Read> ReadSource<R> {
    /// The reader, whose turns and failures are counted from now on.
    pub fn new(reader: R) -> ReadSource<R>
        ensures bytes { ⟦<ReadSource<R> as Source>⟧.remaining result ≡ R.remaining reader }
        ensures turns { ⟦<ReadSource<R> as Source>⟧.turns result ≡ 0 }
        ensures failures { ⟦<ReadSource<R> as Source>⟧.failures result ≡ 0 }
    {
        ReadSource {
            reader,
            turns: 0,
            failures: 0,
        }
    }

    /// The reader, without the counts.
    pub fn into_inner(self) -> R
        ensures { R.remaining result ≡ ⟦<ReadSource<R> as Source>⟧.remaining self }
    {
        let ReadSource {
            reader,
            turns: _,
            failures: _,
        } = self;
        reader
    }
}

impl<R: Read> Source for ReadSource<R> {
    ghost remaining = { λ s. R.remaining s.reader };

    ghost turns = { λ s. s.turns };

    ghost failures = { λ s. s.failures };

    fn turn(&mut self, buf: &mut [u8]) -> Turn {
        self.turns = self.turns.saturating_add(1);
        let turn = match self.reader.read(buf) {
            Ok(n) => return Turn::Read(n),
            Err(e) => turn_of(e.kind()),
        };
        if turn == Turn::Failed {
            self.failures = self.failures.saturating_add(1);
        }
        turn
    }
}
