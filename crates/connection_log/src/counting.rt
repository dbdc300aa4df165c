//! A reader and a writer of which the bytes are counted.
ghost use Rattle.std.specs.Prelude.{◌≡◌, ◌++◌, [], Some, None, if◌then◌else◌, option_map};
ghost use Rattle.byte_stream.specs.claim.Counts.{counted};
ghost use Rattle.byte_stream.specs.claim.Sends.{Sends, failures_with};
ghost use Rattle.byte_stream.specs.Turns.{TurnConsumes, failures_after};
ghost use Rattle.connection_log.specs.Counts.{nothing_sent, read_with, sent_of, sent_after, with_piece};

use crate::answers::answers_in;
use byte_stream::sink::{Sink, WriteFault};
use byte_stream::source::{Source, Turn};
use http_desk::GatherSink;

/// What was written to a connection. The numbers stay at their greatest value.
#[derive(Clone, Copy)]
pub struct Sent {
    /// The bytes of the pieces that were written whole.
    pub bytes: u64,
    /// The answers in them, the interim ones aside.
    pub answers: u64,
    /// Those whose status is 400 or above.
    pub refusals: u64,
}

impl Sent {
    /// Before anything was written.
    pub fn new() -> Sent
        ensures { result ≡ nothing_sent }
    {
        Sent {
            bytes: 0,
            answers: 0,
            refusals: 0,
        }
    }

    /// The same with a text of heads and short bodies, and a long body after it.
    fn with(&self, text: &[u8], body: &[u8]) -> Sent
        ensures { result ≡ with_piece self.now text.now body.now }
    {
        let answers = answers_in(text);
        Sent {
            bytes: self
                .bytes
                .saturating_add(text.len() as u64)
                .saturating_add(body.len() as u64),
            answers: self.answers.saturating_add(answers.all),
            refusals: self.refusals.saturating_add(answers.refusals),
        }
    }
}

/// The reader of a numbered connection, of which the bytes are counted.
#[derive(Drop)]
pub struct CountedSource<R> {
    reader: R,
    number: u64,
    read: u64,
}

impl<R: Source> CountedSource<R> {
    /// The reader of the connection of this number, whose bytes are counted from now on.
    pub fn new(reader: R, number: u64) -> CountedSource<R>
        ensures reader { result.reader ≡ reader }
        ensures number { result.number ≡ number }
        ensures read { result.read ≡ 0 }
    {
        CountedSource {
            reader,
            number,
            read: 0,
        }
    }

    /// The connection's number.
    pub fn number(&self) -> u64
        ensures { result ≡ self.now.number }
    {
        self.number
    }

    /// How many bytes came.
    pub fn read(&self) -> u64
        ensures { result ≡ self.now.read }
    {
        self.read
    }

    /// The reader, without the count.
    pub fn into_inner(self) -> R
        ensures { result ≡ self.reader }
    {
        let CountedSource {
            reader,
            number: _,
            read: _,
        } = self;
        reader
    }
}

impl<R: Source> Source for CountedSource<R> {
    ghost remaining = { λ s. R.remaining s.reader };

    ghost turns = { λ s. R.turns s.reader };

    ghost failures = { λ s. R.failures s.reader };

    fn turn(&mut self, buf: &mut [u8]) -> Turn
        ensures bytes { TurnConsumes (R.remaining self.old.reader) (R.remaining self.new.reader) result buf.new }
        ensures turns { R.turns self.new.reader ≡ counted (R.turns self.old.reader) 1 }
        ensures failures { R.failures self.new.reader ≡ failures_after (R.failures self.old.reader) result }
        ensures read { self.new.read ≡ read_with self.old.read result }
    {
        let turn = self.reader.turn(buf);
        if let Turn::Read(n) = turn {
            self.read = self.read.saturating_add(n as u64);
        }
        turn
    }
}

/// A writer of which the bytes and the answers are counted, where that is asked for.
#[derive(Drop)]
pub struct CountedSink<W> {
    writer: W,
    sent: Option<Sent>,
}

impl<W: GatherSink> CountedSink<W> {
    /// The writer, whose bytes are counted from now on where that is asked for.
    pub fn new(writer: W, is_counted: bool) -> CountedSink<W>
        ensures writer { result.writer ≡ writer }
        ensures sent { result.sent ≡ (if is_counted then Some nothing_sent else None) }
    {
        let sent = if is_counted { Some(Sent::new()) } else { None };
        CountedSink { writer, sent }
    }

    /// What was written; nothing where it isn't counted.
    pub fn sent(&self) -> Sent
        ensures { result ≡ sent_of self.now.sent }
    {
        match self.sent {
            Some(sent) => sent,
            None => Sent::new(),
        }
    }

    /// The writer, without the counts.
    pub fn into_inner(self) -> W
        ensures { result ≡ self.writer }
    {
        let CountedSink { writer, sent: _ } = self;
        writer
    }
}

/// The same with a piece more, where it is counted.
fn more(sent: Option<Sent>, text: &[u8], body: &[u8]) -> Option<Sent>
    ensures { result ≡ option_map (λ s. with_piece s text.now body.now) sent }
{
    match sent {
        Some(sent) => Some(sent.with(text, body)),
        None => None,
    }
}

impl<W: GatherSink> Sink for CountedSink<W> {
    ghost contents = { λ s. W.contents s.writer };

    ghost failures = { λ s. W.failures s.writer };

    fn send(&mut self, bytes: &[u8]) -> Result<(), WriteFault>
        ensures bytes { Sends (W.contents self.old.writer) (W.contents self.new.writer) result bytes.now }
        ensures failures { W.failures self.new.writer ≡ failures_with (W.failures self.old.writer) result }
        ensures sent { self.new.sent ≡ sent_after self.old.sent bytes.now [] result }
    {
        match self.writer.send(bytes) {
            Ok(()) => {
                self.sent = more(self.sent, bytes, &[]);
                Ok(())
            }
            Err(fault) => Err(fault),
        }
    }
}

impl<W: GatherSink> GatherSink for CountedSink<W> {
    fn send_both(&mut self, first: &[u8], second: &[u8]) -> Result<(), WriteFault>
        ensures bytes { Sends (W.contents self.old.writer) (W.contents self.new.writer) result (first.now ++ second.now) }
        ensures failures { W.failures self.new.writer ≡ failures_with (W.failures self.old.writer) result }
        ensures sent { self.new.sent ≡ sent_after self.old.sent first.now second.now result }
    {
        match self.writer.send_both(first, second) {
            Ok(()) => {
                self.sent = more(self.sent, first, second);
                Ok(())
            }
            Err(fault) => Err(fault),
        }
    }
}
