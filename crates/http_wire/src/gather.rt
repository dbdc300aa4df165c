//! Two texts in one write, as a head and its body.
ghost use Rattle.std.specs.Prelude.{◌≡◌, ◌+◌, ◌≤◌, ◌++◌, length, drop};
ghost use Rattle.std.specs.Io.{WritesAtMost};
ghost use Rattle.std.specs.Io.KnownBytes.{WriteAppends};
ghost use Rattle.byte_stream.specs.claim.Sends.{Sends, failures_with};
ghost use Rattle.byte_stream.specs.Sends.{Sent};

use byte_stream::sink::{Sink, WriteFault, WriteSink, is_tried_again};
use std::io;
use std::io::{IoSlice, Write};
use std::net::TcpStream;

/// What takes two texts in one write.
pub trait GatherWrite: Write {
    /// One write of the first text with the second after it.
    fn write_both(&mut self, first: &[u8], second: &[u8]) -> io::Result<usize>
        ensures bound { WritesAtMost result (first.now ++ second.now) }
        ensures bytes { WriteAppends (Self.contents self.old) (Self.contents self.new) result (first.now ++ second.now) };
}

impl GatherWrite for TcpStream {
    /// One call of the system.
    fn write_both(&mut self, first: &[u8], second: &[u8]) -> io::Result<usize> {
        let both = [IoSlice::new(first), IoSlice::new(second)];
        TcpStream::write_vectored(&*self, both.as_slice())
    }
}

/// A sink to which two texts are sent at once.
pub trait GatherSink: Sink {
    /// Writes the first text and then the second, or a prefix of both and then fails.
    fn send_both(&mut self, first: &[u8], second: &[u8]) -> Result<(), WriteFault>
        ensures bytes { Sends (Self.contents self.old) (Self.contents self.new) result (first.now ++ second.now) }
        ensures failures { Self.failures self.new ≡ failures_with (Self.failures self.old) result };
}

impl<W: Write> GatherSink for WriteSink<W> {
    /// A writer of which no more is known takes them one after the other.
    fn send_both(&mut self, first: &[u8], second: &[u8]) -> Result<(), WriteFault> {
        match self.send(first) {
            Ok(()) => self.send(second),
            Err(_) => Err(WriteFault),
        }
    }
}

/// Any writer that takes two texts in one write, with a count of its failures. It is not flushed.
#[derive(Drop)]
pub struct Gathering<W> {
    writer: W,
    failures: u64,
}

impl<W: GatherWrite> Gathering<W> {
    /// The writer, whose failures are counted from now on.
    pub fn new(writer: W) -> Gathering<W>
        ensures bytes { ⟦<Gathering<W> as Sink>⟧.contents result ≡ W.contents writer }
        ensures failures { ⟦<Gathering<W> as Sink>⟧.failures result ≡ 0 }
    {
        Gathering {
            writer,
            failures: 0,
        }
    }

    /// The writer, without the count.
    pub fn into_inner(self) -> W
        ensures { W.contents result ≡ ⟦<Gathering<W> as Sink>⟧.contents self }
    {
        let Gathering {
            writer,
            failures: _,
        } = self;
        writer
    }
}

/// One write of what is left of two texts after their first bytes.
#[tactic(auto, using(crate::proofs::GatherLemmas::past_first))]
fn write_rest<W: GatherWrite>(
    writer: &mut W,
    first: &[u8],
    second: &[u8],
    done: usize,
) -> io::Result<usize>
    requires { done ≤ length first.now + length second.now }
    ensures bound { WritesAtMost result (drop done (first.now ++ second.now)) }
    ensures bytes { WriteAppends (W.contents writer.old) (W.contents writer.new) result (drop done (first.now ++ second.now)) }
{
    if done >= first.len() {
        return writer.write(&second[done - first.len()..]);
    }
    if second.is_empty() {
        return writer.write(&first[done..]);
    }
    writer.write_both(&first[done..], second)
}

/// Writes two texts, and returns whether everything was written. A write of no byte ends it; an
/// interrupted write is repeated.
fn write_all<W: GatherWrite>(writer: &mut W, first: &[u8], second: &[u8]) -> bool
    ensures { Sent (W.contents writer.old) (W.contents writer.new) result (first.now ++ second.now) }
{
    let len = first.len() + second.len();
    let mut done = 0;
    let mut tries = 0u64;
    while done < len {
        match write_rest(writer, first, second, done) {
            Ok(0) => return false,
            Ok(n) => done += n,
            Err(e) => {
                if !is_tried_again(e.kind(), tries) {
                    return false;
                }
                tries += 1;
            }
        }
    }
    true
}

impl<W: GatherWrite> Sink for Gathering<W> {
    ghost contents = { λ s. W.contents s.writer };

    ghost failures = { λ s. s.failures };

    fn send(&mut self, bytes: &[u8]) -> Result<(), WriteFault> {
        if write_all(&mut self.writer, bytes, &[]) {
            return Ok(());
        }
        self.failures = self.failures.saturating_add(1);
        Err(WriteFault)
    }
}

impl<W: GatherWrite> GatherSink for Gathering<W> {
    fn send_both(&mut self, first: &[u8], second: &[u8]) -> Result<(), WriteFault> {
        if write_all(&mut self.writer, first, second) {
            return Ok(());
        }
        self.failures = self.failures.saturating_add(1);
        Err(WriteFault)
    }
}
