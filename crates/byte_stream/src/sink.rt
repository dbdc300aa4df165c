//! A writer that tells its bytes and its failures.
ghost use Rattle.std.specs.Prelude.{◌≡◌, ◌≢◌, ◌<◌, ◌≤◌, ℕ, List, Option, true};
ghost use Rattle.byte_stream.specs.claim.Sends.{Sends, failures_with};
ghost use Rattle.byte_stream.specs.Sends.{Sent};

use std::io::{ErrorKind, Write};

/// A write failed.
#[derive(Clone, Copy)]
pub struct WriteFault;

/// What is written to.
pub trait Sink {
    // The bytes that it holds, where they are known.
    ghost contents: { Self → Option (List ℕ) };

    // How often a send failed, up to the greatest u64.
    ghost failures: { Self → ℕ };

    /// Writes all bytes, or a prefix of them and then fails.
    fn send(&mut self, bytes: &[u8]) -> Result<(), WriteFault>
        ensures bytes { Sends (contents self.old) (contents self.new) result bytes.now }
        ensures failures { failures self.new ≡ failures_with (failures self.old) result };
}

/// How often an interrupted write is tried again in one send.
pub const TRY_LIMIT: u64 = 4_294_967_296;

/// Returns whether a failed write is repeated after `tries` repetitions. Only an interrupted write
/// is, up to `TRY_LIMIT` times.
pub fn is_tried_again(kind: ErrorKind, tries: u64) -> bool
    ensures yes { kind ≡ ErrorKind.Interrupted → tries < 4294967296 → result ≡ true }
    ensures only { result ≡ true → (kind ≡ ErrorKind.Interrupted) × (tries < 4294967296) }
{
    match kind {
        ErrorKind::Interrupted => tries < TRY_LIMIT,
        _ => false,
    }
}

/// Any writer, with a count of its failures. It is not flushed.
#[derive(Drop)]
pub struct WriteSink<W> {
    writer: W,
    failures: u64,
}

impl<W: Write> WriteSink<W> {
    /// The writer, whose failures are counted from now on.
    pub fn new(writer: W) -> WriteSink<W>
        ensures bytes { ⟦<WriteSink<W> as Sink>⟧.contents result ≡ W.contents writer }
        ensures failures { ⟦<WriteSink<W> as Sink>⟧.failures result ≡ 0 }
    {
        WriteSink {
            writer,
            failures: 0,
        }
    }

    /// The writer, without the count.
    pub fn into_inner(self) -> W
        ensures { W.contents result ≡ ⟦<WriteSink<W> as Sink>⟧.contents self }
    {
        let WriteSink {
            writer,
            failures: _,
        } = self;
        writer
    }
}

/// Writes the bytes and returns whether all were written. A write of no byte ends it; an
/// interrupted write is repeated.
fn write_all<W: Write>(writer: &mut W, bytes: &[u8]) -> bool
    ensures { Sent (W.contents writer.old) (W.contents writer.new) result bytes.now }
{
    let mut done = 0;
    let mut tries = 0u64;
    while done < bytes.len() {
        match writer.write(&bytes[done..]) {
            Ok(0) => return false,
            Ok(n) => done += n,
            Err(e) => {
                if !is_tried_again(e.kind(), tries) {
                    return false;
                }
                tries += 1;
            }
        }
    }
    true
}

impl<W: Write> Sink for WriteSink<W> {
    ghost contents = { λ s. W.contents s.writer };

    ghost failures = { λ s. s.failures };

    fn send(&mut self, bytes: &[u8]) -> Result<(), WriteFault> {
        if write_all(&mut self.writer, bytes) {
            return Ok(());
        }
        self.failures = self.failures.saturating_add(1);
        Err(WriteFault)
    }
}
