//! Bytes that have come, in a buffer that is made once.
ghost use Rattle.std.specs.Prelude.{◌≡◌, ◌≢◌, ℕ, ◌+◌, ◌-◌, ◌<◌, ◌≤◌, List, [], length, take, drop, slice_range, vec_len, IfOk, OnOk, Err};
ghost use Rattle.http_wire_intake.specs.Body.{Fills};
ghost use Rattle.http_wire_intake.specs.Budget.{failures_of};
ghost use Rattle.byte_stream.specs.Turns.{TurnConsumes, failures_after};
ghost use Rattle.byte_stream.specs.claim.Counts.{counted};
ghost use Rattle.http_wire_intake.specs.Budget.{Spends};

use crate::fault::WireFault;
use byte_stream::source::{Source, Turn};
use std::alloc::{AllocError, Global};
use std::marker::Model;

/// The room for bytes that have come and belong to no request yet, and the largest number that one
/// read brings.
pub const READ_BUFFER_LEN: usize = 65_536;

/// The number of bytes that are examined in any case; if fewer have come, the next bytes are read.
pub const LOOK_LIMIT: usize = 16_384;

// From here on what is left is moved to the start. It leaves room for a head and more.
const LAST_START: usize = 49_152;

/// Bytes that have come and belong to no request yet.
#[derive(Drop)]
pub struct ReadBuffer {
    bytes: Vec<u8>,
    start: usize,
    end: usize,
}

impl Model for ReadBuffer {
    ghost use Rattle.std.specs.Prelude.{List, ℕ, ◌≡◌, ◌≤◌, slice_range, vec_len};

    ghost Value = { List ℕ };

    ghost view = { λ a. slice_range a.bytes.items a.start a.end };

    ghost invariant = { λ a. (a.start ≤ a.end) × (a.end ≤ 65536) × (a.start ≤ 49152) × (vec_len a.bytes ≡ 65536) };
}

/// Moves the bytes from start to end to the start.
fn shift(bytes: &mut Vec<u8>, start: usize, end: usize)
    requires { (start ≤ end) × (end ≤ vec_len bytes.old) }
    ensures prefix { take (end - start) bytes.new.items ≡ slice_range bytes.old.items start end }
    ensures len { vec_len bytes.new ≡ vec_len bytes.old }
{
    bytes.copy_within(start..end, 0);
}

impl ReadBuffer {
    /// An empty one, with all the room that it ever takes.
    pub fn new(alloc: Global) -> Result<ReadBuffer, AllocError>
        ensures { IfOk result (λ read_buffer. read_buffer ≡ []) }
    {
        let mut bytes = Vec::with_capacity(alloc, READ_BUFFER_LEN)?;
        bytes.resize(READ_BUFFER_LEN, 0u8)?;
        Ok(ReadBuffer {
            bytes,
            start: 0,
            end: 0,
        })
    }

    /// The bytes that have come.
    pub fn as_slice(&self) -> &[u8]
        ensures { result.now ≡ self.now }
    {
        let bytes = self.bytes.as_slice();
        &bytes[self.start..self.end]
    }

    /// Takes the first n bytes away.
    #[tactic(auto, using(crate::proofs::ReadBufferLemmas::part_rest))]
    pub fn consume(&mut self, n: usize)
        requires { n ≤ length self.old }
        ensures { self.new ≡ drop n self.old }
    {
        let start = self.start + n;
        let end = self.end;
        if start > LAST_START || start == end {
            shift(&mut self.bytes, start, end);
            self.start = 0;
            self.end = end - start;
        } else {
            self.start = start;
        }
    }

    /// One turn of the reader. Answers whether it is at its end.
    pub fn fill<R: Source>(&mut self, reader: &mut R, turns: &mut u64) -> Result<bool, WireFault>
        requires { length self.old < 16384 }
        ensures bytes { Fills (R.remaining reader.old) (R.remaining reader.new) self.old self.new result }
        ensures failures { R.failures reader.new ≡ failures_of (R.failures reader.old) result }
        ensures turns { Spends turns.old turns.new (R.turns reader.old) (R.turns reader.new) }
        ensures limit { result ≡ Err WireFault.TurnLimit → turns.new ≡ 0 }
        ensures never { result ≢ Err WireFault.Memory }
        ensures fewer { OnOk result (turns.new + 1 ≡ turns.old) }
    {
        if *turns == 0 {
            return Err(WireFault::TurnLimit);
        }
        *turns -= 1;
        match turn_at(reader, self.bytes.as_mut_slice(), self.end) {
            Turn::Read(n) => {
                self.end += n;
                Ok(n == 0)
            }
            Turn::Interrupted => Ok(false),
            Turn::Failed => Err(WireFault::Read),
        }
    }
}

/// One turn, into the buffer from at on.
pub(crate) fn turn_at<R: Source>(reader: &mut R, buf: &mut [u8], at: usize) -> Turn
    requires { at < length buf.old }
    ensures prefix { take at buf.new ≡ take at buf.old }
    ensures bytes { TurnConsumes (R.remaining reader.old) (R.remaining reader.new) result (drop at buf.new) }
    ensures failures { R.failures reader.new ≡ failures_after (R.failures reader.old) result }
    ensures turns { R.turns reader.new ≡ counted (R.turns reader.old) 1 }
{
    reader.turn(&mut buf[at..])
}
