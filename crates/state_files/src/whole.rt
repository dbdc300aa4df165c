//! A plan's file, read whole.
ghost use Rattle.std.specs.Prelude.{◌≡◌, ◌+◌, ◌-◌, ◌^◌, ◌<◌, ◌≤◌, ℕ, List, length, take, drop, vec_len, min, Err, OnOk};
ghost use Rattle.byte_stream.specs.claim.Counts.{counted};
ghost use Rattle.std.specs.Io.KnownBytes.{Consumes};
ghost use Rattle.byte_stream.specs.Turns.{TurnConsumes, failures_after};
ghost use Rattle.byte_stream.specs.Reading.{Fills};
ghost use Rattle.byte_stream.specs.claim.Reading.{turn_limit};
ghost use Rattle.state_files.specs.claim.Whole.{IsWholeFile, failures_after_whole};

use byte_stream::reader::TURN_LIMIT;
use byte_stream::source::{Source, Turn};
use std::alloc::{AllocError, Global};

/// A plan's file has at most this many bytes.
pub const PLAN_FILE_LIMIT: usize = 33_554_432;

/// A turn asks for this many bytes at most.
const PIECE_LEN: usize = 262_144;

/// Why a file isn't read whole.
#[derive(Clone, Copy)]
pub enum WholeFault {
    /// More than `PLAN_FILE_LIMIT` bytes.
    TooLarge,
    /// The source failed.
    Failed,
    /// The source was asked 4,294,967,296 times.
    TurnLimit,
    Memory,
}

/// Makes room for a piece after the bytes that came.
fn make_room(text: &mut Vec<u8>) -> Result<(), AllocError>
    requires { vec_len text.old ≤ PLAN_FILE_LIMIT }
    ensures prefix { OnOk result (take (vec_len text.old) text.new.items ≡ text.old.items) }
    ensures room { OnOk result (vec_len text.old < vec_len text.new) }
    ensures most { OnOk result (vec_len text.new ≤ PLAN_FILE_LIMIT + 1) }
{
    let filled = text.len();
    let more = (PLAN_FILE_LIMIT + 1 - filled).min(PIECE_LEN);
    text.resize(filled + more, 0u8)
}

/// One turn of the source, into the buffer from `end` on.
fn read_after<R: Source>(reader: &mut R, buffer: &mut [u8], end: usize) -> Turn
    requires { end < length buffer.old }
    ensures prefix { take end buffer.new ≡ take end buffer.old }
    ensures bytes { TurnConsumes (R.remaining reader.old) (R.remaining reader.new) result (drop end buffer.new) }
    ensures turns { R.turns reader.new ≡ counted (R.turns reader.old) 1 }
    ensures failures { R.failures reader.new ≡ failures_after (R.failures reader.old) result }
{
    reader.turn(&mut buffer[end..])
}

/// One turn into the room after the bytes that came, which it cuts to what there is then.
fn read_piece<R: Source>(reader: &mut R, text: &mut Vec<u8>, filled: usize) -> Turn
    requires { filled < vec_len text.old }
    ensures bytes { Fills (R.remaining reader.old) (R.remaining reader.new) (take filled text.old.items) result text.new.items }
    ensures most { vec_len text.new ≤ vec_len text.old }
    ensures turns { R.turns reader.new ≡ counted (R.turns reader.old) 1 }
    ensures failures { R.failures reader.new ≡ failures_after (R.failures reader.old) result }
{
    match read_after(reader, text.as_mut_slice(), filled) {
        Turn::Read(n) => {
            text.truncate(filled + n);
            Turn::Read(n)
        }
        Turn::Interrupted => {
            text.truncate(filled);
            Turn::Interrupted
        }
        Turn::Failed => {
            text.truncate(filled);
            Turn::Failed
        }
    }
}

/// Reads a file to the end of its source. At most one byte more than `PLAN_FILE_LIMIT` is asked for.
pub fn read_whole<R: Source>(alloc: Global, reader: &mut R) -> Result<Vec<u8>, WholeFault>
    ensures read { (text : List ℕ) × Consumes (R.remaining reader.old) (R.remaining reader.new) text
        × IsWholeFile text (R.remaining reader.new) result }
    ensures failures { R.failures reader.new ≡ failures_after_whole (R.failures reader.old) result }
    ensures limit { result ≡ Err WholeFault.TurnLimit → R.turns reader.new ≡ counted (R.turns reader.old) turn_limit }
    ensures turns { R.turns reader.new ≤ R.turns reader.old + turn_limit }
{
    let mut text = Vec::new(alloc);
    let mut turns: u64 = 0;
    loop {
        let filled = text.len();
        if filled > PLAN_FILE_LIMIT {
            return Err(WholeFault::TooLarge);
        }
        if turns == TURN_LIMIT {
            return Err(WholeFault::TurnLimit);
        }
        if make_room(&mut text).is_err() {
            return Err(WholeFault::Memory);
        }
        turns += 1;
        match read_piece(reader, &mut text, filled) {
            Turn::Read(0) => return Ok(text),
            Turn::Read(_) | Turn::Interrupted => {}
            Turn::Failed => return Err(WholeFault::Failed),
        }
    }
}
