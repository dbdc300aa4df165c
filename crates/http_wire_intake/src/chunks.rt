//! A body in chunks, and its trailers.
ghost use Rattle.std.specs.Prelude.{◌≡◌, ◌≤◌, [], vec_len, Err};
ghost use Rattle.http_wire_intake.specs.Draws.{Draws, Reads, left_of};
ghost use Rattle.http_wire_intake.specs.ChunkParts.{IsLineAt, EndCame, TrailersCame, DataCame, StepCame, StepLacksAtEnd, TakesChunk};
ghost use Rattle.http_wire_intake.specs.ChunkParts.{after_trailers as after_trailers_by, after_data as after_data_by};
ghost use Rattle.http_wire_intake.specs.Chunked.{ChunksCame, LacksChunksAtEnd};
ghost use Rattle.http_wire_intake.specs.Draws.{DrawsOnly};

use crate::bad_request::BadRequest;
use crate::body::read_body;
use crate::chunk_end::EndSought;
use crate::chunk_line::{FoundLine, LineSought};
use crate::fault::WireFault;
use crate::intake::Intake;
use crate::limits::BODY_LIMIT;
use crate::sought::{Seen, read_prefix};
use crate::trailers::TrailersSought;
use byte_stream::source::Source;

/// What came of a body in chunks.
#[derive(Clone, Copy)]
pub enum Chunked {
    /// All of it, with its trailers.
    Whole,
    /// The input ended within it.
    Lacking,
    Refused(BadRequest),
}

/// Takes the trailers away.
fn drop_trailers<R: Source>(intake: &mut Intake<'_, R>) -> Result<Chunked, WireFault>
    ensures read { Reads R.remaining intake.old intake.new (λ input rest. TrailersCame input result rest) }
    ensures end { LacksChunksAtEnd (R.remaining intake.new.reader.now) result }
    ensures draws { DrawsOnly R.turns R.failures intake.old intake.new result }
{
    match read_prefix(intake, &TrailersSought) {
        Ok(Seen::Found(len)) => {
            intake.consume(len);
            Ok(Chunked::Whole)
        }
        Ok(Seen::Refused(fault)) => Ok(Chunked::Refused(fault)),
        Ok(Seen::Incomplete) => Ok(Chunked::Lacking),
        Err(fault) => Err(fault),
    }
}

/// Takes CR LF after a chunk's data away.
fn drop_end<R: Source>(intake: &mut Intake<'_, R>) -> Result<Chunked, WireFault>
    ensures read { Reads R.remaining intake.old intake.new (λ input rest. EndCame input result rest) }
    ensures end { LacksChunksAtEnd (R.remaining intake.new.reader.now) result }
    ensures draws { DrawsOnly R.turns R.failures intake.old intake.new result }
{
    match read_prefix(intake, &EndSought) {
        Ok(Seen::Found(len)) => {
            intake.consume(len);
            Ok(Chunked::Whole)
        }
        Ok(Seen::Refused(fault)) => Ok(Chunked::Refused(fault)),
        Ok(Seen::Incomplete) => Ok(Chunked::Lacking),
        Err(fault) => Err(fault),
    }
}

/// Reads the data of a chunk, until the body has n bytes, and what ends it.
fn read_data<R: Source>(
    intake: &mut Intake<'_, R>,
    body: &mut Vec<u8>,
    n: usize,
) -> Result<Chunked, WireFault>
    requires { vec_len body.old ≤ n }
    ensures read { Reads R.remaining intake.old intake.new (λ input rest. DataCame body.old.items n input result body.new.items rest) }
    ensures end { LacksChunksAtEnd (R.remaining intake.new.reader.now) result }
    ensures draws { Draws R.turns R.failures intake.old intake.new result }
{
    match read_body(intake, body, n) {
        Ok(true) => drop_end(intake),
        Ok(false) => Ok(Chunked::Lacking),
        Err(fault) => Err(fault),
    }
}

/// Returns the result of the last chunk from the result of reading its trailers.
fn after_trailers(came: Result<Chunked, WireFault>) -> Result<Option<Chunked>, WireFault>
    ensures { result ≡ after_trailers_by came }
{
    match came {
        Ok(chunked) => Ok(Some(chunked)),
        Err(fault) => Err(fault),
    }
}

/// Returns the result of a chunk from the result of reading its data.
fn after_data(came: Result<Chunked, WireFault>) -> Result<Option<Chunked>, WireFault>
    ensures { result ≡ after_data_by came }
{
    match came {
        Ok(Chunked::Whole) => Ok(None),
        Ok(chunked) => Ok(Some(chunked)),
        Err(fault) => Err(fault),
    }
}

/// The rest of a chunk whose line has come.
fn read_chunk_rest<R: Source>(
    intake: &mut Intake<'_, R>,
    body: &mut Vec<u8>,
    line: FoundLine,
) -> Result<Option<Chunked>, WireFault>
    requires line { IsLineAt intake.old.read_buffer.now line }
    requires within { vec_len body.old ≤ 33554432 }
    ensures read { Reads R.remaining intake.old intake.new (λ input rest. StepCame body.old.items input result body.new.items rest) }
    ensures end { StepLacksAtEnd (R.remaining intake.new.reader.now) result }
    ensures draws { Draws R.turns R.failures intake.old intake.new result }
    ensures takes { TakesChunk result (left_of intake.old) (left_of intake.new) }
{
    let n = body.len();
    if line.size > (BODY_LIMIT - n) as u64 {
        return Ok(Some(Chunked::Refused(BadRequest::BodyTooLarge)));
    }
    intake.consume(line.len);
    if line.size == 0 {
        return after_trailers(drop_trailers(intake));
    }
    after_data(read_data(intake, body, n + line.size as usize))
}

/// Reads the next chunk. Answers what ends the chunks, and `None` where it was one with data.
fn read_chunk<R: Source>(
    intake: &mut Intake<'_, R>,
    body: &mut Vec<u8>,
) -> Result<Option<Chunked>, WireFault>
    requires { vec_len body.old ≤ 33554432 }
    ensures read { Reads R.remaining intake.old intake.new (λ input rest. StepCame body.old.items input result body.new.items rest) }
    ensures end { StepLacksAtEnd (R.remaining intake.new.reader.now) result }
    ensures draws { Draws R.turns R.failures intake.old intake.new result }
    ensures takes { TakesChunk result (left_of intake.old) (left_of intake.new) }
{
    match read_prefix(intake, &LineSought) {
        Ok(Seen::Found(line)) => read_chunk_rest(intake, body, line),
        Ok(Seen::Refused(fault)) => Ok(Some(Chunked::Refused(fault))),
        Ok(Seen::Incomplete) => Ok(Some(Chunked::Lacking)),
        Err(fault) => Err(fault),
    }
}

/// Reads the chunks of a body and its trailers, of which nothing is kept: what has come of them, and the rest from the
/// reader.
pub fn read_chunks<R: Source>(
    intake: &mut Intake<'_, R>,
    body: &mut Vec<u8>,
) -> Result<Chunked, WireFault>
    requires { body.old.items ≡ [] }
    ensures read { Reads R.remaining intake.old intake.new (λ input rest. ChunksCame 0 input result body.new.items rest) }
    ensures end { LacksChunksAtEnd (R.remaining intake.new.reader.now) result }
    ensures draws { Draws R.turns R.failures intake.old intake.new result }
{
    loop {
        match read_chunk(intake, body) {
            Ok(None) => {}
            Ok(Some(chunked)) => return Ok(chunked),
            Err(fault) => return Err(fault),
        }
    }
}
