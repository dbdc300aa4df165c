//! Requests from a reader, however its bytes are cut.
ghost use Rattle.std.specs.Prelude.{◌≡◌, ℕ, ◌+◌, ◌≤◌, List, [], ◌++◌, length, Ok, Err, None, false, IfOk, IfSome};
ghost use Rattle.httparse.specs.Spans.{IsWithin};
ghost use Rattle.std.specs.Io.KnownBytes.{Appends, Consumes};
ghost use Rattle.std.specs.Option.{option_map};
ghost use Rattle.http_wire_intake.specs.Budget.{reading_left, Spends};
ghost use Rattle.http_wire_intake.specs.Draws.{Draws, Reads};
ghost use Rattle.http_wire_intake.specs.Chunked.{LacksChunksAtEnd};
ghost use Rattle.http_wire.specs.Budget.{read_failures_of, write_failures_of};
ghost use Rattle.http_wire.specs.Framed.{BodyRead};
ghost use Rattle.http_wire.specs.Incoming.{ReadsPrefix, EndsAt, TakesSome, Taken, finished, targeted as targeted_by, IsBegun, ReadsRequest};
ghost use Rattle.http_wire.specs.Look.{IsFound};
ghost use Rattle.http_wire.specs.claim.Target.{target_of};

use crate::fault::RequestFault;
use crate::head::Framing;
use crate::header_slots::HeaderSlots;
use crate::interim::write_interim;
use crate::look::{Head, HeadRefusal, HeadSought, look_at};
use crate::target::{Target, read_target};
use byte_stream::sink::Sink;
use byte_stream::source::Source;
use http::Method;
use http_wire_intake::bad_request::BadRequest;
use http_wire_intake::body::read_body;
use http_wire_intake::chunks::{Chunked, read_chunks};
use http_wire_intake::fault::WireFault;
use http_wire_intake::intake::Intake;
use http_wire_intake::law::chunk_law;
use http_wire_intake::read_buffer::{READ_BUFFER_LEN, ReadBuffer};
use http_wire_intake::sought::{Seen, read_prefix};
use std::alloc::{AllocError, Global};

/// The turns of a whole stream, from which each call takes its own.
pub const TURN_LIMIT: u64 = 4_294_967_296;

/// A request as it came.
#[derive(Drop)]
pub struct Request {
    pub method: Method,
    /// In origin-form: a path, and perhaps a query.
    pub target: Vec<u8>,
    /// Whether the answer ends the connection.
    pub closes: bool,
    pub body: Vec<u8>,
}

/// What the reader gave.
#[derive(Drop)]
pub enum Incoming {
    Request(Request),
    /// The prefix has this fault: the answer to it is the last, without its body where only a head is asked for.
    Refused { fault: BadRequest, head_only: bool },
    /// Memory for a request was refused, and what was read of it is lost.
    OutOfMemory { head_only: bool },
    /// The input ended, perhaps inside a request.
    End,
}

/// A request whose body is still to come.
#[derive(Drop)]
struct Begun {
    request: Request,
    /// Whether its target is valid. An invalid one is rejected after the body and not kept.
    is_good: bool,
}

/// Returns a copy of the target, if it is valid.
fn copy_target(alloc: Global, target: &[u8]) -> Result<Option<Vec<u8>>, AllocError>
    ensures { IfOk result (λ copy. option_map (λ v. v.items) copy ≡ target_of target.now) }
{
    match read_target(target) {
        Some(asked) => Ok(Some(asked.to_vec(alloc)?)),
        None => Ok(None),
    }
}

/// Returns the method of a head, which is a token, so only memory can be missing.
fn copy_method(alloc: Global, method: &[u8]) -> Result<Method, AllocError>
    ensures { IfOk result (λ m. m ≡ method.now) }
{
    match Method::from_bytes(alloc, method) {
        Ok(method) => Ok(method),
        Err(_) => Err(AllocError),
    }
}

/// How much room is made for a body before it comes. What is missing then is made as it comes.
fn room_for(framing: Framing) -> usize
    ensures { result ≤ 65536 }
{
    match framing {
        Framing::Sized(n) => n.min(READ_BUFFER_LEN),
        Framing::Chunked => 0,
    }
}

/// A request as its head begins it, with room for its body.
fn begin(alloc: Global, bytes: &[u8], head: Head) -> Result<Begun, AllocError>
    requires method { IsWithin (length bytes.now) head.method }
    requires target { IsWithin (length bytes.now) head.target }
    ensures { IfOk result (IsBegun bytes.now head) }
{
    let method = copy_method(alloc, head.method.of(bytes))?;
    let copy = copy_target(alloc, head.target.of(bytes))?;
    let body = Vec::with_capacity(alloc, room_for(head.framing))?;
    let is_good = copy.is_some();
    let target = match copy {
        Some(target) => target,
        None => Vec::new(alloc),
    };
    Ok(Begun {
        request: Request {
            method,
            target,
            closes: head.closes,
            body,
        },
        is_good,
    })
}

/// Returns the outcome of a request whose body is complete.
fn targeted(request: Request, is_good: bool, head_only: bool) -> Incoming
    ensures { result ≡ targeted_by request is_good head_only }
{
    if is_good {
        Incoming::Request(request)
    } else {
        Incoming::Refused {
            fault: BadRequest::BadTarget,
            head_only,
        }
    }
}

/// Turns the result of reading the body into the outcome of the request.
fn finish(
    request: Request,
    is_good: bool,
    head_only: bool,
    came: Result<Chunked, WireFault>,
) -> Result<Incoming, RequestFault>
    ensures { result ≡ finished request is_good head_only came }
{
    match came {
        Ok(Chunked::Whole) => Ok(targeted(request, is_good, head_only)),
        Ok(Chunked::Lacking) => Ok(Incoming::End),
        Ok(Chunked::Refused(fault)) => Ok(Incoming::Refused { fault, head_only }),
        Err(WireFault::Read) => Err(RequestFault::Read),
        Err(WireFault::Memory) => Ok(Incoming::OutOfMemory { head_only }),
        Err(WireFault::TurnLimit) => Err(RequestFault::TurnLimit),
    }
}

/// The prefix has this fault.
fn refused(refusal: HeadRefusal) -> Incoming
    ensures { result ≡ Incoming.Refused refusal.fault refusal.head_only }
{
    Incoming::Refused {
        fault: refusal.fault,
        head_only: refusal.head_only,
    }
}

/// Reads a body as it is framed.
fn read_framed<R: Source>(
    intake: &mut Intake<'_, R>,
    body: &mut Vec<u8>,
    framing: Framing,
) -> Result<Chunked, WireFault>
    requires { body.old.items ≡ [] }
    ensures read { Reads R.remaining intake.old intake.new (λ input rest. BodyRead framing input result body.new.items rest) }
    ensures end { LacksChunksAtEnd (R.remaining intake.new.reader.now) result }
    ensures draws { Draws R.turns R.failures intake.old intake.new result }
{
    match framing {
        Framing::Sized(n) => match read_body(intake, body, n) {
            Ok(true) => Ok(Chunked::Whole),
            Ok(false) => Ok(Chunked::Lacking),
            Err(fault) => Err(fault),
        },
        Framing::Chunked => read_chunks(intake, body),
    }
}

/// The rest of a request whose head has come: writes the interim answer where it is asked for, and reads the body.
fn read_rest<R: Source, W: Sink>(
    alloc: Global,
    intake: &mut Intake<'_, R>,
    writer: &mut W,
    head: Head,
) -> Result<Incoming, RequestFault>
    requires { IsFound intake.old.read_buffer.now head }
    ensures { ReadsRequest R.remaining R.turns R.failures intake.old intake.new (W.contents writer.old) (W.contents writer.new) (W.failures writer.old) (W.failures writer.new) result }
{
    chunk_law();
    match write_interim(writer, head.expects) {
        Ok(()) => {}
        Err(_) => return Err(RequestFault::Write),
    }
    let Ok(begun) = begin(alloc, intake.held(), head) else {
        return Ok(Incoming::OutOfMemory {
            head_only: head.head_only,
        });
    };
    let Begun {
        mut request,
        is_good,
    } = begun;
    intake.consume(head.len);
    let came = read_framed(intake, &mut request.body, head.framing);
    finish(request, is_good, head.head_only, came)
}

/// Reads the next request, as `read_request` does.
fn read_next<R: Source, W: Sink>(
    alloc: Global,
    intake: &mut Intake<'_, R>,
    writer: &mut W,
) -> Result<Incoming, RequestFault>
    ensures { ReadsRequest R.remaining R.turns R.failures intake.old intake.new (W.contents writer.old) (W.contents writer.new) (W.failures writer.old) (W.failures writer.new) result }
{
    match read_prefix(intake, &HeadSought) {
        Ok(Seen::Incomplete) => Ok(Incoming::End),
        Ok(Seen::Refused(refusal)) => Ok(refused(refusal)),
        Ok(Seen::Found(head)) => read_rest(alloc, intake, writer, head),
        Err(WireFault::Read) => Err(RequestFault::Read),
        Err(WireFault::TurnLimit) => Err(RequestFault::TurnLimit),
        Err(WireFault::Memory) => unreachable!(),
    }
}

/// Reads the next request, in as many reads as it needs. If its head asks for the interim response
/// 100 (RFC 9110, section 10.1.1), that is written first, before the body is read, also if the body
/// has come with the head. It takes no memory.
///
/// After an `Err`, `Refused` or `OutOfMemory` the stream is over: what had come of a request is
/// lost.
pub fn read_request<R: Source, W: Sink>(
    alloc: Global,
    reader: &mut R,
    writer: &mut W,
    read_buffer: &mut ReadBuffer,
    turns: &mut u64,
) -> Result<Incoming, RequestFault>
    ensures read { (more : List ℕ) × (sent : List ℕ) × Consumes (R.remaining reader.old) (R.remaining reader.new) more
        × Appends (W.contents writer.old) (W.contents writer.new) sent × ReadsPrefix (read_buffer.old ++ more) result read_buffer.new sent }
    ensures end { EndsAt (R.remaining reader.new) result }
    ensures failures { R.failures reader.new ≡ read_failures_of (R.failures reader.old) result }
    ensures write_failures { W.failures writer.new ≡ write_failures_of (W.failures writer.old) result }
    ensures turns { Spends turns.old turns.new (R.turns reader.old) (R.turns reader.new) }
    ensures limit { result ≡ Err RequestFault.TurnLimit → turns.new ≡ 0 }
    // A bound for a loop over requests.
    ensures left { TakesSome result (reading_left turns.old read_buffer.old) (reading_left turns.new read_buffer.new) }
{
    let mut intake = Intake {
        reader,
        read_buffer,
        turns,
    };
    read_next(alloc, &mut intake, writer)
}

/// Takes a request whose head asks for no interim response, and whose body of n bytes has come.
#[tactic(auto, using(crate::proofs::TakenLemmas::taken_out_of_memory))]
fn take_found(alloc: Global, read_buffer: &mut ReadBuffer, head: Head, n: usize) -> Incoming
    requires found { IsFound read_buffer.old head }
    requires plain { head.expects ≡ false }
    requires framing { head.framing ≡ Framing.Sized n }
    requires whole { head.len + n ≤ length read_buffer.old }
    ensures taken { Taken read_buffer.old result read_buffer.new }
    ensures less { TakesSome (Ok result) (length read_buffer.old) (length read_buffer.new) }
{
    chunk_law();
    let Ok(begun) = begin(alloc, read_buffer.as_slice(), head) else {
        return Incoming::OutOfMemory {
            head_only: head.head_only,
        };
    };
    let Begun {
        mut request,
        is_good,
    } = begun;
    read_buffer.consume(head.len);
    let bytes = read_buffer.as_slice();
    let Ok(()) = request.body.extend_from_slice(&bytes[..n]) else {
        return Incoming::OutOfMemory {
            head_only: head.head_only,
        };
    };
    read_buffer.consume(n);
    targeted(request, is_good, head.head_only)
}

/// Takes the next request without reading, or says why it is rejected. Returns `None` and takes
/// nothing if more bytes may be needed, or the interim response, or if the body comes in chunks:
/// `read_request` continues.
pub fn take_request(
    alloc: Global,
    read_buffer: &mut ReadBuffer,
    room: &mut HeaderSlots,
) -> Option<Incoming>
    ensures taken { IfSome result (λ incoming. Taken read_buffer.old incoming read_buffer.new) }
    ensures less { IfSome result (λ incoming. TakesSome (Ok incoming) (length read_buffer.old) (length read_buffer.new)) }
    ensures none { result ≡ None → read_buffer.new ≡ read_buffer.old }
{
    match look_at(read_buffer.as_slice(), &mut room.headers) {
        Seen::Incomplete => None,
        Seen::Refused(refusal) => Some(refused(refusal)),
        Seen::Found(head) => {
            let Framing::Sized(n) = head.framing else {
                return None;
            };
            if head.expects || read_buffer.as_slice().len() - head.len < n {
                return None;
            }
            Some(take_found(alloc, read_buffer, head, n))
        }
    }
}
