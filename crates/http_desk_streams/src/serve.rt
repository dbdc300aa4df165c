//! One stream of requests, from its reader to its writer.
ghost use Rattle.std.specs.Prelude.{◌≡◌, ◌+◌, ◌≤◌, ◌<◌, ◌++◌, ℕ, min, false, List, [], Option, length, codes, Ok, Err, None, IfOk, IfSome};
ghost use Rattle.std.specs.Io.KnownBytes.{Consumes, IsAtEnd};
ghost use Rattle.http_wire.specs.intake.Budget.{reading_left};
ghost use Rattle.http_wire.specs.Budget.{read_failures_of, write_failures_of};
ghost use Rattle.byte_stream.specs.claim.Counts.{counted};
ghost use Rattle.http_desk_streams.specs.Accepting.{deed_where};
ghost use Rattle.http_desk_streams.specs.declared.accepted.Accepted.{Accepted};
ghost use Rattle.desk_model.specs.declared.command.Command.{Command};
ghost use Rattle.desk_model.specs.declared.command.Query.TheVariants.{Plans};
ghost use Rattle.desk_model.specs.declared.reply.Reply.{Reply};
ghost use Rattle.http_wire.specs.intake.Budget.{Spends};
ghost use Rattle.http_desk_routes.specs.claim.Routes.{the_routes};
ghost use Rattle.http_desk_streams.specs.claim.Asking.{IsAskedIn};
ghost use Rattle.http_desk_streams.specs.Asking.{TakesAll};
ghost use Rattle.http_desk_streams.specs.Hearing.{IsNoted};
ghost use Rattle.http_desk_streams.specs.claim.Serving.{Serves, Exchanges, read_failures, write_failures};
ghost use Rattle.http_desk_streams.specs.Serving.{Handled, Leaves, MayHandle, NextCame, Puts, TakesNext, TakesSome};
ghost use Rattle.http_wire.specs.Queue.{Queued};
ghost use Rattle.http_wire.specs.Plain.{IsPlain};

use crate::accepted::{Accepted, heard};
use crate::answer::Answer;
use crate::hearing::CommandObserver;
use byte_stream::sink::Sink;
use byte_stream::source::Source;
use desk_model::command::{Command, Query};
use desk_model::reply::Reply;
use desk_store_catalogue::counter::Counter;
use http_desk_routes::law::list_law;
use http_desk_routes::order::{Order, order_of};
use http_desk_routes::route::{Route, router};
use http_wire::WireFault;
use http_wire::fault::RequestFault;
use http_wire::gather::GatherSink;
use http_wire::header_slots::HeaderSlots;
use http_wire::plain::take_plain;
use http_wire::read_buffer::ReadBuffer;
use http_wire::request::{Incoming, Request, TURN_LIMIT, read_request, take_request};
use http_wire::response::WriteBuffer;
use matchit::Router;
use std::alloc::Global;

/// The result of a stream: the number of answers written, without the interim ones.
#[derive(Clone, Copy)]
pub struct Served {
    pub requests: u64,
}

/// Why a stream was not served to its end.
#[derive(Clone, Copy)]
pub enum ServeFault {
    /// A read failed. The answers to all requests that were read whole are written.
    ReadFault,
    /// A write failed. What was written is a prefix of the answers; accepted commands stay.
    WriteFault,
    /// Memory for the first buffers was refused. Nothing was read or written.
    Memory,
    /// The 4,294,967,296 turns of reading are used up. The answers to all requests that were read whole are written.
    TurnLimit,
}

/// Whether a stream goes on.
#[derive(Clone, Copy)]
pub enum Next {
    Again,
    /// The answer closes.
    Last,
    /// The input ended.
    End,
}

/// What is answered next.
#[derive(Drop)]
enum Asked {
    /// A request for the list of plans, which is asked for most and is not copied; and whether its answer closes.
    List { closes: bool },
    /// Any other request, or what is refused; not the end.
    Of(Incoming),
}

/// What a stream holds between its requests.
#[derive(Drop)]
struct Stream {
    read_buffer: ReadBuffer,
    answer: Answer,
    write_buffer: WriteBuffer,
    router: Router<Route>,
    room: HeaderSlots,
    turns: u64,
    ghost routes: { router ≡ the_routes },
}

/// What a command does where it is accepted, if somebody hears of that. A body is looked at only then.
fn deed_for<G: CommandObserver>(gate: &G, command: &Command) -> Option<Accepted>
    ensures { result ≡ deed_where (G.listening gate.now) command.now }
{
    if gate.listens() {
        Some(Accepted::of(command))
    } else {
        None
    }
}

/// Answers a request before which the gate was passed, and returns whether the connection closes
/// after it. What an accepted command did is noted if somebody observes it.
#[tactic(auto, using(crate::proofs::HearingLemmas::none_noted, crate::proofs::HearingLemmas::query_noted, crate::proofs::HearingLemmas::command_noted))]
fn work<C: Counter, G: CommandObserver>(
    alloc: Global,
    router: &Router<Route>,
    counter: &mut C,
    gate: &G,
    piece: u32,
    request: Request,
    answer: &mut Answer,
    accepted: &mut Option<Accepted>,
) -> bool
    requires passed { G.passes gate.now 0 piece }
    requires routes { router.now ≡ the_routes }
    requires takes { MayHandle C.takes counter.old (Incoming.Request request) }
    requires none { accepted.old ≡ None }
    ensures handles { Handled C.commands C.asks counter.old (Asked.Of (Incoming.Request request)) answer.new result counter.new }
    ensures noted { IsNoted C.commands C.asks (G.listening gate.now) counter.old accepted.new counter.new }
{
    let Request {
        method,
        target,
        closes,
        body,
    } = request;
    let head_only = method.as_str() == "HEAD";
    let Ok(order) = order_of(alloc, router, &method, target.as_slice(), body) else {
        answer.put_memory(head_only);
        return true;
    };
    let reply = match order {
        Order::Refused(error) => {
            answer.put_order_error(error, closes, head_only);
            return closes;
        }
        Order::Query(query) => counter.ask(alloc, query),
        Order::Command(command) => {
            let deed = deed_for(gate, &command);
            let reply = counter.command(alloc, command);
            *accepted = heard(deed, &reply);
            reply
        }
    };
    answer.tell(reply, closes, head_only)
}

/// Answers a request as `work` does, after the gate was passed, or the reason why it is refused.
#[tactic(auto, using(crate::proofs::HearingLemmas::none_noted))]
fn handle<C: Counter, G: CommandObserver>(
    alloc: Global,
    router: &Router<Route>,
    counter: &mut C,
    gate: &G,
    piece: u32,
    incoming: Incoming,
    answer: &mut Answer,
    accepted: &mut Option<Accepted>,
) -> bool
    requires routes { router.now ≡ the_routes }
    requires takes { MayHandle C.takes counter.old incoming }
    ensures handles { Handled C.commands C.asks counter.old (Asked.Of incoming) answer.new result counter.new }
    ensures noted { IsNoted C.commands C.asks (G.listening gate.now) counter.old accepted.new counter.new }
    ensures passed { result ≡ false → G.passes gate.now 0 piece }
{
    *accepted = None;
    match incoming {
        Incoming::Refused { fault, head_only } => {
            answer.put_fault(fault, head_only);
            true
        }
        Incoming::OutOfMemory { head_only } => {
            answer.put_memory(head_only);
            true
        }
        Incoming::End => unreachable!(),
        Incoming::Request(request) => {
            gate.pass_before(0, piece);
            work(
                alloc, router, counter, gate, piece, request, answer, accepted,
            )
        }
    }
}

/// Answers with the list of plans after the gate was passed, and returns whether the connection closes after it.
fn list<C: Counter, G: CommandObserver>(
    alloc: Global,
    counter: &mut C,
    gate: &G,
    piece: u32,
    answer: &mut Answer,
    closes: bool,
) -> bool
    requires { G.passes gate.now 0 piece }
    ensures handles { Handled C.commands C.asks counter.old (Asked.List closes) answer.new result counter.new }
    ensures asked { (reply : Reply) × C.asks counter.old Plans reply counter.new }
{
    list_law();
    let reply = counter.ask(alloc, Query::Plans);
    answer.tell(reply, closes, false)
}

/// Puts an answer after those that wait. They are sent with it where it is the last, or is to be sent at once.
fn put_answer<W: GatherSink>(
    writer: &mut W,
    answer: &Answer,
    write_buffer: &mut WriteBuffer,
    closes: bool,
    at_once: bool,
) -> Result<Next, ServeFault>
    ensures bytes { Puts (W.contents writer.old) (W.contents writer.new) write_buffer.old write_buffer.new closes result answer.now }
    ensures failures { W.failures writer.new ≡ write_failures (W.failures writer.old) result }
{
    match answer.send(writer, write_buffer) {
        Ok(()) => {}
        Err(_) => return Err(ServeFault::WriteFault),
    }
    if !closes && !at_once {
        return Ok(Next::Again);
    }
    match write_buffer.flush(writer) {
        Ok(()) => {}
        Err(_) => return Err(ServeFault::WriteFault),
    }
    if closes {
        Ok(Next::Last)
    } else {
        Ok(Next::Again)
    }
}

/// Notifies the observer of an accepted command, if there is one.
fn tell<G: CommandObserver>(gate: &G, accepted: &Option<Accepted>)
    ensures { IfSome accepted.now (λ change. G.hears gate.now change) }
{
    if let Some(accepted) = accepted {
        gate.hear_change(accepted);
    }
}

/// Takes the next request if it asks for the list of plans, and returns whether its answer closes.
fn take_list(read_buffer: &mut ReadBuffer, room: &mut HeaderSlots) -> Option<bool>
    ensures taken { IfSome result (λ closes. IsPlain read_buffer.old (codes "GET") (codes "/plans") closes read_buffer.new) }
    ensures less { IfSome result (λ _. length read_buffer.new < length read_buffer.old) }
    ensures none { result ≡ None → read_buffer.new ≡ read_buffer.old }
{
    // Any other request is not parsed in vain.
    if !read_buffer.as_slice().starts_with(b"GET /plans ") {
        return None;
    }
    take_plain(read_buffer, room, b"GET", b"/plans")
}

/// The next request, or `None` at the input's end. Where nothing has come a turn of reading is taken first: most requests come whole in
/// one. A request that has come is taken; otherwise more is read. The answers that wait are sent before a turn.
fn next_request<R: Source, W: Sink>(
    alloc: Global,
    reader: &mut R,
    writer: &mut W,
    stream: &mut Stream,
) -> Result<Option<Asked>, RequestFault>
    ensures read { (more : List ℕ) × (interim : List ℕ) × (unsent : List ℕ) × Consumes (R.remaining reader.old) (R.remaining reader.new) more
        × Queued (W.contents writer.old) (W.contents writer.new) stream.old.write_buffer unsent interim
        × NextCame (stream.old.read_buffer ++ more) result stream.new.read_buffer interim unsent stream.new.write_buffer }
    ensures end { result ≡ Ok None → IsAtEnd (R.remaining reader.new) }
    ensures failures { R.failures reader.new ≡ read_failures_of (R.failures reader.old) result }
    ensures write_failures { W.failures writer.new ≡ write_failures_of (W.failures writer.old) result }
    ensures turns { Spends stream.old.turns stream.new.turns (R.turns reader.old) (R.turns reader.new) }
    ensures limit { result ≡ Err RequestFault.TurnLimit → stream.new.turns ≡ 0 }
    ensures left { TakesNext result (reading_left stream.old.turns stream.old.read_buffer) (reading_left stream.new.turns stream.new.read_buffer) }
{
    while stream.read_buffer.as_slice().is_empty() {
        match stream.write_buffer.flush(writer) {
            Ok(()) => {}
            Err(_) => return Err(RequestFault::Write),
        }
        match stream.read_buffer.fill(reader, &mut stream.turns) {
            Ok(true) => return Ok(None),
            Ok(false) => {}
            Err(WireFault::Read) => return Err(RequestFault::Read),
            Err(WireFault::TurnLimit) => return Err(RequestFault::TurnLimit),
            Err(WireFault::Memory) => unreachable!(),
        }
    }
    match take_list(&mut stream.read_buffer, &mut stream.room) {
        Some(closes) => return Ok(Some(Asked::List { closes })),
        None => {}
    }
    match take_request(alloc, &mut stream.read_buffer, &mut stream.room) {
        Some(incoming) => return Ok(Some(Asked::Of(incoming))),
        None => {}
    }
    match stream.write_buffer.flush(writer) {
        Ok(()) => {}
        Err(_) => return Err(RequestFault::Write),
    }
    let incoming = match read_request(
        alloc,
        reader,
        writer,
        &mut stream.read_buffer,
        &mut stream.turns,
    ) {
        Ok(incoming) => incoming,
        Err(fault) => return Err(fault),
    };
    match incoming {
        Incoming::End => Ok(None),
        incoming => Ok(Some(Asked::Of(incoming))),
    }
}

/// Reads one request and answers it. An accepted command is reported once its answer was sent, or
/// could not be sent. That answer is sent at once if somebody observes it.
fn exchange<R: Source, W: GatherSink, C: Counter, G: CommandObserver>(
    alloc: Global,
    reader: &mut R,
    writer: &mut W,
    counter: &mut C,
    gate: &G,
    stream: &mut Stream,
    piece: u32,
) -> Result<Next, ServeFault>
    requires { TakesAll C.takes stream.old.read_buffer (R.remaining reader.old) }
    ensures heard { (noted : Option Accepted) × IsNoted C.commands C.asks (G.listening gate.now) counter.old noted counter.new
        × IfSome noted (λ change. G.hears gate.now change) }
    ensures talks { (more : List ℕ) × (output : List ℕ) × (unsent : List ℕ) × Consumes (R.remaining reader.old) (R.remaining reader.new) more
        × Queued (W.contents writer.old) (W.contents writer.new) stream.old.write_buffer unsent output
        × Exchanges C.commands C.asks counter.old result (R.remaining reader.new) (stream.old.read_buffer ++ more) stream.new.read_buffer output counter.new
        × Leaves result unsent stream.new.write_buffer }
    ensures read_failures { R.failures reader.new ≡ read_failures (R.failures reader.old) result }
    ensures write_failures { W.failures writer.new ≡ write_failures (W.failures writer.old) result }
    ensures turns { Spends stream.old.turns stream.new.turns (R.turns reader.old) (R.turns reader.new) }
    ensures limit { result ≡ Err ServeFault.TurnLimit → stream.new.turns ≡ 0 }
    ensures left { TakesSome result (reading_left stream.old.turns stream.old.read_buffer) (reading_left stream.new.turns stream.new.read_buffer) }
    ensures passed { result ≡ Ok Next.Again → G.passes gate.now 0 piece }
{
    let incoming = match next_request(alloc, reader, writer, stream) {
        Ok(Some(Asked::List { closes })) => {
            gate.pass_before(0, piece);
            let closes = list(alloc, counter, gate, piece, &mut stream.answer, closes);
            return put_answer(
                writer,
                &stream.answer,
                &mut stream.write_buffer,
                closes,
                false,
            );
        }
        Ok(Some(Asked::Of(incoming))) => incoming,
        Ok(None) => return Ok(Next::End),
        Err(RequestFault::Read) => return Err(ServeFault::ReadFault),
        Err(RequestFault::Write) => return Err(ServeFault::WriteFault),
        Err(RequestFault::TurnLimit) => return Err(ServeFault::TurnLimit),
    };
    let mut accepted = None;
    let closes = handle(
        alloc,
        &stream.router,
        counter,
        gate,
        piece,
        incoming,
        &mut stream.answer,
        &mut accepted,
    );
    let next = put_answer(
        writer,
        &stream.answer,
        &mut stream.write_buffer,
        closes,
        accepted.is_some(),
    );
    tell(gate, &accepted);
    next
}

/// The buffers and the table of a stream, or `None` where memory for them is refused.
fn start(alloc: Global) -> Option<Stream>
    ensures { IfSome result (λ s. (s.read_buffer ≡ []) × (s.write_buffer ≡ []) × (s.turns ≡ TURN_LIMIT)) }
{
    let Ok(read_buffer) = ReadBuffer::new(alloc) else {
        return None;
    };
    let Ok(answer) = Answer::new(alloc) else {
        return None;
    };
    let Ok(write_buffer) = WriteBuffer::new(alloc) else {
        return None;
    };
    let Ok(router) = router(alloc) else {
        return None;
    };
    Some(Stream {
        read_buffer,
        answer,
        write_buffer,
        router,
        room: HeaderSlots::new(),
        turns: TURN_LIMIT,
    })
}

/// Returns the number of a request as that of a piece of work, which is 4,294,967,295 at most.
fn piece_of(requests: u64) -> u32
    ensures { result ≡ min requests 4294967295 }
{
    u32::try_from(requests).unwrap_or(u32::MAX)
}

/// Serves a stream of requests: reads each, passes the gate, and answers it before the next is
/// taken. Answers wait in a buffer. They are sent before the next read, before an answer that has
/// no room after them, with an answer that acknowledges an observed command, and at the end. The
/// gate is told of each accepted command once its acknowledgement was sent, or could not be sent.
///
/// The counter is handed only those commands that the bytes of the reader ask for. The gate is
/// passed as worker 0, with the number of requests that this call read before (4,294,967,295 at
/// most).
pub fn serve<R: Source, W: GatherSink, C: Counter, G: CommandObserver>(
    alloc: Global,
    reader: &mut R,
    writer: &mut W,
    counter: &mut C,
    gate: &G,
) -> Result<Served, ServeFault>
    requires { (x : C) (c : Command) → IsAskedIn (R.remaining reader.old) c → C.takes x c }
    ensures talks { Serves C.commands C.asks counter.old result counter.new (R.remaining reader.old)
        (R.remaining reader.new) (W.contents writer.old) (W.contents writer.new) }
    ensures read_failures { R.failures reader.new ≡ read_failures (R.failures reader.old) result }
    ensures write_failures { W.failures writer.new ≡ write_failures (W.failures writer.old) result }
    ensures turn_limit { result ≡ Err ServeFault.TurnLimit → R.turns reader.new ≡ counted (R.turns reader.old) 4294967296 }
    ensures passed { IfOk result (λ served. (k : ℕ) → k + 1 < served.requests → G.passes gate.now 0 (min k 4294967295)) }
{
    let Some(mut stream) = start(alloc) else {
        return Err(ServeFault::Memory);
    };
    let mut requests = 0u64;
    loop {
        let piece = piece_of(requests);
        match exchange(alloc, reader, writer, counter, gate, &mut stream, piece) {
            Ok(Next::Again) => requests += 1,
            Ok(Next::Last) => {
                return Ok(Served {
                    requests: requests + 1,
                });
            }
            Ok(Next::End) => return Ok(Served { requests }),
            Err(fault) => return Err(fault),
        }
    }
}
