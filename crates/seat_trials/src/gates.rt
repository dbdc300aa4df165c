//! The gate of a served stream: passed once between the reading and the answering of each request. It hears of an accepted command after
//! its answer.
ghost use Rattle.std.specs.Prelude.{true};

use byte_stream::sink::WriteSink;
use byte_stream::source::ReadSource;
use desk_model::command::{Command, Query};
use desk_model::gate::Gate;
use desk_model::reply::{PlanRows, Refusal, Reply};
use desk_store_catalogue::counter::Counter;
use http_desk_streams::accepted::Accepted;
use http_desk_streams::hearing::CommandObserver;
use http_desk_streams::serve::{ServeFault, Served, serve};
use std::alloc::Global;
use std::cell::Cell;
use std::io;
use std::io::{Read, Write};
use std::sync::atomic::AtomicU64;

const LIST: &[u8] = b"GET /plans HTTP/1.1\r\nHost: d\r\n\r\n";

const RETIRE: &[u8] = b"DELETE /plans/a HTTP/1.1\r\nHost: d\r\n\r\n";

const FOUR: &[u8] =
    b"DELETE /plans/a HTTP/1.1\r\nHost: d\r\n\r\nDELETE /plans/a HTTP/1.1\r\nHost: d\r\n\r\nDELETE /plans/a HTTP/1.1\r\nHost: d\r\n\r\nDELETE /plans/a HTTP/1.1\r\nHost: d\r\n\r\n";

const LISTED: &[u8] =
    b"HTTP/1.1 200 OK\r\nContent-Type: application/json\r\nContent-Length: 12\r\n\r\n{\"plans\":[]}";

/// The number of reads, passes, replies, writes and observed commands; whether the first write was
/// that of an empty list, and whether something came out of order. If requests come in turn, each
/// is answered before the next is read.
#[derive(Drop)]
struct Notes {
    in_turn: bool,
    reads: Cell<u32>,
    passes: Cell<u32>,
    replies: Cell<u32>,
    writes: Cell<u32>,
    heard: Cell<u32>,
    is_listed: Cell<bool>,
    is_wrong: Cell<bool>,
}

impl Notes {
    fn new(in_turn: bool) -> Notes {
        Notes {
            in_turn,
            reads: Cell::new(0),
            passes: Cell::new(0),
            replies: Cell::new(0),
            writes: Cell::new(0),
            heard: Cell::new(0),
            is_listed: Cell::new(false),
            is_wrong: Cell::new(false),
        }
    }

    /// Notes that a step follows these numbers of steps, if requests come in turn.
    fn expect(&self, reads: u32, passes: u32, replies: u32) {
        if self.in_turn
            && (self.reads.get() != reads
                || self.passes.get() != passes
                || self.replies.get() != replies)
        {
            self.is_wrong.set(true);
        }
    }
}

/// Gives a read a piece.
#[derive(Drop)]
struct Asking<'a> {
    notes: &'a Notes,
    pieces: &'a [&'static [u8]],
}

impl Read for Asking<'_> {
    fn read(&mut self, buf: &mut [u8]) -> io::Result<usize> {
        let read = self.notes.reads.get();
        self.notes.expect(read, read, read);
        let Some(piece) = self.pieces.get(read as usize) else {
            return Ok(0);
        };
        let n = piece.len().min(buf.len());
        buf[..n].copy_from_slice(&piece[..n]);
        self.notes.reads.set(read.saturating_add(1));
        Ok(n)
    }
}

/// A writer that fails from some write on, and counts what is written before.
#[derive(Drop)]
struct Written<'a> {
    notes: &'a Notes,
    most: u32,
}

impl Write for Written<'_> {
    fn write(&mut self, buf: &[u8]) -> io::Result<usize> {
        let writes = self.notes.writes.get();
        if writes >= self.most {
            return Err(io::Error::from(io::ErrorKind::BrokenPipe));
        }
        if writes == 0 {
            self.notes.is_listed.set(buf == LISTED);
        }
        self.notes.writes.set(writes.saturating_add(1));
        Ok(buf.len())
    }

    fn flush(&mut self) -> io::Result<()> {
        Ok(())
    }
}

/// Notes each pass, and hears of commands, one after each write that ended well, and one after the third, which failed.
#[derive(Drop)]
struct Listener<'a> {
    notes: &'a Notes,
}

impl Gate for Listener<'_> {
    fn pass(&self, worker: u32, piece: u32) {
        self.notes.expect(piece.saturating_add(1), piece, piece);
        if worker != 0 || (!self.notes.in_turn && self.notes.heard.get() != piece) {
            self.notes.is_wrong.set(true);
        }
        self.notes.passes.set(piece.saturating_add(1));
    }
}

impl CommandObserver for Listener<'_> {
    ghost listening = { λ _. true };

    fn pass_before(&self, worker: u32, piece: u32) {
        self.pass(worker, piece);
    }

    fn listens(&self) -> bool {
        true
    }

    fn hear_change(&self, accepted: &Accepted) {
        let heard = self.notes.heard.get().saturating_add(1);
        self.notes.heard.set(heard);
        let is_retired =
            matches!(accepted, Accepted::Deleted { plan } if plan.as_slice() == b"a".as_slice());
        if !is_retired || self.notes.writes.get() != heard.min(2) {
            self.notes.is_wrong.set(true);
        }
    }

    fn hear_room(&self, _free_pages: &AtomicU64) {}

    fn hear_unsound(&self) {}
}

/// Notes each reply. It has no plan where requests come in turn, else it accepts each end of a plan.
#[derive(Drop)]
struct Noted<'a> {
    notes: &'a Notes,
}

impl Noted<'_> {
    fn reply(&self) {
        let replied = self.notes.replies.get();
        let next = replied.saturating_add(1);
        self.notes.expect(next, next, replied);
        self.notes.replies.set(next);
    }
}

impl<'a> Counter for Noted<'a> {
    // What it answers is checked by the test.
    ghost commands = { λ _ _ _ _. Unit {0} };

    ghost asks = { λ _ _ _ _. Unit {0} };

    const ALONE: bool = true;

    fn command(&mut self, _alloc: Global, command: Command) -> Reply {
        self.reply();
        let in_turn = self.notes.in_turn;
        match command {
            Command::Retire { plan } if !in_turn => Reply::Retired { plan },
            _ => Reply::Refused(Refusal::NoPlan),
        }
    }

    fn ask(&mut self, alloc: Global, _query: Query) -> Reply {
        self.reply();
        Reply::Plans(PlanRows::from_vec(Vec::new(alloc)))
    }
}

/// Serves requests that come in pieces, to a writer whose first writes succeed.
fn served(
    alloc: Global,
    notes: &Notes,
    pieces: &[&'static [u8]],
    most: u32,
) -> Result<Served, ServeFault> {
    let mut reader = ReadSource::new(Asking { notes, pieces });
    let mut writer = WriteSink::new(Written { notes, most });
    let mut counter = Noted { notes };
    let gate = Listener { notes };
    let served = serve(alloc, &mut reader, &mut writer, &mut counter, &gate);
    let _ = reader.into_inner();
    let _ = writer.into_inner();
    served
}

/// Lists and ends of a plan in turn: no command is accepted.
#[test]
fn a_gate_is_passed_once_a_request(rt: HostRuntime) {
    let rt = &rt;
    let notes = Notes::new(true);
    let pieces = [LIST, RETIRE, LIST, RETIRE, LIST];
    let served = served(rt.alloc(), &notes, &pieces, u32::MAX);
    holds!(rt; matches!(served, Ok(served) if served.requests == 5));
    holds!(rt; notes.is_listed.get() & (notes.passes.get() == 5));
    holds!(rt; (notes.replies.get() == 5) & (notes.heard.get() == 0) & !notes.is_wrong.get());
}

/// Four requests that come at once: each is answered by a write of its own and observed after it,
/// also if the third write fails.
#[test]
fn a_command_is_heard_of_after_its_answer(rt: HostRuntime) {
    let rt = &rt;
    let notes = Notes::new(false);
    let served = served(rt.alloc(), &notes, &[FOUR], 2);
    holds!(rt; matches!(served, Err(ServeFault::WriteFault)));
    holds!(rt; (notes.heard.get() == 3) & !notes.is_wrong.get());
}
