//! Watched connections: each is logged when it ends.
ghost use Rattle.connection_log.specs.Hearing.{IsNoted};
ghost use Rattle.connection_log.specs.declared.line.LogLine.TheVariants as entry;

use crate::connection::connection_of;
use crate::counting::{CountedSink, CountedSource};
use crate::line::{Change, LogLine, Room};
use crate::log::Notes;
use crate::moment::moment_now;
use desk_model::gate::Gate;
use http_desk::accepted::Accepted;
use http_desk::hearing::CommandObserver;
use http_desk::listening::FallibleArrivals;
use http_desk::{Arrivals, Ran, ServeFault, Served};
use std::sync::Wait;
use std::sync::atomic::{AtomicBool, AtomicU64, Ordering};
use std::time::Clock;

/// A source of streams that observes accepted commands, the store's room, and the result of all
/// streams.
pub trait Watched: FallibleArrivals + CommandObserver {
    // What was reported of a run.
    ghost use Rattle.std.specs.Prelude.{ℕ};
    ghost use Rattle.http_desk.specs.connections.declared.ran.Ran.{Ran};

    ghost heard: { Self → Ran → Type 0 };

    // These numbers of free pages and of pages for a whole revision were reported.
    ghost heard_room: { Self → ℕ → ℕ → Type 0 };

    /// CommandObserver how many pages are free before streams are served, and how many a whole revision asks for.
    fn begin(&self, free_pages: u64, revision_pages: u64)
        ensures { heard_room self.now free_pages revision_pages };

    /// Receives the result of all streams.
    fn hear(&self, ran: Ran)
        ensures { heard self.now ran };
}

/// Connections that are written to a log, if there is one.
#[derive(Drop)]
pub struct LoggedArrivals<'r, 'a, 'l, A, R, L> {
    rt: &'r R,
    arrivals: &'a A,
    log: Option<&'l L>,
    taken: AtomicU64,
    /// The free pages that a whole revision needs.
    revision_pages: AtomicU64,
    /// Whether fewer are free, according to the log's last line about it.
    is_low: AtomicBool,
}

impl<'r, 'a, 'l, A: FallibleArrivals, R: Wait + Clock, L: Notes> LoggedArrivals<
    'r,
    'a,
    'l,
    A,
    R,
    L,
> {
    pub fn new(
        rt: &'r R,
        arrivals: &'a A,
        log: Option<&'l L>,
    ) -> LoggedArrivals<'r, 'a, 'l, A, R, L> {
        LoggedArrivals {
            rt,
            arrivals,
            log,
            taken: AtomicU64::new(0),
            revision_pages: AtomicU64::new(0),
            is_low: AtomicBool::new(false),
        }
    }
}

/// Puts a line of the store's room into a log, where there is one.
fn note_room<R: Wait + Clock, L: Notes>(
    rt: &R,
    log: Option<&L>,
    free_pages: u64,
    revision_pages: u64,
)
    ensures { IsNoted L.notes log.entry (λ at. entry.Room (record { at = at; free_pages = free_pages; revision_pages = revision_pages })) }
{
    if let Some(log) = log {
        let at = moment_now(rt);
        log.note(
            rt,
            LogLine::Room(Room {
                at,
                free_pages,
                revision_pages,
            }),
        );
    }
}

/// Gives a log the store's room, where there is one. If several threads do so at once, the last of them gives it again.
fn keep_room<L: Notes>(log: Option<&L>, free_pages: &AtomicU64, revision_pages: u64) {
    let Some(log) = log else {
        return;
    };
    for _ in 0..u64::MAX {
        let free = free_pages.load(Ordering::SeqCst);
        log.keep_room(free, revision_pages);
        if free_pages.load(Ordering::SeqCst) == free {
            return;
        }
    }
}

/// Returns whether the free pages fell below `revision_pages`, or rose to it, since the last note,
/// and updates the note.
fn has_crossed(free_pages: u64, revision_pages: u64, is_low: &AtomicBool) -> bool {
    let is_lower = free_pages < revision_pages;
    is_low.swap(is_lower, Ordering::SeqCst) != is_lower
}

impl<'r, 'a, 'l, A: FallibleArrivals, R: Wait + Clock, L: Notes> Gate
    for LoggedArrivals<'r, 'a, 'l, A, R, L> {
    fn pass(&self, _worker: u32, _piece: u32) {}
}

impl<'r, 'a, 'l, A: FallibleArrivals, R: Wait + Clock, L: Notes> CommandObserver
    for LoggedArrivals<'r, 'a, 'l, A, R, L> {
    ghost use Rattle.std.specs.Prelude.{is_some};
    ghost use Rattle.connection_log.specs.Hearing.{IsNoted};
    ghost use Rattle.connection_log.specs.declared.line.LogLine.TheVariants as entry;

    // There is a log, which was handed the line of it.
    ghost listening = { λ w. is_some w.log };

    ghost hears = { λ w accepted. IsNoted L.notes w.log (λ at. entry.Change (record { at = at; accepted = accepted })) };

    ghost hears_unsound = { λ w. IsNoted L.notes w.log (λ at. entry.Unsound at) };

    fn pass_before(&self, worker: u32, piece: u32) {
        self.pass(worker, piece);
    }

    fn listens(&self) -> bool {
        self.log.is_some()
    }

    /// Logs it.
    fn hear_change(&self, accepted: &Accepted) {
        if let Some(log) = self.log {
            let at = moment_now(self.rt);
            log.note(
                self.rt,
                LogLine::Change(Change {
                    at,
                    accepted: *accepted,
                }),
            );
        }
    }

    /// Logs each time that the free pages fall below what a whole revision needs, or rise to it. If
    /// several threads log it at once, the last of them checks again.
    fn hear_room(&self, free_pages: &AtomicU64) {
        let needed = self.revision_pages.load(Ordering::SeqCst);
        keep_room(self.log, free_pages, needed);
        for _ in 0..u64::MAX {
            let free = free_pages.load(Ordering::SeqCst);
            if !has_crossed(free, needed, &self.is_low) {
                return;
            }
            note_room(self.rt, self.log, free, needed);
        }
    }

    /// Logs it.
    fn hear_unsound(&self) {
        if let Some(log) = self.log {
            let at = moment_now(self.rt);
            log.note(self.rt, LogLine::Unsound(at));
        }
    }
}

impl<'r, 'a, 'l, A: FallibleArrivals, R: Wait + Clock, L: Notes> Arrivals
    for LoggedArrivals<'r, 'a, 'l, A, R, L> {
    ghost use Rattle.std.specs.Option.{option_map};
    ghost use Rattle.connection_log.specs.Connections.{connection_of as connection_by};
    ghost use Rattle.connection_log.specs.Counts.{sent_of};
    ghost use Rattle.connection_log.specs.Hearing.{IsNoted};
    ghost use Rattle.connection_log.specs.declared.line.LogLine.TheVariants as entry;

    // What is known of the connections below; and the log, where there is one, was handed the line of each that was taken back.
    ghost gives = { λ w worker given. A.gives w.arrivals.now worker (option_map (λ s. (s.0.reader, s.1.writer)) given) };

    ghost takes_back = { λ w reader writer served. A.takes_back w.arrivals.now reader.reader writer.writer served
        × IsNoted L.notes w.log (λ at. entry.Connection (connection_by at reader.number served reader.read (sent_of writer.sent))) };

    type Reader = CountedSource<A::Reader>;

    type Writer = CountedSink<A::Writer>;

    /// The next one, whose bytes are counted.
    fn next(&self, worker: usize) -> Option<(CountedSource<A::Reader>, CountedSink<A::Writer>)>
        ensures { A.gives self.now.arrivals.now worker (option_map (λ s. (s.0.reader, s.1.writer)) result) }
    {
        let (reader, writer) = self.arrivals.next(worker)?;
        let number = self.taken.fetch_add(1, Ordering::SeqCst).wrapping_add(1);
        Some((
            CountedSource::new(reader, number),
            CountedSink::new(writer, self.log.is_some()),
        ))
    }

    /// Closes a connection, and then logs its result.
    fn ended(
        &self,
        reader: CountedSource<A::Reader>,
        writer: CountedSink<A::Writer>,
        served: Result<Served, ServeFault>,
    )
        ensures { A.takes_back self.now.arrivals.now reader.reader writer.writer served
            × IsNoted L.notes self.now.log (λ at. entry.Connection (connection_by at reader.number served reader.read (sent_of writer.sent))) }
    {
        let number = reader.number();
        let (read, sent) = (reader.read(), writer.sent());
        let at = match self.log {
            Some(_) => moment_now(self.rt),
            None => None,
        };
        let connection = connection_of(at, number, &served, read, &sent);
        self.arrivals
            .ended(reader.into_inner(), writer.into_inner(), served);
        if let Some(log) = self.log {
            log.note(self.rt, LogLine::Connection(connection));
        }
    }
}

impl<'r, 'a, 'l, A: FallibleArrivals, R: Wait + Clock, L: Notes> FallibleArrivals
    for LoggedArrivals<'r, 'a, 'l, A, R, L> {
    // What is known of the connections below.
    ghost fails = { λ w failed. A.fails w.arrivals.now failed };

    fn has_failed(&self) -> bool
        ensures { A.fails self.now.arrivals.now result }
    {
        self.arrivals.has_failed()
    }
}

impl<'r, 'a, 'l, A: FallibleArrivals, R: Wait + Clock, L: Notes> Watched
    for LoggedArrivals<'r, 'a, 'l, A, R, L> {
    ghost use Rattle.std.specs.Prelude.{IfSome};
    ghost use Rattle.connection_log.specs.Hearing.{IsNoted};
    ghost use Rattle.connection_log.specs.declared.line.LogLine.TheVariants as entry;

    // The log, where there is one, was handed the line of it.
    ghost heard = { λ w ran. IfSome w.log (λ log. L.ends log.now ran) };

    ghost heard_room = { λ w free_pages revision_pages. IsNoted L.notes w.log (λ at. entry.Room (record {
      at = at;
      free_pages = free_pages;
      revision_pages = revision_pages;
    })) };

    /// Logs it.
    fn begin(&self, free_pages: u64, revision_pages: u64) {
        self.revision_pages.store(revision_pages, Ordering::SeqCst);
        self.is_low
            .store(free_pages < revision_pages, Ordering::SeqCst);
        keep_room(self.log, &AtomicU64::new(free_pages), revision_pages);
        note_room(self.rt, self.log, free_pages, revision_pages);
    }

    /// Logs it, and waits for the last lines, for a second at most.
    fn hear(&self, ran: Ran) {
        if let Some(log) = self.log {
            log.end(self.rt, ran);
        }
    }
}
