//! A log that many threads put lines into, and one writes.
ghost use Rattle.connection_log.specs.declared.line.LogLine.{LogLine as Line};
ghost use Rattle.http_desk.specs.connections.declared.ran.Ran.{Ran as Totals};

use crate::batch::Batch;
use crate::interval::Interval;
use crate::line::{Ending, LineText, LogLine, Owed, Room};
use crate::moment::moment_now;
use crate::telling::tell_batch;
use crate::waiting::{Taken, Waiting};
use byte_stream::sink::Sink;
use http_desk::Ran;
use std::alloc::{AllocError, Global};
use std::sync::atomic::{AtomicU64, Ordering};
use std::sync::{Arc, Condvar, CondvarTimeouts, Mutex, MutexGuard, Wait};
use std::thread;
use std::thread::Threads;
use std::time::{Clock, Duration};

/// How many milliseconds the end of a run waits for the last lines to be written.
const LAST_LINES: u64 = 1_000;

/// What takes the lines of a log.
pub trait Notes {
    // This line was handed to it.
    ghost notes: { Self → Line → Type 0 };

    // It was told that all connections are served, with their result.
    ghost ends: { Self → Totals → Type 0 };

    /// Takes a line, or counts it where too many wait.
    fn note<R: Wait>(&self, rt: &R, line: LogLine)
        ensures { notes self.now line };

    /// Keeps the store's room, for the line of it that is written every so often.
    fn keep_room(&self, free_pages: u64, revision_pages: u64);

    /// All connections are served: waits until the last line is written, for a second at most.
    fn end<R: Wait + Clock>(&self, rt: &R, ran: Ran)
        ensures { ends self.now ran };
}

/// A log. Its lock is held while a line is put or taken, and never while a line is written.
#[derive(Drop)]
pub struct Log {
    waiting: Mutex<Waiting>,
    changed: Condvar,
    /// The store's room as it was reported last.
    free_pages: AtomicU64,
    revision_pages: AtomicU64,
}

/// What the thread has that writes the lines.
#[derive(Drop)]
struct Pen {
    batch: Batch,
    text: LineText,
}

impl Pen {
    /// One that has written nothing.
    fn new(alloc: Global) -> Result<Pen, AllocError> {
        Ok(Pen {
            batch: Batch::new(alloc)?,
            text: LineText::new(alloc)?,
        })
    }
}

impl Log {
    pub fn new(alloc: Global) -> Result<Log, AllocError> {
        Ok(Log {
            waiting: Mutex::new(Waiting::new(alloc)?),
            changed: Condvar::new(),
            free_pages: AtomicU64::new(0),
            revision_pages: AtomicU64::new(0),
        })
    }

    /// Waits until something is to be written, but for no longer than `most`, and takes all of it.
    fn take<R: Wait + Clock>(&self, rt: &R, batch: &mut Batch, most: Option<Duration>) -> Taken {
        batch.clear();
        let waiting = self.waiting.lock(rt);
        let mut waiting = match most {
            None => self
                .changed
                .wait_while(rt, waiting, |waiting| waiting.is_idle()),
            Some(most) => {
                let (waiting, _) = self
                    .changed
                    .wait_timeout_while(rt, waiting, most, |waiting| waiting.is_idle());
                waiting
            }
        };
        let taken = waiting.take(batch);
        MutexGuard::unlock(waiting);
        taken
    }

    /// The last line is written.
    fn finish<R: Wait>(&self, rt: &R) {
        let mut waiting = self.waiting.lock(rt);
        waiting.finish();
        MutexGuard::unlock(waiting);
        self.changed.notify_all();
    }

    /// Puts a line of the store's room after the others, if one is due and there is a place for it.
    fn put_room<C: Clock>(&self, clock: &C, interval: &mut Interval, batch: &mut Batch) {
        if batch.is_full() || !interval.comes_due(clock) {
            return;
        }
        batch.put(LogLine::Room(Room {
            at: moment_now(clock),
            free_pages: self.free_pages.load(Ordering::SeqCst),
            revision_pages: self.revision_pages.load(Ordering::SeqCst),
        }));
    }

    /// Writes the lines as they come, and one of the store's room whenever it is due. Ends after the last one.
    fn write<W: Sink, R: Wait + Clock>(
        &self,
        rt: &R,
        interval: &mut Interval,
        pen: &mut Pen,
        writer: &mut W,
    ) {
        let mut dropped = Owed {
            lines: 0,
            is_cut: false,
        };
        for _ in rt.forever() {
            let taken = self.take(rt, &mut pen.batch, interval.left(rt));
            self.put_room(rt, interval, &mut pen.batch);
            dropped = tell_batch(writer, &mut pen.text, pen.batch.as_slice(), taken, dropped);
            if taken.end.is_some() {
                self.finish(rt);
                return;
            }
        }
    }
}

impl Notes for Log {
    // What its lock protects isn't known.
    ghost notes = { λ _ _. Unit {0} };

    ghost ends = { λ _ _. Unit {0} };

    /// Puts a line after those that wait to be written, or counts it where too many do. It waits for no other line.
    fn note<R: Wait>(&self, rt: &R, line: LogLine) {
        let mut waiting = self.waiting.lock(rt);
        waiting.put(line);
        MutexGuard::unlock(waiting);
        self.changed.notify_all();
    }

    fn keep_room(&self, free_pages: u64, revision_pages: u64) {
        self.free_pages.store(free_pages, Ordering::SeqCst);
        self.revision_pages.store(revision_pages, Ordering::SeqCst);
    }

    fn end<R: Wait + Clock>(&self, rt: &R, ran: Ran) {
        let ending = Ending {
            at: moment_now(rt),
            ran,
        };
        let mut waiting = self.waiting.lock(rt);
        waiting.put_end(ending);
        MutexGuard::unlock(waiting);
        self.changed.notify_all();
        let waiting = self.waiting.lock(rt);
        let (waiting, _) = self.changed.wait_timeout_while(
            rt,
            waiting,
            Duration::from_millis(LAST_LINES),
            |waiting| !waiting.is_over(),
        );
        MutexGuard::unlock(waiting);
    }
}

/// A log for several threads.
fn shared(alloc: Global) -> Result<Arc<Log>, AllocError> {
    Ok(Arc::new(alloc, Log::new(alloc)?)?)
}

/// A log whose lines a thread of its own writes, which goes on where a line can't be written. It is never joined: a writer that takes
/// nothing for ever would hold the end of the run. With `tell` the thread also writes a line of the store's room after each that many
/// seconds.
pub fn start<W: Sink + Send + Drop + 'static, R: Threads + Wait + Clock + Copy + Send + 'static>(
    rt: &R,
    alloc: Global,
    writer: W,
    tell: Option<u32>,
) -> Result<Arc<Log>, AllocError> {
    let log = shared(alloc)?;
    let written = Arc::try_clone(&log)?;
    let mut pen = Pen::new(alloc)?;
    let mut writer = writer;
    let own = *rt;
    let mut interval = Interval::begin(rt, tell);
    let writing = thread::spawn(rt, move || {
        written.write(&own, &mut interval, &mut pen, &mut writer)
    })?;
    drop(writing);
    Ok(log)
}
