//! Where connections come in: a thread takes each from the socket, and holds it until a worker has it.
ghost use Rattle.std.specs.Prelude.{◌≡◌, ◌≢◌, ◌⊎◌, ◌==◌, ◌&&◌, ◌<◌, ◌+◌, ◌-◌, ◌^◌, not, true, Some, IfOk, length};
ghost use Rattle.http_desk_connections.specs.Entering.{HasBegun, HasEnded};

use crate::doorway::Doorway;
use crate::mark::Mark;
use std::alloc::{AllocError, Global};
use std::io::ErrorKind;
use std::net::{TcpListener, TcpStream};
use std::sync::atomic::{AtomicBool, AtomicU64, Ordering};
use std::sync::{Arc, Condvar, Mutex, MutexGuard, Wait};
use std::thread;
use std::thread::Threads;

/// A connection, by which it is read and by which it is written.
#[derive(Drop)]
pub struct Visit {
    pub reader: TcpStream,
    pub writer: TcpStream,
}

/// The connection that came last, who waits for one, and how many are open.
#[derive(Drop)]
struct QueueState {
    stream: Option<Visit>,
    /// How many connections are still given to workers.
    left: u64,
    /// How many workers wait for one.
    workers: u64,
    /// No further connection comes.
    is_shut: bool,
    /// How many connections have come and not ended.
    inside: u64,
    /// How many have ended, which begins again after the greatest number.
    ended: u64,
}

/// What came of asking the socket for a connection.
enum Admitted {
    Came(Visit),
    Failed,
    /// No further connection is wanted.
    Over,
}

/// Where connections come in, one at a time.
#[derive(Drop)]
pub struct AcceptQueue {
    listener: TcpListener,
    entrance: Mutex<QueueState>,
    came: Condvar,
    went: Condvar,
    waits: AtomicU64,
    /// 1 while a connection that was refused waits for another one to end, and none has given way.
    lacks: AtomicU64,
    faults: AtomicU64,
    is_over: AtomicBool,
    marks: Vec<Mark>,
}

/// Whether the socket goes on listening after such an error: the call was interrupted, or the connection was gone already.
fn is_passing(kind: ErrorKind) -> bool
    ensures interrupted { kind ≡ ErrorKind.Interrupted → result ≡ true }
    ensures aborted { kind ≡ ErrorKind.ConnectionAborted → result ≡ true }
    ensures only { result ≡ true → (kind ≡ ErrorKind.Interrupted) ⊎ (kind ≡ ErrorKind.ConnectionAborted) }
{
    match kind {
        ErrorKind::Interrupted => true,
        ErrorKind::ConnectionAborted => true,
        _ => false,
    }
}

impl QueueState {
    /// A worker asks for a connection. It waits for one where some are left.
    fn begin(&mut self) -> bool
        ensures { HasBegun self.old result self.new }
    {
        if self.left == 0 {
            return false;
        }
        self.left -= 1;
        self.workers = self.workers.saturating_add(1);
        true
    }

    /// The connection that has come, for a worker that waited.
    fn end(&mut self) -> Option<Visit>
        ensures { HasEnded self.old result self.new }
    {
        self.workers = self.workers.saturating_sub(1);
        self.stream.take()
    }

    /// No further worker is given one.
    fn shut(&mut self)
        ensures left { self.new.left ≡ 0 }
        ensures shut { self.new.is_shut ≡ true }
    {
        self.left = 0;
        self.is_shut = true;
    }

    /// Holds a connection, and says whether it waits for a worker to be free.
    fn put(&mut self, stream: Visit) -> bool
        ensures held { self.new.stream ≡ Some stream }
        ensures waits { result ≡ self.old.workers == 0 }
        ensures inside { self.old.inside < 2 ^ 64 - 1 → self.new.inside ≡ self.old.inside + 1 }
    {
        self.stream = Some(stream);
        self.inside = self.inside.saturating_add(1);
        self.workers == 0
    }

    /// A connection has ended.
    fn leave(&mut self)
        ensures inside { self.new.inside ≡ self.old.inside - 1 }
        ensures ended { self.new.ended ≢ self.old.ended }
    {
        self.inside = self.inside.saturating_sub(1);
        self.ended = self.ended.wrapping_add(1);
    }

    /// Whether the socket is asked again after an error: once one of the open connections has ended, of which there have to be some. A
    /// want of descriptors passes then.
    fn may_ask_again(&self) -> bool
        ensures { result ≡ not (self.now.inside == 0) && not self.now.is_shut }
    {
        self.inside != 0 && !self.is_shut
    }
}

/// A mark for each worker.
fn marks_of(alloc: Global, workers: u16) -> Result<Vec<Mark>, AllocError>
    ensures { IfOk result (λ marks. length marks.items ≡ workers) }
{
    let mut marks = Vec::with_capacity(alloc, workers as usize)?;
    for _ in 0..workers {
        marks.push(Mark::new())?;
    }
    Ok(marks)
}

impl AcceptQueue {
    fn new(
        alloc: Global,
        listener: TcpListener,
        connections: u64,
        workers: u16,
    ) -> Result<AcceptQueue, AllocError>
        ensures { IfOk result (λ door. length door.marks.items ≡ workers) }
    {
        let marks = marks_of(alloc, workers)?;
        Ok(AcceptQueue {
            listener,
            entrance: Mutex::new(QueueState {
                stream: None,
                left: connections,
                workers: 0,
                is_shut: false,
                inside: 0,
                ended: 0,
            }),
            came: Condvar::new(),
            went: Condvar::new(),
            waits: AtomicU64::new(0),
            lacks: AtomicU64::new(0),
            faults: AtomicU64::new(0),
            is_over: AtomicBool::new(false),
            marks,
        })
    }

    /// A mark that no connection has. There is one for each worker.
    pub fn mark(&self) -> Option<&Mark> {
        for mark in &self.marks {
            if mark.take() {
                return Some(mark);
            }
        }
        None
    }

    /// Whether each connection gives way once its requests are answered.
    pub fn is_over(&self) -> bool {
        self.is_over.load(Ordering::SeqCst)
    }

    /// Whether no further connection comes since the socket failed.
    pub fn has_failed(&self) -> bool {
        self.faults.load(Ordering::SeqCst) > 0
    }

    /// No further connection is given to a worker. Whoever waits for one lets it go.
    fn shut<R: Wait>(&self, rt: &R) {
        let mut entrance = self.entrance.lock(rt);
        entrance.shut();
        MutexGuard::unlock(entrance);
        self.came.notify_all();
    }

    /// The socket failed: no further connection comes.
    pub fn fail<R: Wait>(&self, rt: &R) {
        self.faults.store(1, Ordering::SeqCst);
        self.shut(rt);
    }

    /// From now on each connection gives way once its requests are answered.
    pub fn note_halt(&self) {
        self.is_over.store(true, Ordering::SeqCst);
    }

    /// Where that was noted no further connection is served.
    pub fn end<R: Wait>(&self, rt: &R) {
        if self.is_over() {
            self.shut(rt);
        }
    }

    /// A connection was closed.
    pub fn leave<R: Wait>(&self, rt: &R) {
        let mut entrance = self.entrance.lock(rt);
        entrance.leave();
        MutexGuard::unlock(entrance);
        self.went.notify_one();
    }

    /// Waits until an open connection has ended, for which an idle one gives way. False if none is open, or no further one is wanted.
    fn wait_for_end<R: Wait>(&self, rt: &R) -> bool {
        let entrance = self.entrance.lock(rt);
        if !entrance.may_ask_again() {
            MutexGuard::unlock(entrance);
            return false;
        }
        let ended = entrance.ended;
        self.lacks.store(1, Ordering::SeqCst);
        let entrance = self.went.wait_while(rt, entrance, |entrance| {
            entrance.ended == ended && !entrance.is_shut
        });
        self.lacks.store(0, Ordering::SeqCst);
        MutexGuard::unlock(entrance);
        true
    }

    /// Whether no further connection is given to a worker.
    fn is_shut<R: Wait>(&self, rt: &R) -> bool {
        let entrance = self.entrance.lock(rt);
        let is_shut = entrance.is_shut;
        MutexGuard::unlock(entrance);
        is_shut
    }

    /// The next connection, or None where no further one comes. It waits for one.
    pub fn next<R: Wait>(&self, rt: &R) -> Option<Visit> {
        let mut entrance = self.entrance.lock(rt);
        if !entrance.begin() {
            MutexGuard::unlock(entrance);
            return None;
        }
        let mut entrance = self.came.wait_while(rt, entrance, |entrance| {
            entrance.stream.is_none() && !entrance.is_shut
        });
        let stream = entrance.end();
        self.waits.store(0, Ordering::SeqCst);
        MutexGuard::unlock(entrance);
        self.went.notify_one();
        stream
    }

    /// Holds a connection for the next worker, once the one before it has gone.
    fn put<R: Wait>(&self, rt: &R, stream: Visit) {
        let entrance = self.entrance.lock(rt);
        let mut entrance = self
            .went
            .wait_while(rt, entrance, |entrance| entrance.stream.is_some());
        if entrance.put(stream) {
            self.waits.store(1, Ordering::SeqCst);
        }
        MutexGuard::unlock(entrance);
        self.came.notify_one();
    }

    /// What comes of an error: none where the socket is to be asked again, at once or since a connection has ended.
    fn after_error<R: Wait>(&self, rt: &R, kind: ErrorKind) -> Option<Admitted> {
        if is_passing(kind) || self.wait_for_end(rt) {
            return None;
        }
        if self.is_shut(rt) {
            return Some(Admitted::Over);
        }
        Some(Admitted::Failed)
    }

    /// The same connection twice: for its reader and for its writer.
    fn visit_of<R: Wait>(&self, rt: &R, stream: TcpStream) -> Admitted {
        for _ in 0..u64::MAX {
            match stream.try_clone() {
                Ok(writer) => {
                    return Admitted::Came(Visit {
                        reader: stream,
                        writer,
                    });
                }
                Err(e) => {
                    if let Some(refused) = self.after_error(rt, e.kind()) {
                        return refused;
                    }
                }
            }
        }
        Admitted::Failed
    }

    /// The next connection from the socket. If the system refuses it while others are open, it is asked again once one of them has ended.
    fn accept<R: Wait>(&self, rt: &R) -> Admitted {
        for _ in 0..u64::MAX {
            match self.listener.accept() {
                Ok((stream, _)) => return self.visit_of(rt, stream),
                Err(e) => {
                    if let Some(refused) = self.after_error(rt, e.kind()) {
                        return refused;
                    }
                }
            }
        }
        Admitted::Failed
    }

    /// Takes `connections` connections from the socket, or fewer if it fails.
    fn admit<R: Wait>(&self, rt: &R, connections: u64) {
        for _ in 0..connections {
            match self.accept(rt) {
                Admitted::Came(stream) => self.put(rt, stream),
                Admitted::Failed => {
                    self.fail(rt);
                    return;
                }
                Admitted::Over => return,
            }
        }
    }
}

/// Opens a source of the next `connections` connections to a socket, which a thread of its own
/// takes for the workers. That thread is never joined: it waits for the next connection when the
/// run ends.
pub fn open<R: Threads + Wait + Copy + Send + 'static>(
    rt: &R,
    alloc: Global,
    listener: TcpListener,
    connections: u64,
    workers: u16,
) -> Result<Arc<AcceptQueue>, AllocError> {
    let door = Arc::new(
        alloc,
        AcceptQueue::new(alloc, listener, connections, workers)?,
    )?;
    let admitted = Arc::try_clone(&door)?;
    let own = *rt;
    let admitting = thread::spawn(rt, move || admitted.admit(&own, connections))?;
    drop(admitting);
    Ok(door)
}

impl Doorway for AcceptQueue {
    fn lets_all_go(&self) -> bool {
        self.is_over()
    }

    fn lets_one_go(&self) -> bool {
        self.waits.swap(0, Ordering::SeqCst) > 0
            || self.lacks.swap(0, Ordering::SeqCst) > 0
            || self.is_over()
    }
}
