//! The reader of a connection, which judges how long that is kept.
ghost use Rattle.std.specs.Prelude.{◌≡◌, ◌⊎◌, ◌/◌, ◌-◌, ◌^◌, ℕ, List, None, true, length, min};
ghost use Rattle.std.specs.Duration.{as_nanos};
ghost use Rattle.byte_stream.specs.claim.Counts.{counted};
ghost use Rattle.byte_stream.specs.Turns.{TurnConsumes, failures_after};
ghost use Rattle.http_desk_connections.specs.Paces.{IsPatient, TakesInTime};
ghost use Rattle.http_desk_connections.specs.Taking.{MayEnd, TakesBytes};

use crate::doorway::Doorway;
use crate::mark::Mark;
use crate::pace::{Limits, Pace, TimeoutAction};
use byte_stream::source::{Source, Turn, turn_of};
use std::io::{ErrorKind, Read};
use std::net::{Shutdown, TcpStream};
use std::time::{Clock, Duration};

/// For how long what comes after a refusal is dropped, in milliseconds.
const DRAIN_TIME: u64 = 30_000;

/// How many slices of silence end that.
const DRAIN_SILENCE: u64 = 10;

/// The reader of a connection. Its reads wait for a slice of a second each.
#[derive(Drop)]
pub struct KeptSource<'a, S, R, O> {
    rt: &'a R,
    door: &'a O,
    mark: &'a Mark,
    reader: S,
    limits: Limits,
    pace: Pace,
    turns: u64,
    failures: u64,
    ghost patient: { IsPatient limits pace },
}

/// Whether a read that failed so waited for nothing.
fn is_silence(kind: ErrorKind) -> bool
    ensures would_block { kind ≡ ErrorKind.WouldBlock → result ≡ true }
    ensures timed_out { kind ≡ ErrorKind.TimedOut → result ≡ true }
    ensures only { result ≡ true → (kind ≡ ErrorKind.WouldBlock) ⊎ (kind ≡ ErrorKind.TimedOut) }
{
    match kind {
        ErrorKind::WouldBlock => true,
        ErrorKind::TimedOut => true,
        _ => false,
    }
}

/// A length of time in milliseconds, as far as 64 bits go.
fn millis_in(time: Duration) -> u64
    ensures { result ≡ min (as_nanos time / 1_000_000) (2 ^ 64 - 1) }
{
    u64::try_from(time.as_millis()).unwrap_or(u64::MAX)
}

/// The milliseconds that a clock shows. Where it can't be read it is as late as when the last byte came, so that no request ends by time.
fn time_of<R: Clock>(rt: &R, last: u64) -> u64 {
    match rt.monotonic() {
        Ok(time) => millis_in(time),
        Err(_) => last,
    }
}

/// Whether the door lets a connection go, which is asked only if that has asked for nothing.
fn is_let_go<O: Doorway>(door: &O, asks: bool) -> bool
    ensures { result ≡ true → O.lets_go door.now }
{
    !asks && door.lets_one_go()
}

/// Reads until bytes come, the stream ends, or the connection's time is up, which is looked at after each slice of silence.
#[tactic(auto, using(crate::proofs::Taken::turns, crate::proofs::Taken::ends_by_fate))]
fn take_turn<S: Read, R: Clock, O: Doorway>(
    rt: &R,
    door: &O,
    limits: &Limits,
    pace: &mut Pace,
    reader: &mut S,
    buf: &mut [u8],
) -> Turn
    requires { IsPatient limits.now pace.old }
    ensures bytes { TurnConsumes None None result buf.new }
    ensures patient { IsPatient limits.now pace.new }
    ensures timely { TakesInTime limits.now pace.old result }
    ensures taken { TakesBytes (S.remaining reader.old) (S.remaining reader.new) result buf.new }
    ensures ends { MayEnd (O.lets_go door.now) limits.now pace.new (S.remaining reader.new) result buf.new }
{
    match pace.fate(pace.last, door.lets_all_go(), limits) {
        TimeoutAction::Waits => {}
        TimeoutAction::GivesWay => return Turn::Read(0),
        TimeoutAction::Fails => return Turn::Failed,
    }
    for _ in 0..u64::MAX {
        match reader.read(buf) {
            Ok(0) => return Turn::Read(0),
            Ok(n) => {
                *pace = pace.with_bytes(time_of(rt, pace.last));
                return Turn::Read(n);
            }
            Err(e) => {
                if !is_silence(e.kind()) {
                    return turn_of(e.kind());
                }
            }
        }
        *pace = pace.with_silence();
        let another_waits = is_let_go(door, pace.asks);
        match pace.fate(time_of(rt, pace.last), another_waits, limits) {
            TimeoutAction::Waits => {}
            TimeoutAction::GivesWay => return Turn::Read(0),
            TimeoutAction::Fails => return Turn::Failed,
        }
    }
    Turn::Failed
}

/// Reads on and drops what comes, until the stream ends, a second of silence, half a minute, or another connection waits.
fn drain<S: Read, R: Clock, O: Doorway>(rt: &R, door: &O, reader: &mut S) {
    let mut dropped = [0; 8_192];
    let start = time_of(rt, 0);
    let mut silent = 0u64;
    for _ in 0..u64::MAX {
        match reader.read(&mut dropped) {
            Ok(0) => return,
            Ok(_) => silent = 0,
            Err(e) => {
                if !is_silence(e.kind()) {
                    return;
                }
                silent = silent.saturating_add(1);
            }
        }
        let spent = time_of(rt, start).saturating_sub(start);
        if silent >= DRAIN_SILENCE || spent >= DRAIN_TIME || door.lets_one_go() {
            return;
        }
    }
}

impl<'a, R: Clock, O: Doorway> KeptSource<'a, TcpStream, R, O> {
    /// If the connection ends after a refusal, signals the client that no response follows, and
    /// drops what it still sends. If it were closed with unread bytes, the system would reset it,
    /// and the refusal could be lost (RFC 9112, section 9.6).
    pub fn linger(&mut self) {
        if self.mark.is_refused() && self.reader.shutdown(Shutdown::Write).is_ok() {
            drain(self.rt, self.door, &mut self.reader);
        }
    }
}

impl<'a, S: Read, R: Clock, O: Doorway> KeptSource<'a, S, R, O> {
    /// The reader of a connection that has this mark.
    pub fn new(
        rt: &'a R,
        door: &'a O,
        mark: &'a Mark,
        reader: S,
        limits: Limits,
    ) -> KeptSource<'a, S, R, O>
        ensures reader { result.reader ≡ reader }
        ensures limits { result.limits ≡ limits }
        ensures none { (result.turns ≡ 0) × (result.failures ≡ 0) }
    {
        KeptSource {
            rt,
            door,
            mark,
            reader,
            limits,
            pace: Pace::new(),
            turns: 0,
            failures: 0,
        }
    }

    /// The connection has ended.
    pub fn release(&self) {
        self.mark.release();
    }
}

impl<'a, S: Read, R: Clock, O: Doorway> Source for KeptSource<'a, S, R, O> {
    // A connection that gives way may have had more.
    ghost remaining = { λ _. None };

    ghost turns = { λ s. s.turns };

    ghost failures = { λ s. s.failures };

    fn turn(&mut self, buf: &mut [u8]) -> Turn
        ensures bytes { TurnConsumes None None result buf.new }
        ensures turns { self.new.turns ≡ counted self.old.turns 1 }
        ensures failures { self.new.failures ≡ failures_after self.old.failures result }
        ensures taken { TakesBytes (S.remaining self.old.reader) (S.remaining self.new.reader) result buf.new }
        ensures ends { MayEnd (O.lets_go self.new.door.now) self.new.limits self.new.pace (S.remaining self.new.reader) result buf.new }
    {
        self.turns = self.turns.saturating_add(1);
        self.pace = self.pace.at_turn(self.mark.take_answer(), buf.len());
        let turn = take_turn(
            self.rt,
            self.door,
            &self.limits,
            &mut self.pace,
            &mut self.reader,
            buf,
        );
        if turn == Turn::Failed {
            self.failures = self.failures.saturating_add(1);
        }
        turn
    }
}
