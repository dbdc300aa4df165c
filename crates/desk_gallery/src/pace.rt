//! When a served store may be swept: while no command comes, or after several of them.
use std::sync::Wait;
use std::sync::atomic::{AtomicBool, AtomicU64, Ordering};
use std::time::Duration;

/// The largest number of commands between two steps of a sweep while commands arrive without pause.
const COMMANDS: u64 = 16;

/// The milliseconds without a command before a step, if a command came since the last step.
const CALM: u64 = 20;

/// Signals to a sweeper that commands come, that rows may be left, and that it shall end.
#[derive(Drop)]
pub struct Pace {
    moves: AtomicU64,
    has_rows: AtomicBool,
    is_over: AtomicBool,
    /// 0 until copies end.
    ends: AtomicU64,
}

impl Pace {
    /// Rows may be left by what was before.
    pub fn new() -> Pace {
        Pace {
            moves: AtomicU64::new(0),
            has_rows: AtomicBool::new(true),
            is_over: AtomicBool::new(false),
            ends: AtomicU64::new(0),
        }
    }

    /// How often a command came, or the sweeper was woken.
    pub(crate) fn moves(&self) -> u64 {
        self.moves.load(Ordering::SeqCst)
    }

    /// A command comes.
    pub(crate) fn note_command(&self) {
        self.moves.fetch_add(1, Ordering::SeqCst);
    }

    /// Rows may be left.
    pub(crate) fn note_rows(&self) {
        self.has_rows.store(true, Ordering::SeqCst);
        self.wake();
    }

    /// No row is left.
    pub(crate) fn note_none(&self) {
        self.has_rows.store(false, Ordering::SeqCst);
    }

    /// Nothing is swept or copied from now on.
    pub(crate) fn end(&self) {
        self.is_over.store(true, Ordering::SeqCst);
        self.wake();
        self.ends.store(1, Ordering::SeqCst);
        self.ends.wake_all();
    }

    /// Waits for a number of seconds. Returns false once copies have ended.
    pub(crate) fn rest<R: Wait>(&self, rt: &R, seconds: u32) -> bool {
        for _ in 0..seconds {
            if self.ends.load(Ordering::SeqCst) != 0 {
                return false;
            }
            self.ends.park_timeout(rt, 0, Duration::from_secs(1));
        }
        self.ends.load(Ordering::SeqCst) == 0
    }

    fn wake(&self) {
        self.moves.fetch_add(1, Ordering::SeqCst);
        self.moves.wake_all();
    }

    /// Waits until a step may be made, given the number of moves at the last step. Returns false
    /// once sweeping has ended.
    pub(crate) fn wait<R: Wait>(&self, rt: &R, last: u64) -> bool {
        for _ in rt.forever() {
            let now = self.moves();
            if self.is_over.load(Ordering::SeqCst) {
                return false;
            }
            if !self.has_rows.load(Ordering::SeqCst) {
                self.moves.park(rt, (now & 0xffff_ffff) as u32);
            } else if self.is_calm(rt, now, last) {
                return true;
            }
        }
        unreachable!()
    }

    /// Whether no command comes for a while, or several came since the last step.
    fn is_calm<R: Wait>(&self, rt: &R, now: u64, last: u64) -> bool {
        if now == last || now.wrapping_sub(last) > COMMANDS {
            return true;
        }
        self.moves.park_timeout(rt, (now & 0xffff_ffff) as u32, Duration::from_millis(CALM));
        self.moves() == now
    }
}
