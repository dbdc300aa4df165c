//! What the writer of a connection tells its reader.
use std::sync::atomic::{AtomicU64, Ordering};

const FREE: u64 = 0;

const TAKEN: u64 = 1;

const ANSWERED: u64 = 2;

const REFUSED: u64 = 3;

/// Whether a connection has it, and whether that was answered since its last turn of reading, by a refusal or otherwise.
#[derive(Drop)]
pub struct Mark {
    word: AtomicU64,
}

impl Mark {
    /// No connection has it.
    pub fn new() -> Mark {
        Mark {
            word: AtomicU64::new(FREE),
        }
    }

    /// Takes it for a connection, where none has it.
    pub fn take(&self) -> bool {
        self.word
            .compare_exchange(FREE, TAKEN, Ordering::SeqCst, Ordering::SeqCst)
            .is_ok()
    }

    /// Its connection has ended.
    pub fn release(&self) {
        self.word.store(FREE, Ordering::SeqCst);
    }

    /// Its connection was answered.
    pub fn note_answer(&self) {
        self.word.store(ANSWERED, Ordering::SeqCst);
    }

    /// Its connection was answered by a refusal.
    pub fn note_refusal(&self) {
        self.word.store(REFUSED, Ordering::SeqCst);
    }

    /// Whether its connection was refused since its last turn of reading.
    pub fn is_refused(&self) -> bool {
        self.word.load(Ordering::SeqCst) == REFUSED
    }

    /// Whether its connection was answered since this was asked last.
    pub fn take_answer(&self) -> bool {
        if self.word.load(Ordering::SeqCst) < ANSWERED {
            return false;
        }
        self.word.store(TAKEN, Ordering::SeqCst);
        true
    }
}
