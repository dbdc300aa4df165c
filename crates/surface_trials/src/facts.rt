//! Facts that a trial asserts.
use std::process::Abort;

/// Ends the trial with these words where a fact doesn't hold.
pub fn holds<R: Abort>(rt: &R, fact: bool, words: &str) {
    assert!(rt; fact, "{words}");
}
