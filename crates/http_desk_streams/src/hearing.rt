//! Who hears of accepted commands.
use crate::accepted::Accepted;
use desk_model::gate::{Gate, NoGate};
use std::sync::atomic::AtomicU64;

/// A gate of served streams that observes accepted commands. Nobody waits for what it does with
/// them.
pub trait CommandObserver: Gate {
    ghost use Rattle.std.specs.Prelude.{◌≡◌, ℕ, Bool};
    ghost use Rattle.http_desk_streams.specs.declared.accepted.Accepted.{Accepted};

    // A worker of this number passed it before a piece of work of this number.
    ghost passes: { Self → ℕ → ℕ → Type 0 } = { λ _ _ _. Unit {0} };

    // Whether anybody listens.
    ghost listening: { Self → Bool };

    // This change was observed.
    ghost hears: { Self → Accepted → Type 0 } = { λ _ _. Unit {0} };

    // It was heard that the store's rows are none that a desk leaves.
    ghost hears_unsound: { Self → Type 0 } = { λ _. Unit {0} };

    /// Passes it before a piece of work.
    fn pass_before(&self, worker: u32, piece: u32)
        ensures { passes self.now worker piece };

    /// Whether anybody hears of commands.
    fn listens(&self) -> bool
        ensures { result ≡ listening self.now };

    /// A command was accepted. Its acknowledgement is sent, or couldn't be.
    fn hear_change(&self, accepted: &Accepted)
        ensures { hears self.now accepted.now };

    /// A command or a step of a sweep may have changed how many pages of the store are free.
    fn hear_room(&self, free_pages: &AtomicU64);

    /// A sweep found rows that no desk leaves. It is over, and took none out after that.
    fn hear_unsound(&self)
        ensures { hears_unsound self.now };
}

impl CommandObserver for NoGate {
    ghost use Rattle.std.specs.Prelude.{false};

    ghost listening = { λ _. false };

    fn pass_before(&self, worker: u32, piece: u32) {
        self.pass(worker, piece);
    }

    fn listens(&self) -> bool {
        false
    }

    fn hear_change(&self, _accepted: &Accepted) {}

    fn hear_room(&self, _free_pages: &AtomicU64) {}

    fn hear_unsound(&self) {}
}
