//! The workers of an audit.
ghost use Rattle.std.specs.Prelude.{ℕ};

use desk_model::gate::{Gate, NoGate};

/// Is notified of each worker that begins. The workers pass its gate.
pub trait Crew: Gate {
    // Worker w of n began to find its own share.
    ghost begins: { Self → ℕ → ℕ → Type 0 };

    /// Worker `worker` of `workers` begins.
    fn begin(&self, worker: u32, workers: u32)
        ensures { begins self.now worker workers };
}

impl Crew for NoGate {
    // Nothing is noted.
    ghost begins = { λ _ _ _. Unit {0} };

    fn begin(&self, _worker: u32, _workers: u32) {}
}
