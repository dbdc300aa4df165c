//! A gate between two pieces of work, at which a test can hold a worker.

/// Lets a worker go on to a piece. What it does there is its own; no contract rests on it.
pub trait Gate {
    fn pass(&self, worker: u32, piece: u32);
}

/// The gate that is always open.
#[derive(Clone, Copy)]
pub struct NoGate;

impl Gate for NoGate {
    fn pass(&self, _worker: u32, _piece: u32) {}
}
