//! What became of a change.

/// Whether a change that asks for numbers was made.
#[derive(Clone, Copy, Debug, PartialEq, Eq)]
pub enum ChangeOutcome {
    /// Its rows were put.
    Made,
    /// Too few numbers are left: nothing was written.
    NumbersExhausted,
}
