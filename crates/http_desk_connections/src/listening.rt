//! Where streams come from until it fails.
ghost use Rattle.std.specs.Prelude.{Bool};

use crate::arrivals::Arrivals;

/// Where streams come from until it fails.
pub trait FallibleArrivals: Arrivals {
    // It was asked whether it failed, and said this.
    ghost fails: { Self → Bool → Type 0 } = { λ _ _. Unit {0} };

    /// Whether no further stream comes since it failed.
    fn has_failed(&self) -> bool
        ensures { fails self.now result };
}
