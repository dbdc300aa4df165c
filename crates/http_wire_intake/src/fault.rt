//! Why reading ends.
ghost use Rattle.std.specs.Prelude.{◌≡◌};

use std::alloc::AllocError;

/// Why reading ended without an answer to it.
#[derive(Clone, Copy)]
pub enum WireFault {
    /// A turn of the reader failed.
    Read,
    /// Memory for a request was refused. What was read of it is lost.
    Memory,
    /// A turn was wanted and none was left.
    TurnLimit,
}

impl From<AllocError> for WireFault {
    ghost use Rattle.http_wire_intake.specs.declared.fault.WireFault.TheVariants.{Memory};

    ghost from_gives = { λ _ e. e ≡ Memory };

    fn from(_: AllocError) -> WireFault {
        WireFault::Memory
    }
}
