//! Why pages are refused.
use sector_device::DeviceFault;
use std::alloc::AllocError;

/// Why pages aren't read, made or committed. A journal by itself answers neither `NoPages` nor `Memory`.
#[derive(Clone, Copy, Debug, Drop, PartialEq, Eq)]
pub enum PageError {
    /// The device holds what no store has.
    NotAStore,
    /// The device failed. What was opened answers `Halted` from then on.
    DeviceFault,
    /// The device failed since the pages were opened.
    Halted,
    /// More pages are to be written than there are journal pages.
    TooManyPages,
    /// Fewer than 64 pages would remain.
    TooSmall,
    /// No page is free.
    NoPages,
    /// A growth was refused.
    Memory,
}

impl From<DeviceFault> for PageError {
    ghost use Rattle.std.specs.Prelude.{◌≡◌};
    ghost use Rattle.gate_journal.specs.declared.error.PageError.TheVariants.{DeviceFault};

    ghost from_gives = { λ _ e. e ≡ DeviceFault };

    fn from(_: DeviceFault) -> Self {
        PageError::DeviceFault
    }
}

impl From<AllocError> for PageError {
    ghost use Rattle.std.specs.Prelude.{◌≡◌};
    ghost use Rattle.gate_journal.specs.declared.error.PageError.TheVariants.{Memory};

    ghost from_gives = { λ _ e. e ≡ Memory };

    fn from(_: AllocError) -> Self {
        PageError::Memory
    }
}
