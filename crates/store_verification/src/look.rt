//! What comes of a look at a store.
ghost use Rattle.std.specs.Prelude.{◌≡◌, true, MatchOption};
ghost use Rattle.page_store.specs.gate_journal.declared.error.PageError.{PageError as PageRefusal};
ghost use Rattle.store_verification.specs.Looking.{IsLookOf, IsUnopened};
ghost use Rattle.store_verification.specs.declared.look.Look.TheVariants.{Failed};

use page_store::PageError;

/// What comes of a look at a store.
#[derive(Drop)]
pub enum Look<X> {
    /// What was looked at is so, and this was found.
    Sound(X),
    /// Something isn't so, or memory was refused.
    Unsound,
    /// The device failed.
    Failed,
}

impl<X> Look<X> {
    ghost use Rattle.std.specs.Prelude.{◌≡◌, true};
    ghost use Rattle.store_verification.specs.declared.look.Look.TheVariants.{Failed};

    /// Whether the device failed.
    pub(crate) fn is_failed(&self) -> bool
        ensures { result ≡ true → self.now ≡ Failed }
    {
        match self {
            Look::Failed => true,
            _ => false,
        }
    }
}

/// What comes of a look where the pages aren't opened.
pub(crate) fn unopened<X>(e: PageError) -> Look<X>
    ensures { IsUnopened e result }
{
    match e {
        PageError::DeviceFault => Look::Failed,
        _ => Look::Unsound,
    }
}

/// What comes of a look at pages, which halt where the device fails.
pub(crate) fn look_of<X: Drop>(found: Option<X>, is_halted: bool) -> Look<X>
    ensures { IsLookOf found is_halted result }
{
    if is_halted {
        return Look::Failed;
    }
    match found {
        Some(found) => Look::Sound(found),
        None => Look::Unsound,
    }
}
