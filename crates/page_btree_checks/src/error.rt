//! What isn't so of the pages of a store, and why it isn't told.
use page_store::PageError;

/// What isn't so of a page.
#[derive(Clone, Copy, Drop, PartialEq, Eq)]
pub enum PageFaultKind {
    /// The device has no such page.
    BeyondTheEnd,
    /// It has two owners.
    NamedTwice,
    /// It is in the list of free pages, and has other bytes than a link.
    NotFree,
    /// The list of free pages goes on with it where it is to end.
    ListGoesOn,
    /// Its bytes are no node's, or it is the root of more than six levels.
    NotANode,
    /// It is a node of another level than the tree has there.
    WrongLevel,
    /// Its keys don't rise within its bounds, or it has none.
    KeysOutOfOrder,
    /// It has no owner.
    Lost,
}

/// A page, and what isn't so of it.
#[derive(Clone, Copy, Drop, PartialEq, Eq)]
pub struct PageFault {
    pub page: u32,
    pub kind: PageFaultKind,
}

/// Why pages aren't found sound.
#[derive(Clone, Copy, Drop, PartialEq, Eq)]
pub enum PagesError {
    /// They aren't: this page is the first that was found.
    Unsound(PageFault),
    /// The device failed. The pages answer `Halted` from then on.
    DeviceFault,
    /// The device failed since the pages were opened.
    Halted,
    /// A growth was refused.
    Memory,
}

impl From<PageFault> for PagesError {
    ghost use Rattle.std.specs.Prelude.{◌≡◌};
    ghost use Rattle.page_btree_checks.specs.declared.error.PagesError.TheVariants.{Unsound};

    ghost from_gives = { λ fault e. e ≡ Unsound fault };

    fn from(fault: PageFault) -> Self {
        PagesError::Unsound(fault)
    }
}

impl From<PageError> for PagesError {
    ghost use Rattle.std.specs.Prelude.{◌≡◌};
    ghost use Rattle.page_btree_checks.specs.Errors.{pages_error};

    ghost from_gives = { λ p e. e ≡ pages_error p };

    fn from(error: PageError) -> Self {
        match error {
            PageError::Halted => PagesError::Halted,
            PageError::Memory => PagesError::Memory,
            _ => PagesError::DeviceFault,
        }
    }
}
