//! Why a call on a tree is refused.
use page_btree_node::NotANode;
use page_store::PageError;

/// Why a call on a tree is refused. The transaction can then only be abandoned; nothing outside it has changed.
#[derive(Clone, Copy, Debug, Drop, PartialEq, Eq)]
pub enum TreeError {
    /// The device failed.
    DeviceFault,
    /// What was read is nothing that a store has; the device didn't fail in this call.
    NotAStore,
    /// The device failed since the pages were opened.
    Halted,
    /// No page is free.
    NoPages,
    /// The tree would have more than six levels.
    TooDeep,
    /// A growth was refused.
    Memory,
}

impl From<PageError> for TreeError {
    ghost use Rattle.std.specs.Prelude.{◌≡◌};
    ghost use Rattle.page_btree_gets.specs.Errors.{tree_error};

    ghost from_gives = { λ p e. e ≡ tree_error p };

    fn from(error: PageError) -> Self {
        match error {
            PageError::NotAStore => TreeError::NotAStore,
            PageError::DeviceFault => TreeError::DeviceFault,
            PageError::Halted => TreeError::Halted,
            PageError::TooManyPages => TreeError::DeviceFault,
            PageError::TooSmall => TreeError::DeviceFault,
            PageError::NoPages => TreeError::NoPages,
            PageError::Memory => TreeError::Memory,
        }
    }
}

impl From<NotANode> for TreeError {
    ghost use Rattle.std.specs.Prelude.{◌≡◌};
    ghost use Rattle.page_btree_gets.specs.declared.error.TreeError.TheVariants.{NotAStore};

    ghost from_gives = { λ _ e. e ≡ NotAStore };

    fn from(_: NotANode) -> Self {
        TreeError::NotAStore
    }
}
