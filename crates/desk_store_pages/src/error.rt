//! Why a store refuses.
ghost use Rattle.std.specs.Prelude.{◌≡◌};
ghost use Rattle.desk_store_pages.specs.Errors.{row_refusal};

use page_btree::TreeError;
use page_store::PageError;

/// Why a store isn't made, opened, filled, swept or migrated.
#[derive(Clone, Copy, Debug, Drop, PartialEq, Eq)]
pub enum StoreError {
    /// Fewer than 64 pages would remain.
    TooSmall,
    /// The device holds what no store has, or the rows are none that a desk leaves.
    NotAStore,
    /// The rows are of the old version: the store is to be migrated first.
    OldVersion,
    /// The rows are of the new version: there is nothing to migrate.
    AlreadyNew,
    /// A geography is sealed.
    AlreadySealed,
    /// The store was opened or another load was begun since this load was.
    Ended,
    /// There are too few free pages, journal pages, levels or numbers.
    Full,
    /// A growth was refused.
    Memory,
    /// The device failed.
    DeviceFault,
    /// The device had failed before. At a clerk's load also where it failed in this call.
    Halted,
}

impl From<PageError> for StoreError {
    ghost use Rattle.std.specs.Prelude.{◌≡◌};
    ghost use Rattle.desk_store_pages.specs.Errors.{page_refusal};

    ghost from_gives = { λ p e. e ≡ page_refusal p };

    fn from(error: PageError) -> Self {
        match error {
            PageError::NotAStore => StoreError::NotAStore,
            PageError::DeviceFault => StoreError::DeviceFault,
            PageError::Halted => StoreError::Halted,
            PageError::TooManyPages => StoreError::Full,
            PageError::TooSmall => StoreError::TooSmall,
            PageError::NoPages => StoreError::Full,
            PageError::Memory => StoreError::Memory,
        }
    }
}

impl From<TreeError> for StoreError {
    ghost use Rattle.std.specs.Prelude.{◌≡◌};
    ghost use Rattle.desk_store_pages.specs.Errors.{tree_refusal};

    ghost from_gives = { λ t e. e ≡ tree_refusal t };

    fn from(error: TreeError) -> Self {
        match error {
            TreeError::DeviceFault => StoreError::DeviceFault,
            TreeError::NotAStore => StoreError::NotAStore,
            TreeError::Halted => StoreError::Halted,
            TreeError::NoPages => StoreError::Full,
            TreeError::TooDeep => StoreError::Full,
            TreeError::Memory => StoreError::Memory,
        }
    }
}

/// Why rows aren't read or taken out, neither of which takes a page: the device failed where the pages have halted, memory was refused,
/// or they are none that a desk leaves.
pub fn row_error(error: TreeError, halted: bool) -> StoreError
    ensures { result ≡ row_refusal error halted }
{
    if halted {
        return StoreError::DeviceFault;
    }
    match error {
        TreeError::Memory => StoreError::Memory,
        TreeError::DeviceFault
        | TreeError::NotAStore
        | TreeError::Halted
        | TreeError::NoPages
        | TreeError::TooDeep => StoreError::NotAStore,
    }
}
