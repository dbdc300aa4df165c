//! Why nothing is stored.
ghost use Rattle.std.specs.Prelude.{◌≡◌};
ghost use Rattle.store_command.specs.Faults.{fault_of_store};

use desk_store_pages::StoreError;
use std::alloc::AllocError;

/// Why a store isn't made, filled, swept or migrated.
#[derive(Clone, Copy, Drop)]
pub enum StoreFault {
    /// There is no such file, or no such folder.
    NotFound,
    /// The file isn't whole sectors, or is more of them than a store has.
    WrongSize,
    /// The file exists already.
    Exists,
    /// Fewer than 64 pages would remain next to the journal.
    TooSmall,
    /// The file holds no store.
    NotAStore,
    /// The store is of version 1: it is to be migrated first.
    OldVersion,
    /// The store is of version 2: there is nothing to migrate.
    AlreadyNew,
    /// The store has a geography.
    AlreadySealed,
    /// The store has too little room for the geography, or for the rows of the new version.
    Full,
    /// The device failed.
    DeviceFault,
    Memory,
}

impl From<AllocError> for StoreFault {
    ghost use Rattle.store_command.specs.declared.fault.StoreFault.TheVariants.{Memory};

    ghost from_gives = { λ _ fault. fault ≡ Memory };

    fn from(_: AllocError) -> StoreFault {
        StoreFault::Memory
    }
}

/// Returns the fault of a store's refusal. A load that was just begun never ends.
pub fn store_fault(e: StoreError) -> StoreFault
    ensures { result ≡ fault_of_store e }
{
    match e {
        StoreError::TooSmall => StoreFault::TooSmall,
        StoreError::NotAStore => StoreFault::NotAStore,
        StoreError::OldVersion => StoreFault::OldVersion,
        StoreError::AlreadyNew => StoreFault::AlreadyNew,
        StoreError::AlreadySealed => StoreFault::AlreadySealed,
        StoreError::Full => StoreFault::Full,
        StoreError::Memory => StoreFault::Memory,
        StoreError::DeviceFault | StoreError::Halted | StoreError::Ended => StoreFault::DeviceFault,
    }
}
