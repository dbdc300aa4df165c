//! The geography of a store, compared with the one that census files say.
ghost use Rattle.std.specs.Prelude.{◌≡◌, false};
ghost use Rattle.page_store.specs.claim.Transactions.{has_halted};
ghost use Rattle.inspect_command.specs.Comparing.{ComparesDevice, ComparesPages, fault_of_tree};

use census_difference::{Difference, first_difference};
use desk_model::geography::Geography;
use desk_store::geography;
use desk_store_pages::{StoreError, TreeError};
use page_store::Pages;
use sector_device::SectorDevice;
use std::alloc::Global;
use store_command::fault::{StoreFault, store_fault};
use store_command::one_desk_opens;

/// Returns the fault of a geography that is not read.
fn fault_of(e: TreeError) -> StoreFault
    ensures { result ≡ fault_of_tree e }
{
    match e {
        TreeError::Memory => StoreFault::Memory,
        TreeError::DeviceFault | TreeError::Halted => StoreFault::DeviceFault,
        TreeError::NotAStore | TreeError::NoPages | TreeError::TooDeep => StoreFault::NotAStore,
    }
}

/// Compares the geography that opened pages hold with this one.
fn compare_pages<D: SectorDevice>(
    alloc: Global,
    pages: &mut Pages<D>,
    said: &Geography,
) -> Result<Option<Difference>, StoreFault>
    requires { has_halted pages.old ≡ false }
    ensures { ComparesPages said.now pages.old pages.new result }
{
    let txn = pages.begin(alloc);
    match geography(alloc, &txn, pages) {
        Ok(stored) => Ok(first_difference(stored.as_ref(), said)),
        Err(e) => Err(fault_of(e)),
    }
}

/// Compares the geography of the store on a device with this one, and returns the device. An error
/// is `Memory` or `DeviceFault` if the device holds a desk. Writes
/// nothing but what completes an interrupted commit.
pub fn compare_device<D: SectorDevice + Drop>(
    alloc: Global,
    device: D,
    said: &Geography,
) -> (Result<Option<Difference>, StoreFault>, D)
    ensures { ComparesDevice D.SectorDevice said.now device result.0 result.1 }
{
    one_desk_opens();
    let mut pages = match Pages::open(alloc, device) {
        Ok(pages) => pages,
        Err((e, left)) => return (Err(store_fault(StoreError::from(e))), left),
    };
    let compared = compare_pages(alloc, &mut pages, said);
    (compared, pages.into_device())
}
