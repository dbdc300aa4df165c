//! Failures of the device, as the clerk takes them.
ghost use Rattle.std.specs.Prelude.{◌≡◌, ◌⊎◌, true, false};
ghost use Rattle.page_store.specs.claim.Transactions.{has_halted};
ghost use Rattle.desk_store.specs.Failures.{is_failure};

use desk_store_pages::StoreError;
use page_store::Pages;
use sector_device::SectorDevice;

/// Whether a call on pages met a failure.
pub(crate) fn has_failed<D: SectorDevice>(e: StoreError, pages: &Pages<D>) -> bool
    ensures failed { (result ≡ true) → (is_failure e ≡ true) ⊎ (has_halted pages.now ≡ true) }
    ensures passed { (result ≡ false) → (is_failure e ≡ false) × (has_halted pages.now ≡ false) }
{
    match e {
        StoreError::DeviceFault | StoreError::Halted => true,
        _ => pages.is_halted(),
    }
}
