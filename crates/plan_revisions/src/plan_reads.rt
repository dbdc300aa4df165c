//! Finds plans.
ghost use Rattle.std.specs.Prelude.{◌≡◌};
ghost use Rattle.page_store.specs.claim.Transactions.{count_of, txn_pages};
ghost use Rattle.plan_revisions.specs.PlanRows.{HasRow, IsFound};
ghost use Rattle.desk_store_pages.specs.Looking.{Looks};

use desk_model::name::PlanName;
use desk_store_pages::{TreeError, get_row};
use desk_store_rows::{Key, StoredPlan};
use page_store::{Pages, Txn};
use sector_device::SectorDevice;

/// Returns the row of a plan's name, or none. It takes no memory. An error is `NotAStore` if the
/// bytes are not a plan's row, `DeviceFault` or `Halted`.
pub fn find_plan<D: SectorDevice>(
    txn: &Txn,
    pages: &mut Pages<D>,
    name: &PlanName,
) -> Result<Option<StoredPlan>, TreeError>
    requires begun { txn_pages txn.now ≡ count_of pages.old }
    ensures { Looks (λ m. IsFound m name.now) (HasRow name.now) txn.now pages.old pages.new result }
{
    get_row(txn, pages, &Key::named(name))
}
