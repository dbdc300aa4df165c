//! Checks the numbers in a store.
ghost use Rattle.std.specs.Prelude.{◌≡◌};
ghost use Rattle.page_store.specs.claim.Transactions.{count_of, txn_pages};
ghost use Rattle.desk_store_opening_tidy.specs.Numbers.{HasNumbersBelow, IsKept};
ghost use Rattle.desk_store_pages.specs.Looking.{Looks};

use crate::counts::check_after;
use crate::scans::check_rows;
use desk_store_pages::{TreeError, next_numbers};
use page_store::{Pages, Txn};
use sector_device::SectorDevice;

/// Checks that the numbers of plans, chunks and loads in use are below the next ones, and that no
/// row is where a desk has none. It takes no memory. An error is `NotAStore` if that is not so,
/// `DeviceFault` or `Halted`.
pub fn check_numbers<D: SectorDevice>(txn: &Txn, pages: &mut Pages<D>) -> Result<(), TreeError>
    requires begun { txn_pages txn.now ≡ count_of pages.old }
    ensures { Looks (λ m _. HasNumbersBelow m) IsKept txn.now pages.old pages.new result }
{
    let next = next_numbers(txn, pages)?;
    check_rows(txn, pages, next)?;
    check_after(txn, pages, next)
}
