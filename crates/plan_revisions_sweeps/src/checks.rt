//! Checks which plans hold chunks.
ghost use Rattle.std.specs.Prelude.{◌≡◌};
ghost use Rattle.page_store.specs.claim.Transactions.{count_of, txn_pages};
ghost use Rattle.desk_store_pages.specs.Looking.{Gathers};
ghost use Rattle.plan_revisions_sweeps.specs.claim.Checks.{AreSoundHoldings};
ghost use Rattle.plan_revisions_sweeps.specs.Checks.{IsNewTidy};

use crate::counts::{check_counts, count_holders};
use crate::names::check_names;
use desk_store_pages::TreeError;
use page_store::{Pages, Txn};
use sector_device::SectorDevice;
use std::alloc::Global;
use std::collections::BTreeMap;

/// Checks that each chunk's count is the number of plans that hold it, and that each existing plan
/// holds every chunk that a part of its revisions names. It passes over the rows of holdings, of
/// counts and of parts once, and takes memory for a number for each chunk, and for those of one
/// revision. An error is `Memory`, `NotAStore` if that is not so, `DeviceFault` or `Halted`.
pub fn check_holdings<D: SectorDevice>(
    alloc: Global,
    txn: &Txn,
    pages: &mut Pages<D>,
) -> Result<(), TreeError>
    requires begun { txn_pages txn.now ≡ count_of pages.old }
    ensures { Gathers (λ m _. AreSoundHoldings m) IsNewTidy txn.now pages.old pages.new result }
{
    let mut counts = BTreeMap::new(alloc);
    count_holders(txn, pages, &mut counts)?;
    check_counts(txn, pages, &counts)?;
    check_names(alloc, txn, pages)
}
