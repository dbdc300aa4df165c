//! Begins transactions where there is room for their rows, and commits them.
ghost use Rattle.std.specs.Prelude.{◌≡◌, ◌≤◌, ◌*◌, ◌↔◌, true, MatchResult, IsTrue};
ghost use Rattle.page_store.specs.claim.Transactions.{journal_of, has_halted, txn_free};
ghost use Rattle.geo_tables.specs.Starting.{IsStarted, StartErr};

use desk_store_pages::{ROW_PAGES, StoreError};
use page_store::{Pages, Txn};
use sector_device::SectorDevice;
use std::alloc::Global;

/// How many pages are free in a transaction.
fn free_pages(txn: &Txn) -> u32
    ensures { result ≡ txn_free txn.now }
{
    txn.free_pages()
}

/// Whether free pages and journal pages are 13 for each row.
pub(crate) fn has_room<D: SectorDevice>(txn: &Txn, pages: &Pages<D>, rows: u32) -> bool
    requires { rows ≤ 513 }
    ensures { IsTrue result ↔ ((13 * rows ≤ txn_free txn.now) × (13 * rows ≤ journal_of pages.now)) }
{
    if free_pages(txn) < ROW_PAGES * rows {
        return false;
    }
    if pages.journal_pages() < ROW_PAGES * rows {
        return false;
    }
    true
}

/// Begins a transaction, for which no room was looked for yet.
pub(crate) fn begin<D: SectorDevice>(alloc: Global, pages: &Pages<D>) -> Result<Txn, StoreError>
    ensures { MatchResult result (IsStarted 0 pages.now) (λ e. (e ≡ StoreError.Halted) × (has_halted pages.now ≡ true)) }
{
    if pages.is_halted() {
        return Err(StoreError::Halted);
    }
    Ok(pages.begin(alloc))
}

/// Begins a transaction that will write `rows` rows.
pub(crate) fn start<D: SectorDevice>(
    alloc: Global,
    pages: &Pages<D>,
    rows: u32,
) -> Result<Txn, StoreError>
    requires { rows ≤ 513 }
    ensures { MatchResult result (IsStarted rows pages.now) (StartErr rows pages.now) }
{
    let txn = begin(alloc, pages)?;
    if !has_room(&txn, pages, rows) {
        return Err(StoreError::Full);
    }
    Ok(txn)
}
