//! Counts rows of a store.
ghost use Rattle.std.specs.Prelude.{◌≡◌, ◌≤◌, false, length, OnErr, IfOk, IfErr};
ghost use Rattle.std.specs.FinMap.{entries};
ghost use Rattle.page_store.specs.claim.Transactions.{disk_in, count_of, has_halted, txn_pages, IsQuiet};
ghost use Rattle.page_btree.specs.gets.claim.Map.{InPages};
ghost use Rattle.btree_scan.specs.Prefixes.{under};
ghost use Rattle.desk_store_rows.specs.claim.Rows.{KeyMap};
ghost use Rattle.desk_store_pages.specs.Looking.{Looks};
ghost use Rattle.desk_store_pages.specs.Openings.{LeavesOneOf};
ghost use Rattle.inspect_command.specs.Rows.{AreCounted, CountsRows, fault_of_rows, AreUnread, IsUncounted};
ghost use Rattle.store_verification.specs.rows.Strays.{IsAny};

use btree_scan::{row_limit, scan};
use desk_store_pages::StoreError;
use page_btree::TreeError;
use page_store::{Pages, Txn};
use sector_device::SectorDevice;
use std::alloc::Global;
use store_command::fault::{StoreFault, store_fault};

/// The pages of a store, and numbers of its rows.
#[derive(Clone, Copy)]
pub struct Rows {
    pub pages: u32,
    /// The number of chunks that plans hold, including deleted plans that were not swept.
    pub chunks: u64,
    /// The plans that were deleted and not swept.
    pub deleted_plans: u64,
    /// The loads that were begun and never sealed, and not swept.
    pub stopped_loads: u64,
}

/// How many rows have keys that begin with a prefix.
fn count_under<D: SectorDevice>(
    txn: &Txn,
    pages: &mut Pages<D>,
    prefix: &[u8],
) -> Result<u64, TreeError>
    requires begun { txn_pages txn.now ≡ count_of pages.old }
    requires short { length prefix.now ≤ 72 }
    ensures { Looks (λ m count. count ≡ length (under prefix.now (entries m))) IsAny txn.now pages.old pages.new result }
{
    let mut scan = scan(prefix);
    for taken in 0..row_limit(txn) {
        if !scan.advance(txn, pages) {
            match scan.fault() {
                None => return Ok(taken),
                Some(fault) => return Err(fault),
            }
        }
    }
    Err(TreeError::NotAStore)
}

/// Counts the rows that a transaction reads.
fn count_rows<D: SectorDevice>(txn: &Txn, pages: &mut Pages<D>) -> Result<Rows, TreeError>
    requires begun { txn_pages txn.now ≡ count_of pages.old }
    ensures looks { Looks AreCounted IsAny txn.now pages.old pages.new result }
    ensures pages { IfOk result (λ rows. rows.pages ≡ txn_pages txn.now) }
{
    let chunks = count_under(txn, pages, b"K")?;
    let deleted_plans = count_under(txn, pages, b"D")?;
    let stopped_loads = count_under(txn, pages, b"L")?;
    Ok(Rows {
        pages: txn.page_count(),
        chunks,
        deleted_plans,
        stopped_loads,
    })
}

/// Returns the fault of rows that could not be counted: unless a failure halted the pages, they are
/// not a store's.
fn rows_fault<D: SectorDevice>(pages: &Pages<D>) -> StoreFault
    ensures { result ≡ fault_of_rows (has_halted pages.now) }
{
    if pages.is_halted() {
        return StoreFault::DeviceFault;
    }
    StoreFault::NotAStore
}

/// Counts the rows of pages that were opened.
fn count_pages<D: SectorDevice>(alloc: Global, pages: &mut Pages<D>) -> Result<Rows, StoreFault>
    requires { has_halted pages.old ≡ false }
    ensures quiet { IsQuiet pages.old pages.new }
    ensures pages { IfOk result (λ rows. rows.pages ≡ count_of pages.old) }
    ensures counted { (disk_in pages.new).is_honest → (m : KeyMap) → InPages pages.old m → IfOk result (λ rows. AreCounted m rows) }
    ensures err { IfErr result (λ fault. fault ≡ fault_of_rows (has_halted pages.new)) }
    ensures unread { OnErr result (AreUnread pages.old pages.new) }
{
    let txn = pages.begin(alloc);
    match count_rows(&txn, pages) {
        Ok(rows) => Ok(rows),
        Err(_) => Err(rows_fault(pages)),
    }
}

/// Counts the rows of a store, and gives its device back. Nothing is written but what a stop in a commit left to be done.
pub fn rows_of<D: SectorDevice>(alloc: Global, device: D) -> (Result<Rows, StoreFault>, D)
    ensures sectors { (D.disk result.1).sectors ≡ (D.disk device).sectors }
    ensures honest { (D.disk result.1).is_honest → (D.disk device).is_honest }
    ensures any_moment { LeavesOneOf (D.disk device) (D.disk result.1) }
    ensures faults { (D.disk result.1).is_honest → (D.disk device).faults ≤ (D.disk result.1).faults }
    ensures counted { IfOk result.0 (λ rows. CountsRows D.SectorDevice device rows result.1) }
    ensures err { IfErr result.0 (λ fault. IsUncounted D.SectorDevice device result.1 fault) }
{
    let mut pages = match Pages::open(alloc, device) {
        Ok(pages) => pages,
        Err((e, left)) => return (Err(store_fault(StoreError::from(e))), left),
    };
    let counted = count_pages(alloc, &mut pages);
    (counted, pages.into_device())
}
