//! Finds the first row under a prefix.
ghost use Rattle.std.specs.Prelude.{◌≡◌, ◌≤◌, [], true, false, length};
ghost use Rattle.page_store.specs.claim.Transactions.{count_of, txn_pages};
ghost use Rattle.desk_store_pages.specs.Looking.{Looks};
ghost use Rattle.plan_revisions_sweeps.specs.Finding.{IsFirst, IsFirstMark};

use btree_scan::{Row, row_limit, scan};
use desk_store_pages::TreeError;
use page_store::{Pages, Txn};
use sector_device::SectorDevice;

/// Copies the first row whose key begins with a prefix, if there is one.
pub(crate) fn first_under<D: SectorDevice>(
    txn: &Txn,
    pages: &mut Pages<D>,
    prefix: &[u8],
    row: &mut Row,
) -> Result<bool, TreeError>
    requires begun { txn_pages txn.now ≡ count_of pages.old }
    requires short { length prefix.now ≤ 72 }
    ensures { Looks (IsFirst prefix.now row.new) (λ m. Unit {0}) txn.now pages.old pages.new result }
{
    let mut scan = scan(prefix);
    if scan.next(txn, pages, row) {
        return Ok(true);
    }
    match scan.fault() {
        None => Ok(false),
        Some(fault) => Err(fault),
    }
}

/// Copies the first row without a value whose key begins with a prefix and isn't the one that is spared, if there is one.
pub(crate) fn first_mark<D: SectorDevice>(
    txn: &Txn,
    pages: &mut Pages<D>,
    prefix: &[u8],
    spared: &[u8],
    row: &mut Row,
) -> Result<bool, TreeError>
    requires begun { txn_pages txn.now ≡ count_of pages.old }
    requires short { length prefix.now ≤ 72 }
    ensures { Looks (IsFirstMark prefix.now spared.now row.new) (λ m. Unit {0}) txn.now pages.old pages.new result }
{
    let mut scan = scan(prefix);
    for taken in 0..row_limit(txn) {
        if !scan.next(txn, pages, row) {
            match scan.fault() {
                None => return Ok(false),
                Some(fault) => return Err(fault),
            }
        }
        if is_mark(row, spared) {
            return Ok(true);
        }
    }
    Err(TreeError::NotAStore)
}

/// Whether a row has no value, and another key than the one that is spared.
fn is_mark(row: &Row, spared: &[u8]) -> bool
    ensures empty { (result ≡ true) → row.now.value ≡ [] }
    ensures apart { (result ≡ true) → row.now.key ≡ spared.now → ⊥ }
    ensures no { (result ≡ false) → row.now.value ≡ [] → row.now.key ≡ spared.now }
{
    if !row.value.as_slice().is_empty() {
        return false;
    }
    if row.key.as_slice() == spared {
        return false;
    }
    true
}
