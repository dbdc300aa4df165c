//! Counts the plans that hold chunks.
ghost use Rattle.std.specs.Prelude.{◌≡◌, ◌<◌, ◌^◌, false, MatchResult};
ghost use Rattle.std.specs.BTreeMap.{IsEmpty, get as count_at};
ghost use Rattle.std.specs.Ordering.{nat_cmp};
ghost use Rattle.page_store.specs.claim.Transactions.{count_of, txn_pages};
ghost use Rattle.page_btree.specs.gets.declared.error.TreeError.TheVariants.{Memory};
ghost use Rattle.page_btree.specs.gets.Tests.{IsTest};
ghost use Rattle.desk_store_pages.specs.Looking.{Gathers, Looks};
ghost use Rattle.plan_revisions_sweeps.specs.Checks.{AreCounts, AreTold, HasCounts, IsCounted, IsEntryTold, IsHoldingRow, IsNewTidy, IsOneMore, so_many};

use crate::held::{chunk_in, holding_in, is_bare, is_there};
use btree_scan::{Row, row_limit, scan};
use desk_store_pages::TreeError;
use desk_store_rows::{Key, eight};
use page_store::{Pages, Txn};
use sector_device::SectorDevice;
use std::collections::BTreeMap;

/// How many plans were counted so far that hold a chunk.
fn counted(counts: &BTreeMap<u64, u64>, number: u64) -> u64
    ensures so { result ≡ so_many (count_at nat_cmp counts.now number) }
    ensures fits { result < 2 ^ 64 }
{
    match counts.get(&number) {
        None => 0,
        Some(count) => *count,
    }
}

/// Counts one plan more that holds a chunk.
fn count_one(counts: &mut BTreeMap<u64, u64>, number: u64) -> Result<(), TreeError>
    ensures { MatchResult result (λ _. IsOneMore number counts.old counts.new) (λ e. e ≡ Memory) }
{
    let before = counted(counts, number);
    if before == u64::MAX {
        return Err(TreeError::Memory);
    }
    match counts.insert(number, before + 1) {
        Ok(_) => Ok(()),
        Err(_) => Err(TreeError::Memory),
    }
}

/// Counts the holder of a chunk by this row. Rejects a row that is no holding, and a holding of a
/// chunk without a count.
fn count_holder<D: SectorDevice>(
    txn: &Txn,
    pages: &mut Pages<D>,
    row: &Row,
    counts: &mut BTreeMap<u64, u64>,
) -> Result<(), TreeError>
    requires begun { txn_pages txn.now ≡ count_of pages.old }
    ensures { Gathers (λ m _. IsCounted row.now counts.old counts.new m) (IsHoldingRow row.now) txn.now pages.old pages.new result }
{
    if !is_bare(row) {
        return Err(TreeError::NotAStore);
    }
    let Some(held) = holding_in(row.key.as_slice()) else {
        return Err(TreeError::NotAStore);
    };
    if !is_there(txn, pages, &Key::holder_count(held.1))? {
        return Err(TreeError::NotAStore);
    }
    count_one(counts, held.1)
}

/// Counts for each chunk the plans that hold it.
pub(crate) fn count_holders<D: SectorDevice>(
    txn: &Txn,
    pages: &mut Pages<D>,
    counts: &mut BTreeMap<u64, u64>,
) -> Result<(), TreeError>
    requires begun { txn_pages txn.now ≡ count_of pages.old }
    requires none { IsEmpty counts.old }
    ensures { Gathers (λ m _. AreCounts counts.new m) IsNewTidy txn.now pages.old pages.new result }
{
    let mut scan = scan(b"H");
    let mut row = Row::empty();
    for taken in 0..row_limit(txn) {
        if !scan.next(txn, pages, &mut row) {
            match scan.fault() {
                None => return Ok(()),
                Some(fault) => return Err(fault),
            }
        }
        count_holder(txn, pages, &row, counts)?;
    }
    Err(TreeError::NotAStore)
}

/// Returns whether a count's row says what was counted.
fn is_told(row: &Row, counts: &BTreeMap<u64, u64>) -> bool
    ensures { IsTest result (IsEntryTold counts.now (row.now.key, row.now.value)) }
{
    let Some(number) = chunk_in(row.key.as_slice()) else {
        return false;
    };
    let value = row.value.as_slice();
    if value.len() != 8 {
        return false;
    }
    match counts.get(&number) {
        None => false,
        Some(count) => eight(value) == *count,
    }
}

/// Refuses a count that isn't that of the plans that hold the chunk. `counts` has what was counted.
pub(crate) fn check_counts<D: SectorDevice>(
    txn: &Txn,
    pages: &mut Pages<D>,
    counts: &BTreeMap<u64, u64>,
) -> Result<(), TreeError>
    requires begun { txn_pages txn.now ≡ count_of pages.old }
    ensures { Looks (λ m _. AreTold counts.now m) (HasCounts counts.now) txn.now pages.old pages.new result }
{
    let mut scan = scan(b"K");
    let mut row = Row::empty();
    for taken in 0..row_limit(txn) {
        if !scan.next(txn, pages, &mut row) {
            match scan.fault() {
                None => return Ok(()),
                Some(fault) => return Err(fault),
            }
        }
        if !is_told(&row, counts) {
            return Err(TreeError::NotAStore);
        }
    }
    Err(TreeError::NotAStore)
}
