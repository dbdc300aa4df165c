//! Rows by their keys.
ghost use Rattle.std.specs.Prelude.{◌≡◌, ℕ, [], true, false, None, MatchOption};
ghost use Rattle.page_store.specs.claim.Transactions.{count_of, txn_pages};
ghost use Rattle.page_btree.specs.gets.Tests.{IsTest};
ghost use Rattle.desk_store_pages.specs.Looking.{Looks};
ghost use Rattle.desk_store_rows.specs.RowKeys.{IsKey};
ghost use Rattle.desk_store_rows.specs.claim.Keys.{holding, holder_count, key_of, part};
ghost use Rattle.plan_revisions_sweeps.specs.Checks.{IsMarkedAs, IsThere};

use btree_scan::Row;
use desk_store_pages::TreeError;
use desk_store_rows::{Key, RowKey};
use page_btree::{VALUE_LIMIT, get};
use page_store::{Pages, Txn};
use sector_device::SectorDevice;

/// Returns the plan and the chunk of the holding with this key; `None` for any other key.
pub(crate) fn holding_in(key: &[u8]) -> Option<(u64, u64)>
    ensures { MatchOption result ((plan number : ℕ) → key.now ≡ key_of (holding plan number) → ⊥) (λ of. IsKey (holding of.0 of.1) key.now) }
{
    match RowKey::read(key) {
        Some(RowKey::Holding { plan, number }) => Some((plan, number)),
        _ => None,
    }
}

/// Returns the chunk whose holders the row with this key counts; `None` for any other key.
pub(crate) fn chunk_in(key: &[u8]) -> Option<u64>
    ensures { MatchOption result ((number : ℕ) → key.now ≡ key_of (holder_count number) → ⊥) (λ number. IsKey (holder_count number) key.now) }
{
    match RowKey::read(key) {
        Some(RowKey::HolderCount { number }) => Some(number),
        _ => None,
    }
}

/// Returns the plan and the index of the part with this key; `None` for any other key.
pub(crate) fn part_in(key: &[u8]) -> Option<(u64, u8)>
    ensures { MatchOption result ((plan revision index : ℕ) → key.now ≡ key_of (part plan revision index) → ⊥)
        (λ of. (revision : ℕ) × IsKey (part of.0 revision of.1) key.now) }
{
    match RowKey::read(key) {
        Some(RowKey::Part { plan, index, .. }) => Some((plan, index)),
        _ => None,
    }
}

/// Whether a row has no value.
pub(crate) fn is_bare(row: &Row) -> bool
    ensures { IsTest result (row.now.value ≡ []) }
{
    row.value.as_slice().is_empty()
}

/// Returns whether a row with this key exists.
pub(crate) fn is_there<D: SectorDevice>(
    txn: &Txn,
    pages: &mut Pages<D>,
    key: &Key,
) -> Result<bool, TreeError>
    requires begun { txn_pages txn.now ≡ count_of pages.old }
    ensures { Looks (IsThere key.now) (λ m. Unit {0}) txn.now pages.old pages.new result }
{
    let mut bytes = [0; VALUE_LIMIT];
    match get(txn, pages, key.as_slice(), &mut bytes)? {
        None => Ok(false),
        Some(_) => Ok(true),
    }
}

/// Returns whether a row with this key and without a value exists.
pub(crate) fn is_marked<D: SectorDevice>(
    txn: &Txn,
    pages: &mut Pages<D>,
    key: &Key,
) -> Result<bool, TreeError>
    requires begun { txn_pages txn.now ≡ count_of pages.old }
    ensures { Looks (IsMarkedAs key.now) (λ m. Unit {0}) txn.now pages.old pages.new result }
{
    let mut bytes = [0; VALUE_LIMIT];
    match get(txn, pages, key.as_slice(), &mut bytes)? {
        None => Ok(false),
        Some(length) => Ok(length == 0),
    }
}
