//! Rows whose numbers are below those that come next.
ghost use Rattle.std.specs.Prelude.{◌≡◌, true, false};
ghost use Rattle.page_btree.specs.gets.Tests.{IsTest};
ghost use Rattle.desk_store_rows.specs.claim.Keys.{Fits, RowKey as RowOf, key_of};
ghost use Rattle.desk_store_rows.specs.RowKeys.{row_of};
ghost use Rattle.desk_store_opening_tidy.specs.Numbers.{IsBelow, NumbersFit};
ghost use Rattle.desk_store_opening_tidy.specs.Rows.{IsPast, IsRow};

use crate::numbers::{are_chunks_below, is_count, is_plan_below, is_seal_below, is_version};
use btree_scan::Row;
use desk_store_rows::{Counters, RowKey};

/// Returns whether each number of a row is below the next one of its kind, whether a row of a
/// holding or of a number of holders says no more than that, and whether a version is the second.
/// The rows of blocks, of neighbours and of chunks' pieces are not examined.
fn is_below(key: RowKey, value: &[u8], next: Counters) -> bool
    ensures { IsTest result (IsBelow next (row_of key.entry) value.now) }
{
    match key {
        RowKey::Retired { plan } => plan < next.plan,
        RowKey::Begun { load } => load < next.load,
        RowKey::Holding { plan, number } => {
            plan < next.plan && number < next.chunk && value.is_empty()
        }
        RowKey::HolderCount { number } => number < next.chunk && is_count(value, next.plan),
        RowKey::Named { .. } => is_plan_below(value, next.plan),
        RowKey::Part { plan, .. } => plan < next.plan && are_chunks_below(value, next.chunk),
        RowKey::Seal => is_seal_below(value, next.load),
        RowKey::Version => is_version(value),
        _ => true,
    }
}

/// Whether a row is that of a key, and each number that it has is below the one of its kind that comes next.
pub(crate) fn is_sound(row: &Row, next: Counters) -> bool
    ensures row { result ≡ true → IsRow row.now.key }
    ensures below { result ≡ true → (of : RowOf) → NumbersFit of → row.now.key ≡ key_of of → IsBelow next of row.now.value }
    ensures none { result ≡ false → (IsPast row.now.key → ⊥) → (of : RowOf) → Fits of → NumbersFit of → row.now.key ≡ key_of of
        → IsBelow next of row.now.value → ⊥ }
{
    match RowKey::read(row.key.as_slice()) {
        None => false,
        Some(key) => is_below(key, row.value.as_slice(), next),
    }
}

/// Whether a row comes after all those that are looked at.
pub(crate) fn is_past(row: &Row) -> bool
    ensures { IsTest result (IsPast row.now.key) }
{
    let key = row.key.as_slice();
    if key.is_empty() {
        return false;
    }
    key[0] > b'V'
}
