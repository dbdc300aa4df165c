//! Checks that the parts of revisions are those of plans that are there, or of some that were taken away.
ghost use Rattle.std.specs.Prelude.{◌≡◌, ◌≤◌, ◌<◌, ◌^◌, length, OnOk};
ghost use Rattle.page_store.specs.claim.Transactions.{count_of, txn_pages};
ghost use Rattle.desk_store_rows.specs.claim.Tidy.{AreRows};
ghost use Rattle.desk_store_opening_tidy.specs.Owners.{AreOwnedBelow, AreOwnedBy, HasOwners, IsNextPart, IsOwned};
ghost use Rattle.desk_store_opening_tidy.specs.Owners.{IsOwnedTo, IsUnderParts, Passes, after_revision};
ghost use Rattle.desk_store_pages.specs.Looking.{Looks};

use crate::firsts::first_from;
use crate::keys::part_in;
use crate::marks::refuse_unmarked;
use btree_scan::{Row, row_limit};
use desk_store_pages::TreeError;
use desk_store_rows::Key;
use page_btree::SmallBytes;
use page_store::{Pages, Txn};
use sector_device::SectorDevice;
use std::collections::BTreeMap;

/// A key after the parts of a revision, and below each other one after these.
fn key_after(plan: u64, revision: u32) -> Key
    ensures is { result ≡ after_revision plan revision }
    ensures fits { revision < 2 ^ 32 }
{
    Key::part(plan, revision, 255).then(&[0])
}

/// The plan and the revision of the first part from a key on; None where there is none.
fn part_from<D: SectorDevice>(
    txn: &Txn,
    pages: &mut Pages<D>,
    from: &[u8],
) -> Result<Option<(u64, u32)>, TreeError>
    requires begun { txn_pages txn.now ≡ count_of pages.old }
    requires short { length from.now ≤ 1024 }
    requires under { IsUnderParts from.now }
    ensures { Looks (IsNextPart from.now) AreRows txn.now pages.old pages.new result }
{
    let mut row = Row::empty();
    let found = first_from(txn, pages, from, &mut row)?;
    if !found {
        return Ok(None);
    }
    if !row.key.as_slice().starts_with(Key::parts().as_slice()) {
        return Ok(None);
    }
    match part_in(row.key.as_slice()) {
        None => Err(TreeError::NotAStore),
        Some(of) => Ok(Some(of)),
    }
}

/// Returns the last revision of which a plan may have parts: its counted ones, or any if the plan
/// was deleted. Rejects the store if it may have no part of this one.
fn last_of<D: SectorDevice>(
    txn: &Txn,
    pages: &mut Pages<D>,
    counts: &BTreeMap<u64, u32>,
    plan: u64,
    revision: u32,
) -> Result<u32, TreeError>
    requires begun { txn_pages txn.now ≡ count_of pages.old }
    ensures { Looks (λ m. IsOwnedTo counts.now m plan revision) (λ m. IsOwned counts.now m plan revision) txn.now pages.old pages.new result }
{
    match counts.get(&plan) {
        None => {
            refuse_unmarked(txn, pages, &Key::retired(plan))?;
            Ok(u32::MAX)
        }
        Some(count) => {
            if revision == 0 || revision > *count {
                return Err(TreeError::NotAStore);
            }
            Ok(*count)
        }
    }
}

/// Goes on from a key to one after the revisions of the plan that has the next part: whether there is one. Refuses where that
/// plan may have no such part.
fn pass_plan<D: SectorDevice>(
    txn: &Txn,
    pages: &mut Pages<D>,
    counts: &BTreeMap<u64, u32>,
    from: &mut SmallBytes,
) -> Result<bool, TreeError>
    requires begun { txn_pages txn.now ≡ count_of pages.old }
    requires under { IsUnderParts from.old }
    ensures looks { Looks (λ m more. AreOwnedBelow counts.now from.old m → Passes more counts.now from.old from.new m) (HasOwners counts.now) txn.now pages.old pages.new result }
    ensures under { OnOk result (IsUnderParts from.new) }
{
    let found = part_from(txn, pages, from.as_slice())?;
    match found {
        None => Ok(false),
        Some((plan, revision)) => {
            let last = last_of(txn, pages, counts, plan, revision)?;
            from.set(key_after(plan, last).as_slice());
            Ok(true)
        }
    }
}

/// Rejects a part of a revision whose plan neither has such a revision nor was deleted. `counts`
/// has the number of revisions for the number of each existing plan. It takes no memory. An error
/// is `NotAStore` if there is such a part, `DeviceFault` or `Halted`.
pub fn check_owners<D: SectorDevice>(
    txn: &Txn,
    pages: &mut Pages<D>,
    counts: &BTreeMap<u64, u32>,
) -> Result<(), TreeError>
    requires begun { txn_pages txn.now ≡ count_of pages.old }
    ensures { Looks (λ m _. AreOwnedBy counts.now m) (HasOwners counts.now) txn.now pages.old pages.new result }
{
    let mut from = SmallBytes::empty();
    from.set(b"R");
    for taken in 0..row_limit(txn) {
        let more = pass_plan(txn, pages, counts, &mut from)?;
        if !more {
            return Ok(());
        }
    }
    Err(TreeError::NotAStore)
}
