//! Reads the desk of a store.
ghost use Rattle.std.specs.Prelude.{◌≡◌, Bool, IfOk};
ghost use Rattle.std.specs.BTreeMap.{IsEmpty};
ghost use Rattle.desk_model.specs.claim.Desk.{Desk};
ghost use Rattle.page_store.specs.claim.Transactions.{stored, disk_in, count_of, txn_pages};
ghost use Rattle.page_store.specs.Reading.{ReadsOnly};
ghost use Rattle.page_btree.specs.gets.claim.Map.{InTxn as InTree};
ghost use Rattle.desk_store_rows.specs.claim.Rows.{KeyMap};
ghost use Rattle.desk_store_pages.specs.claim.Desks.{InTxnOf};
ghost use Rattle.desk_store_opening.specs.Opening.{AreCounts, IsMapAs, IsReadFrom, IsShown, OpenErr};
ghost use Rattle.desk_store_opening.specs.Reading.{Reads};

use crate::marks::check_rows;
use crate::none::read_none;
use crate::rows::read_plans;
use desk_store_catalogue::catalogue::Catalogue;
use desk_store_opening_tidy::check_owners;
use desk_store_pages::TreeError;
use geo_tables::geography;
use page_store::{Pages, Txn};
use sector_device::SectorDevice;
use std::alloc::Global;
use std::collections::BTreeMap;
use std::sync::Arc;

/// What the rows of a transaction's desk say: its geography, and each plan with all its revisions. The pages are only read. The
/// plans' numbers are noted, each with the count of its revisions.
fn read_rows<D: SectorDevice>(
    alloc: Global,
    txn: &Txn,
    pages: &mut Pages<D>,
    counts: &mut BTreeMap<u64, u32>,
) -> Result<Catalogue, TreeError>
    requires begun { txn_pages txn.now ≡ count_of pages.old }
    requires none { IsEmpty counts.old }
    ensures { Reads (λ m catalogue. IsShown m catalogue × AreCounts m counts.new) IsMapAs (λ x. x.1) txn.now pages.old pages.new result }
{
    let Some(the_geography) = geography(alloc, txn, pages)? else {
        return read_none(txn, pages);
    };
    let plans = read_plans(alloc, txn, pages, &the_geography, counts)?;
    match Arc::new(alloc, the_geography) {
        Ok(shared) => Ok(Catalogue::restored(Some(shared), plans)),
        Err(_) => Err(TreeError::Memory),
    }
}

/// Returns the desk that a transaction reads, in either version: its geography, and each plan with
/// all its revisions. Only reads the pages. An error is `Memory` if a growth was refused,
/// `DeviceFault`, `NotAStore` if there is no desk, or `Halted`. A store is rejected if the next
/// number is already in use: a later row would be taken for another plan's. It is also rejected if
/// the sealed load is marked as begun, since a sweep would remove its rows; if it has a row that no
/// desk has, as far as `HasNumbersBelow` of desk_store_opening_tidy says; or if it has a part of a revision
/// that no plan has, except parts of deleted plans.
pub fn read_desk<D: SectorDevice>(
    alloc: Global,
    txn: &Txn,
    pages: &mut Pages<D>,
) -> Result<Catalogue, TreeError>
    requires begun { txn_pages txn.now ≡ count_of pages.old }
    ensures reading { ReadsOnly (OpenErr txn.now pages.old pages.new) pages.old pages.new result }
    ensures read { (disk_in pages.new).is_honest → (new : Bool) (d : Desk) → InTxnOf new txn.now (stored pages.old) d
        → IfOk result (λ catalogue. catalogue ≡ d) }
    ensures found { (disk_in pages.new).is_honest → (m : KeyMap) → InTree txn.now (stored pages.old) m
        → IfOk result (λ catalogue. IsReadFrom m catalogue) }
{
    check_rows(txn, pages)?;
    let mut counts = BTreeMap::new(alloc);
    let catalogue = read_rows(alloc, txn, pages, &mut counts)?;
    check_owners(txn, pages, &counts)?;
    Ok(catalogue)
}
