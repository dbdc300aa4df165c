//! The old version of the rows: its reading, which is the one of both versions, and its writing for trials, which leads a store of the
//! new version back. Its desk stays; no row tells then who holds a chunk.
ghost use Rattle.std.specs.Prelude.{◌≡◌, false, OnOk};
ghost use Rattle.page_store.specs.claim.Transactions.{disk_in, count_of, has_halted, txn_pages, HasShape};
ghost use Rattle.desk_model.specs.claim.Desk.{Desk};
ghost use Rattle.desk_store_pages.specs.claim.Desks.{InPages, InPagesOf, OpensEither};
ghost use Rattle.desk_store_pages.specs.Moments.{StopsLeave};
ghost use Rattle.desk_migration.specs.Outcomes.{TakesAll, TakesFirst, TakesVersion};

use btree_scan::{Row, row_limit};
use desk_store_opening::first_from;
pub use desk_store_opening::read_desk;
use desk_store_pages::{StoreError, TreeError, commit_txn};
use page_btree::{KEY_LIMIT, remove};
use page_store::{Pages, Txn};
use sector_device::SectorDevice;
use std::alloc::Global;

/// Takes out the first row whose key begins with a tag, if there is one. `row` is room for it.
fn take_first<D: SectorDevice>(
    txn: &mut Txn,
    pages: &mut Pages<D>,
    tag: u8,
    row: &mut Row,
) -> Result<bool, TreeError>
    requires begun { txn_pages txn.old ≡ count_of pages.old }
    ensures { TakesFirst tag txn.old txn.new pages.old pages.new result }
{
    if !first_from(txn, pages, &[tag], row)? {
        return Ok(false);
    }
    let key = row.key.as_slice();
    if key.is_empty() || key.len() > KEY_LIMIT {
        return Err(TreeError::NotAStore);
    }
    if !key.starts_with(&[tag]) {
        return Ok(false);
    }
    remove(txn, pages, key)?;
    Ok(true)
}

/// Takes out each row whose key begins with a tag.
fn take_all<D: SectorDevice>(txn: &mut Txn, pages: &mut Pages<D>, tag: u8) -> Result<(), TreeError>
    requires begun { txn_pages txn.old ≡ count_of pages.old }
    ensures { TakesAll tag txn.old txn.new pages.old pages.new result }
{
    let mut row = Row::empty();
    for taken in 0..row_limit(txn) {
        if !take_first(txn, pages, tag, &mut row)? {
            return Ok(());
        }
    }
    Err(TreeError::NotAStore)
}

/// Removes the rows of holdings, of numbers of holders, and of the version.
fn take_new<D: SectorDevice>(txn: &mut Txn, pages: &mut Pages<D>) -> Result<(), TreeError>
    requires begun { txn_pages txn.old ≡ count_of pages.old }
    ensures { TakesVersion txn.old txn.new pages.old pages.new result }
{
    take_all(txn, pages, b'H')?;
    take_all(txn, pages, b'K')?;
    take_all(txn, pages, b'V')
}

/// Leads a store of the new version back to the old one, in one commit. At any moment of it a stop leaves the desk in either version.
/// `Full` comes for want of journal pages for that commit.
pub fn turn_back<D: SectorDevice>(alloc: Global, pages: &mut Pages<D>) -> Result<(), StoreError>
    requires working { has_halted pages.old ≡ false }
    ensures shape { HasShape pages.old pages.new }
    ensures honest { (disk_in pages.new).is_honest → (disk_in pages.old).is_honest }
    ensures any_moment { StopsLeave (InPages pages.old) OpensEither pages.old pages.new }
    ensures old { (disk_in pages.new).is_honest → (d : Desk) → InPages pages.old d → OnOk result (InPagesOf false pages.new d) }
{
    let mut txn = pages.begin(alloc);
    take_new(&mut txn, pages)?;
    commit_txn(txn, pages)?;
    Ok(())
}
