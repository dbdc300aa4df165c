//! Whether pages hold rows at all, whatever these say.
ghost use Rattle.std.specs.Prelude.{◌≡◌, ◌⊎◌, OnOk, IfOk};
ghost use Rattle.page_store.specs.gate_journal.claim.Store.{word};
ghost use Rattle.page_store.specs.claim.Transactions.{stored, disk_in, count_of, txn_pages, over};
ghost use Rattle.page_store.specs.Reading.{ReadsOnly};
ghost use Rattle.page_btree.specs.checks.Owners.{after};
ghost use Rattle.page_btree.specs.gets.Tests.{IsTest};
ghost use Rattle.desk_store_opening.specs.Held.{FollowErr, GoesOn, HeldErr, IsHeld};

use byte_stream::progress::NoProgress;
use desk_store_pages::TreeError;
use page_btree::{PagesError, check_pages};
use page_store::{Pages, Txn, word_at};
use sector_device::{SECTOR_SIZE, SectorDevice};
use std::alloc::Global;

/// Returns the page after `count` free pages from the first one, each of which names the next. An error is `NotAStore` if one of them
/// is beyond the end.
fn follow<D: SectorDevice>(
    txn: &Txn,
    pages: &mut Pages<D>,
    first: u32,
    count: u32,
) -> Result<u32, TreeError>
    requires begun { txn_pages txn.now ≡ count_of pages.old }
    ensures reading { ReadsOnly (FollowErr txn.now first count pages.old pages.new) pages.old pages.new result }
    ensures end { (disk_in pages.new).is_honest → IfOk result (λ page. page ≡ after (over txn.now (stored pages.old)) first count) }
{
    let mut bytes = [0; SECTOR_SIZE];
    let mut page = first;
    for k in 0..count {
        if page >= txn.page_count() {
            return Err(TreeError::NotAStore);
        }
        txn.read(pages, page, &mut bytes)?;
        page = word_at(&bytes, 0);
    }
    Ok(page)
}

/// Returns whether the list of free pages ends after as many as the header says.
fn has_end<D: SectorDevice>(txn: &Txn, pages: &mut Pages<D>) -> Result<bool, TreeError>
    requires begun { txn_pages txn.now ≡ count_of pages.old }
    ensures reading { ReadsOnly (FollowErr txn.now (word (over txn.now (stored pages.old) 0) 1) (word (over txn.now (stored pages.old) 0) 2) pages.old pages.new) pages.old pages.new result }
    ensures end { (disk_in pages.new).is_honest → IfOk result (λ ends. IsTest ends (after (over txn.now (stored pages.old))
        (word (over txn.now (stored pages.old) 0) 1) (word (over txn.now (stored pages.old) 0) 2) ≡ 0)) }
{
    let mut header = [0; SECTOR_SIZE];
    txn.read(pages, 0, &mut header)?;
    let page = follow(txn, pages, word_at(&header, 1), word_at(&header, 2))?;
    Ok(page == 0)
}

/// Checks that pages hold rows: that each page has one owner, and that the tree is sound. An error is `NotAStore` if they hold none,
/// `DeviceFault`, `Halted`, or `Memory` if a growth was refused. It reads each page, takes memory for a byte a page, and writes nothing.
/// If the list of free pages doesn't end where the header says, it looks no further.
pub fn check_held<D: SectorDevice>(alloc: Global, pages: &mut Pages<D>) -> Result<(), TreeError>
    ensures reading { ReadsOnly (HeldErr pages.old pages.new) pages.old pages.new result }
    ensures held { (disk_in pages.new).is_honest → OnOk result (IsHeld (count_of pages.old) (stored pages.old) ⊎ GoesOn (stored pages.old)) }
{
    let txn = pages.begin(alloc);
    if !has_end(&txn, pages)? {
        return Ok(());
    }
    let mut rows = 0;
    match check_pages(alloc, pages, &mut NoProgress, &mut rows) {
        Ok(()) => Ok(()),
        Err(PagesError::Unsound(_)) => Err(TreeError::NotAStore),
        Err(PagesError::DeviceFault) => Err(TreeError::DeviceFault),
        Err(PagesError::Halted) => Err(TreeError::Halted),
        Err(PagesError::Memory) => Err(TreeError::Memory),
    }
}
