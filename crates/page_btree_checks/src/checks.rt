//! Checks that each page of a store has one owner.
ghost use Rattle.std.specs.Prelude.{◌≡◌, ℕ, OnOk, IfErr};
ghost use Rattle.page_store.specs.claim.Transactions.{stored, disk_in, count_of, txn_pages, over};
ghost use Rattle.page_store.specs.Reading.{ReadsOnly};
ghost use Rattle.page_btree_checks.specs.Owners.{AreOwned, IsSeen, AreMarksFor};
ghost use Rattle.page_btree_checks.specs.Errors.{PagesErr, CheckErr};
ghost use Rattle.page_btree_checks.specs.Faults.{TellsOf};

use crate::error::{PageFault, PageFaultKind, PagesError};
use crate::free::check_free;
use crate::marks::Marks;
use crate::tree::check_root;
use byte_stream::progress::Progress;
use gate_journal::word_at;
use page_store::{Pages, Txn};
use sector_device::{SECTOR_SIZE, SectorDevice};
use std::alloc::Global;

/// Checks the pages that a transaction reads, none of which was named.
fn check_owners<D: SectorDevice, P: Progress>(
    txn: &Txn,
    pages: &mut Pages<D>,
    marks: &mut Marks,
    progress: &mut P,
    rows: &mut u64,
) -> Result<(), PagesError>
    requires marks { AreMarksFor txn.now pages.old marks.old }
    requires none { (q : ℕ) → IsSeen marks.old q → ⊥ }
    requires left { marks.old.left ≡ txn_pages txn.now }
    ensures reading { ReadsOnly (PagesErr (AreOwned (txn_pages txn.now) (over txn.now (stored pages.old))) pages.old pages.new) pages.old pages.new result }
    ensures owned { (disk_in pages.new).is_honest → OnOk result (AreOwned (txn_pages txn.now) (over txn.now (stored pages.old))) }
    ensures told { (disk_in pages.new).is_honest → IfErr result (λ e. TellsOf (txn_pages txn.now) (over txn.now (stored pages.old)) e) }
{
    let mut header = [0; SECTOR_SIZE];
    marks.name(0)?;
    txn.read(pages, 0, &mut header)?;
    check_free(
        txn,
        pages,
        marks,
        progress,
        word_at(&header, 1),
        word_at(&header, 2),
    )?;
    check_root(txn, pages, marks, progress, rows, word_at(&header, 0))?;
    if marks.left > 0 {
        return Err(PagesError::Unsound(PageFault {
            page: marks.first_lost(),
            kind: PageFaultKind::Lost,
        }));
    }
    Ok(())
}

/// Checks that each page of a store has one owner: the header, the list of free pages, or the tree, whose nodes are sound. It reads each
/// page once, and takes memory for a byte a page. With `Unsound` a page comes of which that isn't so. Nothing is written. `rows` rises by
/// the rows of the leaves, and `progress` hears of the pages; of these no clause speaks.
pub fn check_pages<D: SectorDevice, P: Progress>(
    alloc: Global,
    pages: &mut Pages<D>,
    progress: &mut P,
    rows: &mut u64,
) -> Result<(), PagesError>
    ensures reading { ReadsOnly (CheckErr (AreOwned (count_of pages.old) (stored pages.old)) pages.old pages.new) pages.old pages.new result }
    ensures owned { (disk_in pages.new).is_honest → OnOk result (AreOwned (count_of pages.old) (stored pages.old)) }
    ensures told { (disk_in pages.new).is_honest → IfErr result (λ e. TellsOf (count_of pages.old) (stored pages.old) e) }
{
    let txn = pages.begin(alloc);
    progress.expect_pages(u64::from(txn.page_count()));
    let Ok(mut marks) = Marks::new(alloc, txn.page_count()) else {
        return Err(PagesError::Memory);
    };
    check_owners(&txn, pages, &mut marks, progress, rows)
}
