//! Checks the list of free pages.
ghost use Rattle.std.specs.Prelude.{◌≡◌, ◌<◌, length, OnOk, IfOk, IfErr};
ghost use Rattle.gate_journal.specs.claim.Store.{word};
ghost use Rattle.page_store.specs.claim.Chain.{IsIn};
ghost use Rattle.page_store.specs.claim.Transactions.{stored, disk_in, txn_pages, over};
ghost use Rattle.page_store.specs.Reading.{ReadsOnly};
ghost use Rattle.page_btree_checks.specs.Owners.{named_free, AreNamed, IsBlank, CanName, IsFreeList, CanList, AreMarksFor};
ghost use Rattle.page_btree_checks.specs.Errors.{PagesErr};
ghost use Rattle.page_btree_checks.specs.Faults.{TellsOf};

use crate::error::{PageFault, PageFaultKind, PagesError};
use crate::marks::Marks;
use byte_stream::progress::Progress;
use gate_journal::word_at;
use page_store::{Pages, Txn, is_blank_page};
use sector_device::SectorDevice;

/// Checks a page that the list of free pages names, and gives the one that it names in turn.
fn check_free_page<D: SectorDevice, P: Progress>(
    txn: &Txn,
    pages: &mut Pages<D>,
    marks: &mut Marks,
    progress: &mut P,
    page: u32,
) -> Result<u32, PagesError>
    requires { AreMarksFor txn.now pages.old marks.old }
    ensures reading { ReadsOnly (PagesErr (CanName page marks.old × IsBlank (over txn.now (stored pages.old) page)) pages.old pages.new) pages.old pages.new result }
    ensures named { OnOk result (AreNamed (λ q. q ≡ page) 1 marks.old marks.new) }
    ensures free { (disk_in pages.new).is_honest → IfOk result (λ next.
        (next ≡ word (over txn.now (stored pages.old) page) 0) × IsBlank (over txn.now (stored pages.old) page)) }
    ensures told { (disk_in pages.new).is_honest → IsIn page (named_free (over txn.now (stored pages.old)))
        → IfErr result (λ e. TellsOf (txn_pages txn.now) (over txn.now (stored pages.old)) e) }
{
    marks.name(page)?;
    progress.note(marks.named());
    let own = txn.lend(pages, page, 0)?;
    let bytes = pages.lent(own, 0);
    if !is_blank_page(bytes) {
        return Err(PagesError::Unsound(PageFault {
            page,
            kind: PageFaultKind::NotFree,
        }));
    }
    Ok(word_at(bytes, 0))
}

/// Checks the list of the `count` free pages that begins at the first one.
pub(crate) fn check_free<D: SectorDevice, P: Progress>(
    txn: &Txn,
    pages: &mut Pages<D>,
    marks: &mut Marks,
    progress: &mut P,
    first: u32,
    count: u32,
) -> Result<(), PagesError>
    requires { AreMarksFor txn.now pages.old marks.old }
    ensures reading { ReadsOnly (PagesErr (CanList (over txn.now (stored pages.old)) first count marks.old) pages.old pages.new) pages.old pages.new result }
    ensures long { OnOk result (length marks.new.seen.items ≡ length marks.old.seen.items) }
    ensures free { (disk_in pages.new).is_honest → OnOk result
        (IsFreeList (over txn.now (stored pages.old)) first count marks.old marks.new) }
    ensures told { (disk_in pages.new).is_honest → first ≡ word (over txn.now (stored pages.old) 0) 1 → count ≡ word (over txn.now (stored pages.old) 0) 2
        → IfErr result (λ e. TellsOf (txn_pages txn.now) (over txn.now (stored pages.old)) e) }
{
    let mut next = first;
    for taken in 0..count {
        next = check_free_page(txn, pages, marks, progress, next)?;
    }
    if next != 0 {
        return Err(PagesError::Unsound(PageFault {
            page: next,
            kind: PageFaultKind::ListGoesOn,
        }));
    }
    Ok(())
}
