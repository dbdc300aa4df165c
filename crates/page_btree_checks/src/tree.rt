//! Checks the tree of pages.
ghost use Rattle.std.specs.Prelude.{◌≡◌, ◌<◌, length, None, OnOk, IfErr};
ghost use Rattle.std.specs.Option.{option_copied};
ghost use Rattle.page_store.specs.claim.Transactions.{stored, disk_in, count_of, txn_pages, over};
ghost use Rattle.page_store.specs.Reading.{ReadsOnly};
ghost use Rattle.page_btree_gets.specs.node.claim.Node.{IsNode};
ghost use Rattle.page_btree_checks.specs.Owners.{HasLevel, IsWalked, CanWalk, IsRootWalked, CanWalkRoot, AreMarksFor};
ghost use Rattle.page_btree_checks.specs.Errors.{PagesErr};
ghost use Rattle.page_btree_checks.specs.Faults.{IsPlace, StandsWith, TellsOf};
ghost use Rattle.page_store.specs.claim.Chain.{root_in};

use crate::error::{PageFault, PageFaultKind, PagesError};
use crate::marks::Marks;
use crate::order::{child_at, is_ordered, lower, upper};
use byte_stream::progress::Progress;
use page_btree_gets::{NodeBuf, level_of};
use page_store::{Pages, Txn};
use sector_device::SectorDevice;

/// Reads the node of a given level from its page.
fn read_node<D: SectorDevice>(
    txn: &Txn,
    pages: &mut Pages<D>,
    page: u32,
    level: u8,
    node: &mut NodeBuf,
) -> Result<(), PagesError>
    requires begun { txn_pages txn.now ≡ count_of pages.old }
    requires below { page < count_of pages.old }
    ensures reading { ReadsOnly (PagesErr (HasLevel (over txn.now (stored pages.old) page) level) pages.old pages.new) pages.old pages.new result }
    ensures node { (disk_in pages.new).is_honest → OnOk result (IsNode (over txn.now (stored pages.old) page) node.new) }
    ensures level { OnOk result (node.new.level ≡ level) }
    ensures told { (disk_in pages.new).is_honest → StandsWith (over txn.now (stored pages.old)) page (λ d low high. level ≡ d)
        → IfErr result (λ e. TellsOf (txn_pages txn.now) (over txn.now (stored pages.old)) e) }
{
    let own = txn.lend(pages, page, 0)?;
    match node.read(pages.lent(own, 0)) {
        Err(_) => Err(PagesError::Unsound(PageFault {
            page,
            kind: PageFaultKind::NotANode,
        })),
        Ok(()) => {
            if node.level() != level {
                return Err(PagesError::Unsound(PageFault {
                    page,
                    kind: PageFaultKind::WrongLevel,
                }));
            }
            Ok(())
        }
    }
}

/// Checks the tree at a page, whose root is a node of a level and whose keys are within bounds. The first child comes first. `rows` rises
/// by the rows of the leaves.
fn check_tree<D: SectorDevice, P: Progress>(
    txn: &Txn,
    pages: &mut Pages<D>,
    marks: &mut Marks,
    progress: &mut P,
    rows: &mut u64,
    page: u32,
    level: u8,
    low: &[u8],
    high: Option<&[u8]>,
) -> Result<(), PagesError>
    requires { AreMarksFor txn.now pages.old marks.old }
    ensures reading { ReadsOnly (PagesErr (CanWalk (over txn.now (stored pages.old)) level low.now (option_copied high.entry) page marks.old) pages.old pages.new) pages.old pages.new result }
    ensures long { OnOk result (length marks.new.seen.items ≡ length marks.old.seen.items) }
    ensures walked { (disk_in pages.new).is_honest → OnOk result
        (IsWalked (over txn.now (stored pages.old)) level low.now (option_copied high.entry) page marks.old marks.new) }
    ensures told { (disk_in pages.new).is_honest → IsPlace (over txn.now (stored pages.old)) page level low.now (option_copied high.entry)
        → IfErr result (λ e. TellsOf (txn_pages txn.now) (over txn.now (stored pages.old)) e) }
{
    marks.name(page)?;
    progress.note(marks.named());
    let mut node = NodeBuf::EMPTY;
    read_node(txn, pages, page, level, &mut node)?;
    if !is_ordered(&node, low, high) {
        return Err(PagesError::Unsound(PageFault {
            page,
            kind: PageFaultKind::KeysOutOfOrder,
        }));
    }
    if level == 0 {
        *rows = rows.saturating_add(node.len() as u64);
        return Ok(());
    }
    for k in 0..node.len() {
        let child = child_at(&node, k);
        let from = lower(&node, k, low);
        let to = upper(&node, k, high);
        check_tree(
            txn,
            pages,
            marks,
            progress,
            rows,
            child,
            level - 1,
            from,
            to,
        )?;
    }
    Ok(())
}

/// Checks the tree at a root. Page 0 means no tree.
pub(crate) fn check_root<D: SectorDevice, P: Progress>(
    txn: &Txn,
    pages: &mut Pages<D>,
    marks: &mut Marks,
    progress: &mut P,
    rows: &mut u64,
    root: u32,
) -> Result<(), PagesError>
    requires { AreMarksFor txn.now pages.old marks.old }
    ensures reading { ReadsOnly (PagesErr (CanWalkRoot (over txn.now (stored pages.old)) root marks.old) pages.old pages.new) pages.old pages.new result }
    ensures long { OnOk result (length marks.new.seen.items ≡ length marks.old.seen.items) }
    ensures walked { (disk_in pages.new).is_honest → OnOk result (IsRootWalked (over txn.now (stored pages.old)) root marks.old marks.new) }
    ensures told { (disk_in pages.new).is_honest → root ≡ root_in (over txn.now (stored pages.old))
        → IfErr result (λ e. TellsOf (txn_pages txn.now) (over txn.now (stored pages.old)) e) }
{
    if root == 0 {
        return Ok(());
    }
    if root >= txn.page_count() {
        return Err(PagesError::Unsound(PageFault {
            page: root,
            kind: PageFaultKind::BeyondTheEnd,
        }));
    }
    let own = txn.lend(pages, root, 0)?;
    let level = level_of(pages.lent(own, 0));
    if level > 5 {
        return Err(PagesError::Unsound(PageFault {
            page: root,
            kind: PageFaultKind::NotANode,
        }));
    }
    check_tree(txn, pages, marks, progress, rows, root, level, &[], None)
}
