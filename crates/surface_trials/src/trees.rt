//! Pages and a tree of rows, in a store that is opened again.
ghost use Rattle.std.specs.Prelude.{◌≡◌};
ghost use Rattle.page_store.specs.claim.Transactions.{count_of, txn_pages};

use btree_scan::{Row, scan};
use page_btree::{get, put, remove};
use page_store::{PageError, Pages, Txn, format};
use sector_memory::{Fused, MemoryDevice};
use std::alloc::Global;
use std::process::Abort;

/// The sectors of the least store, which has 64 pages.
const LEAST: u32 = 323;

/// The pages of a new store. Its device could stop, so that pages are compiled for one type of device.
fn made<R: Abort>(rt: &R, alloc: Global) -> Pages<Fused> {
    let device = MemoryDevice::new(alloc, LEAST).expect(rt, "no memory");
    let mut device = Fused::new(device, u64::MAX);
    holds!(rt; format(alloc, &mut device, 256).is_ok());
    opened(rt, alloc, device)
}

fn opened<R: Abort>(rt: &R, alloc: Global, device: Fused) -> Pages<Fused> {
    Pages::open(alloc, device).ok().expect(rt, "not opened")
}

/// Takes a page, and makes it the root of sevens.
fn take_root<R: Abort>(rt: &R, txn: &mut Txn, pages: &mut Pages<Fused>) -> u32
    requires { txn_pages txn.old ≡ count_of pages.old }
    ensures { txn_pages txn.new ≡ count_of pages.new }
{
    let page = txn.take_page(pages).expect(rt, "no page");
    txn.write(page, &[7; 4096]).expect(rt, "not written");
    txn.set_root(page);
    let mut bytes = [0; 4096];
    holds!(rt; txn.read(pages, page, &mut bytes).is_ok() & (bytes[0] == 7));
    page
}

/// Commits a root: which page it is.
fn commit_root<R: Abort>(rt: &R, alloc: Global, pages: &mut Pages<Fused>) -> u32 {
    let mut txn = pages.begin(alloc);
    let page = take_root(rt, &mut txn, pages);
    let free = txn.free_pages();
    let before = pages.free_pages();
    let ready = txn.prepare().expect(rt, "not prepared");
    holds!(rt; (free == 62) & (before == 63) & ready.commit(pages).is_ok());
    page
}

/// Gives the root back and takes a page, without a commit: which page that is.
fn give_and_take<R: Abort>(rt: &R, alloc: Global, pages: &mut Pages<Fused>, root: u32) -> u32 {
    let mut txn = pages.begin(alloc);
    let given = (txn.root() == root) & txn.give_page(txn.root()).is_ok();
    holds!(rt; given & (txn.free_pages() == 63));
    let again = txn.take_page(pages).expect(rt, "no page");
    txn.abandon();
    again
}

#[test]
fn a_transaction_changes_pages_only_at_its_commit(rt: HostRuntime) {
    let rt = &rt;
    let alloc = rt.alloc();
    let mut pages = made(rt, alloc);
    holds!(rt; (pages.free_pages() == 63) & (pages.journal_pages() == 256));
    let page = commit_root(rt, alloc, &mut pages);
    let committed = pages.free_pages();
    let mut pages = opened(rt, alloc, pages.into_device());
    holds!(rt; (committed == 62) & (pages.free_pages() == 62));
    let again = give_and_take(rt, alloc, &mut pages, page);
    holds!(rt; (again == page) & (pages.free_pages() == 62));
}

#[test]
fn no_page_is_left(rt: HostRuntime) {
    let rt = &rt;
    let mut pages = made(rt, rt.alloc());
    let mut txn = pages.begin(rt.alloc());
    for p in 1..64 {
        holds!(rt; txn.take_page(&mut pages) == Ok(p));
    }
    holds!(rt; txn.take_page(&mut pages) == Err(PageError::NoPages));
}

/// Puts three rows and removes one of them.
fn put_rows<R: Abort>(rt: &R, alloc: Global, pages: &mut Pages<Fused>) {
    let mut txn = pages.begin(alloc);
    holds!(rt; put(&mut txn, pages, b"b", b"2") == Ok(false));
    holds!(rt; put(&mut txn, pages, b"ba", b"") == Ok(false));
    holds!(rt; put(&mut txn, pages, b"a", b"1") == Ok(false));
    holds!(rt; put(&mut txn, pages, b"b", b"3") == Ok(true));
    holds!(rt; remove(&mut txn, pages, b"a") == Ok(true));
    holds!(rt; remove(&mut txn, pages, b"c") == Ok(false));
    let ready = txn.prepare().expect(rt, "not prepared");
    holds!(rt; ready.commit(pages).is_ok());
}

#[test]
fn rows_are_put_got_removed_and_scanned(rt: HostRuntime) {
    let rt = &rt;
    let alloc = rt.alloc();
    let mut pages = made(rt, alloc);
    put_rows(rt, alloc, &mut pages);
    let pages = &mut pages;
    let txn = pages.begin(alloc);
    let mut into = [0; 1024];
    holds!(rt; (get(&txn, pages, b"b", &mut into) == Ok(Some(1))) & (into[0] == b'3'));
    holds!(rt; get(&txn, pages, b"a", &mut into) == Ok(None));
    let mut rows = scan(b"b");
    let mut row = Row::empty();
    let first = rows.next(&txn, pages, &mut row) & (row.key.as_slice() == b"b".as_slice());
    let second = rows.next(&txn, pages, &mut row) & (row.key.as_slice() == b"ba".as_slice());
    holds!(rt; first & second & row.value.as_slice().is_empty());
    holds!(rt; !rows.next(&txn, pages, &mut row) & (rows.fault() == None));
}
