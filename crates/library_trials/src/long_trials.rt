//! The longest rows, keys that begin one another, and a store that is full.
ghost use Rattle.std.specs.Prelude.{◌≡◌, ◌≤◌, length};
ghost use Rattle.page_btree.specs.gets.Keys.{IsKey};
ghost use Rattle.page_store.specs.claim.Transactions.{count_of, txn_pages};

use page_btree::{Finger, TreeError, get, put, put_with, remove};
use page_store::{Pages, Txn, format};
use sector_memory::{Fused, MemoryDevice};
use std::alloc::Global;
use std::process::Abort;

/// A device whose calls all pass. It is one that could stop, so that pages and rows are compiled for fewer types of devices.
pub fn passing(device: MemoryDevice) -> Fused {
    Fused::new(device, u64::MAX)
}

pub fn made<R: Abort>(rt: &R, alloc: Global, sectors: u32) -> Pages<Fused> {
    let mut device = passing(MemoryDevice::new(alloc, sectors).expect(rt, "no memory"));
    format(alloc, &mut device, 256).expect(rt, "not formatted");
    opened(rt, alloc, device)
}

pub fn opened<R: Abort>(rt: &R, alloc: Global, device: Fused) -> Pages<Fused> {
    Pages::open(alloc, device).ok().expect(rt, "not opened")
}

/// Commits a transaction unless it was refused, and returns the result.
fn store(
    txn: Txn,
    pages: &mut Pages<Fused>,
    told: Result<bool, TreeError>,
) -> Result<bool, TreeError>
    requires { txn_pages txn ≡ count_of pages.old }
{
    if told.is_ok() {
        txn.prepare()?.commit(pages)?;
    }
    told
}

/// A key of 72 bytes that begins with its number.
pub fn long_key(n: u32) -> [u8; 72] {
    let mut key = [7; 72];
    let [a, b, c, d] = n.to_be_bytes();
    key[0] = a;
    key[1] = b;
    key[2] = c;
    key[3] = d;
    key
}

/// Puts a row by a transaction of its own, and returns whether its key existed.
pub fn put_row(
    alloc: Global,
    pages: &mut Pages<Fused>,
    key: &[u8],
    value: &[u8],
) -> Result<bool, TreeError>
    requires key { IsKey key.now }
    requires value { length value.now ≤ 1024 }
{
    let mut txn = pages.begin(alloc);
    let had = put(&mut txn, pages, key, value);
    store(txn, pages, had)
}

/// Puts a row whose key has 72 bytes and whose value has 1,024: a leaf has room for three.
pub fn put_long(alloc: Global, pages: &mut Pages<Fused>, n: u32) -> Result<bool, TreeError> {
    put_row(alloc, pages, &long_key(n), &[(n % 256) as u8; 1024])
}

/// Returns whether such a row exists as it was put.
pub fn has_long(alloc: Global, pages: &mut Pages<Fused>, n: u32) -> Result<bool, TreeError> {
    let txn = pages.begin(alloc);
    let mut into = [0; 1024];
    let found = get(&txn, pages, &long_key(n), &mut into);
    txn.abandon();
    match found {
        Ok(Some(1024)) => Ok(into == [(n % 256) as u8; 1024]),
        Ok(_) => Ok(false),
        Err(e) => Err(e),
    }
}

/// Puts the longest rows until one is refused: how many were put, and why no more.
fn fill(alloc: Global, pages: &mut Pages<Fused>) -> Option<(u32, TreeError)> {
    for n in 0..1000u32 {
        if let Err(error) = put_long(alloc, pages, n) {
            return Some((n, error));
        }
    }
    None
}

/// Removes a row by a transaction of its own, and returns whether it existed.
pub fn take_row(alloc: Global, pages: &mut Pages<Fused>, key: &[u8]) -> Result<bool, TreeError>
    requires { IsKey key.now }
{
    let mut txn = pages.begin(alloc);
    let had = remove(&mut txn, pages, key);
    store(txn, pages, had)
}

/// Removes such a row, and returns whether it existed.
pub fn remove_long(alloc: Global, pages: &mut Pages<Fused>, n: u32) -> Result<bool, TreeError> {
    take_row(alloc, pages, &long_key(n))
}

/// What is done with a row.
#[derive(Clone, Copy)]
enum Deed {
    Find,
    Put,
    Remove,
}

/// How many of the first rows are found as they were put, are put again, or are removed.
fn count_rows(alloc: Global, pages: &mut Pages<Fused>, rows: u32, deed: Deed) -> u32 {
    let mut count = 0u32;
    for n in 0..rows {
        let was_there = match deed {
            Deed::Find => has_long(alloc, pages, n),
            Deed::Put => put_long(alloc, pages, n),
            Deed::Remove => remove_long(alloc, pages, n),
        };
        if was_there == Ok(true) {
            count = count.saturating_add(1);
        }
    }
    count
}

#[test]
fn a_full_store_keeps_its_rows(rt: HostRuntime) {
    let rt = &rt;
    let alloc = rt.alloc();
    let mut pages = made(rt, alloc, 330);
    let before = pages.free_pages();
    let (rows, error) = fill(alloc, &mut pages).expect(rt, "never full");
    let free = pages.free_pages();
    let again = put_long(alloc, &mut pages, rows).err();
    holds!(rt; (error == TreeError::NoPages) & (rows > 100) & (again == Some(error)));
    holds!(rt; pages.free_pages() == free);
    let found = count_rows(alloc, &mut pages, rows, Deed::Find);
    let put = count_rows(alloc, &mut pages, rows, Deed::Put);
    holds!(rt; (found == rows) & (put == rows) & (pages.free_pages() == free));
    let removed = count_rows(alloc, &mut pages, rows, Deed::Remove);
    holds!(rt; (removed == rows) & (pages.free_pages() == before));
}

/// Puts such a row in a transaction, and returns whether it was put.
fn has_put(txn: &mut Txn, pages: &mut Pages<Fused>, n: u32) -> bool
    requires { txn_pages txn.old ≡ count_of pages.old }
    ensures { txn_pages txn.new ≡ count_of pages.new }
{
    let mut finger = Finger::none();
    let value = [(n % 256) as u8; 1024];
    put_with(txn, pages, &mut finger, &long_key(n), &value).is_ok()
}

/// Puts four such rows in one transaction, which is let go of: how many were put before one was refused.
fn put_four(alloc: Global, pages: &mut Pages<Fused>, n: u32) -> u32 {
    let mut txn = pages.begin(alloc);
    let mut count = 0u32;
    for i in 0..4u32 {
        if !has_put(&mut txn, pages, n.wrapping_add(i)) {
            break;
        }
        count = count.saturating_add(1);
    }
    count
}

/// Removes the last rows, at most three, until one more page is free, and returns how many rows are
/// left.
fn remove_last<R: Abort>(
    rt: &R,
    alloc: Global,
    pages: &mut Pages<Fused>,
    rows: u32,
    full: u32,
) -> u32 {
    let mut left = rows;
    for _ in 0..3 {
        if pages.free_pages() == full {
            left = left.saturating_sub(1);
            holds!(rt; remove_long(alloc, pages, left) == Ok(true));
        }
    }
    left
}

#[test]
fn a_transaction_that_fills_the_store_changes_nothing(rt: HostRuntime) {
    let rt = &rt;
    let alloc = rt.alloc();
    let mut pages = made(rt, alloc, 330);
    let (rows, _) = fill(alloc, &mut pages).expect(rt, "never full");
    let full = pages.free_pages();
    let left = remove_last(rt, alloc, &mut pages, rows, full);
    let free = pages.free_pages();
    let put = put_four(alloc, &mut pages, left);
    holds!(rt; (free > full) & (put > 0) & (put < 4) & (pages.free_pages() == free));
    let found = count_rows(alloc, &mut pages, left, Deed::Find);
    holds!(rt; (found == left) & (has_long(alloc, &mut pages, left) == Ok(false)));
}

/// Puts a row under the first `length` bytes of a key, and returns that length.
fn put_prefix(alloc: Global, pages: &mut Pages<Fused>, length: usize) -> Result<bool, TreeError>
    requires from { 1 ≤ length }
    requires to { length ≤ 72 }
{
    put_row(alloc, pages, &[9; 72][..length], &[length as u8])
}

fn has_prefix(alloc: Global, pages: &mut Pages<Fused>, length: usize) -> bool
    requires from { 1 ≤ length }
    requires to { length ≤ 72 }
{
    let txn = pages.begin(alloc);
    let mut into = [0; 1024];
    let found = get(&txn, pages, &[9; 72][..length], &mut into);
    txn.abandon();
    (found == Ok(Some(1))) & (into[0] == length as u8)
}

#[test]
fn keys_that_begin_one_another_are_told_apart(rt: HostRuntime) {
    let rt = &rt;
    let alloc = rt.alloc();
    let mut pages = made(rt, alloc, 330);
    for i in 0..72usize {
        holds!(rt; put_prefix(alloc, &mut pages, 72 - i) == Ok(false));
    }
    for i in 0..72usize {
        holds!(rt; has_prefix(alloc, &mut pages, i + 1));
    }
}
