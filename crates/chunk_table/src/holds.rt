//! Plans that come to hold chunks.
ghost use Rattle.std.specs.Prelude.{◌≡◌, ◌<◌, ◌+◌, ◌^◌, ℕ};
ghost use Rattle.page_store.specs.claim.Transactions.{count_of, txn_pages};
ghost use Rattle.desk_store_rows.specs.claim.Keys.{holding};
ghost use Rattle.desk_store_rows.specs.claim.Rows.{KeyMap, Lacks};
ghost use Rattle.desk_store_rows.specs.claim.Holders.{holding_rows};
ghost use Rattle.desk_store_rows.specs.claim.Shares.{hold};
ghost use Rattle.desk_store_pages.specs.Looking.{Looks};
ghost use Rattle.chunk_table.specs.Holding.{HoldsChunk, HoldsChunks, HoldsUnheld, HoldsWith, IsFreeFrom, IsUnheld, PutsWith, Stands};

use crate::holder_counts::holder_count_with;
use btree_scan::scan;
use desk_store_pages::{Fingers, TreeError, put_row_with};
use desk_store_rows::forks::chunks_are_held;
use desk_store_rows::{HolderCount, Key, holder_count_value};
use page_btree::{VALUE_LIMIT, get};
use page_store::{Pages, Txn};
use sector_device::SectorDevice;

/// Whether a plan holds a chunk. An error is `NotAStore`, `DeviceFault` or `Halted`.
pub fn is_held<D: SectorDevice>(
    txn: &Txn,
    pages: &mut Pages<D>,
    plan: u64,
    number: u64,
) -> Result<bool, TreeError>
    requires begun { txn_pages txn.now ≡ count_of pages.old }
    ensures { Looks (λ m is. Stands is plan number m) (λ m. Unit {0}) txn.now pages.old pages.new result }
{
    let key = Key::holding(plan, number);
    let mut bytes = [0; VALUE_LIMIT];
    match get(txn, pages, key.as_slice(), &mut bytes)? {
        None => Ok(false),
        Some(_) => Ok(true),
    }
}

/// Puts the rows by which a plan becomes a further holder of a chunk.
fn put_holding<D: SectorDevice>(
    txn: &mut Txn,
    pages: &mut Pages<D>,
    fingers: &mut Fingers,
    plan: u64,
    number: u64,
    count: u64,
) -> Result<(), TreeError>
    requires begun { txn_pages txn.old ≡ count_of pages.old }
    requires fits { count + 1 < 2 ^ 64 }
    ensures { PutsWith fingers.old fingers.new (holding_rows plan number count) txn.old txn.new pages.old pages.new result }
{
    put_row_with(txn, pages, fingers, &Key::holding(plan, number), &[])?;
    let holder_count = HolderCount { plans: count + 1 };
    put_row_with(
        txn,
        pages,
        fingers,
        &Key::holder_count(number),
        &holder_count_value(&holder_count),
    )
}

/// Has a plan hold a chunk that it doesn't hold, whatever else the store has: two rows are put, by the leaves that are known. Pages
/// and errors are those of `hold_unheld`.
pub fn hold_unheld_with<D: SectorDevice>(
    txn: &mut Txn,
    pages: &mut Pages<D>,
    fingers: &mut Fingers,
    plan: u64,
    number: u64,
) -> Result<(), TreeError>
    requires begun { txn_pages txn.old ≡ count_of pages.old }
    ensures { HoldsWith fingers.old fingers.new (λ m. Lacks m (holding plan number)) plan number txn.old txn.new pages.old pages.new result }
{
    let count = holder_count_with(txn, pages, fingers, number)?;
    if count == u64::MAX {
        return Err(TreeError::NotAStore);
    }
    put_holding(txn, pages, fingers, plan, number, count)
}

/// Has a plan hold a chunk that it doesn't hold: two rows are put. At most 22 pages are written, and 12 taken. After an error
/// the transaction can only be abandoned; `NotAStore` comes also where the store doesn't count the plans that hold the chunk,
/// or too many.
pub fn hold_unheld<D: SectorDevice>(
    txn: &mut Txn,
    pages: &mut Pages<D>,
    plan: u64,
    number: u64,
) -> Result<(), TreeError>
    requires begun { txn_pages txn.old ≡ count_of pages.old }
    requires unheld { IsUnheld plan number txn.old pages.old }
    ensures { HoldsUnheld plan number txn.old txn.new pages.old pages.new result }
{
    let mut fingers = Fingers::none();
    hold_unheld_with(txn, pages, &mut fingers, plan, number)
}

/// Makes a plan a holder of a chunk. Returns whether two rows were put; false if the plan holds the
/// chunk already. Pages and errors as for `hold_unheld`.
pub fn hold<D: SectorDevice>(
    txn: &mut Txn,
    pages: &mut Pages<D>,
    plan: u64,
    number: u64,
) -> Result<bool, TreeError>
    requires begun { txn_pages txn.old ≡ count_of pages.old }
    ensures { HoldsChunk plan number txn.old txn.new pages.old pages.new result }
{
    if is_held(txn, pages, plan, number)? {
        return Ok(false);
    }
    hold_unheld(txn, pages, plan, number)?;
    Ok(true)
}

/// Returns the number from which on a plan holds no chunk: the first one if the plan holds none,
/// otherwise unknown.
fn free_from<D: SectorDevice>(
    txn: &Txn,
    pages: &mut Pages<D>,
    plan: u64,
) -> Result<Option<u64>, TreeError>
    requires begun { txn_pages txn.now ≡ count_of pages.old }
    ensures { Looks (λ m free. IsFreeFrom free plan m) (λ m. Unit {0}) txn.now pages.old pages.new result }
{
    let prefix = Key::holdings(plan);
    let mut scan = scan(prefix.as_slice());
    let found = scan.advance(txn, pages);
    match scan.fault() {
        Some(fault) => Err(fault),
        None => Ok(if found { None } else { Some(0) }),
    }
}

/// From which number on the plan holds no chunk once it holds this one.
fn free_after(free: Option<u64>, number: u64) -> Option<u64>
    ensures { (m : KeyMap) (plan : ℕ) → plan < 2 ^ 64 → IsFreeFrom free plan m → IsFreeFrom result plan (hold m plan number) }
{
    let Some(from) = free else {
        return None;
    };
    if number < from {
        return Some(from);
    }
    if number == u64::MAX {
        return None;
    }
    Some(number + 1)
}

/// Has a plan hold a chunk: it isn't looked whether it does, where it holds none from a number on and this one isn't below that.
/// Else no leaf is known afterwards.
fn hold_next<D: SectorDevice>(
    txn: &mut Txn,
    pages: &mut Pages<D>,
    fingers: &mut Fingers,
    plan: u64,
    number: u64,
    free: Option<u64>,
) -> Result<(), TreeError>
    requires begun { txn_pages txn.old ≡ count_of pages.old }
    ensures { HoldsWith fingers.old fingers.new (IsFreeFrom free plan) plan number txn.old txn.new pages.old pages.new result }
{
    if let Some(from) = free {
        if from <= number {
            return hold_unheld_with(txn, pages, fingers, plan, number);
        }
    }
    *fingers = Fingers::none();
    match hold(txn, pages, plan, number) {
        Ok(_) => Ok(()),
        Err(error) => Err(error),
    }
}

/// Has a plan hold chunks, one after the other: a number that comes twice is held once. Where the plan holds none, and numbers
/// rise, it isn't looked whether it holds them. At most 22 pages a chunk are written, and 12 taken. Errors come as from `hold`.
pub fn hold_all<D: SectorDevice>(
    txn: &mut Txn,
    pages: &mut Pages<D>,
    plan: u64,
    numbers: &[u64],
) -> Result<(), TreeError>
    requires begun { txn_pages txn.old ≡ count_of pages.old }
    ensures { HoldsChunks plan numbers.now txn.old txn.new pages.old pages.new result }
{
    chunks_are_held();
    let mut free = free_from(txn, pages, plan)?;
    let mut fingers = Fingers::none();
    for number in numbers {
        hold_next(txn, pages, &mut fingers, plan, *number, free)?;
        free = free_after(free, *number);
    }
    Ok(())
}
