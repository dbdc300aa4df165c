//! Checks that plans hold the chunks that they name.
ghost use Rattle.std.specs.Prelude.{◌≡◌, ◌<◌, All, MatchResult, Contains, true};
ghost use Rattle.page_store.specs.claim.Transactions.{count_of, txn_pages};
ghost use Rattle.page_btree.specs.gets.declared.error.TreeError.TheVariants.{Memory};
ghost use Rattle.desk_store_pages.specs.Looking.{Gathers, Looks};
ghost use Rattle.plan_revisions_sweeps.specs.claim.Checks.{AreNamesHeld, IsHeldOrGone};
ghost use Rattle.plan_revisions_sweeps.specs.Checks.{IsEntryNamed, IsNewTidy, IsPartRow, IsPlansList, IsWithOne};

use crate::held::{is_marked, part_in};
use btree_scan::{Row, row_limit, scan};
use desk_store_pages::TreeError;
use desk_store_rows::{Key, PART_CHUNKS, read_chunks};
use page_store::{Pages, Txn};
use sector_device::SectorDevice;
use std::alloc::Global;

/// Whether a chunk is noted at a place of a list.
fn is_noted(known: &[u64], place: usize, number: u64) -> bool
    ensures { result ≡ true → Contains known.now number }
{
    if place < known.len() {
        return known[place] == number;
    }
    false
}

/// Notes a chunk at a place of a list, or after it.
fn note(known: &mut Vec<u64>, place: usize, number: u64) -> Result<(), TreeError>
    ensures { MatchResult result (λ _. IsWithOne number known.old.items known.new.items) (λ e. e ≡ Memory) }
{
    if place < known.len() {
        known[place] = number;
        return Ok(());
    }
    match known.push(number) {
        Ok(_) => Ok(()),
        Err(_) => Err(TreeError::Memory),
    }
}

/// Goes on with a plan: the chunks that are noted stay where they are that plan's.
fn go_on_with(plan: u64, holder: &mut u64, known: &mut Vec<u64>)
    ensures { IsPlansList plan (holder.old, known.old.items) (holder.new, known.new.items) }
{
    if *holder == plan {
        return;
    }
    known.clear();
    *holder = plan;
}

/// Rejects a chunk that a plan names and does not hold, unless the plan was deleted.
fn check_name<D: SectorDevice>(
    txn: &Txn,
    pages: &mut Pages<D>,
    plan: u64,
    number: u64,
) -> Result<(), TreeError>
    requires begun { txn_pages txn.now ≡ count_of pages.old }
    ensures { Looks (λ m _. IsHeldOrGone m plan number) (λ m. IsHeldOrGone m plan number) txn.now pages.old pages.new result }
{
    if is_marked(txn, pages, &Key::holding(plan, number))? {
        return Ok(());
    }
    if is_marked(txn, pages, &Key::retired(plan))? {
        return Ok(());
    }
    Err(TreeError::NotAStore)
}

/// The same, unless the chunk is noted at a place of those that the plan holds, or has held; else it is noted there.
fn check_known<D: SectorDevice>(
    txn: &Txn,
    pages: &mut Pages<D>,
    plan: u64,
    number: u64,
    place: usize,
    known: &mut Vec<u64>,
) -> Result<(), TreeError>
    requires begun { txn_pages txn.now ≡ count_of pages.old }
    ensures { Gathers (λ m _. All (IsHeldOrGone m plan) known.old.items → IsHeldOrGone m plan number × All (IsHeldOrGone m plan) known.new.items)
        (λ m. IsHeldOrGone m plan number) txn.now pages.old pages.new result }
{
    if is_noted(known.as_slice(), place, number) {
        return Ok(());
    }
    check_name(txn, pages, plan, number)?;
    note(known, place, number)
}

/// The same of several chunks, from a place on.
fn check_numbers<D: SectorDevice>(
    txn: &Txn,
    pages: &mut Pages<D>,
    plan: u64,
    numbers: &[u64],
    first: usize,
    known: &mut Vec<u64>,
) -> Result<(), TreeError>
    requires begun { txn_pages txn.now ≡ count_of pages.old }
    ensures { Gathers (λ m _. All (IsHeldOrGone m plan) known.old.items → All (IsHeldOrGone m plan) numbers.now × All (IsHeldOrGone m plan) known.new.items)
        (λ m. All (IsHeldOrGone m plan) numbers.now) txn.now pages.old pages.new result }
{
    let mut place = first;
    for number in numbers {
        check_known(txn, pages, plan, *number, place, known)?;
        place = place.saturating_add(1);
    }
    Ok(())
}

/// The same of the chunks that a part of a revision names, whose row this is. `known` has chunks of the part before, by their places.
fn check_part<D: SectorDevice>(
    txn: &Txn,
    pages: &mut Pages<D>,
    row: &Row,
    holder: &mut u64,
    known: &mut Vec<u64>,
) -> Result<(), TreeError>
    requires begun { txn_pages txn.now ≡ count_of pages.old }
    ensures { Gathers (λ m _. All (IsHeldOrGone m holder.old) known.old.items
        → IsEntryNamed m (row.now.key, row.now.value) × All (IsHeldOrGone m holder.new) known.new.items)
        (IsPartRow row.now) txn.now pages.old pages.new result }
{
    let Some((plan, index)) = part_in(row.key.as_slice()) else {
        return Err(TreeError::NotAStore);
    };
    let Some(numbers) = read_chunks(row.value.as_slice()) else {
        return Err(TreeError::NotAStore);
    };
    let first = PART_CHUNKS * index as usize;
    go_on_with(plan, holder, known);
    check_numbers(txn, pages, plan, numbers.as_slice(), first, known)
}

/// Rejects a chunk that a part of a revision names and that its plan does not hold, unless the plan
/// was deleted. A chunk is looked up only if the plan's revision before has another one at its
/// place.
pub(crate) fn check_names<D: SectorDevice>(
    alloc: Global,
    txn: &Txn,
    pages: &mut Pages<D>,
) -> Result<(), TreeError>
    requires begun { txn_pages txn.now ≡ count_of pages.old }
    ensures { Gathers (λ m _. AreNamesHeld m) IsNewTidy txn.now pages.old pages.new result }
{
    let mut scan = scan(b"R");
    let mut row = Row::empty();
    let mut holder = 0;
    let mut known = Vec::new(alloc);
    for taken in 0..row_limit(txn) {
        if !scan.next(txn, pages, &mut row) {
            match scan.fault() {
                None => return Ok(()),
                Some(fault) => return Err(fault),
            }
        }
        check_part(txn, pages, &row, &mut holder, &mut known)?;
    }
    Err(TreeError::NotAStore)
}
