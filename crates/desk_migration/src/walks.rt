//! Goes over the parts of revisions, to the next chunk that isn't held.
ghost use Rattle.std.specs.Prelude.{◌≡◌, ◌<◌, ◌≤◌, [], length, true, false, IfOk, IfSome};
ghost use Rattle.page_store.specs.claim.Transactions.{count_of, txn_pages};
ghost use Rattle.desk_store_pages.specs.Looking.{Looks};
ghost use Rattle.desk_store_rows.specs.claim.Tidy.{Tidy};
ghost use Rattle.desk_migration.specs.Walks.{after, IsWalking, StandsUnder};
ghost use Rattle.desk_migration.specs.Outcomes.{EntersPart, FindsNext, IsFirstUnheld, IsToldAt, LooksAt};

use crate::parts::{HeldPair, Part, PartLook, key_after, names_too, part_from, read_part};
use btree_scan::{Row, row_limit};
use desk_store_opening::is_held;
use desk_store_pages::TreeError;
use page_btree::SmallBytes;
use page_store::{Pages, Txn};
use sector_device::SectorDevice;
use std::mem;

/// A walk over parts of revisions, to the chunks that they name and their plans don't hold.
#[derive(Drop)]
pub(crate) struct UnheldCursor {
    /// Each part whose key is below this one names only chunks that its plan holds.
    pub(crate) from: SmallBytes,
    /// The part under that key is being gone over.
    pub(crate) is_within: bool,
    /// That part.
    pub(crate) part: Part,
    /// The number of its first chunks that its plan holds.
    pub(crate) place: usize,
    /// The part passed last, whose plan holds each chunk that it names.
    pub(crate) seen: Part,
}

impl UnheldCursor {
    /// A walk that begins at a key.
    pub(crate) fn from_key(key: &[u8]) -> UnheldCursor
        requires { length key.now ≤ 1024 }
        ensures from { result.from ≡ key.now }
        ensures outside { result.is_within ≡ false }
        ensures none_seen { result.seen.numbers.items ≡ [] }
    {
        let mut from = SmallBytes::empty();
        from.set(key);
        UnheldCursor {
            from,
            is_within: false,
            part: Part::empty(),
            place: 0,
            seen: Part::empty(),
        }
    }
}

/// Whether a plan holds a chunk that a part names at a place. One that the part passed last names there too isn't looked up.
fn is_held_at<D: SectorDevice>(
    txn: &Txn,
    pages: &mut Pages<D>,
    seen: &Part,
    plan: u64,
    place: usize,
    number: u64,
) -> Result<bool, TreeError>
    requires begun { txn_pages txn.now ≡ count_of pages.old }
    ensures { Looks (IsToldAt seen.now plan number) (λ m. Unit {0}) txn.now pages.old pages.new result }
{
    if names_too(seen, plan, place, number) {
        return Ok(true);
    }
    is_held(txn, pages, plan, number)
}

/// The place of the first chunk of a part, from one on, that its plan doesn't hold, if there is one.
fn first_unheld<D: SectorDevice>(
    txn: &Txn,
    pages: &mut Pages<D>,
    part: &Part,
    seen: &Part,
    from: usize,
) -> Result<Option<usize>, TreeError>
    requires begun { txn_pages txn.now ≡ count_of pages.old }
    ensures looks { Looks (IsFirstUnheld part.now seen.now from) (λ m. Unit {0}) txn.now pages.old pages.new result }
    ensures within { IfOk result (λ found. IfSome found (λ place. place < length part.now.numbers.items)) }
{
    let plan = part.plan;
    let numbers = part.numbers.as_slice();
    for place in from..numbers.len() {
        if !is_held_at(txn, pages, seen, plan, place, numbers[place])? {
            return Ok(Some(place));
        }
    }
    Ok(None)
}

/// Reads the next part after the walk's key: whether there is one.
fn read_next<D: SectorDevice>(
    txn: &Txn,
    pages: &mut Pages<D>,
    walk: &mut UnheldCursor,
) -> Result<bool, TreeError>
    requires begun { txn_pages txn.now ≡ count_of pages.old }
    requires under { StandsUnder walk.old }
    ensures under { StandsUnder walk.new }
    ensures within { IfOk result (λ found. found ≡ true → walk.new.is_within ≡ true) }
    ensures looks { Looks (EntersPart walk.old walk.new) Tidy txn.now pages.old pages.new result }
{
    let mut row = Row::empty();
    if !part_from(txn, pages, walk.from.as_slice(), &mut row)? {
        return Ok(false);
    }
    let Some(part) = read_part(&row) else {
        return Err(TreeError::NotAStore);
    };
    walk.from.set(row.key.as_slice());
    walk.part = part;
    walk.place = 0;
    walk.is_within = true;
    Ok(true)
}

/// Goes into the next part after the walk's key, where the walk isn't within one: whether it is within one then.
fn enter<D: SectorDevice>(
    txn: &Txn,
    pages: &mut Pages<D>,
    walk: &mut UnheldCursor,
) -> Result<bool, TreeError>
    requires begun { txn_pages txn.now ≡ count_of pages.old }
    requires under { StandsUnder walk.old }
    ensures under { StandsUnder walk.new }
    ensures within { IfOk result (λ found. found ≡ true → walk.new.is_within ≡ true) }
    ensures looks { Looks (EntersPart walk.old walk.new) Tidy txn.now pages.old pages.new result }
{
    if walk.is_within {
        return Ok(true);
    }
    read_next(txn, pages, walk)
}

/// Goes on after the part, whose plan holds each chunk that it names.
fn pass(walk: &mut UnheldCursor)
    requires under { StandsUnder walk.old }
    requires within { walk.old.is_within ≡ true }
    ensures under { StandsUnder walk.new }
    ensures from { walk.new.from ≡ after walk.old.from }
    ensures outside { walk.new.is_within ≡ false }
    ensures seen { walk.new.seen ≡ walk.old.part }
{
    let after = key_after(walk.from.as_slice());
    walk.from.set(&after);
    walk.is_within = false;
    mem::swap(&mut walk.seen, &mut walk.part);
}

/// Examines the current part, or the next one, and moves past it if its plan holds each chunk that
/// it names.
fn look<D: SectorDevice>(
    txn: &Txn,
    pages: &mut Pages<D>,
    walk: &mut UnheldCursor,
) -> Result<PartLook, TreeError>
    requires begun { txn_pages txn.now ≡ count_of pages.old }
    requires under { StandsUnder walk.old }
    ensures under { StandsUnder walk.new }
    ensures looks { Looks (LooksAt walk.old walk.new) Tidy txn.now pages.old pages.new result }
{
    if !enter(txn, pages, walk)? {
        return Ok(PartLook::Ended);
    }
    let found = first_unheld(txn, pages, &walk.part, &walk.seen, walk.place)?;
    match found {
        Some(place) => {
            let number = walk.part.numbers.as_slice()[place];
            walk.place = place;
            let plan = walk.part.plan;
            Ok(PartLook::Found(HeldPair { plan, number }))
        }
        None => {
            pass(walk);
            Ok(PartLook::Passed)
        }
    }
}

/// The next pair of a plan and a chunk that it names and doesn't hold, if there is one. The walk goes on to it.
pub(crate) fn next_pair<D: SectorDevice>(
    txn: &Txn,
    pages: &mut Pages<D>,
    walk: &mut UnheldCursor,
) -> Result<Option<HeldPair>, TreeError>
    requires begun { txn_pages txn.now ≡ count_of pages.old }
    requires under { StandsUnder walk.old }
    ensures under { StandsUnder walk.new }
    ensures looks { Looks (FindsNext walk.old walk.new) (IsWalking walk.old) txn.now pages.old pages.new result }
{
    for taken in 0..row_limit(txn) {
        match look(txn, pages, walk)? {
            PartLook::Ended => return Ok(None),
            PartLook::Found(pair) => return Ok(Some(pair)),
            PartLook::Passed => {}
        }
    }
    Err(TreeError::NotAStore)
}
