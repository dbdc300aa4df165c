//! Finds what is left over.
ghost use Rattle.std.specs.Prelude.{◌≡◌, ◌<◌, ◌^◌, ℕ, Some, MatchOption};
ghost use Rattle.page_store.specs.claim.Transactions.{count_of, txn_pages};
ghost use Rattle.desk_store_pages.specs.Looking.{Looks};
ghost use Rattle.desk_store_rows.specs.claim.Keys.{begun, key_of, retired};
ghost use Rattle.desk_store_rows.specs.claim.Tidy.{Tidy};
ghost use Rattle.plan_revisions_sweeps.specs.Leftovers.{IsNoLoads, IsOfLoad};
ghost use Rattle.plan_revisions_sweeps.specs.Finding.{HasLoadMark, HasPlanMark, HoldsNone, IsLeft, IsLeftKey, IsLoadLeft, IsNextLeft, IsPlanLeft, spared_key};

use crate::firsts::{first_mark, first_under};
use crate::held::holding_in;
use crate::pieces::first_piece;
use btree_scan::Row;
use desk_store_pages::TreeError;
use desk_store_rows::{Key, RowKey, read_chunks};
use page_store::{Pages, Txn};
use sector_device::SectorDevice;

/// What is left over.
#[derive(Clone, Copy, Drop)]
pub(crate) enum Left {
    /// A row that nothing needs, whose key was found.
    Row,
    /// A chunk that a deleted plan holds.
    Holding { plan: u64, number: u64 },
}

/// Returns the deleted plan whose mark has this key; `None` for any other key.
fn retired_in(key: &[u8]) -> Option<u64>
    ensures { MatchOption result ((plan : ℕ) → key.now ≡ key_of (retired plan) → ⊥) (λ plan. key.now ≡ key_of (retired plan)) }
{
    match RowKey::read(key) {
        Some(RowKey::Retired { plan }) => Some(plan),
        _ => None,
    }
}

/// Returns the begun load whose mark has this key; `None` for any other key.
fn begun_in(key: &[u8]) -> Option<u64>
    ensures { MatchOption result ((load : ℕ) → key.now ≡ key_of (begun load) → ⊥) (λ load. key.now ≡ key_of (begun load)) }
{
    match RowKey::read(key) {
        Some(RowKey::Begun { load }) => Some(load),
        _ => None,
    }
}

/// Returns what is left of the parts of a deleted plan that holds no chunk, and stores its key in
/// `row`: a piece of a chunk that its first part names and that no plan holds; that part if no such
/// piece is left; the mark if no part is left.
fn left_of_parts<D: SectorDevice>(
    txn: &Txn,
    pages: &mut Pages<D>,
    plan: u64,
    row: &mut Row,
) -> Result<(), TreeError>
    requires begun { txn_pages txn.now ≡ count_of pages.old }
    ensures { Looks (λ m _. HasPlanMark plan m → HoldsNone plan m → IsLeftKey m row.new.key IsNoLoads) (HasPlanMark plan) txn.now pages.old pages.new result }
{
    let prefix = Key::plan_parts(plan);
    if !first_under(txn, pages, prefix.as_slice(), row)? {
        row.key.set(Key::retired(plan).as_slice());
        return Ok(());
    }
    let Some(numbers) = read_chunks(row.value.as_slice()) else {
        return Err(TreeError::NotAStore);
    };
    let mut piece = Row::empty();
    if !first_piece(txn, pages, numbers.as_slice(), &mut piece)? {
        return Ok(());
    }
    row.key.set(piece.key.as_slice());
    Ok(())
}

/// Returns what is left of a deleted plan with this mark: a chunk that it holds, or a row if it
/// holds none.
fn left_of_plan<D: SectorDevice>(
    txn: &Txn,
    pages: &mut Pages<D>,
    plan: u64,
    row: &mut Row,
) -> Result<Left, TreeError>
    requires begun { txn_pages txn.now ≡ count_of pages.old }
    ensures { Looks (λ m left. HasPlanMark plan m → IsLeft m row.new.key IsNoLoads left) (HasPlanMark plan) txn.now pages.old pages.new result }
{
    let prefix = Key::holdings(plan);
    if first_under(txn, pages, prefix.as_slice(), row)? {
        let Some(held) = holding_in(row.key.as_slice()) else {
            return Err(TreeError::NotAStore);
        };
        return Ok(Left::Holding {
            plan,
            number: held.1,
        });
    }
    left_of_parts(txn, pages, plan, row)?;
    Ok(Left::Row)
}

/// Makes `row` one that is left over of a load, which has this mark: a row of it, or the mark where no row is left.
fn left_of_load<D: SectorDevice>(
    txn: &Txn,
    pages: &mut Pages<D>,
    load: u64,
    row: &mut Row,
) -> Result<(), TreeError>
    requires begun { txn_pages txn.now ≡ count_of pages.old }
    ensures { Looks (λ m _. HasLoadMark load m → IsLeftKey m row.new.key (IsOfLoad load)) (HasLoadMark load) txn.now pages.old pages.new result }
{
    let prefix = Key::load(load);
    if !first_under(txn, pages, prefix.as_slice(), row)? {
        row.key.set(Key::begun(load).as_slice());
    }
    Ok(())
}

/// The mark of the load that is under way, which is spared.
fn spared_mark(running: Option<u64>) -> Key
    ensures key { result ≡ spared_key running }
    ensures fits { (load : ℕ) → running ≡ Some load → load < 2 ^ 64 }
{
    match running {
        Some(load) => Key::begun(load),
        None => Key::counters(),
    }
}

/// Makes `row` one that is left over of a load that isn't under way, if there is one.
fn left_of_loads<D: SectorDevice>(
    txn: &Txn,
    pages: &mut Pages<D>,
    running: Option<u64>,
    row: &mut Row,
) -> Result<bool, TreeError>
    requires begun { txn_pages txn.now ≡ count_of pages.old }
    ensures { Looks (λ m found. Tidy m → IsLoadLeft running row.new.key m found) Tidy txn.now pages.old pages.new result }
{
    let prefix = Key::all_begun();
    let spared = spared_mark(running);
    if !first_mark(txn, pages, prefix.as_slice(), spared.as_slice(), row)? {
        return Ok(false);
    }
    let Some(load) = begun_in(row.key.as_slice()) else {
        return Err(TreeError::NotAStore);
    };
    left_of_load(txn, pages, load, row)?;
    Ok(true)
}

/// Returns what is left of the first deleted plan, if there is one.
fn left_of_plans<D: SectorDevice>(
    txn: &Txn,
    pages: &mut Pages<D>,
    row: &mut Row,
) -> Result<Option<Left>, TreeError>
    requires begun { txn_pages txn.now ≡ count_of pages.old }
    ensures { Looks (λ m found. Tidy m → IsPlanLeft row.new.key m found) Tidy txn.now pages.old pages.new result }
{
    let prefix = Key::all_retired();
    let none = Key::counters();
    if !first_mark(txn, pages, prefix.as_slice(), none.as_slice(), row)? {
        return Ok(None);
    }
    let Some(plan) = retired_in(row.key.as_slice()) else {
        return Err(TreeError::NotAStore);
    };
    let left = left_of_plan(txn, pages, plan, row)?;
    Ok(Some(left))
}

/// What is left over next, if anything is: that of plans comes before that of loads. The key of a row is made that of `row`.
pub(crate) fn next_leftover<D: SectorDevice>(
    txn: &Txn,
    pages: &mut Pages<D>,
    running: Option<u64>,
    row: &mut Row,
) -> Result<Option<Left>, TreeError>
    requires begun { txn_pages txn.now ≡ count_of pages.old }
    ensures { Looks (λ m found. Tidy m → IsNextLeft running row.new.key m found) Tidy txn.now pages.old pages.new result }
{
    if let Some(left) = left_of_plans(txn, pages, row)? {
        return Ok(Some(left));
    }
    if left_of_loads(txn, pages, running, row)? {
        return Ok(Some(Left::Row));
    }
    Ok(None)
}
