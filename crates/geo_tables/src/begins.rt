//! Begins a load.
ghost use Rattle.std.specs.Prelude.{◌≡◌, ◌≤◌, ◌<◌, ◌*◌, ◌^◌, ◌↔◌, length, None, IfOk, MatchResult, IsTrue};
ghost use Rattle.page_store.specs.claim.Transactions.{disk_in, journal_of, txn_free, IsQuiet};
ghost use Rattle.page_btree.specs.gets.claim.Map.{InPages as HoldsRows};
ghost use Rattle.desk_model.specs.claim.Desk.{Desk};
ghost use Rattle.desk_store_rows.specs.declared.value.Counters.{Counters};
ghost use Rattle.desk_store_rows.specs.claim.Rows.{KeyMap};
ghost use Rattle.desk_store_rows.specs.claim.Tidy.{IsNext};
ghost use Rattle.desk_store_pages.specs.claim.Desks.{InPages, OpensDesk};
ghost use Rattle.desk_store_pages.specs.Moments.{StopsLeave, StopsLeaveAtWork};
ghost use Rattle.geo_tables.specs.Starting.{IsStarted};
ghost use Rattle.geo_tables.specs.Loading.{HoldsLoad, HoldsNew, number_of, done_of};
ghost use Rattle.geo_tables.specs.Refusals.{BeginErr, CommitsRows, FindsNoSeal, LackSeal, NextErr, SealedErr};

use crate::load::Load;
use crate::load_rows::begin_rows;
use crate::puts::has_small_places;
use crate::starts::{begin, has_room};
use desk_model::geography::Geography;
use desk_store_pages::{StoreError, commit_fitting, get_row};
use desk_store_rows::{Key, SealRow};
use page_store::{Pages, Txn};
use sector_device::SectorDevice;
use std::alloc::Global;
use std::sync::Arc;

/// Refuses where a geography is sealed.
fn refuse_sealed<D: SectorDevice>(txn: &Txn, pages: &mut Pages<D>) -> Result<(), StoreError>
    requires { IsStarted 0 pages.old txn.now }
    ensures quiet { IsQuiet pages.old pages.new }
    ensures none { MatchResult result (λ _. FindsNoSeal pages.old pages.new) (SealedErr pages.old pages.new) }
{
    let found: Option<SealRow> = get_row(txn, pages, &Key::seal())?;
    match found {
        None => Ok(()),
        Some(_) => Err(StoreError::AlreadySealed),
    }
}

/// Whether a load of a geography can be begun: its pairs can be numbered, and there is room for the rows that begin it.
fn has_places<D: SectorDevice>(txn: &Txn, pages: &Pages<D>, geography: &Geography) -> bool
    ensures { IsTrue result ↔ ((length geography.now.pairs < 2 ^ 32) × ((13 * 2 ≤ txn_free txn.now) × (13 * 2 ≤ journal_of pages.now))) }
{
    has_small_places(geography) && has_room(txn, pages, 2)
}

/// Begins a load with the next number, in a transaction that wrote nothing yet and where no geography is sealed.
fn begin_next<D: SectorDevice>(mut txn: Txn, pages: &mut Pages<D>) -> Result<u64, StoreError>
    requires started { IsStarted 2 pages.old txn }
    requires unsealed { LackSeal pages.old }
    ensures any_moment { StopsLeaveAtWork (InPages pages.old) OpensDesk pages.old pages.new }
    ensures begun { (disk_in pages.new).is_honest → (d : Desk) → InPages pages.old d → IfOk result (λ number. HoldsNew pages.new d number) }
    ensures number { (disk_in pages.new).is_honest → (m : KeyMap) → HoldsRows pages.old m
        → IfOk result (λ number. (next : Counters) × IsNext m next × (number ≡ next.load)) }
    ensures step { CommitsRows 2 (NextErr pages.old pages.new) pages.old pages.new result }
{
    match begin_rows(&mut txn, pages)? {
        None => Err(StoreError::Full),
        Some(number) => {
            commit_fitting(txn, pages)?;
            Ok(number)
        }
    }
}

/// Begins a load of a geography, under the next number and with no row staged. The desk stays as it is. `Full`: there are too few pages or
/// levels, no number is left for a load, or the geography has more pairs than a store can number. But for `DeviceFault` a refusal changes
/// nothing.
pub fn begin_load<D: SectorDevice>(
    alloc: Global,
    pages: &mut Pages<D>,
    geography: Arc<Geography>,
) -> Result<Load, StoreError>
    ensures any_moment { StopsLeave (InPages pages.old) OpensDesk pages.old pages.new }
    ensures begun { (disk_in pages.new).is_honest → (d : Desk) → InPages pages.old d
        → IfOk result (λ load. HoldsLoad pages.new d load × (d.geography ≡ None)) }
    ensures load { IfOk result (λ load. (load.geography ≡ geography) × (done_of load ≡ 0)) }
    ensures number { (disk_in pages.new).is_honest → (m : KeyMap) → HoldsRows pages.old m
        → IfOk result (λ load. (next : Counters) × IsNext m next × (number_of load ≡ next.load)) }
    ensures step { CommitsRows 2 (BeginErr geography.value pages.old pages.new) pages.old pages.new result }
{
    let txn = begin(alloc, pages)?;
    refuse_sealed(&txn, pages)?;
    if !has_places(&txn, pages, &geography) {
        return Err(StoreError::Full);
    }
    let number = begin_next(txn, pages)?;
    Ok(Load {
        number,
        geography,
        done: 0,
    })
}
