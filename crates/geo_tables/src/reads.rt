//! Reads what stands in the rows of a load.
ghost use Rattle.std.specs.Prelude.{◌≡◌, [], None, OnOk, MatchResult};
ghost use Rattle.page_store.specs.claim.Transactions.{count_of, txn_pages};
ghost use Rattle.desk_store_pages.specs.Looking.{Gathers, IsOnly, Looks, Says};
ghost use Rattle.page_btree.specs.gets.declared.error.TreeError.TheVariants.{Memory};
ghost use Rattle.btree_scan.specs.Parts.{row_of};
ghost use Rattle.btree_scan.specs.Scanning.{fault_in};
ghost use Rattle.geo_tables.specs.Following.{IsFound, IsTaken, Scans, at_hand};
ghost use Rattle.geo_tables.specs.Elements.{AddsOne, HoldsElement, HoldsElements, IsIn, ValueErr};

use crate::elements::Element;
use btree_scan::{RowScan, scan};
use desk_model::geography::BLOCK_LIMIT;
use desk_store_pages::{TreeError, read_row};
use page_btree::VALUE_LIMIT;
use page_store::{Pages, Txn};
use sector_device::SectorDevice;
use std::alloc::Global;

/// Appends the element that bytes hold.
fn append_read<E: Element>(bytes: &[u8], all: &mut Vec<E>) -> Result<(), TreeError>
    ensures { MatchResult result (λ _. AddsOne (IsIn E.bytes_of E.fits bytes.now) all.old.items all.new.items) (ValueErr (IsIn E.bytes_of E.fits bytes.now)) }
{
    let Some(element) = E::read(bytes) else {
        return Err(TreeError::NotAStore);
    };
    if all.push(element).is_err() {
        return Err(TreeError::Memory);
    }
    Ok(())
}

/// Appends the element of a row.
fn append_element<D: SectorDevice, E: Element>(
    txn: &Txn,
    pages: &mut Pages<D>,
    load: u64,
    place: u32,
    all: &mut Vec<E>,
) -> Result<(), TreeError>
    requires begun { txn_pages txn.now ≡ count_of pages.old }
    ensures { Gathers (λ m _. AddsOne (HoldsElement E.bytes_of E.fits (E.key_at load place) m) all.old.items all.new.items)
        (Says (HoldsElement E.bytes_of E.fits (E.key_at load place))) txn.now pages.old pages.new result }
{
    let mut bytes = [0; VALUE_LIMIT];
    let key = E::key(load, place);
    let length = read_row(txn, pages, &key, &mut bytes)?;
    append_read(&bytes[..length], all)
}

/// Moves a scan to its next row and returns whether there is one.
fn take_next<D: SectorDevice>(
    scan: &mut RowScan,
    txn: &Txn,
    pages: &mut Pages<D>,
) -> Result<bool, TreeError>
    requires begun { txn_pages txn.now ≡ count_of pages.old }
    requires working { fault_in scan.old ≡ None }
    ensures working { OnOk result (fault_in scan.new ≡ None) }
    ensures looks { Looks (λ m found. Scans scan.old m → IsTaken found scan.new (row_of scan.new) m) (Scans scan.old) txn.now pages.old pages.new result }
{
    let found = scan.advance(txn, pages);
    match scan.fault() {
        Some(fault) => Err(fault),
        None => Ok(found),
    }
}

/// Appends the element of a row: of the next one of a scan, where that has the key, or else of the row that is looked up.
fn append_next<D: SectorDevice, E: Element>(
    found: bool,
    next: &[u8],
    value: &[u8],
    txn: &Txn,
    pages: &mut Pages<D>,
    load: u64,
    place: u32,
    all: &mut Vec<E>,
) -> Result<(), TreeError>
    requires begun { txn_pages txn.now ≡ count_of pages.old }
    ensures { Gathers (λ m _. IsFound found (at_hand next.now value.now) m
        → AddsOne (HoldsElement E.bytes_of E.fits (E.key_at load place) m) all.old.items all.new.items)
        (λ m. IsFound found (at_hand next.now value.now) m × Says (HoldsElement E.bytes_of E.fits (E.key_at load place)) m)
        txn.now pages.old pages.new result }
{
    if found {
        let key = E::key(load, place);
        if next == key.as_slice() {
            return append_read(value, all);
        }
    }
    append_element(txn, pages, load, place, all)
}

/// Appends the element of a row, along a scan that goes by the rows of the load.
fn append_along<D: SectorDevice, E: Element>(
    scan: &mut RowScan,
    txn: &Txn,
    pages: &mut Pages<D>,
    load: u64,
    place: u32,
    all: &mut Vec<E>,
) -> Result<(), TreeError>
    requires begun { txn_pages txn.now ≡ count_of pages.old }
    requires working { fault_in scan.old ≡ None }
    ensures working { OnOk result (fault_in scan.new ≡ None) }
    ensures gathers { Gathers (λ m _. Scans scan.old m → Scans scan.new m × AddsOne (HoldsElement E.bytes_of E.fits (E.key_at load place) m) all.old.items all.new.items)
        (λ m. Scans scan.old m × Says (HoldsElement E.bytes_of E.fits (E.key_at load place)) m) txn.now pages.old pages.new result }
{
    let found = take_next(scan, txn, pages)?;
    append_next(
        found,
        scan.key(),
        scan.value(),
        txn,
        pages,
        load,
        place,
        all,
    )?;
    Ok(())
}

/// Room for `count` elements, but for no more than a state may have blocks: a seal's count was not
/// compared with its rows yet.
fn room_for<E: Element>(alloc: Global, count: u32) -> Result<Vec<E>, TreeError>
    ensures { MatchResult result (λ all. all.items ≡ []) (λ e. e ≡ Memory) }
{
    let mut room = count as usize;
    if room > BLOCK_LIMIT {
        room = BLOCK_LIMIT;
    }
    match Vec::with_capacity(alloc, room) {
        Ok(all) => Ok(all),
        Err(_) => Err(TreeError::Memory),
    }
}

/// Reads `count` elements of a load, from the first place on.
pub(crate) fn read_elements<D: SectorDevice, E: Element>(
    alloc: Global,
    txn: &Txn,
    pages: &mut Pages<D>,
    load: u64,
    count: u32,
) -> Result<Vec<E>, TreeError>
    requires begun { txn_pages txn.now ≡ count_of pages.old }
    ensures { Gathers (λ m all. IsOnly (HoldsElements E.bytes_of E.fits (E.key_at load) count m) all.items)
        (Says (HoldsElements E.bytes_of E.fits (E.key_at load) count)) txn.now pages.old pages.new result }
{
    let mut all = room_for(alloc, count)?;
    let prefix = E::prefix(load);
    let mut scan = scan(prefix.as_slice());
    for place in 0..count {
        append_along(&mut scan, txn, pages, load, place, &mut all)?;
    }
    Ok(all)
}
