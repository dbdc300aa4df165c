//! Whether the pages and rows of a device's store are those that a desk leaves, one thing after the other.
ghost use Rattle.std.specs.Prelude.{◌≡◌, false, None, OnOk, IfOk, IfErr};
ghost use Rattle.desk_model.specs.claim.Desk.{Desk};
ghost use Rattle.desk_model.specs.Ranges.{ranges_in};
ghost use Rattle.sector_device.specs.Disk.{IsSynced};
ghost use Rattle.page_store.specs.claim.Transactions.{stored, disk_in, count_of, has_halted, txn_pages, IsQuiet, Passed};
ghost use Rattle.page_btree.specs.gets.claim.Map.{InTxn};
ghost use Rattle.desk_store_rows.specs.claim.Keys.{version, in_four};
ghost use Rattle.desk_store_rows.specs.claim.Rows.{KeyMap, Has};
ghost use Rattle.page_btree.specs.gets.declared.error.TreeError.TheVariants.{Memory};
ghost use Rattle.store_verification.specs.rows.Strays.{AllBelong};
ghost use Rattle.desk_store_pages.specs.claim.Desks.{InTxn as HoldsDesk};
ghost use Rattle.inspect_command.specs.Sound.{CheckErr, IsFoundAs, IsSoundAs, OldIn, UnsoundIn};
ghost use Rattle.inspect_command.specs.Verifying.{HoldsOwned, HoldsSound, TellsPages, VerifiesPages, VerifiesTelling};

use crate::refusal::Refusal;
use byte_stream::progress::Progress;
use desk_model::ranges::CountyRange;
use desk_store::{check_holdings, geography, is_new, read_desk};
use desk_store_catalogue::catalogue::Catalogue;
use desk_store_pages::{StoreError, TreeError, row_error};
use page_btree::{PagesError, check_pages};
use page_store::{Pages, Txn};
use sector_device::SectorDevice;
use std::alloc::Global;
use store_command::fault::{StoreFault, store_fault};
use store_command::one_desk_opens;
use store_verification::{Checked, Hints, WrongRow, check_rows, first_wrong, note_parts};

/// What was found in a store that is sound: how many pages it has, and how many rows these hold.
#[derive(Clone, Copy)]
pub struct Verified {
    pub pages: u32,
    pub rows: u64,
}

/// A copy of the counties of a desk; none without a geography.
fn counties(alloc: Global, catalogue: &Catalogue) -> Result<Vec<CountyRange>, TreeError>
    ensures ranges { IfOk result (λ ranges. ranges.items ≡ ranges_in catalogue.now.geography) }
    ensures err { IfErr result (λ e. e ≡ Memory) }
{
    match Vec::from_slice(alloc, catalogue.counties()) {
        Ok(all) => Ok(all),
        Err(_) => Err(TreeError::Memory),
    }
}

/// Checks that the rows that a transaction reads are those of a desk: how many there are, or the first that doesn't belong to its store.
/// First that they open to a desk, then that each says what it is and belongs, and then that chunks are counted, and held by the plans
/// that name them.
#[tactic(auto, using(page_store::proofs::Stops::quiet_more))]
fn check_desk<D: SectorDevice, P: Progress>(
    alloc: Global,
    txn: &Txn,
    pages: &mut Pages<D>,
    hints: &Hints,
    progress: &mut P,
) -> Result<Checked, TreeError>
    requires begun { txn_pages txn.now ≡ count_of pages.old }
    ensures quiet { IsQuiet pages.old pages.new }
    ensures found { (disk_in pages.new).is_honest → (m : KeyMap) → InTxn txn.now (stored pages.old) m
        → IfOk result (λ checked. IsFoundAs checked.stray checked.rows m) }
    ensures right { (disk_in pages.new).is_honest → (d : Desk) (h : HoldsDesk txn.now (stored pages.old) d) → AllBelong (ranges_in d.geography) h.m
        → IfOk result (λ checked. checked.stray ≡ None) }
    ensures err { IfErr result (λ e. CheckErr txn.now pages.old pages.new e) }
{
    let catalogue = read_desk(alloc, txn, pages)?;
    let found = counties(alloc, &catalogue);
    // The process ends soon: to give its many small pieces back would take a twelfth of the time.
    std::mem::forget(catalogue);
    let ranges = found?;
    let checked = check_rows(txn, pages, ranges.as_slice(), hints, progress)?;
    if checked.stray.is_some() {
        return Ok(checked);
    }
    check_holdings(alloc, txn, pages)?;
    Ok(checked)
}

/// Refuses rows that aren't of version 2.
fn refuse_old<D: SectorDevice>(txn: &Txn, pages: &mut Pages<D>) -> Result<(), StoreFault>
    requires working { has_halted pages.old ≡ false }
    requires begun { txn_pages txn.now ≡ count_of pages.old }
    ensures quiet { IsQuiet pages.old pages.new }
    ensures passed { OnOk result (Passed pages.old pages.new) }
    ensures version { (disk_in pages.new).is_honest → (m : KeyMap) → InTxn txn.now (stored pages.old) m → OnOk result (Has m version (in_four 2)) }
    ensures err { IfErr result (λ fault. OldIn txn.now pages.old pages.new fault) }
{
    match is_new(txn, pages) {
        Ok(true) => Ok(()),
        Ok(false) => Err(StoreFault::OldVersion),
        Err(e) => Err(store_fault(row_error(e, pages.is_halted()))),
    }
}

/// Finds the desk that a transaction reads: how many rows it has, or the first that doesn't belong to its store.
#[tactic(auto, using(page_store::proofs::Stops::quiet_more))]
fn find_desk<D: SectorDevice, P: Progress>(
    alloc: Global,
    txn: &Txn,
    pages: &mut Pages<D>,
    hints: &Hints,
    progress: &mut P,
) -> Result<Checked, StoreFault>
    requires working { has_halted pages.old ≡ false }
    requires begun { txn_pages txn.now ≡ count_of pages.old }
    ensures quiet { IsQuiet pages.old pages.new }
    ensures sound { (disk_in pages.new).is_honest → (m : KeyMap) → InTxn txn.now (stored pages.old) m
        → IfOk result (λ checked. IsSoundAs checked.stray checked.rows m) }
    ensures right { (disk_in pages.new).is_honest → (d : Desk) (h : HoldsDesk txn.now (stored pages.old) d) → AllBelong (ranges_in d.geography) h.m
        → IfOk result (λ checked. checked.stray ≡ None) }
    ensures err { IfErr result (λ fault. UnsoundIn txn.now pages.old pages.new fault) }
{
    refuse_old(txn, pages)?;
    match check_desk(alloc, txn, pages, hints, progress) {
        Ok(checked) => Ok(checked),
        Err(e) => Err(store_fault(row_error(e, pages.is_halted()))),
    }
}

/// A row that is wrong among those that a transaction reads, if one is found.
fn wrong_row<D: SectorDevice>(
    alloc: Global,
    txn: &Txn,
    pages: &mut Pages<D>,
) -> Result<Option<WrongRow>, TreeError>
    requires begun { txn_pages txn.now ≡ count_of pages.old }
    ensures quiet { IsQuiet pages.old pages.new }
{
    match geography(alloc, txn, pages) {
        Ok(Some(geography)) => first_wrong(alloc, txn, pages, geography.counties()),
        Err(TreeError::Memory) => Err(TreeError::Memory),
        _ => first_wrong(alloc, txn, pages, &[]),
    }
}

/// Returns the row that is reported with a fault.
fn row_for<D: SectorDevice>(
    alloc: Global,
    txn: &Txn,
    pages: &mut Pages<D>,
    fault: StoreFault,
) -> Option<WrongRow>
    requires begun { txn_pages txn.now ≡ count_of pages.old }
    ensures quiet { IsQuiet pages.old pages.new }
{
    match fault {
        StoreFault::NotAStore => match wrong_row(alloc, txn, pages) {
            Ok(row) => row,
            Err(_) => None,
        },
        _ => None,
    }
}

/// Verifies the rows of opened pages, whose leaves have this number of rows. `progress` receives
/// this number, and then each row.
fn verify_rows<D: SectorDevice, P: Progress>(
    alloc: Global,
    pages: &mut Pages<D>,
    hints: &Hints,
    rows: u64,
    progress: &mut P,
) -> Result<Verified, Refusal>
    requires { has_halted pages.old ≡ false }
    ensures { VerifiesPages (P.is_told progress.new) (HoldsSound pages.new) pages.old pages.new result }
{
    let txn = pages.begin(alloc);
    progress.expect(rows);
    match find_desk(alloc, &txn, pages, hints, progress) {
        Ok(checked) => match checked.stray {
            None => {
                progress.expect(checked.rows);
                Ok(Verified {
                    pages: txn.page_count(),
                    rows: checked.rows,
                })
            }
            Some(row) => Err(Refusal {
                fault: StoreFault::NotAStore,
                is_stray: true,
                row: Some(row),
                page: None,
            }),
        },
        Err(fault) => {
            let row = row_for(alloc, &txn, pages, fault);
            Err(Refusal {
                fault,
                is_stray: false,
                row,
                page: None,
            })
        }
    }
}

/// Notes which parts of revisions name chunks, as far as the device gives them.
fn find_parts<D: SectorDevice>(alloc: Global, pages: &mut Pages<D>) -> Result<Hints, TreeError>
    ensures quiet { IsQuiet pages.old pages.new }
{
    let txn = pages.begin(alloc);
    note_parts(alloc, &txn, pages)
}

/// Verifies what opened pages hold, whose pages have one owner each.
fn verify_pages<D: SectorDevice, P: Progress>(
    alloc: Global,
    pages: &mut Pages<D>,
    rows: u64,
    progress: &mut P,
) -> Result<Verified, Refusal>
    ensures { VerifiesPages (P.is_told progress.new) (HoldsSound pages.new) pages.old pages.new result }
{
    match find_parts(alloc, pages) {
        Ok(hints) => {
            if pages.is_halted() {
                return Err(Refusal::of(StoreFault::DeviceFault));
            }
            verify_rows(alloc, pages, &hints, rows, progress)
        }
        Err(_) => Err(Refusal::of(StoreFault::Memory)),
    }
}

/// Returns the refusal of pages that do not each have one owner.
fn refusal_of(e: PagesError) -> Refusal
    ensures { TellsPages e result }
{
    match e {
        PagesError::Unsound(page) => Refusal {
            fault: StoreFault::NotAStore,
            is_stray: true,
            row: None,
            page: Some(page),
        },
        PagesError::DeviceFault => Refusal::of(StoreFault::DeviceFault),
        PagesError::Halted => Refusal::of(StoreFault::DeviceFault),
        PagesError::Memory => Refusal::of(StoreFault::Memory),
    }
}

/// Verifies what opened pages hold: first that each page has one owner, and then their rows.
fn verify_all<D: SectorDevice, P: Progress>(
    alloc: Global,
    pages: &mut Pages<D>,
    progress: &mut P,
) -> Result<Verified, Refusal>
    requires { has_halted pages.old ≡ false }
    ensures { VerifiesPages (P.is_told progress.new) (HoldsOwned pages.new) pages.old pages.new result }
{
    let mut rows = 0;
    match check_pages(alloc, pages, progress, &mut rows) {
        Ok(()) => verify_pages(alloc, pages, rows, progress),
        Err(e) => Err(refusal_of(e)),
    }
}

/// Verifies the store that a synced device holds, and gives the device back. Nothing is written but what a stop in a commit left to be
/// done. `progress` hears of pages, and where these have one owner each of how many rows they have, and how many were read so far.
pub(crate) fn verify_device<D: SectorDevice + Drop, P: Progress>(
    alloc: Global,
    device: D,
    progress: &mut P,
) -> (Result<Verified, Refusal>, D)
    requires { IsSynced (D.disk device) }
    ensures { VerifiesTelling D.SectorDevice (P.is_told progress.new) device result.0 result.1 }
{
    one_desk_opens();
    let mut pages = match Pages::open(alloc, device) {
        Ok(pages) => pages,
        Err((e, left)) => {
            let fault = store_fault(StoreError::from(e));
            return (Err(Refusal::of(fault)), left);
        }
    };
    let found = verify_all(alloc, &mut pages, progress);
    (found, pages.into_device())
}
