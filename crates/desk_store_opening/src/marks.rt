//! Marks beside which a row is no desk's.
ghost use Rattle.std.specs.Prelude.{◌≡◌, None};
ghost use Rattle.std.specs.FinMap.{get as row_at};
ghost use Rattle.page_store.specs.claim.Transactions.{count_of, txn_pages};
ghost use Rattle.desk_store_opening.specs.Opening.{HasSoundNumbers, IsKeptPlan, IsNotGone, IsSealEnded, IsSealKept};
ghost use Rattle.desk_store_opening_tidy.specs.Numbers.{IsKept};
ghost use Rattle.desk_store_pages.specs.Looking.{Looks};

use crate::rows::{number_fits, row_fits};
use btree_scan::Row;
use desk_store_opening_tidy::check_numbers;
use desk_store_pages::{TreeError, get_row};
use desk_store_rows::{Key, SealRow, read_plan};
use page_btree::{VALUE_LIMIT, get};
use page_store::{Pages, Txn};
use sector_device::SectorDevice;

/// Rejects the store if a row with this key exists.
fn refuse_row<D: SectorDevice>(txn: &Txn, pages: &mut Pages<D>, key: &Key) -> Result<(), TreeError>
    requires begun { txn_pages txn.now ≡ count_of pages.old }
    ensures { Looks (λ m _. row_at m key.now ≡ None) (λ m. row_at m key.now ≡ None) txn.now pages.old pages.new result }
{
    let mut bytes = [0; VALUE_LIMIT];
    match get(txn, pages, key.as_slice(), &mut bytes) {
        Ok(None) => Ok(()),
        Ok(Some(_)) => Err(TreeError::NotAStore),
        Err(error) => Err(error),
    }
}

/// Rejects the store if the plan of this row was deleted.
pub fn refuse_gone<D: SectorDevice>(
    txn: &Txn,
    pages: &mut Pages<D>,
    row: &Row,
) -> Result<(), TreeError>
    requires begun { txn_pages txn.now ≡ count_of pages.old }
    ensures { Looks (λ m _. IsNotGone row.now m) (IsKeptPlan row.now) txn.now pages.old pages.new result }
{
    let Some(plan) = read_plan(row.value.as_slice()) else {
        return Err(TreeError::NotAStore);
    };
    row_fits(plan);
    refuse_row(txn, pages, &Key::retired(plan.number))
}

/// Refuses where the sealed load is also one that was begun.
fn refuse_begun<D: SectorDevice>(txn: &Txn, pages: &mut Pages<D>) -> Result<(), TreeError>
    requires begun { txn_pages txn.now ≡ count_of pages.old }
    ensures { Looks (λ m _. IsSealEnded m) IsSealKept txn.now pages.old pages.new result }
{
    let found: Option<SealRow> = get_row(txn, pages, &Key::seal())?;
    match found {
        None => Ok(()),
        Some(sealed) => {
            number_fits(sealed.load);
            refuse_row(txn, pages, &Key::begun(sealed.load))
        }
    }
}

/// Refuses where a number that comes next is in use, or the sealed load is also one that was begun.
pub fn check_rows<D: SectorDevice>(txn: &Txn, pages: &mut Pages<D>) -> Result<(), TreeError>
    requires begun { txn_pages txn.now ≡ count_of pages.old }
    ensures { Looks (λ m _. HasSoundNumbers m) IsKept txn.now pages.old pages.new result }
{
    check_numbers(txn, pages)?;
    refuse_begun(txn, pages)
}
