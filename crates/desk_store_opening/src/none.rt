//! Reads a store that holds nothing yet.
ghost use Rattle.std.specs.Prelude.{◌≡◌, IfOk};
ghost use Rattle.page_store.specs.claim.Transactions.{count_of, txn_pages};
ghost use Rattle.desk_store_rows.specs.claim.Rows.{Lacks};
ghost use Rattle.desk_store_rows.specs.claim.Keys.{seal};
ghost use Rattle.desk_store_pages.specs.Looking.{Looks};
ghost use Rattle.desk_store_pages.specs.Desks.{new_desk};
ghost use Rattle.desk_store_opening.specs.Opening.{HasNoPlans, HasNothing};

use btree_scan::{Row, scan};
use desk_store_catalogue::catalogue::Catalogue;
use desk_store_pages::{TreeError, get_row};
use desk_store_rows::{Key, SealRow};
use page_store::{Pages, Txn};
use sector_device::SectorDevice;

/// Refuses where a geography is sealed.
fn refuse_seal<D: SectorDevice>(txn: &Txn, pages: &mut Pages<D>) -> Result<(), TreeError>
    requires begun { txn_pages txn.now ≡ count_of pages.old }
    ensures { Looks (λ m _. Lacks m seal) (λ m. Lacks m seal) txn.now pages.old pages.new result }
{
    let found: Option<SealRow> = get_row(txn, pages, &Key::seal())?;
    match found {
        None => Ok(()),
        Some(_) => Err(TreeError::NotAStore),
    }
}

/// Rejects the store if it has a plan.
fn refuse_plans<D: SectorDevice>(txn: &Txn, pages: &mut Pages<D>) -> Result<(), TreeError>
    requires begun { txn_pages txn.now ≡ count_of pages.old }
    ensures { Looks (λ m _. HasNoPlans m) HasNoPlans txn.now pages.old pages.new result }
{
    let prefix = Key::plans();
    let mut scan = scan(prefix.as_slice());
    let mut row = Row::empty();
    if scan.next(txn, pages, &mut row) {
        return Err(TreeError::NotAStore);
    }
    match scan.fault() {
        None => Ok(()),
        Some(fault) => Err(fault),
    }
}

/// The desk of a store in which nothing is sealed, which has no plan either.
pub fn read_none<D: SectorDevice>(txn: &Txn, pages: &mut Pages<D>) -> Result<Catalogue, TreeError>
    requires begun { txn_pages txn.now ≡ count_of pages.old }
    ensures looks { Looks (λ m _. HasNothing m) HasNothing txn.now pages.old pages.new result }
    ensures new { IfOk result (λ catalogue. catalogue ≡ new_desk) }
{
    refuse_seal(txn, pages)?;
    refuse_plans(txn, pages)?;
    Ok(Catalogue::new(None))
}
