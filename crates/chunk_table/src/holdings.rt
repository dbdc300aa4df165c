//! Puts the rows by which a plan holds new chunks.
ghost use Rattle.std.specs.Prelude.{◌≡◌, ◌<◌, ◌+◌, ◌^◌};
ghost use Rattle.page_store.specs.claim.Transactions.{count_of, txn_pages};
ghost use Rattle.desk_store_rows.specs.Puts.{rows_told};
ghost use Rattle.desk_store_rows.specs.RevisionSteps.{new_holding, new_holder_count, new_holding_rows};
ghost use Rattle.desk_store_pages.specs.Outcomes.{PutsRows};

use desk_store_pages::{Fingers, TreeError, put_row_with};
use desk_store_rows::{HolderCount, Key, holder_count_value};
use page_store::{Pages, Txn};
use sector_device::SectorDevice;

/// Puts the rows that say that a plan holds `count` chunks from the first on.
fn put_held<D: SectorDevice>(
    txn: &mut Txn,
    pages: &mut Pages<D>,
    plan: u64,
    first: u64,
    count: u64,
) -> Result<(), TreeError>
    requires begun { txn_pages txn.old ≡ count_of pages.old }
    requires fits { first + count < 2 ^ 64 }
    ensures { PutsRows (rows_told (new_holding plan first) count) txn.old txn.new pages.old pages.new result }
{
    let mut fingers = Fingers::none();
    for k in 0..count {
        put_row_with(
            txn,
            pages,
            &mut fingers,
            &Key::holding(plan, first + k),
            &[],
        )?;
    }
    Ok(())
}

/// Puts the rows that say that `count` chunks from the first on have one holder each.
fn put_counts<D: SectorDevice>(
    txn: &mut Txn,
    pages: &mut Pages<D>,
    first: u64,
    count: u64,
) -> Result<(), TreeError>
    requires begun { txn_pages txn.old ≡ count_of pages.old }
    requires fits { first + count < 2 ^ 64 }
    ensures { PutsRows (rows_told (new_holder_count first) count) txn.old txn.new pages.old pages.new result }
{
    let mut fingers = Fingers::none();
    for k in 0..count {
        let holder_count = HolderCount { plans: 1 };
        put_row_with(
            txn,
            pages,
            &mut fingers,
            &Key::holder_count(first + k),
            &holder_count_value(&holder_count),
        )?;
    }
    Ok(())
}

/// Puts the rows by which a plan is the only holder of `count` new chunks from the first on. The
/// caller chooses numbers that name no chunk. Reads nothing. After an error the transaction can
/// only be abandoned.
pub fn put_holdings<D: SectorDevice>(
    txn: &mut Txn,
    pages: &mut Pages<D>,
    plan: u64,
    first: u64,
    count: u64,
) -> Result<(), TreeError>
    requires begun { txn_pages txn.old ≡ count_of pages.old }
    requires fits { first + count < 2 ^ 64 }
    ensures { PutsRows (new_holding_rows plan first count) txn.old txn.new pages.old pages.new result }
{
    put_held(txn, pages, plan, first, count)?;
    put_counts(txn, pages, first, count)
}
