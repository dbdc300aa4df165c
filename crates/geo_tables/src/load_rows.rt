//! Begins loads and seals them.
ghost use Rattle.std.specs.Prelude.{◌≡◌, ◌<◌, ◌+◌, ◌^◌, [], ◌∷◌, length};
ghost use Rattle.page_store.specs.claim.Transactions.{count_of, txn_pages};
ghost use Rattle.desk_store_rows.specs.claim.Keys.{seal};
ghost use Rattle.desk_store_pages.specs.claim.Puts.{PutsErr};
ghost use Rattle.desk_store_pages.specs.Outcomes.{PutsRows, Writes};
ghost use Rattle.geo_tables.specs.Rows.{begun_rows, seal_row};
ghost use Rattle.geo_tables.specs.Loads.{BeginErr, Begins, HasSealed};

use desk_model::geography::Geography;
use desk_store_pages::{TreeError, next_numbers, put_row};
use desk_store_rows::{Counters, Key, SealRow, counters_value, seal_value};
use page_btree::remove;
use page_store::{Pages, Txn};
use sector_device::SectorDevice;

/// Puts the rows of a load with the next number.
fn put_begun<D: SectorDevice>(
    txn: &mut Txn,
    pages: &mut Pages<D>,
    next: &Counters,
) -> Result<(), TreeError>
    requires begun { txn_pages txn.old ≡ count_of pages.old }
    requires left { next.now.load + 1 < 2 ^ 64 }
    ensures { PutsRows (begun_rows next.now) txn.old txn.new pages.old pages.new result }
{
    let begun = Key::begun(next.load);
    put_row(txn, pages, &begun, &[])?;
    let after = Counters {
        plan: next.plan,
        chunk: next.chunk,
        load: next.load + 1,
    };
    let value = counters_value(&after);
    put_row(txn, pages, &Key::counters(), &value)
}

/// Begins a load: takes the next number, and puts the row that says that it was begun. None where every number of 64 bits but the
/// last was given to a load. After None or an error the transaction can only be abandoned.
pub(crate) fn begin_rows<D: SectorDevice>(
    txn: &mut Txn,
    pages: &mut Pages<D>,
) -> Result<Option<u64>, TreeError>
    requires begun { txn_pages txn.old ≡ count_of pages.old }
    ensures { Writes (Begins txn.old txn.new pages.old pages.new) (BeginErr txn.old pages.old pages.new) txn.new pages.old pages.new result }
{
    let next = next_numbers(txn, pages)?;
    if next.load == u64::MAX {
        return Ok(None);
    }
    put_begun(txn, pages, &next)?;
    Ok(Some(next.load))
}

/// Seals a load whose rows are all staged: puts the row that names it, and removes the one that it was begun with. After an
/// error the transaction can only be abandoned.
pub(crate) fn seal_rows<D: SectorDevice>(
    txn: &mut Txn,
    pages: &mut Pages<D>,
    load: u64,
    geography: &Geography,
) -> Result<(), TreeError>
    requires begun { txn_pages txn.old ≡ count_of pages.old }
    requires few { length geography.now.pairs < 2 ^ 32 }
    ensures { Writes (λ _. HasSealed load geography.now txn.old txn.new pages.old pages.new)
        (PutsErr (seal_row load geography.now ∷ []) txn.old pages.old pages.new) txn.new pages.old pages.new result }
{
    let blocks = geography.blocks().len() as u32;
    let pairs = geography.pairs().len() as u32;
    let row = SealRow {
        load,
        blocks,
        pairs,
    };
    put_row(txn, pages, &Key::seal(), &seal_value(&row))?;
    remove(txn, pages, Key::begun(load).as_slice())?;
    Ok(())
}
