//! Puts the rows of revisions.
ghost use Rattle.std.specs.Prelude.{◌≡◌, ◌≤◌, ◌*◌, ◌^◌, length};
ghost use Rattle.page_store.specs.claim.Transactions.{count_of, txn_pages};
ghost use Rattle.desk_store_rows.specs.NameRows.{name_rows};
ghost use Rattle.desk_store_pages.specs.Outcomes.{PutsRows};

use desk_store_pages::{TreeError, part_of, put_row};
use desk_store_rows::{Key, ListValue, PART_CHUNKS, fill_chunks};
use page_store::{Pages, Txn};
use sector_device::SectorDevice;

/// Puts the rows that name the chunks of a revision, from 1, of a plan: 32,768 numbers at most, in parts of 128. It is for the
/// caller to see that the revision has no rows yet. After an error the transaction can only be abandoned.
pub fn put_names<D: SectorDevice>(
    txn: &mut Txn,
    pages: &mut Pages<D>,
    plan: u64,
    revision: u32,
    numbers: &[u64],
) -> Result<(), TreeError>
    requires begun { txn_pages txn.old ≡ count_of pages.old }
    requires few { length numbers.now ≤ 128 * 2 ^ 8 }
    ensures { PutsRows (name_rows plan revision numbers.now) txn.old txn.new pages.old pages.new result }
{
    let mut value = ListValue::new();
    let count = (numbers.len() + (PART_CHUNKS - 1)) / PART_CHUNKS;
    for index in 0..count {
        fill_chunks(&mut value, part_of(numbers, PART_CHUNKS, index));
        put_row(
            txn,
            pages,
            &Key::part(plan, revision, index as u8),
            value.as_slice(),
        )?;
    }
    Ok(())
}
