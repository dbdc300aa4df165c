//! Puts chunks.
ghost use Rattle.std.specs.Prelude.{◌≡◌, ◌≤◌, ◌*◌, ◌^◌, length};
ghost use Rattle.page_store.specs.claim.Transactions.{count_of, txn_pages};
ghost use Rattle.desk_store_rows.specs.ChunkRows.{chunk_rows};
ghost use Rattle.desk_store_pages.specs.Outcomes.{PutsRows};

use crate::ids::ChunkId;
use desk_store_pages::{TreeError, part_of, put_row};
use desk_store_rows::{Key, ListValue, PIECE_DISTRICTS, fill_districts};
use page_store::{Pages, Txn};
use sector_device::SectorDevice;

/// Puts a chunk of at most 33,554,432 districts under a number, in pieces of 512. The caller chooses
/// the number: one that names no chunk. After an error the transaction can only be abandoned.
pub fn put_chunk_as<D: SectorDevice>(
    txn: &mut Txn,
    pages: &mut Pages<D>,
    id: ChunkId,
    districts: &[u16],
) -> Result<(), TreeError>
    requires begun { txn_pages txn.old ≡ count_of pages.old }
    requires few { length districts.now ≤ 512 * 2 ^ 16 }
    ensures { PutsRows (chunk_rows id.number districts.now) txn.old txn.new pages.old pages.new result }
{
    let mut value = ListValue::new();
    let count = (districts.len() + (PIECE_DISTRICTS - 1)) / PIECE_DISTRICTS;
    for index in 0..count {
        fill_districts(&mut value, part_of(districts, PIECE_DISTRICTS, index));
        put_row(
            txn,
            pages,
            &Key::chunk(id.number, index as u16),
            value.as_slice(),
        )?;
    }
    Ok(())
}
