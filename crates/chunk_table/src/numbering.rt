//! Puts a chunk under the next number.
ghost use Rattle.std.specs.Prelude.{◌≡◌, ◌≤◌, ◌*◌, ◌^◌, length};
ghost use Rattle.page_store.specs.claim.Transactions.{count_of, txn_pages};
ghost use Rattle.chunk_table.specs.Numbering.{PutsChunk};

use crate::chunk_puts::put_chunk_as;
use crate::ids::ChunkId;
use desk_store_pages::{TreeError, next_numbers, put_row};
use desk_store_rows::{Counters, Key, counters_value};
use page_store::{Pages, Txn};
use sector_device::SectorDevice;

/// Puts a chunk of at most 33,554,432 districts under the next number, and returns the number, or
/// none if no number is left: then nothing was written. After an error the transaction can only be
/// abandoned. Errors as from `put_chunk_as`; `NotAStore` also if the store's counters are not
/// numbers.
pub fn put_chunk<D: SectorDevice>(
    txn: &mut Txn,
    pages: &mut Pages<D>,
    districts: &[u16],
) -> Result<Option<ChunkId>, TreeError>
    requires begun { txn_pages txn.old ≡ count_of pages.old }
    requires few { length districts.now ≤ 512 * 2 ^ 16 }
    ensures { PutsChunk districts.now txn.old txn.new pages.old pages.new result }
{
    let next = next_numbers(txn, pages)?;
    if next.chunk == u64::MAX {
        return Ok(None);
    }
    let id = ChunkId { number: next.chunk };
    put_chunk_as(txn, pages, id, districts)?;
    let then = Counters {
        plan: next.plan,
        chunk: next.chunk + 1,
        load: next.load,
    };
    put_row(txn, pages, &Key::counters(), &counters_value(&then))?;
    Ok(Some(id))
}
