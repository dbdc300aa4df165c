//! Reads chunks.
ghost use Rattle.std.specs.Prelude.{◌≡◌, ◌^◌};
ghost use Rattle.page_store.specs.claim.Transactions.{count_of, txn_pages};
ghost use Rattle.chunk_table.specs.Appended.{AppendsRows};
ghost use Rattle.chunk_table.specs.Parts.{BeginsPart};
ghost use Rattle.chunk_table.specs.ChunkReading.{AppendsPiece, AppendsPieces, IsChunk, piece};

use crate::ids::ChunkId;
use crate::lengths::part_length;
use desk_store_pages::{TreeError, read_row};
use desk_store_rows::{Key, PIECE_DISTRICTS, read_districts};
use page_btree::VALUE_LIMIT;
use page_store::{Pages, Txn};
use sector_device::SectorDevice;

/// Appends one part of a chunk of `count` districts.
fn append_piece<D: SectorDevice>(
    txn: &Txn,
    pages: &mut Pages<D>,
    number: u64,
    count: usize,
    index: usize,
    into: &mut Vec<u16>,
) -> Result<(), TreeError>
    requires begun { txn_pages txn.now ≡ count_of pages.old }
    requires place { BeginsPart 512 (2 ^ 16) count index }
    ensures { AppendsRows (IsChunk number count) (piece index) (AppendsPiece number count index)
        txn.now pages.old pages.new into.old.items into.new.items result }
{
    let mut bytes = [0; VALUE_LIMIT];
    let length = read_row(txn, pages, &Key::chunk(number, index as u16), &mut bytes)?;
    let Some(piece) = read_districts(&bytes[..length]) else {
        return Err(TreeError::NotAStore);
    };
    if piece.len() != part_length(count, PIECE_DISTRICTS, index) {
        return Err(TreeError::NotAStore);
    }
    match into.extend_from_slice(piece.as_slice()) {
        Ok(_) => Ok(()),
        Err(_) => Err(TreeError::Memory),
    }
}

/// Reads a chunk of `count` districts, which it appends to a list. After an error the list may contain some
/// of them. `NotAStore` comes also if the store has no such chunk, since none has more than
/// 33,554,432 districts, and `Memory` if the list could not grow.
pub fn get_chunk<D: SectorDevice>(
    txn: &Txn,
    pages: &mut Pages<D>,
    id: ChunkId,
    count: usize,
    into: &mut Vec<u16>,
) -> Result<(), TreeError>
    requires begun { txn_pages txn.now ≡ count_of pages.old }
    ensures { AppendsRows (IsChunk id.number count) (λ districts. districts) (AppendsPieces id.number count)
        txn.now pages.old pages.new into.old.items into.new.items result }
{
    if count > PIECE_DISTRICTS * 65_536 {
        return Err(TreeError::NotAStore);
    }
    let pieces = (count + (PIECE_DISTRICTS - 1)) / PIECE_DISTRICTS;
    for index in 0..pieces {
        append_piece(txn, pages, id.number, count, index, into)?;
    }
    Ok(())
}
