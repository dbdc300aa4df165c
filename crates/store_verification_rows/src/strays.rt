//! Whether a row belongs to its store.
ghost use Rattle.std.specs.Prelude.{◌≡◌, ◌<◌, ◌*◌, ◌^◌, ℕ, [], None, Some, length};
ghost use Rattle.desk_model.specs.declared.block.BlockRow.{BlockRow as BlockValue};
ghost use Rattle.page_store.specs.claim.Transactions.{count_of, txn_pages};
ghost use Rattle.desk_store_rows.specs.claim.Values.{block_bytes, pair_bytes};
ghost use Rattle.store_verification_rows.specs.Strays.{Holds, IsAny, IsJudged, IsNamed, Tells};
ghost use Rattle.desk_store_pages.specs.Looking.{Looks};

use crate::hints::Hints;
use crate::namings::is_named;
use crate::wrong::Wrong;
use btree_scan::Row;
use desk_model::block::BlockId;
use desk_model::ranges::CountyRange;
use desk_store_pages::TreeError;
use desk_store_rows::{Key, RowKey, read_block, read_pair};
use page_store::{Pages, Txn};
use sector_device::SectorDevice;

/// What is wrong with the value of a mark.
fn judge_mark(value: &[u8]) -> Option<Wrong>
    ensures { Tells (value.now ≡ []) result }
{
    if value.is_empty() {
        return None;
    }
    Some(Wrong::BadValue)
}

/// What is wrong with a part of a revision, of which no more is to be known than which one it is.
fn judge_part(index: u8, ranges: &[CountyRange]) -> Option<Wrong>
    ensures { Tells (128 * index < length ranges.now) result }
{
    if 128 * (index as usize) < ranges.len() {
        return None;
    }
    Some(Wrong::WrongLength)
}

/// The number of a block is in its range.
fn id_fits(id: BlockId)
    ensures { id < 10 ^ 15 }
{}

/// What is wrong with the value of a block.
fn judge_block(value: &[u8]) -> Option<Wrong>
    ensures { Tells ((b : BlockValue) × (b.id < 10 ^ 15) × (block_bytes b ≡ value.now)) result }
{
    match read_block(value) {
        None => Some(Wrong::BadValue),
        Some(block) => {
            id_fits(block.id);
            None
        }
    }
}

/// What is wrong with the value of a pair of neighbours.
fn judge_pair(value: &[u8]) -> Option<Wrong>
    ensures { Tells ((a : ℕ) × (b : ℕ) × (pair_bytes (a, b) ≡ value.now)) result }
{
    match read_pair(value) {
        None => Some(Wrong::BadValue),
        Some(_) => None,
    }
}

/// What is wrong with a row of a chunk: no part of a revision of the plan, or of any where none is given, names the chunk for a county with
/// this piece.
fn judge_named<D: SectorDevice>(
    txn: &Txn,
    pages: &mut Pages<D>,
    part: &mut Row,
    first: Option<Key>,
    ranges: &[CountyRange],
    of: Option<u64>,
    number: u64,
    piece: u16,
    wrong: Wrong,
) -> Result<Option<Wrong>, TreeError>
    requires begun { txn_pages txn.now ≡ count_of pages.old }
    ensures { Looks (Holds part.old part.new (λ m. Tells (IsNamed ranges.now of number piece m))) IsAny txn.now pages.old pages.new result }
{
    if is_named(txn, pages, part, first, ranges, of, number, piece)? {
        return Ok(None);
    }
    Ok(Some(wrong))
}

/// What is wrong with a row, if anything is. `ranges` are the counties.
pub(crate) fn judge<D: SectorDevice>(
    txn: &Txn,
    pages: &mut Pages<D>,
    part: &mut Row,
    ranges: &[CountyRange],
    hints: &Hints,
    key: &[u8],
    value: &[u8],
) -> Result<Option<Wrong>, TreeError>
    requires begun { txn_pages txn.now ≡ count_of pages.old }
    ensures { Looks (Holds part.old part.new (IsJudged ranges.now (key.now, value.now))) IsAny txn.now pages.old pages.new result }
{
    match RowKey::read(key) {
        Some(RowKey::Retired { .. }) => Ok(judge_mark(value)),
        Some(RowKey::Begun { .. }) => Ok(judge_mark(value)),
        Some(RowKey::Holding { plan, number }) => {
            let first = hints.of_plan(plan, number);
            judge_named(
                txn,
                pages,
                part,
                first,
                ranges,
                Some(plan),
                number,
                0,
                Wrong::NotNamed,
            )
        }
        Some(RowKey::Part { index, .. }) => Ok(judge_part(index, ranges)),
        Some(RowKey::Block { .. }) => Ok(judge_block(value)),
        Some(RowKey::Pair { .. }) => Ok(judge_pair(value)),
        Some(RowKey::Chunk { number, piece }) => {
            let first = hints.any(number);
            // No plan names the chunk, or none for a county with this number of blocks.
            let wrong = match first {
                None => Wrong::NobodyHolds,
                Some(_) => Wrong::WrongLength,
            };
            judge_named(txn, pages, part, first, ranges, None, number, piece, wrong)
        }
        Some(RowKey::Counters)
        | Some(RowKey::HolderCount { .. })
        | Some(RowKey::Named { .. })
        | Some(RowKey::Seal)
        | Some(RowKey::Version)
        | None => Ok(None),
    }
}
