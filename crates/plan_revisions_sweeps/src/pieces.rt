//! Finds a piece that is left of some chunks.
ghost use Rattle.std.specs.Prelude.{◌≡◌, ◌<◌, ℕ, true, MatchOption};
ghost use Rattle.page_store.specs.claim.Transactions.{count_of, txn_pages};
ghost use Rattle.desk_store_pages.specs.Looking.{Looks};
ghost use Rattle.desk_store_rows.specs.claim.Keys.{chunk, key_of};
ghost use Rattle.desk_store_rows.specs.claim.Tidy.{AreRows};
ghost use Rattle.plan_revisions_sweeps.specs.Finding.{IsCopiedKey, IsFirstFrom, IsFirstPiece, IsGap, IsNextChunk, IsPieceKey, IsSought, IsSoughtLeft};

use crate::held::is_there;
use btree_scan::Row;
use desk_store_pages::TreeError;
use desk_store_rows::{Key, RowKey};
use page_btree::{Leaf, Lengths, PAGE_SIZE, PageBytes, SmallBytes, bounds_in, leaf_from};
use page_store::{Pages, Txn};
use sector_device::SectorDevice;

/// Copies the first key in the map that isn't below a key, if there is one.
fn key_from<D: SectorDevice>(
    txn: &Txn,
    pages: &mut Pages<D>,
    key: &[u8],
    found: &mut SmallBytes,
) -> Result<bool, TreeError>
    requires begun { txn_pages txn.now ≡ count_of pages.old }
    ensures { Looks (IsFirstFrom key.now found.new) (λ m. Unit {0}) txn.now pages.old pages.new result }
{
    let mut leaf = Leaf::empty();
    let mut held = [[0; PAGE_SIZE]; 4];
    leaf_from(txn, pages, key, key, &mut leaf, &mut held)?;
    if leaf.left > 0 {
        return copy_key(&held[0], leaf.at, found);
    }
    if leaf.more > 0 {
        return copy_key(&held[1], 4, found);
    }
    Ok(false)
}

/// Copies the key of the row at a place in a leaf's page.
fn copy_key(page: &PageBytes, at: usize, found: &mut SmallBytes) -> Result<bool, TreeError>
    ensures { IsCopiedKey page.now at found.new result }
{
    let mut last = Lengths::NONE;
    match bounds_in(page, at, &mut last) {
        None => Err(TreeError::NotAStore),
        Some(bounds) => {
            found.set(&page[at + 3..bounds.value]);
            Ok(true)
        }
    }
}

/// Returns the chunk of the piece with this key; `None` for any other key.
fn chunk_of(key: &[u8]) -> Option<u64>
    ensures { MatchOption result ((number piece : ℕ) → key.now ≡ key_of (chunk number piece) → ⊥) (λ number. IsPieceKey number key.now) }
{
    match RowKey::read(key) {
        Some(RowKey::Chunk { number, .. }) => Some(number),
        _ => None,
    }
}

/// The first chunk from a number on that has a piece, whose key is copied; none where no chunk from there on has one.
fn chunk_from<D: SectorDevice>(
    txn: &Txn,
    pages: &mut Pages<D>,
    number: u64,
    row: &mut Row,
) -> Result<Option<u64>, TreeError>
    requires begun { txn_pages txn.now ≡ count_of pages.old }
    ensures { Looks (λ m next. AreRows m → IsNextChunk number row.new.key m next) AreRows txn.now pages.old pages.new result }
{
    let prefix = Key::chunk_pieces(number);
    if !key_from(txn, pages, prefix.as_slice(), &mut row.key)? {
        return Ok(None);
    }
    let Some(next) = chunk_of(row.key.as_slice()) else {
        return Err(TreeError::NotAStore);
    };
    Ok(Some(next))
}

/// Chunks from a number on and below another, of which none has a piece. Where it ends at one that has, the key of its first piece
/// is at hand.
#[derive(Clone, Copy, Drop)]
struct PieceGap {
    from: u64,
    to: u64,
    ends: bool,
}

/// Copies the key of a piece of a chunk, if there is one. A chunk in the gap has none, and the key of the one where it ends is in
/// `row`; else the gap is then the one from that chunk on.
fn seek_piece<D: SectorDevice>(
    txn: &Txn,
    pages: &mut Pages<D>,
    number: u64,
    gap: &mut PieceGap,
    row: &mut Row,
) -> Result<bool, TreeError>
    requires begun { txn_pages txn.now ≡ count_of pages.old }
    ensures { Looks (λ m found. AreRows m → IsGap gap.old row.old.key m → IsSought number gap.new row.new.key m found) AreRows
        txn.now pages.old pages.new result }
{
    if gap.from <= number && number < gap.to {
        return Ok(false);
    }
    if gap.ends && number == gap.to {
        return Ok(true);
    }
    gap.from = number;
    gap.ends = false;
    match chunk_from(txn, pages, number, row)? {
        None => {
            gap.to = u64::MAX;
            Ok(false)
        }
        Some(next) => {
            gap.to = next;
            gap.ends = true;
            Ok(next == number)
        }
    }
}

/// Copies the key of a piece of a chunk, if there is one and no plan holds the chunk.
fn seek_left<D: SectorDevice>(
    txn: &Txn,
    pages: &mut Pages<D>,
    number: u64,
    gap: &mut PieceGap,
    row: &mut Row,
) -> Result<bool, TreeError>
    requires begun { txn_pages txn.now ≡ count_of pages.old }
    ensures { Looks (λ m found. AreRows m → IsGap gap.old row.old.key m → IsSoughtLeft number gap.new row.new.key m found) AreRows
        txn.now pages.old pages.new result }
{
    if !seek_piece(txn, pages, number, gap, row)? {
        return Ok(false);
    }
    if is_there(txn, pages, &Key::holder_count(number))? {
        return Ok(false);
    }
    Ok(true)
}

/// The first piece that is left of one of these chunks that no plan holds, if there is one. Numbers that follow one another cost one
/// search of the tree.
pub(crate) fn first_piece<D: SectorDevice>(
    txn: &Txn,
    pages: &mut Pages<D>,
    numbers: &[u64],
    row: &mut Row,
) -> Result<bool, TreeError>
    requires begun { txn_pages txn.now ≡ count_of pages.old }
    ensures { Looks (λ m found. AreRows m → IsFirstPiece numbers.now row.new.key m found) AreRows txn.now pages.old pages.new result }
{
    let mut gap = PieceGap {
        from: 0,
        to: 0,
        ends: false,
    };
    for number in numbers {
        if seek_left(txn, pages, *number, &mut gap, row)? {
            return Ok(true);
        }
    }
    Ok(false)
}
