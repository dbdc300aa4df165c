//! Rows put into a page and taken out of it where they lie.
ghost use Rattle.std.specs.Prelude.{◌≡◌, ◌≤◌, ◌<◌, ◌+◌, ◌-◌, ◌/◌, ◌%◌, ◌++◌, length, take, drop};
ghost use Rattle.std.specs.Prelude.{slice_set, MatchResult, cond, true, false, Option, Some, None};
ghost use Rattle.page_btree_node.specs.claim.Entries.{IsEntry, entry_bytes, entry_size, size_of};
ghost use Rattle.page_btree_node.specs.claim.Node.{Node, IsNode};
ghost use Rattle.page_btree_node.specs.Bytes.{HasRoomFor, IsByteRange};
ghost use Rattle.page_btree_node.specs.Spots.{PutsRow, TakesRow, TakesSpareRow, InsertsEntry, ReplacesEntry, RemovesEntry, NoneEnds};

use crate::entry::{move_bytes, put_entry};
use crate::scan::NotANode;
use crate::search::{RowNear, count_of};
use crate::sizes::{PAGE_SIZE, PageBytes};
use crate::spot::{end_from, spot_after};

/// Puts an entry in the place of the bytes between two places, up to where the last entry ends.
#[tactic(auto, using(crate::proofs::Editing::placed))]
fn splice(page: &mut PageBytes, at: usize, end: usize, used: usize, key: &[u8], value: &[u8])
    requires rest { IsByteRange end used 4096 }
    requires room { HasRoomFor (key.now, value.now) (at + (used - end)) 4096 }
    ensures { page.new ≡ take at page.old ++ (entry_bytes (key.now, value.now)
        ++ (take (used - end) (drop end page.old) ++ drop (at + entry_size (key.now, value.now) + (used - end)) page.old)) }
{
    move_bytes(page, end, used, at + 3 + key.len() + value.len());
    put_entry(page, at, key, value);
}

/// Says how many entries the page has.
fn set_count(page: &mut PageBytes, count: usize)
    requires { count < 65536 }
    ensures { page.new ≡ slice_set (slice_set page.old 2 (count / 256)) 3 (count % 256) }
{
    page[2] = (count / 256) as u8;
    page[3] = (count % 256) as u8;
}

/// Inserts an entry before the one at a place, and returns whether it had room.
#[tactic(auto, using(crate::proofs::Editing::count_small, crate::proofs::PageEdits::inserted_size))]
fn insert_in(
    page: &mut PageBytes,
    index: usize,
    at: usize,
    key: &[u8],
    value: &[u8],
) -> Result<bool, NotANode>
    requires entry { IsEntry (key.now, value.now) }
    requires at { at ≤ 4096 }
    ensures { MatchResult result (InsertsEntry page.old page.new index at (key.now, value.now)) (λ _. NoneEnds page.old index at) }
{
    let used = end_from(page, index, at)?;
    let count = count_of(page);
    if count == 65535 {
        return Err(NotANode);
    }
    if used + 3 + key.len() + value.len() > PAGE_SIZE {
        return Ok(false);
    }
    splice(page, at, at, used, key, value);
    set_count(page, count + 1);
    Ok(true)
}

/// Replaces the value of the entry between two offsets, and returns whether it had room. A value of
/// the same length is overwritten in place.
fn replace_in(
    page: &mut PageBytes,
    index: usize,
    at: usize,
    end: usize,
    key: &[u8],
    value: &[u8],
) -> Result<bool, NotANode>
    requires entry { IsEntry (key.now, value.now) }
    requires part { IsByteRange at end 4096 }
    requires index { index < 65536 }
    ensures { MatchResult result (ReplacesEntry page.old page.new index at end (key.now, value.now))
        (λ _. (node : Node) → IsNode page.old node → index < length node.entries → end ≡ 4 + size_of (take (index + 1) node.entries) → ⊥) }
{
    if at + 3 + key.len() + value.len() == end {
        put_entry(page, at, key, value);
        return Ok(true);
    }
    let used = end_from(page, index + 1, end)?;
    if at + 3 + key.len() + value.len() + (used - end) > PAGE_SIZE {
        return Ok(false);
    }
    splice(page, at, end, used, key, value);
    Ok(true)
}

/// Removes the entry between two offsets, and returns the number of entries left. All bytes after
/// it are moved, so the end of the last entry need not be known.
fn remove_in(page: &mut PageBytes, at: usize, end: usize) -> Result<usize, NotANode>
    requires { IsByteRange at end 4096 }
    ensures { MatchResult result (RemovesEntry page.old page.new at end)
        (λ _. (node : Node) → IsNode page.old node → 0 < length node.entries → ⊥) }
{
    let count = count_of(page);
    if count == 0 {
        return Err(NotANode);
    }
    move_bytes(page, end, PAGE_SIZE, at);
    set_count(page, count - 1);
    Ok(count - 1)
}

/// A row that was put into a leaf: whether its key was there, and the place before it.
#[derive(Clone, Copy, Drop)]
pub struct RowPut {
    pub had: bool,
    pub near: RowNear,
}

/// Puts a row into a leaf whose keys rise; returns none and leaves the page unchanged if it has no
/// room. The search begins at a place before which each key is below this one.
pub fn put_row(
    page: &mut PageBytes,
    from: RowNear,
    key: &[u8],
    value: &[u8],
) -> Result<Option<RowPut>, NotANode>
    requires key { length key.now ≤ 72 }
    requires value { length value.now ≤ 1024 }
    ensures { PutsRow page.old page.new key.now value.now from result }
{
    let spot = spot_after(page, from, key)?;
    let near = RowNear {
        k: spot.index,
        at: spot.at,
    };
    if spot.found {
        let fits = replace_in(page, spot.index, spot.at, spot.end, key, value)?;
        return Ok(told(fits, RowPut { had: true, near }));
    }
    let fits = insert_in(page, spot.index, spot.at, key, value)?;
    Ok(told(fits, RowPut { had: false, near }))
}

/// The result for a row that had room, or none if it had not.
fn told(fits: bool, put: RowPut) -> Option<RowPut>
    ensures { result ≡ cond fits (Some put) None }
{
    if fits { Some(put) } else { None }
}

/// Takes the row of a key out of a leaf whose keys rise: how many are left, or none where the key isn't there.
pub fn take_row(page: &mut PageBytes, key: &[u8]) -> Result<Option<usize>, NotANode>
    ensures { TakesRow page.old page.new key.now result }
{
    let spot = spot_after(page, RowNear::FIRST, key)?;
    if spot.found {
        let left = remove_in(page, spot.at, spot.end)?;
        return Ok(Some(left));
    }
    Ok(None)
}

/// Removes the row of a key from a leaf whose keys rise, and returns whether the key existed;
/// returns none and leaves the page unchanged if its row is the only one.
pub fn take_spare_row(page: &mut PageBytes, key: &[u8]) -> Result<Option<bool>, NotANode>
    ensures { TakesSpareRow page.old page.new key.now result }
{
    let spot = spot_after(page, RowNear::FIRST, key)?;
    if spot.found {
        if count_of(page) < 2 {
            return Ok(None);
        }
        let _ = remove_in(page, spot.at, spot.end)?;
        return Ok(Some(true));
    }
    Ok(Some(false))
}
