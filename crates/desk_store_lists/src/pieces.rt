//! Pieces of a list that lists share.
ghost use Rattle.std.specs.Prelude.{◌≡◌, ◌≤◌, ◌<◌, ◌+◌, ◌-◌, ◌⊎◌, ◌^◌, ℕ, Some, ◌++◌, length, get_or, map, take, drop, unwrap_or, true, false, IfOk};
ghost use Rattle.desk_store_lists.specs.Laid.{listed_at as listed_there, laid};

use crate::piece::Piece;
use std::alloc::{AllocError, Global};

/// The piece of these districts: the one that is kept, where it has the same, and else one of its own.
pub fn piece_of(alloc: Global, part: &[u16], kept: Option<&Piece>) -> Result<Piece, AllocError>
    ensures { IfOk result (λ piece. piece ≡ part.now) }
{
    let piece = Piece::pack(alloc, part)?;
    if let Some(kept) = kept {
        if kept.is_alike(&piece) {
            return kept.share();
        }
    }
    Ok(piece)
}

/// The first districts of a list.
pub fn prefix(list: &[u16], count: usize) -> &[u16]
    requires { count ≤ length list.now }
    ensures { result.now ≡ take count list.now }
{
    &list[..count]
}

/// The districts of a list from a place on.
pub fn after(list: &[u16], place: usize) -> &[u16]
    requires { place ≤ length list.now }
    ensures { result.now ≡ drop place list.now }
{
    &list[place..]
}

/// Returns what is listed for a place, for a list that begins at the place `first`.
fn listed_at(first: usize, listed: &[Option<u16>], place: usize) -> Option<u16>
    ensures { result ≡ listed_there first listed.now place }
{
    if place < first {
        return None;
    }
    match listed.get(place - first) {
        Some(district) => *district,
        None => None,
    }
}

/// Writes listed districts, which begin at the place `first`, over the districts of a list that
/// begins at the place `start`.
fn lay(districts: &mut [u16], start: usize, first: usize, listed: &[Option<u16>])
    requires { start + length districts.old < 2 ^ 64 }
    ensures { districts.new ≡ laid first listed.now start districts.old }
{
    for k in 0..districts.len() {
        districts[k] = listed_at(first, listed, start + k).unwrap_or(districts[k]);
    }
}

/// Returns whether the `count` places from `start` on and the `many` places from `first` on have
/// none in common.
fn is_apart(start: usize, count: usize, first: usize, many: usize) -> bool
    requires { start + count < 2 ^ 64 }
    ensures apart { result ≡ true → (start + count ≤ first) ⊎ (first + many ≤ start) }
    ensures beside { result ≡ false → (first < start + count) × (start < first + many) }
{
    start + count <= first || start >= first && start - first >= many
}

/// Returns a piece of `count` districts that begins at `start` with the listed districts written over
/// it: the piece itself if nothing changes.
pub fn piece_with(
    alloc: Global,
    kept: &Piece,
    start: usize,
    count: usize,
    first: usize,
    listed: &[Option<u16>],
) -> Result<Piece, AllocError>
    requires fits { start + length kept.now < 2 ^ 64 }
    requires counted { count ≡ length kept.now }
    ensures { IfOk result (λ piece. piece ≡ laid first listed.now start kept.now) }
{
    if is_apart(start, count, first, listed.len()) {
        return kept.share();
    }
    let mut districts = kept.to_vec(alloc)?;
    lay(&mut districts, start, first, listed);
    piece_of(alloc, districts.as_slice(), Some(kept))
}

/// Returns a piece of `count` districts that begins at `start` with a part, which begins at `first`,
/// written over it: the piece itself if nothing changes.
pub fn piece_put(
    alloc: Global,
    kept: &Piece,
    start: usize,
    count: usize,
    first: usize,
    part: &[u16],
) -> Result<Piece, AllocError>
    requires here { start + length kept.now < 2 ^ 64 }
    requires counted { count ≡ length kept.now }
    requires there { first + length part.now < 2 ^ 64 }
    ensures { IfOk result (λ piece. piece ≡ laid first (map Some part.now) start kept.now) }
{
    if is_apart(start, count, first, part.len()) {
        return kept.share();
    }
    let from = first.max(start);
    let to = (first + part.len()).min(start + count);
    let new = between(part, from - first, to - first);
    if new.len() == count {
        return piece_of(alloc, new, Some(kept));
    }
    let districts = kept.to_vec(alloc)?;
    let changed = replaced(districts, from - start, to - start, new);
    piece_of(alloc, changed.as_slice(), Some(kept))
}

/// Puts districts in the place of those between two places of a list.
#[tactic(auto, using(crate::proofs::Puts::in_middle))]
fn replace(districts: &mut [u16], from: usize, to: usize, new: &[u16])
    requires order { from ≤ to }
    requires within { to ≤ length districts.old }
    requires fit { length new.now ≡ to - from }
    ensures { districts.new ≡ take from districts.old ++ (new.now ++ drop to districts.old) }
{
    districts[from..to].copy_from_slice(new);
}

/// A list with districts in the place of those between two places.
fn replaced(districts: Vec<u16>, from: usize, to: usize, new: &[u16]) -> Vec<u16>
    requires order { from ≤ to }
    requires within { to ≤ length districts.items }
    requires fit { length new.now ≡ to - from }
    ensures { result.items ≡ take from districts.items ++ (new.now ++ drop to districts.items) }
{
    let mut list = districts;
    replace(&mut list, from, to, new);
    list
}

/// The districts of a list between two places.
fn between(list: &[u16], from: usize, to: usize) -> &[u16]
    requires order { from ≤ to }
    requires within { to ≤ length list.now }
    ensures { result.now ≡ take (to - from) (drop from list.now) }
{
    &list[from..to]
}
