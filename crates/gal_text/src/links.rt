//! Pairs of neighbours, from what the units list.
ghost use Rattle.std.specs.Prelude.{◌≡◌, ◌↔◌, ◌++◌, ◌∷◌, [], ℕ, List, All, Contains, IfOk, IsTrue, MatchOption, filter_map, true, if◌then◌else◌};
ghost use Rattle.gal_text.specs.Links.{IsFirstFalse, ArePaired};
ghost use Rattle.gal_text.specs.claim.Links.{AreRising, AreMutual, IsOneWay, IsLeastOneWay};
ghost use Rattle.gal_text.specs.Pairing.{AreCut, IsLeastOrNone, is_before, upward_pair, downward_pair};

use crate::units::Link;
use desk_model::block::BlockId;
use std::alloc::{AllocError, Global};

/// Why links give no pairs.
#[derive(Clone, Copy)]
pub enum Unpaired {
    /// The first block lists the second, which doesn't list it: the least first, then the least second.
    OneWay(BlockId, BlockId),
    Memory,
}

/// The first place whose mark is false.
pub fn first_missing(seen: &[bool]) -> Option<usize>
    ensures { MatchOption result (All (λ mark. mark ≡ true) seen.now) (IsFirstFalse seen.now) }
{
    for (place, mark) in seen.iter().enumerate() {
        if !*mark {
            return Some(place);
        }
    }
    None
}

/// The links from a block to a greater one.
fn upward(alloc: Global, links: &[Link]) -> Result<Vec<(BlockId, BlockId)>, AllocError>
    ensures { IfOk result (λ pairs. pairs.items ≡ filter_map upward_pair links.now) }
{
    let mut pairs = Vec::with_capacity(alloc, links.len() / 2)?;
    for link in links {
        if link.from.number() < link.to.number() {
            pairs.push((link.from, link.to))?;
        }
    }
    Ok(pairs)
}

/// The links from a block to a less one, turned round.
fn downward(alloc: Global, links: &[Link]) -> Result<Vec<(BlockId, BlockId)>, AllocError>
    ensures { IfOk result (λ pairs. pairs.items ≡ filter_map downward_pair links.now) }
{
    let mut pairs = Vec::with_capacity(alloc, links.len() / 2)?;
    for link in links {
        if link.to.number() < link.from.number() {
            pairs.push((link.to, link.from))?;
        }
    }
    Ok(pairs)
}

/// Puts pairs in their order, each once.
fn sort_pairs(pairs: &mut Vec<(BlockId, BlockId)>)
    ensures rising { AreRising pairs.new.items }
    ensures kept { (p : ℕ × ℕ) → Contains pairs.old.items p ↔ Contains pairs.new.items p }
{
    pairs.sort_unstable();
    pairs.dedup();
}

/// Returns whether the list contains a pair.
fn has_pair(pairs: &[(BlockId, BlockId)], pair: (BlockId, BlockId)) -> bool
    requires { AreRising pairs.now }
    ensures { IsTrue result ↔ Contains pairs.now pair }
{
    pairs.binary_search(&pair).is_ok()
}

/// Whether the block that a link leads to doesn't list the link's own.
fn is_one_way(link: &Link, up: &[(BlockId, BlockId)], down: &[(BlockId, BlockId)]) -> bool
    requires up { AreRising up.now }
    requires down { AreRising down.now }
    ensures { (links : List Link) → AreCut links up.now down.now → Contains links link.now
        → (IsTrue result ↔ IsOneWay links link.now.from link.now.to) }
{
    if link.from.number() < link.to.number() {
        return !has_pair(down, (link.from, link.to));
    }
    if link.to.number() < link.from.number() {
        return !has_pair(up, (link.to, link.from));
    }
    false
}

/// Returns the link that comes first.
fn first_of(one: Link, other: Link) -> Link
    ensures { result ≡ (if is_before other one then other else one) }
{
    let before = if other.from == one.from {
        other.to.number() < one.to.number()
    } else {
        other.from.number() < one.from.number()
    };
    if before { other } else { one }
}

/// The least of one-way links and one more.
fn with_one_way(least: Option<Link>, link: Link) -> Option<Link>
    ensures { (links seen : List Link) → IsOneWay links link.from link.to → IsLeastOrNone links seen least
        → IsLeastOrNone links (seen ++ link ∷ []) result }
{
    match least {
        None => Some(link),
        Some(other) => Some(first_of(other, link)),
    }
}

/// The least one-way link, with one more link looked at.
fn with_link(
    least: Option<Link>,
    link: &Link,
    up: &[(BlockId, BlockId)],
    down: &[(BlockId, BlockId)],
) -> Option<Link>
    requires up { AreRising up.now }
    requires down { AreRising down.now }
    ensures { (links seen : List Link) → AreCut links up.now down.now → Contains links link.now
        → IsLeastOrNone links seen least → IsLeastOrNone links (seen ++ link.now ∷ []) result }
{
    if is_one_way(link, up, down) {
        return with_one_way(least, *link);
    }
    least
}

/// The least one-way link.
fn least_one_way(
    links: &[Link],
    up: &[(BlockId, BlockId)],
    down: &[(BlockId, BlockId)],
) -> Option<Link>
    requires { AreCut links.now up.now down.now }
    ensures { IsLeastOrNone links.now links.now result }
{
    let mut least = None;
    for link in links {
        least = with_link(least, link, up, down);
    }
    least
}

/// The least one-way link. Both lists are equal where there is none.
fn find_one_way(
    links: &[Link],
    up: &[(BlockId, BlockId)],
    down: &[(BlockId, BlockId)],
) -> Option<Link>
    requires { AreCut links.now up.now down.now }
    ensures { MatchOption result (AreMutual links.now) (λ l. IsLeastOneWay links.now l.from l.to) }
{
    if up == down {
        return None;
    }
    least_one_way(links, up, down)
}

/// Each pair of blocks that list each other once, the smaller number first, rising.
pub fn pairs_of(alloc: Global, links: Vec<Link>) -> Result<Vec<(BlockId, BlockId)>, Unpaired>
    ensures { ArePaired links.items result }
{
    let Ok(mut up) = upward(alloc, links.as_slice()) else {
        return Err(Unpaired::Memory);
    };
    let Ok(mut down) = downward(alloc, links.as_slice()) else {
        return Err(Unpaired::Memory);
    };
    sort_pairs(&mut up);
    sort_pairs(&mut down);
    if let Some(link) = find_one_way(links.as_slice(), up.as_slice(), down.as_slice()) {
        return Err(Unpaired::OneWay(link.from, link.to));
    }
    Ok(up)
}
