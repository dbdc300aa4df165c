//! Trees of blocks, one for each part of a district that holds together.
ghost use Rattle.std.specs.Prelude.{◌<◌, ◌^◌, length, IfOk};
ghost use Rattle.audit_contiguity.specs.Forest.{ArePairsOf, HasParent, IsRootOf, WereJoined, AreAlone, IsForest};

use desk_model::geography::Pair;
use std::alloc::{AllocError, Global};

/// The lowest block of a block's tree. Each second block on the way is hung on the one above its parent.
fn root_of(parents: &mut [u32], block: u32) -> u32
    requires { HasParent parents.old block }
    ensures { IsRootOf parents.old block parents.new result }
{
    let mut at = block;
    loop {
        let parent = parents[at as usize];
        if parent == at {
            return at;
        }
        let above = parents[parent as usize];
        parents[at as usize] = above;
        at = above;
    }
}

/// Joins the trees of two blocks under the lower of their roots.
fn join(parents: &mut [u32], one: u32, other: u32)
    requires one { HasParent parents.old one }
    requires other { HasParent parents.old other }
    ensures { WereJoined parents.old one other parents.new }
{
    if parents[one as usize] == parents[other as usize] {
        return;
    }
    let one_root = root_of(parents, one);
    let other_root = root_of(parents, other);
    if one_root < other_root {
        parents[other_root as usize] = one_root;
    } else if other_root < one_root {
        parents[one_root as usize] = other_root;
    }
}

/// Joins the two blocks of each pair that lies in one district from `first` to `last`.
fn join_pairs(parents: &mut [u32], pairs: &[Pair], plan: &[u16], first: u16, last: u16)
    requires { IsForest pairs.now plan.now first last 0 parents.old }
    ensures { IsForest pairs.now plan.now first last (length pairs.now) parents.new }
{
    for pair in pairs {
        let district = plan[pair.first as usize];
        if first <= district && district <= last && district == plan[pair.second as usize] {
            join(parents, pair.first, pair.second);
        }
    }
}

/// The blocks, each a tree of its own.
fn alone(alloc: Global, count: usize) -> Result<Vec<u32>, AllocError>
    requires { count < 2 ^ 32 }
    ensures { IfOk result (λ v. AreAlone count v.items) }
{
    let mut parents = Vec::with_capacity(alloc, count)?;
    for i in 0..count {
        parents.push(i as u32)?;
    }
    Ok(parents)
}

/// The trees of the parts of the districts from `first` to `last` that hold together, a block's parent for each.
pub fn forest(
    alloc: Global,
    pairs: &[Pair],
    plan: &[u16],
    first: u16,
    last: u16,
) -> Result<Vec<u32>, AllocError>
    requires { ArePairsOf plan.now pairs.now }
    ensures { IfOk result (λ v. IsForest pairs.now plan.now first last (length pairs.now) v.items) }
{
    let mut parents = alone(alloc, plan.len())?;
    join_pairs(parents.as_mut_slice(), pairs, plan, first, last);
    Ok(parents)
}
