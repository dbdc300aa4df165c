//! The ways down to children that follow one another, as a scan under a prefix goes them.
ghost use Rattle.std.specs.Prelude.{◌<◌, MatchResult};
ghost use Rattle.page_btree_node.specs.Ways.{FindsWays, FollowsWays, IsUnder, NoneFollows};

use crate::entry::{Lengths, bounds_in};
use crate::scan::NotANode;
use crate::search::{Above, child_at, count_of, part, turn_for};
use crate::sizes::PageBytes;

/// The child that a key belongs to, how many children after it were found, and the first key after the last of them, if there
/// is one.
#[derive(Clone, Copy, Drop)]
pub struct Ways<'a> {
    pub child: u32,
    pub more: usize,
    pub bound: Option<&'a [u8]>,
}

/// How many children after the first were found, and the entry whose key is the first after the last of them.
#[derive(Clone, Copy, Drop)]
struct Followed {
    more: usize,
    bound: Above,
}

/// The children after an entry whose key begins with a prefix, up to the first whose upper key is missing or doesn't.
#[tactic(auto, using(crate::proofs::Following::ways_there))]
fn follow(
    page: &PageBytes,
    first: Above,
    prefix: &[u8],
    after: &mut [u32; 3],
) -> Result<Followed, NotANode>
    requires few { first.k < 65536 }
    requires under { IsUnder page.now prefix.now first }
    ensures { MatchResult result (FollowsWays page.now prefix.now first after.new) (λ _. NoneFollows page.now first) }
{
    let count = count_of(page);
    let mut bound = first;
    let mut last = Lengths::NONE;
    for more in 0..3usize {
        if bound.k + 1 >= count {
            return Ok(Followed { more, bound });
        }
        let next = match bounds_in(page, bound.end, &mut last) {
            None => return Err(NotANode),
            Some(next) => next,
        };
        if !part(page, bound.end + 3, next.value).starts_with(prefix) {
            return Ok(Followed { more, bound });
        }
        after[more] = match child_at(page, bound.value, bound.end) {
            Err(refused) => return Err(refused),
            Ok(child) => child,
        };
        bound = Above {
            k: bound.k + 1,
            at: bound.end,
            value: next.value,
            end: next.end,
        };
    }
    Ok(Followed { more: 3, bound })
}

/// The child that a key belongs to, as `way_for` finds it, and children after it whose lower and upper keys begin with a prefix:
/// at most three, up to the first whose upper key is missing or doesn't begin with it. `after` begins with them.
pub fn ways_for<'a>(
    page: &'a PageBytes,
    key: &[u8],
    prefix: &[u8],
    after: &mut [u32; 3],
) -> Result<Ways<'a>, NotANode>
    ensures { FindsWays page.now key.now prefix.now after.new result }
{
    let turn = turn_for(page, key)?;
    let child = turn.child;
    let Some(first) = turn.above else {
        return Ok(Ways {
            child,
            more: 0,
            bound: None,
        });
    };
    let upper = part(page, first.at + 3, first.value);
    if !upper.starts_with(prefix) {
        return Ok(Ways {
            child,
            more: 0,
            bound: Some(upper),
        });
    }
    let found = follow(page, first, prefix, after)?;
    let bound = Some(part(page, found.bound.at + 3, found.bound.value));
    Ok(Ways {
        child,
        more: found.more,
        bound,
    })
}
