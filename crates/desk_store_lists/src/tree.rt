//! A tree of items.
ghost use Rattle.std.specs.Prelude.{◌≡◌, ◌≤◌, ◌++◌, ◌∷◌, [], length, IfOk};
ghost use Rattle.std.specs.Option.{option_copied};
ghost use Rattle.std.specs.List.{slice_get};
ghost use Rattle.desk_store_lists.specs.Parts.{part_of};

use std::alloc::{AllocError, Global};
use std::marker::Model;
use std::sync::Arc;

/// A tree of items, or none.
pub type Subtree<T> = Option<Arc<Branch<T>>>;

/// An item, and two trees of one size with the items before it.
#[derive(Drop)]
pub struct Branch<T: Drop> {
    older: Subtree<T>,
    newer: Subtree<T>,
    item: T,
}

impl<T: Drop> Model for Branch<T> {
    ghost use Rattle.std.specs.Prelude.{List, ◌≡◌, ◌++◌, ◌∷◌, [], length};
    ghost use Rattle.desk_store_lists.specs.Parts.{part_of};

    ghost Value = { List T };

    ghost view = { λ a. part_of a.older ++ (part_of a.newer ++ a.item ∷ []) };

    ghost invariant = { λ a. length (part_of a.older) ≡ length (part_of a.newer) };

    ghost size = { length };

    ghost use Rattle.std.proofs.Common.{arith, length-append};

    ghost size_decreases = { λ a h. Prim.grind (arith, length-append) };
}

impl<T: Drop> Branch<T> {
    /// An item after those of two trees of one size.
    pub fn new(
        alloc: Global,
        older: Subtree<T>,
        newer: Subtree<T>,
        item: T,
    ) -> Result<Arc<Branch<T>>, AllocError>
        requires { length (part_of older) ≡ length (part_of newer) }
        ensures { IfOk result (λ tree. tree.value ≡ part_of older ++ (part_of newer ++ item ∷ [])) }
    {
        Ok(Arc::new(alloc, Branch { older, newer, item })?)
    }

    /// Returns the item at a place below `count`.
    pub fn get(&self, count: usize, place: usize) -> Option<&T>
        requires { count ≡ length self.now }
        ensures { option_copied result ≡ slice_get self.now place }
    {
        let half = count / 2;
        if place < half {
            return match &self.older {
                Some(older) => older.get(half, place),
                None => None,
            };
        }
        let after = place - half;
        if after < half {
            return match &self.newer {
                Some(newer) => newer.get(half, after),
                None => None,
            };
        }
        if after == half {
            return Some(&self.item);
        }
        None
    }
}
