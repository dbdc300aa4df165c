//! Trees in a row.
ghost use Rattle.std.specs.Prelude.{◌≡◌, ◌≤◌, ◌<◌, ◌^◌, ◌++◌, ◌∷◌, [], length, IfOk};
ghost use Rattle.std.specs.Option.{option_copied};
ghost use Rattle.std.specs.List.{slice_get};
ghost use Rattle.desk_store_lists.specs.Parts.{part_of};

use crate::tree::Branch;
use std::alloc::{AllocError, Global};
use std::marker::Model;
use std::sync::Arc;

/// Trees in a row, or none.
pub type TreeRow<T> = Option<Arc<Trees<T>>>;

/// A tree, and the trees with the items before its own. Each is larger than the one after it, but that the last two may be of
/// one size: they are as few as the number of items has binary digits.
#[derive(Drop)]
pub struct Trees<T: Drop> {
    older: TreeRow<T>,
    /// The number of their items.
    before: usize,
    tree: Arc<Branch<T>>,
    /// The number of the tree's items.
    count: usize,
}

impl<T: Drop> Model for Trees<T> {
    ghost use Rattle.std.specs.Prelude.{List, ◌≡◌, ◌<◌, ◌++◌, length};
    ghost use Rattle.desk_store_lists.specs.Parts.{part_of};

    ghost Value = { List T };

    ghost view = { λ a. part_of a.older ++ a.tree.value };

    ghost invariant = { λ a. (a.before ≡ length (part_of a.older)) × ((a.count ≡ length a.tree.value) × (0 < a.count)) };

    ghost size = { length };

    ghost use Rattle.std.proofs.Common.{arith, length-append};

    ghost size_decreases = { λ a h. Prim.grind (arith, length-append) };
}

/// The same trees.
fn same<T: Drop>(row: &TreeRow<T>) -> Result<TreeRow<T>, AllocError>
    ensures { IfOk result (λ same. part_of same ≡ part_of row.now) }
{
    match row {
        Some(trees) => Ok(Some(trees.clone()?)),
        None => Ok(None),
    }
}

impl<T: Drop> Trees<T> {
    /// A tree of one item, after the others.
    fn single(
        alloc: Global,
        older: TreeRow<T>,
        before: usize,
        item: T,
    ) -> Result<Trees<T>, AllocError>
        requires { before ≡ length (part_of older) }
        ensures { IfOk result (λ trees. trees ≡ part_of older ++ item ∷ []) }
    {
        Ok(Trees {
            older,
            before,
            tree: Branch::new(alloc, None, None, item)?,
            count: 1,
        })
    }

    /// Trees with one item.
    pub fn first(alloc: Global, item: T) -> Result<Trees<T>, AllocError>
        ensures { IfOk result (λ trees. trees ≡ item ∷ []) }
    {
        Trees::single(alloc, None, 0, item)
    }

    /// These items and one more.
    pub fn with(self: &Arc<Trees<T>>, alloc: Global, item: T) -> Result<Trees<T>, AllocError>
        requires { length self.now.value < 2 ^ 32 }
        ensures { IfOk result (λ trees. trees ≡ self.now.value ++ item ∷ []) }
    {
        let trees: &Trees<T> = self;
        let newer = trees.count;
        if let Some(second) = &trees.older {
            let second: &Trees<T> = second;
            let older = second.count;
            if older == newer {
                let tree = Branch::new(
                    alloc,
                    Some(second.tree.clone()?),
                    Some(trees.tree.clone()?),
                    item,
                )?;
                return Ok(Trees {
                    older: same(&second.older)?,
                    before: second.before,
                    tree,
                    count: older + newer + 1,
                });
            }
        }
        Trees::single(alloc, Some(self.clone()?), trees.before + newer, item)
    }

    /// The number of items.
    pub fn len(&self) -> usize
        requires { length self.now ≤ 2 ^ 32 }
        ensures { result ≡ length self.now }
    {
        self.before + self.count
    }

    /// The item at a place, from 0.
    pub fn get(&self, place: usize) -> Option<&T>
        ensures { option_copied result ≡ slice_get self.now place }
    {
        if place < self.before {
            return match &self.older {
                Some(older) => older.get(place),
                None => None,
            };
        }
        self.tree.get(self.count, place - self.before)
    }
}
