//! The list.
ghost use Rattle.std.specs.Prelude.{◌≡◌, ◌<◌, ◌^◌, ◌++◌, ◌∷◌, [], length, IfOk};
ghost use Rattle.std.specs.Option.{option_copied};
ghost use Rattle.std.specs.List.{slice_get};

use crate::trees::{TreeRow, Trees};
use std::alloc::{AllocError, Global};
use std::marker::Model;
use std::sync::Arc;

/// A list. Adding an item makes a new list, which shares everything with the old one: it takes room
/// for two nodes, whatever the number of items. Reading an item passes at most twice as many nodes
/// as that number has binary digits, and fewer for a late item.
#[derive(Drop)]
pub struct SharedList<T: Drop> {
    trees: TreeRow<T>,
}

impl<T: Drop> Model for SharedList<T> {
    ghost use Rattle.std.specs.Prelude.{List, length, ◌≤◌, ◌^◌};
    ghost use Rattle.desk_store_lists.specs.Parts.{part_of};

    ghost Value = { List T };

    ghost view = { λ a. part_of a.trees };

    ghost invariant = { λ a. length (part_of a.trees) ≤ 2 ^ 32 };
}

impl<T: Drop> SharedList<T> {
    /// The list without an item.
    pub fn new() -> SharedList<T>
        ensures { result ≡ [] }
    {
        SharedList { trees: None }
    }

    pub fn len(&self) -> usize
        ensures { result ≡ length self.now }
    {
        match &self.trees {
            Some(trees) => trees.len(),
            None => 0,
        }
    }

    /// The item at a place, from 0.
    pub fn get(&self, place: usize) -> Option<&T>
        ensures { option_copied result ≡ slice_get self.now place }
    {
        match &self.trees {
            Some(trees) => trees.get(place),
            None => None,
        }
    }

    /// This list with one item more after. This one stays as it is.
    pub fn with(&self, alloc: Global, item: T) -> Result<SharedList<T>, AllocError>
        requires { length self.now < 2 ^ 32 }
        ensures { IfOk result (λ list. list ≡ self.now ++ item ∷ []) }
    {
        let trees = match &self.trees {
            Some(trees) => trees.with(alloc, item)?,
            None => Trees::first(alloc, item)?,
        };
        Ok(SharedList {
            trees: Some(Arc::new(alloc, trees)?),
        })
    }
}
