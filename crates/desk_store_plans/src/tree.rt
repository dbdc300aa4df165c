//! A tree of plans, in the order of their names.
ghost use Rattle.std.specs.Prelude.{◌≡◌, ◌≤◌, ◌<◌, ◌++◌, ◌∷◌, [], true, false, suc, max, length, drop, map, IfOk, OnOk, OnErr};
ghost use Rattle.std.specs.Option.{option_copied};
ghost use Rattle.desk_model.specs.claim.Desk.{name_cmp};
ghost use Rattle.desk_model.specs.claim.Step.{plan_row};
ghost use Rattle.desk_store_plans.specs.Heights.{AreLevel, AreNear, IsAround, IsRaised, IsLowered};
ghost use Rattle.desk_store_plans.specs.Rows.{IsPut, IsRemoved, IsFound};
ghost use Rattle.desk_store_plans.specs.Tree.{height_of, rows_of, IsPlaced};

use crate::entry::Entry;
use desk_model::name::PlanName;
use desk_model::reply::PlanRow;
use std::alloc::{AllocError, Global};
use std::cmp::Ordering;
use std::marker::Model;
use std::sync::Arc;

/// A plan, the tree of the plans before it and the tree of those after it. The heights of the two
/// trees differ by at most one, so a change makes some 20 new nodes in a tree of 65,535 plans; the
/// others are shared.
#[derive(Drop)]
pub struct Tree {
    left: Option<Arc<Tree>>,
    entry: Arc<Entry>,
    height: u8,
    right: Option<Arc<Tree>>,
}

impl Model for Tree {
    ghost use Rattle.std.specs.Prelude.{ℕ, List, ◌∷◌, ◌++◌, length};
    ghost use Rattle.desk_store_plans.specs.Heights.{IsBalanced};
    ghost use Rattle.desk_store_plans.specs.Rows.{Row};

    ghost Value = { ℕ × List Row };

    ghost use Rattle.desk_store_plans.specs.Tree.{height_of, rows_of};

    ghost view = { λ a. (a.height, rows_of a.left ++ a.entry.value ∷ rows_of a.right) };

    ghost invariant = { λ a. IsBalanced (height_of a.left) (height_of a.right) a.height };

    ghost size = { λ v. length v.1 };

    ghost use Rattle.desk_store_plans.specs.Falls.{falls};

    ghost size_decreases = { λ a h. falls a };
}

/// The height of a tree, 0 of none.
#[inline(always)]
fn height(tree: &Option<Arc<Tree>>) -> u8
    ensures { result ≡ height_of tree.now }
{
    match tree {
        Some(tree) => {
            let tree: &Tree = tree;
            tree.height
        }
        None => 0,
    }
}

/// Returns the height of a tree whose sides have these heights. A tree of 256 levels has more plans
/// than any memory holds: memory for it is refused.
#[inline(always)]
fn above(left: u8, right: u8) -> Result<u8, AllocError>
    ensures { IfOk result (λ high. high ≡ suc (max left right)) }
{
    let higher = if left < right { right } else { left };
    if higher == u8::MAX {
        return Err(AllocError);
    }
    Ok(higher + 1)
}

/// The same tree.
#[inline(always)]
pub fn share(tree: &Option<Arc<Tree>>) -> Result<Option<Arc<Tree>>, AllocError>
    ensures rows { IfOk result (λ same. rows_of same ≡ rows_of tree.now) }
    ensures high { IfOk result (λ same. height_of same ≡ height_of tree.now) }
{
    match tree {
        Some(tree) => Ok(Some(tree.clone()?)),
        None => Ok(None),
    }
}

/// The same plan.
#[inline(always)]
pub fn same(entry: &Arc<Entry>) -> Result<Arc<Entry>, AllocError>
    ensures { IfOk result (λ e. e.value ≡ entry.now.value) }
{
    Ok(entry.clone()?)
}

/// Compares a name with the name of an entry.
#[inline(always)]
pub fn order(name: &PlanName, entry: &Arc<Entry>) -> Ordering
    ensures { result ≡ name_cmp name.now entry.now.value.0 }
{
    name.cmp(entry.name())
}

/// Compares the names of two entries.
#[inline(always)]
fn order_of(entry: &Arc<Entry>, other: &Arc<Entry>) -> Ordering
    ensures { result ≡ name_cmp entry.now.value.0 other.now.value.0 }
{
    order(entry.name(), other)
}

/// The tree of a plan between two trees.
#[inline(always)]
fn fork(
    alloc: Global,
    left: Option<Arc<Tree>>,
    entry: Arc<Entry>,
    right: Option<Arc<Tree>>,
) -> Result<Arc<Tree>, AllocError>
    requires { AreLevel (height_of left) (height_of right) }
    ensures rows { IfOk result (λ t. t.value.1 ≡ rows_of left ++ entry.value ∷ rows_of right) }
    ensures high { IfOk result (λ t. t.value.0 ≡ suc (max (height_of left) (height_of right))) }
{
    let height = above(height(&left), height(&right))?;
    Ok(Arc::new(
        alloc,
        Tree {
            left,
            entry,
            height,
            right,
        },
    )?)
}

/// Returns the tree of three trees with two plans between them, with the plan of the middle tree at
/// the top. The middle tree is one level higher than the others.
fn around(
    alloc: Global,
    left: Option<Arc<Tree>>,
    first: Arc<Entry>,
    inner: &Tree,
    second: Arc<Entry>,
    right: Option<Arc<Tree>>,
) -> Result<Arc<Tree>, AllocError>
    requires same { height_of left ≡ height_of right }
    requires above { inner.now.0 ≡ suc (height_of left) }
    ensures rows { IfOk result (λ t. t.value.1 ≡ rows_of left ++ first.value ∷ (inner.now.1 ++ second.value ∷ rows_of right)) }
    ensures high { IfOk result (λ t. t.value.0 ≡ suc inner.now.0) }
{
    let before = fork(alloc, left, first, share(&inner.left)?)?;
    let after = fork(alloc, share(&inner.right)?, second, right)?;
    fork(alloc, Some(before), same(&inner.entry)?, Some(after))
}

/// The tree of a plan between two trees, where the one on the left is two levels higher.
fn lean_left(
    alloc: Global,
    left: &Tree,
    entry: Arc<Entry>,
    right: Option<Arc<Tree>>,
) -> Result<Arc<Tree>, AllocError>
    requires { left.now.0 ≡ suc (suc (height_of right)) }
    ensures rows { IfOk result (λ t. t.value.1 ≡ left.now.1 ++ entry.value ∷ rows_of right) }
    ensures high { IfOk result (λ t. IsAround left.now.0 (height_of right) t.value.0) }
{
    let outer = share(&left.left)?;
    let middle = same(&left.entry)?;
    if let Some(inner) = &left.right {
        let inner: &Tree = inner;
        if inner.height > height(&left.left) {
            return around(alloc, outer, middle, inner, entry, right);
        }
    }
    let lower = fork(alloc, share(&left.right)?, entry, right)?;
    fork(alloc, outer, middle, Some(lower))
}

/// The tree of a plan between two trees, where the one on the right is two levels higher.
fn lean_right(
    alloc: Global,
    left: Option<Arc<Tree>>,
    entry: Arc<Entry>,
    right: &Tree,
) -> Result<Arc<Tree>, AllocError>
    requires { right.now.0 ≡ suc (suc (height_of left)) }
    ensures rows { IfOk result (λ t. t.value.1 ≡ rows_of left ++ entry.value ∷ right.now.1) }
    ensures high { IfOk result (λ t. IsAround right.now.0 (height_of left) t.value.0) }
{
    let outer = share(&right.right)?;
    let middle = same(&right.entry)?;
    if let Some(inner) = &right.left {
        let inner: &Tree = inner;
        if inner.height > height(&right.right) {
            return around(alloc, left, entry, inner, middle, outer);
        }
    }
    let lower = fork(alloc, left, entry, share(&right.left)?)?;
    fork(alloc, Some(lower), middle, outer)
}

/// The tree of a plan between two trees whose heights differ by two at most.
fn balanced(
    alloc: Global,
    left: Option<Arc<Tree>>,
    entry: Arc<Entry>,
    right: Option<Arc<Tree>>,
) -> Result<Arc<Tree>, AllocError>
    requires { AreNear (height_of left) (height_of right) }
    ensures rows { IfOk result (λ t. t.value.1 ≡ rows_of left ++ entry.value ∷ rows_of right) }
    ensures high { IfOk result (λ t. IsAround (height_of left) (height_of right) t.value.0) }
{
    if let Some(higher) = &left {
        let higher: &Tree = higher;
        if higher.height as usize > height(&right) as usize + 1 {
            return lean_left(alloc, higher, entry, right);
        }
    }
    if let Some(higher) = &right {
        let higher: &Tree = higher;
        if higher.height as usize > height(&left) as usize + 1 {
            return lean_right(alloc, left, entry, higher);
        }
    }
    fork(alloc, left, entry, right)
}

/// The plans of two trees, one after the other.
fn joined(
    alloc: Global,
    left: &Option<Arc<Tree>>,
    right: &Option<Arc<Tree>>,
) -> Result<Option<Arc<Tree>>, AllocError>
    requires { AreLevel (height_of left.now) (height_of right.now) }
    ensures rows { IfOk result (λ all. rows_of all ≡ rows_of left.now ++ rows_of right.now) }
    ensures high { IfOk result (λ all. IsLowered (suc (max (height_of left.now) (height_of right.now))) (height_of all)) }
{
    match right {
        Some(after) => {
            let rest = after.without_least(alloc)?;
            Ok(Some(balanced(alloc, share(left)?, after.least()?, rest)?))
        }
        None => share(left),
    }
}

/// Puts a plan into a tree by new nodes, if the tree keeps its height, and returns whether it did.
/// A tree whose sides are of one height is left to the tree above it: since its side grew, it would
/// grow too.
fn put_over(alloc: Global, tree: &mut Arc<Tree>, entry: &Arc<Entry>) -> Result<bool, AllocError>
    ensures put { IfOk result (IsPlaced entry.now.value tree.old.value.1 tree.new.value.1) }
    ensures high { tree.new.value.0 ≡ tree.old.value.0 }
    ensures kept { OnErr result (tree.new.value ≡ tree.old.value) }
{
    let old: &Tree = tree;
    if height(&old.left) == height(&old.right) {
        return Ok(false);
    }
    let high = old.height;
    let new = old.put(alloc, same(entry)?)?;
    let made: &Tree = &new;
    if made.height != high {
        return Ok(false);
    }
    *tree = new;
    Ok(true)
}

/// Puts a plan into a tree, in place of the one with the same name, if the tree keeps its height,
/// and returns whether it did. Nodes that nobody shares stay down to the lowest one whose side grows
/// and that keeps its height; from there on, new nodes are made.
pub fn place(alloc: Global, tree: &mut Arc<Tree>, entry: &Arc<Entry>) -> Result<bool, AllocError>
    ensures put { IfOk result (IsPlaced entry.now.value tree.old.value.1 tree.new.value.1) }
    ensures high { tree.new.value.0 ≡ tree.old.value.0 }
    ensures kept { OnErr result (tree.new.value ≡ tree.old.value) }
{
    let Some(own) = Arc::get_mut(tree) else {
        return put_over(alloc, tree, entry);
    };
    match order_of(entry, &own.entry) {
        Ordering::Less => {
            if let Some(left) = &mut own.left {
                if place(alloc, left, entry)? {
                    return Ok(true);
                }
            }
            put_over(alloc, tree, entry)
        }
        Ordering::Greater => {
            if let Some(right) = &mut own.right {
                if place(alloc, right, entry)? {
                    return Ok(true);
                }
            }
            put_over(alloc, tree, entry)
        }
        Ordering::Equal => {
            own.entry = same(entry)?;
            Ok(true)
        }
    }
}

impl Tree {
    /// The tree of one plan.
    pub fn of(alloc: Global, entry: Arc<Entry>) -> Result<Arc<Tree>, AllocError>
        ensures rows { IfOk result (λ t. t.value.1 ≡ entry.value ∷ []) }
        ensures high { IfOk result (λ t. t.value.0 ≡ 1) }
    {
        fork(alloc, None, entry, None)
    }

    /// The plan of a name.
    pub fn find(&self, name: &PlanName) -> Option<&Entry>
        ensures { IsFound name.now self.now.1 (option_copied result) }
    {
        match order(name, &self.entry) {
            Ordering::Less => match &self.left {
                Some(left) => left.find(name),
                None => None,
            },
            Ordering::Greater => match &self.right {
                Some(right) => right.find(name),
                None => None,
            },
            Ordering::Equal => Some(&self.entry),
        }
    }

    /// The tree with a plan more, or with it in the place of the one of its name.
    pub fn put(&self, alloc: Global, entry: Arc<Entry>) -> Result<Arc<Tree>, AllocError>
        ensures put { IfOk result (λ t. IsPut entry.value self.now.1 t.value.1) }
        ensures high { IfOk result (λ t. IsRaised self.now.0 t.value.0) }
    {
        match order_of(&entry, &self.entry) {
            Ordering::Less => {
                let left = match &self.left {
                    Some(left) => left.put(alloc, entry)?,
                    None => Tree::of(alloc, entry)?,
                };
                balanced(alloc, Some(left), same(&self.entry)?, share(&self.right)?)
            }
            Ordering::Greater => {
                let right = match &self.right {
                    Some(right) => right.put(alloc, entry)?,
                    None => Tree::of(alloc, entry)?,
                };
                balanced(alloc, share(&self.left)?, same(&self.entry)?, Some(right))
            }
            Ordering::Equal => fork(alloc, share(&self.left)?, entry, share(&self.right)?),
        }
    }

    /// The first plan.
    fn least(&self) -> Result<Arc<Entry>, AllocError>
        ensures { IfOk result (λ e. self.now.1 ≡ e.value ∷ drop 1 self.now.1) }
    {
        match &self.left {
            Some(left) => left.least(),
            None => Ok(same(&self.entry)?),
        }
    }

    /// The plans but for the first.
    fn without_least(&self, alloc: Global) -> Result<Option<Arc<Tree>>, AllocError>
        ensures rest { IfOk result (λ rest. rows_of rest ≡ drop 1 self.now.1) }
        ensures high { IfOk result (λ rest. IsLowered self.now.0 (height_of rest)) }
        ensures some { 0 < length self.now.1 }
    {
        match &self.left {
            Some(left) => {
                let rest = left.without_least(alloc)?;
                Ok(Some(balanced(alloc, rest, same(&self.entry)?, share(&self.right)?)?))
            }
            None => share(&self.right),
        }
    }

    /// The plans without the one of a name.
    pub fn remove(&self, alloc: Global, name: &PlanName) -> Result<Option<Arc<Tree>>, AllocError>
        ensures removed { IfOk result (λ rest. IsRemoved name.now self.now.1 (rows_of rest)) }
        ensures high { IfOk result (λ rest. IsLowered self.now.0 (height_of rest)) }
    {
        match order(name, &self.entry) {
            Ordering::Less => {
                let left = match &self.left {
                    Some(left) => left.remove(alloc, name)?,
                    None => None,
                };
                Ok(Some(balanced(alloc, left, same(&self.entry)?, share(&self.right)?)?))
            }
            Ordering::Greater => {
                let right = match &self.right {
                    Some(right) => right.remove(alloc, name)?,
                    None => None,
                };
                Ok(Some(balanced(alloc, share(&self.left)?, same(&self.entry)?, right)?))
            }
            Ordering::Equal => joined(alloc, &self.left, &self.right),
        }
    }

    /// Puts the lines of the plans after.
    pub fn add_rows(&self, rows: &mut Vec<PlanRow>) -> Result<(), AllocError>
        ensures { OnOk result (rows.new.items ≡ rows.old.items ++ map plan_row self.now.1) }
    {
        if let Some(left) = &self.left {
            left.add_rows(rows)?;
        }
        rows.push(self.entry.row())?;
        if let Some(right) = &self.right {
            right.add_rows(rows)?;
        }
        Ok(())
    }
}
