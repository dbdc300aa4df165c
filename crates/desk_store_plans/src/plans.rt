//! The plans of a catalogue, by their names.
ghost use Rattle.std.specs.Prelude.{◌≡◌, ◌+◌, ◌<◌, map, IfOk, OnOk, OnErr, IfSome, IfNone, IsSome, Some, None};
ghost use Rattle.std.specs.Option.{option_copied};
ghost use Rattle.std.specs.FinMap as map_of;
ghost use Rattle.desk_model.specs.claim.Step.{plan_limit, plan_row};
ghost use Rattle.desk_store_plans.specs.Held.{IsSettled};
ghost use Rattle.desk_store_plans.specs.Rows.{IsPut, IsRemoved, IsFound};
ghost use Rattle.desk_store_plans.specs.Tree.{rows_of};

use crate::entry::Entry;
use crate::tree::{Tree, order, place, same, share};
use desk_model::name::PlanName;
use desk_model::reply::{PlanRow, PlanRows};
use std::alloc::{AllocError, Global};
use std::marker::Model;
use std::sync::Arc;

/// Plans by their names. A change makes plans of its own, which share what didn't change. The plan of the last change is
/// pending: it is put into the tree by the next change, or by `settle`.
#[derive(Drop)]
pub struct Plans {
    root: Option<Arc<Tree>>,
    pending: Option<Arc<Entry>>,
    count: usize,
}

impl Model for Plans {
    ghost use Rattle.std.specs.FinMap as map_of;
    ghost use Rattle.desk_model.specs.claim.Desk.{Plan, name_cmp};
    ghost use Rattle.desk_store_plans.specs.Codes.{coded_plans};

    ghost Value = { map_of.FinMap name_cmp Plan };

    ghost coded = { coded_plans };

    ghost use Rattle.desk_store_plans.specs.Held.{laid, AreHeld};
    ghost use Rattle.desk_store_plans.specs.Tree.{rows_of};

    ghost view = { λ a. laid a.pending (rows_of a.root) };

    ghost invariant = { λ a. AreHeld a.pending (rows_of a.root) a.count };
}

/// The tree with a plan more, or with it in the place of the one of its name.
fn with(
    alloc: Global,
    root: &Option<Arc<Tree>>,
    entry: Arc<Entry>,
) -> Result<Option<Arc<Tree>>, AllocError>
    ensures { IfOk result (λ all. IsPut entry.value (rows_of root.now) (rows_of all)) }
{
    let all = match root {
        Some(tree) => tree.put(alloc, entry)?,
        None => Tree::of(alloc, entry)?,
    };
    Ok(Some(all))
}

/// The tree with the pending plan.
fn settled(
    alloc: Global,
    root: &Option<Arc<Tree>>,
    pending: &Option<Arc<Entry>>,
) -> Result<Option<Arc<Tree>>, AllocError>
    ensures { IfOk result (λ all. IsSettled pending.now (rows_of root.now) (rows_of all)) }
{
    match pending {
        Some(entry) => with(alloc, root, same(entry)?),
        None => share(root),
    }
}

/// Puts a plan into the tree.
fn place_in(
    alloc: Global,
    root: &mut Option<Arc<Tree>>,
    entry: Arc<Entry>,
) -> Result<(), AllocError>
    ensures put { OnOk result (IsPut entry.value (rows_of root.old) (rows_of root.new)) }
    ensures kept { OnErr result (rows_of root.new ≡ rows_of root.old) }
{
    let Some(tree) = root else {
        *root = Some(Tree::of(alloc, entry)?);
        return Ok(());
    };
    if !place(alloc, tree, &entry)? {
        *tree = tree.put(alloc, entry)?;
    }
    Ok(())
}

/// Puts the pending plan into the tree.
fn settle_in(
    alloc: Global,
    root: &mut Option<Arc<Tree>>,
    pending: &Option<Arc<Entry>>,
) -> Result<(), AllocError>
    ensures put { OnOk result (IsSettled pending.now (rows_of root.old) (rows_of root.new)) }
    ensures kept { OnErr result (rows_of root.new ≡ rows_of root.old) }
{
    match pending {
        Some(entry) => place_in(alloc, root, same(entry)?),
        None => Ok(()),
    }
}

/// The plan of a name in the tree.
fn found<'a>(root: &'a Option<Arc<Tree>>, name: &PlanName) -> Option<&'a Entry>
    ensures { IsFound name.now (rows_of root.now) (option_copied result) }
{
    match root {
        Some(tree) => tree.find(name),
        None => None,
    }
}

/// The tree without the plan of a name.
fn without(
    alloc: Global,
    root: &Option<Arc<Tree>>,
    name: &PlanName,
) -> Result<Option<Arc<Tree>>, AllocError>
    ensures { IfOk result (λ rest. IsRemoved name.now (rows_of root.now) (rows_of rest)) }
{
    match root {
        Some(tree) => tree.remove(alloc, name),
        None => Ok(None),
    }
}

/// Returns the lines of a tree's `count` plans.
fn lines(alloc: Global, root: &Option<Arc<Tree>>, count: usize) -> Result<Vec<PlanRow>, AllocError>
    ensures { IfOk result (λ rows. rows.items ≡ map plan_row (rows_of root.now)) }
{
    let Some(tree) = root else {
        return Ok(Vec::new(alloc));
    };
    let mut rows = Vec::with_capacity(alloc, count)?;
    tree.add_rows(&mut rows)?;
    Ok(rows)
}

impl Plans {
    pub fn new() -> Plans
        ensures { result ≡ map_of.empty }
    {
        Plans {
            root: None,
            pending: None,
            count: 0,
        }
    }

    pub fn len(&self) -> usize
        ensures { result ≡ map_of.len self.now }
    {
        self.count
    }

    /// The plan of a name.
    pub fn get(&self, name: &PlanName) -> Option<&Entry>
        ensures found { IfSome result (λ e. map_of.get self.now name.now ≡ Some e.now.1) }
        ensures named { IfSome result (λ e. e.now.0 ≡ name.now) }
        ensures missing { IfNone result (map_of.get self.now name.now ≡ None) }
    {
        let Some(entry) = &self.pending else {
            return found(&self.root, name);
        };
        if order(name, entry).is_eq() {
            return Some(entry);
        }
        found(&self.root, name)
    }

    /// These plans with one more.
    pub fn insert(&self, alloc: Global, entry: Entry) -> Result<Plans, AllocError>
        requires missing { map_of.get self.now entry.0 ≡ None }
        requires room { map_of.len self.now < plan_limit }
        ensures { IfOk result (λ p. p ≡ map_of.insert self.now entry.0 entry.1) }
    {
        let entry = Arc::new(alloc, entry)?;
        Ok(Plans {
            root: settled(alloc, &self.root, &self.pending)?,
            pending: Some(entry),
            count: self.count + 1,
        })
    }

    /// These plans with another under the name of one.
    pub fn replace(&self, alloc: Global, entry: Entry) -> Result<Plans, AllocError>
        requires { IsSome (map_of.get self.now entry.0) }
        ensures { IfOk result (λ p. p ≡ map_of.insert self.now entry.0 entry.1) }
    {
        let entry = Arc::new(alloc, entry)?;
        Ok(Plans {
            root: settled(alloc, &self.root, &self.pending)?,
            pending: Some(entry),
            count: self.count,
        })
    }

    /// Moves the pending plan into the tree: in place as long as no other plans share the nodes,
    /// and from the first shared node on by new nodes. The next change then copies nothing. If
    /// memory is refused, the plan stays pending.
    pub fn settle(&mut self, alloc: Global)
        ensures { self.new ≡ self.old }
    {
        if settle_in(alloc, &mut self.root, &self.pending).is_ok() {
            self.pending = None;
        }
    }

    /// These plans without one.
    pub fn remove(&self, alloc: Global, name: &PlanName) -> Result<Plans, AllocError>
        requires { IsSome (map_of.get self.now name.now) }
        ensures { IfOk result (λ p. p ≡ map_of.remove self.now name.now) }
    {
        let whole = settled(alloc, &self.root, &self.pending)?;
        Ok(Plans {
            root: without(alloc, &whole, name)?,
            pending: None,
            count: self.count - 1,
        })
    }

    /// The lines of the list of plans, rising by name.
    pub fn rows(&self, alloc: Global) -> Result<PlanRows, AllocError>
        ensures { IfOk result (λ rows. rows ≡ map plan_row (map_of.entries self.now)) }
    {
        let whole = settled(alloc, &self.root, &self.pending)?;
        Ok(PlanRows::from_vec(lines(alloc, &whole, self.count)?))
    }
}
