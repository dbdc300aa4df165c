//! A plan with its name and its revisions.
ghost use Rattle.std.specs.Prelude.{◌≡◌, ◌<◌, ◌≤◌, ◌++◌, ◌∷◌, [], length, IfOk};
ghost use Rattle.std.specs.Option.{option_copied};
ghost use Rattle.desk_model.specs.claim.Step.{plan_row, revision_limit};
ghost use Rattle.desk_model.specs.claim.Subject.{revision_at};

use desk_model::kind::Kind;
use desk_model::name::PlanName;
use desk_model::reply::PlanRow;
use desk_model::size::PlanSize;
use desk_store_lists::{Districts, SharedList};
use std::alloc::{AllocError, Global};
use std::marker::Model;

/// A plan has this many revisions at most.
pub const REVISION_LIMIT: u32 = 65_535;

/// A plan under its name. Each of its revisions is the district of each block, rising, 0 for none.
#[derive(Drop)]
pub struct Entry {
    name: PlanName,
    size: PlanSize,
    revisions: SharedList<Districts>,
}

impl Model for Entry {
    ghost use Rattle.std.specs.Prelude.{ℕ, List, length, ◌≤◌};
    ghost use Rattle.desk_model.specs.claim.Desk.{Plan};
    ghost use Rattle.desk_model.specs.claim.Step.{revision_limit};

    ghost Value = { List ℕ × Plan };

    ghost view = { λ a. (a.name, record { kind = a.size.0; n = a.size.1; revisions = a.revisions }) };

    ghost invariant = { λ a. length a.revisions ≤ revision_limit };
}

impl Entry {
    /// A plan with no revision.
    pub fn new(name: PlanName, size: PlanSize) -> Entry
        ensures { result ≡ (name, record { kind = size.0; n = size.1; revisions = [] }) }
    {
        Entry {
            name,
            size,
            revisions: SharedList::new(),
        }
    }

    pub fn name(&self) -> &PlanName
        ensures { result.now ≡ self.now.0 }
    {
        &self.name
    }

    pub fn kind(&self) -> Kind
        ensures { result ≡ self.now.1.kind }
    {
        self.size.kind()
    }

    /// The number of districts.
    pub fn n(&self) -> u16
        ensures value { result ≡ self.now.1.n }
        ensures some { 1 ≤ self.now.1.n }
        ensures few { self.now.1.n ≤ 999 }
    {
        self.size.n()
    }

    /// How many revisions there are.
    pub fn count(&self) -> u32
        ensures { result ≡ length self.now.1.revisions }
    {
        self.revisions.len() as u32
    }

    /// Revision `k`, from 1: the district of each block, rising.
    pub fn revision(&self, k: u32) -> Option<&Districts>
        ensures { option_copied result ≡ revision_at self.now.1 k }
    {
        if k == 0 {
            return None;
        }
        self.revisions.get(k as usize - 1)
    }

    /// The plan's line in the list of plans.
    pub fn row(&self) -> PlanRow
        ensures { result ≡ plan_row self.now }
    {
        PlanRow {
            name: self.name,
            kind: self.size.kind(),
            n: self.size.n(),
            revisions: self.count(),
        }
    }

    /// A plan of that name, of this one's kind and number of districts, whose only revision has these districts. It shares them.
    pub fn forked(
        &self,
        alloc: Global,
        name: PlanName,
        districts: &Districts,
    ) -> Result<Entry, AllocError>
        ensures { IfOk result (λ e. e ≡ (name, record self.now.1 { revisions = districts.now ∷ [] })) }
    {
        let districts = districts.share(alloc)?;
        let plan = Entry::new(name, self.size);
        plan.with_revision(alloc, districts)
    }

    /// The plan with one more revision. It shares those before it, and of the last one the districts that stay.
    pub fn revised(&self, alloc: Global, districts: &[u16]) -> Result<Entry, AllocError>
        requires { length self.now.1.revisions < revision_limit }
        ensures { IfOk result (λ e. e ≡ (self.now.0, record self.now.1 { revisions = self.now.1.revisions ++ districts.now ∷ [] })) }
    {
        let districts = Districts::new(alloc, districts, self.revision(self.count()))?;
        self.with_revision(alloc, districts)
    }

    /// The plan with one more revision, of these districts. It shares those before it.
    pub fn with_revision(&self, alloc: Global, districts: Districts) -> Result<Entry, AllocError>
        requires { length self.now.1.revisions < revision_limit }
        ensures { IfOk result (λ e. e ≡ (self.now.0, record self.now.1 { revisions = self.now.1.revisions ++ districts ∷ [] })) }
    {
        Ok(Entry {
            name: self.name,
            size: self.size,
            revisions: self.revisions.with(alloc, districts)?,
        })
    }
}
