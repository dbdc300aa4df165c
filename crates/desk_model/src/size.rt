//! The size of a plan.
ghost use Rattle.std.specs.Prelude.{◌≡◌, ◌≤◌};
ghost use Rattle.desk_model.specs.claim.Sizes.{most_districts, sized};

use crate::kind::Kind;
use std::marker::Model;

/// The number of a district of a plan, from 1. In a list of a block for each place, 0 is a block without a district.
pub type District = u16;

/// The kind of a plan and its number of districts: 1 to 99 for congress, 1 to 999 for the other kinds.
#[derive(Clone, Copy)]
pub struct PlanSize {
    kind: Kind,
    n: u16,
}

impl Model for PlanSize {
    ghost use Rattle.std.specs.Prelude.{ℕ, ◌≤◌};
    ghost use Rattle.desk_model.specs.declared.kind.Kind.{Kind};
    ghost use Rattle.desk_model.specs.claim.Sizes.{most_districts};

    ghost Value = { Kind × ℕ };

    ghost view = { λ a. (a.kind, a.n) };

    ghost invariant = { λ a. (1 ≤ a.n) × (a.n ≤ most_districts a.kind) };

    ghost inverse = { λ s. record { kind = s.0; n = s.1 } };
}

impl PlanSize {
    /// Returns the size of a plan of this kind with `n` districts, if the kind allows that number.
    pub fn read(kind: Kind, n: u64) -> Option<PlanSize>
        ensures { result ≡ sized kind n }
    {
        if n < 1 || n > kind.most_districts() as u64 {
            return None;
        }
        Some(PlanSize { kind, n: n as u16 })
    }

    pub fn new(kind: Kind, n: u16) -> PlanSize
        requires some { 1 ≤ n }
        requires few { n ≤ most_districts kind }
        ensures { result ≡ (kind, n) }
    {
        PlanSize { kind, n }
    }

    pub fn kind(self) -> Kind
        ensures { result ≡ self.0 }
    {
        self.kind
    }

    /// The number of districts.
    pub fn n(self) -> u16
        ensures value { result ≡ self.1 }
        ensures some { 1 ≤ self.1 }
        ensures few { self.1 ≤ most_districts self.0 }
        ensures most { self.1 ≤ 999 }
    {
        self.n
    }
}
