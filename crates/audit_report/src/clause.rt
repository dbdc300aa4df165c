//! The clauses that an audit judges.
ghost use Rattle.std.specs.Prelude.{◌≡◌, Some};
ghost use Rattle.audit_report.specs.claim.Clauses.{clause_name};

use std::fmt;

/// A clause, in the order in which a report names those that are broken.
#[derive(Clone, Copy)]
pub enum Clause {
    /// Every block is assigned.
    Complete,
    /// The districts' mean deviation from the ideal is one percent of it at most: Iowa Code 42.4(1)a.
    Mean,
    /// No district has more than five percent more people than another: Iowa Code 42.4(1)a.
    Range,
    /// Each district deviates from the ideal by one percent of it at most: Iowa Code 42.4(1)b.
    Congress,
    /// Each district holds together: Iowa Code 42.4(3).
    Contiguous,
    /// Each house district lies in one senate district: Iowa Code 42.4(6).
    Nested,
}

impl Clause {
    /// The clause's name in a report.
    pub fn name(self) -> &'static str
        ensures { result.now ≡ clause_name self }
    {
        match self {
            Clause::Complete => "desk.complete",
            Clause::Mean => "42.4.1.a.mean",
            Clause::Range => "42.4.1.a.range",
            Clause::Congress => "42.4.1.b",
            Clause::Contiguous => "42.4.3",
            Clause::Nested => "42.4.6",
        }
    }
}

impl fmt::Display for Clause {
    ghost use Rattle.std.specs.Prelude.{Some};
    ghost use Rattle.audit_report.specs.claim.Clauses.{clause_name};

    ghost output = { λ c. Some (clause_name c) };

    fn fmt<W: fmt::Write>(&self, f: &mut fmt::Formatter<W>) -> fmt::Result {
        f.write_str(self.name())
    }
}
