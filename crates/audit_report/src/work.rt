//! The pieces of an audit's work, by their numbers.
ghost use Rattle.std.specs.Prelude.{◌≡◌, ◌<◌, IfOk};
ghost use Rattle.desk_model.specs.Companions.{companions_copied};
ghost use Rattle.audit_report.specs.Audits.{IsAuditable};
ghost use Rattle.audit_report.specs.Share.{AreAllPieces};
ghost use Rattle.audit_report.specs.Work.{IsFound, breaks_in, shown_of};

use crate::pieces::{People, Unnested, find_nesting, find_people};
use audit_contiguity::breaks::Break;
use audit_contiguity::parts::{DistrictTrees, part_count};
use audit_splits_nesting::splits::{DividedGroups, divided_groups};
use desk_model::companions::Companions;
use desk_model::geography::Geography;
use desk_model::kind::Kind;
use std::alloc::{AllocError, Global};
use std::marker::Model;

/// What a piece of the work found.
#[derive(Drop)]
pub enum Found {
    People(People),
    Splits(DividedGroups),
    Nesting(Unnested),
    Breaks(Vec<Break>),
}

impl Found {
    /// The breaks that the piece found; none, where it isn't of districts' contiguity.
    pub fn breaks(&self) -> &[Break]
        ensures { result.now ≡ breaks_in self.now }
    {
        match self {
            Found::Breaks(breaks) => breaks.as_slice(),
            Found::People(_) | Found::Splits(_) | Found::Nesting(_) => &[],
        }
    }
}

/// A plan with what it is judged by.
#[derive(Drop)]
pub struct Work<'a> {
    geography: &'a Geography,
    kind: Kind,
    count: u16,
    plan: &'a [u16],
    beside: Companions<&'a [u16]>,
}

impl<'a> Model for Work<'a> {
    ghost use Rattle.audit_report.specs.Audits.{IsAuditable};
    ghost use Rattle.audit_report.specs.Work.{Audit};
    ghost use Rattle.desk_model.specs.Companions.{companions_copied};

    ghost Value = { Audit };

    ghost view = { λ a. record {
      geography = a.geography.now;
      kind = a.kind;
      count = a.count;
      plan = a.plan.now;
      beside = companions_copied a.beside;
    } };

    ghost invariant = { λ a. IsAuditable a.geography.now a.kind a.count a.plan.now (companions_copied a.beside) };
}

impl<'a> Work<'a> {
    /// The work on a plan of `count` districts over a geography.
    pub fn new(
        geography: &'a Geography,
        kind: Kind,
        count: u16,
        plan: &'a [u16],
        beside: Companions<&'a [u16]>,
    ) -> Work<'a>
        requires { IsAuditable geography.now kind count plan.now (companions_copied beside) }
        ensures { result ≡ record {
          geography = geography.now;
          kind = kind;
          count = count;
          plan = plan.now;
          beside = companions_copied beside.entry;
        } }
    {
        Work {
            geography,
            kind,
            count,
            plan,
            beside,
        }
    }

    /// The pieces are numbered below this: 0 is the populations and their clauses, 1 the divided counties and cities, 2 the
    /// nesting in each companion, and from 3 on the contiguity of the parts of the districts.
    pub fn pieces(&self) -> u32
        ensures { AreAllPieces self.now.count result }
    {
        3 + part_count(self.count) as u32
    }

    /// What one of the first three pieces finds.
    pub fn find(&self, alloc: Global, piece: u32) -> Result<Found, AllocError>
        requires { piece < 3 }
        ensures { IfOk result (IsFound self.now piece) }
    {
        match piece {
            0 => {
                let people = find_people(alloc, self.geography, self.kind, self.count, self.plan)?;
                Ok(Found::People(people))
            }
            1 => Ok(Found::Splits(divided_groups(alloc, self.geography, self.plan)?)),
            _ => {
                let nesting = find_nesting(alloc, self.count, self.plan, self.beside)?;
                Ok(Found::Nesting(nesting))
            }
        }
    }

    /// The trees of the parts of districts that are own by their numbers.
    pub fn trees(&self, alloc: Global, own: Vec<bool>) -> Result<DistrictTrees<'a>, AllocError>
        ensures { IfOk result (λ t. t ≡ shown_of self.now own.items) }
    {
        DistrictTrees::new(alloc, self.geography, self.count, self.plan, own)
    }
}
