//! The audit.
ghost use Rattle.std.specs.Prelude.{◌≡◌, ◌++◌, IfOk, OnOk};
ghost use Rattle.desk_model.specs.Companions.{companions_at};
ghost use Rattle.audit_report.specs.Assembled.{noted, found_clauses};
ghost use Rattle.audit_report.specs.Audits.{IsAuditable};
ghost use Rattle.audit_report.specs.Pieces.{ReportsPieces};
ghost use Rattle.audit_report.specs.claim.Report.{not_asked_of, IsReport};

use crate::clause::Clause;
use crate::pieces::{People, Pieces, Unnested, find_nesting, find_people};
use crate::report::Report;
use audit_contiguity::breaks::breaks;
use audit_splits_nesting::splits::{DividedGroups, divided_groups};
use desk_model::companions::Companions;
use desk_model::geography::Geography;
use desk_model::kind::Kind;
use std::alloc::{AllocError, Global};

/// Names a clause, if it is broken.
fn note(clauses: &mut Vec<Clause>, broken: bool, clause: Clause) -> Result<(), AllocError>
    ensures { OnOk result (clauses.new.items ≡ clauses.old.items ++ noted broken clause) }
{
    if broken {
        clauses.push(clause)?;
    }
    Ok(())
}

/// The clauses that the pieces found broken.
fn broken_clauses(alloc: Global, pieces: &Pieces) -> Result<Vec<Clause>, AllocError>
    ensures { IfOk result (λ v. v.items ≡ found_clauses pieces.now) }
{
    let people = &pieces.people;
    let mut broken = Vec::with_capacity(alloc, 6)?;
    note(&mut broken, people.unassigned > 0, Clause::Complete)?;
    note(&mut broken, people.mean_breaks, Clause::Mean)?;
    note(&mut broken, people.range.is_some(), Clause::Range)?;
    note(&mut broken, people.congress.len() > 0, Clause::Congress)?;
    note(&mut broken, pieces.contiguity.len() > 0, Clause::Contiguous)?;
    note(
        &mut broken,
        pieces.unnested.nesting.len() > 0,
        Clause::Nested,
    )?;
    Ok(broken)
}

/// The clauses that a senate plan is wanting for.
fn clauses_not_asked(
    alloc: Global,
    kind: Kind,
    with_senate: bool,
) -> Result<Vec<Clause>, AllocError>
    ensures { IfOk result (λ v. v.items ≡ not_asked_of kind with_senate) }
{
    let mut not_asked = Vec::new(alloc);
    if kind == Kind::House && !with_senate {
        not_asked.push(Clause::Nested)?;
    }
    Ok(not_asked)
}

/// The report of any plan of which these are the pieces.
pub fn assemble(
    alloc: Global,
    kind: Kind,
    count: u16,
    with_senate: bool,
    pieces: Pieces,
) -> Result<Report, AllocError>
    ensures { IfOk result (ReportsPieces kind count with_senate pieces) }
{
    let broken = broken_clauses(alloc, &pieces)?;
    let not_asked = clauses_not_asked(alloc, kind, with_senate)?;
    let Pieces {
        people,
        splits,
        unnested,
        contiguity,
    } = pieces;
    let People {
        unassigned,
        total,
        populations,
        mean_breaks: _,
        range,
        congress,
    } = people;
    let DividedGroups {
        counties,
        cities,
        cities_in_county,
    } = splits;
    let Unnested {
        nesting,
        divided_by_congress,
    } = unnested;
    Ok(Report {
        broken,
        cities,
        cities_in_county,
        congress,
        contiguity,
        counties,
        districts: count,
        divided_by_congress,
        kind,
        nesting,
        not_asked,
        population: total,
        populations,
        range,
        unassigned,
    })
}

/// Returns the report of a plan of `count` districts. `plan` has the district of each block, 0 for
/// none; so have `senate`, the plan in which a house plan is nested, and `congress`, the
/// congressional plan that divides districts of a house or senate plan. Iowa Code 42.4.
pub fn audit(
    alloc: Global,
    geography: &Geography,
    kind: Kind,
    count: u16,
    plan: &[u16],
    senate: Option<&[u16]>,
    congress: Option<&[u16]>,
) -> Result<Report, AllocError>
    requires { IsAuditable geography.now kind count plan.now (companions_at senate congress) }
    ensures { IfOk result (IsReport geography.now kind count plan.now (companions_at senate.entry congress.entry)) }
{
    let beside = Companions { senate, congress };
    let pieces = Pieces {
        people: find_people(alloc, geography, kind, count, plan)?,
        splits: divided_groups(alloc, geography, plan)?,
        unnested: find_nesting(alloc, count, plan, beside)?,
        contiguity: breaks(alloc, plan, geography, count)?,
    };
    assemble(alloc, kind, count, senate.is_some(), pieces)
}
