//! The pieces of an audit's work, which don't depend on each other.
ghost use Rattle.std.specs.Prelude.{◌≡◌, ◌<◌, ◌≤◌, ◌^◌, length, IfOk, IfSome, option_map};
ghost use Rattle.std.specs.Option.{option_copied};
ghost use Rattle.desk_model.specs.Companions.{AreLong, companions_copied};
ghost use Rattle.audit_population.specs.Counts.{IsCount};
ghost use Rattle.audit_report.specs.claim.Report.{unassigned_of, congress_of, IsRange, IsNesting, IsDividedBy};
ghost use Rattle.audit_report.specs.Audits.{IsPlanOf};
ghost use Rattle.audit_report.specs.Pieces.{IsMean, ArePeople, AreUnnested};

use audit_contiguity::breaks::Break;
use audit_population::deviations::{Extremes, congress_breaks, mean_breaks, range_breaks};
use audit_population::people::{StatePeople, populations};
use audit_splits_nesting::nesting::nesting_breaks;
use audit_splits_nesting::splits::DividedGroups;
use desk_model::companions::Companions;
use desk_model::geography::Geography;
use desk_model::kind::Kind;
use std::alloc::{AllocError, Global};

/// The people of the districts and of the state, and what breaks the clauses on them.
#[derive(Drop)]
pub struct People {
    pub unassigned: u32,
    pub total: u32,
    pub populations: Vec<u32>,
    pub mean_breaks: bool,
    pub range: Option<Extremes>,
    pub congress: Vec<u16>,
}

/// The districts that don't lie in one district of a companion.
#[derive(Drop)]
pub struct Unnested {
    pub nesting: Vec<u16>,
    pub divided_by_congress: Option<Vec<u16>>,
}

/// All pieces.
#[derive(Drop)]
pub struct Pieces {
    pub people: People,
    pub splits: DividedGroups,
    pub unnested: Unnested,
    pub contiguity: Vec<Break>,
}

/// The unassigned blocks.
fn count_unassigned(plan: &[u16]) -> u32
    requires { length plan.now < 2 ^ 32 }
    ensures { result ≡ unassigned_of plan.now }
{
    let mut count = 0;
    for district in plan {
        if *district == 0 {
            count += 1;
        }
    }
    count
}

/// Whether the clause of the mean applies and is broken.
fn mean(kind: Kind, populations: &[u32], total: u32) -> bool
    requires { length populations.now ≤ 999 }
    ensures { IsMean kind populations.now total result }
{
    match kind {
        Kind::Congress => false,
        Kind::Senate | Kind::House => mean_breaks(populations, total),
    }
}

/// The districts that break the clause of the range, where it applies.
fn range(kind: Kind, populations: &[u32]) -> Option<Extremes>
    requires { IsCount (length populations.now) }
    ensures { IsRange kind populations.now result }
{
    match kind {
        Kind::Congress => None,
        Kind::Senate | Kind::House => range_breaks(populations),
    }
}

/// The districts that break the clause on districts for the congress, where it applies.
fn congress(
    alloc: Global,
    kind: Kind,
    populations: &[u32],
    total: u32,
) -> Result<Vec<u16>, AllocError>
    requires { length populations.now ≤ 999 }
    ensures { IfOk result (λ v. v.items ≡ congress_of kind populations.now total) }
{
    match kind {
        Kind::Congress => congress_breaks(alloc, populations, total),
        Kind::Senate | Kind::House => Ok(Vec::new(alloc)),
    }
}

/// The piece of the populations and the clauses on them.
pub fn find_people(
    alloc: Global,
    geography: &Geography,
    kind: Kind,
    count: u16,
    plan: &[u16],
) -> Result<People, AllocError>
    requires { IsPlanOf geography.now count plan.now }
    ensures { IfOk result (ArePeople geography.now kind count plan.now) }
{
    let blocks = geography.blocks().len();
    let StatePeople {
        districts: populations,
        state: total,
    } = populations(alloc, geography, count, plan)?;
    let congress = congress(alloc, kind, populations.as_slice(), total)?;
    Ok(People {
        unassigned: count_unassigned(&plan[..blocks]),
        total,
        mean_breaks: mean(kind, populations.as_slice(), total),
        range: range(kind, populations.as_slice()),
        populations,
        congress,
    })
}

/// The house districts that aren't nested in the senate plan, none where there is no such plan.
fn nesting(
    alloc: Global,
    count: u16,
    plan: &[u16],
    senate: Option<&[u16]>,
) -> Result<Vec<u16>, AllocError>
    requires { IfSome (option_copied senate) (λ s. length s ≡ length plan.now) }
    ensures { IfOk result (λ v. IsNesting count plan.now (option_copied senate.entry) v.items) }
{
    match senate {
        Some(senate) => nesting_breaks(alloc, count, plan, senate),
        None => Ok(Vec::new(alloc)),
    }
}

/// The districts that the plan for the congress divides, where there is one.
fn divided_by_congress(
    alloc: Global,
    count: u16,
    plan: &[u16],
    congress: Option<&[u16]>,
) -> Result<Option<Vec<u16>>, AllocError>
    requires { IfSome (option_copied congress) (λ c. length c ≡ length plan.now) }
    ensures { IfOk result (λ divided. IsDividedBy count plan.now (option_copied congress.entry) (option_map (λ v. v.items) divided)) }
{
    match congress {
        Some(congress) => Ok(Some(nesting_breaks(alloc, count, plan, congress)?)),
        None => Ok(None),
    }
}

/// The piece of the nesting.
pub fn find_nesting(
    alloc: Global,
    count: u16,
    plan: &[u16],
    beside: Companions<&[u16]>,
) -> Result<Unnested, AllocError>
    requires { AreLong (length plan.now) (companions_copied beside) }
    ensures { IfOk result (AreUnnested count plan.now (companions_copied beside.entry)) }
{
    Ok(Unnested {
        nesting: nesting(alloc, count, plan, beside.senate)?,
        divided_by_congress: divided_by_congress(alloc, count, plan, beside.congress)?,
    })
}
