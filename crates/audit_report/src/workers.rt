//! The audit by workers.
ghost use Rattle.std.specs.Prelude.{◌≤◌, IfOk};
ghost use Rattle.desk_model.specs.Companions.{companions_at};
ghost use Rattle.audit_report.specs.Audits.{IsAuditable};
ghost use Rattle.audit_report.specs.claim.Report.{IsReport};
ghost use Rattle.audit_report.specs.Share.{IsSharedOut};

use crate::audit::assemble;
use crate::crew::Crew;
use crate::gather::gather;
use crate::report::Report;
use crate::share::find_shares;
use crate::work::Work;
use desk_model::companions::Companions;
use desk_model::geography::Geography;
use desk_model::kind::Kind;
use std::alloc::{AllocError, Global};
use std::thread::Threads;

/// Returns the report of a plan, equal to that of `audit`, made by several workers. The work is cut
/// into pieces: 0 is the populations and their clauses, 1 the divided counties and cities, 2 the
/// nesting in each companion, and `3 + i` the contiguity of the districts from `16 * i + 1` to `16
/// * i + 16`, or to the last. Worker w does the pieces that leave w when divided by the number of
/// workers, rising, each after the crew's gate. There are no more workers than pieces.
pub fn audit_with<R: Threads + Sync, C: Crew + Sync>(
    rt: &R,
    alloc: Global,
    workers: u32,
    crew: &C,
    geography: &Geography,
    kind: Kind,
    count: u16,
    plan: &[u16],
    senate: Option<&[u16]>,
    congress: Option<&[u16]>,
) -> Result<Report, AllocError>
    requires working { 1 ≤ workers }
    requires auditable { IsAuditable geography.now kind count plan.now (companions_at senate congress) }
    ensures report { IfOk result (IsReport geography.now kind count plan.now (companions_at senate.entry congress.entry)) }
    ensures shared { IfOk result (λ _. IsSharedOut C.begins crew.now workers count) }
{
    let beside = Companions { senate, congress };
    let work = Work::new(geography, kind, count, plan, beside);
    let pieces = work.pieces();
    let workers = workers.min(pieces);
    let shares = find_shares(rt, alloc, crew, &work, pieces, workers)?;
    let found = gather(alloc, &work, pieces, workers, shares)?;
    assemble(alloc, kind, count, senate.is_some(), found)
}
