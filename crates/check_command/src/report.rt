//! The report of an audit, as it is printed.
ghost use Rattle.std.specs.Prelude.{IfOk};
ghost use Rattle.desk_model.specs.Companions.{companions_copied};
ghost use Rattle.audit_report.specs.claim.Report.{IsReport};
ghost use Rattle.check_command.specs.claim.Auditing.{IsAudited, Reports};
ghost use Rattle.check_command.specs.Auditing.{IsReady};
ghost use Rattle.check_command.specs.Sharing.{IsDoneBy};

use audit_report::audit::audit;
use audit_report::crew::Crew;
use audit_report::report::Report;
use audit_report::workers::audit_with;
use desk_model::companions::Companions;
use desk_model::geography::Geography;
use desk_model::kind::Kind;
use state_files::fault::{FileFault, PlanFault, PlanFile};
use std::alloc::{AllocError, Global};
use std::thread::Threads;

/// A report's text and its LF, and whether it names a clause that is broken.
#[derive(Drop)]
pub struct Audited {
    pub broken: bool,
    pub text: String,
}

/// Returns the report by `workers` workers; one worker needs no thread.
fn audit_by<T: Threads + Sync, C: Crew + Sync>(
    rt: &T,
    alloc: Global,
    workers: u32,
    crew: &C,
    geography: &Geography,
    kind: Kind,
    n: u16,
    plan: &[u16],
    beside: Companions<&[u16]>,
) -> Result<Report, AllocError>
    requires ready { IsReady workers n geography.now kind plan.now (companions_copied beside) }
    ensures report { IfOk result (IsReport geography.now kind n plan.now (companions_copied beside.entry)) }
    ensures shared { IfOk result (λ _. IsDoneBy C.begins crew.now workers n) }
{
    if workers == 1 {
        return audit(
            alloc,
            geography,
            kind,
            n,
            plan,
            beside.senate,
            beside.congress,
        );
    }
    audit_with(
        rt,
        alloc,
        workers,
        crew,
        geography,
        kind,
        n,
        plan,
        beside.senate,
        beside.congress,
    )
}

fn print_report<T: Threads + Sync, C: Crew + Sync>(
    rt: &T,
    alloc: Global,
    workers: u32,
    crew: &C,
    geography: &Geography,
    kind: Kind,
    n: u16,
    plan: &[u16],
    beside: Companions<&[u16]>,
) -> Result<Audited, AllocError>
    requires ready { IsReady workers n geography.now kind plan.now (companions_copied beside) }
    ensures audited { IfOk result (IsAudited geography.now kind n plan.now (companions_copied beside.entry)) }
    ensures shared { IfOk result (λ _. IsDoneBy C.begins crew.now workers n) }
{
    let report = audit_by(rt, alloc, workers, crew, geography, kind, n, plan, beside)?;
    let broken = report.broken.len() > 0;
    let mut text = report.to_json(alloc)?;
    text.push_str("\n")?;
    Ok(Audited { broken, text })
}

/// Returns the report of a plan of n districts by `workers` workers. `plan` and its companions are
/// as for `audit_with`.
pub fn report_of<T: Threads + Sync, C: Crew + Sync>(
    rt: &T,
    alloc: Global,
    workers: u32,
    crew: &C,
    geography: &Geography,
    kind: Kind,
    n: u16,
    plan: &[u16],
    beside: Companions<&[u16]>,
) -> Result<Audited, FileFault>
    requires ready { IsReady workers n geography.now kind plan.now (companions_copied beside) }
    ensures reports { Reports geography.now kind n plan.now (companions_copied beside.entry) result }
    ensures shared { IfOk result (λ _. IsDoneBy C.begins crew.now workers n) }
{
    match print_report(rt, alloc, workers, crew, geography, kind, n, plan, beside) {
        Ok(audited) => Ok(audited),
        Err(_) => Err(FileFault::Plan(PlanFile::Plan, PlanFault::Memory)),
    }
}
