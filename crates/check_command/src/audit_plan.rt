//! `check` with a plan: the audit of a plan from files.
ghost use Rattle.std.specs.Prelude.{◌≡◌, length, true, IfOk, IfSome};
ghost use Rattle.std.specs.Option.{option_copied};
ghost use Rattle.command_output.specs.Writing.{OfWriters};
ghost use Rattle.desk_model.specs.claim.GeographyModels.{AreBlocks};
ghost use Rattle.check_command.specs.claim.Auditing.{report_status as status_of_report, EndsAudit, AuditsBy};
ghost use Rattle.check_command.specs.Auditing.{MayBeAudited, ReportsBesideFile, AuditsBlocksFiles, AuditsStateBy};
ghost use Rattle.check_command.specs.Sharing.{IsDoneBy, is_of_report};

use crate::printing::print;
use crate::report::{Audited, report_of};
use audit_report::crew::Crew;
use byte_stream::sink::Sink;
use byte_stream::source::Source;
use command_output::status::Status;
use command_output::telling::tell;
use desk_model::block::BlockRow;
use desk_model::companions::Companions;
use desk_model::geography::Geography;
use desk_model::kind::Kind;
use state_files::at_once::read_state_by;
use state_files::fault::{FileFault, PlanFile};
use state_files::neighbours::read_with_neighbours;
use state_files::open::AuditFiles;
use state_files::plan_file::{Companion, districts_of, read_companion, read_plan};
use std::alloc::Global;
use std::thread::Threads;

/// Returns the report of a plan with a senate plan, if there is one, and with the congressional
/// plan of a file, or the file's fault.
fn report_beside<T: Threads + Sync, C: Crew + Sync, R: Source>(
    rt: &T,
    alloc: Global,
    workers: u32,
    crew: &C,
    geography: &Geography,
    kind: Kind,
    districts: u16,
    plan: &[u16],
    senate: Option<&[u16]>,
    congress: &mut Option<Companion<R>>,
) -> Result<Audited, FileFault>
    requires may { MayBeAudited workers districts kind senate congress.old }
    requires long { length plan.now ≡ length geography.now.blocks }
    requires senate_long { IfSome (option_copied senate) (λ s. length s ≡ length geography.now.blocks) }
    ensures reports { ReportsBesideFile R.Source geography.now kind districts plan.now (option_copied senate.entry) congress.old congress.new result }
    ensures shared { IfOk result (λ _. IsDoneBy C.begins crew.now workers districts) }
{
    let congress = read_companion(alloc, PlanFile::Congress, geography, congress)?;
    let beside = Companions {
        senate,
        congress: districts_of(&congress),
    };
    report_of(
        rt, alloc, workers, crew, geography, kind, districts, plan, beside,
    )
}

/// The report of the plan that the files after the census files say, or their first fault.
fn audit_blocks<T: Threads + Sync, C: Crew + Sync, R: Source>(
    rt: &T,
    alloc: Global,
    workers: u32,
    crew: &C,
    blocks: Vec<BlockRow>,
    files: &mut AuditFiles<R>,
    kind: Kind,
    districts: u16,
) -> Result<Audited, FileFault>
    requires may { MayBeAudited workers districts kind files.old.senate files.old.congress }
    requires valid { AreBlocks blocks.items }
    ensures audits { AuditsBlocksFiles R.Source blocks.items files.old files.new kind districts result }
    ensures census { files.new.census ≡ files.old.census }
    ensures shared { IfOk result (λ _. IsDoneBy C.begins crew.now workers districts) }
{
    let geography = read_with_neighbours(alloc, blocks, &mut files.gal)?;
    let plan = read_plan(
        alloc,
        PlanFile::Plan,
        &geography,
        districts,
        &mut files.plan,
    )?;
    let senate = read_companion(alloc, PlanFile::Senate, &geography, &mut files.senate)?;
    let beside = districts_of(&senate);
    report_beside(
        rt,
        alloc,
        workers,
        crew,
        &geography,
        kind,
        districts,
        plan.as_slice(),
        beside,
        &mut files.congress,
    )
}

/// The report of the plan that the files say, or their first fault.
fn audit_of<T: Threads + Sync, C: Crew + Sync, R: Source + Send + Drop>(
    rt: &T,
    alloc: Global,
    workers: u32,
    crew: &C,
    files: &mut AuditFiles<R>,
    kind: Kind,
    districts: u16,
) -> Result<Audited, FileFault>
    requires may { MayBeAudited workers districts kind files.old.senate files.old.congress }
    ensures audits { AuditsStateBy R.Source workers files.old files.new kind districts result }
    ensures shared { IfOk result (λ _. IsDoneBy C.begins crew.now workers districts) }
{
    match read_state_by(rt, alloc, workers, &mut files.census) {
        Ok(blocks) => audit_blocks(rt, alloc, workers, crew, blocks, files, kind, districts),
        Err(fault) => Err(fault),
    }
}

/// The status that goes with a report.
fn report_status(broken: bool) -> Status
    ensures { result ≡ status_of_report broken }
{
    if broken { Status::Broken } else { Status::Done }
}

/// Prints the report, or the fault of the files.
fn end_audit<W: Sink, E: Sink>(
    alloc: Global,
    outcome: Result<Audited, FileFault>,
    writer: &mut W,
    errors: &mut E,
) -> Status
    ensures { OfWriters (EndsAudit outcome result) W.Sink writer.old writer.new E.Sink errors.old errors.new }
{
    match outcome {
        Ok(audited) => {
            let good = report_status(audited.broken);
            print(audited.text.as_bytes(), good, writer, errors)
        }
        Err(fault) => tell(alloc, fault, errors),
    }
}

/// Prints the report of a plan of `districts` districts; it does not depend on the number of
/// workers. The status is 1 if it names a broken clause, otherwise 0. If a file is rejected (3) or
/// memory is refused (5), prints the file and its fault instead. 6 if the output fails. More than
/// one worker read the census files at once.
pub fn audit_plan<T: Threads + Sync, C: Crew + Sync, R: Source + Send + Drop, W: Sink, E: Sink>(
    rt: &T,
    alloc: Global,
    workers: u32,
    crew: &C,
    files: &mut AuditFiles<R>,
    kind: Kind,
    districts: u16,
    writer: &mut W,
    errors: &mut E,
) -> Status
    requires may { MayBeAudited workers districts kind files.old.senate files.old.congress }
    ensures audits { OfWriters (AuditsBy R.Source workers files.old files.new kind districts result) W.Sink writer.old writer.new E.Sink errors.old errors.new }
    ensures shared { is_of_report result ≡ true → IsDoneBy C.begins crew.now workers districts }
{
    let outcome = audit_of(rt, alloc, workers, crew, files, kind, districts);
    end_audit(alloc, outcome, writer, errors)
}
