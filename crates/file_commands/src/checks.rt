//! `check` over the file system and the standard streams.
ghost use Rattle.std.specs.Prelude.{◌≡◌, true};
ghost use Rattle.command_line.specs.Jobs.{IsJob};
ghost use Rattle.command_line.specs.declared.words.Job.TheVariants.{Audit};
ghost use Rattle.check_command.specs.Sharing.{IsDoneBy, is_of_report};
ghost use Rattle.command_output.specs.Writing.{OfWriters};
ghost use Rattle.file_commands.specs.Checks.{AuditsPaths, IsOfAudit};

use crate::faults::{explain_audit, explain_last, standard_error};
use crate::files::Files;
use crate::prefixes::Prefixed;
use audit_report::crew::Crew;
use byte_stream::sink::{Sink, WriteSink};
use byte_stream::source::{ReadSource, Source};
use check_command::audit_plan::audit_plan;
use check_command::check::check;
use command_line::options::AuditOptions;
use command_output::status::Status;
use desk_model::gate::NoGate;
use state_files::census::CensusFiles;
use state_files::open::{AuditFiles, AuditPaths, CensusPaths, Opener, open_audit, open_census};
use std::alloc::Global;
use std::fs::File;
use std::thread::Threads;

/// Prints the counts of the census files at these paths, read by a number of workers.
pub fn check_counts<T: Threads + Sync>(
    rt: &HostRuntime,
    threads: &T,
    with_words: bool,
    paths: CensusPaths<'_>,
    workers: u16,
) -> Status {
    let mut opener = Files::new(rt);
    let mut files: CensusFiles<ReadSource<File>> = open_census(&mut opener, paths);
    let mut writer = WriteSink::new(rt.stdout());
    let mut errors = standard_error(rt);
    let workers = workers as u32;
    let status = check(
        threads,
        rt.alloc(),
        workers,
        &mut files,
        &mut writer,
        &mut errors,
    );
    let _ = writer.into_inner();
    let named = [
        ("geo", paths.geo),
        ("seg1", paths.seg1),
        ("seg2", paths.seg2),
        ("seg3", paths.seg3),
    ];
    explain_last(rt, errors, with_words, &named, None);
    status
}

/// Prints the audit of a plan from the files at these paths, by a number of workers.
pub fn check_plan<T: Threads + Sync>(
    rt: &HostRuntime,
    threads: &T,
    with_words: bool,
    paths: AuditPaths<'_>,
    terms: AuditOptions,
    workers: u16,
) -> Status
    requires job { IsJob (Audit paths terms workers) }
    ensures audit { IsOfAudit ⟦<ReadSource<Prefixed<File>> as Source>⟧ terms result }
{
    check_by(rt, threads, &NoGate, with_words, paths, terms, workers)
}

/// Opens the files of an audit by their names, and prints the audit of the plan that they say: the status, and the files as they are left.
fn audit_paths<
    T: Threads + Sync,
    C: Crew + Sync,
    F: Source + Send + Drop,
    O: Opener<F>,
    W: Sink,
    E: Sink,
>(
    threads: &T,
    alloc: Global,
    crew: &C,
    opener: &mut O,
    paths: AuditPaths<'_>,
    terms: AuditOptions,
    workers: u16,
    writer: &mut W,
    errors: &mut E,
) -> (Status, AuditFiles<F>)
    requires job { IsJob (Audit paths terms workers) }
    ensures audits { OfWriters (AuditsPaths F.Source O.opens opener.old paths.entry terms workers result.0 result.1 opener.new)
        W.Sink writer.old writer.new E.Sink errors.old errors.new }
    ensures shared { is_of_report result.0 ≡ true → IsDoneBy C.begins crew.now workers terms.districts }
{
    let mut files: AuditFiles<F> = open_audit(opener, paths, terms.beside);
    let status = audit_plan(
        threads,
        alloc,
        workers as u32,
        crew,
        &mut files,
        terms.kind,
        terms.districts,
        writer,
        errors,
    );
    (status, files)
}

/// The same, with a crew that is notified of the workers.
fn check_by<T: Threads + Sync, C: Crew + Sync>(
    rt: &HostRuntime,
    threads: &T,
    crew: &C,
    with_words: bool,
    paths: AuditPaths<'_>,
    terms: AuditOptions,
    workers: u16,
) -> Status
    requires job { IsJob (Audit paths terms workers) }
    ensures audit { IsOfAudit ⟦<ReadSource<Prefixed<File>> as Source>⟧ terms result }
    ensures shared { is_of_report result ≡ true → IsDoneBy C.begins crew.now workers terms.districts }
{
    let mut opener = Files::new(rt);
    let mut writer = WriteSink::new(rt.stdout());
    let mut errors = standard_error(rt);
    let (status, files): (Status, AuditFiles<ReadSource<Prefixed<File>>>) = audit_paths(
        threads,
        rt.alloc(),
        crew,
        &mut opener,
        paths,
        terms,
        workers,
        &mut writer,
        &mut errors,
    );
    let _ = writer.into_inner();
    let census = paths.census;
    let named = [
        ("geo", census.geo),
        ("seg1", census.seg1),
        ("seg2", census.seg2),
        ("seg3", census.seg3),
        ("gal", paths.gal),
        ("plan", paths.plan),
        // without a companion no fault names one
        ("senate", paths.beside.senate.unwrap_or("")),
        ("congress", paths.beside.congress.unwrap_or("")),
    ];
    explain_audit(rt, errors, with_words, &named, files);
    status
}
