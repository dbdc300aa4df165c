//! The lines of faults on standard error, and what they mean.
ghost use Rattle.std.specs.Prelude.{◌≡◌, true, Some};

use crate::prefixes::{Prefixed, faulty_reader, prefix_line};
use crate::quoting::quoted_line;
use byte_stream::sink::WriteSink;
use byte_stream::source::ReadSource;
use command_output::explaining::tell_words;
use command_output::explanation::Reason;
use command_output::finding::path_in;
use command_output::noting::LastLineWriter;
use state_files::open::AuditFiles;
use std::fs::File;
use std::io::{IsTerminal, Stderr, Write};

/// Standard error, where a command prints its fault.
pub fn standard_error(rt: &HostRuntime) -> WriteSink<LastLineWriter<Stderr>> {
    WriteSink::new(LastLineWriter::new(rt.stderr()))
}

/// Whether a fault's explanation follows it although nothing asks for it: its code alone doesn't say that the store is in use.
fn needs_words(reason: Option<Reason>) -> bool
    ensures in_use { reason ≡ Some Reason.InUse → result ≡ true }
    ensures only { result ≡ true → reason ≡ Some Reason.InUse }
{
    match reason {
        Some(Reason::InUse) => true,
        Some(Reason::NotPermitted) => false,
        Some(Reason::NoRoom) => false,
        Some(Reason::Stands) => false,
        Some(Reason::IsStore) => false,
        None => false,
    }
}

/// Prints the explanation of the last fault, if there was one and `--words`, a terminal or its reason asks for
/// it. The files are those that the command was given, each with its role before its path. The
/// reason is that of a store's device.
pub fn explain_last(
    rt: &HostRuntime,
    told: WriteSink<LastLineWriter<Stderr>>,
    with_words: bool,
    files: &[(&'static str, &str)],
    reason: Option<Reason>,
) {
    explain_line(rt, &told.into_inner(), with_words, files, reason);
}

/// The same of a fault of an audit's files. If it is about a plan's first line, this shows what the file begins with, and if it is about
/// another line, that line.
pub fn explain_audit(
    rt: &HostRuntime,
    told: WriteSink<LastLineWriter<Stderr>>,
    with_words: bool,
    named: &[(&'static str, &str)],
    files: AuditFiles<ReadSource<Prefixed<File>>>,
) {
    let told = told.into_inner();
    explain_line(rt, &told, with_words, named, None);
    let mut terminal = rt.stderr();
    if !with_words && !terminal.is_terminal() {
        return;
    }
    if let Some(reader) = faulty_reader(told.line(), files) {
        // without memory for it the line does not say what the file begins with
        if let Ok(text) = prefix_line(rt.alloc(), reader.prefix()) {
            let _ = terminal.write_all(text.as_slice());
        }
        return;
    }
    let Some(path) = path_in(told.line(), named) else {
        return;
    };
    if let Some(text) = quoted_line(rt, told.line(), path) {
        let _ = terminal.write_all(text.as_slice());
    }
}

/// The same of what was written by itself.
pub fn explain_line(
    rt: &HostRuntime,
    told: &LastLineWriter<Stderr>,
    with_words: bool,
    files: &[(&'static str, &str)],
    reason: Option<Reason>,
) {
    let terminal = rt.stderr();
    let is_terminal = terminal.is_terminal();
    let mut errors = WriteSink::new(terminal);
    // without memory for it the line has no explanation
    let _ = tell_words(
        rt.alloc(),
        with_words || needs_words(reason),
        is_terminal,
        told.line(),
        reason,
        files,
        &mut errors,
    );
    let _ = errors.into_inner();
}
