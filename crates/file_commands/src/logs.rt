//! The files of logs, by their paths.
ghost use Rattle.std.specs.Prelude.{◌≡◌, ℕ, List, Some, IfOk, IfErr, codes};
ghost use Rattle.std.specs.Str.{bytes_eq};
ghost use Rattle.std.specs.declared.fs.options.OpenOptions.{OpenOptions as Options};
ghost use Rattle.file_commands.specs.Logs.{AddsLines, IsLogOf};

use byte_stream::sink::WriteSink;
use command_line::options::Logging;
use command_output::explanation::Reason;
use connection_log::log::{Log, start};
use state_files::fault::OpenFault;
use std::alloc::Global;
use std::fs::{File, Files, OpenOptions, TryLockError};
use std::io;
use std::io::{ErrorKind, IsTerminal};
use std::os::unix::fs::FileExt;
use std::sync::{Arc, Wait};
use std::thread::Threads;
use std::time::Clock;

/// What opens files in the ways that are asked for.
pub trait OpensFiles {
    type File: Drop;

    // A file was asked for that is opened in this way, under this name, and this one was given.
    ghost opens: { Self → Options → List ℕ → Self.File → Type 0 };

    fn open_as(&self, how: &OpenOptions, name: &str) -> io::Result<Self::File>
        ensures { IfOk result (λ file. opens self.now how.now name.now file) };
}

impl<F: Files> OpensFiles for F {
    type File = F::File;

    // Of the system's files nothing is known.
    ghost opens = { λ _ _ _ _. Unit {0} };

    fn open_as(&self, how: &OpenOptions, name: &str) -> io::Result<F::File> {
        how.open(self, name)
    }
}

/// In which way the file of a log is opened: to add lines after what it has, and made where there is none. It is opened for reading too,
/// which nobody does, so that a named pipe without a reader doesn't hold the opening.
fn log_options() -> OpenOptions
    ensures { AddsLines result }
{
    let mut how = OpenOptions::new();
    how.read(true).append(true).create(true);
    how
}

/// Opens the file of a log, to which lines are added; it is made where there is none.
pub fn open_log<O: OpensFiles>(opener: &O, name: &str) -> Result<O::File, OpenFault>
    ensures { IfOk result (IsLogOf O.opens opener.now name.now) }
{
    let how = log_options();
    match opener.open_as(&how, name) {
        Ok(file) => Ok(file),
        Err(e) => {
            if e.kind() == ErrorKind::OutOfMemory {
                return Err(OpenFault::Memory);
            }
            Err(OpenFault::Unreadable)
        }
    }
}

/// Why there is no log: the fault that is printed, and its reason if that is known.
#[derive(Clone, Copy)]
pub struct NoLog {
    pub fault: OpenFault,
    pub reason: Option<Reason>,
}

fn no_log(fault: OpenFault, reason: Option<Reason>) -> NoLog
    ensures fault { result.fault ≡ fault }
    ensures reason { result.reason ≡ reason }
{
    NoLog { fault, reason }
}

/// Holds the file of a log together with others that add to it, and refuses a file that another program holds as its own, as a plandesk
/// holds its store. So a store can't be opened while its file is the log.
fn share(file: &File) -> Result<(), NoLog>
    ensures { IfErr result (λ e. (e.fault ≡ OpenFault.Unreadable) × (e.reason ≡ Some Reason.InUse)) }
{
    match file.try_lock_shared() {
        Err(TryLockError::WouldBlock) => Err(no_log(OpenFault::Unreadable, Some(Reason::InUse))),
        Ok(()) | Err(TryLockError::Error(_)) => Ok(()),
    }
}

/// Whether a file's first bytes are those with which every store begins.
fn begins_store(first: &[u8]) -> bool
    ensures { result ≡ bytes_eq first.now (codes "PLANDESK") }
{
    first == b"PLANDESK".as_slice()
}

/// Refuses the file of a log that begins as a store does, so that no line is added to it.
fn refuse_store(file: &File) -> Result<(), NoLog> {
    let mut first = [0u8; 8];
    if file.read_exact_at(&mut first, 0).is_ok() && begins_store(&first) {
        return Err(no_log(OpenFault::Unreadable, Some(Reason::IsStore)));
    }
    Ok(())
}

/// The open file of a log, to which lines may be added.
fn log_file(rt: &HostRuntime, name: &str) -> Result<File, NoLog> {
    let file = match open_log(rt, name) {
        Ok(file) => file,
        Err(fault) => return Err(no_log(fault, None)),
    };
    share(&file)?;
    refuse_store(&file)?;
    Ok(file)
}

/// The log of a served store: in the file that is named, or else on standard error where that is a terminal, or else none. With `tell`
/// it has a line of the store's room after each that many seconds.
pub fn log_of<T: Threads + Wait + Clock + Copy + Send + 'static>(
    rt: &HostRuntime,
    threads: &T,
    logging: Logging<'_>,
) -> Result<Option<Arc<Log, Global>>, NoLog> {
    let Logging { file, tell } = logging;
    let started = match file {
        Some(name) => start(
            threads,
            rt.alloc(),
            WriteSink::new(log_file(rt, name)?),
            tell,
        ),
        None => {
            let terminal = rt.stderr();
            if !terminal.is_terminal() {
                return Ok(None);
            }
            start(threads, rt.alloc(), WriteSink::new(terminal), tell)
        }
    };
    match started {
        Ok(log) => Ok(Some(log)),
        Err(_) => Err(no_log(OpenFault::Memory, None)),
    }
}
