//! `check`: the counts of a state's census files.
ghost use Rattle.std.specs.Prelude.{◌≡◌};
ghost use Rattle.command_output.specs.Writing.{OfWriters};
ghost use Rattle.check_command.specs.Checking.{CountsStateBy, Ends, Counts};

use crate::counts::print_counts;
use crate::printing::print;
use byte_stream::sink::Sink;
use byte_stream::source::Source;
use command_output::status::Status;
use command_output::telling::tell;
use state_files::JoinFault;
use state_files::at_once::read_state_by;
use state_files::census::CensusFiles;
use state_files::fault::FileFault;
use std::alloc::Global;
use std::thread::Threads;

/// What is printed of a state's files.
fn counts_of<T: Threads + Sync, R: Source + Send + Drop>(
    rt: &T,
    alloc: Global,
    workers: u32,
    files: &mut CensusFiles<R>,
) -> Result<Vec<u8>, FileFault>
    ensures { CountsStateBy R.Source workers files.old files.new result }
{
    let rows = read_state_by(rt, alloc, workers, files)?;
    match print_counts(alloc, rows.as_slice()) {
        Ok(text) => Ok(text),
        Err(_) => Err(FileFault::Join(JoinFault::Memory)),
    }
}

/// Prints the result of reading the files, or their fault.
fn end<W: Sink, E: Sink>(
    alloc: Global,
    outcome: Result<Vec<u8>, FileFault>,
    writer: &mut W,
    errors: &mut E,
) -> Status
    ensures { OfWriters (Ends outcome result) W.Sink writer.old writer.new E.Sink errors.old errors.new }
{
    match outcome {
        Ok(text) => print(text.as_slice(), Status::Done, writer, errors),
        Err(fault) => tell(alloc, fault, errors),
    }
}

/// Prints the numbers of blocks, counties and people of a state, and the people of each county. The
/// status is 0. If a file is rejected (3) or memory is refused (5), prints the file and its fault
/// instead. 6 if the output fails. More than one worker read the files at once.
pub fn check<T: Threads + Sync, R: Source + Send + Drop, W: Sink, E: Sink>(
    rt: &T,
    alloc: Global,
    workers: u32,
    files: &mut CensusFiles<R>,
    writer: &mut W,
    errors: &mut E,
) -> Status
    ensures { OfWriters (Counts R.Source workers files.old files.new result) W.Sink writer.old writer.new E.Sink errors.old errors.new }
{
    let outcome = counts_of(rt, alloc, workers, files);
    end(alloc, outcome, writer, errors)
}
