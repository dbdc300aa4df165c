//! Explanations of faults: printed after the fault's line on request or at a terminal, and for a code.
ghost use Rattle.std.specs.Prelude.{◌≡◌, ◌||◌, map};
ghost use Rattle.std.specs.Option.{option_copied};
ghost use Rattle.command_output.specs.Writing.{written_of, OfWriters};
ghost use Rattle.command_output.specs.Lines.{line_words, line_path, named};
ghost use Rattle.command_output.specs.Entries.{entries_asked};
ghost use Rattle.command_output.specs.Explaining.{TellsKnown, TellsWords, Explains};

use crate::explanation::{Reason, sentence};
use crate::finding::{explained, path_in, words_for};
use crate::status::Status;
use crate::telling::{print, send_line};
use byte_stream::sink::Sink;
use std::alloc::{AllocError, Global};

/// Prints the explanation of a fault's line and its file, as far as it can be written. Returns an
/// error if memory for it is refused.
fn tell_known<E: Sink>(
    alloc: Global,
    line: &[u8],
    reason: Option<Reason>,
    files: &[(&'static str, &str)],
    errors: &mut E,
) -> Result<(), AllocError>
    ensures { TellsKnown result (line_path line.now (map named files.now)) (line_words line.now reason)
        (written_of E.contents E.failures errors.old) (written_of E.contents E.failures errors.new) }
{
    let Some(words) = explained(line, reason) else {
        return Ok(());
    };
    match sentence(alloc, path_in(line, files), words) {
        Ok(text) => {
            send_line(errors, text.as_slice());
            Ok(())
        }
        Err(_) => Err(AllocError),
    }
}

/// Prints the explanation of a fault's line, as far as it can be written, if asked for or at a
/// terminal; otherwise nothing. Returns an error if memory for it is refused. The reason is a
/// device fault's, if it is known; the files are those that the command was given, each with its
/// role before its path.
pub fn tell_words<E: Sink>(
    alloc: Global,
    is_asked: bool,
    is_terminal: bool,
    line: &[u8],
    reason: Option<Reason>,
    files: &[(&'static str, &str)],
    errors: &mut E,
) -> Result<(), AllocError>
    ensures { TellsWords (is_asked || is_terminal) result (line_path line.now (map named files.now)) (line_words line.now reason)
        (written_of E.contents E.failures errors.old) (written_of E.contents E.failures errors.new) }
{
    if !is_asked && !is_terminal {
        return Ok(());
    }
    tell_known(alloc, line, reason, files, errors)
}

/// Prints what is known of a code, or where none is asked for, of all codes: 0, 5 where memory is refused, 6 where the writing fails.
pub fn explain<W: Sink, E: Sink>(
    alloc: Global,
    code: Option<&str>,
    writer: &mut W,
    errors: &mut E,
) -> Status
    ensures { OfWriters (Explains (entries_asked (option_copied code.entry)) result) W.Sink writer.old writer.new E.Sink errors.old errors.new }
{
    match words_for(alloc, code) {
        Ok(text) => print(
            b"plandesk: explain: WriteFault\n",
            text.as_slice(),
            Status::Done,
            writer,
            errors,
        ),
        Err(_) => {
            send_line(errors, b"plandesk: explain: Memory\n");
            Status::Memory
        }
    }
}
