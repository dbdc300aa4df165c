//! Prints what was done with a store, and its faults.
ghost use Rattle.std.specs.Prelude.{◌≡◌};
ghost use Rattle.command_output.specs.Writing.{OfWriters, written_of};
ghost use Rattle.store_command.specs.Telling.{status_of, store_line as line_of_fault, TellsStore, EndsStore};

use crate::fault::StoreFault;
use byte_stream::sink::Sink;
use command_output::status::Status;
use command_output::telling::{print, send_line};

/// Returns the line of a fault.
pub fn store_line(fault: StoreFault) -> &'static [u8]
    ensures { result.now ≡ line_of_fault fault }
{
    match fault {
        StoreFault::NotFound => b"plandesk: store: NotFound\n",
        StoreFault::WrongSize => b"plandesk: store: WrongSize\n",
        StoreFault::Exists => b"plandesk: store: Exists\n",
        StoreFault::TooSmall => b"plandesk: store: TooSmall\n",
        StoreFault::NotAStore => b"plandesk: store: NotAStore\n",
        StoreFault::OldVersion => b"plandesk: store: OldVersion\n",
        StoreFault::AlreadyNew => b"plandesk: store: AlreadyNew\n",
        StoreFault::AlreadySealed => b"plandesk: store: AlreadySealed\n",
        StoreFault::Full => b"plandesk: store: Full\n",
        StoreFault::DeviceFault => b"plandesk: store: DeviceFault\n",
        StoreFault::Memory => b"plandesk: store: Memory\n",
    }
}

/// The status that goes with it: 5 for memory, else 4.
pub fn store_status(fault: StoreFault) -> Status
    ensures { result ≡ status_of fault }
{
    match fault {
        StoreFault::Memory => Status::Memory,
        _ => Status::Store,
    }
}

/// Prints a fault, as far as it can be written.
fn tell_store<E: Sink>(fault: StoreFault, errors: &mut E) -> Status
    ensures { TellsStore fault result (written_of E.contents E.failures errors.old) (written_of E.contents E.failures errors.new) }
{
    send_line(errors, store_line(fault));
    store_status(fault)
}

/// Prints the text, or the fault. If standard output fails, prints `line`.
pub fn end_store<W: Sink, E: Sink>(
    line: &[u8],
    given: Result<Vec<u8>, StoreFault>,
    writer: &mut W,
    errors: &mut E,
) -> Status
    ensures { OfWriters (EndsStore line.now given result) W.Sink writer.old writer.new E.Sink errors.old errors.new }
{
    match given {
        Ok(text) => print(line, text.as_slice(), Status::Done, writer, errors),
        Err(fault) => tell_store(fault, errors),
    }
}
