//! The log of a served store, where its file can't be opened.
ghost use Rattle.std.specs.Prelude.{◌≡◌};
ghost use Rattle.command_output.specs.claim.Faults.{status_of_open};
ghost use Rattle.command_output.specs.Writing.{written_of};
ghost use Rattle.serve_command.specs.Serving.{log_line as line_of_fault, RefusesLog};

use byte_stream::sink::Sink;
use command_output::status::Status;
use command_output::telling::send_line;
use state_files::fault::OpenFault;

fn log_line(fault: OpenFault) -> &'static [u8]
    ensures { result.now ≡ line_of_fault fault }
{
    match fault {
        OpenFault::Unreadable => b"plandesk: log: Unreadable\n",
        OpenFault::Memory => b"plandesk: log: Memory\n",
    }
}

fn log_status(fault: OpenFault) -> Status
    ensures { result ≡ status_of_open fault }
{
    match fault {
        OpenFault::Unreadable => Status::Refused,
        OpenFault::Memory => Status::Memory,
    }
}

/// Prints that a log's file cannot be opened, as far as it can be written. The status is 3, or 5 if
/// memory was refused.
pub fn refuse_log<E: Sink>(fault: OpenFault, errors: &mut E) -> Status
    ensures { RefusesLog fault result (written_of E.contents E.failures errors.old) (written_of E.contents E.failures errors.new) }
{
    send_line(errors, log_line(fault));
    log_status(fault)
}
