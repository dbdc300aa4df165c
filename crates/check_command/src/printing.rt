//! What is printed.
ghost use Rattle.command_output.specs.Writing.{OfWriters};
ghost use Rattle.check_command.specs.claim.Writing.{Prints};

use byte_stream::sink::Sink;
use command_output::status::Status;
use command_output::telling::print as print_or_tell;

/// Prints a text. The status is `good`, or 6 if the output fails, which is reported.
pub fn print<W: Sink, E: Sink>(text: &[u8], good: Status, writer: &mut W, errors: &mut E) -> Status
    ensures { OfWriters (Prints text.now good result) W.Sink writer.old writer.new E.Sink errors.old errors.new }
{
    print_or_tell(b"plandesk: check: WriteFault\n", text, good, writer, errors)
}
