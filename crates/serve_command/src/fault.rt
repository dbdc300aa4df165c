//! Why a store isn't served, or no longer.
ghost use Rattle.std.specs.Prelude.{◌≡◌};
ghost use Rattle.serve_command.specs.Serving.{fault_line as line_of_fault, status_of as status_of_fault};

use command_output::status::Status;
use inspect_command::fault::StoreFault;
use inspect_command::telling::{store_line, store_status};

/// Why a store isn't served, or no longer.
#[derive(Clone, Copy)]
pub enum ServingFault {
    /// The store was refused, its device failed, or memory was refused.
    Store(StoreFault),
    /// No socket listens, or no further connection is given.
    Socket,
    /// Standard output failed.
    Output,
}

/// Returns the line of a fault.
pub fn fault_line(fault: ServingFault) -> &'static [u8]
    ensures { result.now ≡ line_of_fault fault }
{
    match fault {
        ServingFault::Store(fault) => store_line(fault),
        ServingFault::Socket => b"plandesk: serve: SocketFault\n",
        ServingFault::Output => b"plandesk: serve: WriteFault\n",
    }
}

/// The status that goes with it.
pub fn fault_status(fault: ServingFault) -> Status
    ensures { result ≡ status_of_fault fault }
{
    match fault {
        ServingFault::Store(fault) => store_status(fault),
        ServingFault::Socket | ServingFault::Output => Status::Stream,
    }
}
