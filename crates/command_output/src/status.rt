//! Exit statuses.
ghost use Rattle.std.specs.Prelude.{◌≡◌};
ghost use Rattle.command_output.specs.Statuses.{code_of};

use std::alloc::AllocError;

/// How a command ended.
#[derive(Clone, Copy)]
pub enum Status {
    /// 0
    Done,
    /// 1: a report names a broken clause.
    Broken,
    /// 2: the command line is wrong.
    Usage,
    /// 3: an input file was refused.
    Refused,
    /// 4: the store, or its device.
    Store,
    /// 5: memory was refused.
    Memory,
    /// 6: a socket, or standard input or output.
    Stream,
}

impl Status {
    pub fn code(self) -> u8
        ensures { result ≡ code_of self }
    {
        match self {
            Status::Done => 0,
            Status::Broken => 1,
            Status::Usage => 2,
            Status::Refused => 3,
            Status::Store => 4,
            Status::Memory => 5,
            Status::Stream => 6,
        }
    }
}

impl From<AllocError> for Status {
    ghost use Rattle.command_output.specs.declared.status.Status.TheVariants.{Memory};

    ghost from_gives = { λ _ s. s ≡ Memory };

    fn from(_: AllocError) -> Status {
        Status::Memory
    }
}
