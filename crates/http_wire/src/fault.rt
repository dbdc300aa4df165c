//! Why no request is read.

/// Why no request was read, and no answer to it is due.
#[derive(Clone, Copy)]
pub enum RequestFault {
    /// A turn of the reader failed.
    Read,
    /// The writer failed within the interim answer.
    Write,
    /// A turn was wanted and none was left.
    TurnLimit,
}
