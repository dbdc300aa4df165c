//! Why no copy was made.

/// Why no copy of a store was made.
#[derive(Clone, Copy, Debug, Drop, PartialEq, Eq)]
pub enum CopyFault {
    /// The store could not be read.
    Unread,
    /// The copy could not be written, synced or put in place.
    Unwritten,
    /// The disk of the copy, or what its user may have of it, is full.
    NoRoom,
    /// The copy's folder does not exist.
    NotFound,
    /// The copy's file or folder may not be written.
    NotPermitted,
    /// The file that the copy is to replace exists and is not a store.
    NotAStore,
    /// Another program, or this one, holds the file that the copy is to replace.
    InUse,
    /// The store is halted.
    Halted,
}
