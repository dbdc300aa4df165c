//! Where the parts of a store stand.

/// How many journal pages and pages a store has.
#[derive(Clone, Copy, Drop)]
pub struct Layout {
    pub journal_pages: u32,
    pub pages: u32,
}

/// The sector of the first copy, after the header, the gate and the list.
macro_rules! copies_begin {
    ($journal_pages:expr) => {
        2 + ($journal_pages + 1024) / 1024
    };
}

/// The sector of the first page, after the copies.
macro_rules! homes_begin {
    ($journal_pages:expr) => {
        2 + ($journal_pages + 1024) / 1024 + $journal_pages
    };
}

pub(crate) use copies_begin;
pub(crate) use homes_begin;
