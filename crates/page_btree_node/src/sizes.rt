//! How large pages, keys and values are.

/// How many bytes a page has.
pub const PAGE_SIZE: usize = 4096;

/// How many bytes of it are for entries, after its level and their number.
pub const BODY_SIZE: usize = PAGE_SIZE - 4;

/// The bytes of a page.
pub type PageBytes = [u8; PAGE_SIZE];

/// The largest number of bytes of a key.
pub const KEY_LIMIT: usize = 72;

/// The largest number of bytes of a value.
pub const VALUE_LIMIT: usize = 1024;
