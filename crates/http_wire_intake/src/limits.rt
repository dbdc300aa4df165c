//! How much of a request is taken.

/// The largest number of bytes of a head, and of trailers.
pub const HEAD_LIMIT: usize = 16_384;

/// The largest number of header lines, and of trailers.
pub const FIELD_LIMIT: usize = 64;

/// Bodies are at most this long.
pub const BODY_LIMIT: usize = 33_554_432;
