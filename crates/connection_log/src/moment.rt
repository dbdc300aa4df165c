//! The moment of a line, as UTC has it.
ghost use Rattle.std.specs.Prelude.{◌≡◌, ◌<◌, ◌*◌, pos, IfSome, IsSome};
ghost use Rattle.jiff_core.specs.DateTime.{civil_nanos};

use jiff_core::civil::DateTime;
use std::time::{Clock, SystemTime, UNIX_EPOCH};

/// Returns the date and the time of day in UTC, `seconds` after 1970-01-01T00:00:00Z; `None` after
/// the year 9999.
pub fn moment_of(seconds: u64) -> Option<DateTime>
    ensures value { IfSome result (λ at. civil_nanos at ≡ pos (seconds * 1_000_000_000)) }
    ensures some { seconds < 253402300800 → IsSome result }
{
    match DateTime::from_nanosecond(seconds as i128 * 1_000_000_000) {
        Ok(at) => Some(at),
        Err(_) => None,
    }
}

/// The moment that the clock shows, where it shows one from 1970 on.
pub fn moment_now<C: Clock>(clock: &C) -> Option<DateTime> {
    let Ok(now) = SystemTime::now(clock) else {
        return None;
    };
    let Ok(since) = now.duration_since(UNIX_EPOCH) else {
        return None;
    };
    moment_of(since.as_secs())
}
