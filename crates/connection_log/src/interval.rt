//! When a line that is written every so often is due.
ghost use Rattle.std.specs.Prelude.{◌≡◌, ◌-◌, ◌*◌};

use std::time::{Clock, Duration, Instant};

/// How many milliseconds are left of an interval of so many seconds, of which `passed` milliseconds are over.
pub fn left_of(seconds: u32, passed: u128) -> u64
    ensures { result ≡ 1000 * seconds - passed }
{
    let all = 1_000 * seconds as u64;
    if passed >= all as u128 {
        return 0;
    }
    all - passed as u64
}

/// An interval in seconds and when it began, if there is one and the clock can be read.
#[derive(Clone, Copy, Drop)]
pub struct Interval {
    seconds: u32,
    since: Option<Instant>,
}

/// The moment that the clock shows.
fn instant_now<C: Clock>(clock: &C) -> Option<Instant> {
    match Instant::now(clock) {
        Ok(now) => Some(now),
        Err(_) => None,
    }
}

impl Interval {
    /// One that begins now; none without a number of seconds.
    pub fn begin<C: Clock>(clock: &C, seconds: Option<u32>) -> Interval {
        match seconds {
            Some(seconds) => Interval {
                seconds,
                since: instant_now(clock),
            },
            None => Interval {
                seconds: 0,
                since: None,
            },
        }
    }

    /// How long it still lasts; `None` if it never ends.
    pub fn left<C: Clock>(&self, clock: &C) -> Option<Duration> {
        let since = self.since?;
        match since.elapsed(clock) {
            Ok(passed) => Some(Duration::from_millis(left_of(self.seconds, passed.as_millis()))),
            Err(_) => None,
        }
    }

    /// Whether it is over. Then the next one begins.
    pub fn comes_due<C: Clock>(&mut self, clock: &C) -> bool {
        let Some(left) = self.left(clock) else {
            return false;
        };
        if !left.is_zero() {
            return false;
        }
        self.since = instant_now(clock);
        true
    }
}
