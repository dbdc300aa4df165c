//! What a run over many streams came to.
ghost use Rattle.std.specs.Prelude.{◌≡◌, ◌≤◌};
ghost use Rattle.http_desk_connections.specs.claim.Running.{joined, no_streams, one_more, requests_of};

use http_desk_streams::serve::{ServeFault, Served};

/// The result of a run. The numbers stop at their greatest value.
#[derive(Clone, Copy)]
pub struct Ran {
    /// The streams that were taken.
    pub streams: u64,
    /// The requests of the streams that were served to their end.
    pub requests: u64,
    /// The streams that ended with a fault.
    pub faults: u64,
}

/// The result of a run so far.
#[derive(Drop)]
pub struct Totals {
    pub ran: Ran,
    ghost within: { ran.faults ≤ ran.streams },
}

impl Totals {
    /// No stream yet.
    pub fn new() -> Totals
        ensures { result.ran ≡ no_streams }
    {
        Totals {
            ran: Ran {
                streams: 0,
                requests: 0,
                faults: 0,
            },
        }
    }

    /// The same with one stream more.
    pub fn with_stream(&self, served: &Result<Served, ServeFault>) -> Totals
        ensures { result.ran ≡ one_more self.now.ran (requests_of served.now) }
    {
        let Ran {
            streams,
            requests,
            faults,
        } = self.ran;
        match served {
            Ok(served) => Totals {
                ran: Ran {
                    streams: streams.saturating_add(1),
                    requests: requests.saturating_add(served.requests),
                    faults,
                },
            },
            Err(_) => Totals {
                ran: Ran {
                    streams: streams.saturating_add(1),
                    requests,
                    faults: faults.saturating_add(1),
                },
            },
        }
    }

    /// Returns the sum with another worker's streams.
    pub fn with_worker(&self, other: &Totals) -> Totals
        ensures { result.ran ≡ joined self.now.ran other.now.ran }
    {
        Totals {
            ran: Ran {
                streams: self.ran.streams.saturating_add(other.ran.streams),
                requests: self.ran.requests.saturating_add(other.ran.requests),
                faults: self.ran.faults.saturating_add(other.ran.faults),
            },
        }
    }
}
