//! Where one worker takes its streams, and hands each back.
ghost use Rattle.std.specs.Prelude.{◌≡◌};
ghost use Rattle.http_desk_connections.specs.claim.Running.{no_streams, one_more, requests_of};

use crate::arrivals::Arrivals;
use crate::ran::Totals;
use http_desk_streams::serve::{ServeFault, Served};

/// The streams of one worker: each comes by `accept` and goes back by `finish`, which counts it. Its worker has no other way to them.
#[derive(Drop)]
pub struct Acceptor<'a, A: Arrivals> {
    arrivals: &'a A,
    worker: usize,
    totals: Totals,
}

impl<'a, A: Arrivals> Acceptor<'a, A> {
    /// For the worker of this number. No stream was taken yet.
    pub fn new(arrivals: &'a A, worker: usize) -> Acceptor<'a, A>
        ensures from { result.arrivals.now ≡ arrivals.now }
        ensures number { result.worker ≡ worker }
        ensures none { result.totals.ran ≡ no_streams }
    {
        Acceptor {
            arrivals,
            worker,
            totals: Totals::new(),
        }
    }

    /// The next stream, or None where no further one comes. It may wait.
    pub fn accept(&self) -> Option<(A::Reader, A::Writer)>
        ensures { A.gives self.now.arrivals.now self.now.worker result }
    {
        self.arrivals.next(self.worker)
    }

    /// Hands a stream back with its result, and counts it.
    pub fn finish(
        &mut self,
        reader: A::Reader,
        writer: A::Writer,
        served: Result<Served, ServeFault>,
    )
        ensures from { self.new.arrivals.now ≡ self.old.arrivals.now }
        ensures number { self.new.worker ≡ self.old.worker }
        ensures back { A.takes_back self.old.arrivals.now reader writer served }
        ensures counted { self.new.totals.ran ≡ one_more self.old.totals.ran (requests_of served) }
    {
        self.totals = self.totals.with_stream(&served);
        self.arrivals.ended(reader, writer, served);
    }

    /// Returns the totals of its streams.
    pub fn into_totals(self) -> Totals
        ensures { result.ran ≡ self.entry.totals.ran }
    {
        self.totals
    }
}
