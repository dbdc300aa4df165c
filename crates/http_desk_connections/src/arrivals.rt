//! Where streams come from.
ghost use Rattle.std.specs.Prelude.{ℕ, Option, Result};
ghost use Rattle.http_desk_streams.specs.declared.serve.Served.{Served as Answered};
ghost use Rattle.http_desk_streams.specs.declared.serve.ServeFault.{ServeFault as Fault};

use byte_stream::source::Source;
use http_desk_streams::serve::{ServeFault, Served};
use http_wire::gather::GatherSink;

/// Where streams come from, and where each goes back to. Nothing else can let go of one.
pub trait Arrivals {
    type Reader: Source + Send + Sync;

    type Writer: GatherSink + Send + Sync;

    // A worker of this number asked for the next stream, and was given this.
    ghost gives: { Self → ℕ → Option (Self.Reader × Self.Writer) → Type 0 } = { λ _ _ _. Unit {0} };

    // A stream was taken back with this result.
    ghost takes_back: { Self → Self.Reader → Self.Writer → Result Answered Fault → Type 0 } = { λ _ _ _ _. Unit {0} };

    /// The next stream, for the worker of this number, or None where no further one comes. It may wait.
    fn next(&self, worker: usize) -> Option<(Self::Reader, Self::Writer)>
        ensures { gives self.now worker result };

    /// Takes a stream back once it is served, with its result.
    fn ended(&self, reader: Self::Reader, writer: Self::Writer, served: Result<Served, ServeFault>)
        ensures { takes_back self.now reader writer served };
}
