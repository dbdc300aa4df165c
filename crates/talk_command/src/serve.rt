//! A stream served at a clerk, whose acknowledged commands outlive each stop.
ghost use Rattle.std.specs.Prelude.{◌≡◌, Err};
ghost use Rattle.byte_stream.specs.claim.Counts.{counted};
ghost use Rattle.http_desk.specs.streams.claim.Serving.{read_failures, write_failures};
ghost use Rattle.desk_theorem.specs.claim.OneLife.{StreamHolds};
ghost use Rattle.desk_theorem.specs.lives.DeskInside.{LivedThrough};
ghost use Rattle.talk_command.specs.claim.Served.{ServesDurably};
ghost use Rattle.talk_command.specs.claim.Talking.{ends_of};

use crate::stream_law::streams_survive;
use byte_stream::source::Source;
use desk_theorem::Clerk;
use http_desk::hearing::CommandObserver;
use http_desk::{GatherSink, ServeFault, Served, serve};
use sector_device::SectorDevice;
use std::alloc::Global;

/// Serves a stream at a clerk, as `serve` does. However it ends, and at whatever moment a stop comes: since a command of it was
/// acknowledged, each image that the stop may leave opens to the desk after that command and all before it. This is one life of the clerk's
/// store.
pub fn serve_clerk<R: Source, W: GatherSink, D: SectorDevice, G: CommandObserver>(
    alloc: Global,
    reader: &mut R,
    writer: &mut W,
    clerk: &mut Clerk<D>,
    gate: &G,
) -> Result<Served, ServeFault>
    ensures serves { ServesDurably clerk.old result clerk.new (R.remaining reader.old)
        (R.remaining reader.new) (W.contents writer.old) (W.contents writer.new) }
    ensures read_failures { R.failures reader.new ≡ read_failures (R.failures reader.old) result }
    ensures write_failures { W.failures writer.new ≡ write_failures (W.failures writer.old) result }
    ensures life { LivedThrough (StreamHolds
        (ends_of (R.remaining reader.old) (R.turns reader.old) (R.failures reader.old) (W.contents writer.old) (W.failures writer.old))
        (ends_of (R.remaining reader.new) (R.turns reader.new) (R.failures reader.new) (W.contents writer.new) (W.failures writer.new)) result)
        clerk.old clerk.new }
    ensures turn_limit { result ≡ Err ServeFault.TurnLimit → R.turns reader.new ≡ counted (R.turns reader.old) 4294967296 }
{
    streams_survive(clerk);
    serve(alloc, reader, writer, clerk, gate)
}
