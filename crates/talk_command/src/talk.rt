//! `talk`: serves standard input to standard output, with a clerk alone over the sample geography.
ghost use Rattle.std.specs.Prelude.{◌≡◌, Err};
ghost use Rattle.byte_stream.specs.claim.Counts.{counted};
ghost use Rattle.http_desk.specs.streams.claim.Serving.{read_failures, write_failures};
ghost use Rattle.desk_model.specs.claim.Sample.{sample_desk};
ghost use Rattle.desk_theorem.specs.runs.desk_store.Keeping.{sealed_desk};
ghost use Rattle.sector_memory.specs.Device.{disk_of};
ghost use Rattle.talk_command.specs.claim.Talking.{Talks, ServesSample, ends_of, status_of as status_of_served};
ghost use Rattle.talk_command.specs.Faults.{fault_line as line_of_fault};
ghost use Rattle.talk_command.specs.Desks.{IsClerkOf};

use crate::serve::serve_clerk;
use byte_stream::source::Source;
use command_output::status::Status;
use desk_model::gate::NoGate;
use desk_model::geography::{Geography, sample};
use desk_theorem::{Clerk, start};
use http_desk::{GatherSink, ServeFault, Served};
use sector_device::SectorDevice;
use sector_memory::MemoryDevice;
use std::alloc::Global;
use std::io::Write;
use std::sync::Arc;

/// How many sectors the store in memory has, and how many of them a commit's journal.
const SECTORS: u32 = 2000;

const JOURNAL_PAGES: u32 = 256;

/// A clerk with a geography in a new store on a device in memory, or `None` where memory is refused.
fn clerk_in(
    alloc: Global,
    device: MemoryDevice,
    geography: Arc<Geography>,
) -> Option<Clerk<MemoryDevice>>
    ensures { IsClerkOf (sealed_desk geography.value) (disk_of device).sectors result }
{
    match start(alloc, device, JOURNAL_PAGES, geography) {
        Ok(clerk) => Some(clerk),
        Err(_) => None,
    }
}

/// A clerk with the sample geography in a store in memory, or `None` where memory is refused.
fn sample_clerk(alloc: Global) -> Option<Clerk<MemoryDevice>>
    ensures { IsClerkOf sample_desk 2000 result }
{
    let geography = sample(alloc).ok()?;
    let shared = Arc::new(alloc, geography).ok()?;
    let device = MemoryDevice::new(alloc, SECTORS).ok()?;
    clerk_in(alloc, device, shared)
}

/// Serves the sample desk.
fn serve_sample<R: Source, W: GatherSink>(
    alloc: Global,
    reader: &mut R,
    writer: &mut W,
) -> Result<Served, ServeFault>
    ensures serves { ServesSample ⟦<MemoryDevice as SectorDevice>⟧ result
        (ends_of (R.remaining reader.old) (R.turns reader.old) (R.failures reader.old) (W.contents writer.old) (W.failures writer.old))
        (ends_of (R.remaining reader.new) (R.turns reader.new) (R.failures reader.new) (W.contents writer.new) (W.failures writer.new)) }
    ensures read_failures { R.failures reader.new ≡ read_failures (R.failures reader.old) result }
    ensures write_failures { W.failures writer.new ≡ write_failures (W.failures writer.old) result }
    ensures turns { result ≡ Err ServeFault.TurnLimit → R.turns reader.new ≡ counted (R.turns reader.old) 4294967296 }
{
    match sample_clerk(alloc) {
        Some(mut clerk) => serve_clerk(alloc, reader, writer, &mut clerk, &NoGate),
        None => Err(ServeFault::Memory),
    }
}

fn status_of(served: Result<Served, ServeFault>) -> Status
    ensures { result ≡ status_of_served served }
{
    match served {
        Ok(_) => Status::Done,
        Err(ServeFault::Memory) => Status::Memory,
        Err(ServeFault::ReadFault | ServeFault::WriteFault | ServeFault::TurnLimit) =>
            Status::Stream,
    }
}

/// Returns the line for standard error of a fault.
fn fault_line(fault: ServeFault) -> &'static [u8]
    ensures { result.now ≡ line_of_fault fault }
{
    match fault {
        ServeFault::ReadFault => b"plandesk: talk: ReadFault\n",
        ServeFault::WriteFault => b"plandesk: talk: WriteFault\n",
        ServeFault::Memory => b"plandesk: talk: Memory\n",
        ServeFault::TurnLimit => b"plandesk: talk: TurnLimit\n",
    }
}

/// Serves the reader to the writer until its end or a closing answer: 0. 5 where memory for the desk or the first
/// buffers is refused, before anything is read; 6 where a read or a write fails, or the turns of reading are used up.
pub fn talk<R: Source, W: GatherSink, E: Write>(
    alloc: Global,
    reader: &mut R,
    writer: &mut W,
    errors: &mut E,
) -> Status
    ensures { Talks ⟦<MemoryDevice as SectorDevice>⟧ result
        (R.remaining reader.old) (R.remaining reader.new) (W.contents writer.old) (W.contents writer.new)
        (R.failures reader.old) (R.failures reader.new) (W.failures writer.old) (W.failures writer.new) (R.turns reader.old) (R.turns reader.new) }
{
    let served = serve_sample(alloc, reader, writer);
    if let Err(fault) = served {
        let _ = errors.write_all(fault_line(fault));
    }
    status_of(served)
}
