//! Prints texts, and the lines of faults.
ghost use Rattle.std.specs.Prelude.{◌≡◌, IfOk, string_bytes};
ghost use Rattle.state_files.specs.claim.Texts.{segment_file, plan_file};
ghost use Rattle.command_output.specs.claim.Telling.{memory_at, fault_line, memory_line, Tells};
ghost use Rattle.command_output.specs.Writing.{written_of, OfWriters};
ghost use Rattle.command_output.specs.claim.Writing.{Told, Prints};

use crate::fault_status::fault_status;
use crate::status::Status;
use byte_stream::sink::Sink;
use state_files::SegmentNumber;
use state_files::fault::{FileFault, PlanFile};
use std::alloc::{AllocError, Global};

/// The line of a fault, as `plandesk: geo: G1 line 2`.
fn line_of(alloc: Global, fault: &FileFault) -> Result<String, AllocError>
    ensures { IfOk result (λ text. string_bytes text ≡ fault_line fault.now) }
{
    format!(in alloc; "plandesk: {fault}\n")
}

fn segment_memory(part: SegmentNumber) -> &'static [u8]
    ensures { result.now ≡ memory_at (segment_file part) }
{
    match part {
        SegmentNumber::One => b"plandesk: seg1: Memory\n",
        SegmentNumber::Two => b"plandesk: seg2: Memory\n",
        SegmentNumber::Three => b"plandesk: seg3: Memory\n",
    }
}

fn plan_memory(file: PlanFile) -> &'static [u8]
    ensures { result.now ≡ memory_at (plan_file file) }
{
    match file {
        PlanFile::Plan => b"plandesk: plan: Memory\n",
        PlanFile::Senate => b"plandesk: senate: Memory\n",
        PlanFile::Congress => b"plandesk: congress: Memory\n",
    }
}

/// The line of want of memory at a fault's file.
fn memory_line_of(fault: &FileFault) -> &'static [u8]
    ensures { result.now ≡ memory_line fault.now }
{
    match *fault {
        FileFault::NoHeader(_) | FileFault::Header(_) => b"plandesk: geo: Memory\n",
        FileFault::NoSegment(part, _) => segment_memory(part),
        FileFault::Segment(part, _) => segment_memory(part),
        FileFault::Join(_) => b"plandesk: join: Memory\n",
        FileFault::NoGal(_) | FileFault::Gal(_) => b"plandesk: gal: Memory\n",
        FileFault::Plan(file, _) => plan_memory(file),
    }
}

/// Writes a line, as far as that can be done.
pub fn send_line<E: Sink>(errors: &mut E, line: &[u8])
    ensures { Told (written_of E.contents E.failures errors.old) (written_of E.contents E.failures errors.new) line.now }
{
    let _ = errors.send(line);
}

/// Prints a text. The status is `good`, or 6 if the output fails, and then `line` is printed as the
/// error.
pub fn print<W: Sink, E: Sink>(
    line: &[u8],
    text: &[u8],
    good: Status,
    writer: &mut W,
    errors: &mut E,
) -> Status
    ensures { OfWriters (Prints line.now text.now good result) W.Sink writer.old writer.new E.Sink errors.old errors.new }
{
    match writer.send(text) {
        Ok(()) => good,
        Err(_) => {
            send_line(errors, line);
            Status::Stream
        }
    }
}

fn tell_memory<E: Sink>(fault: &FileFault, errors: &mut E)
    ensures { Told (written_of E.contents E.failures errors.old) (written_of E.contents E.failures errors.new) (memory_line fault.now) }
{
    send_line(errors, memory_line_of(fault));
}

/// Prints a fault's line, as far as it can be written. If memory for it is refused, prints that
/// instead.
pub fn tell<E: Sink>(alloc: Global, fault: FileFault, errors: &mut E) -> Status
    ensures { Tells fault result (written_of E.contents E.failures errors.old) (written_of E.contents E.failures errors.new) }
{
    match line_of(alloc, &fault) {
        Ok(line) => {
            send_line(errors, line.as_bytes());
            fault_status(&fault)
        }
        Err(_) => {
            tell_memory(&fault, errors);
            Status::Memory
        }
    }
}
