//! `verify`: whether a store is one that a desk leaves.
ghost use Rattle.command_output.specs.Writing.{OfWriters};
ghost use Rattle.inspect_command.specs.Verifying.{EndsVerify, Verifies, VerifiesStore};

use crate::beside::verify_beside;
use crate::refusal::{Refusal, tell_refusal};
use crate::sound_texts::{put_verified, room_for_text};
use byte_stream::progress::Progress;
use byte_stream::sink::Sink;
use command_output::status::Status;
use command_output::telling::print;
use sector_device::SectorDevice;
use std::alloc::Global;
use std::thread::Threads;
use store_command::fault::StoreFault;
use store_command::stores::Stores;
use store_verification::Readers;

/// Verifies the store of a name, and closes it: what is printed of it. Memory for that is taken before the store is opened.
fn verify_store<
    T: Threads + Sync,
    D: SectorDevice + Drop,
    R: SectorDevice + Send + Drop,
    O: Stores<D> + Readers<D, R>,
    P: Progress + Send,
>(
    threads: &T,
    alloc: Global,
    stores: &mut O,
    name: &str,
    progress: &mut P,
) -> Result<Vec<u8>, Refusal>
    ensures { Verifies D.SectorDevice O.opens O.closes stores.old name.now result stores.new }
{
    let mut text = match room_for_text(alloc) {
        Ok(text) => text,
        Err(_) => return Err(Refusal::of(StoreFault::Memory)),
    };
    let device = match stores.open(name) {
        Ok(device) => device,
        Err(fault) => return Err(Refusal::of(fault)),
    };
    let (told, left) = verify_beside(threads, alloc, stores, device, progress);
    stores.close(left);
    match told {
        Ok(found) => match put_verified(&mut text, &found) {
            Ok(()) => Ok(text),
            Err(_) => Err(Refusal::of(StoreFault::Memory)),
        },
        Err(refusal) => Err(refusal),
    }
}

/// Prints what was found, or the refusal.
fn end_verify<W: Sink, E: Sink>(
    alloc: Global,
    given: Result<Vec<u8>, Refusal>,
    writer: &mut W,
    errors: &mut E,
) -> Status
    ensures { OfWriters (EndsVerify given result) W.Sink writer.old writer.new E.Sink errors.old errors.new }
{
    match given {
        Ok(text) => print(
            b"plandesk: verify: WriteFault\n",
            text.as_slice(),
            Status::Done,
            writer,
            errors,
        ),
        Err(refusal) => tell_refusal(alloc, &refusal, errors),
    }
}

/// Verifies the store with this name, and prints its numbers of pages and rows. The status is 0. If
/// the store is rejected, is damaged, or its device fails (4), or memory is refused (5), prints the
/// fault instead; 6 if the output fails. The device is closed in any case, and nothing is written
/// on it but what completes an interrupted commit. `progress` receives the number of rows, once each
/// page has one owner, and how many were read so far.
pub fn verify<
    T: Threads + Sync,
    D: SectorDevice + Drop,
    R: SectorDevice + Send + Drop,
    O: Stores<D> + Readers<D, R>,
    P: Progress + Send,
    W: Sink,
    E: Sink,
>(
    threads: &T,
    alloc: Global,
    stores: &mut O,
    name: &str,
    progress: &mut P,
    writer: &mut W,
    errors: &mut E,
) -> Status
    ensures { OfWriters (VerifiesStore D.SectorDevice O.opens O.closes stores.old stores.new name.now result)
        W.Sink writer.old writer.new E.Sink errors.old errors.new }
{
    let given = verify_store(threads, alloc, stores, name, progress);
    end_verify(alloc, given, writer, errors)
}
