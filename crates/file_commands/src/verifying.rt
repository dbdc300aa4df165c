//! `verify` over the file system and the standard streams.
ghost use Rattle.std.specs.Prelude.{◌≡◌, false};
ghost use Rattle.command_output.specs.Writing.{OfWriters};
ghost use Rattle.sector_file.specs.Device.{file_disk, first_image};
ghost use Rattle.file_commands.specs.Premises.{IsJustOpened};
ghost use Rattle.file_commands.specs.claim.Running.{RunsVerify};
ghost use Rattle.inspect_command.specs.claim.Living.{VerifiesLife};

use crate::faults::{explain_last, standard_error};
use crate::stores::StoreFiles;
use byte_stream::progress::{Progress, Telling};
use byte_stream::sink::{Sink, WriteSink};
use command_output::status::Status;
use inspect_command::verify::verify;
use sector_device::SectorDevice;
use sector_file::{Contents, FileDevice, FileReader};
use std::alloc::Global;
use std::io::IsTerminal;
use std::thread::Threads;

/// Verifies the store in a file by its name, whatever the file holds and wherever it is printed: one
/// life of that store, in which it is read. Threads read it at once.
pub fn verify_in_file<T: Threads + Sync, S: Contents + Send, P: Progress + Send, W: Sink, E: Sink>(
    threads: &T,
    alloc: Global,
    stores: &mut StoreFiles<'_, S>,
    name: &str,
    progress: &mut P,
    writer: &mut W,
    errors: &mut E,
) -> Status
    requires fresh { stores.old.is_opened ≡ false }
    ensures { OfWriters (VerifiesLife ⟦<FileDevice<S> as SectorDevice>⟧ (λ device. IsJustOpened (first_image S.Contents.sector) (file_disk device))
        (stores.new.is_opened ≡ false) result)
        W.Sink writer.old writer.new E.Sink errors.old errors.new }
{
    let told = verify::<T, FileDevice<S>, FileReader<S>, _, _, _, _>(
        threads, alloc, stores, name, progress, writer, errors,
    );
    told
}

/// Prints whether a store is undamaged.
pub fn verify_desk<T: Threads + Sync, S: Contents + Send>(
    rt: &HostRuntime,
    threads: &T,
    with_words: bool,
    name: &str,
    start: S,
) -> Status
    ensures { RunsVerify ⟦<FileDevice<S> as SectorDevice>⟧ (λ device. IsJustOpened (first_image S.Contents.sector) (file_disk device)) result }
{
    let mut stores = StoreFiles::new(rt, start);
    let mut writer = WriteSink::new(rt.stdout());
    let mut errors = standard_error(rt);
    let terminal = rt.stderr();
    let is_terminal = terminal.is_terminal();
    let mut progress = Telling::new(terminal, is_terminal, b"plandesk: verify: ", 262_144);
    let status = verify_in_file(
        threads,
        rt.alloc(),
        &mut stores,
        name,
        &mut progress,
        &mut writer,
        &mut errors,
    );
    let _ = progress.into_inner();
    let _ = writer.into_inner();
    explain_last(rt, errors, with_words, &[("store", name)], stores.reason());
    status
}
