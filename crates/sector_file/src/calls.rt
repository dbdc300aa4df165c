//! The calls of the system by which a device moves bytes, each with the note of it. That a note says what the call did no clause can
//! hold, since no code knows what a file holds: so a call and its note stand side by side here, and nowhere else.
ghost use Rattle.std.specs.Prelude.{◌≡◌, ◌≢◌, ◌∷◌, ◌<◌, ◌+◌, ◌^◌, length, true, false, MatchResult};
ghost use Rattle.sector_file.specs.Runs.{with_run};
ghost use Rattle.sector_file.specs.Told.{replay, after_read, after_fault, after_write, after_torn, after_sync, read_call};

use crate::contents::Contents;
use crate::error::{FileError, of_making};
use crate::record::Record;
use sector_device::{SECTOR_SIZE, Sector};
use std::fs::File;
use std::io;
use std::os::unix::fs::FileExt;

/// The bytes of a sector that a call moved, which goes on until all of them are: all or, at a failure, none that count.
fn moved(answer: io::Result<()>) -> usize
    ensures { MatchResult answer (λ _. result ≡ 4096) (λ _. result ≡ 0) }
{
    match answer {
        Ok(()) => SECTOR_SIZE,
        Err(_) => 0,
    }
}

/// Whether a call failed since the disk, or what its user may have of it, is full.
fn is_full_by(answer: &io::Result<()>) -> bool {
    match answer {
        Ok(()) => false,
        Err(error) => of_making(error) == FileError::NoSpace,
    }
}

/// Reads a sector: how many of its bytes came. A read that was short or interrupted is tried again.
pub(crate) fn read_sector<S: Contents>(
    file: &File,
    log: &mut Record,
    i: u32,
    sector: &mut Sector,
) -> usize
    ensures whole { result ≡ 4096 → replay S.Contents.sector log.new.calls ≡ after_read (replay S.Contents.sector log.old.calls) i sector.new }
    ensures fault { result ≢ 4096 → replay S.Contents.sector log.new.calls ≡ after_fault (replay S.Contents.sector log.old.calls) }
    ensures noted { log.new.calls ≡ read_call i result sector.new ∷ log.old.calls }
{
    let got = moved(file.read_exact_at(sector, SECTOR_SIZE as u64 * i as u64));
    log.read::<S>(i, got, sector);
    got
}

/// Notes each sector of a run as read.
fn note_run<S: Contents>(log: &mut Record, first: u32, run: &[Sector])
    requires { first + length run.now < 2 ^ 32 }
    ensures { log.new.calls ≡ with_run first run.now log.old.calls }
{
    for k in 0..run.len() {
        log.read::<S>(first + k as u32, SECTOR_SIZE, &run[k]);
    }
}

/// Reads sectors that follow one another by one call: whether it gave them all. Then each is noted as read; else nothing is, and whoever
/// wants them reads one after the other.
pub(crate) fn read_run<S: Contents>(
    file: &File,
    log: &mut Record,
    first: u32,
    run: &mut [Sector],
) -> bool
    requires { first + length run.old < 2 ^ 32 }
    ensures long { length run.new ≡ length run.old }
    ensures noted { result ≡ true → log.new.calls ≡ with_run first run.new log.old.calls }
    ensures kept { result ≡ false → log.new.calls ≡ log.old.calls }
{
    let start = SECTOR_SIZE as u64 * first as u64;
    if file.read_exact_at(run.as_flattened_mut(), start).is_err() {
        return false;
    }
    note_run::<S>(log, first, run);
    true
}

/// Writes a sector: how many of its bytes went. A write that was short or interrupted is tried again. Whether the disk was full is
/// noted.
pub(crate) fn write_sector<S: Contents>(
    file: &File,
    log: &mut Record,
    i: u32,
    sector: &Sector,
    is_full: &mut bool,
) -> usize
    ensures whole { result ≡ 4096 → replay S.Contents.sector log.new.calls ≡ after_write (replay S.Contents.sector log.old.calls) i sector.now }
    ensures torn { result ≢ 4096 → replay S.Contents.sector log.new.calls ≡ after_torn (replay S.Contents.sector log.old.calls) i }
{
    let answer = file.write_all_at(sector, SECTOR_SIZE as u64 * i as u64);
    *is_full |= is_full_by(&answer);
    let put = moved(answer);
    log.written::<S>(i, put, sector);
    put
}

/// Syncs what was written: whether the system did. Whether the disk was full is noted.
pub(crate) fn sync_sectors<S: Contents>(file: &File, log: &mut Record, is_full: &mut bool) -> bool
    ensures synced { result ≡ true → replay S.Contents.sector log.new.calls ≡ after_sync (replay S.Contents.sector log.old.calls) }
    ensures fault { result ≡ false → replay S.Contents.sector log.new.calls ≡ after_fault (replay S.Contents.sector log.old.calls) }
{
    let answer = file.sync_data();
    *is_full |= is_full_by(&answer);
    if answer.is_err() {
        log.not_synced::<S>();
        return false;
    }
    log.synced::<S>();
    true
}
