//! What a file was told and what it answered. It takes no memory, and only clauses read it.
ghost use Rattle.std.specs.Prelude.{ℕ, List};
ghost use Rattle.std.specs.Borrow.{ftrue};

use crate::contents::Contents;
use sector_device::Sector;
use std::marker::{Model, PhantomData};

/// A sector was read: the sector, how many bytes came, and the bytes.
const READ: u64 = 0;

/// A sector was written: the sector, how many bytes went, and the bytes.
const WRITTEN: u64 = 1;

/// The file was synced.
const SYNCED: u64 = 2;

/// It was not.
const NOT_SYNCED: u64 = 3;

/// The file was opened: how many sectors it has.
const OPENED: u64 = 4;

#[derive(Drop)]
pub struct Record {
    marker: PhantomData<u8>,
    pub ghost calls: { List (List ℕ × List ℕ) },
}

impl Model for Record {
    ghost also_owns = { λ _. ftrue };
}

impl Record {
    ghost use Rattle.std.specs.Prelude.{◌≡◌, ◌≢◌, [], ◌∷◌, ◌++◌, length};
    ghost use Rattle.sector_file.specs.Told.{replay, step, after_opening, after_read, after_fault, after_write, after_torn, after_sync, read_call, failed_call};

    /// A record without calls.
    pub(crate) fn new() -> Record
        ensures { result.calls ≡ [] }
    {
        Record {
            marker: PhantomData,
        }
    }

    /// Notes a call of the system and its answer.
    fn note(&mut self, _numbers: &[u64], _bytes: &[u8])
        ensures { self.new.calls ≡ (_numbers.now, _bytes.now) ∷ self.old.calls }
    {}

    /// Notes all calls that another record has, as the later ones.
    pub(crate) fn note_all(&mut self, _other: &Record)
        ensures { self.new.calls ≡ _other.now.calls ++ self.old.calls }
    {}

    /// The same, said of a file that held what `S` says.
    fn tell<S: Contents>(&mut self, numbers: &[u64], bytes: &[u8])
        ensures told { replay S.Contents.sector self.new.calls ≡ step S.Contents.sector (replay S.Contents.sector self.old.calls) numbers.now bytes.now }
        ensures noted { self.new.calls ≡ (numbers.now, bytes.now) ∷ self.old.calls }
    {
        self.note(numbers, bytes);
    }

    /// The record of a file that was opened with `count` sectors. Their contents are what `S` says,
    /// and none is known to be on the disk.
    #[tactic(auto, using(crate::proofs::Steps::length_held))]
    pub(crate) fn opened<S: Contents>(count: u32) -> Record
        ensures opened { replay S.Contents.sector result.calls ≡ after_opening S.Contents.sector count }
        ensures count { length (replay S.Contents.sector result.calls).0 ≡ count }
    {
        let mut log = Record::new();
        log.tell::<S>(&[OPENED, count as u64], &[]);
        log
    }

    /// A read returned `got` bytes of a sector.
    #[tactic(auto, using(crate::proofs::Steps::whole_read, crate::proofs::Steps::short_read))]
    pub(crate) fn read<S: Contents>(&mut self, i: u32, got: usize, sector: &Sector)
        ensures whole { got ≡ 4096 → replay S.Contents.sector self.new.calls ≡ after_read (replay S.Contents.sector self.old.calls) i sector.now }
        ensures short { got ≢ 4096 → replay S.Contents.sector self.new.calls ≡ after_fault (replay S.Contents.sector self.old.calls) }
        ensures noted { self.new.calls ≡ read_call i got sector.now ∷ self.old.calls }
    {
        self.tell::<S>(&[READ, i as u64, got as u64], sector);
    }

    /// A write accepted `put` bytes of a sector.
    #[tactic(auto, using(crate::proofs::Steps::whole_write, crate::proofs::Steps::torn_write))]
    pub(crate) fn written<S: Contents>(&mut self, i: u32, put: usize, sector: &Sector)
        ensures whole { put ≡ 4096 → replay S.Contents.sector self.new.calls ≡ after_write (replay S.Contents.sector self.old.calls) i sector.now }
        ensures torn { put ≢ 4096 → replay S.Contents.sector self.new.calls ≡ after_torn (replay S.Contents.sector self.old.calls) i }
    {
        self.tell::<S>(&[WRITTEN, i as u64, put as u64], sector);
    }

    /// A sync passed.
    pub(crate) fn synced<S: Contents>(&mut self)
        ensures { replay S.Contents.sector self.new.calls ≡ after_sync (replay S.Contents.sector self.old.calls) }
    {
        self.tell::<S>(&[SYNCED], &[]);
    }

    /// A sync failed, or a call that wrote nothing.
    pub(crate) fn not_synced<S: Contents>(&mut self)
        ensures told { replay S.Contents.sector self.new.calls ≡ after_fault (replay S.Contents.sector self.old.calls) }
        ensures noted { self.new.calls ≡ failed_call ∷ self.old.calls }
    {
        self.tell::<S>(&[NOT_SYNCED], &[]);
    }
}
