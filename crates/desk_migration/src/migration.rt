//! A migration of a store from the old version of its rows to the new one.
ghost use Rattle.desk_migration.specs.Parts.{IsUnderParts};

use crate::opening::judge;
use crate::steps::{put_holdings, put_version};
use desk_store_pages::StoreError;
use page_btree::SmallBytes;
use page_store::Pages;
use sector_device::SectorDevice;
use std::alloc::Global;

/// How many rows one step puts at most.
pub const ROWS_PUT: usize = 16;

/// Leads a store from the old version of its rows to the new one, in steps.
#[derive(Drop)]
pub struct Migration<D: SectorDevice> {
    pub(crate) pages: Pages<D>,
    /// Each part of a revision whose key is below this one names only chunks that its plan holds.
    pub(crate) from: SmallBytes,
    /// The last step found nothing to be held.
    pub(crate) ended: bool,
    ghost under: { IsUnderParts from },
}

impl<D: SectorDevice> Migration<D> {
    ghost use Rattle.desk_migration.specs.Calls.{OpensMigration, TakesStep, Finishes};
    ghost use Rattle.std.specs.Prelude.{◌≡◌, true, false, Err};
    ghost use Rattle.desk_migration.specs.claim.Migrating.{device_of, disk_of, free_of, has_ended, is_halted, room_of};

    /// Opens the store on a device, whose rows must be of the old version: completes or drops a
    /// commit that a crash cut short. At any moment a crash leaves a desk that was there at the
    /// start, in its version. A refusal returns the device with its pages as they were; what is no
    /// store stays as it is. `Memory` and `AlreadyNew` come only of a store, and after `AlreadyNew`
    /// a crash leaves a desk of the new version.
    pub fn open(alloc: Global, device: D) -> Result<Migration<D>, (StoreError, D)>
        ensures { OpensMigration D.SectorDevice device result }
    {
        let mut pages = match Pages::open(alloc, device) {
            Ok(pages) => pages,
            Err((e, device)) => return Err((StoreError::from(e), device)),
        };
        match judge(alloc, &mut pages) {
            Ok(()) => {
                let mut from = SmallBytes::empty();
                from.set(b"R");
                Ok(Migration {
                    pages,
                    from,
                    ended: false,
                })
            }
            Err(e) => Err((e, pages.into_device())),
        }
    }

    /// How many pages are free.
    pub fn free_pages(&self) -> u32
        ensures { is_halted self.now ≡ false → (disk_of self.now).is_honest → result ≡ free_of self.now }
    {
        self.pages.free_pages()
    }

    /// How many pages a commit may write.
    pub fn journal_pages(&self) -> u32
        ensures { result ≡ room_of self.now }
    {
        self.pages.journal_pages()
    }

    /// Whether the device has failed since the opening.
    pub fn is_halted(&self) -> bool
        ensures { result ≡ is_halted self.now }
    {
        self.pages.is_halted()
    }

    /// Gives the device back.
    pub fn into_device(self) -> D
        ensures { result ≡ device_of self }
    {
        let Migration {
            pages,
            from: _,
            ended: _,
        } = self;
        pages.into_device()
    }

    /// Puts up to 16 rows by which plans hold the chunks that parts of their revisions name, in one
    /// commit of at most 208 pages. Returns their number, 0 only if none is left. A pair of a plan
    /// and a chunk has two rows: the plan's holding of the chunk, and the number of its holders.
    /// Deleted plans that are not swept are included. The desk and the version stay. `Full`,
    /// `Memory`, `NotAStore`: nothing changed. `DeviceFault`: the device failed in this call.
    /// `Halted`: it had failed before.
    pub fn step(&mut self, alloc: Global) -> Result<usize, StoreError>
        ensures { TakesStep self.old self.new result }
    {
        let count = put_holdings(alloc, &mut self.pages, &mut self.from)?;
        self.ended = count == 0;
        Ok(count)
    }

    /// Puts the row of the new version, once a step found nothing to hold. A crash at any moment
    /// leaves the desk in one of the two versions. `Full`, `Memory`, `NotAStore`: nothing changed.
    /// `DeviceFault`: the device failed in this call, and the store has one of the two versions.
    /// `Halted`: it had failed before.
    pub fn finish(&mut self, alloc: Global) -> Result<(), StoreError>
        requires ended { has_ended self.old ≡ true }
        ensures { Finishes self.old self.new result }
    {
        put_version(alloc, &mut self.pages)
    }
}
