//! The clerk, who keeps the desk in a store and shows it from memory.
ghost use Rattle.std.specs.Prelude.{◌≡◌, false};
ghost use Rattle.page_store.specs.claim.Transactions.{has_halted};

use desk_model::command::Query;
use desk_model::reply::Reply;
use desk_store_catalogue::catalogue::Catalogue;
use page_store::Pages;
use sector_device::SectorDevice;
use std::alloc::{AllocError, Global};
use std::sync::Arc;

/// Keeps the desk in the pages of a store, and shows it from a catalogue in memory.
#[derive(Drop)]
pub struct Clerk<D: SectorDevice> {
    pub(crate) pages: Pages<D>,
    pub(crate) catalogue: Arc<Catalogue>,
    /// The load that was begun last since the opening, by its number.
    pub(crate) loading: Option<u64>,
    /// A fault came: commands are refused from then on.
    pub(crate) halted: bool,
    ghost working: { halted ≡ false → has_halted pages ≡ false },
}

impl<D: SectorDevice> Clerk<D> {
    ghost use Rattle.std.specs.Prelude.{◌≡◌, false, IfOk};
    ghost use Rattle.desk_store_catalogue.specs.claim.Audits.{AskMay};
    ghost use Rattle.desk_store.specs.claim.Clerks.{desk_of, disk_of, free_of, is_halted, pages_of, room_of};
    ghost use Rattle.page_store.specs.claim.Transactions.{device_in, has_halted};

    /// The answer to a query, from the catalogue in memory; Memory only where memory for it was refused.
    pub fn ask(&self, alloc: Global, query: Query) -> Reply
        ensures { AskMay (desk_of self.now) query result }
    {
        self.catalogue.ask(alloc, query)
    }

    /// The catalogue that is shown now. Err where one more owner is refused.
    pub fn published(&self) -> Result<Arc<Catalogue>, AllocError>
        ensures { IfOk result (λ c. c.value ≡ desk_of self.now) }
    {
        self.catalogue.clone()
    }

    /// Caches the block listing in the current catalogue if nobody shares it and memory is granted.
    /// What is shown stays the same.
    pub fn keep_blocks(&mut self, alloc: Global)
        ensures { self.new ≡ self.old }
    {
        if let Some(catalogue) = Arc::get_mut(&mut self.catalogue) {
            catalogue.keep_blocks(alloc);
        }
    }

    /// Whether a fault has come since the opening: commands are refused from then on.
    pub fn halted(&self) -> bool
        ensures { result ≡ is_halted self.now }
    {
        self.halted
    }

    /// Whether the device has failed since the opening. A clerk who halted without that met rows that no desk leaves.
    pub fn has_device_failed(&self) -> bool
        ensures { result ≡ has_halted (pages_of self.now) }
    {
        self.pages.is_halted()
    }

    /// How many pages are free.
    pub fn free_pages(&self) -> u32
        ensures { is_halted self.now ≡ false → (disk_of self.now).is_honest → result ≡ free_of self.now }
    {
        self.pages.free_pages()
    }

    /// Gives the device back.
    pub fn into_device(self) -> D
        ensures { result ≡ device_in (pages_of self) }
    {
        let Clerk {
            pages,
            catalogue: _,
            loading: _,
            halted: _,
        } = self;
        pages.into_device()
    }

    /// How many pages a commit may write.
    pub fn journal_pages(&self) -> u32
        ensures { result ≡ room_of self.now }
    {
        self.pages.journal_pages()
    }
}
