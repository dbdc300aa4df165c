//! The journal.
ghost use Rattle.std.specs.Prelude.{◌≡◌, false};
ghost use Rattle.gate_journal.specs.Store.{IsSettled};
ghost use Rattle.gate_journal.specs.Recovery.{HasRoom};

use crate::error::PageError;
use crate::layout::{Layout, homes_begin};
use crate::opening::start;
use crate::steps::write_through;
use crate::writes::PageWrites;
use sector_device::{Sector, SectorDevice};

/// Pages behind a gate on a device: commits write all of their pages or none.
#[derive(Drop)]
pub struct Journal<D: SectorDevice> {
    device: D,
    layout: Layout,
    /// Whether the device has failed.
    halted: bool,
    ghost room: { HasRoom (D.disk device).sectors layout.journal_pages layout.pages },
    ghost settled: { halted ≡ false → (D.disk device).is_honest → IsSettled layout.journal_pages layout.pages (D.disk device) },
}

impl<D: SectorDevice> Journal<D> {
    ghost use Rattle.std.specs.Prelude.{◌≡◌, ◌<◌};
    ghost use Rattle.gate_journal.specs.Store.{IsWithin};
    ghost use Rattle.gate_journal.specs.claim.Writes.{writes_of};
    ghost use Rattle.gate_journal.specs.claim.Contents.{device_of, page_count, journal_size, is_halted};
    ghost use Rattle.gate_journal.specs.Outcomes.{OpensJournal, ReadsPage, CommitsWrites};

    /// Opens the store on a device. If the gate is open, the interrupted commit is completed first.
    /// A refusal returns the device.
    pub fn open(device: D) -> Result<Journal<D>, (PageError, D)>
        ensures { OpensJournal device result }
    {
        let mut device = device;
        match start(&mut device) {
            Ok(layout) => Ok(Journal {
                device,
                layout,
                halted: false,
            }),
            Err(e) => Err((e, device)),
        }
    }

    /// The number of pages.
    pub fn page_count(&self) -> u32
        ensures { result ≡ page_count self.now }
    {
        self.layout.pages
    }

    /// How many pages a commit may write.
    pub fn journal_pages(&self) -> u32
        ensures { result ≡ journal_size self.now }
    {
        self.layout.journal_pages
    }

    /// Whether the device has failed since the opening.
    pub fn is_halted(&self) -> bool
        ensures { result ≡ is_halted self.now }
    {
        self.halted
    }

    /// Gives the device back.
    pub fn into_device(self) -> D
        ensures { result ≡ device_of self }
    {
        let Journal {
            device,
            layout: _,
            halted: _,
        } = self;
        device
    }

    /// Reads a page.
    pub fn read_page(&mut self, p: u32, page: &mut Sector) -> Result<(), PageError>
        requires { p < page_count self.old }
        ensures { ReadsPage p page.new self.old self.new result }
    {
        let home = homes_begin!(self.layout.journal_pages);
        if self.halted {
            return Err(PageError::Halted);
        }
        if self.device.read(home + p, page).is_err() {
            self.halted = true;
            return Err(PageError::DeviceFault);
        }
        Ok(())
    }

    /// Writes the pages, all or none of them. It takes no memory.
    pub fn commit(&mut self, writes: &PageWrites) -> Result<(), PageError>
        requires { IsWithin (writes_of writes.now) (page_count self.old) }
        ensures { CommitsWrites (writes_of writes.now) self.old self.new result }
    {
        if self.halted {
            return Err(PageError::Halted);
        }
        if writes.list.len() > self.layout.journal_pages as usize {
            return Err(PageError::TooManyPages);
        }
        if write_through(&mut self.device, self.layout, &writes.list).is_err() {
            self.halted = true;
            return Err(PageError::DeviceFault);
        }
        Ok(())
    }
}
