//! Makes a device a store that holds a geography and no plan.
ghost use Rattle.std.specs.Prelude.{◌≡◌, ◌<◌, ◌^◌, false, IfOk, IfErr};
ghost use Rattle.desk_store_pages.specs.Formats.{OpensNew};
ghost use Rattle.desk_store.specs.claim.Clerks.{desk_of, disk_of, is_halted, room_of, sectors_of, Keeps};
ghost use Rattle.desk_store.specs.Keeping.{sealed_desk};
ghost use Rattle.desk_theorem_loading.specs.Openings.{IsOpened, IsUnopened};
ghost use Rattle.desk_theorem_loading.specs.Starts.{IsFormatted, IsUnformatted, IsStarted, StartRefused};
ghost use Rattle.page_store.specs.Formats.{IsJournalSize};

use crate::loads::load_geography;
use crate::openings::open_store;
use byte_stream::progress::NoProgress;
use desk_model::geography::Geography;
use desk_store::clerk::Clerk;
use desk_store_pages::{StoreError, format};
use sector_device::SectorDevice;
use std::alloc::Global;
use std::sync::Arc;

/// Formats a device.
fn formatted<D: SectorDevice + Drop>(
    alloc: Global,
    device: D,
    journal_pages: u32,
) -> Result<D, StoreError>
    requires size { IsJournalSize journal_pages }
    ensures ok { IfOk result (λ new. IsFormatted D.SectorDevice journal_pages device new) }
    ensures err { IfErr result (λ e. IsUnformatted D.SectorDevice journal_pages device e) }
{
    let mut device = device;
    match format(alloc, &mut device, journal_pages) {
        Ok(()) => Ok(device),
        Err(e) => Err(e),
    }
}

/// Opens a device that was formatted: the clerk's store keeps the desk.
fn opened<D: SectorDevice + Drop>(alloc: Global, device: D) -> Result<Clerk<D>, (StoreError, D)>
    requires new { (D.disk device).is_honest → OpensNew (D.disk device) }
    ensures keeps { IfOk result Keeps }
    ensures ok { IfOk result (λ x. IsOpened device x) }
    ensures err { IfErr result (λ e. IsUnopened D.SectorDevice device e.0 e.1) }
{
    match open_store(alloc, device) {
        Ok(clerk) => Ok(clerk),
        Err((e, left)) => Err((e, left)),
    }
}

/// A number of pages has 32 bits.
fn word_fits(pages: u32)
    ensures { pages < 2 ^ 32 }
{}

/// The journal's pages are so few that the header names them.
fn journal_fits<D: SectorDevice>(clerk: &Clerk<D>)
    ensures { room_of clerk.now < 2 ^ 32 }
{
    word_fits(clerk.journal_pages());
}

/// Formats a device as a store with `journal_pages` journal pages, 256 to 65,536, that holds the
/// geography and no plan, and opens it. What the device held is gone.
pub fn start<D: SectorDevice + Drop>(
    alloc: Global,
    device: D,
    journal_pages: u32,
    geography: Arc<Geography>,
) -> Result<Clerk<D>, StoreError>
    requires size { IsJournalSize journal_pages }
    ensures keeps { IfOk result Keeps }
    ensures desk { IfOk result (λ clerk. desk_of clerk ≡ sealed_desk geography.value) }
    ensures working { IfOk result (λ clerk. is_halted clerk ≡ false) }
    ensures size { IfOk result (λ clerk. sectors_of clerk ≡ (D.disk device).sectors) }
    ensures journal { IfOk result (λ clerk. (disk_of clerk).is_honest → room_of clerk ≡ journal_pages) }
    ensures started { IfOk result (λ clerk. IsStarted D.SectorDevice journal_pages device geography.value clerk) }
    ensures err { IfErr result (λ e. StartRefused D.SectorDevice journal_pages device geography.value e) }
{
    let device = match formatted(alloc, device, journal_pages) {
        Ok(device) => device,
        Err(e) => return Err(e),
    };
    let mut clerk = match opened(alloc, device) {
        Ok(clerk) => clerk,
        Err((e, _)) => return Err(e),
    };
    journal_fits(&clerk);
    match load_geography(alloc, &mut clerk, geography, &mut NoProgress) {
        Ok(()) => Ok(clerk),
        Err(e) => Err(e),
    }
}
