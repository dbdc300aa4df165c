//! A device's store, verified by readers that look at it at once. What isn't so is looked for again, one thing after the other.
ghost use Rattle.sector_device.specs.Disk.{IsSynced};
ghost use Rattle.store_verification.specs.Looking.{IsSoundAt};
ghost use Rattle.inspect_command.specs.Verifying.{VerifiesTelling};

use crate::refusal::Refusal;
use crate::verifying::{Verified, verify_device};
use byte_stream::progress::Progress;
use desk_store_pages::StoreError;
use page_store::Pages;
use sector_device::SectorDevice;
use std::alloc::Global;
use std::thread::Threads;
use store_command::fault::{StoreFault, store_fault};
use store_command::one_desk_opens;
use store_verification::{Look, Readers, look_beside};

/// Opens the store on a synced device that was found sound, with this number of rows, and returns
/// the device.
fn open_sound<D: SectorDevice + Drop, P: Progress>(
    alloc: Global,
    device: D,
    rows: u64,
    progress: &mut P,
) -> (Result<Verified, Refusal>, D)
    requires synced { IsSynced (D.disk device) }
    requires sound { (D.disk device).is_honest → IsSoundAt (D.disk device).sectors (D.disk device).reads rows }
    ensures { VerifiesTelling D.SectorDevice (P.is_told progress.new) device result.0 result.1 }
{
    one_desk_opens();
    let pages = match Pages::open(alloc, device) {
        Ok(pages) => pages,
        Err((e, left)) => {
            let fault = store_fault(StoreError::from(e));
            return (Err(Refusal::of(fault)), left);
        }
    };
    progress.expect(rows);
    let txn = pages.begin(alloc);
    let found = Verified {
        pages: txn.page_count(),
        rows,
    };
    (Ok(found), pages.into_device())
}

/// Verifies the store on a synced device by three readers at once, and returns the device. If they
/// do not find it sound, it is verified sequentially and what is wrong is printed. Writes nothing
/// but what completes an interrupted commit. `progress` receives the number of pages so far and in
/// all.
pub fn verify_beside<
    T: Threads + Sync,
    D: SectorDevice + Drop,
    R: SectorDevice + Send + Drop,
    O: Readers<D, R>,
    P: Progress + Send,
>(
    threads: &T,
    alloc: Global,
    readers: &O,
    device: D,
    progress: &mut P,
) -> (Result<Verified, Refusal>, D)
    requires { IsSynced (D.disk device) }
    ensures { VerifiesTelling D.SectorDevice (P.is_told progress.new) device result.0 result.1 }
{
    let mut device = device;
    match look_beside(threads, alloc, readers, &mut device, progress) {
        Look::Sound(rows) => open_sound(alloc, device, rows, progress),
        Look::Unsound => verify_device(alloc, device, progress),
        Look::Failed => (Err(Refusal::of(StoreFault::DeviceFault)), device),
    }
}
