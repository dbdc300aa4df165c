//! Devices that stop or fail at one of their calls, and what a stop leaves of them.
use crate::stores::formatted;
use desk_store::clerk::Clerk;
use desk_store_pages::StoreError;
use sector_device::{Sector, SectorDevice};
use sector_memory::{Fused, MemoryDevice};
use std::alloc::Global;
use std::process::Abort;

/// The sectors of a store: header, gate, list, 256 copies and 141 pages.
const SECTORS: u32 = 400;

/// What a stop leaves in the sectors that were not on the disk: these bytes, or what a read gives.
pub static FILLS: [Option<u8>; 4] = [Some(0), Some(0xff), Some(0xa5), None];

/// A sector and its bytes.
pub type Pick = (u64, Sector);

/// A pick of every sector.
pub fn picks<R: Abort>(rt: &R, alloc: Global, fill: Option<u8>) -> Vec<Pick> {
    picks_of(rt, alloc, SECTORS, fill)
}

/// A pick for each of `sectors` sectors.
pub fn picks_of<R: Abort>(rt: &R, alloc: Global, sectors: u32, fill: Option<u8>) -> Vec<Pick> {
    let mut all = Vec::new(alloc);
    if let Some(byte) = fill {
        for i in 0..sectors {
            all.push((i as u64, [byte; 4096])).expect(rt, "no memory");
        }
    }
    all
}

/// A device over one in memory whose first `k` calls pass. The next one fails, and after it either
/// every call or no other. All trials take this type, so that a clerk is compiled for one type of
/// device.
pub fn failing_at(device: MemoryDevice, k: u64, once: bool) -> Fused {
    if once {
        Fused::once(device, k)
    } else {
        Fused::new(device, k)
    }
}

/// The bytes of each sector.
pub type Image = Vec<Sector>;

/// What a read of each sector gives.
pub fn image_of<R: Abort>(rt: &R, alloc: Global, device: MemoryDevice) -> Image {
    let mut device = device;
    let mut image = Vec::new(alloc);
    for i in 0..device.count() {
        let mut sector = [0; 4096];
        holds!(rt; i < device.count() && device.read(i, &mut sector).is_ok());
        image.push(sector).expect(rt, "no memory");
    }
    image
}

/// A device with these sectors, all of them on the disk.
pub fn device_with<R: Abort>(rt: &R, alloc: Global, image: &[Sector]) -> MemoryDevice {
    assert!(rt; image.len() <= 4096);
    let mut device = MemoryDevice::new(alloc, image.len() as u32).expect(rt, "no memory");
    for (i, sector) in image.iter().enumerate() {
        holds!(rt; i < device.count() as usize && device.write(i as u32, sector).is_ok());
    }
    device.sync().expect(rt, "not synced");
    device
}

/// Opens a device with these sectors and a fault at call k: a clerk, or the device, where the call was one of the opening's.
pub fn opened_at<R: Abort>(
    rt: &R,
    alloc: Global,
    image: &[Sector],
    k: u64,
    once: bool,
) -> Result<Clerk<Fused>, Fused> {
    match Clerk::open(alloc, failing_at(device_with(rt, alloc, image), k, once)) {
        Ok(clerk) => Ok(clerk),
        Err((error, device)) => {
            holds!(rt; error == StoreError::DeviceFault);
            Err(device)
        }
    }
}

/// A store without geography and plans.
pub fn new_store<R: Abort>(rt: &R, alloc: Global) -> Image {
    image_of(rt, alloc, formatted(rt, alloc, SECTORS))
}
