//! Copies of all sectors.
ghost use Rattle.std.specs.Prelude.{◌≡◌, ◌<◌};
ghost use Rattle.sector_copies.specs.Copies.{CopiesAll, CopiesOne};

use crate::fault::CopyFault;
use sector_device::{SECTOR_SIZE, Sector, SectorDevice};

/// Copies one sector.
fn copy_sector<S: SectorDevice, T: SectorDevice>(
    source: &mut S,
    target: &mut T,
    i: u32,
    sector: &mut Sector,
) -> Result<(), CopyFault>
    requires source { i < (S.disk source.old).sectors }
    requires target { i < (T.disk target.old).sectors }
    ensures { CopiesOne i (S.disk source.old) (S.disk source.new) (T.disk target.old) (T.disk target.new) result }
{
    match source.read(i, sector) {
        Ok(()) => {}
        Err(_) => return Err(CopyFault::Unread),
    }
    match target.write(i, sector) {
        Ok(()) => Ok(()),
        Err(_) => Err(CopyFault::Unwritten),
    }
}

/// Copies all sectors of a device to another of the same size, and syncs it. Returns Unread if a
/// read failed, and Unwritten if a write or the sync failed; then the target may hold anything.
pub fn copy_sectors<S: SectorDevice, T: SectorDevice>(
    source: &mut S,
    target: &mut T,
) -> Result<(), CopyFault>
    requires { (T.disk target.old).sectors ≡ (S.disk source.old).sectors }
    ensures { CopiesAll (S.disk source.old) (S.disk source.new) (T.disk target.old) (T.disk target.new) result }
{
    let count = source.count();
    let mut sector = [0; SECTOR_SIZE];
    for i in 0..count {
        match copy_sector(source, target, i, &mut sector) {
            Ok(()) => {}
            Err(fault) => return Err(fault),
        }
    }
    match target.sync() {
        Ok(()) => Ok(()),
        Err(_) => Err(CopyFault::Unwritten),
    }
}
