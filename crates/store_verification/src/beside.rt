//! Three looks at once.
ghost use Rattle.std.specs.Prelude.{◌≡◌, true, IfSome};
ghost use Rattle.sector_device.specs.claim.Disk.{Touches, Nowhere};
ghost use Rattle.sector_device.specs.Disk.{IsSynced};
ghost use Rattle.store_verification.specs.Readers.{IsLent, AreTakenBack};
ghost use Rattle.store_verification.specs.Looking.{HasOwners, HasDesk, HasSeen, IsJoined, LooksBy, LooksWhole};

use crate::jobs::{SeenRows, look_at_desk, look_at_owners, look_at_rows};
use crate::look::Look;
use crate::readers::Readers;
use byte_stream::progress::Progress;
use desk_model::ranges::CountyRange;
use sector_device::{SECTOR_SIZE, SectorDevice};
use std::alloc::Global;
use std::thread::{Threads, join};

/// Examines the rows and the desk at the same time. The desk is what takes memory: a new thread
/// would ask the system for each page of it.
fn look_last<T: Threads + Sync, R: SectorDevice + Send + Drop>(
    rt: &T,
    alloc: Global,
    second: R,
    third: R,
) -> ((Look<SeenRows>, R), (Look<Vec<CountyRange>>, R))
    ensures desk { LooksBy HasDesk (R.disk second) (R.disk result.1.1) result.1.0 }
    ensures rows { LooksBy HasSeen (R.disk third) (R.disk result.0.1) result.0.0 }
{
    join(
        rt,
        move || look_at_rows(alloc, third),
        move || look_at_desk(alloc, second),
    )
}

/// Examines the pages at the same time as rows and desk.
fn look_all<T: Threads + Sync, R: SectorDevice + Send + Drop, P: Progress + Send>(
    rt: &T,
    alloc: Global,
    first: R,
    second: R,
    third: R,
    progress: &mut P,
) -> (
    (Look<u64>, R),
    ((Look<SeenRows>, R), (Look<Vec<CountyRange>>, R)),
)
    ensures owners { LooksBy HasOwners (R.disk first) (R.disk result.0.1) result.0.0 }
    ensures desk { LooksBy HasDesk (R.disk second) (R.disk result.1.1.1) result.1.1.0 }
    ensures rows { LooksBy HasSeen (R.disk third) (R.disk result.1.0.1) result.1.0.0 }
{
    join(
        rt,
        move || look_at_owners(alloc, first, progress),
        move || look_last(rt, alloc, second, third),
    )
}

/// Whether a county's blocks are those of another one.
fn is_same(one: &CountyRange, other: &CountyRange) -> bool
    ensures { result ≡ true → one.now ≡ other.now }
{
    one.first == other.first && one.count == other.count
}

/// Whether counties are the same as others.
fn are_same(some: &[CountyRange], others: &[CountyRange]) -> bool
    ensures { result ≡ true → some.now ≡ others.now }
{
    if some.len() != others.len() {
        return false;
    }
    for k in 0..some.len() {
        if !is_same(&some[k], &others[k]) {
            return false;
        }
    }
    true
}

/// What comes of three looks: the number of rows where all is so.
fn joined(owners: Look<u64>, desk: Look<Vec<CountyRange>>, rows: Look<SeenRows>) -> Look<u64>
    ensures { IsJoined owners desk rows result }
{
    if owners.is_failed() || desk.is_failed() || rows.is_failed() {
        return Look::Failed;
    }
    match (owners, desk, rows) {
        (Look::Sound(_), Look::Sound(ranges), Look::Sound(seen)) => {
            if are_same(ranges.as_slice(), seen.ranges.as_slice()) {
                return Look::Sound(seen.rows);
            }
            Look::Unsound
        }
        _ => Look::Unsound,
    }
}

/// The first byte of the gate's sector while copies in the journal count.
const OPEN: u8 = 165;

/// Returns whether the gate of a store is shut, as far as a reader of its own can see: shutting an
/// open one needs writing, which no reader does. Nothing depends on it. A call of it that fails is
/// not reported, since each other reader makes it again.
fn is_closed<D: SectorDevice, R: SectorDevice + Drop, O: Readers<D, R>>(
    readers: &O,
    device: &D,
) -> bool {
    let Some(mut reader) = readers.lend(device) else {
        return false;
    };
    if reader.count() < 2 {
        return false;
    }
    let mut gate = [0; SECTOR_SIZE];
    match reader.read(1, &mut gate) {
        Ok(()) => gate[0] != OPEN,
        Err(_) => true,
    }
}

/// Three readers of a device.
fn lend_all<D: SectorDevice, R: SectorDevice + Drop, O: Readers<D, R>>(
    readers: &O,
    device: &D,
) -> Option<(R, R, R)>
    ensures { IfSome result (λ all. IsLent O.held (D.disk device.now) (R.disk all.0) × IsLent O.held (D.disk device.now) (R.disk all.1)
        × IsLent O.held (D.disk device.now) (R.disk all.2)) }
{
    let first = readers.lend(device)?;
    let second = readers.lend(device)?;
    let third = readers.lend(device)?;
    Some((first, second, third))
}

/// Takes three readers back.
fn take_all_back<D: SectorDevice, R: SectorDevice, O: Readers<D, R>>(
    readers: &O,
    device: &mut D,
    first: R,
    second: R,
    third: R,
)
    ensures { AreTakenBack O.held (D.disk device.old) (R.disk first) (R.disk second) (R.disk third) (D.disk device.new) }
{
    readers.take_back(device, first);
    readers.take_back(device, second);
    readers.take_back(device, third);
}

/// Examines the store on a synced device by three readers at once. Returns its number of rows if
/// each page has one owner and the rows are those of a desk. The device is as it was, and its
/// readers' calls count as its own. A store with an interrupted commit is left to the device
/// itself. `progress` is told the number of pages.
pub fn look_beside<
    T: Threads + Sync,
    D: SectorDevice,
    R: SectorDevice + Send + Drop,
    O: Readers<D, R>,
    P: Progress + Send,
>(rt: &T, alloc: Global, readers: &O, device: &mut D, progress: &mut P) -> Look<u64>
    requires { IsSynced (D.disk device.old) }
    ensures sectors { (D.disk device.new).sectors ≡ (D.disk device.old).sectors }
    ensures synced { IsSynced (D.disk device.new) }
    ensures moves { (D.disk device.new).is_honest → Touches Nowhere (D.disk device.old) (D.disk device.new) }
    ensures looked { LooksWhole (D.disk device.old) (D.disk device.new) result }
{
    if !is_closed(readers, device) {
        return Look::Unsound;
    }
    let Some((first, second, third)) = lend_all(readers, device) else {
        return Look::Unsound;
    };
    let ((owners, first), ((rows, third), (desk, second))) = look_all(
        rt, alloc, first, second, third, progress,
    );
    take_all_back(readers, device, first, second, third);
    joined(owners, desk, rows)
}
