//! A load while the device stops or fails at one of its calls.
use crate::devices::{FILLS, Pick, new_store, opened_at, picks};
use crate::stores::{opened, seal, shared_sample, stage};
use crate::streams::answers;
use crate::texts::HALTED;
use desk_model::command::Query;
use desk_model::reply::{Refusal, Reply};
use desk_store::clerk::Clerk;
use desk_store_pages::StoreError;
use geo_tables::Load;
use sector_device::{Sector, SectorDevice};
use sector_memory::MemoryDevice;
use std::alloc::Global;
use std::process::Abort;

/// The calls of a load: its begin, two batches and the seal.
const ALL: u32 = 4;

/// Stages half of the sample's eight rows and returns whether it succeeded; the device fails
/// otherwise.
fn stages<R: Abort, D: SectorDevice>(
    rt: &R,
    alloc: Global,
    clerk: &mut Clerk<D>,
    load: &mut Load,
) -> bool {
    holds!(rt; load.left() >= 4);
    let told = stage(alloc, clerk, load, 4);
    holds!(rt; told.is_ok() | (told == Err(StoreError::Halted)));
    told.is_ok()
}

/// Seals a load whose rows are all staged, the same.
fn seals<R: Abort, D: SectorDevice>(
    rt: &R,
    alloc: Global,
    clerk: &mut Clerk<D>,
    load: Load,
) -> bool {
    holds!(rt; load.left() == 0);
    let told = seal(alloc, clerk, load);
    holds!(rt; told.is_ok() | (told == Err(StoreError::Halted)));
    told.is_ok()
}

/// Loads the sample geography until the device fails, and returns the number of calls that
/// succeeded.
fn loaded<R: Abort, D: SectorDevice>(rt: &R, alloc: Global, clerk: &mut Clerk<D>) -> u32 {
    let mut load = match clerk.begin_load(alloc, shared_sample(rt, alloc)) {
        Ok(load) => load,
        Err(error) => {
            holds!(rt; error == StoreError::Halted);
            return 0;
        }
    };
    if !stages(rt, alloc, clerk, &mut load) {
        return 1;
    }
    if !stages(rt, alloc, clerk, &mut load) {
        return 2;
    }
    if !seals(rt, alloc, clerk, load) {
        return 3;
    }
    ALL
}

/// Whether a geography is shown; else the query is refused for want of one.
pub fn is_sealed<R: Abort, D: SectorDevice>(rt: &R, alloc: Global, clerk: &Clerk<D>) -> bool {
    let reply = clerk.ask(alloc, Query::Blocks);
    let sealed = matches!(reply, Reply::Blocks(_));
    holds!(rt; sealed || matches!(reply, Reply::Refused(Refusal::NotSealed)));
    sealed
}

/// Loads at a clerk whose device may fail, and returns the number of calls that succeeded. After a
/// fault the desk is shown as before, and a command is refused.
fn loads<R: Abort, D: SectorDevice>(rt: &R, alloc: Global, clerk: &mut Clerk<D>) -> u32 {
    let count = loaded(rt, alloc, clerk);
    holds!(rt; is_sealed(rt, alloc, clerk) == (count == ALL));
    holds!(rt; clerk.halted() == (count < ALL));
    if count < ALL {
        let text = answers(
            rt,
            alloc,
            clerk,
            b"DELETE /plans/a HTTP/1.1\r\nHost: d\r\n\r\n",
        );
        holds!(rt; text.as_slice() == HALTED);
    }
    count
}

/// Loads at a device with a fault at call k, and returns the number of calls that succeeded, and
/// the device after a crash.
fn stopped<R: Abort>(
    rt: &R,
    alloc: Global,
    image: &[Sector],
    k: u64,
    once: bool,
    picks: &[Pick],
) -> (u32, MemoryDevice) {
    match opened_at(rt, alloc, image, k, once) {
        Ok(mut clerk) => {
            let count = loads(rt, alloc, &mut clerk);
            (count, clerk.into_device().stop(picks))
        }
        Err(device) => (0, device.stop(picks)),
    }
}

/// Returns whether the device opens to a desk with a geography. If it has none, a new load gives it
/// one.
fn finds_sealed<R: Abort>(rt: &R, alloc: Global, device: MemoryDevice) -> bool {
    let mut clerk = opened(rt, alloc, device);
    let sealed = is_sealed(rt, alloc, &clerk);
    if !sealed {
        holds!(rt; loads(rt, alloc, &mut clerk) == ALL);
    }
    sealed
}

/// A fault at each call in turn: how many leave the desk without a geography, and how many seals
/// that were not acknowledged leave it with one.
fn outcomes<R: Abort>(rt: &R, alloc: Global, once: bool, fill: Option<u8>) -> (u32, u32) {
    let image = new_store(rt, alloc);
    let picks = picks(rt, alloc, fill);
    let mut without = 0u32;
    let mut with = 0u32;
    let mut is_whole = false;
    for k in 0..1_000u64 {
        let (count, device) = stopped(rt, alloc, image.as_slice(), k, once, picks.as_slice());
        let sealed = finds_sealed(rt, alloc, device);
        if count == ALL {
            is_whole = sealed;
            break;
        }
        holds!(rt; !sealed | (count == 3));
        without = without.saturating_add(!sealed as u32);
        with = with.saturating_add(sealed as u32);
    }
    holds!(rt; is_whole);
    (without, with)
}

/// Asserts that a fault at each call leaves no part of a load.
fn leaves_no_part<R: Abort>(rt: &R, alloc: Global, once: bool) {
    for fill in &FILLS {
        let (without, with) = outcomes(rt, alloc, once, *fill);
        holds!(rt; (without > 20) & (with > 1));
    }
}

#[test]
fn a_stop_leaves_no_part_of_a_load(rt: HostRuntime) {
    leaves_no_part(&rt, rt.alloc(), false);
}

#[test]
fn a_fault_leaves_no_part_of_a_load(rt: HostRuntime) {
    leaves_no_part(&rt, rt.alloc(), true);
}
