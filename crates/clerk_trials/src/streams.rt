//! Commands that are served while the device stops or fails at one of its calls.
use crate::devices::{FILLS, Image, Pick, device_with, image_of, new_store, opened_at, picks};
use crate::stores::{device_of, opened, shared_sample};
use crate::texts::{ALL, COMMANDS, QUERIES, shows, told_made};
use byte_stream::progress::NoProgress;
use byte_stream::sink::WriteSink;
use byte_stream::source::ReadSource;
use desk_model::gate::NoGate;
use desk_store::clerk::Clerk;
use desk_theorem_loading::load_geography;
use sector_device::{Sector, SectorDevice};
use sector_memory::MemoryDevice;
use std::alloc::Global;
use std::process::Abort;
use talk_command::serve::serve_clerk;

/// What is written for the requests.
pub fn answers<R: Abort, D: SectorDevice>(
    rt: &R,
    alloc: Global,
    clerk: &mut Clerk<D>,
    requests: &[u8],
) -> Vec<u8> {
    let mut reader = ReadSource::new(requests);
    let mut writer = WriteSink::new(Vec::new(alloc));
    let served = serve_clerk(alloc, &mut reader, &mut writer, clerk, &NoGate);
    holds!(rt; served.is_ok());
    writer.into_inner()
}

/// What the queries are answered once a device is opened.
pub fn found<R: Abort>(rt: &R, alloc: Global, device: MemoryDevice) -> Vec<u8> {
    let mut clerk = opened(rt, alloc, device);
    answers(rt, alloc, &mut clerk, QUERIES)
}

/// A store with the sample geography.
pub fn sealed_store<R: Abort>(rt: &R, alloc: Global) -> Image {
    let new = new_store(rt, alloc);
    let mut clerk = opened(rt, alloc, device_with(rt, alloc, new.as_slice()));
    load_geography(alloc, &mut clerk, shared_sample(rt, alloc), &mut NoProgress).expect(
        rt,
        "not loaded",
    );
    image_of(rt, alloc, device_of(clerk))
}

/// Serves the commands until the device fails: how many of them are made. The clerk shows the desk after these to the end.
fn serve_commands<R: Abort, D: SectorDevice>(rt: &R, alloc: Global, clerk: &mut Clerk<D>) -> usize {
    let text = answers(rt, alloc, clerk, COMMANDS);
    let made = told_made(text.as_slice());
    holds!(rt; clerk.halted() == (made < ALL));
    let text = answers(rt, alloc, clerk, QUERIES);
    holds!(rt; shows(text.as_slice(), made));
    made
}

/// Serves the commands at a device with a fault at call k: how many of them are made, and the device stopped then.
pub fn served<R: Abort>(
    rt: &R,
    alloc: Global,
    image: &[Sector],
    k: u64,
    once: bool,
    picks: &[Pick],
) -> (usize, MemoryDevice) {
    match opened_at(rt, alloc, image, k, once) {
        Ok(mut clerk) => {
            let made = serve_commands(rt, alloc, &mut clerk);
            (made, clerk.into_device().stop(picks))
        }
        Err(device) => (0, device.stop(picks)),
    }
}

/// Returns whether a device opens to exactly the first `made` commands; otherwise it opens to the
/// next one too.
fn finds_just<R: Abort>(rt: &R, alloc: Global, device: MemoryDevice, made: usize) -> bool {
    let text = found(rt, alloc, device);
    let just = shows(text.as_slice(), made);
    holds!(rt; just || shows(text.as_slice(), made.saturating_add(1)));
    just
}

/// A fault at each call in turn: how many leave exactly the acknowledged commands, and how many the
/// next one too.
fn outcomes<R: Abort>(
    rt: &R,
    alloc: Global,
    image: &[Sector],
    once: bool,
    fill: Option<u8>,
) -> (u32, u32) {
    let picks = picks(rt, alloc, fill);
    let mut same = 0u32;
    let mut more = 0u32;
    for k in 0..1_000u64 {
        let (made, device) = served(rt, alloc, image, k, once, picks.as_slice());
        let just = finds_just(rt, alloc, device, made);
        same = same.saturating_add(u32::from(just));
        more = more.saturating_add(u32::from(!just));
        if made == ALL {
            break;
        }
    }
    holds!(rt; same.saturating_add(more) < 1_000);
    (same, more)
}

/// Asserts that what is answered as made outlasts a fault at each call.
fn outlasts<R: Abort>(rt: &R, alloc: Global, once: bool) {
    let image = sealed_store(rt, alloc);
    for fill in &FILLS {
        let (same, more) = outcomes(rt, alloc, image.as_slice(), once, *fill);
        holds!(rt; (same > 20) & (more > 4));
    }
}

#[test]
fn what_is_answered_as_made_outlasts_a_stop(rt: HostRuntime) {
    outlasts(&rt, rt.alloc(), false);
}

#[test]
fn what_is_answered_as_made_outlasts_a_fault(rt: HostRuntime) {
    outlasts(&rt, rt.alloc(), true);
}
