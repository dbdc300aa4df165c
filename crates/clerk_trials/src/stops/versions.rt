//! Lives of a store of the old version, of which the current fails at each call of its migration in turn.
use crate::stops::lives::{Ask, BYTES, Told, listed_alone, lived, requests};
use crate::stops::plugged::{Plugged, Unplugged};
use desk_migration::old::turn_back;
use desk_store_pages::StoreError;
use desk_theorem_lives::desk_lives::live_in;
use desk_theorem_lives::leading::{Led, lead_in};
use desk_theorem_lives::restarts::Restarts;
use page_store::Pages;
use std::alloc::Global;
use std::process::Abort;

/// What makes a store with two plans, and what is asked of it.
static MADE: [&[Ask]; 1] = [&[Ask::Load, Ask::Create(b'a'), Ask::Create(b'b')]];

static ASKED: [Ask; 1] = [Ask::Look];

fn turned_back<R: Abort>(rt: &R, alloc: Global, device: Plugged) -> Plugged {
    match Pages::open(alloc, device) {
        Ok(mut pages) => {
            turn_back(alloc, &mut pages).expect(rt, "not turned back");
            pages.into_device()
        }
        Err(_) => panic!(rt; "not opened"),
    }
}

/// A device that lets a number of calls pass in the first life after those in which it becomes a
/// store of the old version with two plans.
fn old_store<R: Abort>(rt: &R, alloc: Global, passing: u64, byte: Option<u8>) -> Unplugged {
    let fuses = [u64::MAX, u64::MAX, passing, u64::MAX, u64::MAX];
    let (_, off) = lived(rt, alloc, fuses, byte, &MADE);
    turned_back(rt, alloc, Plugged::start(off)).stop()
}

/// A life in which the store is led on: what came of it, and what its stop leaves.
fn led_on(alloc: Global, off: Unplugged) -> (Led, Unplugged) {
    let (led, device) = lead_in(alloc, Plugged::start(off), 100);
    (led, device.stop())
}

/// A life in which the store is asked for its plans.
fn looked<R: Abort>(rt: &R, alloc: Global, off: Unplugged) -> (Told, Unplugged) {
    let asked = requests(rt, alloc, &ASKED);
    let (told, device) = live_in(alloc, Plugged::start(off), asked).expect(rt, "no memory");
    (told, device.stop())
}

/// Whether the store was of the new version after the first life, by what came of the four: it was led on, asked, led on and asked.
fn is_new<R: Abort>(rt: &R, first: &Led, then: &Told, again: &Led, last: &Told) -> bool {
    let new = *again == Led::Unopened(StoreError::AlreadyNew);
    holds!(rt; new | (*again == Led::Whole) & (*first != Led::Whole));
    let is_old = matches!(then, Err(StoreError::OldVersion));
    holds!(rt; (listed_alone(then) == new.then_some(3)) & (is_old == !new) & (listed_alone(last) == Some(3)));
    new
}

/// Returns whether the store had the new version after a migration in which `passing` calls passed.
fn is_new_after<R: Abort>(rt: &R, alloc: Global, passing: u64, byte: Option<u8>) -> bool {
    let off = old_store(rt, alloc, passing, byte);
    let (first, off) = led_on(alloc, off);
    let (then, off) = looked(rt, alloc, off);
    let (again, off) = led_on(alloc, off);
    let (last, _) = looked(rt, alloc, off);
    is_new(rt, &first, &then, &again, &last)
}

#[test]
fn a_migration_is_done_or_not_and_its_desk_is_there(rt: HostRuntime) {
    let rt = &rt;
    let alloc = rt.alloc();
    for byte in &BYTES {
        let mut new = 0u32;
        for k in 0..60u64 {
            new = new.saturating_add(is_new_after(rt, alloc, k, *byte) as u32);
        }
        holds!(rt; (new > 0) & (new < 60));
        holds!(rt; is_new_after(rt, alloc, u64::MAX, *byte));
    }
}
