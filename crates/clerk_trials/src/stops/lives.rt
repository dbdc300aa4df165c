//! Lives of a store of which the current fails at each call in turn, and at one of the recovery after it.
use crate::devices::picks_of;
use crate::stops::plugged::{Fuses, Plugged, Unplugged};
use desk_model::command::{Command, Query};
use desk_model::geography::{Geography, sample};
use desk_model::kind::Kind;
use desk_model::name::PlanName;
use desk_model::reply::Reply;
use desk_model::size::PlanSize;
use desk_store_pages::{StoreError, format};
use desk_theorem_lives::desk_lives::{Answer, Request, live_in};
use desk_theorem_lives::restarts::Restarts;
use sector_memory::MemoryDevice;
use std::alloc::Global;
use std::process::Abort;
use std::sync::Arc;

const SECTORS: u32 = 400;

/// What a stop leaves in the sectors that were not on the disk: what was written, or such a byte.
pub(crate) static BYTES: [Option<u8>; 3] = [None, Some(0), Some(0xa5)];

/// What came of a life.
pub(crate) type Told = Result<Vec<Answer>, StoreError>;

/// What is asked. A plan's name is one letter.
pub(crate) enum Ask {
    Load,
    Create(u8),
    Retire(u8),
    Look,
    Sweep,
}

/// A geography is loaded in the first life, and in the second, where it isn't there. That one makes two plans and takes one away, the
/// third sweeps, and the others look.
static LIVES: [&[Ask]; 5] = [
    &[Ask::Load],
    &[
        Ask::Load,
        Ask::Create(b'a'),
        Ask::Create(b'b'),
        Ask::Retire(b'a'),
        Ask::Look,
    ],
    &[Ask::Look, Ask::Sweep, Ask::Sweep, Ask::Sweep, Ask::Look],
    &[Ask::Look],
    &[Ask::Look],
];

fn the_geography<R: Abort>(rt: &R, alloc: Global) -> Arc<Geography> {
    let the_geography: Geography = sample(alloc).expect(rt, "no memory");
    Arc::new(alloc, the_geography).expect(rt, "no memory")
}

fn request<R: Abort>(rt: &R, alloc: Global, ask: &Ask) -> Request {
    match ask {
        Ask::Load => Request::Load(the_geography(rt, alloc)),
        Ask::Create(letter) => Request::Change(Command::Create {
            plan: PlanName::read(&[*letter]).expect(rt, "no name"),
            size: PlanSize::new(Kind::House, 100),
        }),
        Ask::Retire(letter) => Request::Change(Command::Retire {
            plan: PlanName::read(&[*letter]).expect(rt, "no name"),
        }),
        Ask::Look => Request::Look(Query::Plans),
        Ask::Sweep => Request::Sweep,
    }
}

pub(crate) fn requests<R: Abort>(rt: &R, alloc: Global, asks: &[Ask]) -> Vec<Request> {
    let mut all = Vec::new(alloc);
    for ask in asks {
        all.push(request(rt, alloc, ask)).expect(rt, "no memory");
    }
    all
}

/// Which of the two plans a list names: 1 for the first, 2 for the second.
fn listed(reply: &Answer) -> Option<usize> {
    let Answer::Said(Reply::Plans(rows)) = reply else {
        return None;
    };
    let mut found = 0usize;
    for row in rows.as_slice() {
        let number = match row.name.as_slice() {
            b"a" => 1,
            b"b" => 2,
            _ => 0,
        };
        found = found.saturating_add(number);
    }
    Some(found)
}

/// Returns which of the two plans are named, if only a list was answered.
pub(crate) fn listed_alone(told: &Told) -> Option<usize> {
    let Ok(answers) = told else {
        return None;
    };
    match answers.as_slice() {
        [list] => listed(list),
        _ => None,
    }
}

/// The plans that exist after the first commands, by their number.
static PLANS: [usize; 4] = [0, 1, 3, 2];

/// Sums up a life: the number of commands acknowledged, whether each list names these plans, and
/// whether a row was swept.
fn summed(told: &Told, plans: usize) -> (usize, bool, bool) {
    let answers = match told {
        Ok(told) => told.as_slice(),
        Err(_) => &[],
    };
    let mut done = 0usize;
    let mut tells = true;
    let mut has_swept = false;
    for reply in answers {
        let is_done = matches!(
            reply,
            Answer::Said(Reply::Created { .. } | Reply::Retired { .. })
        );
        done = done.saturating_add(is_done as usize);
        tells &= listed(reply).unwrap_or(plans) == plans;
        has_swept |= matches!(reply, Answer::Swept(count) if *count > 0);
    }
    (done, tells, has_swept)
}

/// Returns what is answered in a life of a store, and what its crash leaves.
fn lived_once<R: Abort>(rt: &R, alloc: Global, off: Unplugged, asks: &[Ask]) -> (Told, Unplugged) {
    let asked = requests(rt, alloc, asks);
    let (told, device) = live_in(alloc, Plugged::start(off), asked).expect(rt, "no memory");
    (told, device.stop())
}

/// Returns what a new store answers in these lives, and what the last crash leaves.
pub(crate) fn lived<R: Abort>(
    rt: &R,
    alloc: Global,
    passing: Fuses,
    byte: Option<u8>,
    asks: &[&[Ask]],
) -> (Vec<Told>, Unplugged) {
    let picks = picks_of(rt, alloc, SECTORS, byte);
    let memory = MemoryDevice::new(alloc, SECTORS).expect(rt, "no memory");
    let mut device = Plugged::new(memory, passing, picks);
    format(alloc, &mut device, 256).expect(rt, "not formatted");
    let mut off = device.stop();
    let mut answers = Vec::new(alloc);
    for asked in asks {
        let (told, left) = lived_once(rt, alloc, off, asked);
        off = left;
        answers.push(told).expect(rt, "no memory");
    }
    (answers, off)
}

/// Returns the number of commands acknowledged, which plans exist in the last life, and whether a
/// row was swept.
fn found<R: Abort>(rt: &R, answers: &[Told]) -> (usize, usize, bool) {
    let [_, changed, swept, looked, last] = answers else {
        panic!(rt; "not five lives");
    };
    let there = listed_alone(last).expect(rt, "not listed");
    let (_, tells, has_swept) = summed(swept, there);
    holds!(rt; tells & summed(looked, there).1);
    (summed(changed, there).0, there, has_swept)
}

/// One setting: how many calls pass in each life, and what a stop leaves.
fn tried<R: Abort>(
    rt: &R,
    alloc: Global,
    passing: Fuses,
    byte: Option<u8>,
) -> (usize, usize, bool) {
    let (answers, _) = lived(rt, alloc, passing, byte, &LIVES);
    found(rt, answers.as_slice())
}

/// How many calls pass in each life, where the device fails at the call k of one of the first three, and soon in the fourth.
fn passing_in(life: usize, k: u64) -> Fuses {
    let soon = k % 17;
    match life {
        0 => [k, u64::MAX, u64::MAX, soon, u64::MAX],
        1 => [u64::MAX, k, u64::MAX, soon, u64::MAX],
        _ => [u64::MAX, u64::MAX, k, soon, u64::MAX],
    }
}

/// Tries each call of a life, the first of the lives being 0: how often exactly the acknowledged
/// commands were done, how often the command in flight was done too, and how often rows were swept.
fn tried_at_each<R: Abort>(
    rt: &R,
    alloc: Global,
    life: usize,
    calls: u64,
    byte: Option<u8>,
) -> (u32, u32, u32) {
    let mut alone = 0u32;
    let mut more = 0u32;
    let mut swept = 0u32;
    for k in 0..calls {
        let (done, there, has_swept) = tried(rt, alloc, passing_in(life, k), byte);
        let is_alone = there == PLANS[done.min(3)];
        holds!(rt; is_alone | (there == PLANS[done.saturating_add(1).min(3)]));
        alone = alone.saturating_add(is_alone as u32);
        more = more.saturating_add(!is_alone as u32);
        swept = swept.saturating_add(has_swept as u32);
    }
    (alone, more, swept)
}

/// For a life, the first being 0: the number of its calls that are tried, how often exactly what
/// was acknowledged was done, and how often rows are swept, each at least and at most. A load is
/// done or not. Acknowledged commands are done, and sometimes the command in flight. A sweep
/// deletes no plan.
static TRIED: [(usize, u64, [u32; 2], [u32; 2]); 3] = [
    (0, 90, [90, 90], [90, 90]),
    (1, 150, [1, 149], [1, 150]),
    (2, 100, [100, 100], [1, 99]),
];

#[test]
fn what_was_acknowledged_is_there(rt: HostRuntime) {
    let rt = &rt;
    for row in &TRIED {
        let (life, calls, alone, swept) = *row;
        for byte in &BYTES {
            let (found, more, rows) = tried_at_each(rt, rt.alloc(), life, calls, *byte);
            let is_alone = (alone[0] <= found) & (found <= alone[1]);
            let has_swept = (swept[0] <= rows) & (rows <= swept[1]);
            holds!(rt; (found.saturating_add(more) as u64 == calls) & is_alone & has_swept);
        }
    }
}
