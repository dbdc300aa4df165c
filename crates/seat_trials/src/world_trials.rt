//! A world of the sample's catalogue: what visitors are answered, event by event.
use desk_model::command::{Command, Query};
use desk_model::geography::sample;
use desk_model::kind::Kind;
use desk_model::name::PlanName;
use desk_model::reply::{PlanRow, Refusal, Reply};
use desk_model::size::PlanSize;
use desk_model::text::Text;
use desk_store_catalogue::catalogue::Catalogue;
use desk_theorem::event::Event;
use desk_theorem::world::World;
use std::alloc::Global;
use std::process::Abort;
use std::sync::Arc;

/// The sample's desk with a number of visitors.
fn world_of_sample<R: Abort>(rt: &R, alloc: Global, visitors: usize) -> World {
    let sample = sample(alloc).expect(rt, "no memory");
    let geography = Arc::new(alloc, sample).expect(rt, "no memory");
    let first = Arc::new(alloc, Catalogue::new(Some(geography))).expect(rt, "no memory");
    World::new(alloc, first, visitors).expect(rt, "no memory")
}

fn named<R: Abort>(rt: &R, text: &str) -> PlanName {
    PlanName::read(text.as_bytes()).expect(rt, "no name")
}

/// A plan for congress with two districts.
fn create<R: Abort>(rt: &R, text: &str) -> Command {
    Command::Create {
        plan: named(rt, text),
        size: PlanSize::new(Kind::Congress, 2),
    }
}

/// Whether this is plan a, as it was made.
fn is_first(row: &PlanRow) -> bool {
    row.name.as_slice() == b"a".as_slice()
        && row.kind == Kind::Congress
        && row.n == 2
        && row.revisions == 0
}

/// How many plans are listed, the first of which is plan a; a hundred, where it isn't.
fn count_of(rows: &[PlanRow]) -> usize {
    match rows.first() {
        Some(row) if !is_first(row) => 100,
        _ => rows.len(),
    }
}

/// Moves by an event without a reply.
fn goes<R: Abort>(rt: &R, alloc: Global, world: &mut World, event: Event) {
    holds!(rt; world.step(alloc, event).is_none());
}

/// How many plans a visitor is shown, the same.
fn plans_seen(alloc: Global, world: &mut World, visitor: u64) -> usize {
    let visit = Event::Visit {
        visitor,
        query: Query::Plans,
    };
    match world.step(alloc, visit) {
        Some(Reply::Plans(rows)) => count_of(rows.as_slice()),
        _ => 100,
    }
}

/// A step of a story: an event without a reply, or what a visitor is shown.
enum Step {
    /// A plan for congress with two districts is committed.
    Creates(&'static str),
    Acknowledge,
    Show,
    /// A crash keeps this number of changes.
    Stop(u64),
    /// A visitor is shown this number of plans, the first of which is plan a.
    Sees(u64, usize),
}

static ONE_VISITOR: [Step; 4] = [
    Step::Creates("a"),
    Step::Acknowledge,
    Step::Show,
    Step::Sees(0, 1),
];

static TWO_VISITORS: [Step; 12] = [
    Step::Creates("a"),
    Step::Sees(0, 0),
    Step::Acknowledge,
    Step::Sees(0, 0),
    Step::Show,
    Step::Sees(1, 1),
    Step::Creates("a"),
    Step::Creates("b"),
    Step::Creates("c"),
    Step::Acknowledge,
    Step::Show,
    Step::Sees(0, 2),
];

static STOPS: [Step; 16] = [
    Step::Creates("a"),
    Step::Acknowledge,
    Step::Show,
    Step::Creates("b"),
    Step::Stop(0),
    Step::Sees(0, 1),
    Step::Stop(3),
    Step::Stop(2),
    Step::Sees(0, 2),
    Step::Creates("c"),
    Step::Stop(2),
    Step::Sees(0, 2),
    Step::Creates("d"),
    Step::Acknowledge,
    Step::Show,
    Step::Sees(0, 3),
];

/// Takes a step.
fn takes<R: Abort>(rt: &R, alloc: Global, world: &mut World, step: &Step) {
    let event = match step {
        Step::Creates(name) => Event::Commit(create(rt, name)),
        Step::Acknowledge => Event::Acknowledge,
        Step::Show => Event::Show,
        Step::Stop(kept) => Event::Stop { kept: *kept },
        Step::Sees(visitor, count) => {
            holds!(rt; plans_seen(alloc, world, *visitor) == *count);
            return;
        }
    };
    goes(rt, alloc, world, event);
}

/// Takes the steps of a story from the sample's desk on.
fn goes_through<R: Abort>(rt: &R, alloc: Global, visitors: usize, steps: &[Step]) {
    let mut world = world_of_sample(rt, alloc, visitors);
    for step in steps {
        takes(rt, alloc, &mut world, step);
    }
}

#[test]
fn world_steps(rt: HostRuntime) {
    goes_through(&rt, rt.alloc(), 1, &ONE_VISITOR);
}

#[test]
fn changes_are_shown_last(rt: HostRuntime) {
    goes_through(&rt, rt.alloc(), 2, &TWO_VISITORS);
}

#[test]
fn stops_keep_what_is_acknowledged(rt: HostRuntime) {
    goes_through(&rt, rt.alloc(), 1, &STOPS);
}

/// The sample's counties, each in a district of its own.
const COUNTIES: &str =
    "BLOCKID|DISTRICT\n190010001001001|01\n190010001001002|01\n190030001001001|02\n190030001001002|02\n";
/// County 003 in district 1.
const PATCH: &str = "BLOCKID|DISTRICT\n190030001001001|01\n190030001001002|01\n";
/// Both counties in district 1.
const PATCHED: &str =
    "BLOCKID|DISTRICT\n190010001001001|01\n190010001001002|01\n190030001001001|01\n190030001001002|01\n";

/// What the revisions of the plan and of its fork read as once the fork was changed.
static READ: [(&str, u32, &str); 4] = [
    ("b", 2, PATCHED),
    ("b", 1, COUNTIES),
    ("a", 1, COUNTIES),
    ("a", 2, ""),
];

fn text_of<R: Abort>(rt: &R, alloc: Global, text: &str) -> Text {
    let mut bytes = Vec::new(alloc);
    bytes
        .extend_from_slice(text.as_bytes())
        .expect(rt, "no memory");
    Text::from_vec(bytes)
}

/// A change that is acknowledged and shown.
fn changes<R: Abort>(rt: &R, alloc: Global, world: &mut World, command: Command) {
    goes(rt, alloc, world, Event::Commit(command));
    goes(rt, alloc, world, Event::Acknowledge);
    goes(rt, alloc, world, Event::Show);
}

/// Revision `k` of a plan reads so to the first visitor.
fn reads<R: Abort>(rt: &R, alloc: Global, world: &mut World, plan: &str, k: u32, text: &str) {
    let visit = Event::Visit {
        visitor: 0,
        query: Query::Revision {
            plan: named(rt, plan),
            k,
        },
    };
    let reply = world.step(alloc, visit);
    let is_so = match &reply {
        Some(Reply::Baf(told)) => told.as_slice() == text.as_bytes(),
        Some(Reply::Refused(Refusal::NoRevision)) => text.is_empty(),
        _ => false,
    };
    holds!(rt; is_so);
}

/// Keeps both counties as the first revision of a plan, and forks it.
fn make_fork<R: Abort>(rt: &R, alloc: Global, world: &mut World) {
    changes(rt, alloc, world, create(rt, "a"));
    let whole = Command::Whole {
        plan: named(rt, "a"),
        after: 0,
        body: text_of(rt, alloc, COUNTIES),
    };
    changes(rt, alloc, world, whole);
    let fork = Command::Fork {
        plan: named(rt, "b"),
        from: (named(rt, "a"), 1),
    };
    changes(rt, alloc, world, fork);
}

#[test]
fn forks_change_alone(rt: HostRuntime) {
    let rt = &rt;
    let alloc = rt.alloc();
    let mut world = world_of_sample(rt, alloc, 1);
    make_fork(rt, alloc, &mut world);
    reads(rt, alloc, &mut world, "b", 1, COUNTIES);
    let patch = Command::Counties {
        plan: named(rt, "b"),
        after: 1,
        body: text_of(rt, alloc, PATCH),
    };
    changes(rt, alloc, &mut world, patch);
    for row in &READ {
        let (plan, k, text) = *row;
        reads(rt, alloc, &mut world, plan, k, text);
    }
}
