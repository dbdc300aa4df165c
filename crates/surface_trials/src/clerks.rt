//! The desk in memory, and the clerk who keeps it in a store.
use crate::samples::{COUNTY_BODY, PATCH, PATCHED, named, shared_sample};
use crate::stores::{new_clerk, sealed_clerk};
use desk_model::command::{Command, Query};
use desk_model::kind::Kind;
use desk_model::reply::{PlanRow, Refusal, Reply};
use desk_model::size::PlanSize;
use desk_model::text::Text;
use desk_store::{Catalogue, Clerk};
use sector_memory::Fused;
use std::alloc::Global;
use std::process::Abort;

/// What `GET /blocks` answers.
const BLOCKS: &[u8] =
    b"BLOCKID|PLACE|POPULATION\n190010001001001|00100|505\n190010001001002|00100|505\n190030001001001|00100|495\n190030001001002||495\n";

/// The report on the county plan as a plan for congress.
const REPORT: &[u8] =
    b"{\"broken\":[],\"cities\":[\"00100\"],\"cities_in_county\":[],\"congress\":[],\"contiguity\":[],\"counties\":[],\"districts\":2,\"divided_by_congress\":null,\"kind\":\"congress\",\"nesting\":[],\"not_asked\":[],\"population\":2000,\"populations\":[1010,990],\"range\":null,\"unassigned\":0}";

/// The command that makes a plan for congress.
fn create<R: Abort>(rt: &R, name: &[u8]) -> Command {
    Command::Create {
        plan: named(rt, name),
        size: PlanSize::new(Kind::Congress, 2),
    }
}

fn text_of<R: Abort>(rt: &R, alloc: Global, text: &[u8]) -> Text {
    let mut bytes = Vec::new(alloc);
    bytes.extend_from_slice(text).expect(rt, "no memory");
    Text::from_vec(bytes)
}

/// The county plan as the first revision of plan a.
fn county_revision<R: Abort>(rt: &R, alloc: Global) -> Command {
    Command::Whole {
        plan: named(rt, b"a"),
        after: 0,
        body: text_of(rt, alloc, COUNTY_BODY),
    }
}

/// Whether a plan of the list is for congress, and has this name and this number of revisions.
fn is_row(row: &PlanRow, name: &[u8], revisions: u32) -> bool {
    (row.name.as_slice() == name)
        & (row.kind == Kind::Congress)
        & (row.n == 2)
        & (row.revisions == revisions)
}

/// Whether just plan a is listed, with this number of revisions; with none, whether no plan is listed.
fn lists(reply: &Reply, revisions: Option<u32>) -> bool {
    match (reply, revisions) {
        (Reply::Plans(rows), None) => rows.as_slice().is_empty(),
        (Reply::Plans(rows), Some(count)) => match rows.as_slice() {
            [row] => is_row(row, b"a", count),
            _ => false,
        },
        _ => false,
    }
}

/// Whether plan a now has this number of revisions.
fn is_made(reply: &Reply, count: u32) -> bool {
    match reply {
        Reply::Created { plan, revisions } => {
            (plan.as_slice() == b"a".as_slice()) & (*revisions == count)
        }
        _ => false,
    }
}

/// Whether plan a was deleted.
fn is_deleted(reply: &Reply) -> bool {
    match reply {
        Reply::Retired { plan } => plan.as_slice() == b"a".as_slice(),
        _ => false,
    }
}

/// The first revision of plan a.
fn first_revision<R: Abort>(rt: &R) -> Query {
    Query::Revision {
        plan: named(rt, b"a"),
        k: 1,
    }
}

/// The audit of the first revision of plan a.
fn first_audit<R: Abort>(rt: &R) -> Query {
    Query::Audit {
        plan: named(rt, b"a"),
        k: 1,
        senate: None,
        congress: None,
    }
}

#[test]
fn a_catalogue_answers_after_commands(rt: HostRuntime) {
    let rt = &rt;
    let alloc = rt.alloc();
    let none = Catalogue::new(None).ask(alloc, Query::Blocks);
    holds!(rt; matches!(none, Reply::Refused(Refusal::NotSealed)));
    let first = Catalogue::new(Some(shared_sample(rt, alloc)));
    let blocks = first.ask(alloc, Query::Blocks);
    holds!(rt; matches!(&blocks, Reply::Blocks(text) if text.as_slice() == BLOCKS));
    let second = first.after(alloc, &create(rt, b"a"));
    let second = second.ok().expect(rt, "refused");
    holds!(rt; lists(&first.ask(alloc, Query::Plans), None));
    holds!(rt; lists(&second.ask(alloc, Query::Plans), Some(0)));
    let again = second.after(alloc, &create(rt, b"a")).err();
    holds!(rt; matches!(again, Some(Refusal::PlanExists)));
    let third = second.after(alloc, &county_revision(rt, alloc));
    let third = third.ok().expect(rt, "refused");
    let told = third.ask(alloc, first_revision(rt));
    holds!(rt; matches!(&told, Reply::Baf(text) if text.as_slice() == COUNTY_BODY));
    let report = third.ask(alloc, first_audit(rt));
    holds!(rt; matches!(&report, Reply::Audited(text) if text.as_slice() == REPORT));
}

/// Prepares plan a and lets go of it, then makes it by calls of their own.
fn make<R: Abort>(rt: &R, alloc: Global, clerk: &mut Clerk<Fused>) {
    drop(clerk.prepare(alloc, create(rt, b"a")).ok());
    holds!(rt; lists(&clerk.ask(alloc, Query::Plans), None));
    let Ok(ready) = clerk.prepare(alloc, create(rt, b"a")) else {
        panic!(rt; "refused");
    };
    holds!(rt; is_made(&ready.reply(), 0));
    let change = ready.change().expect(rt, "no memory");
    holds!(rt; matches!(change.command(), Command::Create { .. }));
    let after = change.after().expect(rt, "no memory");
    holds!(rt; lists(&after.ask(alloc, Query::Plans), Some(0)));
    holds!(rt; lists(&clerk.ask(alloc, Query::Plans), None));
    holds!(rt; is_made(&ready.commit(clerk), 0));
}

/// Revises plan a twice: the county plan, and county 003 in district 1.
fn revise<R: Abort>(rt: &R, alloc: Global, clerk: &mut Clerk<Fused>) {
    holds!(rt; is_made(&clerk.command(alloc, county_revision(rt, alloc)), 1));
    let stale = clerk.command(alloc, county_revision(rt, alloc));
    holds!(rt; matches!(stale, Reply::Refused(Refusal::Stale { current: 1 })));
    let patch = Command::Counties {
        plan: named(rt, b"a"),
        after: 1,
        body: text_of(rt, alloc, PATCH),
    };
    holds!(rt; is_made(&clerk.command(alloc, patch), 2));
}

/// Asserts that both revisions of plan a read as they were sent.
fn is_revised<R: Abort>(rt: &R, alloc: Global, clerk: &Clerk<Fused>) {
    let first = clerk.ask(alloc, first_revision(rt));
    let plan = named(rt, b"a");
    let second = clerk.ask(alloc, Query::Revision { plan, k: 2 });
    holds!(rt; matches!(&first, Reply::Baf(text) if text.as_slice() == COUNTY_BODY));
    holds!(rt; matches!(&second, Reply::Baf(text) if text.as_slice() == PATCHED));
}

#[test]
fn a_clerk_keeps_a_plan(rt: HostRuntime) {
    let rt = &rt;
    let alloc = rt.alloc();
    let mut clerk = sealed_clerk(rt, alloc);
    holds!(rt; (clerk.journal_pages() == 256) & !clerk.halted());
    let free = clerk.free_pages();
    make(rt, alloc, &mut clerk);
    revise(rt, alloc, &mut clerk);
    is_revised(rt, alloc, &clerk);
    let shown = clerk.published().expect(rt, "no memory");
    holds!(rt; lists(&shown.ask(alloc, Query::Plans), Some(2)));
    holds!(rt; clerk.free_pages() <= free);
    let device = clerk.into_device();
    let mut clerk = Clerk::open(alloc, device).ok().expect(rt, "not opened");
    is_revised(rt, alloc, &clerk);
    let plan = named(rt, b"a");
    let gone = clerk.command(alloc, Command::Retire { plan });
    holds!(rt; is_deleted(&gone));
    holds!(rt; clerk.sweep_step(alloc).is_ok());
}

#[test]
fn a_clerk_without_geography_takes_no_plan(rt: HostRuntime) {
    let rt = &rt;
    let mut clerk = new_clerk(rt, rt.alloc());
    let told = clerk.command(rt.alloc(), create(rt, b"a"));
    holds!(rt; matches!(told, Reply::Refused(Refusal::NotSealed)));
}
