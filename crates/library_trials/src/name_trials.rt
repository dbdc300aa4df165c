//! Plans by their names, of three digits.
use desk_model::kind::Kind;
use desk_model::name::PlanName;
use desk_model::size::PlanSize;
use desk_store_plans::entry::Entry;
use desk_store_plans::plans::Plans;
use std::alloc::Global;
use std::process::Abort;

/// The plans have the numbers below this one, which 37 does not divide.
const COUNT: u16 = 500;

fn numbered<R: Abort>(rt: &R, number: u16) -> PlanName {
    let digits = [
        b'0' + (number / 100 % 10) as u8,
        b'0' + (number / 10 % 10) as u8,
        b'0' + (number % 10) as u8,
    ];
    PlanName::read(&digits).expect(rt, "no name")
}

/// The plans in a shuffled order.
fn created<R: Abort>(rt: &R, alloc: Global) -> Plans {
    let mut plans = Plans::new();
    for i in 0..COUNT {
        let name = numbered(rt, (i as u32 * 37 % COUNT as u32) as u16);
        assert!(rt; plans.get(&name).is_none() && plans.len() < 65_535);
        let entry = Entry::new(name, PlanSize::new(Kind::Senate, 50));
        plans = plans.insert(alloc, entry).expect(rt, "no memory");
    }
    plans
}

/// How many plans are listed, each after a lower name.
fn rising<R: Abort>(rt: &R, alloc: Global, plans: &Plans) -> usize {
    let rows = plans.rows(alloc).expect(rt, "no memory");
    let rows = rows.as_slice();
    for place in 1..rows.len() {
        holds!(rt; rows[place - 1].name < rows[place].name);
    }
    rows.len()
}

#[test]
fn plans_rise_by_name(rt: HostRuntime) {
    let rt = &rt;
    let plans = created(rt, rt.alloc());
    holds!(rt; (plans.len() == 500) & (rising(rt, rt.alloc(), &plans) == 500));
}

/// The plans without one of them.
fn without<R: Abort>(rt: &R, alloc: Global, plans: &Plans, name: &PlanName) -> Plans {
    assert!(rt; plans.get(name).is_some());
    let left = plans.remove(alloc, name).expect(rt, "no memory");
    holds!(rt; left.get(name).is_none());
    left
}

#[test]
fn a_plan_is_taken_away(rt: HostRuntime) {
    let rt = &rt;
    let mut plans = created(rt, rt.alloc());
    for number in 0..COUNT / 2 {
        plans = without(rt, rt.alloc(), &plans, &numbered(rt, number * 2));
        holds!(rt; plans.get(&numbered(rt, number * 2 + 1)).is_some());
    }
    holds!(rt; rising(rt, rt.alloc(), &plans) == 250);
}

/// The plans with one more revision of a plan: its number of revisions in each of four blocks.
fn revised<R: Abort>(rt: &R, alloc: Global, plans: &Plans, name: &PlanName) -> Plans {
    let entry = plans.get(name).expect(rt, "no plan");
    let count = entry.count();
    assert!(rt; count < 1_000);
    let districts = vec![in alloc; count as u16; 4].expect(rt, "no memory");
    let entry = entry.revised(alloc, &districts).expect(rt, "no memory");
    assert!(rt; plans.get(entry.name()).is_some());
    plans.replace(alloc, entry).expect(rt, "no memory")
}

/// Whether a revision of a plan has these districts.
fn is_revision<R: Abort>(rt: &R, alloc: Global, entry: &Entry, k: u32, list: &[u16]) -> bool {
    let districts = entry.revision(k).expect(rt, "no revision");
    let all = districts.to_vec(alloc).expect(rt, "no memory");
    all.as_slice() == list
}

/// The plans with forty revisions of a plan.
fn revised_40<R: Abort>(rt: &R, alloc: Global, name: &PlanName) -> Plans {
    let mut plans = created(rt, alloc);
    for _ in 0..40u8 {
        plans = revised(rt, alloc, &plans, name);
    }
    plans
}

/// Asserts that a plan has forty revisions, of which the first and the last have the districts that they were given.
fn has_40<R: Abort>(rt: &R, alloc: Global, plans: &Plans, name: &PlanName) {
    let entry = plans.get(name).expect(rt, "no plan");
    let all = (entry.count() == 40) & entry.revision(41).is_none();
    let first = is_revision(rt, alloc, entry, 1, &[0, 0, 0, 0]);
    holds!(rt; all & first & is_revision(rt, alloc, entry, 40, &[39, 39, 39, 39]));
}

#[test]
fn revisions_are_kept(rt: HostRuntime) {
    let rt = &rt;
    let name = numbered(rt, 123);
    let plans = revised_40(rt, rt.alloc(), &name);
    has_40(rt, rt.alloc(), &plans, &name);
    let other = plans.get(&numbered(rt, 124)).expect(rt, "no plan");
    holds!(rt; other.count() == 0);
}
