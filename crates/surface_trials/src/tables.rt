//! The rows of a store: a geography that is loaded, a plan with revisions, and chunks.
ghost use Rattle.std.specs.Prelude.{◌≡◌, length};
ghost use Rattle.page_store.specs.claim.Transactions.{count_of, txn_pages};

use crate::samples::{COUNTY_PLAN, PATCH, named, sample_state, shared_sample};
use baf_text::read;
use chunk_table::{get_chunk, put_chunk};
use desk_model::geography::Geography;
use desk_model::kind::Kind;
use desk_model::name::PlanName;
use desk_model::size::PlanSize;
use desk_store::format;
use desk_store_catalogue::Districts;
use geo_tables::{begin_load, geography, load_batch, seal};
use page_store::{Pages, Txn};
use plan_revisions::{
    ChangeOutcome, add_counties, add_whole, create, retire, revision, sweep_step,
};
use sector_memory::{Fused, MemoryDevice};
use std::alloc::Global;
use std::process::Abort;

/// The pages of a new store with 400 sectors. Its device could stop, so that pages are compiled for one type of device.
fn new_pages<R: Abort>(rt: &R, alloc: Global) -> Pages<Fused> {
    let device = MemoryDevice::new(alloc, 400).expect(rt, "no memory");
    let mut device = Fused::new(device, u64::MAX);
    holds!(rt; format(alloc, &mut device, 256).is_ok());
    Pages::open(alloc, device).ok().expect(rt, "not opened")
}

/// The pages of a store with the sample geography.
fn sealed_pages<R: Abort>(rt: &R, alloc: Global) -> Pages<Fused> {
    let mut pages = new_pages(rt, alloc);
    let mut load = begin_load(alloc, &mut pages, shared_sample(rt, alloc)).expect(rt, "not begun");
    assert!(rt; load.left() == 8);
    holds!(rt; load_batch(alloc, &mut pages, &mut load, 8) == Ok(0));
    assert!(rt; load.left() == 0);
    holds!(rt; seal(alloc, &mut pages, load).is_ok());
    pages
}

/// How many blocks and pairs the sealed geography has, if there is one.
fn size_of_sealed<R: Abort>(
    rt: &R,
    alloc: Global,
    pages: &mut Pages<Fused>,
) -> Option<(usize, usize)> {
    let txn = pages.begin(alloc);
    let found = geography(alloc, &txn, pages).expect(rt, "not read")?;
    Some((found.blocks().len(), found.pairs().len()))
}

#[test]
fn a_geography_is_sealed(rt: HostRuntime) {
    let rt = &rt;
    let alloc = rt.alloc();
    let mut new = new_pages(rt, alloc);
    let mut sealed = sealed_pages(rt, alloc);
    let none = size_of_sealed(rt, alloc, &mut new);
    holds!(rt; (none == None) & (size_of_sealed(rt, alloc, &mut sealed) == Some((4, 4))));
}

#[test]
fn a_chunk_is_put_and_read(rt: HostRuntime) {
    let rt = &rt;
    let alloc = rt.alloc();
    let mut pages = new_pages(rt, alloc);
    let mut txn = pages.begin(alloc);
    let first = put_chunk(&mut txn, &mut pages, &[1, 2]).expect(rt, "not put");
    let second = put_chunk(&mut txn, &mut pages, &[3, 0, 3]).expect(rt, "not put");
    let id = second.expect(rt, "no number");
    holds!(rt; first.is_some() & (first != second));
    let mut districts = Vec::new(alloc);
    holds!(rt; get_chunk(&txn, &mut pages, id, 3, &mut districts).is_ok());
    holds!(rt; districts.as_slice() == [3, 0, 3].as_slice());
}

/// Makes a plan for congress with the county plan as its first revision, and a patch of county 003 as its second.
fn revise<R: Abort>(
    rt: &R,
    alloc: Global,
    txn: &mut Txn,
    pages: &mut Pages<Fused>,
    state: &Geography,
    name: &PlanName,
)
    requires begun { txn_pages txn.old ≡ count_of pages.old }
    requires four { length state.now.blocks ≡ 4 }
    ensures { txn_pages txn.new ≡ count_of pages.new }
{
    let size = PlanSize::new(Kind::Congress, 2);
    holds!(rt; create(txn, pages, name, size) == Ok(ChangeOutcome::Made));
    let whole = Districts::new(alloc, &COUNTY_PLAN, None).expect(rt, "no memory");
    let added = add_whole(alloc, txn, pages, state, name, None, &whole);
    holds!(rt; added == Ok(ChangeOutcome::Made));
    let listed = read(alloc, PATCH, state, 2).ok().expect(rt, "not read");
    assert!(rt; listed.len() == 4);
    let added = add_counties(alloc, txn, pages, state, name, Some(&whole), &listed);
    holds!(rt; added == Ok(ChangeOutcome::Made));
}

/// Commits a transaction.
fn commit<R: Abort>(rt: &R, txn: Txn, pages: &mut Pages<Fused>)
    requires { txn_pages txn ≡ count_of pages.old }
{
    let ready = txn.prepare().expect(rt, "not prepared");
    holds!(rt; ready.commit(pages).is_ok());
}

/// Asserts that the plan's revisions have their districts.
fn is_revised<R: Abort>(
    rt: &R,
    alloc: Global,
    pages: &mut Pages<Fused>,
    state: &Geography,
    name: &PlanName,
) {
    let txn = pages.begin(alloc);
    let first = revision(alloc, &txn, pages, state, name, 1).expect(rt, "not read");
    let second = revision(alloc, &txn, pages, state, name, 2).expect(rt, "not read");
    holds!(rt; first.as_slice() == COUNTY_PLAN.as_slice());
    holds!(rt; second.as_slice() == [1, 1, 1, 1].as_slice());
}

/// A deleted plan leaves three chunks, each with a piece, a holding and a count, two lists of chunks and a mark. A step of a sweep
/// ends the holdings, and the next ones remove the other rows.
#[test]
fn a_plan_is_revised_deleted_and_swept(rt: HostRuntime) {
    let rt = &rt;
    let alloc = rt.alloc();
    let mut pages = sealed_pages(rt, alloc);
    let state = sample_state(rt, alloc);
    let name = named(rt, b"a");
    let mut txn = pages.begin(alloc);
    revise(rt, alloc, &mut txn, &mut pages, &state, &name);
    commit(rt, txn, &mut pages);
    is_revised(rt, alloc, &mut pages, &state, &name);
    let mut txn = pages.begin(alloc);
    holds!(rt; retire(&mut txn, &mut pages, &name).is_ok());
    commit(rt, txn, &mut pages);
    let mut rows = 0usize;
    for _ in 0..4u8 {
        let swept = sweep_step(alloc, &mut pages, None);
        rows = rows.saturating_add(swept.expect(rt, "not swept"));
    }
    holds!(rt; (rows == 12) & (sweep_step(alloc, &mut pages, None) == Ok(0)));
}
