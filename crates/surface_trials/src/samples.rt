//! The sample geography, and plans of it: the district of each of the blocks a, b, c and d.
ghost use Rattle.std.specs.Prelude.{◌≡◌, length};

use desk_model::geography::{Geography, sample};
use desk_model::name::PlanName;
use std::alloc::Global;
use std::process::Abort;
use std::sync::Arc;

/// Each county in a district of its own.
pub const COUNTY_PLAN: [u16; 4] = [1, 1, 2, 2];

/// Blocks a and d in district 1, blocks b and c in district 2.
pub const DIAGONAL: [u16; 4] = [1, 2, 2, 1];

/// The county plan as a block assignment file of a plan for congress.
pub const COUNTY_BODY: &[u8] =
    b"BLOCKID|DISTRICT\n190010001001001|01\n190010001001002|01\n190030001001001|02\n190030001001002|02\n";

/// County 003 in district 1.
pub const PATCH: &[u8] = b"BLOCKID|DISTRICT\n190030001001001|1\n190030001001002|1\n";

/// The county plan with that patch.
pub const PATCHED: &[u8] =
    b"BLOCKID|DISTRICT\n190010001001001|01\n190010001001002|01\n190030001001001|01\n190030001001002|01\n";

pub fn sample_state<R: Abort>(rt: &R, alloc: Global) -> Geography
    ensures { length result.blocks ≡ 4 }
{
    let state = sample(alloc).expect(rt, "no memory");
    assert!(rt; state.blocks().len() == 4);
    state
}

pub fn shared_sample<R: Abort>(rt: &R, alloc: Global) -> Arc<Geography> {
    Arc::new(alloc, sample_state(rt, alloc)).expect(rt, "no memory")
}

pub fn named<R: Abort>(rt: &R, name: &[u8]) -> PlanName {
    PlanName::read(name).expect(rt, "no name")
}
