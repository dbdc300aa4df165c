//! The people of districts and of the state.
ghost use Rattle.std.specs.Prelude.{◌≡◌, length, replicate, IfOk};
ghost use Rattle.desk_model.specs.claim.GeographyModels.{AreBlocks};
ghost use Rattle.audit_population.specs.claim.People.{state_people};
ghost use Rattle.audit_population.specs.People.{ArePeopleOf};

use desk_model::block::BlockRow;
use desk_model::geography::Geography;
use std::alloc::{AllocError, Global};

/// The people of a state and of a plan's districts.
#[derive(Drop)]
pub struct StatePeople {
    /// The people of districts 1 to the last. Blocks with another district are not counted.
    pub districts: Vec<u32>,
    /// The people of the state, whether a district has them or not.
    pub state: u32,
}

/// The people of the state and of districts 1 to `count`.
pub fn populations(
    alloc: Global,
    geography: &Geography,
    count: u16,
    plan: &[u16],
) -> Result<StatePeople, AllocError>
    requires { length plan.now ≡ length geography.now.blocks }
    ensures { IfOk result (λ p. ArePeopleOf geography.now.blocks plan.now count p.districts.items p.state) }
{
    let mut districts = vec![in alloc; 0u32; count as usize]?;
    let state = count_people(geography.blocks(), plan, districts.as_mut_slice());
    Ok(StatePeople { districts, state })
}

/// The people of the state, whether a district has them or not.
pub fn total(geography: &Geography) -> u32
    ensures { result ≡ state_people geography.now.blocks }
{
    let blocks = geography.blocks();
    let mut people = 0;
    for block in blocks {
        people += block.population;
    }
    people
}

/// Adds each block's people to those of its district, of which the first is district 1: the people of all blocks.
fn count_people(blocks: &[BlockRow], plan: &[u16], people: &mut [u32]) -> u32
    requires blocks { AreBlocks blocks.now }
    requires beside { length plan.now ≡ length blocks.now }
    requires none { people.old ≡ replicate (length people.old) 0 }
    ensures { ArePeopleOf blocks.now plan.now (length people.old) people.new result }
{
    let mut state = 0;
    for (i, block) in blocks.iter().enumerate() {
        state += block.population;
        let district = plan[i] as usize;
        if 1 <= district && district <= people.len() {
            people[district - 1] += block.population;
        }
    }
    state
}
