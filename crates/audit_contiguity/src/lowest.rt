//! The two lowest roots of each district.
ghost use Rattle.std.specs.Prelude.{◌≡◌, ◌+◌, ◌-◌, length, replicate, IfOk};
ghost use Rattle.audit_contiguity.specs.Lowest.{AreBeside, noted, AreAllLowest};
ghost use Rattle.audit_contiguity.specs.declared.lowest.Lowest.TheVariants.{Zero as none};

use std::alloc::{AllocError, Global};

/// The lowest roots of a district, no more than two.
#[derive(Clone, Copy)]
pub enum Lowest {
    Zero,
    One(u32),
    Two(u32, u32),
}

impl Lowest {
    fn with(self, place: u32) -> Lowest
        ensures { result ≡ noted self place }
    {
        match self {
            Lowest::Zero => Lowest::One(place),
            Lowest::One(least) => Lowest::Two(least, place),
            Lowest::Two(least, next) => Lowest::Two(least, next),
        }
    }
}

/// Notes the roots of the districts, of which the first is `first`.
fn note_roots(parents: &[u32], plan: &[u16], first: u16, lowest: &mut [Lowest])
    requires beside { AreBeside parents.now plan.now }
    requires none { lowest.old ≡ replicate (length lowest.old) none }
    ensures { AreAllLowest parents.now plan.now (length plan.now) first (length lowest.old) lowest.new }
{
    for (i, parent) in parents.iter().enumerate() {
        if *parent as usize == i && first <= plan[i] {
            let district = (plan[i] - first) as usize;
            if district < lowest.len() {
                lowest[district] = lowest[district].with(i as u32);
            }
        }
    }
}

/// The lowest roots of the districts from `first` to `last`.
pub fn lowest_roots(
    alloc: Global,
    parents: &[u32],
    plan: &[u16],
    first: u16,
    last: u16,
) -> Result<Vec<Lowest>, AllocError>
    requires { AreBeside parents.now plan.now }
    ensures { IfOk result (λ v. AreAllLowest parents.now plan.now (length plan.now) first (last + 1 - first) v.items) }
{
    let count = (last as usize + 1).saturating_sub(first as usize);
    let mut lowest = vec![in alloc; Lowest::Zero; count]?;
    note_roots(parents, plan, first, lowest.as_mut_slice());
    Ok(lowest)
}
