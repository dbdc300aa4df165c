//! The clauses: of the mean, of the range, and of a district of the congress.
ghost use Rattle.std.specs.Prelude.{◌≡◌, ◌<◌, ◌≤◌, ◌*◌, ◌^◌, ◌↔◌, length, IfOk, MatchOption, IsTrue, nat_lt};
ghost use Rattle.std.specs.List.{IsFirstBest};
ghost use Rattle.audit_population.specs.claim.Clauses.{deviation, MeanBreaks, RangeBreaks, AreExtremes, deviating_districts};
ghost use Rattle.audit_population.specs.Counts.{IsCount};

use std::alloc::{AllocError, Global};

/// A plan has at most this many districts.
pub const DISTRICT_LIMIT: usize = 999;

/// Two districts, by their numbers from 1.
#[derive(Clone, Copy)]
pub struct Extremes {
    pub most: u16,
    pub least: u16,
}

/// `count` times how far a district's people are from the ideal.
fn deviation_of(count: u64, people: u32, total: u32) -> u64
    requires { count ≤ DISTRICT_LIMIT }
    ensures value { result ≡ deviation count total people }
    ensures small { result < 999 * 2 ^ 32 }
{
    (count * people as u64).abs_diff(total as u64)
}

/// Whether the mean of the districts' deviations is more than one percent of the ideal, by the districts' people
/// and the state's: Iowa Code 42.4(1)a.
pub fn mean_breaks(populations: &[u32], total: u32) -> bool
    requires { length populations.now ≤ DISTRICT_LIMIT }
    ensures { IsTrue result ↔ MeanBreaks populations.now total }
{
    let count = populations.len() as u64;
    let mut sum = 0u64;
    for people in populations {
        sum += deviation_of(count, *people, total);
    }
    100 * sum > count * total as u64
}

/// The place of the first district with the most people.
fn first_most(populations: &[u32]) -> usize
    requires { 0 < length populations.now }
    ensures { IsFirstBest (λ a b. nat_lt b a) populations.now (length populations.now) result }
{
    let mut best = 0;
    for i in 1..populations.len() {
        if populations[i] > populations[best] {
            best = i;
        }
    }
    best
}

/// The place of the first district with the fewest people.
fn first_least(populations: &[u32]) -> usize
    requires { 0 < length populations.now }
    ensures { IsFirstBest nat_lt populations.now (length populations.now) result }
{
    let mut best = 0;
    for i in 1..populations.len() {
        if populations[i] < populations[best] {
            best = i;
        }
    }
    best
}

/// The first of the most and the first of the least populous districts, where some district has more than five
/// percent more people than another, the smaller: Iowa Code 42.4(1)a.
pub fn range_breaks(populations: &[u32]) -> Option<Extremes>
    requires { IsCount (length populations.now) }
    ensures { MatchOption result (¬ RangeBreaks populations.now) (AreExtremes populations.now) }
{
    let most = first_most(populations);
    let least = first_least(populations);
    if 20 * populations[most] as u64 > 21 * populations[least] as u64 {
        Some(Extremes {
            most: most as u16 + 1,
            least: least as u16 + 1,
        })
    } else {
        None
    }
}

/// The districts that deviate from the ideal by more than one percent, rising, by the districts' people and the
/// state's: Iowa Code 42.4(1)b.
pub fn congress_breaks(
    alloc: Global,
    populations: &[u32],
    total: u32,
) -> Result<Vec<u16>, AllocError>
    requires { length populations.now ≤ DISTRICT_LIMIT }
    ensures { IfOk result (λ v. v.items ≡ deviating_districts populations.now total) }
{
    let count = populations.len() as u64;
    let mut breaks = Vec::new(alloc);
    for (i, people) in populations.iter().enumerate() {
        if 100 * deviation_of(count, *people, total) > total as u64 {
            breaks.push(i as u16 + 1)?;
        }
    }
    Ok(breaks)
}
