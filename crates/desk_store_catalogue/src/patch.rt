//! The districts that a patch by counties leaves.
ghost use Rattle.std.specs.Prelude.{◌≡◌, ◌⊎◌, ◌<◌, ◌≤◌, ℕ, length, get_or, is_some, None, IfOk, IfSome, MatchResult};
ghost use Rattle.std.specs.Option.{option_copied};
ghost use Rattle.desk_model.specs.claim.Baf.{Values, body_read};
ghost use Rattle.desk_model.specs.claim.Step.{partly_listed};
ghost use Rattle.baf_text.specs.Listed.{listed_of};
ghost use Rattle.desk_store_catalogue.specs.Patches.{overlaid, IsMade, IsPatchRefusal};

use crate::changes::Span;
use crate::posted::listed_in;
use baf_text::listed::{Listed, whole};
use desk_model::geography::Geography;
use desk_model::laws::least_county_is_told;
use desk_model::reply::Refusal;
use desk_store_lists::Districts;
use std::alloc::{AllocError, Global};

/// Whether the block at a place is listed.
fn is_listed(read: &Listed, place: usize) -> bool
    ensures { result ≡ is_some (get_or read.now place None) }
{
    read.get(place).is_some()
}

/// Returns the least county that is listed in part: the county of the first two neighbouring blocks
/// of one county of which exactly one is listed. A county's blocks follow each other, and counties
/// rise.
fn county_in_part(geography: &Geography, read: &Listed) -> Option<u16>
    requires { length read.now ≡ length geography.now.blocks }
    ensures { (values : Values) → read.now ≡ listed_of geography.now values → result ≡ partly_listed geography.now values }
{
    // A law, with nothing to run: it says what the least such county has to do with the answer.
    least_county_is_told();
    let blocks = geography.blocks();
    let (first, part) = read.part();
    let end = first + part.len();
    let start = if first == 0 { 1 } else { first };
    let stop = if end < blocks.len() {
        end + 1
    } else {
        blocks.len()
    };
    for place in start..stop {
        if is_listed(read, place) != is_listed(read, place - 1) {
            let county = blocks[place].id.county();
            if blocks[place - 1].id.county() == county {
                return Some(county);
            }
        }
    }
    None
}

/// Returns the district of each block: the listed one, otherwise the last one, or 0 if there is none.
/// Pieces in which nothing changes are those of the last ones.
pub fn overlay(
    alloc: Global,
    listed: &Listed,
    last: Option<&Districts>,
) -> Result<Districts, AllocError>
    requires { IfSome (option_copied last) (λ d. length d ≡ length listed.now) }
    ensures { IfOk result (λ districts. districts ≡ overlaid listed.now (option_copied last.entry)) }
{
    let Some(last) = last else {
        let districts = whole(alloc, listed)?;
        return Districts::new(alloc, districts.as_slice(), None);
    };
    let (first, part) = listed.part();
    last.with_listed(alloc, first, part)
}

/// Districts, and the places of the blocks that are listed: outside of these they are the last ones.
#[derive(Drop)]
pub struct PatchResult {
    pub districts: Districts,
    pub span: Span,
}

/// The places of the listed blocks.
fn span_of(listed: &Listed) -> Span
    ensures { (k : ℕ) → (k < result.first) ⊎ (result.end ≤ k) → get_or listed.now k None ≡ None }
{
    let _count = listed.len();
    let (first, part) = listed.part();
    Span {
        first,
        end: first + part.len(),
    }
}

/// The district of each block, rising, where the counties that the body lists have its districts and the others keep
/// their last ones, 0 where there are none.
pub fn patched_districts(
    alloc: Global,
    body: &[u8],
    geography: &Geography,
    n: u16,
    last: Option<&Districts>,
) -> Result<PatchResult, Refusal>
    requires { IfSome (option_copied last) (λ d. length d ≡ length geography.now.blocks) }
    ensures { MatchResult result (IsMade geography.now n body.now (option_copied last.entry))
        (IsPatchRefusal geography.now (body_read geography.now n body.now)) }
{
    let listed = listed_in(alloc, body, geography, n)?;
    if let Some(county) = county_in_part(geography, &listed) {
        return Err(Refusal::NotWholeCounty { county });
    }
    let span = span_of(&listed);
    match overlay(alloc, &listed, last) {
        Ok(districts) => Ok(PatchResult { districts, span }),
        Err(_) => Err(Refusal::Memory),
    }
}
