//! The districts that a posted body says.
ghost use Rattle.std.specs.Prelude.{MatchResult};
ghost use Rattle.desk_model.specs.claim.Baf.{body_read};
ghost use Rattle.desk_store_catalogue.specs.Kept.{IsRefusalOf};
ghost use Rattle.desk_store_catalogue.specs.Posted.{IsListed, IsPosted};

use baf_text::listed::{Listed, whole};
use baf_text::reading::{BafFault, read};
use desk_model::geography::Geography;
use desk_model::reply::Refusal;
use std::alloc::Global;

/// The district of each block that the body lists.
pub fn listed_in(
    alloc: Global,
    body: &[u8],
    geography: &Geography,
    n: u16,
) -> Result<Listed, Refusal>
    ensures { MatchResult result (IsListed geography.now (body_read geography.now n body.now)) (IsRefusalOf (body_read geography.now n body.now)) }
{
    match read(alloc, body, geography, n) {
        Ok(listed) => Ok(listed),
        Err(BafFault::Body { code, line }) => Err(Refusal::BadBody { code, line }),
        Err(BafFault::Memory) => Err(Refusal::Memory),
    }
}

/// The district of each block, rising, as the body says it: 0 where it doesn't list the block.
pub fn districts_of(
    alloc: Global,
    body: &[u8],
    geography: &Geography,
    n: u16,
) -> Result<Vec<u16>, Refusal>
    ensures { MatchResult result (λ districts. IsPosted geography.now (body_read geography.now n body.now) districts.items)
        (IsRefusalOf (body_read geography.now n body.now)) }
{
    let listed = listed_in(alloc, body, geography, n)?;
    match whole(alloc, &listed) {
        Ok(districts) => Ok(districts),
        Err(_) => Err(Refusal::Memory),
    }
}
