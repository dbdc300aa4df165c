//! Queries of targets.
ghost use Rattle.std.specs.Prelude.{◌≡◌, ℕ, List, [], ◌∷◌, length, ◌≢◌, IfOk, MatchOption, Some, ⊤};
ghost use Rattle.std.specs.Str.{bytes_eq};
ghost use Rattle.std.specs.Cow.{cow_str_bytes};
ghost use Rattle.form_urlencoded.specs.Form.{raw_pairs as raw_pairs_of, pair_text};
ghost use Rattle.http_desk_routes.specs.claim.Queries.{form_text, texts_of, size_of as size_of_texts, create_query as create_query_of};
ghost use Rattle.http_desk_routes.specs.claim.Queries.{after_query as after_query_of, from_query as from_query_of};
ghost use Rattle.http_desk_routes.specs.claim.Queries.{address_of as address_of_text, address_once as address_once_of, more_told};
ghost use Rattle.http_desk_routes.specs.claim.Queries.{companions_query as companions_query_of, is_no_query as has_no_pair};
ghost use Rattle.http_desk_routes.specs.Pairs.{HasOne, HasTwo};
ghost use Rattle.field_text.specs.claim.Digits.{number_of};

use crate::route::around;
use desk_model::companions::Companions;
use desk_model::kind::Kind;
use desk_model::name::PlanName;
use desk_model::size::PlanSize;
use field_text::digits::number;
use form_urlencoded::{decode, raw_pairs};
use std::alloc::{AllocError, Global};
use std::borrow::CowStr;

/// The two pairs of a query, still encoded, where it has just two.
fn two_pairs(query: &[u8]) -> Option<((&[u8], &[u8]), (&[u8], &[u8]))>
    ensures { HasTwo (raw_pairs_of query.now) result }
{
    let mut pairs = raw_pairs(query);
    let first = pairs.next()?;
    let second = pairs.next()?;
    match pairs.next() {
        None => Some((first, second)),
        Some(_) => None,
    }
}

/// The text of a name or a value.
fn text(alloc: Global, bytes: &[u8]) -> Result<CowStr<'_>, AllocError>
    ensures { IfOk result (λ s. cow_str_bytes s ≡ form_text bytes.now) }
{
    decode(alloc, bytes)
}

/// Whether a text is the word.
fn is_text(text: &CowStr<'_>, word: &[u8]) -> bool
    ensures { result ≡ bytes_eq (cow_str_bytes text.now) word.now }
{
    text.as_bytes() == word
}

/// A kind, and a number of districts in its range.
fn size_of(kind: &[u8], districts: &[u8]) -> Option<PlanSize>
    ensures { result ≡ size_of_texts kind.now districts.now }
{
    PlanSize::read(Kind::from_name(kind)?, number(districts, 3)?)
}

/// Whether what is encoded is the word.
fn is_word(alloc: Global, bytes: &[u8], word: &[u8]) -> Result<bool, AllocError>
    ensures { IfOk result (λ is. is ≡ bytes_eq (form_text bytes.now) word.now) }
{
    let decoded = text(alloc, bytes)?;
    Ok(is_text(&decoded, word))
}

/// An encoded kind, and an encoded number of districts in its range.
fn size_in(alloc: Global, kind: &[u8], districts: &[u8]) -> Result<Option<PlanSize>, AllocError>
    ensures { IfOk result (λ size. size ≡ size_of_texts (form_text kind.now) (form_text districts.now)) }
{
    let kind = text(alloc, kind)?;
    let districts = text(alloc, districts)?;
    Ok(size_of(kind.as_bytes(), districts.as_bytes()))
}

/// Parses the query of a create: `kind` and `districts`, each once. `None` for anything else.
pub fn create_query(alloc: Global, query: &[u8]) -> Result<Option<PlanSize>, AllocError>
    ensures { IfOk result (λ size. size ≡ create_query_of query.now) }
{
    let Some((first, second)) = two_pairs(query) else {
        return Ok(None);
    };
    if is_word(alloc, first.0, b"kind")? && is_word(alloc, second.0, b"districts")? {
        return size_in(alloc, first.1, second.1);
    }
    if is_word(alloc, first.0, b"districts")? && is_word(alloc, second.0, b"kind")? {
        return size_in(alloc, second.1, first.1);
    }
    Ok(None)
}

/// The one pair of a query, still encoded, where it has just one.
fn one_pair(query: &[u8]) -> Option<(&[u8], &[u8])>
    ensures { HasOne (raw_pairs_of query.now) result }
{
    let mut pairs = raw_pairs(query);
    let first = pairs.next()?;
    match pairs.next() {
        None => Some(first),
        Some(_) => None,
    }
}

/// An encoded number of 1 to 5 digits.
fn number_told(alloc: Global, value: &[u8]) -> Result<Option<u32>, AllocError>
    ensures { IfOk result (λ n. n ≡ number_of 5 (form_text value.now)) }
{
    let decoded = text(alloc, value)?;
    Ok(short_number(decoded.as_bytes()))
}

/// Parses the query of a revision: `after`, once, with 1 to 5 digits. `None` for anything else.
pub fn after_query(alloc: Global, query: &[u8]) -> Result<Option<u32>, AllocError>
    ensures { IfOk result (λ after. after ≡ after_query_of query.now) }
{
    let Some(pair) = one_pair(query) else {
        return Ok(None);
    };
    if is_word(alloc, pair.0, b"after")? {
        return number_told(alloc, pair.1);
    }
    Ok(None)
}

/// A plan's name and the number of one of its revisions, of 1 to 5 digits, cut at the first colon.
fn address_of(text: &[u8]) -> Option<(PlanName, u32)>
    ensures { result ≡ address_of_text text.now }
{
    let (name, number) = around(text, b':');
    let plan = PlanName::read(name)?;
    let j = short_number(number)?;
    Some((plan, j))
}

/// An encoded revision of a plan.
fn address_told(alloc: Global, value: &[u8]) -> Result<Option<(PlanName, u32)>, AllocError>
    ensures { IfOk result (λ at. at ≡ address_of_text (form_text value.now)) }
{
    let decoded = text(alloc, value)?;
    Ok(address_of(decoded.as_bytes()))
}

/// Parses the query of a fork: `from`, once, a revision of a plan. `None` for anything else.
pub fn from_query(alloc: Global, query: &[u8]) -> Result<Option<(PlanName, u32)>, AllocError>
    ensures { IfOk result (λ from. from ≡ from_query_of query.now) }
{
    let Some(pair) = one_pair(query) else {
        return Ok(None);
    };
    if is_word(alloc, pair.0, b"from")? {
        return address_told(alloc, pair.1);
    }
    Ok(None)
}

/// Parses the address of a revision, if none was given before.
fn address_once(before: Option<(PlanName, u32)>, text: &[u8]) -> Option<(PlanName, u32)>
    ensures { result ≡ address_once_of before text.now }
{
    match before {
        None => address_of(text),
        Some(_) => None,
    }
}

/// Adds a pair to the revisions found so far: `senate` and `congress`, each once. `None` for
/// anything else.
fn with_pair(
    told: Companions<(PlanName, u32)>,
    name: &CowStr<'_>,
    value: &CowStr<'_>,
) -> Option<Companions<(PlanName, u32)>>
    ensures { result ≡ more_told (Some told) (cow_str_bytes name.now, cow_str_bytes value.now) }
{
    let Companions { senate, congress } = told;
    if is_text(name, b"senate") {
        let senate = Some(address_once(senate, value.as_bytes())?);
        return Some(Companions { senate, congress });
    }
    if is_text(name, b"congress") {
        let congress = Some(address_once(congress, value.as_bytes())?);
        return Some(Companions { senate, congress });
    }
    None
}

/// Adds an encoded pair to the revisions found so far.
fn more_in(
    alloc: Global,
    told: Companions<(PlanName, u32)>,
    name: &[u8],
    value: &[u8],
) -> Result<Option<Companions<(PlanName, u32)>>, AllocError>
    ensures { IfOk result (λ more. more ≡ more_told (Some told) (texts_of (name.now, value.now))) }
{
    let name = text(alloc, name)?;
    let value = text(alloc, value)?;
    Ok(with_pair(told, &name, &value))
}

/// Parses the query of an audit: a revision of each companion, or of none. `None` for anything
/// else.
pub fn companions_query(
    alloc: Global,
    query: &[u8],
) -> Result<Option<Companions<(PlanName, u32)>>, AllocError>
    ensures { IfOk result (λ told. told ≡ companions_query_of query.now) }
{
    let mut told = Companions {
        senate: None,
        congress: None,
    };
    for pair in raw_pairs(query) {
        let Some(more) = more_in(alloc, told, pair.0, pair.1)? else {
            return Ok(None);
        };
        told = more;
    }
    Ok(Some(told))
}

/// The number that 1 to 5 digits write.
pub fn short_number(digits: &[u8]) -> Option<u32>
    ensures { result ≡ number_of 5 digits.now }
{
    let found = number(digits, 5)?;
    Some(found as u32)
}

/// Whether a query has no name and no value.
pub fn is_no_query(query: &[u8]) -> bool
    ensures { result ≡ has_no_pair query.now }
{
    raw_pairs(query).next().is_none()
}
