//! The table of paths.
ghost use Rattle.std.specs.Prelude.{◌≡◌, ◌==◌, ◌≤◌, IfOk, IfErr, IfSome, OnOk, [], length, drop, get_or, option_map};
ghost use Rattle.std.specs.Str.{IsAscii};
ghost use Rattle.std.specs.List.{before_first, after_first, position_or_len};
ghost use Rattle.http_desk_routes.specs.claim.Routes.{the_routes, with_route, route_of, plan_part, revision_part, no_part};
ghost use Rattle.http_desk_routes.specs.Routes.{AreUtf8, Declines, MakesTable};

use matchit::{InsertError, ParamsIter, Router};
use std::alloc::Global;

/// The page at a path.
#[derive(Clone, Copy)]
pub enum Route {
    /// `/blocks`
    Blocks,
    /// `/plans`
    Plans,
    /// `/plans/{p}`
    Plan,
    /// `/plans/{p}/revisions`
    Revisions,
    /// `/plans/{p}/counties`
    Counties,
    /// `/plans/{p}/revisions/{k}`
    Revision,
    /// `/plans/{p}/revisions/{k}/audit`
    Audit,
}

/// Adds a route.
#[tactic(auto, using(crate::proofs::Adds::added_ok, crate::proofs::Adds::declined_err))]
fn add(router: &mut Router<Route>, pattern: &str, route: Route) -> Result<(), InsertError>
    ensures row { OnOk result (router.new ≡ with_route pattern.now route router.old) }
    ensures declined { IfErr result (λ e. Declines pattern.now router.old e) }
{
    router.insert(pattern, route)
}

/// Adds the routes to an empty table. No two of them conflict, so that only want of memory is an error.
fn add_all(router: &mut Router<Route>) -> Result<(), InsertError>
    ensures { router.old ≡ [] → MakesTable router.new result }
{
    add(router, "/blocks", Route::Blocks)?;
    add(router, "/plans", Route::Plans)?;
    add(router, "/plans/{p}", Route::Plan)?;
    add(router, "/plans/{p}/revisions", Route::Revisions)?;
    add(router, "/plans/{p}/counties", Route::Counties)?;
    add(router, "/plans/{p}/revisions/{k}", Route::Revision)?;
    add(router, "/plans/{p}/revisions/{k}/audit", Route::Audit)
}

/// The table, made once for a stream. Only want of memory is an error.
pub fn router(alloc: Global) -> Result<Router<Route>, InsertError>
    ensures table { IfOk result (λ r. r ≡ the_routes) }
    ensures memory { IfErr result (λ e. e ≡ InsertError.OutOfMemory) }
{
    let mut router = Router::new(alloc);
    add_all(&mut router)?;
    Ok(router)
}

/// A page that was found, and the parts of the path that the names of its pattern took.
#[derive(Clone, Copy)]
pub struct Place<'p> {
    pub route: Route,
    /// The part `{p}`, or nothing if the pattern has no such name.
    pub plan: &'p [u8],
    /// The part `{k}`, or nothing.
    pub revision: &'p [u8],
}

/// Returns the parts of the path that the first two names took, each of which is empty if there is no such name.
fn parts_of<'p>(params: &mut ParamsIter<'_, '_, 'p>) -> (&'p [u8], &'p [u8])
    requires { AreUtf8 params.old }
    ensures first { result.0.now ≡ (get_or params.old 0 no_part).1 }
    ensures second { result.1.now ≡ (get_or params.old 1 no_part).1 }
{
    let Some((_, first)) = params.next() else {
        return (&[], &[]);
    };
    match params.next() {
        Some((_, second)) => (first.as_bytes(), second.as_bytes()),
        None => (first.as_bytes(), &[]),
    }
}

/// Returns the page at a path, with its parts.
pub fn place_at<'p>(router: &Router<Route>, path: &'p str) -> Option<Place<'p>>
    requires routes { router.now ≡ the_routes }
    requires ascii { IsAscii path.now }
    ensures route { option_map (λ place. place.route) result ≡ route_of path.now }
    ensures parts { IfSome result (λ place. (place.plan.now ≡ plan_part path.now) × (place.revision.now ≡ revision_part path.now)) }
{
    match router.at(path) {
        Ok(found) => {
            let (plan, revision) = parts_of(&mut found.params.iter());
            Some(Place {
                route: *found.value,
                plan,
                revision,
            })
        }
        Err(_) => None,
    }
}

/// The place of the first such byte, or the length.
#[tactic(auto, using(std::proofs::lemmas::List::Sums::position_or_len_is))]
fn place_of(bytes: &[u8], byte: u8) -> usize
    ensures place { result ≡ position_or_len (λ b. b == byte) bytes.now }
    ensures within { result ≤ length bytes.now }
{
    for (i, b) in bytes.iter().enumerate() {
        if *b == byte {
            return i;
        }
    }
    bytes.len()
}

/// Splits at the first `byte`: returns what precedes it, or everything, and what follows it, or
/// nothing.
pub fn around(bytes: &[u8], byte: u8) -> (&[u8], &[u8])
    ensures before { result.0.now ≡ before_first (λ b. b == byte) bytes.now }
    ensures after { result.1.now ≡ after_first (λ b. b == byte) bytes.now }
{
    let at = place_of(bytes, byte);
    if at == bytes.len() {
        return (bytes, &bytes[at..]);
    }
    (&bytes[..at], &bytes[at + 1..])
}
