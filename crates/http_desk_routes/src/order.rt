//! Requests to commands and queries.
ghost use Rattle.std.specs.Prelude.{◌≡◌, true, ◌&&◌, Some, IfOk, OnErr};
ghost use Rattle.std.specs.Str.{IsAscii};
ghost use Rattle.http_desk_routes.specs.claim.Routes.{the_routes};
ghost use Rattle.http_desk_routes.specs.claim.Orders.{order_of as order_of_request, order_on, order_with};
ghost use Rattle.http_desk_routes.specs.claim.Orders.{name_in as name_in_path, create_order as create_order_of};
ghost use Rattle.http_desk_routes.specs.claim.Orders.{whole_order as whole_order_of, counties_order as counties_order_of};
ghost use Rattle.http_desk_routes.specs.claim.Orders.{retire_order as retire_order_of, fork_order as fork_order_of};
ghost use Rattle.http_desk_routes.specs.claim.Orders.{plan_order as plan_order_of, plain_query as plain_query_of, revision_order as revision_order_of};
ghost use Rattle.http_desk_routes.specs.claim.Orders.{audit_order as audit_order_of, number_in as number_in_path};
ghost use Rattle.http_desk_routes.specs.Orders.{is_decoded, may_decode, may_take_memory};
ghost use Rattle.http_desk_routes.specs.claim.Queries.{create_query as create_query_of, after_query as after_query_of};
ghost use Rattle.http_desk_routes.specs.claim.Queries.{from_query as from_query_of, companions_query as companions_query_of};

use crate::method::{Methods, is_known, methods_of};
use crate::query::{
    after_query, companions_query, create_query, from_query, is_no_query, short_number,
};
use crate::route::{Place, Route, around, place_at};
use desk_model::command::{Command, Query};
use desk_model::companions::Companions;
use desk_model::name::PlanName;
use desk_model::text::Text;
use http::Method;
use matchit::Router;
use percent_encoding::percent_decode;
use std::alloc::{AllocError, Global};
use std::str::from_utf8;

/// Why a whole request asks for nothing. By itself it closes no connection.
#[derive(Clone, Copy)]
pub enum Error {
    /// The method is none of the desk's. 501
    UnknownMethod,
    /// No such path. 404
    NoRoute,
    /// The page has other methods. 405
    MethodNotAllowed(Methods),
    /// The path's name is no plan name. 400
    BadName,
    /// The path's number is not 1 to 5 digits. 400
    BadNumber,
    /// A name of the query is unknown, repeated or missing, or a value is bad. 400
    BadQuery,
}

/// What a request asks for.
#[derive(Drop)]
pub enum Order {
    Command(Command),
    Query(Query),
    Refused(Error),
}

/// The plan's name that a part of a path spells.
fn name_in(alloc: Global, part: &[u8]) -> Result<Option<PlanName>, AllocError>
    ensures { IfOk result (λ name. name ≡ name_in_path part.now) }
{
    let decoded = percent_decode(part).into_cow(alloc)?;
    Ok(PlanName::read(decoded.as_slice()))
}

/// A create at `/plans/{p}`.
fn create_order(alloc: Global, plan_part: &[u8], query: &[u8]) -> Result<Order, AllocError>
    ensures { IfOk result (λ order. order ≡ create_order_of (name_in_path plan_part.now) (create_query_of query.now)) }
{
    let Some(plan) = name_in(alloc, plan_part)? else {
        return Ok(Order::Refused(Error::BadName));
    };
    let Some(size) = create_query(alloc, query)? else {
        return Ok(Order::Refused(Error::BadQuery));
    };
    Ok(Order::Command(Command::Create { plan, size }))
}

/// The number of a revision that a part of a path spells.
fn number_in(alloc: Global, part: &[u8]) -> Result<Option<u32>, AllocError>
    ensures { IfOk result (λ k. k ≡ number_in_path part.now) }
{
    let decoded = percent_decode(part).into_cow(alloc)?;
    Ok(short_number(decoded.as_slice()))
}

/// A body at `/plans/{p}/revisions`.
fn whole_order(
    alloc: Global,
    plan_part: &[u8],
    query: &[u8],
    body: Vec<u8>,
) -> Result<Order, AllocError>
    ensures { IfOk result (λ order. order ≡ whole_order_of (name_in_path plan_part.now) (after_query_of query.now) body.items) }
{
    let Some(plan) = name_in(alloc, plan_part)? else {
        return Ok(Order::Refused(Error::BadName));
    };
    let Some(after) = after_query(alloc, query)? else {
        return Ok(Order::Refused(Error::BadQuery));
    };
    let body = Text::from_vec(body);
    Ok(Order::Command(Command::Whole { plan, after, body }))
}

/// A body at `/plans/{p}/counties`.
fn counties_order(
    alloc: Global,
    plan_part: &[u8],
    query: &[u8],
    body: Vec<u8>,
) -> Result<Order, AllocError>
    ensures { IfOk result (λ order. order ≡ counties_order_of (name_in_path plan_part.now) (after_query_of query.now) body.items) }
{
    let Some(plan) = name_in(alloc, plan_part)? else {
        return Ok(Order::Refused(Error::BadName));
    };
    let Some(after) = after_query(alloc, query)? else {
        return Ok(Order::Refused(Error::BadQuery));
    };
    let body = Text::from_vec(body);
    Ok(Order::Command(Command::Counties { plan, after, body }))
}

/// The end of a plan at `/plans/{p}`.
fn retire_order(alloc: Global, plan_part: &[u8], query: &[u8]) -> Result<Order, AllocError>
    ensures { IfOk result (λ order. order ≡ retire_order_of (name_in_path plan_part.now) query.now) }
{
    let Some(plan) = name_in(alloc, plan_part)? else {
        return Ok(Order::Refused(Error::BadName));
    };
    if !is_no_query(query) {
        return Ok(Order::Refused(Error::BadQuery));
    }
    Ok(Order::Command(Command::Retire { plan }))
}

/// A fork at `/plans/{p}`.
fn fork_order(alloc: Global, plan_part: &[u8], query: &[u8]) -> Result<Order, AllocError>
    ensures { IfOk result (λ order. order ≡ fork_order_of (name_in_path plan_part.now) (from_query_of query.now)) }
{
    let Some(plan) = name_in(alloc, plan_part)? else {
        return Ok(Order::Refused(Error::BadName));
    };
    let Some(from) = from_query(alloc, query)? else {
        return Ok(Order::Refused(Error::BadQuery));
    };
    Ok(Order::Command(Command::Fork { plan, from }))
}

/// A query that takes no name and no value.
fn plain_query(asked: Query, query: &[u8]) -> Order
    ensures { result ≡ plain_query_of asked query.now }
{
    if is_no_query(query) {
        Order::Query(asked)
    } else {
        Order::Refused(Error::BadQuery)
    }
}

/// A look at `/plans/{p}/revisions/{k}`.
fn revision_order(
    alloc: Global,
    plan_part: &[u8],
    revision_part: &[u8],
    query: &[u8],
) -> Result<Order, AllocError>
    ensures { IfOk result (λ order. order ≡ revision_order_of (name_in_path plan_part.now) (number_in_path revision_part.now) query.now) }
{
    let Some(plan) = name_in(alloc, plan_part)? else {
        return Ok(Order::Refused(Error::BadName));
    };
    let Some(k) = number_in(alloc, revision_part)? else {
        return Ok(Order::Refused(Error::BadNumber));
    };
    Ok(plain_query(Query::Revision { plan, k }, query))
}

/// A look at `/plans/{p}/revisions/{k}/audit`.
fn audit_order(
    alloc: Global,
    plan_part: &[u8],
    revision_part: &[u8],
    query: &[u8],
) -> Result<Order, AllocError>
    ensures { IfOk result (λ order. order ≡ audit_order_of (name_in_path plan_part.now) (number_in_path revision_part.now) (companions_query_of query.now)) }
{
    let Some(plan) = name_in(alloc, plan_part)? else {
        return Ok(Order::Refused(Error::BadName));
    };
    let Some(k) = number_in(alloc, revision_part)? else {
        return Ok(Order::Refused(Error::BadNumber));
    };
    let Some(beside) = companions_query(alloc, query)? else {
        return Ok(Order::Refused(Error::BadQuery));
    };
    let Companions { senate, congress } = beside;
    Ok(Order::Query(Query::Audit {
        plan,
        k,
        senate,
        congress,
    }))
}

/// What is asked for at `/plans/{p}`, by PUT, by POST or by DELETE.
fn plan_order(
    alloc: Global,
    method: &Method,
    plan_part: &[u8],
    query: &[u8],
) -> Result<Order, AllocError>
    ensures { IfOk result (λ order. order ≡ plan_order_of method.now plan_part.now query.now) }
{
    if *method == Method::PUT {
        return create_order(alloc, plan_part, query);
    }
    if *method == Method::POST {
        return fork_order(alloc, plan_part, query);
    }
    if *method == Method::DELETE {
        return retire_order(alloc, plan_part, query);
    }
    Ok(Order::Refused(Error::MethodNotAllowed(Methods::Make)))
}

/// What one of the page's methods asks for.
fn order_on_page(
    alloc: Global,
    route: Route,
    method: &Method,
    plan_part: &[u8],
    revision_part: &[u8],
    query: &[u8],
    body: Vec<u8>,
) -> Result<Order, AllocError>
    ensures order { IfOk result (λ order. order ≡ order_on route method.now plan_part.now revision_part.now query.now body.items) }
    ensures memory { OnErr result (is_decoded route ≡ true) }
{
    match route {
        Route::Blocks => Ok(plain_query(Query::Blocks, query)),
        Route::Plans => Ok(plain_query(Query::Plans, query)),
        Route::Plan => plan_order(alloc, method, plan_part, query),
        Route::Revisions => whole_order(alloc, plan_part, query, body),
        Route::Counties => counties_order(alloc, plan_part, query, body),
        Route::Revision => revision_order(alloc, plan_part, revision_part, query),
        Route::Audit => audit_order(alloc, plan_part, revision_part, query),
    }
}

/// What a request with a known method asks for at a page.
fn order_at_page(
    alloc: Global,
    route: Route,
    method: &Method,
    plan_part: &[u8],
    revision_part: &[u8],
    query: &[u8],
    body: Vec<u8>,
) -> Result<Order, AllocError>
    ensures order { IfOk result (λ order. order ≡ order_with route method.now plan_part.now revision_part.now query.now body.items) }
    ensures memory { OnErr result (may_decode (Some route) method.now ≡ true) }
{
    let methods = methods_of(route);
    if !methods.takes(method) {
        return Ok(Order::Refused(Error::MethodNotAllowed(methods)));
    }
    order_on_page(alloc, route, method, plan_part, revision_part, query, body)
}

/// What a request asks for. Only want of memory is an error, and only at a page of one plan.
pub fn order_of(
    alloc: Global,
    router: &Router<Route>,
    method: &Method,
    target: &[u8],
    body: Vec<u8>,
) -> Result<Order, AllocError>
    requires routes { router.now ≡ the_routes }
    requires ascii { IsAscii target.now }
    ensures order { IfOk result (λ order. order ≡ order_of_request method.now target.now body.items) }
    ensures memory { OnErr result (may_take_memory method.now target.now ≡ true) }
{
    if !is_known(method) {
        return Ok(Order::Refused(Error::UnknownMethod));
    }
    let (path, query) = around(target, b'?');
    let place = match from_utf8(path) {
        Ok(text) => place_at(router, text),
        Err(_) => unreachable!(),
    };
    match place {
        Some(
            Place {
                route,
                plan,
                revision,
            },
        ) => order_at_page(alloc, route, method, plan, revision, query, body),
        None => Ok(Order::Refused(Error::NoRoute)),
    }
}
