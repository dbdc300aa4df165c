//! What a worked request asks for.
ghost use Rattle.std.specs.Prelude.{◌≡◌, [], codes};
ghost use Rattle.desk_model.specs.declared.command.Query.TheVariants.{Plans};
ghost use Rattle.http_desk_routes.specs.claim.Orders.{order_of};
ghost use Rattle.http_desk_routes.specs.declared.order.Order.TheVariants as order;

/// GET of `/plans` without a body asks for the list of plans.
#[tactic(auto, unfolding(matchit::proofs::OnLiterals::matchit_on_literals, form_urlencoded::proofs::OnLiterals::form_urlencoded_on_literals))]
pub fn list_law()
    ensures { order_of (codes "GET") (codes "/plans") [] ≡ order.Query Plans }
{}
