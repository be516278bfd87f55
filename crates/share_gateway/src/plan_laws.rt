//! Laws of every opening. A function here does nothing: its contract is a law, which is proved with it.
ghost use Rattle.std.specs.Prelude.{◌≡◌, List, None};
ghost use Rattle.share_model.specs.declared.rates.Rate.{Rate};
ghost use Rattle.share_gateway.specs.Plan.{PlanView, IsInLimits};
ghost use Rattle.share_gateway.specs.Opened.{first_refused, opened_link};
ghost use Rattle.share_gateway.specs.Planned.{HoldsPlan};

/// Take a link on which a plan was opened, none of whose commands was refused. It has the plan's currencies. For each
/// tenant it has a flow with its number, and an empty buffer with its limit. The tenant's book has its tariff, and is
/// held if the tenant is. For each grant it has a ticket with its amount and denomination that funds the grantee. It
/// has no others. All of them stand in the plan's order, and tickets are numbered from 1 in this order.
pub fn opened_links_hold_their_plans()
    ensures { (rates : List Rate) (p : PlanView) → IsInLimits p → first_refused rates p ≡ None
        → HoldsPlan p (opened_link rates p) }
{}
