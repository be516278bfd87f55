//! Tests of a holder.
ghost use Rattle.std.specs.Prelude.{◌≡◌};
ghost use Rattle.share_model.specs.funding.Graph.{holder_is_currency, holder_is_flow};
ghost use Rattle.share_model.specs.funding.Changes.{has_holder};
ghost use Rattle.share_ledger.specs.Routes.{is_kind};

use share_base::{FlowNo, Name};
use share_model::Holder;

/// Whether there is a holder.
pub(crate) fn has_holder(holder: &Holder) -> bool
    ensures { result ≡ has_holder holder.now }
{
    match holder {
        Holder::Nobody => false,
        Holder::Currency(_) => true,
        Holder::Flow(_) => true,
    }
}

/// Whether the holder is this currency.
pub(crate) fn is_currency(holder: &Holder, name: Name) -> bool
    ensures { result ≡ holder_is_currency name holder.now }
{
    match holder {
        Holder::Nobody => false,
        Holder::Currency(currency) => name == *currency,
        Holder::Flow(_) => false,
    }
}

/// Whether the holder is this flow.
pub(crate) fn is_flow(holder: &Holder, flow: FlowNo) -> bool
    ensures { result ≡ holder_is_flow flow holder.now }
{
    match holder {
        Holder::Nobody => false,
        Holder::Currency(_) => false,
        Holder::Flow(number) => flow == *number,
    }
}

/// Whether the holder is a currency, or whether it is a flow, as `backing` asks.
pub(crate) fn is_kind(holder: &Holder, backing: bool) -> bool
    ensures { result ≡ is_kind backing holder.now }
{
    match holder {
        Holder::Nobody => false,
        Holder::Currency(_) => backing,
        Holder::Flow(_) => !backing,
    }
}
