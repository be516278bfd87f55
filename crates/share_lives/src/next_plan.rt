//! Plans that take the place of others.
ghost use Rattle.std.specs.Prelude.{◌≡◌};

use share_gateway::Plan;
use share_model::Rate;
use std::marker::Model;

/// A plan that takes the place of the one before, with its tariffs.
pub struct NextPlan {
    pub plan: Plan,
    pub rates: Vec<Rate>,
}

impl Model for NextPlan {
    ghost use Rattle.share_lives.specs.NextPlan.{NextPlanView};

    ghost Value = { NextPlanView };

    ghost view = { λ n. record { plan = n.plan; rates = n.rates.items } };
}

// This is written out so that no crate above proves how each part of a plan is dropped.
impl Drop for NextPlan {
    fn drop(self) {
        let NextPlan { plan, rates } = self;
        drop(plan);
        drop(rates);
    }
}

impl NextPlan {
    /// Drops the plan, and returns its tariffs.
    pub(crate) fn into_rates(self) -> Vec<Rate>
        ensures { result.items ≡ self.rates }
    {
        let NextPlan { plan, rates } = self;
        drop(plan);
        rates
    }
}
