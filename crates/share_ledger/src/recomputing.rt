//! Values that follow from the funding tickets and the activity: the awake places, the values, and the tickets of
//! the flows.
ghost use Rattle.std.specs.Prelude.{◌≡◌, ◌<◌, ◌^◌, ◌||◌, ℕ, length, min, nat_eq, not, true, if◌then◌else◌};
ghost use Rattle.share_model.specs.lists.Each.{Each};
ghost use Rattle.share_ledger.specs.Arrays.{flags_of, numbers_of};
ghost use Rattle.share_ledger.specs.FundingTickets.{IsFundingTicketWithin, AreSmall, funding_tickets_at, worth_at};
ghost use Rattle.share_ledger.specs.FundingTickets.{backs_of, funds_of};
ghost use Rattle.share_ledger.specs.Valuations.{activity_of, HasInputs, IsReady};
ghost use Rattle.share_ledger.specs.Stale.{WasCurrent};

use crate::stale;
use crate::tables::{MAX_FLOWS, Tables};
use crate::valuation::{self, Valuation};

impl Valuation {
    /// Computes what follows from the funding tickets and the activity: what is awake, the values, and the flows'
    /// tickets.
    pub(crate) fn recompute(&mut self, tables: &Tables, tickets_of_all: &mut [u32; MAX_FLOWS])
        requires { HasInputs self.old (backs_of tables.now) (funds_of tables.now) (activity_of tables.now) }
        ensures ready { IsReady self.new tickets_of_all.new (backs_of tables.now) (funds_of tables.now)
            (activity_of tables.now) }
        ensures long { length tickets_of_all.new ≡ 64 }
    {
        tables.is_well_formed();
        valuation::spread(
            tables,
            &self.backing,
            &self.active,
            &self.order,
            &mut self.awake,
            &mut self.weights,
        );
        valuation::revalue(
            &self.backing,
            &self.awake,
            &self.weights,
            &self.order,
            &mut self.values,
        );
        valuation::reshare(
            &self.funding,
            &self.active,
            &self.weights,
            &self.values,
            tickets_of_all,
        );
        *self.seen = *self.weights;
    }

    // The same, if at most the funding tickets of one currency, and the funding tickets or the activity of one flow
    // have changed.
    fn follow_changed(
        &mut self,
        tables: &Tables,
        currency: usize,
        flow: usize,
        tickets_of_all: &mut [u32; MAX_FLOWS],
    )
        requires begun { HasInputs self.old (backs_of tables.now) (funds_of tables.now) (activity_of tables.now) }
        requires was { WasCurrent self.old tickets_of_all.old currency flow }
        ensures ready { IsReady self.new tickets_of_all.new (backs_of tables.now) (funds_of tables.now)
            (activity_of tables.now) }
        ensures long { length tickets_of_all.new ≡ 64 }
    {
        tables.is_well_formed();
        valuation::spread(
            tables,
            &self.backing,
            &self.active,
            &self.order,
            &mut self.awake,
            &mut self.weights,
        );
        let moved = stale::revalue(
            &self.backing,
            &self.awake,
            &self.weights,
            &self.seen,
            &self.order,
            currency,
            &mut self.values,
        );
        stale::reshare(
            &self.funding,
            &self.active,
            &self.weights,
            &self.values,
            &moved,
            flow,
            tickets_of_all,
        );
        *self.seen = *self.weights;
    }

    // Whether no weight but that of `base` has changed, and the currency at a place is not awake, or is `base`.
    fn is_quiet(&self, currency: usize) -> bool
        requires { currency < 65 }
        ensures same { result ≡ true → (p : ℕ) → 0 < p → p < 65
            → numbers_of self.now.weights.value p ≡ numbers_of self.now.seen.value p }
        ensures asleep { result ≡ true → (nat_eq currency 0 || not (flags_of self.now.awake.value currency)) ≡ true }
    {
        if !valuation::are_same(&self.weights, &self.seen) {
            return false;
        }
        currency == 0 || !self.awake[currency]
    }

    // Computes the tickets of a flow, if there is one at this place.
    fn share_one(&self, flow: usize, tickets_of_all: &mut [u32; MAX_FLOWS])
        requires within { (p : ℕ) → p < 65 → Each IsFundingTicketWithin (funding_tickets_at self.now.funding.items p) }
        requires places { length self.now.funding.items ≡ 65 }
        requires small { AreSmall (numbers_of self.now.values.value) }
        ensures tickets_of_all { (p : ℕ) → p < 64 → numbers_of tickets_of_all.new p
            ≡ (if nat_eq flow p then min (worth_at self.now.funding.items (flags_of self.now.active.value)
            (numbers_of self.now.values.value) (numbers_of self.now.weights.value) flow) (2 ^ 20)
            else numbers_of tickets_of_all.old p) }
        ensures long { length tickets_of_all.new ≡ 64 }
    {
        if flow >= MAX_FLOWS {
            return;
        }
        self.share(flow, tickets_of_all);
    }

    /// Computes what follows if at most the funding tickets of one currency, and the funding tickets or the activity of
    /// one flow have changed. If no weight but that of `base` has changed and the currency is not awake, no value
    /// changes.
    pub(crate) fn recompute_changed(
        &mut self,
        tables: &Tables,
        currency: usize,
        flow: usize,
        tickets_of_all: &mut [u32; MAX_FLOWS],
    )
        requires begun { HasInputs self.old (backs_of tables.now) (funds_of tables.now) (activity_of tables.now) }
        requires was { WasCurrent self.old tickets_of_all.old currency flow }
        requires place { currency < 65 }
        ensures ready { IsReady self.new tickets_of_all.new (backs_of tables.now) (funds_of tables.now)
            (activity_of tables.now) }
        ensures long { length tickets_of_all.new ≡ 64 }
    {
        if self.is_quiet(currency) {
            self.share_one(flow, tickets_of_all);
            return;
        }
        self.follow_changed(tables, currency, flow, tickets_of_all);
    }
}
