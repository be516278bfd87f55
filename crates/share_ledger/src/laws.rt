//! Laws of every ledger. Each is the contract of a call that does nothing.
ghost use Rattle.share_model.specs.funding.WellFormed.{IsWellFormed};
ghost use Rattle.share_model.specs.funding.Laws.{SharesAreWithin, IsAcyclic, NineStepsAreEnough, CachedIsAsDefined};
ghost use Rattle.share_model.specs.funding.Laws.{DeepIsNine};
ghost use Rattle.share_model.specs.funding.Laws.{LeavesTickets};
ghost use Rattle.share_model.specs.funding.Laws.{CycleIsBacking};

use crate::ledger::Ledger;

impl Ledger {
    /// The graph is well formed. No two currencies have one name, nor have two open flows. The numbers of tickets rise
    /// in the order of making and those of flows in the order of opening, each below the next number. Tickets are
    /// denominated in currencies of the graph and fund its currencies and flows, at most 16 each. `base` has no
    /// backing, no nine other currencies are in a chain, and the tables are within their limits.
    pub fn is_well_formed(&self)
        ensures { IsWellFormed self.now }
    {
        self.tables().is_well_formed();
    }

    /// The tickets that fund all flows are together worth at most the active amount of `base`. That holds before each
    /// flow's sum is cut to 2^20 and after it. While that amount is at most 2^20, no sum is cut.
    pub fn shares_are_within(&self)
        ensures { SharesAreWithin self.now }
    {
        self.is_well_formed();
    }

    /// No currency backs itself, by however many steps.
    pub fn is_acyclic(&self)
        ensures { IsAcyclic self.now }
    {
        self.is_well_formed();
    }

    /// Tickets without a holder count for nothing: making and removing them, making and removing currencies, and
    /// opening a flow change the tickets of no flow. A flow that is idle or not open has no tickets.
    pub fn leaves_tickets(&self)
        ensures { LeavesTickets self.now }
    {
        self.is_well_formed();
    }

    /// Nine steps of the definitions are enough: further ones change neither activity nor values.
    pub fn nine_steps_are_enough(&self)
        ensures { NineStepsAreEnough self.now }
    {
        self.is_well_formed();
    }

    /// Take amounts and values that are kept beside the graph and meet the equations of one step. They are those of the
    /// definitions, and so are the tickets of flows that are computed from them.
    pub fn cached_is_as_defined(&self)
        ensures { CachedIsAsDefined self.now }
    {
        self.is_well_formed();
    }

    /// Funding a currency meets the test for `Deep` if and only if nine currencies besides `base` would then be in a
    /// chain. In it each backs the next.
    pub fn deep_is_nine(&self)
        ensures { DeepIsNine self.now }
    {
        self.is_well_formed();
    }

    /// Funding a currency meets the test for `Cycle` if and only if it is the ticket's denomination, or backs it by
    /// however many steps.
    pub fn cycle_is_backing(&self)
        ensures { CycleIsBacking self.now }
    {
        self.is_well_formed();
    }
}
