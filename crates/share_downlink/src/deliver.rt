//! The trait of takers of the packets that come in.
ghost use Rattle.std.specs.Prelude.{ℕ, Bool, List};

use share_base::FlowNo;

/// A taker of the packets that come in. `delivers` is the relation that contracts know of a call.
pub trait Deliver {
    /// The relation of a taker before a call, the number of the flow, the payload, the answer, and the taker after it.
    ghost delivers: { Self → ℕ → List ℕ → Bool → Self → Type 0 };

    /// Gives a packet to the tenant whose flow has this number. Returns whether a tenant has it.
    fn deliver(&mut self, flow: FlowNo, payload: &[u8]) -> bool
        ensures { delivers self.old flow payload.now result self.new };
}
