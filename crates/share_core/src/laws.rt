//! Laws of every link. A function here does nothing: its contract is a law, which is proved with it.
ghost use Rattle.std.specs.Prelude.{◌≡◌, None};
ghost use Rattle.share_model.specs.link.Gains.{GainsAreWithinShares};
ghost use Rattle.share_model.specs.link.Readings.{TicketsAreWithin, TicketsAreUncapped};
ghost use Rattle.share_model.specs.link.Turns.{sending};
ghost use Rattle.share_model.specs.stride.Moves.{next};

use crate::engine::Engine;
use share_model::{Rates, TellingWriter};

/// There is nothing to send if and only if no frame is in part and no flow competes: each flow that competes has a
/// packet. So a turn is `Idle` only if all that was accepted was written or dropped.
pub fn idle_links_are_done<W, S: Rates>(engine: &Engine<W, S>)
    ensures done { sending engine.now.live ≡ None
        → (engine.now.live.part ≡ None) × (next engine.now.live.queue.clients ≡ None) }
    ensures idle { engine.now.live.part ≡ None → next engine.now.live.queue.clients ≡ None
        → sending engine.now.live ≡ None }
{
    // The answer is not used: its contract says that the link is sound.
    let _ = engine.events();
}

/// Take any chain of calls on this link: `command`, `arrive`, `turn` and `tear`. Their arguments and answers may be
/// any, and each makes an event or none. No frame is in part before the first call. Two flows, `one` and `other`,
/// compete before it and after each call, and the tickets of each stay the same. By the answers of `position`, the gain
/// of `one` in the chain is at most the greater of 0 and a sum of three terms. They are the gain of `other`, the
/// distance that `other` was ahead at the start, and the largest gain of `one` in a single call.
pub fn shares_of_calls<W: TellingWriter, S: Rates>(engine: &Engine<W, S>)
    ensures { GainsAreWithinShares W.answers engine.now }
{
    // The answer is not used: its contract says that the link is sound.
    let _ = engine.events();
}

/// The answers of `tickets` for the open flows are together at most the active amount of `base`. While at most 2^20 of
/// `base` is issued, in all its tickets together, each answer is the worth of the tickets that fund the flow. The cap
/// of 2^20 does not lower it then.
pub fn tickets_are_shares<W, S: Rates>(engine: &Engine<W, S>)
    ensures within { TicketsAreWithin engine.now }
    ensures uncapped { TicketsAreUncapped engine.now }
{
    // The answer is not used: its contract says that the link is sound.
    let _ = engine.events();
}
