//! Laws of every running link. A function here does nothing: its contract is a law, which is proved with it.
ghost use Rattle.std.specs.Prelude.{◌≡◌, ◌≢◌, ℕ, List, ◌∷◌, None};
ghost use Rattle.share_model.specs.link.Gains.{IsCompeting, GainsWithinShare};
ghost use Rattle.share_model.specs.link.Readings.{TicketsAreWithin, TicketsAreUncapped};
ghost use Rattle.share_model.specs.lists.Each.{Each};
ghost use Rattle.share_locked.specs.Chains.{IsLockedChain, links_of};
ghost use Rattle.share_locked.specs.Views.{LockedView};

use crate::link::LinkBrand;
use crate::locked::Locked;
use share_journal::shares_of_recorders;
use share_model::{Rates, TellingWriter};

/// The laws of the shares of a link hold of one behind a lock. Take any chain of calls on it: `command`, `admit` and
/// `turn`, each under the lock, of any threads, with any arguments and answers. They leave `later` behind the lock, one
/// after the other. No frame is in part before the first call. Two flows, `one` and `other`, compete before it and
/// after each call, each with tickets that stay the same. By `Engine::position`, the gain of `one` in the chain is at
/// most the greater of 0 and a sum of three terms. They are the gain of `other`, the distance that `other` was ahead at
/// the start, and the largest gain of `one` in a single call.
///
/// The answers of `Engine::tickets` for the open flows sum up to at most the active amount of `base`. While at most
/// 2^20 of `base` is issued, each is the worth of the tickets that fund the flow.
pub fn shares_of_locked_calls<W: TellingWriter, S: Rates, L: LinkBrand>(locked: &Locked<W, S, L>)
    ensures calls { (later : List (LockedView W)) (one other one_tickets other_tickets : ℕ) → one ≢ other
        → locked.now.recorder.link.live.part ≡ None → IsLockedChain W.answers locked.now later
        → Each (λ link. IsCompeting link one one_tickets × IsCompeting link other other_tickets)
        (locked.now.recorder.link ∷ links_of later)
        → GainsWithinShare one other locked.now.recorder.link (links_of later) }
    ensures within { TicketsAreWithin locked.now.recorder.link }
    ensures uncapped { TicketsAreUncapped locked.now.recorder.link }
{
    // A law, which does nothing: its contract says this of the recorder.
    shares_of_recorders(locked.recorder());
}
