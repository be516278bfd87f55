//! Laws of the whole life of a gateway. The function here does nothing: its contract is the law, which is proved
//! with it.
ghost use Rattle.std.specs.Prelude.{ℕ, List};
ghost use Rattle.share_book.specs.Audited.{Audited};
ghost use Rattle.share_transit.specs.Paced.{FollowsText, Paced, TextTurn};
ghost use Rattle.share_transit.specs.Transit.{TransitView};

use share_gateway::outboxes_give_frames_in_order;

/// Frames follow their text, over all books, redials and faults of the disk. The turns whose text the disk has written
/// are the first ones. The bytes that the wire took are their frames, whole and in order. Between one `again` and the
/// next it goes on with the first frame that was not out whole, from its beginning. No byte of another frame went to
/// the wire. The bytes that are ready are all that are left of those frames. The frames of the other turns wait, each
/// once and in order.
pub fn frames_follow_their_text()
    ensures { (handed : List ℕ) (turns : List TextTurn) (before : List (List ℕ)) (given : List ℕ) (t : TransitView)
        (a : Audited) → Paced handed turns before given t a → FollowsText handed turns before given t a }
{
    outboxes_give_frames_in_order();
}
