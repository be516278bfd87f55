//! Laws of the whole life of a gateway's books. The function here does nothing: its contract is the law, which is
//! proved with it.
ghost use Rattle.std.specs.Prelude.{ℕ, List};
ghost use Rattle.share_model.specs.funding.Graph.{NameBytes};
ghost use Rattle.share_book.specs.Closed.{ClosedView};
ghost use Rattle.share_lives.specs.LifeHistory.{CountsTenants, LifeHistory, LosesNothing, waiting_at};
ghost use Rattle.share_lives.specs.Lives.{LifeView};

use share_book::books_lose_nothing;

/// Nothing is lost in the life of a gateway's books. Take any calls on it, from the first book on, over all books that
/// follow one another. The packets that were taken of a tenant are those whose frames were scheduled, followed by those
/// that wait. In between are those that were dropped when a book followed another or at the end. They come in order,
/// each once, and Remainders counts those that were dropped.
pub fn lives_lose_nothing()
    ensures order { (name : NameBytes) (taken : List (List ℕ)) (dropped : ℕ) (scheduled : List (List ℕ)) (l : LifeView)
        → LifeHistory name taken dropped scheduled l
        → LosesNothing taken dropped scheduled (waiting_at l.stage name) }
    ensures counted { (c : ClosedView) → CountsTenants c }
{
    books_lose_nothing();
}
