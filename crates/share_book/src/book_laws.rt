//! Laws of every book, and of books that follow one another. A function here does nothing: its contract is the
//! law, which is proved with it.
ghost use Rattle.std.specs.Prelude.{◌≡◌, ◌++◌, ℕ, List};
ghost use Rattle.share_model.specs.declared.rates.Rate.{Rate};
ghost use Rattle.share_model.specs.funding.Graph.{NameBytes};
ghost use Rattle.share_gateway.specs.Plan.{PlanView, IsInLimits};
ghost use Rattle.share_book.specs.Audited.{Audited, IsRunAndText};
ghost use Rattle.share_book.specs.Book.{BookView};
ghost use Rattle.share_book.specs.BookHistory.{CarriesAll, History, IsCut, tenant_limit, waiting_in};
ghost use Rattle.share_book.specs.Closed.{ClosedView, closed_of};
ghost use Rattle.share_book.specs.OpenBook.{IsOpenBook};
ghost use Rattle.share_book.specs.Shares.{SharesOfEvents};
ghost use Rattle.share_book.specs.declared.book_text.TextKind.{TextKind};

use share_gateway::opened_links_hold_their_plans;

/// The shares of tenants hold in each book, whose events are those of `Book::engine`. Take any stretch of them that
/// begins with no frame in part. Two flows compete before it and after each event of it, each with tickets that stay
/// the same. The charges to the pass of the one in it are at most the greater of 0 and a sum of three terms. They are
/// the charges to the pass of the other, its lead at the start, and the largest single charge of the one. The lead is
/// the distance by which that pass was ahead.
pub fn shares_of_books()
    ensures { (a : Audited) (text : IsRunAndText a) → SharesOfEvents a.link.rates text.events }
{}

/// Nothing is lost between books. Take all books of a gateway. The first is opened over a plan, and each of the others
/// carries over the packets that waited in the one before. The payloads of a tenant that were written whole, followed
/// by those that wait in the open book, are those that were taken of it. They are in order, each once, but for those
/// that were dropped when a book was carried over. The first of the packets that waited are carried, as many as the new
/// limit lets wait. The others are left in the closed book, which counts them, and dropped with it. They are all of a
/// tenant that the new plan lacks, and none if the new limit has room for all.
pub fn books_lose_nothing()
    ensures order { (name : NameBytes) (taken written : List (List ℕ)) (b : BookView) → History name taken written b
        → taken ≡ written ++ waiting_in b name }
    ensures cut { (name : NameBytes) (taken written : List (List ℕ)) (old : BookView) (rates : List Rate) (p : PlanView)
        (events : ℕ) (kind : TextKind) (b : BookView) (new : Audited) (after : ClosedView)
        → History name taken written old → IsInLimits p → IsOpenBook rates p events kind b
        → CarriesAll b.audited p.tenants (closed_of old) new after
        → IsCut name (tenant_limit p name) old (record b { audited = new }) after }
{
    opened_links_hold_their_plans();
}
