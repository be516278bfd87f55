//! Laws of every book and every bill of its text. The functions here do nothing: their contracts are laws,
//! which are proved with them.
ghost use Rattle.std.specs.Prelude.{◌≡◌, ◌≤◌, ◌++◌, ℕ, Bool, true, List, Option, None, Some, Result, MatchResult, find};
ghost use Rattle.std.specs.Prelude.{is_some};
ghost use Rattle.share_base.specs.declared.version.Version.TheVariants.{Two};
ghost use Rattle.share_model.specs.io.Told.{Told};
ghost use Rattle.share_model.specs.link.Books.{account_of, is_book_of};
ghost use Rattle.share_model.specs.link.Totals.{totals};
ghost use Rattle.share_model.specs.link.View.{LinkView};
ghost use Rattle.share_model.specs.run.Fold.{empty_state, outcomes, run};
ghost use Rattle.share_model.specs.text.Audit.{IsAmple};
ghost use Rattle.share_model.specs.text.Talk.{FoundMemory, start_of_script, talk};
ghost use Rattle.share_script.specs.Script.{IsOneFold};
ghost use Rattle.share_bill.specs.Bills.{rows_of, sums_of};
ghost use Rattle.share_bill.specs.Texts.{Bills, IsBook};
ghost use Rattle.share_bill.specs.declared.bill.kind.Kind.{Kind};
ghost use Rattle.share_bill.specs.declared.bill.running.TenantBill.{TenantBill};
ghost use Rattle.share_bill.specs.declared.bill.text.BookBill.{BookBill};
ghost use Rattle.share_bill.specs.declared.bill.text.NotBilled.{NotBilled};
ghost use Rattle.share_book.specs.Audited.{Audited, IsRunAndText};
ghost use Rattle.share_book.specs.declared.book_text.TextKind.TheVariants.{Whole};
ghost use Rattle.share_reconciliation.specs.Reconciled.{IsBillOfBook, IsUnbilled, billed_kind, whole_text};
ghost use Rattle.share_reconciliation.specs.Replayed.{IsBookAgain, IsReplayOfBook, text_lines};

use share_book::Book;
use share_model::{Rates, TellingReader};

/// The bill of a book's text is the book's. A book is one whose text, after its drained bytes, is that of
/// `share_book::Book::engine`. With the tariffs of the book, its whole text has a bill, whose rows are those of the
/// book's events. No line of the text is cut (`book`). So `share_bill::bill_text`, for a reader of this text, returns
/// this bill, or a read failed or memory was refused: no line is wrong (`bill`). The run that a bill of this text makes
/// has the replies of the book's events (`replies`). It comes to the accounts (`accounts`) and the totals (`totals`) of
/// the book's link. The amount of a flow in its row is its account there, while the flow is open (`amounts`). All this
/// is so of a text of lengths, which has no byte of a payload, and of a whole one.
pub fn bills_match_books<I: TellingReader>()
    ensures book { (a : Audited) (text : IsRunAndText a) → IsBook a.link.rates (whole_text a text) (billed_kind a.kind)
        (rows_of a.link.rates text.events) None }
    ensures bill { (first : I) (a : Audited) (text : IsRunAndText a) (result : Result BookBill NotBilled)
        → I.left first ≡ Some (whole_text a text) → Bills I.left I.gives first a.link.rates result
        → MatchResult result (λ bill. IsBillOfBook a text bill) (λ fault. IsUnbilled I.gives first fault) }
    ensures replies { (a : Audited) (text : IsRunAndText a) (kind : Kind) (rows : List TenantBill) (cut : Option ℕ)
        (bill : IsBook a.link.rates (whole_text a text) kind rows cut)
        → outcomes a.link.rates (empty_state Two) bill.book.events ≡ text.replies }
    ensures accounts { (a : Audited) (text : IsRunAndText a) (kind : Kind) (rows : List TenantBill) (cut : Option ℕ)
        (bill : IsBook a.link.rates (whole_text a text) kind rows cut)
        → (run Two a.link.rates bill.book.events).live.books ≡ a.link.live.books }
    ensures totals { (a : Audited) (text : IsRunAndText a) (kind : Kind) (rows : List TenantBill) (cut : Option ℕ)
        (bill : IsBook a.link.rates (whole_text a text) kind rows cut)
        → totals (run Two a.link.rates bill.book.events).live ≡ totals a.link.live }
    ensures amounts { (a : Audited) (text : IsRunAndText a) (flow : ℕ)
        → is_some (find (is_book_of flow) a.link.live.books) ≡ true
        → (sums_of a.link.rates (run Two a.link.rates text.events) flow).amount ≡ account_of a.link.live.books flow }
{}

/// The same of a book as it is. It has a whole text, of which `share_book::Book::text` lends the end.
/// `share_bill::bill_text`, for a reader of this text and with the tariffs of the book, returns the book's bill. It
/// does not if a read failed or memory was refused.
pub fn bill_matches_book<S: Rates, I: TellingReader>(book: &Book<S>)
    ensures { (text : IsRunAndText book.now.audited)
        × ((first : I) (result : Result BookBill NotBilled)
        → I.left first ≡ Some (whole_text book.now.audited text)
        → Bills I.left I.gives first book.now.audited.link.rates result
        → MatchResult result (λ bill. IsBillOfBook book.now.audited text bill)
        (λ fault. IsUnbilled I.gives first fault)) }
{
    let _ = book.engine();
}

/// The whole text of a book is an audit, which makes the book's run again. It is read as a script on a new link with
/// the tariffs of the book and a life that is not shorter. If no line finds that memory is lacking, its lines are
/// answered by the replies of the book's events, one line each. They come to what the book's link holds, and to the
/// bytes of the frames that the book has put into its outbox (`ample`). Whether a line lacked memory is seen in the
/// answers: if none of their lines is `no 1 NoMemory`, none did (`answered`). So it is of each run of such a text by
/// `share_script::run_script`: what it printed, what its link holds, and what its tape has (`script`).
pub fn whole_texts_replay()
    ensures ample { (a : Audited) (text : IsRunAndText a) → a.kind ≡ Whole → (life : ℕ) (lacks : List Bool)
        → a.link.life ≤ life → IsAmple lacks → IsReplayOfBook a text life lacks }
    ensures answered { (a : Audited) (text : IsRunAndText a) → a.kind ≡ Whole → (life : ℕ) (lacks : List Bool)
        → a.link.life ≤ life → FoundMemory (talk life a.link.rates start_of_script lacks (text_lines a text))
        → IsReplayOfBook a text life lacks }
    ensures script { (a : Audited) (text : IsRunAndText a) → a.kind ≡ Whole
        → (before printed left : Option (List ℕ)) (old new : LinkView Told) → a.link.life ≤ old.life
        → old.rates ≡ a.link.rates → (fold : IsOneFold before printed old (whole_text a text) left new)
        → FoundMemory (talk old.life old.rates start_of_script fold.lacks (text_lines a text))
        → IsBookAgain a text before printed new }
{}
