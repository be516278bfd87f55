//! Laws of every run. Each function here does nothing. Its contract is a law, and is proved.
ghost use Rattle.std.specs.Prelude.{◌≡◌, ◌∷◌, ◌++◌, [], ℕ, List, map, Option};
ghost use Rattle.share_base.specs.declared.command.Event.{Event};
ghost use Rattle.share_base.specs.declared.version.Version.{Version};
ghost use Rattle.share_model.specs.declared.rates.Rate.{Rate};
ghost use Rattle.share_model.specs.link.Totals.{totals};
ghost use Rattle.share_model.specs.run.Fold.{empty_state, outcomes, run};
ghost use Rattle.share_model.specs.link.Live.{empty_link};
ghost use Rattle.share_model.specs.link.Tariff.{AreInRange};
ghost use Rattle.share_bill.specs.Bills.{row_with, rows_of};
ghost use Rattle.share_bill.specs.declared.bill.discard.Discard.{Discard};
ghost use Rattle.share_bill.specs.declared.bill.kind.Kind.{Kind};
ghost use Rattle.share_bill.specs.declared.bill.line.Wrong.{Wrong};
ghost use Rattle.share_bill.specs.declared.bill.running.TenantBill.{TenantBill};
ghost use Rattle.share_bill.specs.Makings.{BillView, IsBookLink, TakesLine};
ghost use Rattle.share_bill.specs.Runs.{IsBillOf};
ghost use Rattle.share_bill.specs.Seen.{measured};
ghost use Rattle.share_bill.specs.Sums.{sums_at};
ghost use Rattle.share_bill.specs.Texts.{IsBook, IsWrongText};

/// Two lists of events that differ in the payloads of packets alone, of equal lengths, are answered the same. They come
/// to the same accounts, clients and totals, including the number of bytes that were written. Their bills have the same
/// rows.
pub fn lengths_decide()
    ensures replies { (version : Version) (rates : List Rate) (one other : List Event) → measured one ≡ measured other
        → outcomes rates (empty_state version) one ≡ outcomes rates (empty_state version) other }
    ensures accounts { (version : Version) (rates : List Rate) (one other : List Event)
        → measured one ≡ measured other
        → (run version rates one).live.books ≡ (run version rates other).live.books }
    ensures clients { (version : Version) (rates : List Rate) (one other : List Event) → measured one ≡ measured other
        → (run version rates one).live.queue ≡ (run version rates other).live.queue }
    ensures totals { (version : Version) (rates : List Rate) (one other : List Event) → measured one ≡ measured other
        → totals (run version rates one).live ≡ totals (run version rates other).live }
    ensures rows { (rates : List Rate) (one other : List Event) → measured one ≡ measured other
        → rows_of rates one ≡ rows_of rates other }
{}

/// Take the lines of a book, each of which is the next event of a run. The run's bill has a row for each flow that was
/// opened for a tenant. The row has sums over the packets that the flow sent in the whole run. They are the packets'
/// number, bytes and units, and the cost of these, which is the account of the flow. A bill of no line is one of these,
/// and a bill that takes one more line is one again.
pub fn bills_are_sums()
    ensures first { (rates : List Rate) (new : BillView Discard) → IsBookLink new.link → new.link.rates ≡ rates
        → new.link.live ≡ empty_link Version.Two → new.tenants ≡ [] → new.sent ≡ [] → IsBillOf rates [] [] new }
    ensures next { (rates : List Rate) (lines : List (List ℕ)) (events : List Event)
        (old new : BillView Discard) (line : List ℕ) → AreInRange rates → IsBillOf rates lines events old
        → TakesLine old line new → IsBookLink new.link
        → (event : Event) × IsBillOf rates (lines ++ line ∷ []) (events ++ event ∷ []) new }
    ensures rows { (rates : List Rate) (lines : List (List ℕ)) (events : List Event) (bill : BillView Discard)
        → IsBillOf rates lines events bill
        → map (λ t. row_with t (sums_at bill.sent t.flow)) bill.tenants ≡ rows_of rates events }
{}

/// A text has one bill, or one wrong line. If two bills are bills of it, they are of the same kind and have the same
/// rows, and the same line is cut (`one`). They are bills of the same events (`run`). A text that has a bill has no
/// wrong line (`right`). In a text without one, one line is the first that is wrong, in one way (`wrong`).
pub fn texts_have_one_bill()
    ensures one { (rates : List Rate) (bytes : List ℕ) (kind other : Kind) (rows others : List TenantBill)
        (cut left : Option ℕ) → IsBook rates bytes kind rows cut → IsBook rates bytes other others left
        → (kind ≡ other) × (rows ≡ others) × (cut ≡ left) }
    ensures run { (rates : List Rate) (bytes : List ℕ) (kind other : Kind) (rows others : List TenantBill)
        (cut left : Option ℕ) (is : IsBook rates bytes kind rows cut) (also : IsBook rates bytes other others left)
        → is.book.events ≡ also.book.events }
    ensures right { (rates : List Rate) (bytes : List ℕ) (kind : Kind) (rows : List TenantBill) (cut : Option ℕ)
        (number : ℕ) (wrong : Wrong) → IsBook rates bytes kind rows cut → IsWrongText rates bytes number wrong → ⊥ }
    ensures wrong { (rates : List Rate) (bytes : List ℕ) (number other : ℕ) (wrong also : Wrong)
        → IsWrongText rates bytes number wrong → IsWrongText rates bytes other also
        → (number ≡ other) × (wrong ≡ also) }
{}
