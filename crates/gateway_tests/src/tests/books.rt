//! Books over a plan: the worked one, the tenant that is held from its opening on, and the end of a life. After it the
//! next book goes on.

use super::assertions::{holds, same};
use super::made::{named, shared};
use super::tariffs::Four;
use share_base::{FlowNo, Name, Refusal, Reply};
use share_book::{Book, Carried, Closed, Taken, TextKind, Turned};
use share_gateway::{Currency, Outbox, Tenant};
use std::alloc::Global;
use std::process::Abort;

/// The fewest events of a book.
const EVENTS: u64 = 131072;

/// The lines of the opening of the two tenants.
const OPENING: &str =
    "mkcur x\nopen a 4 1\nopen b 4 1\nmktkt 1000 base\nfund 1 cur x\nmktkt 1 x\nfund 2 flow a\n\
    mktkt 2 x\nfund 3 flow b\n";

/// The frame of the first packet of b, `c`.
const FRAME: &[u8; 18] = b"L\x02\x01\0\0\0\x02\0\0\0\0\0\0\0\x01\0\x01c";

/// A kind of text, its first line, and the lines of three packets and a turn.
#[derive(Clone, Copy)]
struct Text {
    kind: TextKind,
    first: &'static str,
    lines: &'static str,
}

static TEXTS: [Text; 2] = [
    Text {
        kind: TextKind::Whole,
        first: "audit 2\n",
        lines: "send a 61\nsend a 62\nsend b 63\nturn 18\n",
    },
    Text {
        kind: TextKind::Lengths,
        first: "lengths 2\n",
        lines: "send a 1\nsend a 1\nsend b 1\nturn 18\n",
    },
];

/// A book over the plan of two tenants, the second held or not.
pub(super) fn opened(rt: &impl Abort, alloc: Global, held: bool, kind: TextKind) -> Book<Four> {
    let plan = shared(rt, alloc, 2, held);
    let book = Book::open(alloc, &plan, Four, EVENTS, kind);
    book.ok().expect(rt, "a book").begin()
}

/// Forgets the text of a book.
pub(super) fn drain(book: &mut Book<Four>) {
    let count = book.text().len();
    book.drained(count);
}

// Whether a text is these three pieces.
fn is_text(text: &[u8], first: &str, second: &str, third: &str) -> bool {
    text.strip_prefix(first.as_bytes())
        .and_then(|rest| rest.strip_prefix(second.as_bytes()))
        .is_some_and(|rest| rest == third.as_bytes())
}

// Takes a packet, which has this number.
fn takes(
    rt: &impl Abort,
    alloc: Global,
    book: &mut Book<Four>,
    word: &str,
    payload: &[u8],
    seq: u32,
) {
    let taken = book.take(alloc, named(rt, word), payload);
    same(rt, seq, taken, Taken::Packet { seq });
}

/// Takes two packets of a and one of b.
pub(super) fn take_three(rt: &impl Abort, alloc: Global, book: &mut Book<Four>) {
    takes(rt, alloc, book, "a", b"a", 1);
    takes(rt, alloc, book, "a", b"b", 2);
    takes(rt, alloc, book, "b", b"c", 1);
}

// Allows all frames of an outbox, compares their bytes, and empties it.
fn sends(rt: &impl Abort, what: &'static str, outbox: &mut Outbox, bytes: &[u8]) {
    outbox.allow(bytes.len());
    holds(rt, what, outbox.ready() == bytes);
    let count = outbox.ready().len();
    outbox.sent(count);
}

// The accounts and passes after the turn.
fn counts(rt: &impl Abort, what: &'static str, book: &Book<Four>) {
    let engine = book.engine();
    same(rt, what, engine.account(FlowNo(2)), Some(18));
    same(rt, what, engine.global().pass, 19346699);
    same(rt, what, engine.tickets(FlowNo(1)), Some(1000));
    let place = engine.position(FlowNo(1)).map(|position| position.place);
    same(rt, what, place, Some(1112415875));
}

// With two packets of a and one of b, one turn is made.
fn turns_once(rt: &impl Abort, text: &Text, book: &mut Book<Four>, outbox: &mut Outbox) {
    let wrote = Turned::Wrote {
        flow: FlowNo(2),
        seq: 1,
        count: 18,
    };
    same(rt, text.first, book.turn(outbox), wrote);
    sends(rt, text.first, outbox, FRAME.as_slice());
    counts(rt, text.first, book);
    let is_so = is_text(book.text(), text.first, OPENING, text.lines);
    holds(rt, text.first, is_so);
}

// Two packets of a and one of b come, and one turn is made.
fn works(rt: &impl Abort, alloc: Global, text: &Text, outbox: &mut Outbox) {
    let mut book = opened(rt, alloc, false, text.kind);
    take_three(rt, alloc, &mut book);
    turns_once(rt, text, &mut book, outbox);
    drain(&mut book);
    holds(rt, text.first, book.text().is_empty());
    drop(book);
}

#[test]
fn a_book_is_its_events_and_their_lines(rt: HostRuntime) {
    let mut outbox = Outbox::new(rt.alloc()).ok().expect(&rt, "an outbox");
    for text in &TEXTS {
        works(&rt, rt.alloc(), text, &mut outbox);
    }
    drop(outbox);
}

/// Holds a tenant, if the text has room for the line.
pub(super) fn hold(book: &mut Book<Four>, tenant: Name) -> Option<Reply> {
    if book.lacks_text() {
        return None;
    }
    Some(book.hold(tenant))
}

/// Ends the hold of a tenant, if the text has room for the line.
pub(super) fn resume(book: &mut Book<Four>, tenant: Name) -> Option<Reply> {
    if book.lacks_text() {
        return None;
    }
    Some(book.resume(tenant))
}

/// Amends a grant, if the text has room for the line.
pub(super) fn amend(book: &mut Book<Four>, name: Name, number: u64, amount: u64) -> Option<Reply> {
    if book.lacks_text() {
        return None;
    }
    Some(book.amend(name, number, amount))
}

// Holds and resumes have these answers.
fn holds_and_resumes(rt: &impl Abort, book: &mut Book<Four>) {
    let (a, b, z) = (named(rt, "a"), named(rt, "b"), named(rt, "z"));
    let held = Reply::Refused(Refusal::Held);
    let no_flow = Reply::Refused(Refusal::NoFlow);
    same(rt, "hold a", hold(book, a), Some(Reply::Done));
    same(rt, "hold b", hold(book, b), Some(held));
    same(rt, "resume b", resume(book, b), Some(Reply::Done));
    same(rt, "hold z", hold(book, z), Some(no_flow));
}

/// Amends: the name, the number of the grant, the amount, and why it is refused, if it is.
static AMENDS: [(&str, u64, u64, Option<Refusal>); 5] = [
    ("x", 1, 500, None),
    ("b", 1, 7, None),
    ("b", 1, 0, Some(Refusal::Range)),
    ("b", 2, 7, Some(Refusal::NoTicket)),
    ("z", 1, 7, Some(Refusal::NoCurrency)),
];

fn amends(rt: &impl Abort, book: &mut Book<Four>) {
    for &(name, number, amount, refusal) in &AMENDS {
        let wanted = match refusal {
            None => Reply::Done,
            Some(refusal) => Reply::Refused(refusal),
        };
        let reply = amend(book, named(rt, name), number, amount);
        same(rt, (name, number, amount), reply, Some(wanted));
    }
}

// The amount of the first grant of the first currency.
fn first_amount(currencies: &[Currency]) -> Option<u64> {
    let currency = currencies.first()?;
    let grant = currency.grants.first()?;
    Some(grant.amount)
}

// Whether a tenant is held, and the amount of its first grant.
fn tenant_at(tenants: &[Tenant], at: usize) -> Option<(bool, u64)> {
    let tenant = tenants.get(at)?;
    let grant = tenant.grants.first()?;
    Some((tenant.held, grant.amount))
}

// The plan is as it was changed.
fn is_changed(rt: &impl Abort, book: &Book<Four>) {
    let plan = book.plan();
    same(rt, "x", first_amount(plan.currencies()), Some(500));
    same(rt, "a", tenant_at(plan.tenants(), 0), Some((true, 1)));
    same(rt, "b", tenant_at(plan.tenants(), 1), Some((false, 7)));
}

#[test]
fn changes_are_events_and_change_the_plan(rt: HostRuntime) {
    let mut book = opened(&rt, rt.alloc(), true, TextKind::Whole);
    let is_so = is_text(book.text(), "audit 2\n", OPENING, "hold b\n");
    holds(&rt, "the opening", is_so);
    drain(&mut book);
    holds_and_resumes(&rt, &mut book);
    amends(&rt, &mut book);
    let lines = b"hold a\nhold b\nresume b\nhold z\namend 1 500\namend 3 7\namend 3 0\n";
    holds(&rt, "lines", book.text() == lines.as_slice());
    is_changed(&rt, &book);
    drop(book);
}

/// Makes events until the life is spent: a hold, refused but for the first, for each that is left.
pub(super) fn spend(rt: &impl Abort, book: &mut Book<Four>) {
    let a = named(rt, "a");
    for _event in 0..EVENTS {
        match hold(book, a) {
            None => drain(book),
            Some(Reply::Refused(Refusal::Spent)) => break,
            Some(_) => (),
        }
    }
    same(rt, "events", book.engine().events(), EVENTS);
}

// The next book takes over what waits, and goes on with it as one in which the packets come.
fn goes_on(rt: &impl Abort, alloc: Global, closed: &mut Closed, outbox: &mut Outbox) {
    let text = &TEXTS[1];
    let plan = shared(rt, alloc, 2, false);
    let next = Book::open(alloc, &plan, Four, EVENTS, text.kind);
    let mut next = next.ok().expect(rt, "a book");
    let carried = next.carry(closed);
    same(rt, "carried", carried, Carried::Done { dropped: 0 });
    let mut book = next.begin();
    turns_once(rt, text, &mut book, outbox);
    takes(rt, alloc, &mut book, "b", b"d", 2);
    drop(book);
    drop(plan);
}

#[test]
fn a_spent_book_gives_what_waits_to_the_next(rt: HostRuntime) {
    let mut outbox = Outbox::new(rt.alloc()).ok().expect(&rt, "an outbox");
    let mut book = opened(&rt, rt.alloc(), false, TextKind::Lengths);
    take_three(&rt, rt.alloc(), &mut book);
    spend(&rt, &mut book);
    let taken = book.take(rt.alloc(), named(&rt, "b"), b"d");
    same(&rt, "a packet", taken, Taken::Spent);
    drain(&mut book);
    same(&rt, "a turn", book.turn(&mut outbox), Turned::Spent);
    let mut closed = book.close();
    let waiting = (closed.waiting(FlowNo(1)), closed.waiting(FlowNo(2)));
    same(&rt, "waiting", waiting, (2, 1));
    let totals = closed.totals();
    same(&rt, "totals", (totals.accepted, totals.written), (3, 0));
    holds(&rt, "text", closed.text().is_empty());
    goes_on(&rt, rt.alloc(), &mut closed, &mut outbox);
    drop(closed);
    drop(outbox);
}
