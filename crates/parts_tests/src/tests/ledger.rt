//! share_ledger: worked figures, limits and orders of refusals, as rows of text. A ledger takes memory for its cache
//! when it is made, and for room for more currencies, tickets and flows if there is none left.

use crate::tests::allocator::{
    is_steered, keeps_none, lack, mark, refuse, took_none, was_answered, was_refused,
};
use crate::tests::assertions::{holds, same};
use share_base::{FlowNo, Name, Refusal};
use share_ledger::Ledger;
use std::alloc::Global;
use std::process::Abort;

/// The subject of a table, the rows that lead up to it, and its own rows, which take no memory. A row is a command of a
/// script (`open` without a limit and a tariff), or one of the words of `ask`. After ` = ` stands what it answers: a
/// number, or the name of a refusal.
type Table = (&'static str, &'static str, &'static str);

/// The answer to a call: a number, or nothing, or the refusal.
type Answer = Result<Option<u64>, Refusal>;

/// 100 of `base` back x, of which 3 back y and 4 fund a. 1 of y funds each of b and c.
const THREE_DEEP: &str =
    "mkcur x; mkcur y; open a = 1; open b = 2; open c = 3; mktkt 100 base = 1; fund 1 cur x;
    mktkt 3 x = 2; fund 2 cur y; mktkt 4 x = 3; fund 3 flow a; mktkt 1 y = 4; fund 4 flow b; mktkt 1 y = 5;
    fund 5 flow c";

/// 1000 of `base` back x, of which 1 funds a and 2 fund b.
const TWO_FLOWS: &str =
    "mkcur x; mktkt 1000 base = 1; fund 1 cur x; mktkt 1 x = 2; mktkt 2 x = 3; open a = 1;
    open b = 2; fund 2 flow a; fund 3 flow b";

/// Nine currencies c1 to c9, and a ticket of each with its number. The first seven tickets fund the next currency.
const CHAIN_OF_EIGHT: &str =
    "mkcur c1; mktkt 1 c1 = 1; mkcur c2; mktkt 1 c2 = 2; mkcur c3; mktkt 1 c3 = 3; mkcur c4;
    mktkt 1 c4 = 4; mkcur c5; mktkt 1 c5 = 5; mkcur c6; mktkt 1 c6 = 6; mkcur c7; mktkt 1 c7 = 7; mkcur c8;
    mktkt 1 c8 = 8; mkcur c9; mktkt 1 c9 = 9; fund 1 cur c2; fund 2 cur c3; fund 3 cur c4; fund 4 cur c5;
    fund 5 cur c6; fund 6 cur c7; fund 7 cur c8; open a = 1; back_16 1 base c9";

/// The tickets 1 to 16 fund the flow a, 17 to 32 back the currency x, and 33 and 34 are free.
const CROWDED: &str =
    "mkcur x; mkcur y; open a = 1; fund_16 a; back_16 1 base x; mktkt 1 base = 33; mktkt 1 x = 34";

/// Eight currencies, each backed by the one before it through sixteen tickets: 16^8 paths. 64 flows are funded by
/// fourteen tickets each of the last currency: 1024 tickets in all.
const DEEP_GRAPH: &str =
    "mkcur c1; mkcur c2; mkcur c3; mkcur c4; mkcur c5; mkcur c6; mkcur c7; mkcur c8;
    back_16 65536 base c1; back_16 65536 c1 c2; back_16 65536 c2 c3; back_16 65536 c3 c4; back_16 65536 c4 c5;
    back_16 65536 c5 c6; back_16 65536 c6 c7; back_16 65536 c7 c8; flows_64 c8";

const TABLES_ARE_FULL: &str =
    "why fresh = TableFull; why c07 = Taken; mkcur fresh = TableFull; mkcur c07 = Taken;
    mkcur base = Taken; open fresh = TableFull; open c07 = Taken; mktkt 1 base = TableFull; mktkt 0 fresh = Range;
    mktkt 1 fresh = NoCurrency";

static TABLES: [Table; 12] = [
    (
        "three currencies deep, with fewer and fewer flows",
        THREE_DEEP,
        "wake 1; wake 2; wake 3; tickets 1 = 57; tickets 2 = 21; tickets 3 = 21; rest 3; tickets 1 = 57;
            tickets 2 = 42; tickets 3 = 0; rest 2; tickets 1 = 100; tickets 2 = 0; flow b = 2; flow x",
    ),
    (
        "shares follow activity",
        TWO_FLOWS,
        "wake 1; tickets 1 = 1000; wake 2; tickets 1 = 333; tickets 2 = 666; rest 2; tickets 1 = 1000; tickets 2 = 0",
    ),
    (
        "an idle currency comes alive",
        "mkcur x; mktkt 5 x = 1; open a = 1; fund 1 flow a; mktkt 10 base = 2",
        "wake 1; tickets 1 = 0; fund 2 cur x; tickets 1 = 10",
    ),
    (
        "the tickets of a flow have a cap",
        "open a = 1; mktkt 1048576 base = 1; fund 1 flow a; mktkt 1048576 base = 2; fund 2 flow a",
        "wake 1; tickets 1 = 1048576",
    ),
    (
        "an amount is felt two currencies down: 16 of x are active, worth 100 and then 64; then 4, and at last 8",
        THREE_DEEP,
        "wake 1; wake 2; wake 3; amend 2 12; tickets 1 = 25; tickets 2 = 37; tickets 3 = 37; amend 1 64;
            tickets 1 = 16; tickets 2 = 24; tickets 3 = 24; rest 2; rest 3; tickets 1 = 64; amend 2 4; tickets 1 = 64;
            wake 2; tickets 1 = 32; tickets 2 = 32; tickets 3 = 0",
    ),
    (
        "amounts from 1 to 2^20",
        "mktkt 5 base = 1; open a = 1; mktkt 4294967297 base = Range; mktkt 18446744073709551615 base = Range",
        "amend 9 0 = Range; amend 9 1048577 = Range; amend 9 1 = NoTicket; fund 1 flow a; wake 1; amend 1 1048576;
            amend 1 1048577 = Range; tickets 1 = 1048576; amend 1 1; amend 1 0 = Range; tickets 1 = 1;
            amend 1 4294967297 = Range; amend 1 18446744073709551615 = Range",
    ),
    (
        "each row passes one test more than the row before it, and fails the next",
        CHAIN_OF_EIGHT,
        "fund 99 cur nope = NoTicket; fund 1 cur nope = NoCurrency; fund 1 cur base = Base; fund 1 cur c9 = Funding;
            fund 9 cur c9 = Crowded; fund 8 cur c9 = Crowded; fund 8 cur c1 = Cycle; unfund 25; fund 9 cur c9 = Cycle;
            fund 8 cur c9 = Deep; fund 25 cur c9; fund 99 flow nope = NoTicket; fund 1 flow nope = NoFlow;
            fund 1 flow a = Funding",
    ),
    (
        "a deep graph answers at once, whatever the number of paths",
        DEEP_GRAPH,
        "mktkt 1 base = TableFull; fund 1 cur c8 = Funding; wake_64; each 64 = 16380; rest 64; each 63 = 16632;
            tickets 64 = 0",
    ),
    (
        "flows by place",
        "open a = 1; open b = 2; mktkt 5 base = 1",
        "fund 1 flow b; wake 2; flows = 2; at 2; active 1 = 2; close 1; at 0 = 2; active 0 = 2; flows = 1;
            tickets_at 0 = 5; counts 0 = 5; counts 1; tickets 1 = 0",
    ),
    (
        "numbers are not cut to 32 bits: 2^32 + 1 is not 1",
        "mktkt 1 base = 1; open a = 1",
        "fund 4294967297 flow a = NoTicket; fund 4294967297 cur base = NoTicket; rmtkt 4294967297 = NoTicket;
            unfund 4294967297 = NoTicket; amend 4294967297 1 = NoTicket; fund 0 flow a = NoTicket;
            fund 0 cur base = NoTicket; rmtkt 0 = NoTicket; unfund 0 = NoTicket; amend 0 1 = NoTicket; fund 1 flow a",
    ),
    (
        "holders are crowded at sixteen, flows first",
        CROWDED,
        "mkcur x = Taken; open a = Taken; why a = Taken; why b; wake 1; tickets 1 = 16; fund 33 flow a = Crowded;
            fund 33 cur x = Crowded; unfund 16; tickets 1 = 15; fund 33 flow nope = NoFlow; fund 33 flow a;
            fund 33 flow a = Funding; tickets 1 = 16; tickets_at 0 = 16; each 1 = 16; rmtkt 33 = Funding; rmtkt 16;
            rest 1; active 0; tickets 1 = 0; close 1; flows = 0; rmtkt 1; next = 35",
    ),
    (
        "then currencies",
        CROWDED,
        "unfund 17; fund 17 cur nope = NoCurrency; fund 17 cur base = Base; fund 18 cur y = Funding;
            fund 34 cur x = Cycle; fund 17 cur y; rmcur y = InUse; unfund 17; rmcur y; fund 17 cur y = NoCurrency",
    ),
];

fn name(rt: &impl Abort, text: &str) -> Name {
    Name::read(text.as_bytes()).expect(rt, "a name")
}

fn number(rt: &impl Abort, text: &str) -> u64 {
    text.parse::<u64>().ok().expect(rt, "a number")
}

fn flow_no(rt: &impl Abort, text: &str) -> FlowNo {
    FlowNo(text.parse::<u32>().ok().expect(rt, "a flow"))
}

fn done(answer: Result<(), Refusal>) -> Answer {
    match answer {
        Ok(()) => Ok(None),
        Err(refusal) => Err(refusal),
    }
}

fn make_ticket(ledger: &mut Ledger, amount: u64, currency: Name) -> Answer {
    if ledger.next_ticket() == u32::MAX {
        return Err(Refusal::Spent);
    }
    let ticket = ledger.make_ticket(amount, currency)?;
    Ok(Some(u64::from(ticket.number())))
}

fn open(ledger: &mut Ledger, name: Name) -> Answer {
    if ledger.next_flow() == u32::MAX {
        return Err(Refusal::Spent);
    }
    let flow = ledger.add_flow(name)?;
    Ok(Some(u64::from(flow.number())))
}

fn fund(ledger: &mut Ledger, ticket: u64, kind: &str, holder: Name) -> Answer {
    done(match kind {
        "cur" => ledger.fund_currency(ticket, holder),
        _ => ledger.fund_flow(ticket, holder),
    })
}

// Makes a call, and gives its answer.
fn ask(rt: &impl Abort, ledger: &mut Ledger, call: &str) -> Answer {
    let mut words = call.split_whitespace();
    let verb = words.next().unwrap_or("");
    let first = words.next().unwrap_or("");
    let second = words.next().unwrap_or("");
    let third = words.next().unwrap_or("");
    match verb {
        "mkcur" => done(ledger.make_currency(name(rt, first))),
        "rmcur" => done(ledger.remove_currency(name(rt, first))),
        "mktkt" => make_ticket(ledger, number(rt, first), name(rt, second)),
        "rmtkt" => done(ledger.remove_ticket(number(rt, first))),
        "amend" => done(ledger.amend(number(rt, first), number(rt, second))),
        "fund" => fund(ledger, number(rt, first), second, name(rt, third)),
        "unfund" => done(ledger.unfund(number(rt, first))),
        "open" => open(ledger, name(rt, first)),
        "why" => why_not(ledger, name(rt, first)),
        "back_16" => fund_many(
            ledger,
            16,
            number(rt, first),
            name(rt, second),
            "cur",
            name(rt, third),
        ),
        "fund_16" => fund_many(ledger, 16, 1, name(rt, "base"), "flow", name(rt, first)),
        "flows_64" => open_and_fund(rt, ledger, name(rt, first)),
        "fill" => fill(rt, ledger),
        _ => read_or_turn(rt, ledger, verb, first),
    }
}

// Closes, wakes and rests flows, or reads.
fn read_or_turn(rt: &impl Abort, ledger: &mut Ledger, verb: &str, first: &str) -> Answer {
    match verb {
        "close" => ledger.remove_flow(flow_no(rt, first)),
        "wake" => ledger.set_active(flow_no(rt, first), true),
        "rest" => ledger.set_active(flow_no(rt, first), false),
        "wake_64" => {
            for flow in 1..=64 {
                ledger.set_active(FlowNo(flow), true);
            }
        }
        "flow" => return Ok(number_of(ledger.flow(name(rt, first)))),
        "flows" => return Ok(Some(ledger.flow_count() as u64)),
        "next" => return Ok(Some(u64::from(ledger.next_ticket()))),
        "tickets" => return Ok(Some(u64::from(ledger.tickets(flow_no(rt, first))))),
        _ => return read_place(ledger, verb, number(rt, first)),
    }
    Ok(None)
}

// Why no flow can be opened under a name.
fn why_not(ledger: &Ledger, flow: Name) -> Answer {
    match ledger.add_flow_refusal(flow) {
        Some(refusal) => Err(refusal),
        None => Ok(None),
    }
}

fn number_of(flow: Option<FlowNo>) -> Option<u64> {
    match flow {
        Some(flow) => Some(u64::from(flow.number())),
        None => None,
    }
}

// The number or the tickets of the flow at a place, or its number if it is active. Another answer is the tickets that
// each of that many first flows has.
fn read_place(ledger: &Ledger, verb: &str, first: u64) -> Answer {
    let place = usize::try_from(first).unwrap_or(usize::MAX);
    match verb {
        "at" => Ok(number_at(ledger, place, false)),
        "active" => Ok(number_at(ledger, place, true)),
        "counts" => Ok(count_at(ledger.ticket_counts(), place)),
        "tickets_at" if place < ledger.flow_count() => {
            Ok(Some(u64::from(ledger.tickets_at(place))))
        }
        "each" => Ok(tickets_of_each(ledger, u32::try_from(first).unwrap_or(0))),
        _ => Err(Refusal::Syntax),
    }
}

fn count_at(counts: &[u32], place: usize) -> Option<u64> {
    match counts.get(place) {
        Some(tickets) => Some(u64::from(*tickets)),
        None => None,
    }
}

fn number_at(ledger: &Ledger, place: usize, is_active: bool) -> Option<u64> {
    let (_, open) = ledger.flow_at(place)?;
    if is_active && !open.active {
        return None;
    }
    Some(u64::from(open.number.number()))
}

fn tickets_of_each(ledger: &Ledger, count: u32) -> Option<u64> {
    let tickets = ledger.tickets(FlowNo(1));
    for flow in 1..=count {
        if ledger.tickets(FlowNo(flow)) != tickets {
            return None;
        }
    }
    Some(u64::from(tickets))
}

// The k-th of many names: the letter, and two digits.
fn numbered(rt: &impl Abort, letter: u8, k: u32) -> Name {
    let tens = b'0' + (k / 10 % 10) as u8;
    let ones = b'0' + (k % 10) as u8;
    Name::read(&[letter, tens, ones]).expect(rt, "a name")
}

// Makes that many tickets of a currency, which fund a holder.
fn fund_many(
    ledger: &mut Ledger,
    count: u32,
    amount: u64,
    from: Name,
    kind: &str,
    holder: Name,
) -> Answer {
    for _ in 0..count {
        let ticket = make_ticket(ledger, amount, from)?;
        fund(ledger, ticket.unwrap_or(0), kind, holder)?;
    }
    Ok(None)
}

// Opens 64 flows, each funded by fourteen tickets of a currency.
fn open_and_fund(rt: &impl Abort, ledger: &mut Ledger, currency: Name) -> Answer {
    for k in 0..64 {
        open(ledger, numbered(rt, b'f', k))?;
    }
    for k in 0..64 {
        fund_many(ledger, 14, 1, currency, "flow", numbered(rt, b'f', k))?;
    }
    Ok(None)
}

// Makes the currencies c00 to c63, flows of the same names, and 1024 tickets.
fn fill(rt: &impl Abort, ledger: &mut Ledger) -> Answer {
    for k in 0..64 {
        ledger.make_currency(numbered(rt, b'c', k))?;
        open(ledger, numbered(rt, b'c', k))?;
    }
    let base = name(rt, "base");
    for _ in 0..1024 {
        make_ticket(ledger, 1, base)?;
    }
    Ok(None)
}

fn is(answer: Answer, wanted: &str) -> bool {
    match answer {
        Ok(None) => wanted.is_empty(),
        Ok(Some(number)) => wanted.parse::<u64>().ok() == Some(number),
        Err(refusal) => refusal.name() == wanted,
    }
}

// Makes the call of each row, and checks its answer.
fn play(rt: &impl Abort, ledger: &mut Ledger, table: &'static str, rows: &'static str) {
    for row in rows.split(';') {
        let row = row.trim();
        let (call, wanted) = row.split_once(" = ").unwrap_or((row, ""));
        if !call.is_empty() {
            holds(rt, (table, row), is(ask(rt, ledger, call), wanted));
        }
    }
}

fn plays(rt: &impl Abort, alloc: Global, ledger: &mut Ledger, table: Table) {
    let (text, first, rows) = table;
    play(rt, ledger, text, first);
    refuse(alloc, 1);
    play(rt, ledger, text, rows);
    took_none(rt, text, alloc);
}

#[test]
fn worked_rows_take_no_memory(rt: HostRuntime) {
    for &table in &TABLES {
        let mut ledger = Ledger::new(rt.alloc()).expect(&rt, "memory");
        plays(&rt, rt.alloc(), &mut ledger, table);
        drop(ledger);
    }
}

/// The requests of a new ledger. There are 6 for the funding tickets of 65 currencies, whose vector grows to 4, 8, 16,
/// 32, 64 and 128 of them. There are 6 for those of 65 flows, 1 for the tickets of the flows, and 2 for the routes.
/// There are 7 for the activity, the awake places, the weights, those that were seen, the values, the ranks and their
/// order.
const FOR_A_LEDGER: u16 = 22;

#[test]
fn a_ledger_is_made_once_its_memory_is_found(rt: HostRuntime) {
    let alloc = rt.alloc();
    let is_steered = is_steered(alloc);
    for request in 1..=FOR_A_LEDGER + 1 {
        let is_refused = is_steered && request <= FOR_A_LEDGER;
        mark(alloc);
        refuse(alloc, request);
        let refusal = Ledger::new(alloc).err();
        was_answered(&rt, request, alloc, is_refused, refusal, lack(is_refused));
    }
}

// Makes the k-th currency, flow or ticket, from 0.
fn grow(rt: &impl Abort, ledger: &mut Ledger, kind: &str, k: u32) -> Answer {
    match kind {
        "mkcur" => done(ledger.make_currency(numbered(rt, b'c', k))),
        "open" => open(ledger, numbered(rt, b'c', k)),
        _ => make_ticket(ledger, 1, name(rt, "base")),
    }
}

// Makes the k-th one after this many refusals, and no more. A refused change keeps what it was granted, so its second
// request is the one to refuse from then on.
fn grows(
    rt: &impl Abort,
    alloc: Global,
    ledger: &mut Ledger,
    kind: &'static str,
    k: u32,
    refusals: u16,
) {
    for refusal in 0..=refusals {
        let is_refused = refusal < refusals;
        mark(alloc);
        refuse(alloc, refusal.min(1) + 1);
        let answer = grow(rt, ledger, kind, k);
        let wanted = if is_refused {
            Err(Refusal::NoMemory)
        } else if kind == "mkcur" {
            Ok(None)
        } else {
            Ok(Some(u64::from(k) + 1))
        };
        let row = (kind, k, refusal);
        same(rt, row, was_refused(alloc), is_refused);
        same(rt, row, answer, wanted);
        if is_refused && refusal == 0 {
            keeps_none(rt, row, alloc);
        }
    }
}

// The requests of the k-th currency or flow, from 0. A map has room for 9, 18, 36 or 72 names, and grows by four
// requests. They are the hashes, the groups that find them, the names, and what is kept by them.
fn for_a_name(k: u32) -> u16 {
    match k {
        0 | 9 | 18 | 36 => 4,
        _ => 0,
    }
}

// The request of the k-th ticket, from 0. The vector has room for 4, 8, 16, .. or 1024 tickets.
fn for_a_ticket(k: u32) -> u16 {
    match k {
        0 | 4 | 8 | 16 | 32 | 64 | 128 | 256 | 512 => 1,
        _ => 0,
    }
}

// Makes 64 currencies and flows and 1024 tickets.
fn grows_full(rt: &impl Abort, alloc: Global, ledger: &mut Ledger, is_steered: bool) {
    for k in 0..64 {
        let refusals = if is_steered { for_a_name(k) } else { 0 };
        grows(rt, alloc, ledger, "mkcur", k, refusals);
        grows(rt, alloc, ledger, "open", k, refusals);
    }
    for k in 0..1024 {
        let refusals = if is_steered { for_a_ticket(k) } else { 0 };
        grows(rt, alloc, ledger, "mktkt", k, refusals);
    }
    play(rt, ledger, "full", TABLES_ARE_FULL);
    let room =
        "close 8; flow c07; open c07 = 65; rmcur c07; mkcur fresh; rmtkt 5; mktkt 1 fresh = 1025; next = 1026";
    play(rt, ledger, "room after removals", room);
}

#[test]
fn tables_grow_once_their_memory_is_found(rt: HostRuntime) {
    let is_steered = is_steered(rt.alloc());
    let mut ledger = Ledger::new(rt.alloc()).expect(&rt, "memory");
    grows_full(&rt, rt.alloc(), &mut ledger, is_steered);
    drop(ledger);
}

// Makes changes of which each request is refused in turn.
fn is_refused_in_part(rt: &impl Abort, alloc: Global, ledger: &mut Ledger) {
    for &kind in &["mkcur", "mktkt", "open"] {
        for request in 1..4 {
            refuse(alloc, request);
            let answer = grow(rt, ledger, kind, 99);
            let is_answered = !was_refused(alloc) || answer == Err(Refusal::NoMemory);
            holds(rt, (kind, request), is_answered);
        }
    }
}

#[test]
fn a_ledger_gives_its_memory_back(rt: HostRuntime) {
    let alloc = rt.alloc();
    for &rows in &["", "fill"] {
        mark(alloc);
        let mut ledger = Ledger::new(alloc).expect(&rt, "memory");
        play(&rt, &mut ledger, "before it is dropped", rows);
        is_refused_in_part(&rt, alloc, &mut ledger);
        drop(ledger);
        keeps_none(&rt, rows, alloc);
    }
}
