//! share_base: spellings of names, lengths of payloads and headers, and the texts of refusals.
ghost use Rattle.std.specs.Prelude.{◌≤◌};

use crate::tests::allocator::{asked_for, is_steered, mark, refuse, took_none, was_answered};
use crate::tests::assertions::{holds, same};
use share_base::{
    Body, FlowNo, HEADER_ROOM, MAX_IN_PLACE, MAX_PAYLOAD, Name, Parcel, Refusal, Reply, TicketNo,
    ZeroFrame,
};
use std::alloc::Global;
use std::cmp::Ordering;
use std::hash::{DefaultHasher, Hash, Hasher};
use std::process::Abort;

/// Bytes, and whether they spell a name.
static NAMES: [(&[u8], bool); 17] = [
    (b"a", true),
    (b"base", true),
    (b"z9_-", true),
    (b"abcdefghijklmnop", true),
    (b"abcdefghijklmnopq", false),
    (b"", false),
    (b"A", false),
    (b"aB", false),
    (b"9a", false),
    (b"_a", false),
    (b"-a", false),
    (b"a\x00", false),
    (b"a\xff", false),
    (b"a b", false),
    (b"a.b", false),
    (b"a`", false),
    (b"a{", false),
];

/// Two names and their order. The hashes of equal names are equal, and of these others differ.
static ORDERS: [(&[u8], &[u8], Ordering); 6] = [
    (b"a", b"a", Ordering::Equal),
    (b"a", b"aa", Ordering::Less),
    (b"b", b"aa", Ordering::Greater),
    (b"a-", b"a0", Ordering::Less),
    (b"a_", b"a9", Ordering::Greater),
    (b"abcdefghijklmnop", b"abcdefghijklmnoq", Ordering::Less),
];

// Whether the bytes spell a name, which gives them back.
fn is_name(bytes: &[u8]) -> bool {
    match Name::read(bytes) {
        Some(name) => name.as_bytes() == bytes,
        None => false,
    }
}

fn hash_of(name: &Name) -> u64 {
    let mut state = DefaultHasher::new();
    name.hash(&mut state);
    state.finish()
}

fn are_ordered(left: &[u8], right: &[u8], order: Ordering) -> bool {
    let (Some(left), Some(right)) = (Name::read(left), Name::read(right)) else {
        return false;
    };
    let is_equal = order == Ordering::Equal;
    left.cmp(&right) == order
        && left.partial_cmp(&right) == Some(order)
        && (left == right) == is_equal
        && (hash_of(&left) == hash_of(&right)) == is_equal
}

#[test]
fn names_are_spelled_ordered_and_hashed(rt: HostRuntime) {
    for &(bytes, is_one) in &NAMES {
        same(&rt, bytes, is_name(bytes), is_one);
    }
    for &(left, right, order) in &ORDERS {
        holds(&rt, (left, right), are_ordered(left, right, order));
    }
}

/// A call that makes a payload.
#[derive(Clone, Copy, Debug)]
enum Made {
    Body,
    Parcel,
}

// Makes it. Returns whether it holds the payload, a parcel in both halves.
fn makes(alloc: Global, made: Made, payload: &[u8]) -> Result<bool, Refusal> {
    match made {
        Made::Body => {
            let body = Body::new(alloc, payload)?;
            let holds = body.as_slice() == payload;
            drop(body);
            Ok(holds)
        }
        Made::Parcel => {
            let parcel = Parcel::new(alloc, payload)?;
            let counts = parcel.len() == payload.len();
            let (sending, audit) = parcel.split();
            let holds = counts && sending.as_slice() == payload && audit.as_slice() == payload;
            drop(sending);
            drop(audit);
            Ok(holds)
        }
    }
}

/// Room for a header, and sixteen bytes after it.
const ROOM_AND_SIXTEEN: &[u8; HEADER_ROOM + MAX_IN_PLACE] = b".................0123456789abcdef";

/// Headers that are stamped in turn, so that each length comes after itself and after the other one.
static HEADERS: [&[u8]; 5] = [
    b"abcdefghijkl",
    b"ABCDEFGHIJKL",
    b"abcdefghijklmnopq",
    b"ABCDEFGHIJKLMNOPQ",
    b"0123456789ab",
];

// Whether a body that `from_vec` makes of this vector is stamped with each header.
fn is_vector_stamped(vector: Vec<u8>, payload: &[u8]) -> bool {
    if vector.len() <= HEADER_ROOM || vector.len() > HEADER_ROOM + MAX_PAYLOAD {
        return false;
    }
    shows_all(Body::from_vec(vector), payload)
}

/// The number of zeros that make a payload: the bounds, what a value holds, and one byte more.
static ZEROS: [usize; 5] = [1, 2, 16, 17, 9000];

// The same of a body that `zeros` makes of each of these counts.
fn are_zeros_stamped(alloc: Global) -> bool {
    let longest = [0; MAX_PAYLOAD];
    let mut are_stamped = true;
    for &count in &ZEROS {
        if count < 1 || count > MAX_PAYLOAD {
            return false;
        }
        are_stamped = are_stamped && shows_all(Body::zeros(alloc, count), &longest[..count]);
    }
    are_stamped
}

// The same of a body that `from_array` makes of the first bytes of the sixteen.
fn is_array_stamped(alloc: Global, payload: &[u8]) -> bool {
    let count = payload.len();
    if count < 1 || count > MAX_IN_PLACE {
        return false;
    }
    shows_all(Body::from_array(alloc, *ROOM_AND_SIXTEEN, count), payload)
}

// Whether the body shows its payload alone, and then each header before it.
fn shows_all(body: Body, payload: &[u8]) -> bool {
    let mut body = body;
    let mut frame = ZeroFrame::new();
    let mut shows = body.framed_in(&mut frame) == payload && body.as_slice() == payload;
    for &header in &HEADERS {
        shows = shows && shows_header(&mut body, &mut frame, header, payload);
    }
    drop(body);
    shows
}

// Stamps a header. Returns whether the body shows it and the payload.
fn shows_header(body: &mut Body, frame: &mut ZeroFrame, header: &[u8], payload: &[u8]) -> bool {
    if header.len() != 12 && header.len() != 17 {
        return false;
    }
    body.stamp(header);
    body.framed_in(frame).strip_prefix(header) == Some(payload) && body.as_slice() == payload
}

/// Each refusal: its number, its name and its text.
static REFUSALS: [(Refusal, &str); 22] = [
    (Refusal::NoMemory, "1 NoMemory: memory was refused"),
    (
        Refusal::Spent,
        "2 Spent: the link has made as many events as its life allows",
    ),
    (
        Refusal::Syntax,
        "3 Syntax: the line is not one that can be read",
    ),
    (
        Refusal::Range,
        "4 Range: a number or a payload is out of its range",
    ),
    (
        Refusal::NoCurrency,
        "5 NoCurrency: no currency has this name",
    ),
    (Refusal::NoTicket, "6 NoTicket: no ticket has this number"),
    (Refusal::NoFlow, "7 NoFlow: no open flow has this name"),
    (Refusal::NoTariff, "8 NoTariff: no tariff has this number"),
    (Refusal::Taken, "9 Taken: the name is taken"),
    (
        Refusal::Base,
        "10 Base: the base currency can be neither removed nor funded",
    ),
    (
        Refusal::InUse,
        "11 InUse: a ticket is denominated in the currency, or funds it",
    ),
    (Refusal::Funding, "12 Funding: the ticket has a holder"),
    (Refusal::Unfunded, "13 Unfunded: the ticket has no holder"),
    (
        Refusal::Crowded,
        "14 Crowded: the holder is funded by as many tickets as it may be",
    ),
    (Refusal::Cycle, "15 Cycle: the currency would back itself"),
    (
        Refusal::Deep,
        "16 Deep: the chain of currencies would be too long",
    ),
    (Refusal::TableFull, "17 TableFull: the table is full"),
    (
        Refusal::Sending,
        "18 Sending: a frame of the flow is in part",
    ),
    (
        Refusal::BufferFull,
        "19 BufferFull: the buffer of the flow is full",
    ),
    (Refusal::Broken, "20 Broken: the link is broken"),
    (Refusal::Held, "21 Held: the flow is held"),
    (Refusal::NotHeld, "22 NotHeld: the flow is not held"),
];

fn is_told(alloc: Global, refusal: Refusal, text: &str) -> bool {
    match format!(in alloc; "{} {}: {refusal}", refusal.number(), refusal.name()) {
        Ok(told) => told.as_str() == text,
        Err(_) => false,
    }
}

// Whether a reply, a refusal and the numbers are given again.
fn are_words() -> bool {
    let reply = Reply::Closed {
        flow: FlowNo(1),
        dropped: 3,
        account: 13,
    };
    let refusal = Refusal::Held;
    reply.same() == reply
        && refusal.same() == refusal
        && refusal.number() == 21
        && refusal.name() == "Held"
        && FlowNo(7).number() == 7
        && TicketNo(4_294_967_295).number() == 4_294_967_295
}

#[test]
fn refusals_have_numbers_names_and_texts(rt: HostRuntime) {
    for &(refusal, text) in &REFUSALS {
        holds(&rt, text, is_told(rt.alloc(), refusal, text));
    }
    holds(&rt, "words", are_words());
}

/// A call that makes a value, its payload, and the number of requests that it takes. A body takes one if its payload
/// and the room before it have more than 33 bytes, and it is for no more than these. A parcel has two bodies.
static COPIES: [(Made, &[u8], u16); 11] = [
    (Made::Body, b"", 0),
    (Made::Body, b"0", 0),
    (Made::Body, b"0123456789abcdef", 0),
    (Made::Body, b"0123456789abcdefg", 1),
    (Made::Body, &[7; 1491], 1),
    (Made::Body, &[7; 9000], 1),
    (Made::Parcel, b"0", 0),
    (Made::Parcel, b"0123456789abcdef", 0),
    (Made::Parcel, b"0123456789abcdefg", 2),
    (Made::Parcel, &[7; 9000], 2),
    (Made::Parcel, &[7; 9001], 0),
];

// The answer with ample memory: a payload has 1 to 9000 bytes.
fn made_of(payload: &[u8]) -> Result<bool, Refusal> {
    if payload.is_empty() || payload.len() > MAX_PAYLOAD {
        return Err(Refusal::Range);
    }
    Ok(true)
}

#[test]
fn payloads_are_copied_once_their_memory_is_found(rt: HostRuntime) {
    let alloc = rt.alloc();
    let is_steered = is_steered(alloc);
    for &(kind, payload, requests) in &COPIES {
        for request in 1..4 {
            mark(alloc);
            refuse(alloc, request);
            let answer = makes(alloc, kind, payload);
            let is_refused = is_steered && request <= requests;
            let wanted = if is_refused {
                Err(Refusal::NoMemory)
            } else {
                made_of(payload)
            };
            let row = (kind, payload.len(), request);
            was_answered(&rt, row, alloc, is_refused, answer, wanted);
        }
        mark(alloc);
        let answer = makes(alloc, kind, payload);
        let each = u16::try_from(payload.len().saturating_add(HEADER_ROOM)).unwrap_or(u16::MAX);
        let bytes = requests.saturating_mul(each);
        asked_for(&rt, (kind, bytes), alloc, bytes, is_steered);
        same(&rt, (kind, bytes), answer, made_of(payload));
    }
}

// Whether all calls that take no memory answer as they should. The vectors hold the room and the payload.
fn are_answered(alloc: Global, parcel: Parcel, long: Vec<u8>, short: Vec<u8>) -> bool {
    let (sending, audit) = parcel.split();
    let halves = shows_all(sending, b"0123456789abcdefg") && shows_all(audit, b"0123456789abcdefg");
    let long = is_vector_stamped(long, b"0123456789abcdefg");
    let short = is_vector_stamped(short, b"0123456789abcdef");
    let array = is_array_stamped(alloc, b"0123456789abcdef");
    let zeros = are_zeros_stamped(alloc);
    let [left, right] = [b"a-", b"a0"];
    halves
        && long
        && short
        && array
        && zeros
        && are_ordered(left, right, Ordering::Less)
        && are_words()
}

#[test]
fn other_calls_take_no_memory(rt: HostRuntime) {
    let alloc = rt.alloc();
    let long = b".................0123456789abcdefg";
    let parcel = Parcel::new(alloc, &long[HEADER_ROOM..]).expect(&rt, "a parcel");
    let long = Vec::from_slice(alloc, long).expect(&rt, "memory");
    let short = Vec::from_slice(alloc, ROOM_AND_SIXTEEN).expect(&rt, "memory");
    refuse(alloc, 1);
    let are_answered = are_answered(alloc, parcel, long, short);
    took_none(&rt, "other calls", alloc);
    holds(&rt, "the answers", are_answered);
}
