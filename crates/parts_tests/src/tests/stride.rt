//! share_stride: worked figures on a queue, and what it takes of memory: room for all clients when it is made, and none
//! after that.

use crate::tests::allocator::{
    is_steered, keeps_none, lack, mark, refuse, took_none, was_answered,
};
use crate::tests::assertions::{holds, same};
use share_base::FlowNo;
use share_stride::Queue;
use std::alloc::Global;
use std::process::Abort;

/// The answer to a row: a number, or nothing, or the refusal of a move.
type Answer = Result<Option<i128>, &'static str>;

// A row is a move of a flow, with its tickets or its units, or what the queue shows after the rows before it. The
// answer is after ` = `. `competes` and `rests` answer the tickets of a flow, `place` its pass or remain, and `least`
// the flow with the least pass. `tickets` answers those of all flows that compete, `pass` the global pass, and `last`
// the clock at its last update.

/// Three flows with 3, 2 and 1 tickets compete, and each frame is of 1024 units. The rows show the flow that is picked,
/// and the figures of all after the third pick and after the last one.
const THREE_FLOWS: &str =
    "add 1; join 1 3; add 2; join 2 2; add 3; join 3 1; stride 1 = 366503875925;
    stride 2 = 549755813888; stride 3 = 1099511627776; least = 1; charge 1 1024; least = 2; charge 2 1024; least = 1;
    charge 1 1024; place 1 = 1099511627775; place 2 = 1099511627776; place 3 = 1099511627776; least = 1;
    charge 1 1024; leave 1; least = 2; charge 2 1024; leave 2; least = 3; charge 3 1024; leave 3; least; tickets = 0;
    pass = 2199023255549; last = 6144; clock = 6144; rests 1 = 3; stride 1 = 366503875925; place 1 = 733007751852;
    rests 2 = 2; stride 2 = 549755813888; place 2 = 549755813891; rests 3 = 1; stride 3 = 1099511627776; place 3 = 3";

/// When tickets change, a remain changes with the strides, and not with the tickets.
const RESCALED: &str =
    "add 1; add 2; join 1 1000; modify 1 333; join 2 666; competes 1 = 333; stride 1 = 3301836720;
    place 1 = 3301836720; competes 2 = 666; stride 2 = 1650918360; place 2 = 1650918360; least = 2; charge 2 13;
    leave 2; modify 1 1000; pass = 13972616; rests 2 = 666; stride 2 = 1650918360; place 2 = 1657904668;
    place 1 = 1108831361";

/// A flow leaves while it is behind the global pass, and returns with other tickets.
const BEHIND: &str =
    "add 1; add 2; join 1 1; join 2 1; least = 1; charge 1 3072; leave 2; pass = 1649267441664;
    rests 2 = 1; stride 2 = 1099511627776; place 2 = -549755813888; join 2 3; competes 2 = 3;
    stride 2 = 366503875925; place 2 = 1466015503701; least = 2";

/// A flow that joins late begins at the global pass.
const JOINS_LATE: &str = "add 1; add 2; join 1 1; join 2 1; place 2 = 1099511627776; charge 1 1024;
    place 1 = 2199023255552; least = 2";

/// A flow that is charged after it left keeps the charge.
const CHARGED_LATE: &str =
    "add 1; join 1 1; leave 1; charge 1 1024; rests 1 = 1; stride 1 = 1099511627776;
    place 1 = 2199023255552; least; join 1 1; pass = 0; place 1 = 2199023255552; least = 1";

/// A levelling joins, leaves and changes; if nothing has to change, the global pass is not updated.
const LEVELLED: &str =
    "add 1; add 2; level 1 1; level 2 1; competes 1 = 1; stride 1 = 1099511627776;
    place 1 = 1099511627776; charge 1 1024; level 1 1; pass = 0; last = 0; level 2 0; rests 2 = 1;
    stride 2 = 1099511627776; place 2 = 549755813888; charge 1 1024; level 2 0; pass = 549755813888; last = 1024;
    level 1 2; competes 1 = 2; stride 1 = 549755813888; place 1 = 2473901162496; pass = 1649267441664; last = 2048;
    level 2 3; competes 2 = 3; stride 2 = 366503875925; place 2 = 1832519379626; tickets = 5; least = 2";

/// After 64 flows joined with a ticket each, a tie goes to the least number.
const TIES: &str =
    "least = 1; charge 1 1024; least = 2; leave 2; pass = 17179869184; place 2 = 1082331758592;
    least = 3; join 2 1; place 2 = 1099511627776; least = 2; leave 3; remove 3; add 65";

const MOST_TICKETS: u32 = 1_048_576;

const LAST_CLOCK: u64 = 1_099_511_627_776;

fn add(queue: &mut Queue, flow: FlowNo) -> Answer {
    if queue.contains(flow) {
        return Err("barred");
    }
    match queue.add(flow) {
        Ok(()) => Ok(None),
        Err(refusal) => Err(refusal.name()),
    }
}

// Makes a move, unless the queue's contract does not allow it.
fn make(queue: &mut Queue, verb: &str, flow: FlowNo, amount: u64) -> Answer {
    if verb == "add" {
        return add(queue, flow);
    }
    if !queue.contains(flow) {
        return Err("barred");
    }
    let is_competing = queue.position(flow).competing;
    let tickets = u32::try_from(amount).unwrap_or(u32::MAX);
    let has_tickets = tickets > 0 && tickets <= MOST_TICKETS;
    match verb {
        "join" if !is_competing && has_tickets => queue.join(flow, tickets),
        "leave" if is_competing => queue.leave(flow),
        "modify" if is_competing && has_tickets => queue.modify(flow, tickets),
        "level" if tickets <= MOST_TICKETS => queue.level(flow, tickets),
        "charge" if amount <= LAST_CLOCK - queue.global().clock => queue.charge(flow, amount),
        "remove" if !is_competing => queue.remove(flow),
        _ => return Err("barred"),
    }
    Ok(None)
}

// The figures that the queue shows of a flow.
fn shows(queue: &Queue, verb: &str, flow: FlowNo) -> Option<i128> {
    if !queue.contains(flow) {
        return None;
    }
    let position = queue.position(flow);
    match verb {
        "competes" if position.competing => Some(i128::from(position.tickets)),
        "rests" if !position.competing => Some(i128::from(position.tickets)),
        "stride" => Some(i128::from(position.stride)),
        "place" => Some(position.place),
        _ => None,
    }
}

fn number_in(word: Option<&str>) -> u64 {
    match word {
        Some(word) => word.parse::<u64>().unwrap_or(0),
        None => 0,
    }
}

fn ask(queue: &mut Queue, call: &str) -> Answer {
    let mut words = call.split_whitespace();
    let verb = words.next().unwrap_or("");
    let flow = FlowNo(u32::try_from(number_in(words.next())).unwrap_or(0));
    let amount = number_in(words.next());
    match verb {
        "least" => Ok(queue.least().map(|flow| i128::from(flow.number()))),
        "tickets" => Ok(Some(i128::from(queue.global().tickets))),
        "pass" => Ok(i128::try_from(queue.global().pass).ok()),
        "last" => Ok(Some(i128::from(queue.global().last))),
        "clock" => Ok(Some(i128::from(queue.global().clock))),
        "competes" | "rests" | "stride" | "place" => Ok(shows(queue, verb, flow)),
        _ => make(queue, verb, flow, amount),
    }
}

fn is(answer: Answer, wanted: &str) -> bool {
    match answer {
        Ok(None) => wanted.is_empty(),
        Ok(Some(number)) => wanted.parse::<i128>().ok() == Some(number),
        Err(why) => why == wanted,
    }
}

fn play(rt: &impl Abort, queue: &mut Queue, case: &'static str, rows: &'static str) {
    for row in rows.split(';') {
        let row = row.trim();
        let (call, wanted) = row.split_once(" = ").unwrap_or((row, ""));
        holds(rt, (case, row), is(ask(queue, call), wanted));
    }
}

// 64 flows are added and one more is refused. They join from the last to the first.
fn fill(rt: &impl Abort, queue: &mut Queue) {
    for flow in 1..=64 {
        let added = make(queue, "add", FlowNo(flow), 0);
        same(rt, ("add", flow), added, Ok(None));
    }
    play(rt, queue, "full", "add 65 = TableFull");
    for flow in (1..=64).rev() {
        let joined = make(queue, "join", FlowNo(flow), 1);
        same(rt, ("join", flow), joined, Ok(None));
    }
    for flow in 1..=64 {
        let place = shows(queue, "place", FlowNo(flow));
        same(rt, ("place", flow), place, Some(1_099_511_627_776));
    }
}

static CASES: [(&str, &str); 7] = [
    ("three flows", THREE_FLOWS),
    ("rescaled", RESCALED),
    ("behind", BEHIND),
    ("joins late", JOINS_LATE),
    ("charged late", CHARGED_LATE),
    ("levelled", LEVELLED),
    ("ties", TIES),
];

// Plays rows while the first request would be refused.
fn plays(
    rt: &impl Abort,
    alloc: Global,
    queue: &mut Queue,
    case: &'static str,
    rows: &'static str,
) {
    refuse(alloc, 1);
    if case == "ties" {
        fill(rt, queue);
    }
    play(rt, queue, case, rows);
    took_none(rt, case, alloc);
}

#[test]
fn worked_figures_take_no_memory(rt: HostRuntime) {
    let alloc = rt.alloc();
    for &(case, rows) in &CASES {
        mark(alloc);
        let mut queue = Queue::new(alloc).expect(&rt, "memory");
        plays(&rt, alloc, &mut queue, case, rows);
        drop(queue);
        keeps_none(&rt, case, alloc);
    }
}

/// The requests of a new queue, one each. They are for the flows' keys, the clients, the entries of the heap, and the
/// seats of the keys in it.
const FOR_A_QUEUE: u16 = 4;

#[test]
fn a_queue_is_made_once_its_memory_is_found(rt: HostRuntime) {
    let alloc = rt.alloc();
    let is_steered = is_steered(alloc);
    for request in 1..=FOR_A_QUEUE + 1 {
        let is_refused = is_steered && request <= FOR_A_QUEUE;
        mark(alloc);
        refuse(alloc, request);
        let refusal = Queue::new(alloc).err();
        was_answered(&rt, request, alloc, is_refused, refusal, lack(is_refused));
    }
}
