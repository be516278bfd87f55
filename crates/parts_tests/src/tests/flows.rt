//! share_flows: worked rows of the buffers, and their memory. They take places for 64 when they are made, a ring for
//! each that is opened, and none after that.
ghost use Rattle.std.specs.Prelude.{◌≡◌, ◌<◌, ◌^◌, false, length, IfSome, IsTrue};
ghost use Rattle.share_base.specs.Body.{IsHeaderLength};
ghost use Rattle.share_model.specs.link.Buffers.{buffer_of, is_full};
ghost use Rattle.share_flows.specs.BufferHandles.{Stands};

use crate::tests::allocator::{
    is_steered, keeps_none, lack, mark, refuse, took_none, was_answered, was_refused,
};
use crate::tests::assertions::{holds, same};
use share_base::{Body, FlowNo, Refusal, ZeroFrame};
use share_flows::{BufferHandle, Buffers};
use share_model::Backlog;
use std::alloc::Global;
use std::process::Abort;

/// A call on the buffer of a flow, and its answer. A packet is named by the one byte of its payload. A call that its
/// contract does not allow is not made, and fails its row.
#[derive(Clone, Copy, Debug)]
enum Row {
    /// A buffer with this limit is opened.
    Open(u32, u64, Option<Result<(), Refusal>>),
    /// A packet is put in: it gets a number, or comes back.
    Push(u32, u8, Option<Result<u32, u8>>),
    /// The head packet and its number.
    Head(u32, Option<(u32, u8)>),
    /// The head packet is taken out.
    Pop(u32, Option<u8>),
    /// A packet is put in by the handle of the flow's buffer, and the head packet and its number are taken out.
    Through(u32, u8, Option<(u32, u8)>),
    /// A header is stamped before the head packet, by the flow and by the handle of its buffer.
    Stamp(u32, &'static [u8]),
    StampAt(u32, &'static [u8]),
    /// The bytes stamped before the head packet, and its payload; no bytes if there is no packet.
    Framed(u32, &'static [u8]),
    /// The buffer is closed: how many packets it held.
    Close(u32, Option<u32>),
    /// The number of packets that it holds and its limit.
    Shows(u32, Option<(u32, u32)>),
}

// The first byte of a payload.
fn byte_of(body: &Body) -> u8 {
    *body.as_slice().first().unwrap_or(&0)
}

fn open(buffers: &mut Buffers, flow: FlowNo, limit: u64) -> Option<Result<(), Refusal>> {
    if buffers.find(flow).is_some() {
        return None;
    }
    Some(buffers.open(flow, limit))
}

fn push(buffers: &mut Buffers, flow: FlowNo, body: Body) -> Option<Result<u32, u8>> {
    let _ = buffers.find(flow)?;
    if buffers.next_number(flow) > 4_294_967_295 {
        return None;
    }
    match buffers.push(flow, body) {
        Ok(number) => Some(Ok(number)),
        Err(back) => Some(Err(byte_of(&back))),
    }
}

fn head(buffers: &Buffers, flow: FlowNo) -> Option<(u32, u8)> {
    if !buffers.is_busy(flow) {
        return None;
    }
    let (number, body) = buffers.head(flow);
    Some((number, byte_of(body)))
}

fn is_framed(buffers: &Buffers, flow: FlowNo, framed: &[u8]) -> bool {
    if !buffers.is_busy(flow) {
        return framed.is_empty();
    }
    let (_, body) = buffers.head(flow);
    body.framed_in(&mut ZeroFrame::new()) == framed
}

fn pop(buffers: &mut Buffers, flow: FlowNo) -> Option<u8> {
    if !buffers.is_busy(flow) {
        return None;
    }
    Some(byte_of(&buffers.pop(flow)))
}

// The number of the head packet of a handle's buffer, and 0 if there is none.
fn number_at(buffers: &Buffers, handle: &BufferHandle) -> u32
    requires { Stands buffers.now handle.now }
{
    match buffers.head_at(handle) {
        None => 0,
        Some((number, _)) => number,
    }
}

fn through_at(buffers: &mut Buffers, handle: &BufferHandle, body: Body) -> Option<(u32, u8)>
    requires there { Stands buffers.old handle.now }
    requires numbers { IfSome (buffer_of buffers.old handle.now.flow)
        (λ b. is_full b ≡ false → b.next < 2 ^ 32) }
{
    if buffers.push_at(handle, body).is_err() || !buffers.is_busy_at(handle) {
        return None;
    }
    let number = number_at(buffers, handle);
    let taken = buffers.pop_at(handle);
    Some((number, byte_of(&taken)))
}

fn through(buffers: &mut Buffers, flow: FlowNo, body: Body) -> Option<(u32, u8)> {
    let handle = buffers.find(flow)?;
    if buffers.next_number(flow) > 4_294_967_295 {
        return None;
    }
    through_at(buffers, &handle, body)
}

// Whether a header is as long.
fn is_header(bytes: &[u8]) -> bool
    ensures { IsTrue result → IsHeaderLength (length bytes.now) }
{
    bytes.len() == 12 || bytes.len() == 17
}

fn stamp(buffers: &mut Buffers, flow: FlowNo, header: &[u8]) -> bool {
    if !buffers.is_busy(flow) || !is_header(header) {
        return false;
    }
    buffers.stamp(flow, header);
    true
}

fn stamp_at(buffers: &mut Buffers, flow: FlowNo, header: &[u8]) -> bool {
    let Some(handle) = buffers.find(flow) else {
        return false;
    };
    if !buffers.is_busy_at(&handle) || !is_header(header) {
        return false;
    }
    buffers.stamp_at(&handle, header);
    true
}

fn close(buffers: &mut Buffers, flow: FlowNo) -> Option<u32> {
    let _ = buffers.find(flow)?;
    Some(buffers.close(flow))
}

fn shows(buffers: &Buffers, flow: FlowNo) -> Option<(u32, u32)> {
    let Backlog { packets, limit } = buffers.backlog(flow)?;
    let agrees = buffers.len(flow) == packets && buffers.is_busy(flow) == (packets > 0);
    if agrees { Some((packets, limit)) } else { None }
}

// Whether the call of a row gives the row's answer.
fn is_answered(rt: &impl Abort, alloc: Global, buffers: &mut Buffers, row: Row) -> bool {
    match row {
        Row::Open(flow, limit, answer) => open(buffers, FlowNo(flow), limit) == answer,
        Row::Push(flow, byte, answer) => {
            push(buffers, FlowNo(flow), body(rt, alloc, byte)) == answer
        }
        Row::Head(flow, packet) => head(buffers, FlowNo(flow)) == packet,
        Row::Pop(flow, byte) => pop(buffers, FlowNo(flow)) == byte,
        Row::Through(flow, byte, packet) => {
            through(buffers, FlowNo(flow), body(rt, alloc, byte)) == packet
        }
        Row::Stamp(flow, header) => stamp(buffers, FlowNo(flow), header),
        Row::StampAt(flow, header) => stamp_at(buffers, FlowNo(flow), header),
        Row::Framed(flow, framed) => is_framed(buffers, FlowNo(flow), framed),
        Row::Close(flow, dropped) => close(buffers, FlowNo(flow)) == dropped,
        Row::Shows(flow, shown) => shows(buffers, FlowNo(flow)) == shown,
    }
}

// A payload of one byte, which takes no memory.
fn body(rt: &impl Abort, alloc: Global, byte: u8) -> Body {
    Body::new(alloc, &[byte]).expect(rt, "a payload")
}

fn play(rt: &impl Abort, alloc: Global, buffers: &mut Buffers, rows: &[Row]) {
    for row in rows {
        holds(rt, *row, is_answered(rt, alloc, buffers, *row));
    }
}

/// Limits have a range, closing gives the count of the packets held, and a buffer opened again numbers from 1.
static OPENED: [Row; 13] = [
    Row::Shows(1, None),
    Row::Open(1, 4, Some(Ok(()))),
    Row::Push(1, b'1', Some(Ok(1))),
    Row::Push(1, b'2', Some(Ok(2))),
    Row::Push(1, b'3', Some(Ok(3))),
    Row::Push(1, b'4', Some(Ok(4))),
    Row::Pop(1, Some(b'1')),
    Row::Close(1, Some(3)),
    Row::Open(1, 1, Some(Ok(()))),
    Row::Shows(1, Some((0, 1))),
    Row::Open(7, 3, Some(Ok(()))),
    Row::Open(9, 1024, Some(Ok(()))),
    Row::Shows(9, Some((0, 1024))),
];

/// These calls take no memory. A refused packet takes no number, a handle is of its flow, and a header replaces the one
/// before it.
static USED: [Row; 30] = [
    Row::Open(2, 0, Some(Err(Refusal::Range))),
    Row::Open(2, 1025, Some(Err(Refusal::Range))),
    Row::Open(2, 4294967297, Some(Err(Refusal::Range))),
    Row::Shows(2, None),
    Row::Push(1, b'1', Some(Ok(1))),
    Row::Push(1, b'2', Some(Err(b'2'))),
    Row::Through(1, b'3', None),
    Row::Shows(1, Some((1, 1))),
    Row::Head(1, Some((1, b'1'))),
    Row::Framed(1, b"1"),
    Row::Stamp(1, b"abcdefghijkl"),
    Row::Framed(1, b"abcdefghijkl1"),
    Row::StampAt(1, b"ABCDEFGHIJKLMNOPQ"),
    Row::Framed(1, b"ABCDEFGHIJKLMNOPQ1"),
    Row::Stamp(1, b"abcdefghijkl"),
    Row::Framed(1, b"abcdefghijkl1"),
    Row::Pop(1, Some(b'1')),
    Row::Push(1, b'4', Some(Ok(2))),
    Row::Through(7, b'5', Some((1, b'5'))),
    Row::Push(7, b'6', Some(Ok(2))),
    Row::Push(7, b'7', Some(Ok(3))),
    Row::StampAt(7, b"abcdefghijkl"),
    Row::Framed(7, b"abcdefghijkl6"),
    Row::Framed(1, b"4"),
    Row::Pop(7, Some(b'6')),
    Row::Framed(7, b"7"),
    Row::Close(1, Some(1)),
    Row::Close(7, Some(1)),
    Row::Shows(1, None),
    Row::Shows(9, Some((0, 1024))),
];

fn takes_none(rt: &impl Abort, alloc: Global, buffers: &mut Buffers) {
    play(rt, alloc, buffers, &OPENED);
    refuse(alloc, 1);
    play(rt, alloc, buffers, &USED);
    took_none(rt, "packets", alloc);
}

#[test]
fn packets_are_held_and_take_no_memory(rt: HostRuntime) {
    let mut buffers = Buffers::new(rt.alloc()).expect(&rt, "memory");
    takes_none(&rt, rt.alloc(), &mut buffers);
    drop(buffers);
}

/// The number of buffers that have places from the start.
const ROOM: u32 = 64;

// Opens the buffer of the next flow while a request of the call is refused. All buffers before it have a packet, and
// keep it.
fn is_opened(
    rt: &impl Abort,
    alloc: Global,
    buffers: &mut Buffers,
    flow: u32,
    request: u16,
    is_refused: bool,
) {
    mark(alloc);
    refuse(alloc, request);
    let answer = open(buffers, FlowNo(flow), 2);
    same(rt, (flow, request), was_refused(alloc), is_refused);
    let (wanted, next) = if is_refused {
        (Err(Refusal::NoMemory), Row::Shows(flow, None))
    } else {
        (Ok(()), Row::Push(flow, 7, Some(Ok(1))))
    };
    same(rt, (flow, request), answer, Some(wanted));
    if is_refused {
        keeps_none(rt, (flow, request), alloc);
    }
    play(rt, alloc, buffers, &[next]);
    for before in 1..flow {
        play(rt, alloc, buffers, &[Row::Shows(before, Some((1, 2)))]);
    }
}

// Opens 64 buffers and one more. Each makes a request for its ring, and the last one another before it, for places.
fn opens_all(rt: &impl Abort, alloc: Global, buffers: &mut Buffers, is_steered: bool) {
    for flow in 1..=ROOM + 1 {
        if is_steered {
            is_opened(rt, alloc, buffers, flow, 1, true);
        }
        if is_steered && flow > ROOM {
            is_opened(rt, alloc, buffers, flow, 2, true);
        }
        is_opened(rt, alloc, buffers, flow, 2, false);
    }
    for flow in 1..=ROOM + 1 {
        let rows = [
            Row::Push(flow, 8, Some(Ok(2))),
            Row::Push(flow, 9, Some(Err(9))),
            Row::Pop(flow, Some(7)),
        ];
        play(rt, alloc, buffers, &rows);
    }
}

#[test]
fn buffers_are_made_and_opened_once_their_memory_is_found(rt: HostRuntime) {
    let alloc = rt.alloc();
    let is_steered = is_steered(alloc);
    mark(alloc);
    refuse(alloc, 1);
    let none = Buffers::new(alloc).err();
    let row = "new buffers";
    was_answered(&rt, row, alloc, is_steered, none, lack(is_steered));
    refuse(alloc, 2);
    let mut buffers = Buffers::new(alloc).expect(&rt, "one request");
    same(&rt, "new buffers", was_refused(alloc), false);
    opens_all(&rt, alloc, &mut buffers, is_steered);
    drop(buffers);
}

// Two long payloads are held, a third comes back, and one is taken out.
fn holds_long(rt: &impl Abort, alloc: Global, buffers: &mut Buffers) {
    let flow = FlowNo(1);
    same(rt, "a buffer", open(buffers, flow, 2), Some(Ok(())));
    for &answer in &[Ok(1), Ok(2), Err(b'x')] {
        let body = Body::new(alloc, &[b'x'; 40]).expect(rt, "a payload");
        same(rt, "a payload", push(buffers, flow, body), Some(answer));
    }
    same(rt, "the head", pop(buffers, flow), Some(b'x'));
}

fn closes(rt: &impl Abort, alloc: Global, buffers: &mut Buffers) {
    mark(alloc);
    holds_long(rt, alloc, buffers);
    same(rt, "held", close(buffers, FlowNo(1)), Some(1));
    keeps_none(rt, "a closed buffer", alloc);
}

fn is_refused_one(rt: &impl Abort, alloc: Global, buffers: &mut Buffers) {
    refuse(alloc, 1);
    let answer = open(buffers, FlowNo(2), 2);
    let wanted = if was_refused(alloc) {
        Err(Refusal::NoMemory)
    } else {
        Ok(())
    };
    same(rt, "one more", answer, Some(wanted));
}

#[test]
fn buffers_give_their_memory_back(rt: HostRuntime) {
    let alloc = rt.alloc();
    let mut buffers = Buffers::new(alloc).expect(&rt, "memory");
    closes(&rt, alloc, &mut buffers);
    drop(buffers);
    mark(alloc);
    let mut buffers = Buffers::new(alloc).expect(&rt, "memory");
    holds_long(&rt, alloc, &mut buffers);
    is_refused_one(&rt, alloc, &mut buffers);
    drop(buffers);
    keeps_none(&rt, "dropped buffers", alloc);
}
