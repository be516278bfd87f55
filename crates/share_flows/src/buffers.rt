//! The buffers of the open flows, found by the numbers of the flows.
ghost use Rattle.std.specs.Prelude.{◌≡◌, ◌<◌, ◌≤◌, ◌^◌, [], true, false, position, IfOk, IfErr, OnOk, ◌-◌};
ghost use Rattle.std.specs.Prelude.{length, slice_get, MatchOption, None, Some, IsSome, IfSome, IsTrue, option_map};
ghost use Rattle.share_base.specs.Body.{IsHeaderLength};
ghost use Rattle.share_base.specs.Refusal.{IsRefused};
ghost use Rattle.share_base.specs.declared.refusal.Refusal.TheVariants.{NoMemory};
ghost use Rattle.share_model.specs.link.Buffers.{buffer_of, is_buffer_of, open_in, close_in, count_in, push_in, pop_in};
ghost use Rattle.share_model.specs.link.Buffers.{backlog_of, is_full, head_of, is_busy, payloads_in};
ghost use Rattle.share_flows.specs.BufferHandles.{Stands, AreApart};
ghost use Rattle.share_flows.specs.Stamps.{stamp_in};
ghost use Rattle.share_flows.specs.Limit.{limit_refusal};

use crate::ring::{MAX_LIMIT, Ring};
use share_base::{Body, FlowNo, Refusal};
use share_model::Backlog;
use std::alloc::Global;
use std::marker::Model;

/// The number of buffers with room at the start. A buffer beyond them takes memory for its place when it is opened.
const ROOM: usize = 64;

/// The handle of a flow's buffer, as `find` gave it. It is good while no buffer is opened or closed.
#[derive(Clone, Copy, Debug)]
pub struct BufferHandle {
    pub flow: FlowNo,
    pub at: usize,
}

/// A buffer for each open flow. A contract sees them as a list in order of opening. Each has its flow, its limit and
/// the next sequence number. It has the payload of each packet that it holds, and the bytes stamped before it.
pub struct Buffers {
    alloc: Global,
    rings: Vec<Ring>,
}

impl Drop for Buffers {
    fn drop(self) {
        let Buffers { alloc: _, rings } = self;
        drop(rings);
    }
}

impl Model for Buffers {
    ghost use Rattle.std.specs.Prelude.{List};
    ghost use Rattle.share_flows.specs.Stamps.{BufferView};
    ghost use Rattle.share_flows.specs.BufferHandles.{AreApart};

    ghost Value = { List BufferView };

    ghost view = { λ b. b.rings.items };

    ghost invariant = { λ b. AreApart b.rings.items };
}

impl Buffers {
    /// No buffers, with places for 64. `NoMemory` if the memory for these is refused.
    pub fn new(alloc: Global) -> Result<Buffers, Refusal>
        ensures ok { IfOk result (λ b. b ≡ []) }
        ensures refused { IfErr result (λ e. e ≡ NoMemory) }
    {
        let rings = Vec::with_capacity(alloc, ROOM)?;
        Ok(Buffers { alloc, rings })
    }

    /// Opens the buffer of a flow that has none, with room for `limit` packets, 1 to 1024. No later call takes memory
    /// for it. `Range` if the limit is out of range, `NoMemory` if memory is refused; then nothing changes.
    pub fn open(&mut self, flow: FlowNo, limit: u64) -> Result<(), Refusal>
        requires { buffer_of self.old flow ≡ None }
        ensures ok { OnOk result
            ((self.new ≡ open_in self.old flow limit) × (limit_refusal limit ≡ None)) }
        ensures refused { IfErr result
            (λ e. (self.new ≡ self.old) × IsRefused (limit_refusal limit) e) }
    {
        if limit < 1 || limit > MAX_LIMIT {
            return Err(Refusal::Range);
        }
        self.rings.reserve(1)?;
        let ring = Ring::new(self.alloc, flow, limit as usize)?;
        self.rings.push_reserved(ring);
        Ok(())
    }

    /// The handle of a flow's buffer. `None` if the flow is not open. It takes no memory.
    pub fn find(&self, flow: FlowNo) -> Option<BufferHandle>
        ensures { MatchOption result (buffer_of self.now flow ≡ None)
            (λ handle. (handle.flow ≡ flow) × IsSome (buffer_of self.now flow) × Stands self.now handle) }
    {
        match place_of(self.rings.as_slice(), flow) {
            None => None,
            Some(at) => Some(BufferHandle { flow, at }),
        }
    }

    // The handle of an open flow's buffer.
    fn handle(&self, flow: FlowNo) -> BufferHandle
        requires { IsSome (buffer_of self.now flow) }
        ensures flow { result.flow ≡ flow }
        ensures stands { Stands self.now result }
    {
        match self.find(flow) {
            None => unreachable!(),
            Some(handle) => handle,
        }
    }

    /// The sequence number that the next packet of a flow takes. It takes no memory.
    pub fn next_number(&self, flow: FlowNo) -> u64
        requires { IsSome (buffer_of self.now flow) }
        ensures { IfSome (buffer_of self.now flow) (λ b. result ≡ b.next) }
    {
        let handle = self.handle(flow);
        self.rings[handle.at].next_number()
    }

    /// Puts a packet at the back of a flow's buffer and gives its sequence number, which counts the packets from 1. If
    /// the buffer is full, it gives the packet back, takes no number and changes nothing. It takes no memory.
    pub fn push(&mut self, flow: FlowNo, body: Body) -> Result<u32, Body>
        requires there { IsSome (buffer_of self.old flow) }
        requires numbers { IfSome (buffer_of self.old flow)
            (λ b. is_full b ≡ false → b.next < 2 ^ 32) }
        ensures ok { IfOk result (λ number.
            IfSome (buffer_of self.old flow) (λ b. (number ≡ b.next) × (is_full b ≡ false))
            × (self.new ≡ push_in self.old flow body)) }
        ensures full { IfErr result (λ back.
            (back ≡ body)
            × IfSome (buffer_of self.old flow) (λ b. is_full b ≡ true)
            × (self.new ≡ self.old)) }
    {
        let handle = self.handle(flow);
        self.push_at(&handle, body)
    }

    /// The same, by a handle, which stays good.
    pub fn push_at(&mut self, handle: &BufferHandle, body: Body) -> Result<u32, Body>
        requires there { Stands self.old handle.now }
        requires numbers { IfSome (buffer_of self.old handle.now.flow)
            (λ b. is_full b ≡ false → b.next < 2 ^ 32) }
        ensures ok { IfOk result (λ number.
            IfSome (buffer_of self.old handle.now.flow) (λ b. (number ≡ b.next) × (is_full b ≡ false))
            × (self.new ≡ push_in self.old handle.now.flow body)) }
        ensures full { IfErr result (λ back.
            (back ≡ body)
            × IfSome (buffer_of self.old handle.now.flow) (λ b. is_full b ≡ true)
            × (self.new ≡ self.old)) }
        ensures stands { Stands self.new handle.now }
    {
        let ring = &mut self.rings[handle.at];
        ring.push(body)
    }

    /// The sequence number and the payload of the head packet of a flow's buffer, which holds one. It takes no memory.
    pub fn head(&self, flow: FlowNo) -> (u32, &Body)
        requires { IsTrue (is_busy self.now flow) }
        ensures { head_of self.now flow
            ≡ Some (record { flow = flow; seq = result.0; payload = result.1.now }) }
    {
        let Some(handle) = self.find(flow) else {
            unreachable!()
        };
        match self.head_at(&handle) {
            None => unreachable!(),
            Some(head) => head,
        }
    }

    /// The sequence number and the payload of the head packet of a handle's buffer. `None` if the buffer is empty. It
    /// takes no memory.
    pub fn head_at(&self, handle: &BufferHandle) -> Option<(u32, &Body)>
        requires { Stands self.now handle.now }
        ensures { MatchOption result (head_of self.now handle.now.flow ≡ None) (λ h.
            head_of self.now handle.now.flow
            ≡ Some (record { flow = handle.now.flow; seq = h.0; payload = h.1.now })) }
    {
        self.rings[handle.at].head()
    }

    /// Takes the head packet out of a flow's buffer, which holds one, and gives its payload. It takes no memory.
    pub fn pop(&mut self, flow: FlowNo) -> Body
        requires { IsTrue (is_busy self.old flow) }
        ensures head { option_map (λ h. h.payload) (head_of self.old flow) ≡ Some result }
        ensures after { self.new ≡ pop_in self.old flow }
    {
        match self.find(flow) {
            None => unreachable!(),
            Some(handle) => self.pop_at(&handle),
        }
    }

    /// The same, by a handle, which stays good.
    pub fn pop_at(&mut self, handle: &BufferHandle) -> Body
        requires there { Stands self.old handle.now }
        requires busy { IsTrue (is_busy self.old handle.now.flow) }
        ensures head { option_map (λ h. h.payload) (head_of self.old handle.now.flow) ≡ Some result }
        ensures after { self.new ≡ pop_in self.old handle.now.flow }
        ensures stands { Stands self.new handle.now }
    {
        let ring = &mut self.rings[handle.at];
        ring.pop()
    }

    /// Stamps a header, 12 or 17 bytes, before the payload of the head packet of a flow's buffer, which holds one. It
    /// changes no payload, and takes no memory.
    pub fn stamp(&mut self, flow: FlowNo, header: &[u8])
        requires busy { IsTrue (is_busy self.old flow) }
        requires header { IsHeaderLength (length header.now) }
        ensures after { self.new ≡ stamp_in self.old flow header.now }
        ensures payloads { payloads_in self.new ≡ payloads_in self.old }
    {
        match self.find(flow) {
            None => unreachable!(),
            Some(handle) => self.stamp_at(&handle, header),
        }
    }

    /// The same, by a handle, which stays good.
    pub fn stamp_at(&mut self, handle: &BufferHandle, header: &[u8])
        requires there { Stands self.old handle.now }
        requires busy { IsTrue (is_busy self.old handle.now.flow) }
        requires header { IsHeaderLength (length header.now) }
        ensures after { self.new ≡ stamp_in self.old handle.now.flow header.now }
        ensures payloads { payloads_in self.new ≡ payloads_in self.old }
        ensures stands { Stands self.new handle.now }
    {
        let ring = &mut self.rings[handle.at];
        ring.stamp(header);
    }

    /// The number of packets that a flow's buffer holds, at most its limit; 0 if the flow is not open. It takes no
    /// memory.
    pub fn len(&self, flow: FlowNo) -> u32
        ensures count { result ≡ count_in self.now flow }
        ensures limit { IfSome (buffer_of self.now flow) (λ b. result ≤ b.limit) }
    {
        match self.find(flow) {
            None => 0,
            Some(handle) => self.rings[handle.at].count(),
        }
    }

    /// The backlog of a flow's buffer. `None` if the flow is not open. It takes no memory.
    pub fn backlog(&self, flow: FlowNo) -> Option<Backlog>
        ensures { result ≡ backlog_of self.now flow }
    {
        let handle = self.find(flow)?;
        Some(self.rings[handle.at].backlog())
    }

    /// Whether a flow is open and its buffer holds a packet. It takes no memory.
    pub fn is_busy(&self, flow: FlowNo) -> bool
        ensures { result ≡ is_busy self.now flow }
    {
        match self.find(flow) {
            None => false,
            Some(handle) => self.is_busy_at(&handle),
        }
    }

    /// Whether the buffer of a handle has a packet. It takes no memory.
    pub fn is_busy_at(&self, handle: &BufferHandle) -> bool
        requires { Stands self.now handle.now }
        ensures { result ≡ is_busy self.now handle.now.flow }
    {
        self.rings[handle.at].is_busy()
    }

    /// Closes the buffer of a flow, drops its packets and returns their number. It takes no memory.
    pub fn close(&mut self, flow: FlowNo) -> u32
        requires { IsSome (buffer_of self.old flow) }
        ensures count { result ≡ count_in self.old flow }
        ensures after { self.new ≡ close_in self.old flow }
    {
        let handle = self.handle(flow);
        let ring = self.rings.remove(handle.at);
        ring.count()
    }
}

// The place of a flow's ring, if there is one. Flows are mostly opened in the order of their numbers. So the first try
// is the place that it has if no flow between the first one and it was closed. Then comes a search by halves, and only
// then each ring in turn.
fn place_of(rings: &[Ring], flow: FlowNo) -> Option<usize>
    requires { AreApart rings.now }
    ensures { result ≡ position (is_buffer_of flow) rings.now }
{
    let place = past_first(rings, flow);
    if stands_at(rings, flow, place) {
        return Some(place);
    }
    let place = by_halves(rings, flow);
    if stands_at(rings, flow, place) {
        return Some(place);
    }
    rings.iter().position(|ring| ring.is_of(flow))
}

// Whether the ring at a place is there, and of this flow.
fn stands_at(rings: &[Ring], flow: FlowNo, place: usize) -> bool
    requires { AreApart rings.now }
    ensures { IsTrue result → position (is_buffer_of flow) rings.now ≡ Some place }
{
    place < rings.len() && rings[place].is_of(flow)
}

// The distance of the flow's number past that of the first ring, and 0 if it is not past it.
fn past_first(rings: &[Ring], flow: FlowNo) -> usize
    ensures { MatchOption (slice_get rings.now 0) (result ≡ 0) (λ first. result ≡ flow - first.flow) }
{
    match rings.first() {
        None => 0,
        Some(first) => first.numbers_to(flow) as usize,
    }
}

// The place of a flow's ring, if it is there and the rings are in the order of flow numbers.
fn by_halves(rings: &[Ring], flow: FlowNo) -> usize
    ensures { result ≤ length rings.now }
{
    let mut low = 0;
    let mut high = rings.len();
    while low < high {
        let middle = low + (high - low) / 2;
        if rings[middle].is_before(flow) {
            low = middle + 1;
        } else {
            high = middle;
        }
    }
    low
}
