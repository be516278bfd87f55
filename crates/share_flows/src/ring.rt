//! The buffer of one flow.
ghost use Rattle.std.specs.Prelude.{◌≡◌, ◌<◌, ◌≤◌, ◌^◌, ◌-◌, ◌∷◌, true, false, length, nat_lt, IfOk, IfErr};
ghost use Rattle.std.specs.Prelude.{MatchOption, None, Some};
ghost use Rattle.share_model.specs.link.Buffers.{is_buffer_of, new_buffer, is_full, with_packet, without_head};
ghost use Rattle.share_model.specs.link.Buffers.{backlog_in, head_of_buffer, is_some_packet};
ghost use Rattle.share_base.specs.Body.{IsHeaderLength};
ghost use Rattle.share_flows.specs.Stamps.{with_stamp};

use circular_buffer::HeapCircularBuffer;
use share_base::{Body, FlowNo};
use share_model::Backlog;
use std::alloc::{AllocError, Global};
use std::marker::Model;

/// The greatest limit of a buffer, in packets.
pub const MAX_LIMIT: u64 = 1024;

/// The packets of a flow in order of arrival, and the next sequence number. The limit of the buffer is the capacity of
/// the ring.
#[derive(Drop)]
pub struct Ring {
    flow: FlowNo,
    // 2^32 when all numbers are used up: it is never given.
    next: u64,
    packets: HeapCircularBuffer<Body>,
}

impl Model for Ring {
    ghost use Rattle.std.specs.Prelude.{◌≤◌, ◌<◌, ◌^◌, length};
    ghost use Rattle.share_flows.specs.Stamps.{BufferView};
    ghost use Rattle.share_flows.specs.declared.ring.TheConstants.{MAX_LIMIT};

    ghost Value = { BufferView };

    ghost view = { λ r.
        record { flow = r.flow; limit = r.packets.capacity; next = r.next; packets = r.packets.items } };

    ghost invariant = { λ r.
        (r.packets.capacity ≤ MAX_LIMIT)
        × (length r.packets.items ≤ r.packets.capacity)
        × (length r.packets.items < r.next)
        × (r.next ≤ 2 ^ 32) };
}

impl Ring {
    /// An empty buffer, with room for its limit.
    pub fn new(alloc: Global, flow: FlowNo, limit: usize) -> Result<Ring, AllocError>
        requires { limit ≤ MAX_LIMIT }
        ensures { IfOk result (λ r. r ≡ new_buffer flow limit) }
    {
        let packets = HeapCircularBuffer::with_capacity(alloc, limit)?;
        Ok(Ring {
            flow,
            next: 1,
            packets,
        })
    }

    /// Whether it is the buffer of this flow.
    pub fn is_of(&self, flow: FlowNo) -> bool
        ensures { result ≡ is_buffer_of flow self.now }
    {
        flow.number() == self.flow.number()
    }

    /// The distance of a flow's number past that of its own flow, and 0 if it is not past it.
    pub fn numbers_to(&self, flow: FlowNo) -> u32
        ensures { result ≡ flow - self.now.flow }
    {
        flow.number().saturating_sub(self.flow.number())
    }

    /// Whether its own flow's number is less than this one.
    pub fn is_before(&self, flow: FlowNo) -> bool
        ensures { result ≡ nat_lt self.now.flow flow }
    {
        self.flow.number() < flow.number()
    }

    /// The sequence number that the next packet takes.
    pub fn next_number(&self) -> u64
        ensures { result ≡ self.now.next }
    {
        self.next
    }

    /// The number of packets that it holds.
    pub fn count(&self) -> u32
        ensures count { result ≡ length self.now.packets }
        ensures limit { result ≤ self.now.limit }
    {
        self.packets.len() as u32
    }

    /// Its backlog.
    pub fn backlog(&self) -> Backlog
        ensures { result ≡ backlog_in self.now }
    {
        Backlog {
            packets: self.packets.len() as u32,
            limit: self.packets.capacity() as u32,
        }
    }

    /// Whether it holds a packet.
    pub fn is_busy(&self) -> bool
        ensures { result ≡ is_some_packet self.now.packets }
    {
        !self.packets.is_empty()
    }

    /// Puts a packet at the back and gives its sequence number. If the buffer is full, it gives the packet back. It
    /// takes no memory.
    pub fn push(&mut self, body: Body) -> Result<u32, Body>
        requires { is_full self.old ≡ false → self.old.next < 2 ^ 32 }
        ensures ok { IfOk result (λ number.
            (number ≡ self.old.next)
            × (is_full self.old ≡ false)
            × (self.new ≡ with_packet body self.old)) }
        ensures full { IfErr result (λ back.
            (back ≡ body)
            × (is_full self.old ≡ true)
            × (self.new ≡ self.old)) }
    {
        match self.packets.try_push_back(body) {
            Err(body) => Err(body),
            Ok(()) => {
                let number = self.next;
                self.next = number + 1;
                Ok(number as u32)
            }
        }
    }

    /// Takes the head packet out.
    pub fn pop(&mut self) -> Body
        requires { is_some_packet self.old.packets ≡ true }
        ensures head { self.old.packets ≡ result ∷ self.new.packets }
        ensures after { self.new ≡ without_head self.old }
    {
        match self.packets.pop_front() {
            None => unreachable!(),
            Some(body) => body,
        }
    }

    /// Stamps a header, 12 or 17 bytes, before the payload of the head packet, which there is.
    pub fn stamp(&mut self, header: &[u8])
        requires some { is_some_packet self.old.packets ≡ true }
        requires header { IsHeaderLength (length header.now) }
        ensures { self.new ≡ with_stamp header.now self.old }
    {
        match self.packets.get_mut(0) {
            None => unreachable!(),
            Some(body) => body.stamp(header),
        }
    }

    /// The sequence number of the head packet, and its payload.
    pub fn head(&self) -> Option<(u32, &Body)>
        ensures { MatchOption result (head_of_buffer self.now ≡ None) (λ h.
            head_of_buffer self.now
            ≡ Some (record { flow = self.now.flow; seq = h.0; payload = h.1.now })) }
    {
        let next = self.next;
        let body = self.packets.front()?;
        Some(((next - self.packets.len() as u64) as u32, body))
    }
}
