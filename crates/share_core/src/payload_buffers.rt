//! The buffers of a link, and the frames that are made in them.
ghost use Rattle.std.specs.Prelude.{◌≡◌, ◌<◌, ◌≤◌, ◌^◌, [], ◌++◌, true, false, take, drop, length, IfOk, IfErr, OnOk};
ghost use Rattle.std.specs.Prelude.{None, Some, IsSome, IfSome, IsTrue, MatchOption, option_map};
ghost use Rattle.share_base.specs.Body.{IsHeaderLength};
ghost use Rattle.share_base.specs.Refusal.{IsRefused};
ghost use Rattle.share_base.specs.declared.refusal.Refusal.TheVariants.{NoMemory};
ghost use Rattle.share_model.specs.link.Buffers.{buffer_of, open_in, close_in, count_in, push_in, pop_in, is_full};
ghost use Rattle.share_model.specs.link.Buffers.{backlog_of, head_of, is_busy};
ghost use Rattle.share_model.specs.io.Told.{Fits};
ghost use Rattle.share_flows.specs.Limit.{limit_refusal};
ghost use Rattle.share_flows.specs.BufferHandles.{Stands};

use share_base::{Body, FlowNo, Refusal, ZeroFrame};
use share_flows::{BufferHandle, Buffers};
use share_model::{Answer, Backlog, TellingWriter};
use std::alloc::Global;
use std::marker::Model;

/// The buffers of the open flows. A contract sees their payloads alone: a header is stamped before one whenever its
/// frame is offered, and nothing else reads it.
#[derive(Drop)]
pub struct PayloadBuffers {
    buffers: Buffers,
    // Shows the frames whose payloads are zeros.
    frame: ZeroFrame,
}

impl Model for PayloadBuffers {
    ghost use Rattle.std.specs.Prelude.{List};
    ghost use Rattle.share_model.specs.link.Buffers.{Buffer, payloads_in};

    ghost Value = { List Buffer };

    ghost view = { λ b. payloads_in b.buffers };
}

impl PayloadBuffers {
    /// No buffers. `NoMemory` if the memory for their places is refused.
    pub(crate) fn new(alloc: Global) -> Result<PayloadBuffers, Refusal>
        ensures ok { IfOk result (λ b. b ≡ []) }
        ensures refused { IfErr result (λ e. e ≡ NoMemory) }
    {
        let buffers = Buffers::new(alloc)?;
        Ok(PayloadBuffers {
            buffers,
            frame: ZeroFrame::new(),
        })
    }

    /// Opens the buffer of a flow that has none, with all its room.
    pub(crate) fn open(&mut self, flow: FlowNo, limit: u64) -> Result<(), Refusal>
        requires { buffer_of self.old flow ≡ None }
        ensures ok { OnOk result
            ((self.new ≡ open_in self.old flow limit) × (limit_refusal limit ≡ None)) }
        ensures refused { IfErr result
            (λ e. (self.new ≡ self.old) × IsRefused (limit_refusal limit) e) }
    {
        self.buffers.open(flow, limit)
    }

    /// The handle of a flow's buffer. `None` if the flow is not open.
    pub(crate) fn find(&self, flow: FlowNo) -> Option<BufferHandle>
        ensures { MatchOption result (buffer_of self.now flow ≡ None)
            (λ handle. (handle.flow ≡ flow) × IsSome (buffer_of self.now flow) × Stands self.now handle) }
    {
        self.buffers.find(flow)
    }

    /// Puts a packet at the back of the buffer of a handle, and gives its sequence number. If the buffer is full, it
    /// gives the packet back and changes nothing.
    pub(crate) fn push_at(&mut self, handle: &BufferHandle, body: Body) -> Result<u32, Body>
        requires there { Stands self.old handle.now }
        requires numbers { IfSome (buffer_of self.old handle.now.flow)
            (λ b. is_full b ≡ false → b.next < 2 ^ 32) }
        ensures ok { IfOk result (λ number.
            IfSome (buffer_of self.old handle.now.flow) (λ b. (number ≡ b.next) × (is_full b ≡ false))
            × (self.new ≡ push_in self.old handle.now.flow body.payload)) }
        ensures full { IfErr result (λ back.
            (back ≡ body)
            × IfSome (buffer_of self.old handle.now.flow) (λ b. is_full b ≡ true)
            × (self.new ≡ self.old)) }
    {
        self.buffers.push_at(handle, body)
    }

    /// The sequence number and the body of the head packet of a handle's buffer. `None` if the buffer is empty.
    pub(crate) fn head_at(&self, handle: &BufferHandle) -> Option<(u32, &Body)>
        requires { Stands self.now handle.now }
        ensures { MatchOption result (head_of self.now handle.now.flow ≡ None) (λ h.
            head_of self.now handle.now.flow
            ≡ Some (record { flow = handle.now.flow; seq = h.0; payload = h.1.now.payload })) }
    {
        self.buffers.head_at(handle)
    }

    /// Takes the head packet out of the buffer of a handle, which has one. The handle stays good.
    pub(crate) fn pop_at(&mut self, handle: &BufferHandle) -> Body
        requires there { Stands self.old handle.now }
        requires busy { IsTrue (is_busy self.old handle.now.flow) }
        ensures head { option_map (λ h. h.payload) (head_of self.old handle.now.flow) ≡ Some result.payload }
        ensures after { self.new ≡ pop_in self.old handle.now.flow }
        ensures stands { Stands self.new handle.now }
    {
        self.buffers.pop_at(handle)
    }

    /// Takes the head packet out of a flow's buffer, with its payload as it is: nothing is copied. `None` if the flow
    /// is not open or its buffer is empty; nothing changes then. It takes no memory.
    pub fn pop(&mut self, flow: FlowNo) -> Option<Body>
        ensures { MatchOption result ((head_of self.old flow ≡ None) × (self.new ≡ self.old)) (λ body.
            (option_map (λ h. h.payload) (head_of self.old flow) ≡ Some body.payload)
            × (self.new ≡ pop_in self.old flow)) }
    {
        let handle = self.find(flow)?;
        if self.is_busy_at(&handle) {
            Some(self.pop_at(&handle))
        } else {
            None
        }
    }

    /// The number of packets that a flow's buffer holds; 0 if the flow is not open. It takes no memory.
    pub fn len(&self, flow: FlowNo) -> u32
        ensures { result ≡ count_in self.now flow }
    {
        self.buffers.len(flow)
    }

    /// The backlog of a flow's buffer. `None` if the flow is not open.
    pub(crate) fn backlog(&self, flow: FlowNo) -> Option<Backlog>
        ensures { result ≡ backlog_of self.now flow }
    {
        self.buffers.backlog(flow)
    }

    /// Whether a flow is open and its buffer holds a packet.
    pub(crate) fn is_busy(&self, flow: FlowNo) -> bool
        ensures { result ≡ is_busy self.now flow }
    {
        self.buffers.is_busy(flow)
    }

    /// Whether the buffer of a handle has a packet.
    pub(crate) fn is_busy_at(&self, handle: &BufferHandle) -> bool
        requires { Stands self.now handle.now }
        ensures { result ≡ is_busy self.now handle.now.flow }
    {
        self.buffers.is_busy_at(handle)
    }

    /// Closes the buffer of a flow, and returns the number of packets that it held.
    pub(crate) fn close(&mut self, flow: FlowNo) -> u32
        requires { IsSome (buffer_of self.old flow) }
        ensures count { result ≡ count_in self.old flow }
        ensures after { self.new ≡ close_in self.old flow }
    {
        self.buffers.close(flow)
    }

    /// Offers a writer the next bytes of the head packet of a handle's buffer with this header before it. The first
    /// `out` of them are out. It offers at most `most` bytes, in one call. They are one slice of the buffer's own
    /// memory, header and payload, and nothing is copied but the header. A payload of zeros has no memory there, and is
    /// shown in the frame.
    pub(crate) fn offer_at<W: TellingWriter>(
        &mut self,
        handle: &BufferHandle,
        header: &[u8],
        out: u32,
        most: u32,
        writer: &mut W,
    ) -> Answer
        requires there { Stands self.old handle.now }
        requires head { IsSome (head_of self.old handle.now.flow) }
        requires header { IsHeaderLength (length header.now) }
        requires within { IfSome (head_of self.old handle.now.flow) (λ h. out ≤ length (header.now ++ h.payload)) }
        ensures answered { IfSome (head_of self.old handle.now.flow)
            (λ h. W.answers writer.old (take most (drop out (header.now ++ h.payload))) result writer.new
            × Fits (take most (drop out (header.now ++ h.payload))) result) }
        ensures same { self.new ≡ self.old }
    {
        self.buffers.stamp_at(handle, header);
        match self.buffers.head_at(handle) {
            None => unreachable!(),
            Some((_, body)) => offer(writer, body.framed_in(&mut self.frame), out, most),
        }
    }
}

// Offers a writer the bytes of a frame of which `out` are out, at most `most` of them, in one call.
fn offer<W: TellingWriter>(writer: &mut W, frame: &[u8], out: u32, most: u32) -> Answer
    requires { out ≤ length frame.now }
    ensures answered { W.answers writer.old (take most (drop out frame.now)) result writer.new }
    ensures fits { Fits (take most (drop out frame.now)) result }
{
    let rest = &frame[out as usize..];
    let count = rest.len().min(most as usize);
    writer.offer(&rest[..count])
}
