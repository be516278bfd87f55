//! Packets that come for a flow.
ghost use Rattle.std.specs.Prelude.{◌≡◌, ◌&&◌, not, false, IsSome, Some};
ghost use Rattle.share_model.specs.link.Books.{is_held};
ghost use Rattle.share_model.specs.link.Buffers.{buffer_of, is_busy};
ghost use Rattle.share_model.specs.link.Calls.{is_spent, Stepped, Steps};
ghost use Rattle.share_model.specs.link.Fields.{IsBody};
ghost use Rattle.share_model.specs.link.Arrivals.{arrive_in, arrive_step};
ghost use Rattle.share_core.specs.Room.{free_flow};
ghost use Rattle.share_flows.specs.BufferHandles.{Stands};

use super::Link;
use super::levelling::set_active;
use share_base::{Body, FlowNo, Name, Refusal, Reply};
use share_flows::BufferHandle;
use share_model::Rates;

impl<S: Rates> Link<S> {
    // A packet comes for an open flow.
    fn accept(&mut self, flow: FlowNo, body: Body) -> Reply
        requires living { is_spent self.old ≡ false }
        requires body { IsBody self.old.live.version body.payload }
        requires there { IsSome (buffer_of self.old.live.buffers flow) }
        ensures { Stepped (arrive_in self.old.live flow body.payload (buffer_of self.old.live.buffers flow))
            self.old result self.new }
    {
        match self.buffers.find(flow) {
            None => unreachable!(),
            Some(handle) => self.accept_at(&handle, body),
        }
    }

    // Whether a packet makes the flow of a buffer's handle active: it has none, and it is not held.
    fn wakes_at(&self, handle: &BufferHandle) -> bool
        requires { Stands self.now.live.buffers handle.now }
        ensures { result
            ≡ (not (is_busy self.now.live.buffers handle.now.flow)
            && not (is_held self.now.live.books handle.now.flow)) }
    {
        !self.buffers.is_busy_at(handle) && !self.books.is_held_at(handle.at, handle.flow)
    }

    // A packet comes for the flow of a buffer's handle.
    fn accept_at(&mut self, handle: &BufferHandle, body: Body) -> Reply
        requires living { is_spent self.old ≡ false }
        requires body { IsBody self.old.live.version body.payload }
        requires stands { Stands self.old.live.buffers handle.now }
        ensures { Stepped
            (arrive_in self.old.live handle.now.flow body.payload (buffer_of self.old.live.buffers handle.now.flow))
            self.old result self.new }
    {
        let wakes = self.wakes_at(handle);
        let Ok(seq) = self.buffers.push_at(handle, body) else {
            return self.refuse(Refusal::BufferFull);
        };
        self.counts.accepted += 1;
        self.counts.events += 1;
        let flow = handle.flow;
        if wakes {
            set_active(
                &mut self.queue,
                &mut self.ledger,
                &mut self.levelled_with,
                flow,
                true,
            );
        }
        Reply::Packet { flow, seq }
    }

    /// A packet comes for the flow of a name, which has this number, and whose buffer has room. It takes no memory.
    pub fn arrive_at(&mut self, name: &Name, number: FlowNo, body: Body) -> Reply
        requires living { is_spent self.old ≡ false }
        requires body { IsBody self.old.live.version body.payload }
        requires free { free_flow self.old.live name.now ≡ Some number }
        ensures { Steps (λ _ l. arrive_step l name.now body.payload) self.old result self.new }
    {
        self.accept(number, body)
    }

    /// A packet comes for the flow of a name. It takes no memory.
    pub fn arrive(&mut self, name: &Name, body: Body) -> Reply
        requires living { is_spent self.old ≡ false }
        requires body { IsBody self.old.live.version body.payload }
        ensures { Steps (λ _ l. arrive_step l name.now body.payload) self.old result self.new }
    {
        match self.ledger.flow(*name) {
            None => self.refuse(Refusal::NoFlow),
            Some(flow) => self.accept(flow, body),
        }
    }
}
