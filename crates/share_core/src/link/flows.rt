//! Flows that are opened, held, resumed and closed.
ghost use Rattle.std.specs.Prelude.{◌≡◌, ◌&&◌, not, true, false, None, if◌then◌else◌};
ghost use Rattle.share_base.specs.declared.command.Command.TheVariants.{OpenFlow, CloseFlow, Hold, Resume};
ghost use Rattle.share_model.specs.link.Buffers.{is_busy};
ghost use Rattle.share_model.specs.link.Commands.{IsClosable};
ghost use Rattle.share_model.specs.link.Calls.{is_spent, Stepped, CommandCall, CommandStep};
ghost use Rattle.share_model.specs.link.Commands.{open_flow_refusal, is_part_of, is_torn_of, waiting_of};
ghost use Rattle.share_model.specs.link.Commands.{close_flow, closed_reply, hold_flow};
ghost use Rattle.share_base.specs.declared.command.Reply.TheVariants.{Done};
ghost use Rattle.share_model.specs.funding.Graph.{flow_numbers};
ghost use Rattle.share_model.specs.lists.Rises.{has_number};

use super::Link;
use super::levelling::{level_from_scratch, set_active};
use share_base::{FlowNo, Name, Refusal, Reply};
use share_flows::MAX_LIMIT;
use share_model::Rates;

impl<S: Rates> Link<S> {
    // Why a flow would not be opened, memory aside.
    fn open_flow_refusal(&self, name: &Name, limit: u64, tariff: u64) -> Option<Refusal>
        ensures { result ≡ open_flow_refusal self.now.rates self.now.live name.now limit tariff }
    {
        if limit < 1 || limit > MAX_LIMIT {
            Some(Refusal::Range)
        } else if !self.shelf.has(tariff) {
            Some(Refusal::NoTariff)
        } else {
            self.ledger.add_flow_refusal(*name)
        }
    }

    pub fn open_flow(&mut self, name: Name, limit: u64, tariff: u64) -> Reply
        requires { is_spent self.old ≡ false }
        ensures { CommandCall self.old (OpenFlow name limit tariff) result self.new }
    {
        match self.open_flow_refusal(&name, limit, tariff) {
            Some(refusal) => self.refuse(refusal),
            None => self.open_allowed(name, limit, tariff),
        }
    }

    // Opens a flow that nothing but lack of memory refuses.
    fn open_allowed(&mut self, name: Name, limit: u64, tariff: u64) -> Reply
        requires living { is_spent self.old ≡ false }
        requires allowed { open_flow_refusal self.old.rates self.old.live name limit tariff ≡ None }
        ensures { CommandCall self.old (OpenFlow name limit tariff) result self.new }
    {
        let flow = FlowNo(self.ledger.next_flow());
        let Ok(()) = self.buffers.open(flow, limit) else {
            return Reply::Refused(Refusal::NoMemory);
        };
        match self.ledger.add_flow(name) {
            Err(_) => {
                self.buffers.close(flow);
                Reply::Refused(Refusal::NoMemory)
            }
            Ok(flow) => {
                let _ = self.queue.add(flow);
                self.books.open(flow, tariff);
                self.counts.events += 1;
                level_from_scratch(&mut self.queue, &self.ledger, &mut self.levelled_with);
                Reply::Flow(flow)
            }
        }
    }

    // Whether the frame in part is of this flow.
    fn is_in_part(&self, flow: FlowNo) -> bool
        ensures { result ≡ is_part_of flow self.now.live.part }
    {
        match self.part {
            None => false,
            Some(part) => flow.number() == part.flow.number(),
        }
    }

    // Whether the torn packet is the head of this flow.
    fn is_torn(&self, flow: FlowNo) -> bool
        ensures { result ≡ is_torn_of flow self.now.live.torn }
    {
        match self.torn {
            None => false,
            Some(torn) => flow.number() == torn.number(),
        }
    }

    // The packets that wait in the buffer of a flow, without a torn head.
    pub fn waiting_of(&self, flow: FlowNo) -> u32
        ensures { result ≡ waiting_of self.now.live flow }
    {
        let held = self.buffers.len(flow);
        if self.is_torn(flow) { held - 1 } else { held }
    }

    pub fn hold_flow(&mut self, name: Name) -> Reply
        requires { is_spent self.old ≡ false }
        ensures { CommandStep self.old (Hold name) result self.new }
    {
        match self.ledger.flow(name) {
            None => self.refuse(Refusal::NoFlow),
            Some(flow) => {
                if self.books.is_held(flow) {
                    self.refuse(Refusal::Held)
                } else {
                    self.set_held(flow, true)
                }
            }
        }
    }

    pub fn resume_flow(&mut self, name: Name) -> Reply
        requires { is_spent self.old ≡ false }
        ensures { CommandStep self.old (Resume name) result self.new }
    {
        match self.ledger.flow(name) {
            None => self.refuse(Refusal::NoFlow),
            Some(flow) => {
                if self.books.is_held(flow) {
                    self.set_held(flow, false)
                } else {
                    self.refuse(Refusal::NotHeld)
                }
            }
        }
    }

    // Whether a flow is active once it is held or its hold ends: it is if it has a packet and is not held.
    fn is_awake(&self, flow: FlowNo, held: bool) -> bool
        ensures { result ≡ (is_busy self.now.live.buffers flow && not held) }
    {
        self.buffers.is_busy(flow) && !held
    }

    // Holds an open flow, or ends its hold.
    fn set_held(&mut self, flow: FlowNo, held: bool) -> Reply
        requires living { is_spent self.old ≡ false }
        requires stands { has_number flow (flow_numbers self.old.live.graph.flows) ≡ true }
        ensures { Stepped (hold_flow self.old.live flow held, Done) self.old result self.new }
    {
        let active = self.is_awake(flow, held);
        self.books.hold(flow, held);
        self.counts.events += 1;
        set_active(
            &mut self.queue,
            &mut self.ledger,
            &mut self.levelled_with,
            flow,
            active,
        );
        Reply::Done
    }

    pub fn close_flow(&mut self, name: Name) -> Reply
        requires { is_spent self.old ≡ false }
        ensures { CommandStep self.old (CloseFlow name) result self.new }
    {
        match self.ledger.flow(name) {
            None => self.refuse(Refusal::NoFlow),
            Some(flow) => {
                if self.is_in_part(flow) {
                    self.refuse(Refusal::Sending)
                } else {
                    self.close(flow)
                }
            }
        }
    }

    // Closes an open flow of which no frame is in part.
    fn close(&mut self, flow: FlowNo) -> Reply
        requires living { is_spent self.old ≡ false }
        requires may { IsClosable self.old.live flow }
        ensures { Stepped (close_flow self.old.live flow, closed_reply self.old.live flow)
            self.old result self.new }
    {
        let dropped = self.waiting_of(flow);
        let account = self.books.account(flow);
        self.torn = without_torn(self.torn, flow);
        self.queue.level(flow, 0);
        self.queue.remove(flow);
        self.ledger.remove_flow(flow);
        self.buffers.close(flow);
        self.books.close(flow);
        self.counts.events += 1;
        self.counts.dropped += u64::from(dropped);
        self.counts.past += account;
        level_from_scratch(&mut self.queue, &self.ledger, &mut self.levelled_with);
        Reply::Closed {
            flow,
            dropped,
            account,
        }
    }
}

// The flow whose head packet was torn, unless that flow is closed.
fn without_torn(torn: Option<FlowNo>, closed: FlowNo) -> Option<FlowNo>
    ensures { result ≡ (if is_torn_of closed torn then None else torn) }
{
    let flow = torn?;
    if closed.number() == flow.number() {
        None
    } else {
        Some(flow)
    }
}
