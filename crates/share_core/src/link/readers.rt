//! Readers of a link.
ghost use Rattle.std.specs.Prelude.{◌≡◌, ◌<◌, ◌≤◌, ◌^◌, find, option_map, IfSome};
ghost use Rattle.std.specs.FinMap.{get};
ghost use Rattle.share_model.specs.funding.Changes.{flow_named};
ghost use Rattle.share_model.specs.funding.Graph.{tickets};
ghost use Rattle.share_model.specs.link.Calls.{is_spent};
ghost use Rattle.share_model.specs.link.Books.{is_book_of};
ghost use Rattle.share_model.specs.link.Buffers.{backlog_of, buffer_of};
ghost use Rattle.share_model.specs.link.Tariff.{AreInRange};
ghost use Rattle.share_model.specs.link.Totals.{torn_count, waiting, state_by, totals, row};
ghost use Rattle.share_model.specs.run.Sound.{Sound};
ghost use Rattle.share_model.specs.stride.Moves.{global_part};
ghost use Rattle.share_model.specs.stride.Moves.{position as position_of};
ghost use Rattle.share_core.specs.Room.{has_place};

use super::Link;
use share_base::{FlowNo, Name, Version};
use share_model::{Backlog, GlobalPart, LinkState, Position, Rates, Row, Totals};

impl<S: Rates> Link<S> {
    /// The most events that it makes.
    pub fn life(&self) -> u64
        ensures { result ≡ self.now.life }
    {
        self.life
    }

    /// The version of its frames.
    pub fn version(&self) -> Version
        ensures { result ≡ self.now.live.version }
    {
        self.version
    }

    /// The number of events made. A link is sound after whatever events.
    pub fn events(&self) -> u64
        ensures events { result ≡ self.now.live.counts.events }
        ensures life { self.now.life ≤ 2 ^ 24 }
        ensures sound { Sound self.now.life self.now.rates self.now.live }
        ensures range { AreInRange self.now.rates }
    {
        self.counts.events
    }

    /// Whether as many events were made as the life allows.
    pub fn spent(&self) -> bool
        ensures over { result ≡ is_spent self.now }
        ensures sound { Sound self.now.life self.now.rates self.now.live }
    {
        self.counts.events == self.life
    }

    /// Whether a fault broke the link.
    pub fn broken(&self) -> bool
        ensures { result ≡ self.now.live.broken }
    {
        self.broken
    }

    /// The account of an open flow.
    pub fn account(&self, flow: FlowNo) -> Option<u64>
        ensures account { result
            ≡ option_map (λ b. b.account) (find (is_book_of flow) self.now.live.books) }
        ensures small { IfSome result (λ account. account < 2 ^ 54) }
    {
        let book = self.books.book(flow)?;
        Some(book.account)
    }

    /// Whether an open flow is held.
    pub fn held(&self, flow: FlowNo) -> Option<bool>
        ensures { result ≡ option_map (λ b. b.held) (find (is_book_of flow) self.now.live.books) }
    {
        let book = self.books.book(flow)?;
        Some(book.held)
    }

    /// The number of the open flow of a name.
    pub fn flow(&self, name: &Name) -> Option<FlowNo>
        ensures { result ≡ option_map (λ f. f.number) (flow_named self.now.live.graph name.now) }
    {
        self.ledger.flow(*name)
    }

    /// The tickets of an open flow.
    pub fn tickets(&self, flow: FlowNo) -> Option<u32>
        ensures { result
            ≡ option_map (λ _. tickets self.now.live.graph flow)
            (find (is_book_of flow) self.now.live.books) }
    {
        let _ = self.books.book(flow)?;
        Some(self.ledger.tickets(flow))
    }

    /// The position of an open flow in the queue.
    pub fn position(&self, flow: FlowNo) -> Option<Position>
        ensures { result ≡ option_map position_of (get self.now.live.queue.clients flow) }
    {
        if self.queue.contains(flow) {
            Some(self.queue.position(flow))
        } else {
            None
        }
    }

    /// The backlog of an open flow's buffer.
    pub fn backlog(&self, flow: FlowNo) -> Option<Backlog>
        ensures { result ≡ backlog_of self.now.live.buffers flow }
    {
        self.buffers.backlog(flow)
    }

    /// Whether a flow is open, and its buffer is not full.
    pub fn has_room(&self, flow: FlowNo) -> bool
        ensures { result ≡ has_place (buffer_of self.now.live.buffers flow) }
    {
        match self.buffers.backlog(flow) {
            None => false,
            Some(backlog) => backlog.packets < backlog.limit,
        }
    }

    /// The values that the flows share in the queue.
    pub fn global(&self) -> GlobalPart
        ensures { result ≡ global_part self.now.live.queue }
    {
        self.queue.global()
    }

    /// The n-th open flow.
    pub fn row(&self, n: u32) -> Option<Row>
        ensures { result ≡ row self.now.live n }
    {
        let (name, flow) = self.ledger.flow_at(n as usize)?;
        Some(Row {
            flow: flow.number,
            name,
            waiting: self.waiting_of(flow.number),
        })
    }

    /// The counts of the link, and its contents.
    pub fn totals(&self) -> Totals
        ensures { result ≡ totals self.now.live }
    {
        let global = self.queue.global();
        let counts = self.counts;
        Totals {
            clock: global.clock,
            accepted: counts.accepted,
            written: counts.written,
            torn: torn_count(self.broken),
            waiting: self.waiting(),
            dropped: counts.dropped,
            bytes: counts.sent,
            past: counts.past,
            tickets: global.tickets,
            pass: global.pass,
            link: self.state(),
        }
    }

    // The packets in all buffers, but for a torn one: those that were accepted and neither written, nor dropped, nor
    // torn.
    fn waiting(&self) -> u64
        ensures { result ≡ waiting self.now.live }
    {
        let counts = self.counts;
        counts.accepted - counts.written - counts.dropped - torn_count(self.broken)
    }

    fn state(&self) -> LinkState
        ensures { result ≡ state_by self.now.live.broken self.now.live.part }
    {
        if self.broken {
            LinkState::Torn
        } else if self.part.is_some() {
            LinkState::InPart
        } else {
            LinkState::Free
        }
    }
}

// The number of torn packets.
fn torn_count(broken: bool) -> u64
    ensures { result ≡ torn_count broken }
{
    if broken { 1 } else { 0 }
}
