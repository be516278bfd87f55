//! The engine of a link: a link and the writer of its frames.
ghost use Rattle.std.specs.Prelude.{◌≡◌, ◌<◌, ◌≤◌, ◌^◌, length, find, IfOk, IfErr, IfSome};
ghost use Rattle.std.specs.Prelude.{None, Some, option_map, is_some};
ghost use Rattle.share_base.specs.Refusal.{IsRefused};
ghost use Rattle.share_base.specs.Version.{max_payload};
ghost use Rattle.share_base.specs.declared.version.Version.TheVariants.{One};
ghost use Rattle.share_model.specs.stride.Moves.{global_part};
ghost use Rattle.share_model.specs.link.Readings.{position_at, tickets_at};
ghost use Rattle.share_model.specs.link.Totals.{totals, row};
ghost use Rattle.share_model.specs.link.Calls.{is_spent, Steps, CommandCall, TurnCall, TearCall};
ghost use Rattle.share_model.specs.funding.Changes.{flow_named};
ghost use Rattle.share_model.specs.link.Live.{empty_link};
ghost use Rattle.share_model.specs.link.Books.{is_book_of};
ghost use Rattle.share_model.specs.link.Buffers.{backlog_of};
ghost use Rattle.share_model.specs.link.Arrivals.{arrive_step};
ghost use Rattle.share_model.specs.link.Turns.{sending};
ghost use Rattle.share_model.specs.link.View.{LinkView};
ghost use Rattle.share_model.specs.link.Fields.{IsName, IsBody, HasCommandFields};
ghost use Rattle.share_model.specs.run.Sound.{Sound};
ghost use Rattle.share_model.specs.link.Tariff.{AreInRange};
ghost use Rattle.share_core.specs.Lent.{lent};
ghost use Rattle.share_core.specs.Life.{life_refusal};
ghost use Rattle.share_core.specs.Room.{has_room, free_flow};

use crate::fields;
use crate::link::Link;
use crate::payload_buffers::PayloadBuffers;
use share_base::{Body, Command, FlowNo, Name, Refusal, Reply, Turn, Version};
use share_model::{Backlog, GlobalPart, Position, Rates, Row, TellingWriter, Totals};
use std::alloc::Global;
use std::marker::Model;

/// A link: commands, arrivals and turns, one event a call. It owns the shelf of its tariffs and its writer.
///
/// A contract sees its life and its tariffs, what it holds, and the writer. Whatever was called, what it holds is
/// sound, as `events` says.
pub struct Engine<W, S: Rates> {
    link: Link<S>,
    writer: W,
}

impl<W: Drop, S: Rates + Drop> Drop for Engine<W, S> {
    fn drop(self) {
        let Engine { link, writer } = self;
        drop(link);
        drop(writer);
    }
}

impl<W, S: Rates> Model for Engine<W, S> {
    ghost use Rattle.share_model.specs.link.View.{LinkView};
    ghost use Rattle.std.specs.Coded.{codes};
    ghost use Rattle.share_model.specs.stride.Moves.{coded_stride};

    ghost Value = { LinkView W };

    ghost coded = { Prim.hlevel (codes, coded_stride) };

    ghost view = { λ e.
        record { life = e.link.life; rates = e.link.rates; live = e.link.live; writer = e.writer } };
}

impl<W: Drop, S: Rates + Drop> Engine<W, S> {
    /// A new link of version 1 over this writer, with a life of 1 to 2^24 events. Refusals, in order: `Range` if the
    /// life is not in that range, `NoMemory` if a growth was refused. The shelf and the writer are dropped then.
    pub fn new(alloc: Global, shelf: S, life: u64, writer: W) -> Result<Engine<W, S>, Refusal>
        ensures ok { IfOk result (λ e.
            (e ≡ record { life = life; rates = S.rates shelf; live = empty_link One; writer = writer })
            × (life_refusal life ≡ None)) }
        ensures refused { IfErr result (IsRefused (life_refusal life)) }
    {
        let link = Link::new(alloc, shelf, life)?;
        Ok(Engine { link, writer })
    }
}

impl<W, S: Rates> Engine<W, S> {
    /// The most events that the link makes.
    pub fn life(&self) -> u64
        ensures { result ≡ self.now.life }
    {
        self.link.life()
    }

    /// The version of its frames, which is 1 unless `choose` chose another.
    pub fn version(&self) -> Version
        ensures { result ≡ self.now.live.version }
    {
        self.link.version()
    }

    /// Chooses the version of the frames, before the first event: the link is then a new one of this version.
    pub fn choose(&mut self, version: Version)
        requires { self.old.live.counts.events ≡ 0 }
        ensures { self.new ≡ record self.old { live = empty_link version } }
    {
        self.link.choose(version);
    }

    /// The number of events made, at most the life. A link is sound after whatever events.
    pub fn events(&self) -> u64
        ensures events { result ≡ self.now.live.counts.events }
        ensures life { self.now.life ≤ 2 ^ 24 }
        ensures sound { Sound self.now.life self.now.rates self.now.live }
        ensures range { AreInRange self.now.rates }
    {
        self.link.events()
    }

    /// Whether as many events were made as the life allows.
    pub fn spent(&self) -> bool
        ensures { result ≡ is_spent self.now }
    {
        self.link.spent()
    }

    /// Whether a fault broke the link.
    pub fn broken(&self) -> bool
        ensures { result ≡ self.now.live.broken }
    {
        self.link.broken()
    }

    /// Whether there is a frame to send: the test by which a turn of a link that is neither spent nor broken is `Idle`.
    pub fn sends(&self) -> bool
        ensures { result ≡ is_some (sending self.now.live) }
    {
        self.link.sending().is_some()
    }

    /// The account of an open flow, below 2^54: the price of its tariff for each unit that its frames were charged.
    /// `None` if no open flow has this number.
    pub fn account(&self, flow: FlowNo) -> Option<u64>
        ensures account { result
            ≡ option_map (λ b. b.account) (find (is_book_of flow) self.now.live.books) }
        ensures small { IfSome result (λ account. account < 2 ^ 54) }
    {
        self.link.account(flow)
    }

    /// Whether an open flow is held. `None` if no open flow has this number.
    pub fn held(&self, flow: FlowNo) -> Option<bool>
        ensures { result ≡ option_map (λ b. b.held) (find (is_book_of flow) self.now.live.books) }
    {
        self.link.held(flow)
    }

    /// The number of the open flow of a name, if there is one.
    pub fn flow(&self, name: Name) -> Option<FlowNo>
        ensures { result ≡ option_map (λ f. f.number) (flow_named self.now.live.graph name) }
    {
        self.link.flow(&name)
    }

    /// The tickets of an open flow: what funds it while it is active, at most 2^20, and 0 while it is idle or held.
    /// `None` if no open flow has this number.
    pub fn tickets(&self, flow: FlowNo) -> Option<u32>
        ensures { result ≡ tickets_at self.now flow }
    {
        self.link.tickets(flow)
    }

    /// The position of an open flow in the queue: whether it competes, its tickets and stride (the last ones if it does
    /// not compete). Then comes its pass or, if it does not compete, its remain. `None` if no open flow has this
    /// number.
    pub fn position(&self, flow: FlowNo) -> Option<Position>
        ensures { result ≡ position_at self.now flow }
    {
        self.link.position(flow)
    }

    /// The backlog of an open flow: the packets that its buffer holds, a torn one included, and its limit. `None` if no
    /// open flow has this number.
    pub fn backlog(&self, flow: FlowNo) -> Option<Backlog>
        ensures { result ≡ backlog_of self.now.live.buffers flow }
    {
        self.link.backlog(flow)
    }

    /// Whether a packet finds room: a flow of this name is open, and its buffer holds fewer packets than its limit.
    pub fn has_room(&self, flow: Name) -> bool
        ensures { result ≡ has_room self.now.live flow }
    {
        match self.link.flow(&flow) {
            None => false,
            Some(number) => self.link.has_room(number),
        }
    }

    /// The number of the flow for which a packet of this name finds room. `None` if it finds none.
    pub fn free_flow(&self, flow: Name) -> Option<FlowNo>
        ensures { result ≡ free_flow self.now.live flow }
    {
        let number = self.link.flow(&flow)?;
        if self.link.has_room(number) {
            Some(number)
        } else {
            None
        }
    }

    /// The values that the flows share. They are the tickets of those that compete, the global pass and the clock at
    /// its last update, and the clock, in units.
    pub fn global(&self) -> GlobalPart
        ensures { result ≡ global_part self.now.live.queue }
    {
        self.link.global()
    }

    /// The counts of the link, and its contents.
    pub fn totals(&self) -> Totals
        ensures { result ≡ totals self.now.live }
    {
        self.link.totals()
    }

    /// The n-th open flow, from 0, in order of opening. It has its number, its name, and the number of packets that
    /// wait in its buffer, a torn one not counted. `None` if fewer flows are open.
    pub fn row(&self, n: u32) -> Option<Row>
        ensures { result ≡ row self.now.live n }
    {
        self.link.row(n)
    }

    /// The writer.
    pub fn writer(&self) -> &W
        ensures { result.now ≡ self.now.writer }
    {
        &self.writer
    }

    /// Makes a command: one event, unless the life is spent or memory was refused, which changes nothing. A refused
    /// command is an event that changes nothing else. Refusals, in order, after `Spent`:
    ///
    /// - `MakeCurrency`: `Taken`, `TableFull` (64 besides `base`), `NoMemory`;
    /// - `RemoveCurrency`: `NoCurrency`, `Base`, `InUse` (a ticket is denominated in it or funds it);
    /// - `MakeTicket`: `Range` (an amount of 1 to 2^20), `NoCurrency`, `TableFull` (1024 tickets), `NoMemory`;
    /// - `RemoveTicket`: `NoTicket`, `Funding` (it funds something);
    /// - `FundCurrency`: `NoTicket`, `NoCurrency`, `Base`, `Funding`, `Crowded` (16 tickets fund the currency), `Cycle`
    ///   (the currency is the ticket's, or backs it), `Deep` (nine currencies would be in a chain);
    /// - `FundFlow`: `NoTicket`, `NoFlow`, `Funding`, `Crowded` (16 tickets fund the flow);
    /// - `Unfund`: `NoTicket`, `Unfunded`;
    /// - `OpenFlow`: `Range` (a limit of 1 to 1024 packets), `NoTariff`, `Taken`, `TableFull` (64 flows), `NoMemory`;
    /// - `CloseFlow`: `NoFlow`, `Sending` (its frame is in part);
    /// - `Hold`: `NoFlow`, `Held`;
    /// - `Resume`: `NoFlow`, `NotHeld`;
    /// - `Amend`: `Range` (an amount of 1 to 2^20), `NoTicket`.
    ///
    /// The three that make something may find no memory; the other nine take none. After a command that is done, each
    /// open flow competes with as many tickets as it has: none while it is held.
    pub fn command(&mut self, command: Command) -> Reply
        ensures did { CommandCall self.old command result self.new }
        ensures fields { HasCommandFields command }
    {
        fields::of_command(&command);
        if self.link.spent() {
            return Reply::Refused(Refusal::Spent);
        }
        self.link.command(command)
    }

    /// A packet comes for the flow of a name, goes to the back of its buffer and takes the next number. It is one
    /// event, unless the life is spent. Refusals, in order: `Spent`, `NoFlow`, `BufferFull`. A refused payload is
    /// dropped, and takes no number. The payload is one that frames of the link's version carry, at most 1490 or 9000
    /// bytes. It takes no memory.
    pub fn arrive(&mut self, flow: Name, body: Body) -> Reply
        requires { length body.payload ≤ max_payload self.old.live.version }
        ensures did { Steps (λ _ l. arrive_step l flow body.payload) self.old result self.new }
        ensures fields { IsName flow × IsBody self.old.live.version body.payload }
    {
        fields::of_arrival(&flow, &body);
        if self.link.spent() {
            return Reply::Refused(Refusal::Spent);
        }
        self.link.arrive(&flow, body)
    }

    /// A packet comes for the flow of a name, as `arrive` says, whose number is the one that `free_flow` gives. The
    /// name is not looked up again. It takes no memory.
    pub fn arrive_at(&mut self, flow: Name, number: FlowNo, body: Body) -> Reply
        requires body { length body.payload ≤ max_payload self.old.live.version }
        requires free { free_flow self.old.live flow ≡ Some number }
        ensures did { Steps (λ _ l. arrive_step l flow body.payload) self.old result self.new }
        ensures fields { IsName flow × IsBody self.old.live.version body.payload }
    {
        fields::of_arrival(&flow, &body);
        if self.link.spent() {
            return Reply::Refused(Refusal::Spent);
        }
        self.link.arrive_at(&flow, number, body)
    }

    /// Offers the writer the next bytes of the frame that is sent, at most `most` bytes, which is at least 1, in one
    /// write call. Its answer decides. The turn is `Wrote` if it accepted some, and `Again` if it was interrupted,
    /// which changes nothing. Otherwise it is `Torn`, a fault that breaks the link for good. Nothing is offered if the
    /// life is spent, the link is broken, or there is nothing to send. The answer is then `Spent`, `Broken` or `Idle`,
    /// in this order. It takes no memory.
    pub fn turn(&mut self, most: u32) -> Turn
    where
        W: TellingWriter,
        requires { 1 ≤ most }
        ensures { TurnCall W.answers self.old most result self.new }
    {
        self.link.turn(&mut self.writer, most)
    }

    /// The same turn of a link that is lent a writer by its caller: its own writer is not called, and stays as it is.
    pub fn turn_into<X: TellingWriter>(&mut self, writer: &mut X, most: u32) -> Turn
        requires { 1 ≤ most }
        ensures did { TurnCall X.answers (lent self.old writer.old) most result (lent self.new writer.new) }
        ensures own { self.new.writer ≡ self.old.writer }
    {
        self.link.turn(writer, most)
    }

    /// The caller declares that the writer failed, and the writer is not called: `Torn`, one event, if there is a
    /// frame to send. Otherwise nothing changes: `Spent`, `Broken` or `Idle`, in this order. It takes no memory.
    pub fn tear(&mut self) -> Turn
        ensures { TearCall self.old result self.new }
    {
        match self.link.due() {
            Err(turn) => turn,
            Ok(due) => self.link.fail(due),
        }
    }
}

impl<W, S: Rates + Drop> Engine<W, S> {
    /// The writer; the rest is dropped.
    pub fn into_writer(self) -> W
        ensures { result ≡ self.writer }
    {
        let Engine { link, writer } = self;
        drop(link);
        writer
    }

    /// The writer, and the buffers of the open flows with the packets that wait in them; the rest is dropped. It takes
    /// no memory.
    pub fn into_parts(self) -> (W, PayloadBuffers)
        ensures writer { result.0 ≡ self.writer }
        ensures buffers { result.1 ≡ self.live.buffers }
    {
        let Engine { link, writer } = self;
        (writer, link.into_buffers())
    }
}
