//! An engine with the text of its events.
ghost use Rattle.std.specs.Prelude.{◌≡◌, ◌≤◌, true, false, length, Some};
ghost use Rattle.share_base.specs.Body.{unstamped};
ghost use Rattle.share_base.specs.declared.command.Event.TheVariants.{Arrived};
ghost use Rattle.share_base.specs.declared.command.Outcome.TheVariants.{Replied};
ghost use Rattle.share_core.specs.Room.{free_flow, has_room};
ghost use Rattle.share_model.specs.link.Calls.{is_spent};
ghost use Rattle.share_model.specs.link.Turns.{sending};
ghost use Rattle.share_book.specs.Audited.{IsRunAndText, SendsWhole, after_event, outcome_in, lacks_text};
ghost use Rattle.share_book.specs.Audited.{CommandAudited, is_no_memory};
ghost use Rattle.share_book.specs.Sends.{SentNext, lacks_room};
ghost use Rattle.share_book.specs.Texts.{after_drain, line_in, longest_line, text_room, with_bytes};

use crate::book_text::{BookText, TextKind};
use share_base::{Body, Command, FlowNo, MAX_PAYLOAD, Name, Refusal, Reply, Turn};
use share_core::{Engine, PayloadBuffers};
use share_gateway::Outbox;
use share_model::Rates;
use share_script::{
    MAX_SEND_LINE, MAX_SHORT_LINE, spelled_command, spelled_length, spelled_send, spelled_turn,
};
use std::marker::Model;

/// The longest frame, in bytes.
pub(crate) const MAX_FRAME: u32 = 9017;

/// An engine of version 2 without a writer of its own, and the text of its events, as far as it was not drained. Each
/// call that makes an event puts its line at the end. A contract sees the link, the kind of the text, and the text.
/// Between calls the text, after what was drained of it, is the first line and the lines of the link's events.
#[derive(Drop)]
pub struct AuditedEngine<S: Rates> {
    engine: Engine<(), S>,
    kind: TextKind,
    text: BookText,
}

impl<S: Rates> Model for AuditedEngine<S> {
    ghost use Rattle.std.specs.Coded.{codes};
    ghost use Rattle.share_model.specs.stride.Moves.{coded_stride};
    ghost use Rattle.share_book.specs.Audited.{Audited, IsRunAndText, SendsWhole};

    ghost Value = { Audited };

    ghost coded = { Prim.hlevel (codes, coded_stride) };

    ghost view = { λ a. record { link = a.engine; kind = a.kind; text = a.text } };

    ghost invariant = { λ a.
        IsRunAndText (record { link = a.engine; kind = a.kind; text = a.text }) × SendsWhole a.engine.live };
}

impl<S: Rates + Drop> AuditedEngine<S> {
    /// The text that was not drained, and the buffers of the flows with the packets that wait in them.
    pub fn into_parts(self) -> (BookText, PayloadBuffers)
        ensures text { result.0 ≡ self.text }
        ensures buffers { result.1 ≡ self.link.live.buffers }
    {
        let AuditedEngine { engine, text, .. } = self;
        let ((), buffers) = engine.into_parts();
        (text, buffers)
    }
}

impl<S: Rates> AuditedEngine<S> {
    /// An engine over the text of its events.
    pub fn over(engine: Engine<(), S>, kind: TextKind, text: BookText) -> AuditedEngine<S>
        requires run { IsRunAndText (record { link = engine; kind = kind; text = text }) }
        requires whole { SendsWhole engine.live }
        ensures { result ≡ record { link = engine; kind = kind; text = text } }
    {
        AuditedEngine { engine, kind, text }
    }

    /// The engine. The text, after what was drained of it, is the first line and the lines of its events.
    pub fn engine(&self) -> &Engine<(), S>
        ensures link { result.now ≡ self.now.link }
        ensures run { IsRunAndText self.now }
        ensures whole { SendsWhole self.now.link.live }
    {
        &self.engine
    }

    /// The text that was not drained.
    pub fn text(&self) -> &[u8]
        ensures { result.now ≡ self.now.text.bytes }
    {
        self.text.as_slice()
    }

    /// The first bytes of the text were drained.
    pub fn drained(&mut self, count: usize)
        requires { count ≤ length self.old.text.bytes }
        ensures { self.new ≡ record self.old { text = after_drain self.old.text count } }
    {
        self.text.pass(count);
    }

    /// Whether the longest line of an event has no room in the text.
    pub fn lacks_text(&self) -> bool
        ensures { result ≡ lacks_text self.now }
    {
        self.text.room() < longest_line(self.kind)
    }

    /// Makes a command: one event, with its line, unless memory was refused, which changes nothing. Only the three
    /// commands that make something take memory.
    pub fn command(&mut self, command: Command) -> Reply
        requires living { is_spent self.old.link ≡ false }
        requires text { MAX_SHORT_LINE ≤ text_room self.old.text }
        ensures { CommandAudited self.old command result self.new }
    {
        let line = spelled_command(&command);
        let reply = self.engine.command(command);
        if is_no_memory(&reply) {
            return reply;
        }
        self.text.push(line.as_bytes());
        reply
    }

    /// A packet comes for the flow of a name, whose number is the one that the engine's `free_flow` gives: one event,
    /// with its line. The payload is not copied. It takes no memory.
    pub fn arrive_at(&mut self, flow: Name, number: FlowNo, body: Body) -> Reply
        requires living { is_spent self.old.link ≡ false }
        requires text { lacks_text self.old ≡ false }
        requires free { free_flow self.old.link.live flow ≡ Some number }
        ensures reply { Replied result ≡ outcome_in self.old (Arrived flow (unstamped body.payload)) }
        ensures after { self.new ≡ after_event self.old (Arrived flow (unstamped body.payload)) }
    {
        push_arrival(&mut self.text, self.kind, &flow, &body);
        self.engine.arrive_at(flow, number, body)
    }

    /// A packet comes for the flow of a name, whose buffer has room: one event, with its line. The payload is not
    /// copied. It takes no memory.
    pub fn arrive(&mut self, flow: Name, body: Body) -> Reply
        requires living { is_spent self.old.link ≡ false }
        requires text { lacks_text self.old ≡ false }
        requires room { has_room self.old.link.live flow ≡ true }
        ensures reply { Replied result ≡ outcome_in self.old (Arrived flow (unstamped body.payload)) }
        ensures after { self.new ≡ after_event self.old (Arrived flow (unstamped body.payload)) }
    {
        push_arrival(&mut self.text, self.kind, &flow, &body);
        self.engine.arrive(flow, body)
    }

    /// Sends the next frame: it goes into the outbox, which has room for the longest one, as a whole. It is one event,
    /// with its line. If there is nothing to send, it answers `Idle` and changes nothing. It takes no memory.
    pub fn send(&mut self, outbox: &mut Outbox) -> Turn
        requires living { is_spent self.old.link ≡ false }
        requires text { lacks_text self.old ≡ false }
        requires room { lacks_room outbox.old ≡ false }
        ensures { SentNext self.old outbox.old (sending self.old.link.live) result self.new outbox.new }
    {
        let turn = self.engine.turn_into(outbox, MAX_FRAME);
        if let Turn::Wrote { k, .. } = turn {
            self.text.push(spelled_turn(u64::from(k)).as_bytes());
        }
        turn
    }
}

// The greatest length of the line of an event in bytes.
fn longest_line(kind: TextKind) -> usize
    ensures { result ≡ longest_line kind }
{
    match kind {
        TextKind::Whole => MAX_SEND_LINE,
        TextKind::Lengths => MAX_SHORT_LINE,
    }
}

// Puts the line of a packet at the end of a text.
fn push_arrival(text: &mut BookText, kind: TextKind, flow: &Name, body: &Body)
    requires { longest_line kind ≤ text_room text.old }
    ensures line { text.new ≡ with_bytes text.old (line_in kind (Arrived flow.now (unstamped body.now.payload))) }
    ensures few { length body.now.payload ≤ MAX_PAYLOAD }
{
    let count = body.as_slice().len();
    match kind {
        TextKind::Whole => {
            text.push(spelled_send(flow).as_bytes());
            text.push_hex(body.as_slice());
            text.push(b"\n");
        }
        TextKind::Lengths => text.push(spelled_length(flow, count as u64).as_bytes()),
    }
}

fn is_no_memory(reply: &Reply) -> bool
    ensures { result ≡ is_no_memory reply.now }
{
    matches!(reply, Reply::Refused(Refusal::NoMemory))
}
