//! The event of a line, made on the link of a bill.
ghost use Rattle.std.specs.Prelude.{◌≡◌, ◌≤◌, None, MatchOption, false};
ghost use Rattle.share_base.specs.Body.{IsUnstamped};
ghost use Rattle.share_model.specs.declared.line.Line.TheVariants.{Change, Send, Turn as TurnLine};
ghost use Rattle.share_model.specs.link.Books.{account_of};
ghost use Rattle.share_model.specs.link.Calls.{is_spent};
ghost use Rattle.share_model.specs.link.Turns.{sending};
ghost use Rattle.share_bill.specs.BookLines.{IsUnstampedLine};
ghost use Rattle.share_bill.specs.Makings.{IsBookLink, MakesOrNot, WritesFrame, is_lack, made_by, taken_as};
ghost use Rattle.share_bill.specs.Makings.{frame_in};

use super::discard::Discard;
use super::{LineFault, Wrong};
use share_base::{Body, Command, FlowNo, Name, Refusal, Reply};
use share_core::{Engine, Turn};
use share_model::{Line, Rates};

/// More bytes than a frame has.
const WHOLE: u32 = 65535;

/// The part of a line's effect that a bill keeps.
#[derive(Clone, Copy, Debug)]
pub(super) enum Made {
    /// A flow of this name was opened.
    Opened {
        name: Name,
        flow: FlowNo,
    },
    /// A whole frame was sent: its flow, its bytes, its units, and what all that the flow sent costs.
    Sent {
        flow: FlowNo,
        bytes: u32,
        units: u64,
        amount: u64,
    },
    /// Nothing that it keeps.
    Other,
}

/// The flow and the length of a frame.
#[derive(Clone, Copy, Debug)]
pub(super) struct Frame {
    flow: FlowNo,
    bytes: u32,
}

/// Makes the event of a line, if it is the next one of a book.
pub(super) fn make<S: Rates>(engine: &mut Engine<Discard, S>, line: Line) -> Result<Made, LineFault>
    requires book { IsBookLink engine.old }
    requires unstamped { IsUnstampedLine line }
    ensures made { MakesOrNot engine.old line result engine.new }
    ensures book { IsBookLink engine.new }
    ensures rates { engine.new.rates ≡ engine.old.rates }
{
    match line {
        Line::Change(command) => change(engine, command),
        Line::Send { flow, body } => take(engine, flow, body),
        Line::Turn(count) => send(engine, count),
        Line::Torn => Err(LineFault::Wrong(Wrong::Foreign)),
        Line::Report => Err(LineFault::Wrong(Wrong::Foreign)),
        Line::Audit(_) => Err(LineFault::Wrong(Wrong::Foreign)),
    }
}

// A command, whatever its answer.
fn change<S: Rates>(engine: &mut Engine<Discard, S>, command: Command) -> Result<Made, LineFault>
    requires book { IsBookLink engine.old }
    ensures made { MakesOrNot engine.old (Change command) result engine.new }
    ensures book { IsBookLink engine.new }
    ensures rates { engine.new.rates ≡ engine.old.rates }
{
    let _ = engine.events();
    if engine.spent() {
        return Err(LineFault::Wrong(Wrong::Spent));
    }
    let reply = engine.command(command);
    if is_lack(&reply) {
        return Err(LineFault::NoMemory);
    }
    Ok(made_by(&command, &reply))
}

// Whether memory was refused.
fn is_lack(reply: &Reply) -> bool
    ensures { result ≡ is_lack reply.now }
{
    matches!(reply, Reply::Refused(Refusal::NoMemory))
}

// The part of an answered command that a bill keeps.
fn made_by(command: &Command, reply: &Reply) -> Made
    ensures { result ≡ made_by command.now reply.now }
{
    match reply {
        Reply::Flow(flow) => match command {
            Command::OpenFlow { name, .. } => Made::Opened {
                name: *name,
                flow: *flow,
            },
            _ => Made::Other,
        },
        _ => Made::Other,
    }
}

// A packet that is taken.
fn take<S: Rates>(
    engine: &mut Engine<Discard, S>,
    flow: Name,
    body: Body,
) -> Result<Made, LineFault>
    requires book { IsBookLink engine.old }
    requires unstamped { IsUnstamped body }
    ensures made { MakesOrNot engine.old (Send flow body) result engine.new }
    ensures book { IsBookLink engine.new }
    ensures rates { engine.new.rates ≡ engine.old.rates }
{
    let _ = engine.events();
    let _ = body.as_slice();
    if engine.spent() {
        return Err(LineFault::Wrong(Wrong::Spent));
    }
    let reply = engine.arrive(flow, body);
    taken_as(&reply)
}

// The part of a packet that a bill keeps, by its answer.
fn taken_as(reply: &Reply) -> Result<Made, LineFault>
    ensures { result ≡ taken_as reply.now }
{
    match reply {
        Reply::Packet { .. } => Ok(Made::Other),
        Reply::Refused(refusal) => Err(LineFault::Wrong(Wrong::Untaken(*refusal))),
        _ => Err(LineFault::Wrong(Wrong::Foreign)),
    }
}

// A turn that sends a whole frame of this many bytes.
fn send<S: Rates>(engine: &mut Engine<Discard, S>, count: u64) -> Result<Made, LineFault>
    requires book { IsBookLink engine.old }
    ensures made { MakesOrNot engine.old (TurnLine count) result engine.new }
    ensures book { IsBookLink engine.new }
    ensures rates { engine.new.rates ≡ engine.old.rates }
{
    let _ = engine.events();
    if engine.spent() {
        return Err(LineFault::Wrong(Wrong::Spent));
    }
    let before = engine.global().clock;
    let Some(frame) = write_frame(engine) else {
        return Err(LineFault::Wrong(Wrong::Idle));
    };
    if u64::from(frame.bytes) != count {
        return Err(LineFault::Wrong(Wrong::Sent(frame.bytes)));
    }
    let _ = engine.events();
    let units = engine.global().clock - before;
    Ok(Made::Sent {
        flow: frame.flow,
        bytes: frame.bytes,
        units,
        amount: account_of(engine, frame.flow),
    })
}

// The account of a flow, and 0 if it is not open.
fn account_of<S: Rates>(engine: &Engine<Discard, S>, flow: FlowNo) -> u64
    ensures { result ≡ account_of engine.now.live.books flow }
{
    engine.account(flow).unwrap_or(0)
}

// Writes the frame that is sent, if there is one.
fn write_frame<S: Rates>(engine: &mut Engine<Discard, S>) -> Option<Frame>
    requires living { is_spent engine.old ≡ false }
    requires unbroken { engine.old.live.broken ≡ false }
    ensures { MatchOption result ((sending engine.old.live ≡ None) × (engine.new ≡ engine.old))
        (λ written. WritesFrame engine.old written engine.new) }
{
    let _ = engine.events();
    let turn = engine.turn(WHOLE);
    frame_in(&turn)
}

// The frame that a turn wrote.
fn frame_in(turn: &Turn) -> Option<Frame>
    ensures { result ≡ frame_in turn.now }
{
    match turn {
        Turn::Wrote { flow, k, .. } => Some(Frame {
            flow: *flow,
            bytes: *k,
        }),
        _ => None,
    }
}
