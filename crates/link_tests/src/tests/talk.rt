//! Sessions as rows of text: what a link is asked and what it answers, as `open a 4 1 = flow 1; turn 5 = idle`.

use super::assertions::same;
use itoa::Buffer;
use share_base::{Body, Command, FlowNo, Name, Parcel, Reply, Turn, Version};
use share_core::Engine;
use share_journal::Recorder;
use share_model::{Fault, GlobalPart, Line, PlainWriter, Rates, TellingWriter, Totals};
use share_script::{read_line, write_reply, write_turn};
use std::alloc::Global;
use std::process::Abort;
use std::str::from_utf8;

/// The answer of a link, as text. It has room for each answer, so that no row takes memory.
pub(super) type Said = PlainWriter<Vec<u8>>;

pub(super) fn said(rt: &impl Abort, alloc: Global) -> Said {
    PlainWriter(Vec::with_capacity(alloc, 128).ok().expect(rt, "memory"))
}

/// A taker of events: a link, or its recorder. The number is that of a clerk or a worker.
pub(super) trait Talks {
    fn command(&mut self, number: u64, command: Command) -> Reply;

    fn arrive(
        &mut self,
        rt: &impl Abort,
        alloc: Global,
        number: u64,
        flow: Name,
        body: Body,
    ) -> Reply;

    fn turn(&mut self, most: u32) -> Turn;

    fn tear(&mut self) -> Turn;

    fn version(&self) -> Version;

    /// A question to the link.
    fn read(&self, question: &str) -> Option<i128>;

    /// The changes of an event, and the number of entries.
    fn shown(&self) -> (Totals, GlobalPart, u64);
}

impl<W: TellingWriter, S: Rates> Talks for Engine<W, S> {
    fn command(&mut self, _number: u64, command: Command) -> Reply {
        Engine::command(self, command)
    }

    fn arrive(
        &mut self,
        rt: &impl Abort,
        _alloc: Global,
        _number: u64,
        flow: Name,
        body: Body,
    ) -> Reply {
        assert!(rt; body.as_slice().len() <= Engine::version(self).payload());
        Engine::arrive(self, flow, body)
    }

    fn turn(&mut self, most: u32) -> Turn {
        Engine::turn(self, most.max(1))
    }

    fn tear(&mut self) -> Turn {
        Engine::tear(self)
    }

    fn version(&self) -> Version {
        Engine::version(self)
    }

    fn read(&self, question: &str) -> Option<i128> {
        answer(self, question)
    }

    fn shown(&self) -> (Totals, GlobalPart, u64) {
        (self.totals(), self.global(), self.events())
    }
}

impl<W: TellingWriter, S: Rates> Talks for Recorder<W, S> {
    fn command(&mut self, number: u64, command: Command) -> Reply {
        Recorder::command(self, number, command)
    }

    fn arrive(
        &mut self,
        rt: &impl Abort,
        alloc: Global,
        number: u64,
        flow: Name,
        body: Body,
    ) -> Reply {
        let parcel = Parcel::new(alloc, body.as_slice()).expect(rt, "memory");
        assert!(rt; parcel.len() <= self.engine().version().payload());
        Recorder::arrive(self, number, flow, parcel)
    }

    fn turn(&mut self, most: u32) -> Turn {
        Recorder::turn(self, most.max(1))
    }

    fn tear(&mut self) -> Turn {
        Recorder::tear(self)
    }

    fn version(&self) -> Version {
        self.engine().version()
    }

    fn read(&self, question: &str) -> Option<i128> {
        answer(self.engine(), question)
    }

    fn shown(&self) -> (Totals, GlobalPart, u64) {
        let (engine, journal) = (self.engine(), self.journal());
        (engine.totals(), engine.global(), journal.len())
    }
}

// The readings of a link: the answer to `events`, `flow a`, `place 1` and others.
fn answer<W, S: Rates>(link: &Engine<W, S>, question: &str) -> Option<i128> {
    let (what, of) = question.split_once(" ").unwrap_or((question, ""));
    match what {
        "events" => Some(i128::from(link.events())),
        "life" => Some(i128::from(link.life())),
        "spent" => Some(i128::from(u8::from(link.spent()))),
        "broken" => Some(i128::from(u8::from(link.broken()))),
        "sends" => Some(i128::from(u8::from(link.sends()))),
        "pass" => i128::try_from(link.global().pass).ok(),
        "last" => Some(i128::from(link.global().last)),
        "clock" => Some(i128::from(link.global().clock)),
        "flow" => Some(i128::from(link.flow(Name::read(of.as_bytes())?)?.number())),
        _ => answer_of_flow(link, what, FlowNo(of.parse::<u32>().ok()?)),
    }
}

fn answer_of_flow<W, S: Rates>(link: &Engine<W, S>, what: &str, flow: FlowNo) -> Option<i128> {
    match what {
        "account" => Some(i128::from(link.account(flow)?)),
        "tickets" => Some(i128::from(link.tickets(flow)?)),
        "held" => Some(i128::from(u8::from(link.held(flow)?))),
        "packets" => Some(i128::from(link.backlog(flow)?.packets)),
        "limit" => Some(i128::from(link.backlog(flow)?.limit)),
        "stride" => Some(i128::from(link.position(flow)?.stride)),
        "place" => Some(link.position(flow)?.place),
        _ => None,
    }
}

// Says a number, or `none`.
fn say_if(said: &mut Said, number: Option<i128>) -> Result<(), Fault> {
    let mut digits = Buffer::new();
    let text = match number {
        Some(number) => digits.format(number),
        None => "none",
    };
    match said.0.extend_from_slice(text.as_bytes()) {
        Ok(()) => Ok(()),
        Err(_) => Err(Fault),
    }
}

/// Brings a packet to a flow.
pub(super) fn bring<L: Talks>(
    rt: &impl Abort,
    alloc: Global,
    link: &mut L,
    number: u64,
    flow: &str,
    body: Body,
) -> Reply {
    let flow = Name::read(flow.as_bytes()).expect(rt, "a name");
    link.arrive(rt, alloc, number, flow, body)
}

// A packet of zero bytes.
fn fill<L: Talks>(rt: &impl Abort, alloc: Global, link: &mut L, number: u64, of: &str) -> Reply {
    let (flow, count) = of.split_once(" ").expect(rt, "a flow and a count");
    let count = count.parse::<usize>().ok().expect(rt, "a count");
    let zeros = Vec::from_elem(alloc, 0_u8, count).expect(rt, "memory");
    let body = Body::new(alloc, zeros.as_slice()).expect(rt, "memory");
    drop(zeros);
    bring(rt, alloc, link, number, flow, body)
}

// Does what a line says, and says the answer.
fn make<L: Talks>(
    rt: &impl Abort,
    alloc: Global,
    said: &mut Said,
    link: &mut L,
    number: u64,
    line: Line,
) -> Result<(), Fault> {
    match line {
        Line::Change(command) => write_reply(&link.command(number, command), said),
        Line::Send { flow, body } => {
            write_reply(&link.arrive(rt, alloc, number, flow, body), said)
        }
        Line::Turn(most) => write_turn(&link.turn(u32::try_from(most).unwrap_or(1)), said),
        Line::Torn => write_turn(&link.tear(), said),
        Line::Report | Line::Audit(_) => Err(Fault),
    }
}

/// Asks this of a link. A number before a colon is that of a clerk or a worker.
pub(super) fn ask<L: Talks>(
    rt: &impl Abort,
    alloc: Global,
    said: &mut Said,
    link: &mut L,
    asked: &str,
) {
    let (number, asked) = asked.split_once(": ").unwrap_or(("1", asked));
    let number = number.parse::<u64>().ok().expect(rt, "a number");
    said.0.clear();
    let answered = match asked.strip_prefix("fill ") {
        Some(of) => write_reply(&fill(rt, alloc, link, number, of), said),
        None => match read_line(alloc, link.version(), asked.as_bytes()) {
            Ok(line) => make(rt, alloc, said, link, number, line),
            Err(_) => say_if(said, link.read(asked)),
        },
    };
    same(rt, "an answer", answered, Ok(()));
}

/// The last answer.
pub(super) fn text_of<'a>(rt: &impl Abort, said: &'a Said) -> &'a str {
    let text = from_utf8(said.0.as_slice()).ok().expect(rt, "text");
    text.trim_end()
}

/// Asks what a row asks, and compares the answer.
pub(super) fn talk_row<L: Talks>(
    rt: &impl Abort,
    alloc: Global,
    said: &mut Said,
    link: &mut L,
    row: &str,
) {
    let (asked, wanted) = row.split_once(" = ").expect(rt, "a row");
    ask(rt, alloc, said, link, asked);
    same(rt, row, text_of(rt, said), wanted);
}

/// Asks what each row asks, and compares the answers.
pub(super) fn talk<L: Talks>(
    rt: &impl Abort,
    alloc: Global,
    said: &mut Said,
    link: &mut L,
    rows: &str,
) {
    for row in rows.split(';') {
        talk_row(rt, alloc, said, link, row.trim());
    }
}

/// The same, if memory does not matter.
pub(super) fn play<L: Talks>(rt: &impl Abort, alloc: Global, link: &mut L, rows: &str) {
    let mut said = said(rt, alloc);
    talk(rt, alloc, &mut said, link, rows);
    drop(said);
}
