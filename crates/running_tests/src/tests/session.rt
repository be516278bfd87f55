//! Sessions as rows of text, as `C1 open a 4 1 = 1 flow 1; admit = empty`: questions to a running link, and its
//! answers. `C1` is the first clerk, whose command is answered with the number of its entry before the reply. `E1 a hi`
//! offers the payload `hi` for the flow a at the first end, and `E1 a x*9000` a payload of 9000 bytes.

use super::assertions::{holds, same};
use super::made::name;
use super::stage::Stage;
use itoa::Buffer;
use share_base::{Command, Parcel, Reply, Version};
use share_ingress::Offered;
use share_locked::{Admit, Clerk, LinkBrand, LinkEnd, Stop, run_link};
use share_model::{Line, PlainWriter, TellingWriter};
use share_script::{read_line, write_reply, write_turn};
use std::alloc::Global;
use std::process::Abort;
use std::str::from_utf8;
use std::sync::Wait;
use std::thread::Parker;
use std::time::Duration;

/// The number of times, a millisecond apart, that a thread looks for an entry.
const LOOKS: u64 = 10_000;

/// A session on a link, with what was answered last, as text. It has room for each answer, so that no row takes memory
/// but its calls.
#[derive(Drop)]
pub(super) struct Session<'a, T, W: TellingWriter, L: LinkBrand> {
    rt: &'a T,
    alloc: Global,
    stage: &'a Stage<W, L>,
    said: PlainWriter<Vec<u8>>,
}

fn number_of(rt: &impl Abort, text: &str) -> u64 {
    text.parse().ok().expect(rt, "a number")
}

// The place of what has this number, from 1.
fn place_of(rt: &impl Abort, text: &str) -> usize {
    (number_of(rt, text) as usize).saturating_sub(1)
}

fn parcel(rt: &impl Abort, alloc: Global, text: &str) -> Parcel {
    let Some((byte, count)) = text.split_once("*") else {
        return Parcel::new(alloc, text.as_bytes()).expect(rt, "memory");
    };
    let bytes = byte.as_bytes().repeat(alloc, number_of(rt, count) as usize);
    let bytes = bytes.expect(rt, "memory");
    let parcel = Parcel::new(alloc, bytes.as_slice()).expect(rt, "memory");
    drop(bytes);
    parcel
}

// The command of a line.
fn command_of(rt: &impl Abort, alloc: Global, line: &str) -> Command {
    let read = read_line(alloc, Version::Two, line.as_bytes());
    match &read {
        Ok(Line::Change(command)) => *command,
        _ => panic!(rt; "no command: {line}"),
    }
}

// A clerk that had that many receipts has one more, of this command, unless that was no event.
fn keeps<L: LinkBrand>(
    rt: &impl Abort,
    clerk: &Clerk<L>,
    kept: usize,
    number: u64,
    command: &Command,
    reply: &Reply,
) {
    let receipts = clerk.receipts();
    let made = usize::from(number > 0);
    same(rt, number, receipts.len(), kept.saturating_add(made));
    if number > 0 {
        let last = receipts.last().expect(rt, "a receipt");
        let is_kept = last.number == number && last.command == *command && last.reply == *reply;
        holds(rt, (number, "is kept"), is_kept);
    }
}

// Whether a line of a report is that of the flow with this name, which is after its number.
fn is_of(line: &[u8], name: &[u8]) -> bool {
    match line.get(14..) {
        Some(rest) => line.starts_with(b"flow ") && rest.starts_with(name),
        None => false,
    }
}

impl<'a, T: Abort + Wait, W: TellingWriter, L: LinkBrand> Session<'a, T, W, L> {
    pub(super) fn on(rt: &'a T, alloc: Global, stage: &'a Stage<W, L>) -> Session<'a, T, W, L> {
        let text = Vec::with_capacity(alloc, 4096).ok().expect(rt, "memory");
        Session {
            rt,
            alloc,
            stage,
            said: PlainWriter(text),
        }
    }

    /// The last answer.
    pub(super) fn text(&self) -> &str {
        let text = from_utf8(self.said.0.as_slice()).ok();
        text.expect(self.rt, "text").trim_end()
    }

    fn say(&mut self, text: &str) {
        self.said
            .0
            .extend_from_slice(text.as_bytes())
            .expect(self.rt, "room");
    }

    fn say_number(&mut self, number: u64) {
        let mut digits = Buffer::new();
        self.say(digits.format(number));
        self.say(" ");
    }

    fn say_reply(&mut self, reply: &Reply) {
        write_reply(reply, &mut self.said).expect(self.rt, "room");
    }

    /// Makes room for a receipt of a clerk. Returns whether there was none.
    pub(super) fn is_ready(&self, clerk: &str) -> bool {
        let slot = self.stage.clerks.get(place_of(self.rt, clerk));
        slot.expect(self.rt, "a clerk")
            .lock(self.rt)
            .ready()
            .is_ok()
    }

    fn commands(&mut self, clerk: &str, line: &str) {
        let (rt, stage) = (self.rt, self.stage);
        let command = command_of(rt, self.alloc, line);
        let slot = stage.clerks.get(place_of(rt, clerk)).expect(rt, "a clerk");
        let mut clerk = slot.lock(rt);
        clerk.ready().expect(rt, "room for a receipt");
        let kept = clerk.receipts().len();
        let (number, reply) = stage.port.lock(rt).command(&mut clerk, command);
        keeps(rt, &clerk, kept, number, &command, &reply);
        stage.pace.ring();
        self.say_number(number);
        self.say_reply(&reply);
    }

    fn offers(&mut self, end: &str, what: &str) {
        let (rt, stage) = (self.rt, self.stage);
        let (flow, payload) = what.split_once(" ").expect(rt, "a flow and a payload");
        let parcel = parcel(rt, self.alloc, payload);
        let slot = stage.ends.get(place_of(rt, end)).expect(rt, "a place");
        let mut locked = slot.lock(rt);
        let end = locked.as_mut().expect(rt, "an end");
        let offered = end.offer(rt, name(rt, flow.as_bytes()), parcel);
        stage.pace.ring();
        match &offered {
            Offered::Queued(n) => self.say_number(*n),
            Offered::Full(_) => self.say("full"),
        }
        drop(offered);
    }

    fn say_admit(&mut self, admit: &Admit) {
        match admit {
            Admit::Admitted { worker, n, reply } => {
                self.say_number(*worker);
                self.say_number(*n);
                self.say_reply(reply);
            }
            Admit::Empty => self.say("empty"),
            Admit::Spent => self.say("spent"),
        }
    }

    fn admits(&mut self) {
        let admit = self.stage.port.lock(self.rt).admit(self.rt);
        self.say_admit(&admit);
    }

    fn turns(&mut self, most: u64) {
        let most = u32::try_from(most).unwrap_or(u32::MAX).max(1);
        let turn = self.stage.port.lock(self.rt).turn(most);
        write_turn(&turn, &mut self.said).expect(self.rt, "room");
    }

    // Serves the link in this thread until it is spent, or stopped, which it is before it begins.
    fn serves(&mut self, is_stopped: bool) {
        let stop = Stop::new();
        if is_stopped {
            stop.set();
        }
        match run_link(self.rt, &self.stage.port, &stop) {
            LinkEnd::Drained => self.say("drained"),
            LinkEnd::Broken => self.say("broken"),
            LinkEnd::Spent => self.say("spent"),
        }
    }

    fn entries(&self) -> u64 {
        self.stage.port.lock(self.rt).recorder().journal().len()
    }

    // Waits until that many entries are in the journal.
    fn comes(&self, entries: u64) {
        let parker = Parker::new();
        for _look in 0..LOOKS {
            if self.entries() >= entries {
                return;
            }
            parker.park_timeout(self.rt, Duration::from_millis(1));
        }
        panic!(self.rt; "{entries} entries do not come");
    }

    // Whether the report has a line of this flow.
    fn shows(&mut self, flow: &str) {
        let report = self.stage.port.lock(self.rt).report(self.alloc);
        let text = report.expect(self.rt, "memory");
        let mut lines = text.as_slice().split(|byte| *byte == b'\n');
        let is_shown = lines.any(|line| is_of(line, flow.as_bytes()));
        drop(text);
        self.say(if is_shown { "yes" } else { "no" });
    }

    // Makes one more clerk, which is dropped.
    fn makes_clerk(&mut self) {
        let made = self.stage.port.lock(self.rt).clerk(self.alloc);
        match &made {
            Ok(clerk) => self.say_number(clerk.number()),
            Err(refusal) => self.say_reply(&Reply::Refused(*refusal)),
        }
        drop(made);
    }

    fn pauses(&self, milliseconds: u64) {
        let parker = Parker::new();
        parker.park_timeout(self.rt, Duration::from_millis(milliseconds));
    }

    fn asks_link(&mut self, who: &str, what: &str) {
        match who {
            "admit" => self.admits(),
            "turn" => self.turns(number_of(self.rt, what)),
            "stop" => self.serves(true),
            "serve" => self.serves(false),
            "clerk" => self.makes_clerk(),
            "shows" => self.shows(what),
            "entries" => self.say_number(self.entries()),
            "capacity" => self.say_number(self.stage.port.lock(self.rt).capacity() as u64),
            "comes" => self.comes(number_of(self.rt, what)),
            "pause" => self.pauses(number_of(self.rt, what)),
            _ => panic!(self.rt; "no question: {who}"),
        }
    }

    /// Asks this.
    pub(super) fn ask(&mut self, asked: &str) {
        self.said.0.clear();
        let (who, what) = asked.split_once(" ").unwrap_or((asked, ""));
        if let Some(clerk) = who.strip_prefix("C") {
            self.commands(clerk, what);
        } else if let Some(end) = who.strip_prefix("E") {
            self.offers(end, what);
        } else {
            self.asks_link(who, what);
        }
    }

    // Asks what a row asks, and compares the answer. A row without an answer is not refused.
    fn play_row(&mut self, row: &str) {
        match row.split_once(" = ") {
            Some((asked, wanted)) => {
                self.ask(asked);
                same(self.rt, row, self.text(), wanted);
            }
            None => {
                self.ask(row);
                holds(self.rt, row, self.text().split_once(" no ").is_none());
            }
        }
    }

    /// Plays these rows.
    pub(super) fn play(&mut self, rows: &str) {
        for row in rows.split(';') {
            self.play_row(row.trim());
        }
    }
}

/// Plays these rows on a link.
pub(super) fn plays<T: Abort + Wait, W: TellingWriter, L: LinkBrand>(
    rt: &T,
    alloc: Global,
    stage: &Stage<W, L>,
    rows: &[&str],
) {
    let mut session = Session::on(rt, alloc, stage);
    for row in rows {
        session.play(row);
    }
    drop(session);
}
