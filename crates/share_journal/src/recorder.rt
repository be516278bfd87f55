//! A link with its journal.
ghost use Rattle.std.specs.Prelude.{◌≡◌, ◌<◌, ◌≤◌, ◌++◌, [], length, IfOk, IfErr, IfSome, true, false};
ghost use Rattle.share_base.specs.Version.{max_payload};
ghost use Rattle.share_model.specs.link.Answers.{answers_event};
ghost use Rattle.share_model.specs.link.Calls.{Steps, CommandCall, TurnCall, TearCall};
ghost use Rattle.share_model.specs.link.Arrivals.{arrive_step};
ghost use Rattle.share_model.specs.link.Fields.{IsBody};
ghost use Rattle.share_journal.specs.Entries.{command_entry, arrival_entry, turn_entries, with_entries};
ghost use Rattle.share_journal.specs.Records.{RecorderView, IsRunNow, AcceptedNothing, are_new, made_event};
ghost use Rattle.share_journal.specs.Records.{entry_if, is_same_version};

use crate::entry::{self, Entry, Source};
use crate::journal::Journal;
use share_base::{Command, Event, Name, Parcel, Reply, Turn, Version};
use share_core::Engine;
use share_model::{Rates, TellingWriter};
use std::marker::Model;

/// A link with its journal: each call makes the call of the link and its entry together. A contract sees the link and
/// the entries. At every moment the events of the entries are the run of the link, as `journal` says.
#[derive(Drop)]
pub struct Recorder<W: TellingWriter, S: Rates> {
    engine: Engine<W, S>,
    journal: Journal,
}

impl<W: TellingWriter, S: Rates> Model for Recorder<W, S> {
    ghost use Rattle.std.specs.Prelude.{◌≡◌};
    ghost use Rattle.std.specs.Coded.{codes};
    ghost use Rattle.share_model.specs.stride.Moves.{coded_stride};
    ghost use Rattle.share_journal.specs.Records.{RecorderView, IsRunNow};

    ghost Value = { RecorderView W };

    ghost coded = { Prim.hlevel (codes, coded_stride) };

    ghost view = { λ r. record { link = r.engine; entries = r.journal.entries } };

    ghost invariant = { λ r.
        (r.journal.life ≡ r.engine.life)
        × (r.journal.version ≡ r.engine.live.version)
        × IsRunNow W.told r.engine r.journal.entries };
}

impl<W: TellingWriter, S: Rates> Recorder<W, S> {
    /// A link and its journal, both new and of the same life and version; otherwise both come back. The
    /// condition: a writer that reports has accepted nothing yet. It takes no memory.
    pub fn new(
        engine: Engine<W, S>,
        journal: Journal,
    ) -> Result<Recorder<W, S>, (Engine<W, S>, Journal)>
        requires nothing { IfSome (W.told engine.writer) AcceptedNothing }
        ensures ok { IfOk result (λ r.
            (r ≡ record { link = engine; entries = [] })
            × (are_new engine journal ≡ true)) }
        ensures back { IfErr result (λ both.
            (both.0 ≡ engine)
            × (both.1 ≡ journal)
            × (are_new engine journal ≡ false)) }
    {
        if engine.events() != 0 || journal.len() != 0 || engine.life() != journal.life() {
            return Err((engine, journal));
        }
        if !is_same_version(engine.version(), journal.version()) {
            return Err((engine, journal));
        }
        Ok(Recorder { engine, journal })
    }

    /// The link.
    pub fn engine(&self) -> &Engine<W, S>
        ensures link { result.now ≡ self.now.link }
        ensures run { IsRunNow W.told self.now.link self.now.entries }
    {
        &self.engine
    }

    /// The journal. The events of its entries are the run of the link. Its replies are those of that run, and the link
    /// holds what the run left. If the writer reports, it holds the bytes of the run, and what it accepted are the
    /// writes among the events, in order.
    pub fn journal(&self) -> &Journal
        ensures entries { result.now
            ≡ record { life = self.now.link.life; version = self.now.link.live.version; entries = self.now.entries } }
        ensures run { IsRunNow W.told self.now.link self.now.entries }
    {
        &self.journal
    }

    /// The most events that the link makes.
    pub fn life(&self) -> u64
        ensures { result ≡ self.now.link.life }
    {
        self.engine.life()
    }

    /// The link and the journal as they are.
    pub fn into_parts(self) -> (Engine<W, S>, Journal)
        ensures engine { result.0 ≡ self.link }
        ensures journal { result.1
            ≡ record { life = self.link.life; version = self.link.live.version; entries = self.entries } }
        ensures run { IsRunNow W.told self.link self.entries }
    {
        let Recorder { engine, journal } = self;
        (engine, journal)
    }

    /// The command of a clerk, as `Engine::command` makes it, and its entry if it was an event: if the answer is
    /// neither `Spent` nor `NoMemory`.
    pub fn command(&mut self, clerk: u64, command: Command) -> Reply
        ensures did { CommandCall self.old.link command result self.new.link }
        ensures entry { self.new.entries
            ≡ self.old.entries
            ++ entry_if (made_event self.old.link self.new.link)
            (command_entry clerk command result) }
        ensures event { made_event self.old.link self.new.link ≡ answers_event result }
    {
        let event = entry::event_of_command(&command);
        let before = self.engine.events();
        let reply = self.engine.command(command);
        let made = self.engine.events() > before;
        note_if(
            &mut self.journal,
            made,
            entry::entry_of_reply(event, &reply, Source::Clerk(clerk)),
        );
        reply
    }

    /// The packet of a worker for the flow of a name, as `Engine::arrive` takes it. It has an entry if it was an event:
    /// if the answer is not `Spent`. One copy of the payload goes into the buffer of the flow, and the other into the
    /// entry. The payload is one that frames of the link's version carry. It takes no memory.
    pub fn arrive(&mut self, worker: u64, flow: Name, parcel: Parcel) -> Reply
        requires { length parcel ≤ max_payload self.old.link.live.version }
        ensures did { Steps (λ _ l. arrive_step l flow parcel) self.old.link result self.new.link }
        ensures body { IsBody self.old.link.live.version parcel }
        ensures entry { self.new.entries
            ≡ self.old.entries
            ++ entry_if (made_event self.old.link self.new.link)
            (arrival_entry worker flow parcel result) }
        ensures event { made_event self.old.link self.new.link ≡ answers_event result }
    {
        let (sending, body) = parcel.split();
        let event = entry::event_of_arrival(flow, body);
        let before = self.engine.events();
        let reply = self.engine.arrive(flow, sending);
        let made = self.engine.events() > before;
        note_if(
            &mut self.journal,
            made,
            entry::entry_of_reply(event, &reply, Source::Worker(worker)),
        );
        reply
    }

    /// A turn of the link of at least 1 byte, as `Engine::turn` makes it. It has an entry if the writer accepted bytes
    /// or the frame was torn. It takes no memory.
    pub fn turn(&mut self, most: u32) -> Turn
        requires { 1 ≤ most }
        ensures did { TurnCall W.answers self.old.link most result self.new.link }
        ensures entry { self.new.entries ≡ self.old.entries ++ turn_entries result }
    {
        let turn = self.engine.turn(most);
        note_turn(&mut self.journal, &turn);
        turn
    }

    /// A declared fault, as `Engine::tear` makes it, and its entry if the frame was torn. It takes no memory.
    pub fn tear(&mut self) -> Turn
        ensures did { TearCall self.old.link result self.new.link }
        ensures entry { self.new.entries ≡ self.old.entries ++ turn_entries result }
    {
        let turn = self.engine.tear();
        note_turn(&mut self.journal, &turn);
        turn
    }
}

fn is_same_version(one: Version, other: Version) -> bool
    ensures { result ≡ is_same_version one other }
{
    match one {
        Version::One => matches!(other, Version::One),
        Version::Two => matches!(other, Version::Two),
    }
}

// Puts the entry of a call at the end of a journal, if the call made an event.
fn note_if(journal: &mut Journal, made: bool, entry: Entry)
    requires { length (journal.old.entries ++ entry_if made entry) ≤ journal.old.life }
    ensures { journal.new ≡ with_entries journal.old (entry_if made entry) }
{
    if made {
        journal.push(entry);
    }
}

// Puts the entry of a turn at the end of a journal, if the turn was an event.
fn note_turn(journal: &mut Journal, turn: &Turn)
    requires { length (journal.old.entries ++ turn_entries turn.now) ≤ journal.old.life }
    ensures { journal.new ≡ with_entries journal.old (turn_entries turn.now) }
{
    match turn {
        Turn::Wrote { k, .. } => journal.push(entry::entry_of_turn(Event::Written(*k), turn)),
        Turn::Torn { .. } => journal.push(entry::entry_of_turn(Event::Faulted, turn)),
        Turn::Idle => {}
        Turn::Again => {}
        Turn::Broken => {}
        Turn::Spent => {}
    }
}
