//! The entry of one event in a journal.
ghost use Rattle.std.specs.Prelude.{◌≡◌};
ghost use Rattle.share_base.specs.declared.command.Event.TheVariants.{Commanded, Arrived};
ghost use Rattle.share_base.specs.declared.command.Outcome.TheVariants.{Replied, Turned};
ghost use Rattle.share_journal.specs.declared.entry.Source.TheVariants.{Link};

use share_base::{Body, Command, Event, Name, Outcome, Reply, Turn};

/// Who brought an event about.
#[derive(Clone, Copy, Debug, PartialEq, Eq)]
pub enum Source {
    /// The clerk of this number made a command.
    Clerk(u64),
    /// The worker of this number brought a packet.
    Worker(u64),
    /// The link wrote some bytes, or met a fault.
    Link,
}

/// One event of a link, the reply to it, and its source. For a packet that came it holds the audit copy of the payload.
#[derive(Drop)]
pub struct Entry {
    pub event: Event,
    pub reply: Outcome,
    pub source: Source,
}

/// The event of a command.
pub fn event_of_command(command: &Command) -> Event
    ensures { result ≡ Commanded command.now }
{
    Event::Commanded(*command)
}

/// The event of an arrival.
pub fn event_of_arrival(flow: Name, body: Body) -> Event
    ensures { result ≡ Arrived flow body }
{
    Event::Arrived { flow, body }
}

/// The entry of a command or an arrival.
pub fn entry_of_reply(event: Event, reply: &Reply, source: Source) -> Entry
    ensures { result ≡ record { event = event; reply = Replied reply.now; source = source } }
{
    Entry {
        event,
        reply: Outcome::Replied(*reply),
        source,
    }
}

/// The entry of a turn of the link that made this event.
pub fn entry_of_turn(event: Event, turn: &Turn) -> Entry
    ensures { result ≡ record { event = event; reply = Turned turn.now; source = Link } }
{
    Entry {
        event,
        reply: Outcome::Turned(*turn),
        source: Source::Link,
    }
}
