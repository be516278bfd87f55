//! Books: one life of an engine each, opened over a plan, with its text.
ghost use Rattle.std.specs.Prelude.{◌≡◌, ◌≤◌, length};
ghost use Rattle.share_core.specs.Room.{has_room};
ghost use Rattle.share_book.specs.Audited.{IsRunAndText, SendsWhole, lacks_text};
ghost use Rattle.share_book.specs.Book.{BookView};
ghost use Rattle.share_book.specs.Texts.{after_drain};

mod carrying;
mod changing;
mod closed;
mod new_book;
mod opening;
mod taking;
mod turning;

use crate::audited::AuditedEngine;
pub use carrying::Carried;
pub use closed::Closed;
pub use new_book::NewBook;
pub use opening::TEXT_ROOM;
use share_base::{FlowNo, Name};
use share_core::Engine;
use share_gateway::Plan;
use share_model::Rates;
use std::marker::Model;

/// The answer of a book to a packet.
#[derive(Clone, Copy, Debug, PartialEq, Eq)]
pub enum Taken {
    /// The packet was taken, and has this number among those of its flow.
    Packet { seq: u32 },
    /// A payload has 1 to 9000 bytes.
    Range,
    /// No event of the book's life is left.
    Spent,
    /// The text has no room for the longest line.
    NoText,
    /// The tenant's buffer is full, or no flow has the name.
    NoRoom,
    /// The memory for the payload was refused.
    NoMemory,
}

/// The answer of a book to a turn.
#[derive(Clone, Copy, Debug, PartialEq, Eq)]
pub enum Turned {
    /// The text has no room for the longest line.
    NoText,
    /// The outbox has no room for the longest frame.
    NoRoom,
    /// No event of the book's life is left.
    Spent,
    /// There is nothing to send.
    Idle,
    /// The frame of this packet, with this many bytes, went into the outbox.
    Wrote { flow: FlowNo, seq: u32, count: u32 },
}

/// A book: one life of an engine of version 2, opened over a plan. It has the text of its events as far as it was not
/// drained. Each call makes one event, with its line at the end of the text, or none, and then changes nothing. Of
/// these calls only `take` takes memory.
pub struct Book<S: Rates> {
    audited: AuditedEngine<S>,
    plan: Plan,
}

impl<S: Rates + Drop> Drop for Book<S> {
    fn drop(self) {
        let Book { audited, plan } = self;
        drop(audited);
        drop(plan);
    }
}

impl<S: Rates> Model for Book<S> {
    ghost use Rattle.std.specs.Coded.{codes};
    ghost use Rattle.share_model.specs.stride.Moves.{coded_stride};
    ghost use Rattle.share_book.specs.Book.{BookView};

    ghost Value = { BookView };

    ghost coded = { Prim.hlevel (codes, coded_stride) };

    ghost view = { λ b. record { audited = b.audited; plan = b.plan } };
}

impl<S: Rates> Book<S> {
    /// The plan, with the holds and the amounts as they are.
    pub fn plan(&self) -> &Plan
        ensures { result.now ≡ self.now.plan }
    {
        &self.plan
    }

    /// The engine. Its events are a run, and the text, after what was drained of it, is the first line and the lines of
    /// these events. Each of them is a command, a packet that is taken, or a frame that is written as a whole. No frame
    /// is in part, and the link is not broken.
    pub fn engine(&self) -> &Engine<(), S>
        ensures link { result.now ≡ self.now.audited.link }
        ensures run { IsRunAndText self.now.audited }
        ensures whole { SendsWhole self.now.audited.link.live }
    {
        self.audited.engine()
    }

    /// Whether the buffer of a tenant has room for a packet.
    pub fn room(&self, tenant: Name) -> bool
        ensures { result ≡ has_room self.now.audited.link.live tenant }
    {
        self.audited.engine().has_room(tenant)
    }

    /// The text that was not drained.
    pub fn text(&self) -> &[u8]
        ensures { result.now ≡ self.now.audited.text.bytes }
    {
        self.audited.text()
    }

    /// Whether the text lacks room for the longest line: then no event is made before some of it is drained.
    pub fn lacks_text(&self) -> bool
        ensures { result ≡ lacks_text self.now.audited }
    {
        self.audited.lacks_text()
    }

    /// The first bytes of the text were drained: they are forgotten.
    pub fn drained(&mut self, count: usize)
        requires { count ≤ length self.old.audited.text.bytes }
        ensures { self.new
            ≡ record self.old {
              audited = record self.old.audited { text = after_drain self.old.audited.text count };
            } }
    {
        self.audited.drained(count);
    }
}
