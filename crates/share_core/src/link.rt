//! The parts of a link besides its writer: the ledger, the queue, the buffers, the books and the counts.
ghost use Rattle.std.specs.Prelude.{◌≡◌, ◌<◌, ◌≤◌, ◌^◌, false, IfOk, IfErr, None};
ghost use Rattle.share_base.specs.Refusal.{IsRefused};
ghost use Rattle.share_base.specs.declared.command.Reply.TheVariants.{Refused};
ghost use Rattle.share_base.specs.declared.version.Version.TheVariants.{One};
ghost use Rattle.share_model.specs.link.Calls.{is_spent, Stepped};
ghost use Rattle.share_model.specs.link.Live.{empty_link, with_one_event};
ghost use Rattle.share_model.specs.run.Sound.{Sound};
ghost use Rattle.share_core.specs.Life.{life_refusal};

mod arrivals;
mod commands;
mod flows;
mod levelling;
mod readers;
mod sending;
mod turns;

use crate::books::Books;
use crate::payload_buffers::PayloadBuffers;
use crate::{MAX_FLOWS, MAX_LIFE};
use share_base::{FlowNo, Refusal, Reply, Version};
use share_ledger::Ledger;
use share_model::{Counts, Part, Rates};
use share_stride::Queue;
use std::alloc::Global;
use std::marker::Model;

/// The ledger, the queue, the buffers, the books and the counts of a link, and its shelf of tariffs. Beside the queue
/// it keeps the tickets with which each open flow was levelled last, by its place.
pub struct Link<S: Rates> {
    life: u64,
    shelf: S,
    version: Version,
    ledger: Ledger,
    queue: Queue,
    levelled_with: [u32; MAX_FLOWS],
    buffers: PayloadBuffers,
    books: Books,
    part: Option<Part>,
    torn: Option<FlowNo>,
    broken: bool,
    counts: Counts,
}

impl<S: Rates + Drop> Drop for Link<S> {
    fn drop(self) {
        let Link {
            life: _,
            shelf,
            version: _,
            ledger,
            queue,
            levelled_with: _,
            buffers,
            books,
            part: _,
            torn: _,
            broken: _,
            counts: _,
        } = self;
        drop(shelf);
        drop(ledger);
        drop(queue);
        drop(buffers);
        drop(books);
    }
}

impl<S: Rates> Model for Link<S> {
    ghost use Rattle.std.specs.Prelude.{◌≤◌, ◌^◌};
    ghost use Rattle.share_model.specs.run.Sound.{Sound};
    ghost use Rattle.share_model.specs.link.View.{LinkView};
    ghost use Rattle.share_core.specs.Levels.{AreTicketsOf};
    ghost use Rattle.std.specs.Coded.{codes};
    ghost use Rattle.share_model.specs.stride.Moves.{coded_stride};

    ghost Value = { LinkView (Unit {0}) };

    ghost coded = { Prim.hlevel (codes, coded_stride) };

    ghost view = { λ e. record {
      life = e.life;
      rates = S.rates e.shelf;
      live = record {
        version = e.version;
        graph = e.ledger;
        queue = e.queue;
        buffers = e.buffers;
        books = e.books;
        part = e.part;
        torn = e.torn;
        broken = e.broken;
        counts = e.counts;
      };
      writer = tt;
    } };

    ghost invariant = { λ e.
        ((e.life ≤ 2 ^ 24) × AreTicketsOf e.levelled_with e.ledger)
        × Sound e.life (S.rates e.shelf) (record {
          version = e.version;
          graph = e.ledger;
          queue = e.queue;
          buffers = e.buffers;
          books = e.books;
          part = e.part;
          torn = e.torn;
          broken = e.broken;
          counts = e.counts;
        }) };
}

impl<S: Rates + Drop> Link<S> {
    /// A new link of version 1, with a life of 1 to 2^24 events. `Range` if the life is not in that range, `NoMemory`
    /// if a growth was refused; the shelf is dropped then.
    pub fn new(alloc: Global, shelf: S, life: u64) -> Result<Link<S>, Refusal>
        ensures ok { IfOk result (λ e.
            (e ≡ record { life = life; rates = S.rates shelf; live = empty_link One; writer = tt })
            × (life_refusal life ≡ None)) }
        ensures refused { IfErr result (IsRefused (life_refusal life)) }
    {
        if life < 1 || life > MAX_LIFE {
            return Err(Refusal::Range);
        }
        let books = Books::new(alloc)?;
        let buffers = PayloadBuffers::new(alloc)?;
        let queue = Queue::new(alloc)?;
        let ledger = Ledger::new(alloc)?;
        Ok(Link {
            life,
            shelf,
            version: Version::One,
            ledger,
            queue,
            levelled_with: [0; MAX_FLOWS],
            buffers,
            books,
            part: None,
            torn: None,
            broken: false,
            counts: NO_COUNTS,
        })
    }
}

/// The counts of a new link.
const NO_COUNTS: Counts = Counts {
    events: 0,
    accepted: 0,
    written: 0,
    dropped: 0,
    sent: 0,
    past: 0,
};

impl<S: Rates + Drop> Link<S> {
    /// The buffers; the rest is dropped.
    pub fn into_buffers(self) -> PayloadBuffers
        ensures { result ≡ self.live.buffers }
    {
        let Link {
            life: _,
            shelf,
            version: _,
            ledger,
            queue,
            levelled_with: _,
            buffers,
            books,
            part: _,
            torn: _,
            broken: _,
            counts: _,
        } = self;
        drop(shelf);
        drop(ledger);
        drop(queue);
        drop(books);
        buffers
    }
}

impl<S: Rates> Link<S> {
    /// Makes a link that made no event a new one of this version.
    pub fn choose(&mut self, version: Version)
        requires { self.old.live.counts.events ≡ 0 }
        ensures { self.new ≡ record self.old { live = empty_link version } }
    {
        self.version = version;
    }

    // A refused command or arrival is an event that changes nothing else.
    fn refuse(&mut self, refusal: Refusal) -> Reply
        requires { is_spent self.old ≡ false }
        ensures { Stepped (with_one_event self.old.live, Refused refusal) self.old result self.new }
    {
        self.counts.events += 1;
        Reply::Refused(refusal)
    }
}
