//! The state of a book's life.
ghost use Rattle.std.specs.Prelude.{◌≡◌, ◌+◌, ◌++◌, [], not, nat_lt, length, take, option_map};
ghost use Rattle.std.specs.Borrow.{sem};
ghost use Rattle.share_transit.specs.Transit.{handed_count};
ghost use Rattle.share_book.specs.Closed.{closed_of};
ghost use Rattle.share_lives.specs.Lending.{PhaseLends, StageLends};
ghost use Rattle.share_lives.specs.Lives.{CarriesAt, ObeysAt, TurnsAt, begun, drained_at, dropped_at, is_carrying};
ghost use Rattle.share_lives.specs.Lives.{is_open, left_at, open_book, stage_after, text_at};
ghost use Rattle.share_lives.specs.Remainders.{Gains, remainders_of};

use crate::next_book::NextBook;
use crate::remainder::Remainders;
use share_book::{Book, Carried, Closed, NewBook, Turned};
use share_orders::{Obeyed, Order, obey};
use share_tariff::PlainShelf;
use share_transit::{Page, Transit};
use std::marker::Model;
use std::mem;

/// The state of a book's life.
#[derive(Drop)]
pub(crate) enum Phase {
    Open(Book<PlainShelf>),
    /// The packets that wait in the book before are carried over.
    Carrying(NewBook<PlainShelf>, Closed),
    /// The last book was closed.
    Over,
}

impl Phase {
    // The open book.
    fn book_mut(&mut self) -> Option<&mut Book<PlainShelf>>
        ensures* lent { sem 𝓛 (PhaseLends self.entry result) }
        ensures value { option_map (λ b. b.now) result ≡ open_book self.old }
    {
        if let Phase::Open(book) = self {
            Some(book)
        } else {
            None
        }
    }
}

/// The book whose life it is, and where it stands.
pub(crate) struct Stage {
    phase: Phase,
}

impl Model for Stage {
    ghost use Rattle.std.specs.Coded.{codes};
    ghost use Rattle.share_model.specs.stride.Moves.{coded_stride};
    ghost use Rattle.share_lives.specs.declared.stage.Phase.{Phase};

    ghost Value = { Phase };

    ghost coded = { Prim.hlevel (codes, coded_stride) };

    ghost view = { λ s. s.phase };
}

// This is written out so that a function that drops it makes one call.
impl Drop for Stage {
    fn drop(self) {
        let Stage { phase } = self;
        drop(phase);
    }
}

impl Stage {
    /// The first book is open.
    pub(crate) fn first(book: NextBook) -> Stage
        ensures { result ≡ Phase.Open book }
    {
        Stage {
            phase: Phase::Open(book.into_book().begin()),
        }
    }

    // Ends what is there, and puts this in its place.
    fn put(&mut self, phase: Phase)
        ensures { self.new ≡ phase }
    {
        drop(mem::replace(&mut self.phase, phase));
    }

    fn take(&mut self) -> Phase
        ensures taken { result ≡ self.old }
        ensures over { self.new ≡ Phase.Over }
    {
        mem::replace(&mut self.phase, Phase::Over)
    }

    /// The open book.
    pub(crate) fn book(&self) -> Option<&Book<PlainShelf>>
        ensures { option_map (λ b. b.now) result ≡ open_book self.now }
    {
        match &self.phase {
            Phase::Open(book) => Some(book),
            _ => None,
        }
    }

    /// The open book.
    pub(crate) fn book_mut(&mut self) -> Option<&mut Book<PlainShelf>>
        ensures* lent { sem 𝓛 (StageLends self.entry result) }
        ensures value { option_map (λ b. b.now) result ≡ open_book self.old }
    {
        self.phase.book_mut()
    }

    /// Whether a book is open.
    pub(crate) fn is_open(&self) -> bool
        ensures { result ≡ is_open self.now }
    {
        matches!(&self.phase, Phase::Open(_))
    }

    /// Whether packets are carried over.
    pub(crate) fn is_carrying(&self) -> bool
        ensures { result ≡ is_carrying self.now }
    {
        matches!(&self.phase, Phase::Carrying(..))
    }

    /// Closes the open book. The next one is to take over the packets that wait. Returns false, and drops the next one,
    /// if no book is open.
    pub(crate) fn follow(&mut self, next: NextBook) -> bool
        ensures followed { result ≡ is_open self.old }
        ensures stage { self.new ≡ stage_after next self.old }
    {
        match self.take() {
            Phase::Open(book) => {
                self.put(Phase::Carrying(next.into_book(), book.close()));
                true
            }
            other => {
                drop(next);
                self.put(other);
                false
            }
        }
    }

    /// Carries packets over. Returns true if none is left to be carried.
    pub(crate) fn carry(&mut self) -> bool
        ensures { CarriesAt self.old result self.new }
    {
        match &mut self.phase {
            Phase::Carrying(book, closed) => match book.carry(closed) {
                Carried::More => false,
                Carried::Spent | Carried::Done { .. } => true,
            },
            _ => true,
        }
    }

    /// The book that took packets over begins. Those that found no room are dropped, and added to these.
    pub(crate) fn begin_next(&mut self, remainders: &mut Remainders)
        ensures stage { self.new ≡ begun self.old }
        ensures dropped { Gains remainders.old (dropped_at self.old) remainders.new }
    {
        match self.take() {
            Phase::Carrying(book, before) => {
                count_left(before, remainders);
                self.put(Phase::Open(book.begin()));
            }
            other => self.put(other),
        }
    }

    /// Drops the open book, and adds the packets that wait in it to these. While packets are carried over, it adds
    /// those that were, and those that are left.
    pub(crate) fn leave(&mut self, remainders: &mut Remainders)
        ensures stage { self.new ≡ Phase.Over }
        ensures dropped { Gains remainders.old (left_at self.old) remainders.new }
    {
        match self.take() {
            Phase::Open(book) => count_left(book.close(), remainders),
            Phase::Carrying(book, closed) => {
                count_left(book.begin().close(), remainders);
                count_left(closed, remainders);
            }
            Phase::Over => (),
        }
    }

    /// Whether some text was not handed to the disk. The open book drops the text that it drained.
    pub(crate) fn has_text(&self) -> bool
        ensures { result ≡ nat_lt 0 (length (text_at self.now)) }
    {
        match &self.phase {
            Phase::Open(book) => !book.text().is_empty(),
            Phase::Carrying(book, _) => !book.text().is_empty(),
            Phase::Over => false,
        }
    }

    /// Moves text to a page for the disk.
    pub(crate) fn hand(&mut self, transit: &mut Transit, page: &mut Page)
        ensures stage { self.new ≡ drained_at (handed_count transit.old page.old (text_at self.old)) self.old }
        ensures transit { let n = handed_count transit.old page.old (text_at self.old) in
            transit.new ≡ record transit.old { handed = transit.old.handed + n } }
        ensures page { page.new
            ≡ page.old ++ take (handed_count transit.old page.old (text_at self.old)) (text_at self.old) }
    {
        match &mut self.phase {
            Phase::Open(book) => transit.hand(book, page),
            Phase::Carrying(book, _) => transit.hand_new(book, page),
            Phase::Over => (),
        }
    }

    /// Makes a turn of the open book.
    pub(crate) fn turn(&mut self, transit: &mut Transit) -> Turned
        ensures { TurnsAt self.old transit.old result self.new transit.new }
    {
        match &mut self.phase {
            Phase::Open(book) => transit.turn(book),
            _ => Turned::Idle,
        }
    }

    /// Obeys an order on the open book. While no book is open, all wait.
    pub(crate) fn obey(&mut self, waits: bool, order: Order) -> Obeyed
        ensures { ObeysAt waits self.old order result self.new }
    {
        match &mut self.phase {
            Phase::Open(book) => obey(book, waits, order),
            _ => Obeyed::Waits,
        }
    }
}

// Adds the packets that wait in a closed book, and drops it.
fn count_left(closed: Closed, remainders: &mut Remainders)
    ensures { Gains remainders.old (remainders_of closed) remainders.new }
{
    remainders.add_all(&closed);
    drop(closed);
}
