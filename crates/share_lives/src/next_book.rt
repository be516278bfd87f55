//! Books that are ready to follow another.
ghost use Rattle.std.specs.Prelude.{◌≡◌, ◌⊎◌, false, true, IfOk, IfErr};
ghost use Rattle.std.specs.IoError.{error_kind};
ghost use Rattle.share_tariff.specs.PlainRates.{are_plain_rates};
ghost use Rattle.share_tariff.specs.PlainShelf.{plain_rates_of};
ghost use Rattle.share_book.specs.OpenBook.{IsOpenBook};
ghost use Rattle.share_lives.specs.NextBooks.{IsNoBook, kind_of_fault, text_kind};

use share_book::{Book, NewBook, TextKind};
use share_gateway::{NotOpened, Plan};
use share_model::Rate;
use share_settings::BookText;
use share_tariff::PlainShelf;
use std::alloc::Global;
use std::io;
use std::io::{Error, ErrorKind};
use std::marker::Model;

/// A book that was opened, and follows no other yet. A contract sees the book.
pub struct NextBook {
    book: NewBook<PlainShelf>,
}

impl Model for NextBook {
    ghost use Rattle.std.specs.Coded.{codes};
    ghost use Rattle.share_model.specs.stride.Moves.{coded_stride};
    ghost use Rattle.share_book.specs.Book.{BookView};

    ghost Value = { BookView };

    ghost coded = { Prim.hlevel (codes, coded_stride) };

    ghost view = { λ n. n.book };
}

// This is written out so that no crate above proves how each part of a book is dropped.
impl Drop for NextBook {
    fn drop(self) {
        let NextBook { book } = self;
        drop(book);
    }
}

impl NextBook {
    /// A new book over a plan and its tariffs, with a life of this many events and a text of this kind. The error is
    /// `OutOfMemory` if memory was refused. It is `InvalidInput` if there are not 1 to 8 tariffs, each in its range. It
    /// is that too if the events are not 131072 to 2^24, or if an entry of the plan is refused.
    pub(crate) fn open(
        alloc: Global,
        rates: &[Rate],
        plan: &Plan,
        events: u64,
        kind: BookText,
    ) -> io::Result<NextBook>
        ensures ok { IfOk result (λ b. IsOpenBook rates.now plan.now events (text_kind kind) b) }
        ensures not { IfErr result (IsNoBook rates.now plan.now events) }
    {
        let shelf = shelf_of(alloc, rates)?;
        match Book::open(alloc, plan, shelf, events, text_kind(kind)) {
            Ok(book) => Ok(NextBook { book }),
            Err(why) => Err(fault_of(why)),
        }
    }

    /// The book itself.
    pub(crate) fn into_book(self) -> NewBook<PlainShelf>
        ensures { result ≡ self }
    {
        let NextBook { book } = self;
        book
    }
}

// A copy of tariffs, as a shelf.
fn shelf_of(alloc: Global, rates: &[Rate]) -> io::Result<PlainShelf>
    ensures ok { IfOk result (λ s. (plain_rates_of s ≡ rates.now) × (are_plain_rates rates.now ≡ true)) }
    ensures not { IfErr result (λ fault. (error_kind fault ≡ ErrorKind.OutOfMemory)
        ⊎ ((error_kind fault ≡ ErrorKind.InvalidInput) × (are_plain_rates rates.now ≡ false))) }
{
    match PlainShelf::new(Vec::from_slice(alloc, rates)?) {
        Ok(shelf) => Ok(shelf),
        Err(_) => Err(Error::from(ErrorKind::InvalidInput)),
    }
}

// Why a plan was not opened, as an error of the system.
fn fault_of(why: NotOpened) -> Error
    ensures { error_kind result ≡ kind_of_fault why }
{
    match why {
        NotOpened::NoMemory => Error::from(ErrorKind::OutOfMemory),
        NotOpened::Range | NotOpened::Refused { .. } => Error::from(ErrorKind::InvalidInput),
    }
}

fn text_kind(kind: BookText) -> TextKind
    ensures { result ≡ text_kind kind }
{
    match kind {
        BookText::Lengths => TextKind::Lengths,
        BookText::Whole => TextKind::Whole,
    }
}
