//! Books that were opened and have not begun.
ghost use Rattle.std.specs.Prelude.{◌≡◌, ◌≤◌, length};
ghost use Rattle.share_book.specs.BookHistory.{drained_by};

use super::Book;
use share_model::Rates;
use std::marker::Model;

/// A book that was opened and has not begun: it takes over what waits in the book before it, and makes no other event.
/// A book that has begun takes over nothing.
#[derive(Drop)]
pub struct NewBook<S: Rates> {
    pub(super) book: Book<S>,
}

impl<S: Rates> Model for NewBook<S> {
    ghost use Rattle.std.specs.Coded.{codes};
    ghost use Rattle.share_model.specs.stride.Moves.{coded_stride};
    ghost use Rattle.share_book.specs.Book.{BookView};

    ghost Value = { BookView };

    ghost coded = { Prim.hlevel (codes, coded_stride) };

    ghost view = { λ n. n.book };
}

impl<S: Rates> NewBook<S> {
    /// The text that was not drained.
    pub fn text(&self) -> &[u8]
        ensures { result.now ≡ self.now.audited.text.bytes }
    {
        self.book.text()
    }

    /// The first bytes of the text were drained: they are forgotten.
    pub fn drained(&mut self, count: usize)
        requires { count ≤ length self.old.audited.text.bytes }
        ensures { self.new ≡ record self.old { audited = drained_by self.old.audited count } }
    {
        self.book.drained(count);
    }

    /// The book begins: packets are taken and turns are made, and no more packets are carried over.
    pub fn begin(self) -> Book<S>
        ensures { result ≡ self }
    {
        self.book
    }
}
