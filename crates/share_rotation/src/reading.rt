//! The readings of the open book.

use crate::books::Books;
use crate::moments::earlier;
use crate::sent::Sent;
use share_base::{FlowNo, Refusal};
use share_book::Book;
use share_catalog::Time;
use share_orders::{Obeyed, Order};
use share_tariff::PlainShelf;
use std::time::Instant;

impl Books {
    /// Obeys an order. Orders that are events, or that close the book, wait while the disk fails or the book is being
    /// closed. Then the others do too while no book is open.
    pub fn obey(&mut self, order: Order) -> Obeyed {
        let waits = self.is_stalled || self.succession.is_begun();
        self.life.obey(waits, order)
    }

    /// The open book, as it is.
    pub fn open_book(&self) -> Option<&Book<PlainShelf>> {
        self.life.book()
    }

    /// The report of the open book.
    pub fn report(&self) -> Result<Vec<u8>, Refusal> {
        self.life.report()
    }

    /// The number of the open book.
    pub fn number(&self) -> u64 {
        self.number
    }

    /// The second in which the open book was opened.
    pub fn opened(&self) -> Time {
        self.opened
    }

    /// The most events of a book.
    pub fn events(&self) -> u64 {
        self.life.events()
    }

    /// The traffic of a flow since the start.
    pub fn sent(&self, flow: FlowNo) -> Sent {
        self.sent.of(flow)
    }

    /// When something is to be done for the books, if nothing else happens before.
    pub fn due(&self) -> Option<Instant> {
        let first = earlier(self.sync_at, self.succession.retry());
        if self.succession.is_begun() {
            return first;
        }
        earlier(first, self.period_end)
    }
}
