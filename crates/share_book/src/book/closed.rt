//! The rest of a book that was closed.
ghost use Rattle.std.specs.Prelude.{◌≡◌};
ghost use Rattle.share_model.specs.link.Buffers.{count_in};
ghost use Rattle.share_book.specs.Closed.{closed_of};

use super::Book;
use crate::book_text::BookText;
use share_base::FlowNo;
use share_core::PayloadBuffers;
use share_gateway::Plan;
use share_model::{Rates, Totals};
use std::marker::Model;

/// A book that was closed: what of its text was not drained, its plan, the packets that wait, and its totals.
pub struct Closed {
    pub(super) text: BookText,
    pub(super) plan: Plan,
    pub(super) buffers: PayloadBuffers,
    pub(super) totals: Totals,
}

impl Drop for Closed {
    fn drop(self) {
        let Closed {
            text,
            plan,
            buffers,
            totals: _,
        } = self;
        drop(text);
        drop(plan);
        drop(buffers);
    }
}

impl Model for Closed {
    ghost use Rattle.std.specs.Coded.{codes};
    ghost use Rattle.share_book.specs.Closed.{ClosedView};

    ghost Value = { ClosedView };

    ghost view = { λ c. record { text = c.text.bytes; plan = c.plan; buffers = c.buffers; totals = c.totals } };
}

impl Closed {
    /// The text that was not drained.
    pub fn text(&self) -> &[u8]
        ensures { result.now ≡ self.now.text }
    {
        self.text.as_slice()
    }

    /// The plan, with the holds and the amounts as they were.
    pub fn plan(&self) -> &Plan
        ensures { result.now ≡ self.now.plan }
    {
        &self.plan
    }

    /// The counts of the book, and its contents when it was closed.
    pub fn totals(&self) -> Totals
        ensures { result ≡ self.now.totals }
    {
        self.totals
    }

    /// The number of packets of a flow that wait. After the last of them was carried, it is the number dropped.
    pub fn waiting(&self, flow: FlowNo) -> u32
        ensures { result ≡ count_in self.now.buffers flow }
    {
        self.buffers.len(flow)
    }
}

impl<S: Rates + Drop> Book<S> {
    /// Closes the book. The packets that wait stay in the memory in which they are. It takes no memory.
    pub fn close(self) -> Closed
        ensures { result ≡ closed_of self }
    {
        let Book { audited, plan } = self;
        let totals = audited.engine().totals();
        let (text, buffers) = audited.into_parts();
        Closed {
            text,
            plan,
            buffers,
            totals,
        }
    }
}
