//! Turns of a book.
ghost use Rattle.std.specs.Prelude.{◌≡◌};
ghost use Rattle.share_book.specs.Book.{Turns};

use super::{Book, Turned};
use crate::audited::MAX_FRAME;
use share_base::Turn;
use share_gateway::Outbox;
use share_model::Rates;

impl<S: Rates> Book<S> {
    /// Sends the next frame into the outbox, as a whole. Answers, in order: `NoText`, `NoRoom` if the outbox has no
    /// room for the longest frame, `Spent`, and `Idle` if there is nothing to send. Then nothing changes. It takes no
    /// memory.
    pub fn turn(&mut self, outbox: &mut Outbox) -> Turned
        ensures turned { Turns self.old.audited outbox.old result self.new.audited outbox.new }
        ensures plan { self.new.plan ≡ self.old.plan }
    {
        if self.audited.lacks_text() {
            return Turned::NoText;
        }
        if outbox.room() < MAX_FRAME as usize {
            return Turned::NoRoom;
        }
        if self.audited.engine().spent() {
            return Turned::Spent;
        }
        let Turn::Wrote { flow, seq, k, .. } = self.audited.send(outbox) else {
            return Turned::Idle;
        };
        Turned::Wrote {
            flow,
            seq,
            count: k,
        }
    }
}
