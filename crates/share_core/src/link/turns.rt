//! Turns: one write call each, to a writer that the link is lent.
ghost use Rattle.std.specs.Prelude.{◌≡◌, ◌≤◌, false, IfSome};
ghost use Rattle.share_model.specs.link.Calls.{is_spent, OfferDecided, TurnCall};
ghost use Rattle.share_model.specs.link.Turns.{sending};
ghost use Rattle.share_core.specs.Lent.{lent};
ghost use Rattle.share_core.specs.NextWrite.{IsNextWriteOf};
ghost use Rattle.share_flows.specs.BufferHandles.{Stands};

use super::Link;
use crate::next_write::NextWrite;
use share_base::Turn;
use share_model::{Answer, Rates, TellingWriter};

impl<S: Rates> Link<S> {
    /// Offers a writer the next bytes of the frame that is sent, at most `most` bytes, in one write call, and its
    /// answer decides. Nothing is offered if the life is spent, the link is broken or there is nothing to send. It
    /// takes no memory.
    pub fn turn<W: TellingWriter>(&mut self, writer: &mut W, most: u32) -> Turn
        requires { 1 ≤ most }
        ensures { TurnCall W.answers (lent self.old writer.old) most result (lent self.new writer.new) }
    {
        match self.due() {
            Err(turn) => turn,
            Ok(due) => self.send(due, most, writer),
        }
    }

    // Offers a writer the next bytes of the frame that is sent.
    fn send<W: TellingWriter>(&mut self, due: NextWrite, most: u32, writer: &mut W) -> Turn
        requires some { 1 ≤ most }
        requires living { is_spent self.old ≡ false }
        requires unbroken { self.old.live.broken ≡ false }
        requires sends { IsNextWriteOf (sending self.old.live) due }
        requires stands { Stands self.old.live.buffers due.buffer }
        ensures { IfSome (sending self.old.live)
            (λ s. OfferDecided W.answers (lent self.old writer.old) most s result (lent self.new writer.new)) }
    {
        match self.offer(&due, most, writer) {
            Answer::Accepted(0) => self.fail(due),
            Answer::Accepted(count) => self.write(due, count as u32),
            Answer::Interrupted => Turn::Again,
            Answer::Failed => self.fail(due),
        }
    }
}
