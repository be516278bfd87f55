//! The frame that is sent, and what the writer's answers make of it.
ghost use Rattle.std.specs.Prelude.{◌≡◌, ◌<◌, ◌+◌, true, false, option_map, IfSome, MatchOption, None};
ghost use Rattle.std.specs.Prelude.{IfOk, IfErr, take};
ghost use Rattle.share_model.specs.link.Buffers.{head_of};
ghost use Rattle.share_model.specs.link.Calls.{is_spent, Stepped};
ghost use Rattle.share_model.specs.link.Turns.{sending_at, sending, rest_of, whole, in_part, wrote_turn, write_step};
ghost use Rattle.share_model.specs.link.Turns.{fault_step};
ghost use Rattle.share_model.specs.io.Told.{Fits};
ghost use Rattle.share_core.specs.NextWrite.{IsNextWriteOf, IsHeaderOf, IsWithinRest, WritesNothing};
ghost use Rattle.share_flows.specs.BufferHandles.{Stands};

use super::Link;
use super::levelling::set_active;
use crate::next_write::NextWrite;
use share_base::{FlowNo, Turn, Version};
use share_frame::{header, header2};
use share_model::{Answer, Part, Rates, TellingWriter};

impl<S: Rates> Link<S> {
    // The write that goes on with the head packet of a flow.
    fn next_write(&self, flow: FlowNo, out: u32) -> Option<NextWrite>
        ensures { MatchOption result (head_of self.now.live.buffers flow ≡ None) (λ p.
            IsNextWriteOf (option_map (sending_at self.now.live out) (head_of self.now.live.buffers flow)) p
            × Stands self.now.live.buffers p.buffer) }
    {
        let buffer = self.buffers.find(flow)?;
        let (seq, body) = self.buffers.head_at(&buffer)?;
        Some(NextWrite {
            buffer,
            seq,
            tariff: self.books.tariff_at(buffer.at, buffer.flow) as u8,
            out,
            length: (self.version.header() + body.as_slice().len()) as u32,
        })
    }

    /// The write that is due: it goes on with the frame in part, and otherwise begins one of the next flow.
    #[inline(always)]
    pub fn sending(&self) -> Option<NextWrite>
        ensures { MatchOption result (sending self.now.live ≡ None) (λ p.
            IsNextWriteOf (sending self.now.live) p × Stands self.now.live.buffers p.buffer) }
    {
        match self.part {
            Some(part) => self.next_write(part.flow, part.out),
            None => match self.queue.least() {
                Some(flow) => self.next_write(flow, 0),
                None => None,
            },
        }
    }

    /// The next write of a turn, or what the turn answers if there is none: `Spent`, `Broken` or `Idle`, in this
    /// order.
    #[inline(always)]
    pub fn due(&self) -> Result<NextWrite, Turn>
        ensures ok { IfOk result (λ p. (is_spent self.now ≡ false)
            × (self.now.live.broken ≡ false)
            × IsNextWriteOf (sending self.now.live) p
            × Stands self.now.live.buffers p.buffer) }
        ensures none { IfErr result (WritesNothing self.now) }
    {
        if self.spent() {
            return Err(Turn::Spent);
        }
        if self.broken() {
            return Err(Turn::Broken);
        }
        match self.sending() {
            None => Err(Turn::Idle),
            Some(due) => Ok(due),
        }
    }

    // The last k bytes of a frame are out: its flow is charged and posted for the whole, and its packet is taken out.
    fn finish(&mut self, due: NextWrite, k: u32) -> Turn
        requires living { is_spent self.old ≡ false }
        requires unbroken { self.old.live.broken ≡ false }
        requires due { IsNextWriteOf (sending self.old.live) due }
        requires stands { Stands self.old.live.buffers due.buffer }
        requires within { IsWithinRest (sending self.old.live) k }
        ensures { IfSome (sending self.old.live) (λ s.
            Stepped (whole self.old.rates self.old.live s k, wrote_turn s k true)
            self.old result self.new) }
    {
        let buffer = due.buffer;
        let flow = buffer.flow;
        let units = self
            .books
            .charge_at(&self.shelf, buffer.at, flow, due.length);
        self.queue.charge(flow, units);
        let _ = self.buffers.pop_at(&buffer);
        self.part = None;
        self.counts.events += 1;
        self.counts.written += 1;
        self.counts.sent += u64::from(k);
        if !self.buffers.is_busy_at(&buffer) {
            set_active(
                &mut self.queue,
                &mut self.ledger,
                &mut self.levelled_with,
                flow,
                false,
            );
        }
        Turn::Wrote {
            flow,
            seq: due.seq,
            k,
            whole: true,
        }
    }

    // k more bytes of a frame are out, and it is in part.
    fn advance(&mut self, due: NextWrite, k: u32) -> Turn
        requires living { is_spent self.old ≡ false }
        requires unbroken { self.old.live.broken ≡ false }
        requires due { IsNextWriteOf (sending self.old.live) due }
        requires within { IsWithinRest (sending self.old.live) k }
        requires part { due.out + k < due.length }
        ensures { IfSome (sending self.old.live)
            (λ s. Stepped (in_part self.old.live s k, wrote_turn s k false) self.old result self.new) }
    {
        let buffer = due.buffer;
        self.part = Some(Part {
            flow: buffer.flow,
            out: due.out + k,
        });
        self.counts.events += 1;
        self.counts.sent += u64::from(k);
        Turn::Wrote {
            flow: buffer.flow,
            seq: due.seq,
            k,
            whole: false,
        }
    }

    /// The writer accepted k bytes of the frame that is sent. It takes no memory.
    pub fn write(&mut self, due: NextWrite, k: u32) -> Turn
        requires living { is_spent self.old ≡ false }
        requires unbroken { self.old.live.broken ≡ false }
        requires due { IsNextWriteOf (sending self.old.live) due }
        requires stands { Stands self.old.live.buffers due.buffer }
        requires within { IsWithinRest (sending self.old.live) k }
        ensures { IfSome (sending self.old.live)
            (λ s. Stepped (write_step self.old.rates self.old.live s k) self.old result self.new) }
    {
        if due.out + k == due.length {
            self.finish(due, k)
        } else {
            self.advance(due, k)
        }
    }

    /// The writer failed on the frame that is sent. It takes no memory.
    pub fn fail(&mut self, due: NextWrite) -> Turn
        requires living { is_spent self.old ≡ false }
        requires unbroken { self.old.live.broken ≡ false }
        requires due { IsNextWriteOf (sending self.old.live) due }
        requires stands { Stands self.old.live.buffers due.buffer }
        ensures { IfSome (sending self.old.live)
            (λ s. Stepped (fault_step self.old.rates self.old.live s) self.old result self.new) }
    {
        let buffer = due.buffer;
        let flow = buffer.flow;
        let units = self.books.charge_at(&self.shelf, buffer.at, flow, due.out);
        self.queue.charge(flow, units);
        self.part = None;
        self.torn = Some(flow);
        self.broken = true;
        self.counts.events += 1;
        Turn::Torn {
            flow,
            seq: due.seq,
            j: due.out,
        }
    }

    /// Offers a writer the next bytes of the frame that is sent, at most `most`, in one call. It takes no memory.
    pub fn offer<W: TellingWriter>(&mut self, due: &NextWrite, most: u32, writer: &mut W) -> Answer
        requires due { IsNextWriteOf (sending self.old.live) due.now }
        requires stands { Stands self.old.live.buffers due.now.buffer }
        ensures answered { IfSome (sending self.old.live)
            (λ s. W.answers writer.old (take most (rest_of s)) result writer.new
            × Fits (take most (rest_of s)) result) }
        ensures same { self.new ≡ self.old }
    {
        let flow = due.buffer.flow;
        let payload = (due.length - self.version.header() as u32) as u16;
        match self.version {
            Version::One => {
                let header = header(flow, due.seq, payload);
                self.offer_under(&header, due, most, writer)
            }
            Version::Two => {
                let header = header2(flow, u64::from(due.seq), due.tariff, payload);
                self.offer_under(&header, due, most, writer)
            }
        }
    }

    // The same, with the header of the frame.
    fn offer_under<W: TellingWriter>(
        &mut self,
        header: &[u8],
        due: &NextWrite,
        most: u32,
        writer: &mut W,
    ) -> Answer
        requires header { IsHeaderOf (sending self.old.live) header.now }
        requires due { IsNextWriteOf (sending self.old.live) due.now }
        requires stands { Stands self.old.live.buffers due.now.buffer }
        ensures answered { IfSome (sending self.old.live)
            (λ s. W.answers writer.old (take most (rest_of s)) result writer.new
            × Fits (take most (rest_of s)) result) }
        ensures same { self.new ≡ self.old }
    {
        self.buffers
            .offer_at(&due.buffer, header, due.out, most, writer)
    }
}
