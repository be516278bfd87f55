//! The frames of one connection, and where in its stream they begin.
ghost use Rattle.std.specs.Prelude.{◌≡◌, ◌≢◌, ◌+◌, ◌≤◌, length, [], true, false, None, IfOk, IfErr, IfSome};
ghost use Rattle.share_base.specs.Refusal.{IsRefused};
ghost use Rattle.share_base.specs.declared.version.Version.TheVariants.{Two};
ghost use Rattle.share_frame.specs.Reading.{IsFirstBad};
ghost use Rattle.share_model.specs.run.History.{IsBeginning};
ghost use Rattle.share_downlink.specs.Given.{CutsOff, fed};
ghost use Rattle.share_downlink.specs.Steps.{StepGives};

use crate::counts::Counts;
use crate::deliver::Deliver;
use share_base::Refusal;
use share_frame::HEADER2;
use share_gateway::{Field, FrameCut, Frames};
use std::alloc::Global;
use std::marker::Model;

/// The frames of one connection. A contract sees the bytes of its stream that were not given, and where in the stream
/// they begin.
#[derive(Drop)]
pub(crate) struct Incoming {
    frames: Frames,
    // The bytes of the stream that the given frames have, and the bytes that came and were not given.
    offset: u64,
    buffered: usize,
}

impl Model for Incoming {
    ghost use Rattle.share_downlink.specs.Given.{IncomingView};
    ghost use Rattle.std.specs.Prelude.{◌≡◌, length};

    ghost Value = { IncomingView };

    ghost view = { λ i. record { bytes = i.frames.bytes; payload = i.frames.payload; offset = i.offset } };

    ghost invariant = { λ i. i.buffered ≡ length i.frames.bytes };
}

impl Incoming {
    /// The frames of a stream of which nothing came. `NoMemory` if memory is refused.
    pub(crate) fn new(alloc: Global) -> Result<Incoming, Refusal>
        ensures ok { IfOk result (λ i. i ≡ record { bytes = []; payload = []; offset = 0 }) }
        ensures refused { IfErr result (IsRefused None) }
    {
        Ok(Incoming {
            frames: Frames::new(alloc)?,
            offset: 0,
            buffered: 0,
        })
    }

    /// The place in the stream of the first byte that was not given.
    pub(crate) fn offset(&self) -> u64
        ensures { result ≡ self.now.offset }
    {
        self.offset
    }

    /// Whether no byte is there that was not given.
    pub(crate) fn is_empty(&self) -> bool
        ensures empty { result ≡ true → self.now.bytes ≡ [] }
        ensures buffered { result ≡ false → self.now.bytes ≢ [] }
    {
        self.buffered == 0
    }

    /// Takes the next piece of the stream, for which there is room.
    pub(crate) fn feed(&mut self, piece: &[u8])
        requires { length self.old.bytes + length piece.now ≤ 65536 }
        ensures { self.new ≡ fed piece.now self.old }
    {
        self.buffered += self.frames.feed(piece);
    }

    /// Gives the packet of the frame in front, if a whole frame is there, and counts it.
    pub(crate) fn give_first<D: Deliver>(&mut self, counts: &mut Counts, taker: &mut D) -> FrameCut
        ensures { StepGives D.delivers taker.old counts.old self.old result taker.new counts.new self.new }
    {
        let cut = self.frames.next();
        if let FrameCut::Frame { flow, .. } = cut {
            let payload = self.frames.payload();
            let size = HEADER2 + payload.len();
            let is_known = taker.deliver(flow, payload);
            self.buffered -= size;
            counts.count(size, is_known);
            self.offset = self.offset.saturating_add(size as u64);
        }
        cut
    }

    /// Gives the packets of all whole frames that are in front. Returns the first field that no frame has, if the bytes
    /// after them are not the beginning of a frame.
    pub(crate) fn give_all<D: Deliver>(
        &mut self,
        counts: &mut Counts,
        taker: &mut D,
    ) -> Option<Field>
        ensures given { CutsOff D.delivers taker.old counts.old self.old taker.new counts.new self.new }
        ensures more { result ≡ None → IsBeginning Two self.new.bytes }
        ensures bad { IfSome result (λ place. IsFirstBad Two place self.new.bytes) }
    {
        'frames: loop {
            match self.give_first(counts, taker) {
                FrameCut::Frame { .. } => (),
                FrameCut::More => return None,
                FrameCut::Bad(field) => return Some(field),
            }
        }
    }
}
