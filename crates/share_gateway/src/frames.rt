//! The frames of another gateway.
ghost use Rattle.std.specs.Prelude.{◌≡◌, ◌<◌, ◌-◌, ℕ, List, [], ◌++◌, length, min, take, IfOk, IfErr, None};
ghost use Rattle.share_base.specs.Refusal.{IsRefused};
ghost use Rattle.share_base.specs.declared.version.Version.TheVariants.{Two};
ghost use Rattle.share_model.specs.run.History.{IsBeginning};
ghost use Rattle.share_gateway.specs.Frames.{Framed, AreFrames, CutsFrame, IsNoFrame, NoFrame, Reads};

use crate::byte_queue::ByteQueue;
use share_base::{FlowNo, Refusal};
use share_frame::{Field, FrameRead2, HEADER2, read_frame2};
use std::alloc::Global;
use std::marker::Model;

/// The most bytes of a stream that are kept: those of the longest frame, and more.
pub const FRAMES_ROOM: usize = 65536;

/// The front of the bytes of a stream.
#[derive(Clone, Copy, Debug, PartialEq, Eq)]
pub enum FrameCut {
    /// A frame of version 2, with the numbers of its packet and of its flow's tariff.
    Frame { flow: FlowNo, seq: u64, tariff: u8 },
    /// No whole frame.
    More,
    /// The first field that no frame has.
    Bad(Field),
}

/// Cuts frames of version 2 out of a stream that comes in pieces. Its memory is made once. A payload is lent where it
/// was put when its piece came. Only the part of a frame that a piece ends with may be moved once more.
#[derive(Drop)]
pub struct Frames {
    // The bytes that were fed and not given yet.
    bytes: ByteQueue,
}

impl Model for Frames {
    ghost use Rattle.std.specs.Prelude.{◌≡◌, ◌≤◌, length};
    ghost use Rattle.share_gateway.specs.Frames.{FramesView};

    ghost Value = { FramesView };

    ghost view = { λ f. record { bytes = f.bytes.bytes; payload = f.bytes.given } };

    ghost invariant = { λ f. (f.bytes.most ≡ 65536) × (length f.bytes.bytes ≤ 65536) };
}

impl Frames {
    /// The frames of a stream that nothing came of yet. `NoMemory` if memory is refused.
    pub fn new(alloc: Global) -> Result<Frames, Refusal>
        ensures ok { IfOk result (λ f. f ≡ record { bytes = []; payload = [] }) }
        ensures refused { IfErr result (IsRefused None) }
    {
        let bytes = ByteQueue::new(alloc, FRAMES_ROOM, FRAMES_ROOM)?;
        Ok(Frames { bytes })
    }

    /// Takes the next piece of the stream, as far as there is room, and returns the number of its bytes that were
    /// taken.
    pub fn feed(&mut self, piece: &[u8]) -> usize
        ensures count { result ≡ min (length piece.now) (65536 - length self.old.bytes) }
        ensures bytes { self.new ≡ record { bytes = self.old.bytes ++ take result piece.now; payload = [] } }
    {
        let count = piece.len().min(self.bytes.room());
        self.bytes.push(&piece[..count]);
        count
    }

    /// The front of the bytes. A frame is taken away, and its payload is lent by `payload` until the next piece
    /// comes. `Bad` is answered by each later call too. After `More` most of the room is free, so the next piece is
    /// taken at least in part.
    pub fn next(&mut self) -> FrameCut
        ensures cut { CutsFrame self.old result self.new }
        ensures none { IsNoFrame result self.old.bytes }
    {
        match read_frame2(self.bytes.as_slice()) {
            FrameRead2::More => FrameCut::More,
            FrameRead2::Bad(field) => FrameCut::Bad(field),
            FrameRead2::Frame {
                flow,
                seq,
                tariff,
                len,
            } => {
                self.bytes.give(HEADER2, HEADER2 + usize::from(len));
                FrameCut::Frame { flow, seq, tariff }
            }
        }
    }

    /// The payload of the frame that was taken last, or no bytes once more of the stream came.
    pub fn payload(&self) -> &[u8]
        ensures { result.now ≡ self.now.payload }
    {
        self.bytes.given()
    }
}

/// Laws of each stream, however it was cut into pieces. It is the frames of the packets that were given, and then the
/// bytes that were not given yet. Suppose that it is also the frames of other packets, and then bytes with no frame in
/// front. Then the packets that were given are the first of those. So a stream has one reading.
pub fn streams_are_cut_into_frames()
    ensures frames { (stream : List ℕ) (packets : List Framed) (bytes : List ℕ)
        → Reads stream packets bytes → AreFrames stream packets bytes }
    ensures first { (stream : List ℕ) (packets : List Framed) (bytes : List ℕ) (all : List Framed) (rest : List ℕ)
        → Reads stream packets bytes → AreFrames stream all rest → NoFrame rest
        → (more : List Framed) × (all ≡ packets ++ more) }
    // So after `More` there is room for a piece.
    ensures room { (bytes : List ℕ) → IsBeginning Two bytes → length bytes < 9017 }
{}
