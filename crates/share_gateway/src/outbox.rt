//! Frames on their way to the wire.
ghost use Rattle.std.specs.Prelude.{◌≡◌, ◌≤◌, ◌<◌, ◌+◌, ◌-◌, ◌++◌, [], ◌∷◌, List, ℕ};
ghost use Rattle.std.specs.Prelude.{true, false, if◌then◌else◌, length, IfOk, IfErr, None};
ghost use Rattle.std.specs.List.{concat};
ghost use Rattle.share_base.specs.Refusal.{IsRefused};
ghost use Rattle.share_gateway.specs.Outbox.{OutboxView, empty_outbox, room_of, takes, with_frame, allow_more};
ghost use Rattle.share_gateway.specs.Outbox.{ready_of, without_whole, send_more, begun_again, frame_bytes};
ghost use Rattle.share_gateway.specs.Outbox.{goes_whole, ready_frame};
ghost use Rattle.share_gateway.specs.OutboxHistory.{History, AreParts};

use crate::byte_queue::ByteQueue;
use share_base::Refusal;
use share_model::{Answer, TellingWriter};
use std::alloc::Global;
use std::collections::VecDeque;
use std::marker::Model;

/// The most bytes of frames that an outbox holds.
pub const OUTBOX: usize = 65536;

/// The most frames that an outbox holds. That many of version 2 have more bytes than it holds.
const MAX_FRAMES: usize = 4096;

/// The frames that were scheduled and that the wire has not taken yet, in order. A frame stays until its last byte is
/// out, so it can begin again. It is a writer that takes a whole frame or none. Its memory is made once.
pub struct Outbox {
    bytes: ByteQueue,
    // The length of each frame in bytes.
    lengths: VecDeque<u32>,
    // The number of bytes of the first frame that are out.
    out: usize,
    // The number of bytes, from the beginning of the first frame on, that may be out.
    allowed: usize,
}

impl Drop for Outbox {
    fn drop(self) {
        let Outbox {
            bytes,
            lengths,
            out: _,
            allowed: _,
        } = self;
        drop(bytes);
        drop(lengths);
    }
}

impl Model for Outbox {
    ghost use Rattle.std.specs.Prelude.{◌≡◌, ◌≤◌, length};
    ghost use Rattle.std.specs.List.{sum};
    ghost use Rattle.std.specs.VecDeque.{deque_capacity};
    ghost use Rattle.share_gateway.specs.Outbox.{OutboxView, frames_in};

    ghost Value = { OutboxView };

    ghost view = { λ o.
        record { frames = frames_in o.lengths.items o.bytes.bytes; out = o.out; allowed = o.allowed } };

    ghost invariant = { λ o.
        (o.bytes.most ≡ 65536)
        × (length o.bytes.bytes ≤ 65536)
        × (sum o.lengths.items ≡ length o.bytes.bytes)
        × (length o.lengths.items ≤ 4096)
        × (4096 ≤ deque_capacity o.lengths)
        × (o.out ≤ o.allowed)
        × (o.allowed ≤ length o.bytes.bytes) };
}

impl Outbox {
    /// An empty outbox, with its memory. `NoMemory` if that is refused.
    pub fn new(alloc: Global) -> Result<Outbox, Refusal>
        ensures ok { IfOk result (λ o. o ≡ empty_outbox) }
        ensures refused { IfErr result (IsRefused None) }
    {
        // With room for twice as many bytes, each is moved once at most on its way.
        let bytes = ByteQueue::new(alloc, OUTBOX, 2 * OUTBOX)?;
        let lengths = VecDeque::with_capacity(alloc, MAX_FRAMES)?;
        Ok(Outbox {
            bytes,
            lengths,
            out: 0,
            allowed: 0,
        })
    }

    /// The greatest length of a frame that has room, in bytes.
    pub fn room(&self) -> usize
        ensures { result ≡ room_of self.now }
    {
        if self.lengths.len() < MAX_FRAMES {
            self.bytes.room()
        } else {
            0
        }
    }

    /// The number of bytes of its frames that are not out.
    pub fn waiting(&self) -> usize
        ensures { result ≡ length (frame_bytes self.now) - self.now.out }
    {
        self.bytes.len() - self.out
    }

    /// Allows that many bytes more to be out, as far as there are frames.
    pub fn allow(&mut self, count: usize)
        ensures { self.new ≡ allow_more count self.old }
    {
        let left = self.bytes.len() - self.allowed;
        self.allowed += count.min(left);
    }

    /// The bytes that may go next: of those that are not out, as many as are allowed.
    pub fn ready(&self) -> &[u8]
        ensures { result.now ≡ ready_of self.now }
    {
        &self.bytes.as_slice()[self.out..self.allowed]
    }

    /// The first frame, if no byte of it is out and all of them are allowed, and otherwise no bytes.
    pub fn frame(&self) -> &[u8]
        ensures { result.now ≡ ready_frame self.now }
    {
        let length = match self.lengths.front() {
            None => 0,
            Some(length) => whole_length(*length as usize, self.out, self.allowed),
        };
        &self.bytes.as_slice()[..length]
    }

    /// Marks that many bytes more as out, the first of those that are ready. A frame that is out whole is gone.
    pub fn sent(&mut self, count: usize)
        requires { count ≤ length (ready_of self.old) }
        ensures { self.new ≡ send_more count self.old }
    {
        self.out += count;
        while self.drop_whole() {}
    }

    /// Lets the rest begin at the beginning of the frame that was cut. Allowed bytes stay allowed.
    pub fn again(&mut self)
        ensures { self.new ≡ begun_again self.old }
    {
        self.out = 0;
    }

    // Drops the first frame if it is out whole. Returns false if it is not, or there is none.
    fn drop_whole(&mut self) -> bool
        ensures same { without_whole self.new ≡ without_whole self.old }
        ensures fewer { result ≡ true → length self.new.frames < length self.old.frames }
        ensures last { result ≡ false → without_whole self.new ≡ self.new }
    {
        let length = match self.lengths.front() {
            None => return false,
            Some(length) => *length as usize,
        };
        if self.out < length {
            return false;
        }
        self.lengths.pop_front();
        self.bytes.give(0, length);
        self.out -= length;
        self.allowed -= length;
        true
    }
}

// The length of a frame, if no byte of it is out and all of them are allowed, and otherwise 0.
fn whole_length(length: usize, out: usize, allowed: usize) -> usize
    ensures { result ≡ (if goes_whole length out allowed then length else 0) }
{
    if out == 0 && length <= allowed {
        length
    } else {
        0
    }
}

/// It accepts a whole frame that has room. Otherwise it answers `Interrupted`, and stays as it is. No offer fails.
impl TellingWriter for Outbox {
    ghost use Rattle.std.specs.Prelude.{Some};
    ghost use Rattle.share_gateway.specs.Outbox.{OutboxAnswers, outbox_told};
    ghost use Rattle.share_gateway.specs.OutboxTold.{outbox_tells};

    ghost told = { λ o. Some (outbox_told o) };

    ghost answers = { OutboxAnswers };

    ghost tells = { outbox_tells };

    fn offer(&mut self, piece: &[u8]) -> Answer {
        if MAX_FRAMES <= self.lengths.len() || self.bytes.room() < piece.len() {
            return Answer::Interrupted;
        }
        self.bytes.push(piece);
        self.lengths.push_back_reserved(piece.len() as u32);
        Answer::Accepted(piece.len())
    }
}

/// Laws of the whole life of each outbox. The bytes between one `again` and the next are frames that went in, whole and
/// in order. Then comes a proper beginning of the frame after them. It goes on with that frame, from its beginning, and
/// none is left out. No byte is given out beyond those that were allowed.
pub fn outboxes_give_frames_in_order()
    ensures parts { (frames : List (List ℕ)) (allowed : ℕ) (before : List (List ℕ)) (given : List ℕ) (o : OutboxView)
        → History frames allowed before given o → AreParts frames (before ++ given ∷ []) o.frames }
    ensures allowed { (frames : List (List ℕ)) (allowed : ℕ) (before : List (List ℕ)) (given : List ℕ)
        (o : OutboxView) → History frames allowed before given o
        → (length (concat frames) + o.allowed ≤ allowed + length (frame_bytes o)) × (o.out ≤ o.allowed) }
{}
