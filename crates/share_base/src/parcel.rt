//! The payloads of packets, and the two copies in which a payload is handed in.
ghost use Rattle.std.specs.Prelude.{◌≡◌, ◌<◌, ◌≤◌, ◌+◌, ◌-◌, ◌++◌, length, take, drop, replicate};
ghost use Rattle.std.specs.Prelude.{IsOk, IfOk, IfErr, None};
ghost use Rattle.share_base.specs.Body.{payload_refusal, unstamped, framed_bytes, IsHeaderLength};
ghost use Rattle.share_base.specs.Refusal.{IsRefused};

use crate::refusal::Refusal;
use crate::version::{HEADER_ROOM, MAX_PAYLOAD};
use smallvec::SmallVec;
use std::alloc::Global;
use std::marker::Model;

/// The longest payload that is in the value itself, in bytes.
pub const MAX_IN_PLACE: usize = 16;

/// The number of bytes in the value itself.
const IN_PLACE: usize = HEADER_ROOM + MAX_IN_PLACE;

/// The length of the longest frame in bytes.
const LONGEST_FRAME: usize = HEADER_ROOM + MAX_PAYLOAD;

// The bytes of payloads of zeros.
static ZEROS: [u8; MAX_PAYLOAD] = [0; MAX_PAYLOAD];

/// The payload of a packet: 1 to 9000 bytes, with room for a header before them. Up to 16 are in the value itself, more
/// in memory of their own. The count of zeros alone may be kept. A contract sees the bytes last stamped before the
/// payload, and the payload.
pub struct Body {
    // The room and the payload after it; the room alone if the payload is zeros.
    bytes: SmallVec<u8, IN_PLACE>,
    // The number of zeros in the payload, and 0 if its bytes are there.
    zeros: u16,
    // The number of stamped bytes of the room, those next to the payload.
    stamped: u8,
}

impl Drop for Body {
    fn drop(self) {
        let Body {
            bytes,
            zeros: _,
            stamped: _,
        } = self;
        drop(bytes);
    }
}

impl Model for Body {
    ghost use Rattle.std.specs.Prelude.{ℕ, List, length, take, drop, replicate, ◌≡◌, ◌≤◌, ◌+◌, ◌-◌, ◌++◌, ◌⊎◌};
    ghost use Rattle.share_base.specs.Body.{BodyView};
    ghost use Rattle.share_base.specs.declared.version.TheConstants.{MAX_PAYLOAD, HEADER_ROOM};

    ghost Value = { BodyView };

    ghost view = { λ body. record {
      stamped = take body.stamped (drop (HEADER_ROOM - body.stamped) body.bytes.items);
      payload = replicate body.zeros 0 ++ drop HEADER_ROOM body.bytes.items;
    } };

    ghost invariant = { λ body.
        (body.stamped ≤ HEADER_ROOM)
        × (HEADER_ROOM + 1 ≤ body.zeros + length body.bytes.items)
        × (body.zeros + length body.bytes.items ≤ HEADER_ROOM + MAX_PAYLOAD)
        × ((body.zeros ≡ 0) ⊎ (length body.bytes.items ≡ HEADER_ROOM)) };
}

impl Body {
    /// Copies these bytes. `Range` if there are not 1 to 9000 of them, `NoMemory` if memory was refused; up to 16 bytes
    /// take none.
    pub fn new(alloc: Global, bytes: &[u8]) -> Result<Body, Refusal>
        ensures ok { IfOk result (λ body. (body ≡ unstamped bytes.now) × (payload_refusal bytes.now ≡ None)) }
        ensures refused { IfErr result (IsRefused (payload_refusal bytes.now)) }
        ensures in_place { payload_refusal bytes.now ≡ None → length bytes.now ≤ 16 → IsOk result }
    {
        if bytes.is_empty() || bytes.len() > MAX_PAYLOAD {
            return Err(Refusal::Range);
        }
        let mut whole = SmallVec::with_capacity(alloc, HEADER_ROOM + bytes.len())?;
        whole.extend_from_slice(&[0; HEADER_ROOM])?;
        whole.extend_from_slice(bytes)?;
        Ok(Body {
            bytes: whole,
            zeros: 0,
            stamped: 0,
        })
    }

    /// Makes a payload, 1 to 9000 bytes, of the bytes after the room for a header. It takes no memory.
    pub fn from_vec(bytes: Vec<u8>) -> Body
        requires some { HEADER_ROOM + 1 ≤ length bytes.items }
        requires few { length bytes.items ≤ HEADER_ROOM + MAX_PAYLOAD }
        ensures { result ≡ unstamped (drop HEADER_ROOM bytes.items) }
    {
        Body {
            bytes: SmallVec::from_vec(bytes),
            zeros: 0,
            stamped: 0,
        }
    }

    /// Makes a payload of the first bytes, 1 to 16 of them, after the room for a header. It takes no memory.
    pub fn from_array(alloc: Global, bytes: [u8; HEADER_ROOM + MAX_IN_PLACE], count: usize) -> Body
        requires some { 1 ≤ count }
        requires few { count ≤ MAX_IN_PLACE }
        ensures { result ≡ unstamped (take count (drop HEADER_ROOM bytes)) }
    {
        Body {
            bytes: SmallVec::from_buf_and_len(alloc, bytes, HEADER_ROOM + count),
            zeros: 0,
            stamped: 0,
        }
    }

    /// Makes a payload of this many zeros, 1 to 9000. It takes no memory, and keeps their count alone.
    pub fn zeros(alloc: Global, count: usize) -> Body
        requires some { 1 ≤ count }
        requires few { count ≤ MAX_PAYLOAD }
        ensures { result ≡ unstamped (replicate count 0) }
    {
        Body {
            bytes: SmallVec::from_buf_and_len(alloc, [0; IN_PLACE], HEADER_ROOM),
            zeros: count as u16,
            stamped: 0,
        }
    }

    /// The payload.
    pub fn as_slice(&self) -> &[u8]
        ensures value { result.now ≡ self.now.payload }
        ensures some { 1 ≤ length self.now.payload }
        ensures few { length self.now.payload ≤ MAX_PAYLOAD }
    {
        if self.zeros > 0 {
            &ZEROS[..self.zeros as usize]
        } else {
            &self.bytes.as_slice()[HEADER_ROOM..]
        }
    }

    /// Writes a header, 12 or 17 bytes, before the payload, in place of the one before. It takes no memory.
    pub fn stamp(&mut self, header: &[u8])
        requires { IsHeaderLength (length header.now) }
        ensures { self.new ≡ record { stamped = header.now; payload = self.old.payload } }
    {
        write_header(self.bytes.as_mut_slice(), header);
        self.stamped = header.len() as u8;
    }

    /// The bytes last stamped, none before a stamp, and the payload after them. They are the body's own, or, if the
    /// payload is zeros, are shown in the frame.
    pub fn framed_in<'a>(&'a self, frame: &'a mut ZeroFrame) -> &'a [u8]
        ensures { result.now ≡ framed_bytes self.now }
    {
        let front = &self.bytes.as_slice()[HEADER_ROOM - self.stamped as usize..];
        if self.zeros > 0 {
            frame.show(front, self.zeros as usize)
        } else {
            front
        }
    }
}

// Writes a header into the room, so that it ends where the payload begins.
fn write_header(bytes: &mut [u8], header: &[u8])
    requires few { length header.now ≤ HEADER_ROOM }
    requires room { HEADER_ROOM ≤ length bytes.old }
    ensures { bytes.new
        ≡ take (HEADER_ROOM - length header.now) bytes.old ++ (header.now ++ drop HEADER_ROOM bytes.old) }
{
    bytes[HEADER_ROOM - header.len()..HEADER_ROOM].copy_from_slice(header);
}

/// Shows a frame whose payload is zeros. A body keeps their count alone. A `ZeroFrame` takes no memory of its own, and
/// a contract sees nothing of it.
pub struct ZeroFrame {
    // Room for a header, and as many zeros as the longest payload has.
    bytes: [u8; LONGEST_FRAME],
}

impl Drop for ZeroFrame {
    fn drop(self) {
        let ZeroFrame { bytes: _ } = self;
    }
}

impl Model for ZeroFrame {
    ghost use Rattle.std.specs.Prelude.{drop, replicate, ◌≡◌};
    ghost use Rattle.share_base.specs.declared.version.TheConstants.{MAX_PAYLOAD, HEADER_ROOM};

    ghost Value = { Unit };

    ghost view = { λ frame. tt };

    ghost invariant = { λ frame. drop HEADER_ROOM frame.bytes ≡ replicate MAX_PAYLOAD 0 };
}

impl ZeroFrame {
    /// A frame of zeros.
    pub fn new() -> ZeroFrame {
        ZeroFrame {
            bytes: [0; LONGEST_FRAME],
        }
    }

    // A header, of no more bytes than there is room for, and this many zeros behind it.
    fn show(&mut self, header: &[u8], count: usize) -> &[u8]
        requires few { length header.now ≤ HEADER_ROOM }
        requires zeros { count ≤ MAX_PAYLOAD }
        ensures { result.now ≡ header.now ++ replicate count 0 }
    {
        write_header(&mut self.bytes, header);
        let bytes = &self.bytes;
        &bytes[HEADER_ROOM - header.len()..HEADER_ROOM + count]
    }
}

/// A payload with a copy, so that it can be sent and recorded with no further memory. A contract sees it as its bytes.
pub struct Parcel {
    sending: Body,
    audit: Body,
}

impl Drop for Parcel {
    fn drop(self) {
        let Parcel { sending, audit } = self;
        drop(sending);
        drop(audit);
    }
}

impl Model for Parcel {
    ghost use Rattle.std.specs.Prelude.{ℕ, List, ◌≡◌};
    ghost use Rattle.share_base.specs.Body.{unstamped};

    ghost Value = { List ℕ };

    ghost view = { λ parcel. parcel.sending.payload };

    ghost invariant = { λ parcel.
        (parcel.sending ≡ unstamped parcel.sending.payload) × (parcel.audit ≡ parcel.sending) };
}

impl Parcel {
    /// Copies these bytes twice. `Range` if there are not 1 to 9000 of them, `NoMemory` if memory was refused. No more
    /// than 16 bytes take none.
    pub fn new(alloc: Global, bytes: &[u8]) -> Result<Parcel, Refusal>
        ensures ok { IfOk result
            (λ parcel. (parcel ≡ bytes.now) × (payload_refusal bytes.now ≡ None)) }
        ensures refused { IfErr result (IsRefused (payload_refusal bytes.now)) }
        ensures in_place { payload_refusal bytes.now ≡ None → length bytes.now ≤ 16 → IsOk result }
    {
        let sending = Body::new(alloc, bytes)?;
        let audit = Body::new(alloc, bytes)?;
        Ok(Parcel { sending, audit })
    }

    /// The length of the payload in bytes: 1 to 9000.
    pub fn len(&self) -> usize
        ensures count { result ≡ length self.now }
        ensures some { 1 ≤ result }
        ensures few { result ≤ MAX_PAYLOAD }
    {
        self.sending.as_slice().len()
    }

    /// Gives the copy to send and the copy to record. It takes no memory.
    pub fn split(self) -> (Body, Body)
        ensures sending { result.0 ≡ unstamped self }
        ensures audit { result.1 ≡ unstamped self }
    {
        let Parcel { sending, audit } = self;
        (sending, audit)
    }
}
