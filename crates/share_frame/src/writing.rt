//! The headers of frames.
ghost use Rattle.std.specs.Prelude.{◌≡◌, ℕ, List, ◌++◌, length};
ghost use Rattle.share_base.specs.declared.version.Version.TheVariants.{One, Two};
ghost use Rattle.share_model.specs.link.Frame.{header, frame};

use share_base::{FlowNo, HEADER_ROOM};

/// The length of a header of version 1 in bytes.
pub const HEADER: usize = 12;

/// The length of a header of version 2 in bytes. None is longer.
pub const HEADER2: usize = HEADER_ROOM;

/// The first byte of a frame.
pub(crate) const MAGIC: u8 = 0x4c;

/// The second byte of a frame of version 1, and of version 2.
pub(crate) const VERSION: u8 = 1;

pub(crate) const VERSION2: u8 = 2;

/// The first 12 bytes of a frame of version 1. Two name the format and its version. Then come the flow number, the
/// sequence number, and `len`, the length of the payload. Numbers are big-endian. It takes no memory.
pub fn header(flow: FlowNo, seq: u32, len: u16) -> [u8; HEADER]
    // No tariff is in it, so this holds of each.
    ensures bytes { (tariff : ℕ) → result ≡ header One tariff flow seq len }

    // With a payload of this length after it, it is the frame.
    ensures frame { (tariff : ℕ) (payload : List ℕ) → length payload ≡ len
        → result ++ payload ≡ frame One tariff (record { flow = flow; seq = seq; payload = payload }) }
{
    let [a, b, c, d] = flow.number().to_be_bytes();
    let [e, f, g, h] = seq.to_be_bytes();
    let [i, j] = len.to_be_bytes();
    [MAGIC, VERSION, a, b, c, d, e, f, g, h, i, j]
}

/// The first 17 bytes of a frame of version 2. They are as in version 1, but the number of the flow's tariff is before
/// the flow number, and the sequence number has eight bytes. It takes no memory.
pub fn header2(flow: FlowNo, seq: u64, tariff: u8, len: u16) -> [u8; HEADER2]
    ensures bytes { result ≡ header Two tariff flow seq len }

    // With a payload of this length after it, it is the frame.
    ensures frame { (payload : List ℕ) → length payload ≡ len
        → result ++ payload ≡ frame Two tariff (record { flow = flow; seq = seq; payload = payload }) }
{
    let [a, b, c, d] = flow.number().to_be_bytes();
    let [e, f, g, h, i, j, k, l] = seq.to_be_bytes();
    let [m, n] = len.to_be_bytes();
    [
        MAGIC, VERSION2, tariff, a, b, c, d, e, f, g, h, i, j, k, l, m, n,
    ]
}
