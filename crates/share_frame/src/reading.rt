//! The beginning of bytes: a frame, a part of a frame, or a field that no frame has.
ghost use Rattle.std.specs.Prelude.{◌≡◌, ◌<◌, ◌≤◌, ◌+◌, ◌↔◌, ℕ, IsTrue, MatchOption, length, slice_index};
ghost use Rattle.share_base.specs.Version.{header_length};
ghost use Rattle.share_base.specs.declared.version.Version.TheVariants.{One, Two};
ghost use Rattle.share_model.specs.link.Frame.{version_byte};
ghost use Rattle.share_model.specs.run.History.{IsBeginning};
ghost use Rattle.share_frame.specs.Reading.{BeginsWithFrame, IsFirstBad, IsReadAs, start_of};
ghost use Rattle.share_frame.specs.Fields.{number_in, seq_in, length_in, tariff_in, IsGood};
ghost use Rattle.share_frame.specs.declared.reading.Field.{Field};

use crate::writing::{MAGIC, VERSION, VERSION2};
use share_base::{FlowNo, Version};

/// A field of a frame's header.
#[derive(Clone, Copy, Debug, PartialEq, Eq)]
pub enum Field {
    /// The byte that names the format.
    Magic,
    /// The byte that names the version of the format.
    Version,
    /// The number of the flow's tariff, one byte. Version 1 has none.
    Tariff,
    /// The flow number, four bytes.
    Flow,
    /// The sequence number, four bytes in version 1 and eight in version 2.
    Seq,
    /// The length of the payload, two bytes.
    Len,
}

/// The greatest number of a tariff.
const MAX_TARIFF: u8 = 8;

/// The fields in order.
const FIELDS: [Field; 6] = [
    Field::Magic,
    Field::Version,
    Field::Tariff,
    Field::Flow,
    Field::Seq,
    Field::Len,
];

impl Field {
    /// The number of bytes before the field in a frame of this version. It is 0, 1, 2, 3, 7 or 15 in version 2. It is
    /// 0, 1, 2, 6 or 10 in version 1. In version 1 it is 2 for the tariff, which has no bytes there.
    pub fn start(self, version: Version) -> usize
        ensures { result ≡ start_of version self }
    {
        match (self, version) {
            (Field::Magic, _) => 0,
            (Field::Version, _) => 1,
            (Field::Tariff, _) | (Field::Flow, Version::One) => 2,
            (Field::Flow, Version::Two) => 3,
            (Field::Seq, Version::One) => 6,
            (Field::Seq, Version::Two) => 7,
            (Field::Len, Version::One) => 10,
            (Field::Len, Version::Two) => 15,
        }
    }
}

/// The beginning of bytes, read as frames of version 1.
#[derive(Clone, Copy, Debug, PartialEq, Eq)]
pub enum FrameRead {
    /// A frame, with the numbers of its packet and the length of its payload in bytes.
    Frame { flow: FlowNo, seq: u32, len: u16 },
    /// The beginning of a frame, and not the whole. No bytes at all are such a beginning.
    More,
    /// The first field that no frame has.
    Bad(Field),
}

/// The beginning of bytes, read as frames of version 2.
#[derive(Clone, Copy, Debug, PartialEq, Eq)]
pub enum FrameRead2 {
    /// A frame, with the numbers of its packet and of its flow's tariff, and the length of its payload in bytes.
    Frame {
        flow: FlowNo,
        seq: u64,
        tariff: u8,
        len: u16,
    },
    /// The beginning of a frame, and not the whole. No bytes at all are such a beginning.
    More,
    /// The first field that no frame has.
    Bad(Field),
}

/// Says what the bytes begin with, as frames of version 1. It takes no memory.
pub fn read_frame(bytes: &[u8]) -> FrameRead
    // No tariff is in such a frame, so this holds of each.
    ensures frame { (flow seq tariff len : ℕ) → (result ≡ FrameRead.Frame flow seq len)
        ↔ BeginsWithFrame One flow seq tariff len bytes.now }
    ensures more { (result ≡ FrameRead.More) ↔ IsBeginning One bytes.now }
    ensures bad { (place : Field) → (result ≡ FrameRead.Bad place) ↔ IsFirstBad One place bytes.now }
{
    match read(Version::One, bytes) {
        FrameRead2::Frame { flow, seq, len, .. } => FrameRead::Frame {
            flow,
            seq: seq as u32,
            len,
        },
        FrameRead2::More => FrameRead::More,
        FrameRead2::Bad(place) => FrameRead::Bad(place),
    }
}

/// Says what the bytes begin with, as frames of version 2. It takes no memory.
pub fn read_frame2(bytes: &[u8]) -> FrameRead2
    ensures frame { (flow seq tariff len : ℕ) → (result ≡ FrameRead2.Frame flow seq tariff len)
        ↔ BeginsWithFrame Two flow seq tariff len bytes.now }
    ensures more { (result ≡ FrameRead2.More) ↔ IsBeginning Two bytes.now }
    ensures bad { (place : Field) → (result ≡ FrameRead2.Bad place) ↔ IsFirstBad Two place bytes.now }
{
    read(Version::Two, bytes)
}

// The beginning of the bytes. In version 1 the tariff is 0.
fn read(version: Version, bytes: &[u8]) -> FrameRead2
    ensures { IsReadAs version bytes.now result }
{
    if let Some(place) = first_bad(version, bytes) {
        return FrameRead2::Bad(place);
    }
    let header = version.header();
    if bytes.len() < header {
        return FrameRead2::More;
    }
    let len = length_of(version, bytes);
    if bytes.len() - header < usize::from(len) {
        return FrameRead2::More;
    }
    FrameRead2::Frame {
        flow: FlowNo(number_at(bytes, Field::Flow.start(version))),
        seq: seq_of(version, bytes),
        tariff: tariff_of(version, bytes),
        len,
    }
}

// The first field of the header that no frame has, as far as the bytes go.
fn first_bad(version: Version, bytes: &[u8]) -> Option<Field>
    ensures { MatchOption result ((place : Field) → IsGood version place bytes.now)
        (λ place. IsFirstBad version place bytes.now) }
{
    for place in FIELDS {
        if !is_good(version, place, bytes) {
            return Some(place);
        }
    }
    None
}

// Whether a field, as far as its bytes are there, can be that of a frame.
fn is_good(version: Version, place: Field, bytes: &[u8]) -> bool
    ensures { IsTrue result ↔ IsGood version place bytes.now }
{
    match place {
        Field::Magic => is_good_byte(bytes, 0, MAGIC),
        Field::Version => is_good_byte(bytes, 1, version_byte(version)),
        Field::Tariff => is_good_tariff(version, bytes),
        Field::Flow => is_good_flow(version, bytes),
        Field::Seq => is_good_seq(version, bytes),
        Field::Len => is_good_length(version, bytes),
    }
}

// Whether the byte at a place is this one, or not there yet.
fn is_good_byte(bytes: &[u8], at: usize, byte: u8) -> bool
    ensures { IsTrue result ↔ (at < length bytes.now → slice_index bytes.now at ≡ byte) }
{
    bytes.len() <= at || bytes[at] == byte
}

// The second byte of a frame.
fn version_byte(version: Version) -> u8
    ensures { result ≡ version_byte version }
{
    match version {
        Version::One => VERSION,
        Version::Two => VERSION2,
    }
}

// Whether the number of the tariff is 1 to 8, or not there yet.
fn is_good_tariff(version: Version, bytes: &[u8]) -> bool
    ensures { IsTrue result ↔ IsGood version Field.Tariff bytes.now }
{
    let at = Field::Tariff.start(version);
    match version {
        Version::One => true,
        Version::Two => bytes.len() <= at || (1 <= bytes[at] && bytes[at] <= MAX_TARIFF),
    }
}

// Whether the flow number is at least 1, or not all there yet.
fn is_good_flow(version: Version, bytes: &[u8]) -> bool
    ensures { IsTrue result ↔ IsGood version Field.Flow bytes.now }
{
    let at = Field::Flow.start(version);
    bytes.len() < at + 4 || number_at(bytes, at) != 0
}

// Whether the sequence number is at least 1, or not all there yet.
fn is_good_seq(version: Version, bytes: &[u8]) -> bool
    ensures { IsTrue result ↔ IsGood version Field.Seq bytes.now }
{
    bytes.len() < Field::Len.start(version) || seq_of(version, bytes) != 0
}

// Whether the length of the payload, as far as its bytes are there, can be 1 to the greatest of the version.
fn is_good_length(version: Version, bytes: &[u8]) -> bool
    ensures { IsTrue result ↔ IsGood version Field.Len bytes.now }
{
    let at = Field::Len.start(version);
    if bytes.len() < version.header() {
        return bytes.len() <= at || usize::from(bytes[at]) <= version.payload() / 256;
    }
    let len = length_of(version, bytes);
    1 <= len && usize::from(len) <= version.payload()
}

// The number in the four bytes at a place.
fn number_at(bytes: &[u8], at: usize) -> u32
    requires { at + 4 ≤ length bytes.now }
    ensures { result ≡ number_in bytes.now at }
{
    u32::from_be_bytes([bytes[at], bytes[at + 1], bytes[at + 2], bytes[at + 3]])
}

// The sequence number of a header.
fn seq_of(version: Version, bytes: &[u8]) -> u64
    requires { start_of version Field.Len ≤ length bytes.now }
    ensures { result ≡ seq_in version bytes.now }
{
    let at = Field::Seq.start(version);
    match version {
        Version::One => u64::from(number_at(bytes, at)),
        Version::Two => u64::from_be_bytes([
            bytes[at],
            bytes[at + 1],
            bytes[at + 2],
            bytes[at + 3],
            bytes[at + 4],
            bytes[at + 5],
            bytes[at + 6],
            bytes[at + 7],
        ]),
    }
}

// The number of the tariff in a header. Version 1 has none.
fn tariff_of(version: Version, bytes: &[u8]) -> u8
    requires { header_length version ≤ length bytes.now }
    ensures { result ≡ tariff_in version bytes.now }
{
    match version {
        Version::One => 0,
        Version::Two => bytes[Field::Tariff.start(version)],
    }
}

// The length of the payload, in the last two bytes of a header.
fn length_of(version: Version, bytes: &[u8]) -> u16
    requires { header_length version ≤ length bytes.now }
    ensures { result ≡ length_in version bytes.now }
{
    let at = Field::Len.start(version);
    u16::from_be_bytes([bytes[at], bytes[at + 1]])
}
