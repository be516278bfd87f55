//! The versions of frames and of audits.
ghost use Rattle.std.specs.Prelude.{◌≡◌};
ghost use Rattle.share_base.specs.Version.{max_payload, header_length};

/// The version of a link's frames, and of its audit.
#[derive(Clone, Copy, Debug, PartialEq, Eq)]
pub enum Version {
    /// Headers of 12 bytes, with sequence numbers of four bytes, and payloads of up to 1490 bytes.
    One,
    /// Headers of 17 bytes, with the number of the flow's tariff and sequence numbers of eight bytes, and payloads of
    /// up to 9000 bytes.
    Two,
}

impl Version {
    /// The longest payload of a packet, in bytes: 1490 or 9000.
    pub fn payload(self) -> usize
        ensures { result ≡ max_payload self }
    {
        match self {
            Version::One => 1490,
            Version::Two => MAX_PAYLOAD,
        }
    }

    /// The length of the header of a frame in bytes: 12 or 17.
    pub fn header(self) -> usize
        ensures { result ≡ header_length self }
    {
        match self {
            Version::One => 12,
            Version::Two => HEADER_ROOM,
        }
    }
}

/// The longest payload that a frame of any version carries, in bytes.
pub const MAX_PAYLOAD: usize = 9000;

/// The longest header of any version, in bytes: as many are kept before each payload.
pub const HEADER_ROOM: usize = 17;
