//! The words of a packet of which the length alone is spelled.
ghost use Rattle.std.specs.Prelude.{◌≡◌};
ghost use Rattle.share_text.specs.Lengths.{length_of};
ghost use Rattle.share_model.specs.text.Lines.{words_of};

use crate::words::Words;
use share_base::Name;

/// A packet for the flow of a name, of which the length of the payload is known alone.
#[derive(Clone, Copy, Debug)]
pub struct Length {
    pub flow: Name,
    pub count: u64,
}

/// The packet of a line `send NAME LENGTH`, from the bytes after its keyword and one space. They are a name, a space,
/// and the decimal of a number below 2^64. `None` if they spell no such packet.
pub fn read_length(bytes: &[u8]) -> Option<Length>
    ensures { result ≡ length_of (words_of bytes.now) }
{
    let mut words = Words::of(bytes);
    let flow = words.name()?;
    let count = words.last_number()?;
    Some(Length { flow, count })
}
