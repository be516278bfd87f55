//! The lines of a book, read from their bytes.
ghost use Rattle.std.specs.Prelude.{◌≡◌, None, Some, IfOk, MatchOption};
ghost use Rattle.share_bill.specs.BookLines.{book_reading, after_send, packet_of, ReadsOrLacks, IsUnstampedLine};

use super::Kind;
use share_base::{Body, MAX_PAYLOAD, Name, Refusal, Version};
use share_model::Line;
use share_script::{read_length, read_line};
use std::alloc::Global;

/// The line that these bytes, without a line feed, spell in a book of a kind. A packet of which the length alone is
/// spelled has a payload of that many zeros. `Syntax` if they spell none, `Range` if a number or a length is out of
/// range, `NoMemory` if memory for a payload was refused.
pub(super) fn read(alloc: Global, kind: Kind, bytes: &[u8]) -> Result<Line, Refusal>
    ensures reads { ReadsOrLacks (book_reading kind bytes.now) result }
    ensures unstamped { IfOk result IsUnstampedLine }
{
    match kind {
        Kind::Whole => read_line(alloc, Version::Two, bytes),
        Kind::Lengths => read_measured(alloc, bytes),
    }
}

// The line of a text of lengths.
fn read_measured(alloc: Global, bytes: &[u8]) -> Result<Line, Refusal>
    ensures reads { ReadsOrLacks (book_reading Kind.Lengths bytes.now) result }
    ensures unstamped { IfOk result IsUnstampedLine }
{
    let Some(rest) = after_send(bytes) else {
        return read_line(alloc, Version::Two, bytes);
    };
    match read_length(rest) {
        None => Err(Refusal::Syntax),
        Some(length) => packet(alloc, length.flow, length.count),
    }
}

// The bytes after the keyword of a packet and a space.
fn after_send(line: &[u8]) -> Option<&[u8]>
    ensures { MatchOption result (after_send line.now ≡ None) (λ rest. after_send line.now ≡ Some rest.now) }
{
    if line.len() >= 5 && &line[..5] == b"send ".as_slice() {
        Some(&line[5..])
    } else {
        None
    }
}

// A packet of this many zeros. It takes no memory.
fn packet(alloc: Global, flow: Name, count: u64) -> Result<Line, Refusal>
    ensures reads { result ≡ packet_of flow count }
    ensures unstamped { IfOk result IsUnstampedLine }
{
    if count < 1 || count > MAX_PAYLOAD as u64 {
        return Err(Refusal::Range);
    }
    Ok(Line::Send {
        flow,
        body: Body::zeros(alloc, count as usize),
    })
}
