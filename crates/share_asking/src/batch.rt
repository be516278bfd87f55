//! The number of lines sent before their replies are read.
ghost use Rattle.std.specs.Prelude.{◌≤◌, ◌<◌, ◌+◌, length, sum_by, take};

/// The number of bytes of lines that may wait for their replies. Sockets hold that much, so a peer that waits for its
/// replies to be read before it reads on does not block the sender.
pub const AHEAD: usize = 16384;

/// The number of these lines sent together: as many as have at most `AHEAD` bytes with their line feeds, and at least
/// one.
pub fn batch_len(lines: &[&str]) -> usize
    requires { 0 < length lines.now }
    ensures some { 1 ≤ result }
    ensures within { result ≤ length lines.now }
    ensures fits { 1 < result → sum_by (λ line. length line.now + 1) (take result lines.now) ≤ AHEAD }
    ensures most { result < length lines.now
        → AHEAD < sum_by (λ line. length line.now + 1) (take (result + 1) lines.now) }
{
    let count = fitting(lines);
    if count == 0 { 1 } else { count }
}

// As many of these lines as have at most `AHEAD` bytes with their line feeds.
fn fitting(lines: &[&str]) -> usize
    ensures within { result ≤ length lines.now }
    ensures fits { sum_by (λ line. length line.now + 1) (take result lines.now) ≤ AHEAD }
    ensures most { result < length lines.now
        → AHEAD < sum_by (λ line. length line.now + 1) (take (result + 1) lines.now) }
{
    let mut room = AHEAD;
    for index in 0..lines.len() {
        let len = lines[index].len();
        if len >= room {
            return index;
        }
        room -= len + 1;
    }
    lines.len()
}
