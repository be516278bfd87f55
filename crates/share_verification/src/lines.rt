//! The lines of a text.
ghost use Rattle.std.specs.Prelude.{IsTrue, MatchOption};
ghost use Rattle.share_verification.specs.Lines.{HasNoLine, BeginsWithLine};

use memchr::memchr;

/// The first line of a text, without its line feed, and what follows it. `None` if the text has no line feed.
pub(crate) fn split_line(text: &[u8]) -> Option<(&[u8], &[u8])>
    ensures { MatchOption result (HasNoLine text.now) (λ p. BeginsWithLine text.now p.0.now p.1.now) }
{
    let at = memchr(b'\n', text)?;
    Some((&text[..at], &text[at + 1..]))
}

/// Whether a text has a line feed.
pub(crate) fn has_line(text: &[u8]) -> bool
    ensures line { IsTrue result → ¬ (HasNoLine text.now) }
    ensures no_line { ¬ IsTrue result → HasNoLine text.now }
{
    text.contains(&b'\n')
}
