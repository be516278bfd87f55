//! The two kinds of text that a book has.
ghost use Rattle.std.specs.Prelude.{◌≡◌};
ghost use Rattle.share_bill.specs.BookLines.{kind_of};

/// The way in which a book's text spells its packets.
#[derive(Clone, Copy, Debug, PartialEq, Eq)]
pub enum Kind {
    /// With their payloads: the text is an audit of version 2.
    Whole,
    /// With the lengths of their payloads.
    Lengths,
}

/// The kind of the text whose first line this is, without its line feed. `None` if it begins no book.
pub(super) fn kind_of(line: &[u8]) -> Option<Kind>
    ensures { result ≡ kind_of line.now }
{
    if line == b"audit 2".as_slice() {
        Some(Kind::Whole)
    } else if line == b"lengths 2".as_slice() {
        Some(Kind::Lengths)
    } else {
        None
    }
}
