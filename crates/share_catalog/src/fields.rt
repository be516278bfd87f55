//! The pieces of a text between separators, read one after the other.
ghost use Rattle.std.specs.Prelude.{◌≡◌, ◌∷◌, ◌==◌, ◌↔◌, [], None, Some, IsTrue, MatchOption};
ghost use Rattle.std.specs.List.{slice_split};
ghost use Rattle.memchr.specs.Find.{IsFirstByte};

use std::marker::Model;

/// The pieces that are not read yet. A contract sees these pieces.
#[derive(Drop)]
pub(crate) struct Fields<'a, const SEPARATOR: u8> {
    rest: Option<&'a [u8]>,
}

impl<'a, const SEPARATOR: u8> Model for Fields<'a, SEPARATOR> {
    ghost use Rattle.std.specs.Prelude.{ℕ, List};
    ghost use Rattle.std.specs.Option.{option_copied};
    ghost use Rattle.share_catalog.specs.Pieces.{pieces_left};

    ghost Value = { List (List ℕ) };

    ghost view = { λ fields. pieces_left SEPARATOR (option_copied fields.rest) };
}

impl<'a, const SEPARATOR: u8> Fields<'a, SEPARATOR> {
    ghost use Rattle.share_catalog.specs.Pieces.{pieces_of};

    /// The pieces of a text. A text of no bytes has one piece, which is empty.
    pub(crate) fn of(text: &'a [u8]) -> Fields<'a, SEPARATOR>
        ensures { result ≡ pieces_of SEPARATOR text.entry.now }
    {
        Fields { rest: Some(text) }
    }

    /// Reads the next piece.
    pub(crate) fn next(&mut self) -> Option<&'a [u8]>
        ensures { MatchOption result (self.old ≡ []) (λ w. self.old ≡ w.now ∷ self.new) }
    {
        let rest = self.rest?;
        match first_at(rest, SEPARATOR) {
            None => {
                self.rest = None;
                Some(rest)
            }
            Some(at) => {
                self.rest = Some(&rest[at + 1..]);
                Some(&rest[..at])
            }
        }
    }

    /// Whether no piece is left.
    pub(crate) fn is_end(&self) -> bool
        ensures { IsTrue result ↔ (self.now ≡ []) }
    {
        self.rest.is_none()
    }
}

// The place of the first separator.
fn first_at(bytes: &[u8], separator: u8) -> Option<usize>
    ensures { IsFirstByte (λ b. b == separator) bytes.now result }
{
    bytes.iter().position(|byte| *byte == separator)
}
