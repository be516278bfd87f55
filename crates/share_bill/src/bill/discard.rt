//! A writer for runs whose frames nobody reads.
ghost use Rattle.std.specs.Prelude.{◌≡◌, ℕ, List, length};

use share_model::{Answer, TellingWriter};

/// A writer that accepts each piece whole and keeps none of it.
#[derive(Clone, Copy, Debug, Drop)]
pub struct Discard;

impl TellingWriter for Discard {
    ghost use Rattle.std.specs.Prelude.{◌≡◌, None, length};
    ghost use Rattle.share_model.specs.declared.writer.Answer.TheVariants.{Accepted};
    ghost use Rattle.share_bill.specs.Discard.{TakesWhole, whole_tells};

    ghost told = { λ _. None };

    ghost answers = { λ _ piece answer _. TakesWhole piece answer };

    ghost tells = { λ _ piece answer _ did. whole_tells piece answer did };

    fn offer(&mut self, piece: &[u8]) -> Answer {
        Answer::Accepted(piece.len())
    }
}
