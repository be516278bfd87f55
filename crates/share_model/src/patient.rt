//! A writer that offers a piece again if the offer was interrupted.

use crate::writer::{Answer, TellingWriter};

/// The most times that a piece is offered again in one call.
const MOST_AGAIN: u64 = 1 << 20;

/// Wraps another writer. A call offers its piece to that writer, and again as long as the offer is interrupted, at most
/// 2^20 more times. The answer is that to the last offer, so it is an interruption only after 2^20 + 1 interrupted
/// offers in a row. The bound ends a call on a writer that is interrupted for ever.
#[derive(Drop)]
pub struct PatientWriter<W>(pub W);

impl<W: TellingWriter> TellingWriter for PatientWriter<W> {
    ghost use Rattle.std.specs.Prelude.{◌^◌};
    ghost use Rattle.share_model.specs.io.Patient.{PatientAnswers};
    ghost use Rattle.share_model.specs.io.PatientLaws.{patient_tells};

    ghost told = { λ writer. W.told writer.0 };

    ghost answers = { λ before piece answer after.
        PatientAnswers W.answers (2 ^ 20) before.0 piece answer after.0 };

    ghost tells = { λ before piece answer after did.
        patient_tells W.told W.answers (2 ^ 20) W.tells before.0 piece answer after.0 did };

    fn offer(&mut self, piece: &[u8]) -> Answer {
        for again in 0..MOST_AGAIN {
            match self.0.offer(piece) {
                Answer::Accepted(count) => return Answer::Accepted(count),
                Answer::Interrupted => (),
                Answer::Failed => return Answer::Failed,
            }
        }
        self.0.offer(piece)
    }
}
