//! Writers that report which bytes they took.
ghost use Rattle.std.specs.Prelude.{◌≡◌, ◌≢◌, ℕ, List, Option, None};
ghost use Rattle.std.specs.IoError.{error_kind};
ghost use Rattle.share_model.specs.io.Told.{Told, WasTold};

use std::io::{Error, ErrorKind, Write};

/// The answer of one write call.
#[derive(Clone, Copy, Debug, PartialEq, Eq)]
pub enum Answer {
    /// This many bytes, from the front of the piece, were taken.
    Accepted(usize),
    /// Nothing was taken, and the call may be made again.
    Interrupted,
    /// Nothing was taken, and the caller shall not ask again.
    Failed,
}

/// A writer that is offered one piece in one call. `told` is what contracts know of its bytes. It is `None` if
/// nothing is known, as for a socket.
pub trait TellingWriter {
    ghost use Rattle.share_model.specs.declared.writer.Answer.{Answer};

    ghost told: { Self → Option Told };

    /// The writer before a call, the piece, the answer, and the writer after.
    ghost answers: { Self → List ℕ → Answer → Self → Type 0 };

    /// Makes one write call with this piece, and answers what came of it.
    fn offer(&mut self, piece: &[u8]) -> Answer
        ensures { answers self.old piece.now result self.new };

    ghost tells: { (before : Self) (piece : List ℕ) (answer : Answer) (after : Self)
        → answers before piece answer after → WasTold (told before) piece answer (told after) };
}

/// Wraps a writer of std. Its `answers` are what std's contract says of the writer's contents. Its `told` is `None`,
/// since std says nothing of the count of each call. It makes one call of `write` with the whole piece. It reports an
/// error of the kind `Interrupted` as an interruption, and any other as a failure.
#[derive(Drop)]
pub struct PlainWriter<W>(pub W);

// The report of a failed write call.
fn answer_to_error(error: &Error) -> Answer
    ensures interrupted { error_kind error.now ≡ ErrorKind.Interrupted → result ≡ Answer.Interrupted }
    ensures failed { error_kind error.now ≢ ErrorKind.Interrupted → result ≡ Answer.Failed }
{
    if error.kind() == ErrorKind::Interrupted {
        Answer::Interrupted
    } else {
        Answer::Failed
    }
}

impl<W: Write> TellingWriter for PlainWriter<W> {
    ghost use Rattle.share_model.specs.io.Told.{PlainAnswers};
    ghost use Rattle.share_model.specs.io.ToldLaws.{plain_tells};

    ghost told = { λ _. None };

    ghost answers = { λ before piece answer after.
        PlainAnswers (W.contents before.0) piece answer (W.contents after.0) };

    ghost tells = { λ before piece answer after did.
        plain_tells (W.contents before.0) piece answer (W.contents after.0) did };

    fn offer(&mut self, piece: &[u8]) -> Answer {
        match self.0.write(piece) {
            Ok(count) => Answer::Accepted(count),
            Err(error) => answer_to_error(&error),
        }
    }
}
