//! For tests: a telling writer that gives the answers of a list.
ghost use Rattle.std.specs.Prelude.{◌≡◌, [], drop, IfOk};
ghost use Rattle.share_model.specs.io.Scripted.{next_answer};
ghost use Rattle.share_model.specs.io.Told.{Fits};

use crate::tape::Tape;
use crate::writer::{Answer, TellingWriter};
use std::alloc::{AllocError, Global};
use std::marker::Model;

/// A writer over memory that gives the answers of a list in turn, one a call, and then accepts all. A count is cut to
/// the length of the piece. A call that finds no memory fails.
#[derive(Drop)]
pub struct Scripted {
    script: Vec<Answer>,
    next: usize,
    tape: Tape,
}

impl Model for Scripted {
    ghost use Rattle.std.specs.Prelude.{drop};
    ghost use Rattle.share_model.specs.io.Scripted.{ScriptedState};

    ghost Value = { ScriptedState };

    ghost view = { λ s. record { answers = drop s.next s.script.items; told = s.tape } };
}

impl Scripted {
    /// A writer with this script, and an empty tape.
    pub fn new(alloc: Global, script: Vec<Answer>) -> Scripted
        ensures { result
            ≡ record { answers = script.items; told = record { bytes = []; counts = [] } } }
    {
        Scripted {
            script,
            next: 0,
            tape: Tape::new(alloc),
        }
    }

    /// The bytes that it holds.
    pub fn bytes(&self) -> &[u8]
        ensures { result.now ≡ self.now.told.bytes }
    {
        self.tape.bytes()
    }

    /// The count of each call that it accepted. An error if memory is refused.
    pub fn counts(&self, alloc: Global) -> Result<Vec<usize>, AllocError>
        ensures { IfOk result (λ counts. counts.items ≡ self.now.told.counts) }
    {
        self.tape.counts(alloc)
    }
}

// The script's answer to a piece, at this place of the script.
fn next_answer(script: &[Answer], at: usize, piece: &[u8]) -> Answer
    ensures value { result ≡ next_answer (drop at script.now) piece.now }
    ensures fits { Fits piece.now result }
{
    match script.get(at) {
        None => Answer::Accepted(piece.len()),
        Some(Answer::Accepted(count)) => Answer::Accepted((*count).min(piece.len())),
        Some(Answer::Interrupted) => Answer::Interrupted,
        Some(Answer::Failed) => Answer::Failed,
    }
}

/// The place of the answer after this one.
pub(crate) fn place_after<T>(script: &[T], at: usize) -> usize
    ensures { drop result script.now ≡ drop 1 (drop at script.now) }
{
    if at < script.len() { at + 1 } else { at }
}

impl TellingWriter for Scripted {
    ghost use Rattle.std.specs.Prelude.{Some};
    ghost use Rattle.share_model.specs.io.Scripted.{ScriptedAnswers};
    ghost use Rattle.share_model.specs.io.ToldLaws.{scripted_tells};

    ghost told = { λ s. Some s.told };

    ghost answers = { ScriptedAnswers };

    ghost tells = { scripted_tells };

    fn offer(&mut self, piece: &[u8]) -> Answer {
        let answer = next_answer(self.script.as_slice(), self.next, piece);
        self.next = place_after(self.script.as_slice(), self.next);
        match answer {
            Answer::Accepted(count) => self.tape.offer(&piece[..count]),
            Answer::Interrupted => Answer::Interrupted,
            Answer::Failed => Answer::Failed,
        }
    }
}
