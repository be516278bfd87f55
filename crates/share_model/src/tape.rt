//! A telling writer over memory.
ghost use Rattle.std.specs.Prelude.{◌≡◌, [], Some, IfOk};
ghost use Rattle.share_model.specs.io.Told.{Told, TapeAnswers};

use crate::counts::CodedCounts;
use crate::writer::{Answer, TellingWriter};
use std::alloc::{AllocError, Global};
use std::marker::Model;

/// A writer over memory. It accepts the whole piece, or fails and stays as it was because memory was refused. A
/// contract sees it as the bytes that it holds and the count of each call. A call with n bytes takes these and n / 255
/// + 1 for their count. That is at most twice the bytes written, and one byte for an empty piece. Its room doubles when
/// it is full.
#[derive(Drop)]
pub struct Tape {
    bytes: Vec<u8>,
    counts: CodedCounts,
}

impl Model for Tape {
    ghost use Rattle.share_model.specs.io.Told.{Told};

    ghost Value = { Told };

    ghost view = { λ tape. record { bytes = tape.bytes.items; counts = tape.counts } };
}

impl Tape {
    /// An empty tape. It takes no memory.
    pub fn new(alloc: Global) -> Tape
        ensures { result ≡ record { bytes = []; counts = [] } }
    {
        Tape {
            bytes: Vec::new(alloc),
            counts: CodedCounts::new(alloc),
        }
    }

    /// The bytes that it holds.
    pub fn bytes(&self) -> &[u8]
        ensures { result.now ≡ self.now.bytes }
    {
        self.bytes.as_slice()
    }

    /// Gives the bytes that it holds.
    pub fn into_bytes(self) -> Vec<u8>
        ensures { result.items ≡ self.bytes }
    {
        let Tape { bytes, counts } = self;
        drop(counts);
        bytes
    }

    /// The count of each call that it accepted. An error if memory is refused.
    pub fn counts(&self, alloc: Global) -> Result<Vec<usize>, AllocError>
        ensures { IfOk result (λ counts. counts.items ≡ self.now.counts) }
    {
        self.counts.to_vec(alloc)
    }
}

impl TellingWriter for Tape {
    ghost use Rattle.std.specs.Prelude.{Some};
    ghost use Rattle.share_model.specs.io.Told.{TapeAnswers};
    ghost use Rattle.share_model.specs.io.ToldLaws.{tape_tells};

    ghost told = { Some };

    ghost answers = { TapeAnswers };

    ghost tells = { tape_tells };

    fn offer(&mut self, piece: &[u8]) -> Answer {
        let before = self.bytes.len();
        if self.bytes.extend_from_slice(piece).is_err() {
            return Answer::Failed;
        }
        if self.counts.push(piece.len()).is_err() {
            self.bytes.truncate(before);
            return Answer::Failed;
        }
        Answer::Accepted(piece.len())
    }
}
