//! A script's output up to its first refusal.
ghost use Rattle.std.specs.Prelude.{◌≡◌, ◌↔◌, ◌≤◌, ◌<◌, ◌+◌, ◌++◌, [], ◌∷◌};
ghost use Rattle.std.specs.Prelude.{take, drop, length, IsTrue, OnOk, OnErr, false};
ghost use Rattle.std.specs.Io.KnownBytes.{Appends};
ghost use Rattle.share_model.specs.io.Calls.{OfferRefused};
ghost use Rattle.share_model.specs.io.Printing.{bytes_told};
ghost use Rattle.share_runs.specs.Strict.{IsRefusal, EndsNoLine, kept_after};

use arrayvec::ArrayVec;
use share_model::{Answer, Fault, TellingWriter, put};

/// The number of bytes kept of the last line of the output. Each refusal is shorter.
const KEPT: usize = 64;

/// Wraps a writer, and passes on to it the answers to a script up to the line feed of the first refusal. That line feed
/// is not passed on, and the offer fails. Only the first line of each offer is passed on.
#[derive(Drop)]
pub struct StrictWriter<O> {
    pub output: O,
    // The beginning of the last line of the output.
    line: ArrayVec<u8, KEPT>,
    is_refused: bool,
}

/// Adds as many of the bytes as there is room for.
pub fn keep<const N: usize>(kept: &mut ArrayVec<u8, N>, bytes: &[u8])
    ensures { kept.new.items ≡ take N (kept.old.items ++ bytes.now) }
{
    let count = kept.remaining_capacity().min(bytes.len());
    if kept.try_extend_from_slice(&bytes[..count]).is_err() {
        unreachable!();
    }
}

// Whether a line with this beginning and this rest is a refusal.
fn is_refusal(line: &[u8], rest: &[u8]) -> bool
    ensures { IsTrue result ↔ IsRefusal (line.now ++ rest.now) }
{
    let mut front = ArrayVec::<u8, 3>::new();
    keep(&mut front, line);
    keep(&mut front, rest);
    front.as_slice() == b"no ".as_slice()
}

// The number of bytes before the first line feed.
fn line_length(bytes: &[u8]) -> usize
    ensures fits { result ≤ length bytes.now }
    ensures plain { EndsNoLine (take result bytes.now) }
    ensures feed { result < length bytes.now → bytes.now ≡ take result bytes.now ++ 10 ∷ drop (result + 1) bytes.now }
{
    let mut at = 0;
    while at < bytes.len() && bytes[at] != b'\n' {
        at += 1;
    }
    at
}

impl<O: TellingWriter> StrictWriter<O> {
    /// A writer that has passed on nothing.
    pub fn new(output: O) -> StrictWriter<O>
        ensures output { result.output ≡ output }
        ensures line { result.line.items ≡ [] }
        ensures goes { result.is_refused ≡ false }
    {
        StrictWriter {
            output,
            line: ArrayVec::new(),
            is_refused: false,
        }
    }

    /// Whether a refusal has ended the output.
    pub fn is_refused(&self) -> bool
        ensures { result ≡ self.now.is_refused }
    {
        self.is_refused
    }

    /// The first bytes of the last line of the output: of the refusal, if one has ended it.
    pub fn line(&self) -> &[u8]
        ensures { result.now ≡ self.now.line.items }
    {
        self.line.as_slice()
    }

    /// Ends the last line of the output.
    pub fn end(&mut self) -> Result<(), Fault>
        ensures bytes { OnOk result (Appends (bytes_told (O.told self.old.output))
            (bytes_told (O.told self.new.output)) (10 ∷ [])) }
        ensures lost { OnErr result (OfferRefused O.answers self.old.output self.new.output) }
        ensures mark { self.new.is_refused ≡ self.old.is_refused }
    {
        put(&mut self.output, b"\n")
    }

    // Offers a part of a line, with `size` bytes before its line feed.
    fn pass(&mut self, part: &[u8], size: usize) -> Answer
        ensures offered { O.answers self.old.output part.now result self.new.output }
        ensures line { self.new.line.items ≡ kept_after self.old.line.items part.now size result }
        ensures mark { self.new.is_refused ≡ self.old.is_refused }
    {
        let answer = self.output.offer(part);
        if let Answer::Accepted(count) = answer {
            if count > size {
                self.line.clear();
            } else {
                keep(&mut self.line, &part[..count]);
            }
        }
        answer
    }
}

impl<O: TellingWriter> TellingWriter for StrictWriter<O> {
    ghost use Rattle.share_runs.specs.Strict.{StrictAnswers};
    ghost use Rattle.share_runs.specs.StrictLaws.{strict_tells};

    ghost told = { λ writer. O.told writer.output };

    ghost answers = { λ before piece answer after.
        StrictAnswers O.answers before.output before.line.items before.is_refused piece answer
        after.output after.line.items after.is_refused };

    ghost tells = { λ before piece answer after did.
        strict_tells O.told O.answers O.tells before.output before.line.items before.is_refused piece answer
        after.output after.line.items after.is_refused did };

    fn offer(&mut self, piece: &[u8]) -> Answer {
        let size = line_length(piece);
        if size == piece.len() {
            return self.pass(piece, size);
        }
        if !is_refusal(self.line.as_slice(), &piece[..size]) {
            return self.pass(&piece[..size + 1], size);
        }
        if size > 0 {
            return self.pass(&piece[..size], size);
        }
        self.is_refused = true;
        Answer::Failed
    }
}
