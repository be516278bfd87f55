//! A script that is read a byte at a time.
ghost use Rattle.std.specs.Prelude.{◌≡◌, ◌++◌, [], ◌∷◌, List, ℕ, false, true};
ghost use Rattle.share_runs.specs.Lines.{EndsInLine};

use crate::strict::keep;
use arrayvec::ArrayVec;
use share_model::{Got, TellingReader};

/// The number of bytes of a line that are kept.
const KEPT: usize = 4096;

/// Wraps a reader, and gives one byte a call, so that a run answers each line before it reads from the next. It keeps
/// the beginning of the line to which the last byte belongs.
#[derive(Drop)]
pub struct LineReader<I> {
    input: I,
    number: u64,
    line: ArrayVec<u8, KEPT>,
    is_ended: bool,
}

impl<I: TellingReader> LineReader<I> {
    /// A reader that has given nothing.
    pub fn new(input: I) -> LineReader<I>
        ensures input { result.input ≡ input }
        ensures line { EndsInLine [] result.number result.line.items result.is_ended }
    {
        LineReader {
            input,
            number: 1,
            line: ArrayVec::new(),
            is_ended: false,
        }
    }

    /// The number of the line to which the last byte belongs, counted from 1.
    pub fn number(&self) -> u64
        ensures { result ≡ self.now.number }
    {
        self.number
    }

    /// The first bytes of that line.
    pub fn line(&self) -> &[u8]
        ensures { result.now ≡ self.now.line.items }
    {
        self.line.as_slice()
    }

    // Goes on to the next line if this one has ended.
    fn begin_line(&mut self)
        ensures input { self.new.input ≡ self.old.input }
        ensures line { (text : List ℕ) → EndsInLine text self.old.number self.old.line.items self.old.is_ended
            → EndsInLine text self.new.number self.new.line.items false }
        ensures goes { self.new.is_ended ≡ false }
    {
        if self.is_ended {
            self.number = self.number.saturating_add(1);
            self.line.clear();
            self.is_ended = false;
        }
    }

    // Takes in one more byte that was read.
    fn follow(&mut self, byte: u8)
        ensures input { self.new.input ≡ self.old.input }
        ensures line { (text : List ℕ) → EndsInLine text self.old.number self.old.line.items self.old.is_ended
            → EndsInLine (text ++ byte ∷ []) self.new.number self.new.line.items self.new.is_ended }
    {
        self.begin_line();
        if byte == b'\n' {
            self.is_ended = true;
        } else {
            keep(&mut self.line, &[byte]);
        }
    }
}

impl<I: TellingReader> TellingReader for LineReader<I> {
    ghost use Rattle.share_runs.specs.Lines.{LineGives};
    ghost use Rattle.share_runs.specs.LinesLaws.{lines_tell};

    ghost left = { λ reader. I.left reader.input };

    ghost gives = { λ before buffer got after.
        LineGives I.gives before.input before.number before.line.items before.is_ended buffer got
        after.input after.number after.line.items after.is_ended };

    ghost tells = { λ before buffer got after did.
        lines_tell I.left I.gives I.tells before.input before.number before.line.items before.is_ended buffer got
        after.input after.number after.line.items after.is_ended did };

    fn take_bytes(&mut self, buffer: &mut [u8]) -> Got {
        let got = self.input.take_bytes(&mut buffer[..1]);
        if let Got::Bytes(_) = got {
            self.follow(buffer[0]);
        }
        got
    }
}
