//! The lines of a connection, each taken as soon as it came whole.
ghost use Rattle.std.specs.Prelude.{◌≡◌, [], IfOk, length, nat_lt, if◌then◌else◌};
ghost use Rattle.share_script.specs.Lines.{IsNextLine, IsUnfinished, IsPieceKept, Came};

use crate::carry::Carry;
use crate::chunk::Chunk;
use memchr::memchr;
use share_model::{Got, TellingReader};
use share_text::MAX_LINE;
use std::alloc::{AllocError, Global};
use std::marker::Model;

/// The next line of a connection.
#[derive(Clone, Copy, Debug, PartialEq, Eq)]
pub enum Incoming {
    /// A line, which is lent by `line`.
    Line,
    /// A line of more than 20480 bytes, which is passed over.
    OverLong,
    /// No whole line is here: more must be read.
    Unfinished,
}

/// A connection that is read line by line, in memory of a fixed size that is taken when it is made. A contract sees
/// its reader, the line that was given last, and the bytes that came and were not taken. Its caller takes the lines
/// that are here and answers them, until one is unfinished, and then reads. At the end, what is unfinished is no line.
#[derive(Drop)]
pub struct IncomingLines<R> {
    reader: R,
    chunk: Chunk,
    kept: Carry,
    is_given: bool,
}

impl<R> Model for IncomingLines<R> {
    ghost use Rattle.share_script.specs.Lines.{Connection, connection};
    ghost use Rattle.share_script.specs.Script.{NoFeed};

    ghost Value = { Connection R };

    ghost view = { λ lines. connection lines.reader lines.kept lines.chunk lines.is_given };

    ghost invariant = { λ lines. NoFeed lines.kept };
}

impl<R: TellingReader + Drop> IncomingLines<R> {
    /// A connection of which nothing was read.
    pub fn new(alloc: Global, reader: R) -> Result<IncomingLines<R>, AllocError>
        ensures { IfOk result (λ lines. lines ≡ record { reader = reader; line = []; ahead = [] }) }
    {
        Ok(IncomingLines {
            reader,
            chunk: Chunk::new(alloc)?,
            kept: Carry::new(alloc)?,
            is_given: false,
        })
    }

    /// Takes the next line of the bytes that came, if it is here as a whole. No more than the first 20481 bytes of a
    /// line stay ahead if its line feed did not come.
    pub fn next(&mut self) -> Incoming
        ensures next { IsNextLine self.old.ahead result self.new.line self.new.ahead }
        ensures reader { self.new.reader ≡ self.old.reader }
    {
        end_given(&mut self.kept, self.is_given);
        self.is_given = false;
        if !keep_line(&mut self.kept, &mut self.chunk) {
            return Incoming::Unfinished;
        }
        if self.kept.as_slice().len() > MAX_LINE {
            self.kept.clear();
            return Incoming::OverLong;
        }
        self.is_given = true;
        Incoming::Line
    }

    /// The line that was given last. It is empty if `next` gave none, and after a read.
    pub fn line(&self) -> &[u8]
        ensures { result.now ≡ self.now.line }
    {
        if self.is_given {
            self.kept.as_slice()
        } else {
            &[]
        }
    }

    /// Whether bytes came that were not taken.
    pub fn has_more(&self) -> bool
        ensures { result ≡ nat_lt 0 (length self.now.ahead) }
    {
        if !self.chunk.as_slice().is_empty() {
            return true;
        }
        !self.is_given && !self.kept.as_slice().is_empty()
    }

    /// Makes one read call, and answers what came of it. The bytes that it gave come after those that are ahead. An
    /// interrupted call may be made again.
    pub fn read(&mut self) -> Got
        requires unfinished { IsUnfinished self.old.ahead }
        ensures came { Came R.left R.gives self.old result self.new }
    {
        end_given(&mut self.kept, self.is_given);
        self.is_given = false;
        self.kept.add(self.chunk.as_slice());
        self.chunk.fill(&mut self.reader)
    }
}

// Nothing stays of a line that was given.
fn end_given(kept: &mut Carry, is_given: bool)
    ensures { kept.new ≡ (if is_given then [] else kept.old) }
{
    if is_given {
        kept.clear();
    }
}

// Keeps the piece of the chunk up to its first line feed, which is passed; the whole chunk if it has none.
fn keep_line(kept: &mut Carry, chunk: &mut Chunk) -> bool
    ensures { IsPieceKept kept.old chunk.old result kept.new chunk.new }
{
    let bytes = chunk.as_slice();
    match memchr(b'\n', bytes) {
        None => {
            kept.add(bytes);
            chunk.clear();
            false
        }
        Some(count) => {
            kept.add(&bytes[..count]);
            chunk.pass(count + 1);
            true
        }
    }
}
