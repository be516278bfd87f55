//! For tests: a telling reader that gives the answers of a list.
ghost use Rattle.std.specs.Prelude.{◌≡◌, ◌<◌, drop};
ghost use Rattle.share_model.specs.io.ScriptedReader.{next_got, bytes_or_end, FitsIn};

use crate::reader::{Got, TellingReader};
use crate::scripted::place_after;
use std::marker::Model;

/// A reader over memory that gives the answers of a list in turn, one a call, and then all bytes that are left. A count
/// is cut to the bytes that are left and to the buffer; 0 is taken as 1. Once no byte is left, a count is the end. An
/// `End` of the list is no end while bytes are left: it gives as many of them as the buffer takes.
#[derive(Drop)]
pub struct ScriptedReader<'a> {
    script: Vec<Got>,
    next: usize,
    bytes: &'a [u8],
}

impl<'a> Model for ScriptedReader<'a> {
    ghost use Rattle.std.specs.Prelude.{drop};
    ghost use Rattle.share_model.specs.io.ScriptedReader.{ScriptedBytes};

    ghost Value = { ScriptedBytes };

    ghost view = { λ reader.
        record { answers = drop reader.next reader.script.items; left = reader.bytes.now } };
}

impl<'a> ScriptedReader<'a> {
    /// A reader of these bytes, with this script.
    pub fn new(script: Vec<Got>, bytes: &'a [u8]) -> ScriptedReader<'a>
        ensures { result ≡ record { answers = script.items; left = bytes.entry.now } }
    {
        ScriptedReader {
            script,
            next: 0,
            bytes,
        }
    }
}

// That many bytes, or the end if none is left.
fn bytes_or_end(left: usize, room: usize, count: usize) -> Got
    requires { 0 < room }
    ensures value { result ≡ bytes_or_end left room count }
    ensures fits { FitsIn left room result }
{
    if left == 0 {
        Got::End
    } else {
        Got::Bytes(count.max(1).min(left).min(room))
    }
}

// The script's answer, at this place of the script, if that many bytes are left and have room.
fn next_got(script: &[Got], at: usize, left: usize, room: usize) -> Got
    requires { 0 < room }
    ensures value { result ≡ next_got (drop at script.now) left room }
    ensures fits { FitsIn left room result }
{
    match script.get(at) {
        None => bytes_or_end(left, room, room),
        Some(Got::Bytes(count)) => bytes_or_end(left, room, *count),
        Some(Got::End) => bytes_or_end(left, room, room),
        Some(Got::Interrupted) => Got::Interrupted,
        Some(Got::Failed) => Got::Failed,
    }
}

impl<'a> TellingReader for ScriptedReader<'a> {
    ghost use Rattle.std.specs.Prelude.{Some};
    ghost use Rattle.share_model.specs.io.ScriptedReader.{ScriptedGives};

    ghost left = { λ reader. Some reader.left };

    ghost gives = { ScriptedGives };

    ghost tells = { λ before buffer got after did. did.gives };

    fn take_bytes(&mut self, buffer: &mut [u8]) -> Got {
        let got = next_got(
            self.script.as_slice(),
            self.next,
            self.bytes.len(),
            buffer.len(),
        );
        self.next = place_after(self.script.as_slice(), self.next);
        if let Got::Bytes(count) = got {
            buffer[..count].copy_from_slice(&self.bytes[..count]);
            self.bytes = &self.bytes[count..];
        }
        got
    }
}
