//! Readers that report which bytes they gave.
ghost use Rattle.std.specs.Prelude.{◌≡◌, ◌≢◌, ◌<◌, ℕ, List, Option, length};
ghost use Rattle.std.specs.IoError.{error_kind};
ghost use Rattle.share_model.specs.io.Given.{Gives};

use std::io::{Error, ErrorKind, Read};

/// The answer of one read call.
#[derive(Clone, Copy, Debug, PartialEq, Eq)]
pub enum Got {
    /// This many bytes, at least 1, are at the front of the buffer.
    Bytes(usize),
    /// There are no more bytes.
    End,
    /// Nothing was read, and the call may be made again.
    Interrupted,
    /// Nothing was read, and the caller shall not ask again.
    Failed,
}

/// A reader that fills a buffer in one call. `left` is what contracts know of the bytes to come. It is `None` if
/// nothing is known, as for a socket.
pub trait TellingReader {
    ghost use Rattle.share_model.specs.declared.reader.Got.{Got};

    ghost left: { Self → Option (List ℕ) };

    /// The reader before a call, the buffer after it, the answer, and the reader after.
    ghost gives: { Self → List ℕ → Got → Self → Type 0 };

    /// Makes one read call into a buffer that is not empty, and answers what came of it.
    fn take_bytes(&mut self, buffer: &mut [u8]) -> Got
        requires { 0 < length buffer.old }
        ensures { gives self.old buffer.new result self.new };

    ghost tells: { (before : Self) (buffer : List ℕ) (got : Got) (after : Self)
        → gives before buffer got after → Gives (left before) buffer got (left after) };
}

/// Wraps a reader of std, of which is known what its own contract says. It makes one call of `read` with the whole
/// buffer. An error of the kind `Interrupted` is reported as an interruption, any other as a failure.
#[derive(Drop)]
pub struct PlainReader<R>(pub R);

// The report of a failed read call.
fn got_by_error(error: &Error) -> Got
    ensures interrupted { error_kind error.now ≡ ErrorKind.Interrupted → result ≡ Got.Interrupted }
    ensures failed { error_kind error.now ≢ ErrorKind.Interrupted → result ≡ Got.Failed }
{
    if error.kind() == ErrorKind::Interrupted {
        Got::Interrupted
    } else {
        Got::Failed
    }
}

impl<R: Read> TellingReader for PlainReader<R> {
    ghost left = { λ reader. R.remaining reader.0 };

    ghost gives = { λ before buffer got after. Gives (R.remaining before.0) buffer got (R.remaining after.0) };

    ghost tells = { λ before buffer got after given. given };

    fn take_bytes(&mut self, buffer: &mut [u8]) -> Got {
        match self.0.read(buffer) {
            Ok(0) => Got::End,
            Ok(count) => Got::Bytes(count),
            Err(error) => got_by_error(&error),
        }
    }
}
