//! The line of a link's bytes, printed in hexadecimal.
ghost use Rattle.std.specs.Prelude.{◌≡◌, ◌<◌, ◌≤◌, ◌*◌, ◌++◌, codes, length, take};
ghost use Rattle.share_model.specs.text.Lines.{hex, hex_digit};
ghost use Rattle.share_model.specs.io.Printing.{WritesText};
ghost use Rattle.share_text.specs.Printing.{digits_or_hyphen, out_line};

use share_model::{Fault, TellingWriter, put};

/// The number of bytes spelled in one piece.
const PIECE: usize = 8192;

/// Prints the line of a link's bytes: `out `, their digits or a hyphen if there are none, and a line feed. If an offer
/// is refused, a beginning of the line was written.
pub fn print_bytes<O: TellingWriter>(output: &mut O, bytes: &[u8]) -> Result<(), Fault>
    ensures { WritesText O.told O.answers output.old output.new (out_line bytes.now) result }
{
    put(output, b"out ")?;
    finish_line(output, bytes)
}

// The digits of the line, and its line feed.
fn finish_line<O: TellingWriter>(output: &mut O, bytes: &[u8]) -> Result<(), Fault>
    ensures { WritesText O.told O.answers output.old output.new (digits_or_hyphen bytes.now ++ codes "\n") result }
{
    put_digits(output, bytes)?;
    put(output, b"\n")
}

fn put_digits<O: TellingWriter>(output: &mut O, bytes: &[u8]) -> Result<(), Fault>
    ensures { WritesText O.told O.answers output.old output.new (digits_or_hyphen bytes.now) result }
{
    if bytes.is_empty() {
        return put(output, b"-");
    }
    put_hex(output, bytes)
}

// Prints each byte as two lower-case digits.
fn put_hex<O: TellingWriter>(output: &mut O, bytes: &[u8]) -> Result<(), Fault>
    ensures { WritesText O.told O.answers output.old output.new (hex bytes.now) result }
{
    let mut text = [0u8; 2 * PIECE];
    let mut at = 0;
    while at < bytes.len() {
        let count = (bytes.len() - at).min(PIECE);
        put_piece(output, &bytes[at..at + count], &mut text)?;
        at += count;
    }
    Ok(())
}

// Prints a piece, spelled in a buffer.
fn put_piece<O: TellingWriter>(
    output: &mut O,
    piece: &[u8],
    text: &mut [u8; 2 * PIECE],
) -> Result<(), Fault>
    requires { length piece.now ≤ 8192 }
    ensures { WritesText O.told O.answers output.old output.new (hex piece.now) result }
{
    spell(piece, text);
    put(output, &text[..2 * piece.len()])
}

/// Writes the two digits of each byte to the front of a buffer.
pub fn spell(bytes: &[u8], text: &mut [u8])
    requires { 2 * length bytes.now ≤ length text.old }
    ensures { take (2 * length bytes.now) text.new ≡ hex bytes.now }
{
    for place in 0..bytes.len() {
        let byte = bytes[place];
        text[2 * place] = digit(byte / 16);
        text[2 * place + 1] = digit(byte % 16);
    }
}

fn digit(value: u8) -> u8
    requires { value < 16 }
    ensures { result ≡ hex_digit value }
{
    if value < 10 {
        b'0' + value
    } else {
        b'a' - 10 + value
    }
}
