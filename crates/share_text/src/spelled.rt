//! Lines of a text that is written as its events happen, each with its line feed. None of these calls takes memory.
ghost use Rattle.std.specs.Prelude.{◌≡◌, ◌<◌, ◌≤◌, ◌+◌, ◌*◌, ◌++◌, ◌∷◌, [], length, codes};
ghost use Rattle.share_model.specs.declared.line.Line.TheVariants.{Change, Turn};
ghost use Rattle.share_model.specs.text.Audit.{written_line};
ghost use Rattle.share_text.specs.Lengths.{length_line};

use crate::spelling::{
    MAX_COMMAND, MAX_SPELLED, push_command, push_length, push_named, push_numbered,
};
use crate::text::{ShortText, Text};
use share_base::{Command, MAX_PAYLOAD, Name};

/// The greatest length of the line of a packet in bytes, its payload in hexadecimal and the line feed included.
pub const MAX_SEND_LINE: usize = MAX_SPELLED + 1;

/// The greatest length of any other line of an event in bytes, a packet's whose payload is left out included.
pub const MAX_SHORT_LINE: usize = MAX_COMMAND + 1;

/// The line of a packet up to its payload, whose digits and a line feed follow.
pub fn spelled_send(flow: &Name) -> ShortText<MAX_SHORT_LINE>
    ensures bytes { result ≡ codes "send" ++ 32 ∷ flow.now ++ 32 ∷ [] }
    ensures few { length result + 2 * MAX_PAYLOAD < MAX_SEND_LINE }
{
    let mut text = ShortText::new();
    push_named(&mut text, "send", flow);
    text.push_str(" ");
    text
}

/// The line of a packet that names the length of its payload in bytes, and none of them.
pub fn spelled_length(flow: &Name, count: u64) -> ShortText<MAX_SHORT_LINE>
    ensures bytes { result ≡ length_line flow.now count }
    ensures few { length result ≤ MAX_SHORT_LINE }
{
    let mut text = ShortText::new();
    push_length(&mut text, flow, count);
    text.push_str("\n");
    text
}

/// The line of a command.
pub fn spelled_command(command: &Command) -> ShortText<MAX_SHORT_LINE>
    ensures bytes { result ≡ written_line (Change command.now) }
    ensures few { length result ≤ MAX_SHORT_LINE }
{
    let mut text = ShortText::new();
    push_command(&mut text, command);
    text.push_str("\n");
    text
}

/// The line of a turn that offers this many bytes.
pub fn spelled_turn(count: u64) -> ShortText<MAX_SHORT_LINE>
    ensures bytes { result ≡ written_line (Turn count) }
    ensures few { length result ≤ MAX_SHORT_LINE }
{
    let mut text = ShortText::new();
    push_numbered(&mut text, "turn", count);
    text.push_str("\n");
    text
}
