//! Lines and answers, written one at a time.
ghost use Rattle.std.specs.Prelude.{◌≤◌, ◌++◌, length, codes};
ghost use Rattle.share_base.specs.declared.command.Outcome.TheVariants.{Replied, Turned};
ghost use Rattle.share_model.specs.io.Printing.{WritesText};
ghost use Rattle.share_model.specs.text.Audit.{event_line, written_line};
ghost use Rattle.share_model.specs.text.Lines.{IsLine, before_stamp, spelling_of};
ghost use Rattle.share_model.specs.text.Texts.{line_text};

use crate::replies::push_line;
use crate::spelling::{MAX_SPELLED, push_event, push_spelled};
use crate::text::{ROOM, ShortText, Text};
use share_base::{Event, Outcome, Reply, Turn};
use share_model::{Fault, Line, TellingWriter, put};

/// Writes the spelling of a line and a line feed. It takes no memory: the text is put together on the stack, so a
/// writer that accepts it whole is called once. If an offer is refused, a beginning of the text was written. Whatever
/// its fields are, the line can be read. These bytes are read as this line, without what is stamped before a payload.
/// Or they are refused as `Range` if it is a turn of no bytes or of more than 65535.
pub fn write_line<V: TellingWriter>(line: &Line, output: &mut V) -> Result<(), Fault>
    ensures line { IsLine (before_stamp line.now) }
    ensures written { WritesText V.told V.answers output.old output.new (spelling_of line.now ++ codes "\n") result }
{
    let mut text = ShortText::<ROOM>::new();
    push_spelled(&mut text, line);
    write_spelled(&mut text, output)
}

/// Writes the line that makes an event, as `write_line` does. It writes a command as its line, and a packet as `send`.
/// It writes a write as a turn that offers as many bytes as were written, and a fault as `torn`. No payload is copied.
pub fn write_event<V: TellingWriter>(event: &Event, output: &mut V) -> Result<(), Fault>
    ensures line { IsLine (before_stamp (event_line event.now)) }
    ensures written { WritesText V.told V.answers output.old output.new (written_line (event_line event.now)) result }
{
    let mut text = ShortText::<ROOM>::new();
    push_event(&mut text, event);
    write_spelled(&mut text, output)
}

// The spelling and a line feed.
fn write_spelled<V: TellingWriter>(text: &mut ShortText<ROOM>, output: &mut V) -> Result<(), Fault>
    requires { length text.old ≤ MAX_SPELLED }
    ensures { WritesText V.told V.answers output.old output.new (text.old ++ codes "\n") result }
{
    text.push_str("\n");
    put(output, text.as_bytes())
}

/// Writes the text of a reply and a line feed, as `write_line` does a line.
pub fn write_reply<V: TellingWriter>(reply: &Reply, output: &mut V) -> Result<(), Fault>
    ensures { WritesText V.told V.answers output.old output.new (line_text (Replied reply.now)) result }
{
    write_outcome(&Outcome::Replied(*reply), output)
}

/// Writes the text of an answer to a turn and a line feed, as `write_line` does a line.
pub fn write_turn<V: TellingWriter>(turn: &Turn, output: &mut V) -> Result<(), Fault>
    ensures { WritesText V.told V.answers output.old output.new (line_text (Turned turn.now)) result }
{
    write_outcome(&Outcome::Turned(*turn), output)
}

fn write_outcome<V: TellingWriter>(outcome: &Outcome, output: &mut V) -> Result<(), Fault>
    ensures { WritesText V.told V.answers output.old output.new (line_text outcome.now) result }
{
    let mut text = ShortText::<ROOM>::new();
    push_line(&mut text, outcome);
    put(output, text.as_bytes())
}
