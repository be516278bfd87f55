//! Lines, as they are spelled.
ghost use Rattle.std.specs.Prelude.{◌≡◌, ◌≤◌, ◌+◌, ◌*◌, ◌++◌, ◌∷◌, [], true, length, decimal, codes};
ghost use Rattle.std.specs.List.{join_with_byte, list_all};
ghost use Rattle.share_model.specs.text.Audit.{event_line};
ghost use Rattle.share_model.specs.text.Lines.{IsName, IsNumber, IsPayload, HasCommandFields, IsLine, before_stamp};
ghost use Rattle.share_model.specs.text.Lines.{hex, is_byte, command_words, version_word, spelling_of};
ghost use Rattle.share_text.specs.Lengths.{length_words};

use crate::hex::spell;
use crate::text::{MAX_DIGITS, ROOM, ShortText, Text};
use share_base::{Body, Command, Event, MAX_NAME, MAX_PAYLOAD, Name, Version};
use share_model::Line;

/// The greatest length of the spelling of a line in bytes: that of a packet for the longest name.
pub(crate) const MAX_SPELLED: usize = 4 + 1 + MAX_NAME + 1 + 2 * MAX_PAYLOAD;

/// The number of bytes of a payload spelled at a time.
const PIECE: usize = 512;

/// The greatest length of the spelling of a command in bytes: that of a flow that is opened.
pub(crate) const MAX_COMMAND: usize = 4 + 1 + MAX_NAME + 2 * (1 + MAX_DIGITS);

/// Adds the spelling of a line to an empty text. The bounds that the types of its fields give are enough for it to be a
/// line.
pub fn push_spelled(text: &mut ShortText<ROOM>, line: &Line)
    requires { text.old ≡ [] }
    ensures bytes { text.new ≡ spelling_of line.now }
    ensures few { length text.new ≤ MAX_SPELLED }
    ensures line { IsLine (before_stamp line.now) }
{
    match line {
        Line::Change(command) => push_command(text, command),
        Line::Send { flow, body } => push_send(text, flow, body),
        Line::Turn(most) => push_numbered(text, "turn", *most),
        Line::Torn => text.push_str("torn"),
        Line::Report => text.push_str("report"),
        Line::Audit(version) => push_audit(text, *version),
    }
}

// The line of an audit.
fn push_audit<const N: usize>(text: &mut ShortText<N>, version: Version)
    requires none { text.old ≡ [] }
    requires room { MAX_COMMAND ≤ N }
    ensures bytes { text.new ≡ join_with_byte 32 (codes "audit" ∷ version_word version ∷ []) }
    ensures few { length text.new ≤ MAX_COMMAND }
{
    match version {
        Version::One => text.push_str("audit 1"),
        Version::Two => text.push_str("audit 2"),
    }
}

/// Adds the spelling of the line that makes an event to an empty text, as `push_spelled` does.
pub fn push_event(text: &mut ShortText<ROOM>, event: &Event)
    requires { text.old ≡ [] }
    ensures bytes { text.new ≡ spelling_of (event_line event.now) }
    ensures few { length text.new ≤ MAX_SPELLED }
    ensures line { IsLine (before_stamp (event_line event.now)) }
{
    match event {
        Event::Commanded(command) => push_command(text, command),
        Event::Arrived { flow, body } => push_send(text, flow, body),
        Event::Written(count) => push_numbered(text, "turn", u64::from(*count)),
        Event::Faulted => text.push_str("torn"),
    }
}

/// Adds the spelling of a command to an empty text.
pub fn push_command<const N: usize>(text: &mut ShortText<N>, command: &Command)
    requires none { text.old ≡ [] }
    requires room { MAX_COMMAND ≤ N }
    ensures bytes { text.new ≡ join_with_byte 32 (command_words command.now) }
    ensures few { length text.new ≤ MAX_COMMAND }
    ensures fields { HasCommandFields command.now }
{
    match command {
        Command::MakeCurrency(name) => push_named(text, "mkcur", name),
        Command::RemoveCurrency(name) => push_named(text, "rmcur", name),
        Command::MakeTicket { amount, currency } => {
            push_numbered(text, "mktkt", *amount);
            push_name(text, currency);
        }
        Command::RemoveTicket(ticket) => push_numbered(text, "rmtkt", *ticket),
        Command::FundCurrency { ticket, currency } => push_fund(text, *ticket, "cur", currency),
        Command::FundFlow { ticket, flow } => push_fund(text, *ticket, "flow", flow),
        Command::Unfund(ticket) => push_numbered(text, "unfund", *ticket),
        Command::OpenFlow {
            name,
            limit,
            tariff,
        } => {
            push_named(text, "open", name);
            push_number(text, *limit);
            push_number(text, *tariff);
        }
        Command::CloseFlow(name) => push_named(text, "close", name),
        Command::Hold(name) => push_named(text, "hold", name),
        Command::Resume(name) => push_named(text, "resume", name),
        Command::Amend { ticket, amount } => {
            push_numbered(text, "amend", *ticket);
            push_number(text, *amount);
        }
    }
}

fn push_fund<const N: usize>(text: &mut ShortText<N>, ticket: u64, kind: &str, name: &Name)
    requires none { text.old ≡ [] }
    requires room { MAX_COMMAND ≤ N }
    requires short { length kind.now ≤ 4 }
    ensures bytes { text.new
        ≡ join_with_byte 32 (codes "fund" ∷ decimal ticket ∷ kind.now ∷ name.now ∷ []) }
    ensures few { length text.new ≤ MAX_COMMAND }
    ensures ticket { IsNumber ticket }
    ensures name { IsName name.now }
{
    push_numbered(text, "fund", ticket);
    text.push_str(" ");
    text.push_str(kind);
    push_name(text, name);
}

/// Adds the packet of a payload to an empty text.
pub fn push_send(text: &mut ShortText<ROOM>, flow: &Name, body: &Body)
    requires { text.old ≡ [] }
    ensures bytes { text.new ≡ join_with_byte 32 (codes "send" ∷ flow.now ∷ hex body.now.payload ∷ []) }
    ensures few { length text.new ≤ MAX_SPELLED }
    ensures flow { IsName flow.now }
    ensures payload { IsPayload body.now.payload }
{
    push_named(text, "send", flow);
    text.push_str(" ");
    push_hex(text, body.as_slice());
}

/// Adds a packet of which the length alone is spelled to an empty text.
pub fn push_length<const N: usize>(text: &mut ShortText<N>, flow: &Name, count: u64)
    requires none { text.old ≡ [] }
    requires room { MAX_COMMAND ≤ N }
    ensures bytes { text.new ≡ join_with_byte 32 (length_words flow.now count) }
    ensures few { length text.new ≤ MAX_COMMAND }
{
    push_named(text, "send", flow);
    push_number(text, count);
}

/// Adds a keyword and a name to an empty text.
pub fn push_named<const N: usize>(text: &mut ShortText<N>, keyword: &str, name: &Name)
    requires none { text.old ≡ [] }
    requires room { MAX_COMMAND ≤ N }
    requires short { length keyword.now ≤ 6 }
    ensures bytes { text.new ≡ keyword.now ++ 32 ∷ name.now }
    ensures few { length text.new ≤ length keyword.now + 1 + MAX_NAME }
    ensures name { IsName name.now }
{
    text.push_str(keyword);
    push_name(text, name);
}

/// Adds a keyword and a number to an empty text.
pub fn push_numbered<const N: usize>(text: &mut ShortText<N>, keyword: &str, number: u64)
    requires none { text.old ≡ [] }
    requires room { MAX_COMMAND ≤ N }
    requires short { length keyword.now ≤ 6 }
    ensures bytes { text.new ≡ keyword.now ++ 32 ∷ decimal number }
    ensures few { length text.new ≤ length keyword.now + 1 + MAX_DIGITS }
    ensures number { IsNumber number }
{
    text.push_str(keyword);
    push_number(text, number);
}

// A space and a name.
fn push_name<const N: usize>(text: &mut ShortText<N>, name: &Name)
    requires { length text.old + 1 + MAX_NAME ≤ N }
    ensures bytes { text.new ≡ text.old ++ 32 ∷ name.now }
    ensures few { length text.new ≤ length text.old + 1 + MAX_NAME }
    ensures name { IsName name.now }
{
    text.push_str(" ");
    text.push(name.as_bytes());
}

// A space and a number.
fn push_number<const N: usize>(text: &mut ShortText<N>, number: u64)
    requires { length text.old + 1 + MAX_DIGITS ≤ N }
    ensures bytes { text.new ≡ text.old ++ 32 ∷ decimal number }
    ensures few { length text.new ≤ length text.old + 1 + MAX_DIGITS }
    ensures number { IsNumber number }
{
    text.push_str(" ");
    text.push_number(number);
}

// Each byte as two lower-case digits.
fn push_hex(text: &mut ShortText<ROOM>, bytes: &[u8])
    requires few { length bytes.now ≤ MAX_PAYLOAD }
    requires room { length text.old + 2 * MAX_PAYLOAD ≤ ROOM }
    ensures bytes { text.new ≡ text.old ++ hex bytes.now }
    ensures few { length text.new ≤ length text.old + 2 * MAX_PAYLOAD }
    ensures all { list_all is_byte bytes.now ≡ true }
{
    let mut digits = [0u8; 2 * PIECE];
    let mut at = 0;
    while at < bytes.len() {
        let count = (bytes.len() - at).min(PIECE);
        push_piece(text, &bytes[at..at + count], &mut digits);
        at += count;
    }
}

// A piece of these bytes, spelled in a buffer first.
fn push_piece(text: &mut ShortText<ROOM>, piece: &[u8], digits: &mut [u8; 2 * PIECE])
    requires few { length piece.now ≤ PIECE }
    requires room { length text.old + 2 * length piece.now ≤ ROOM }
    ensures bytes { text.new ≡ text.old ++ hex piece.now }
    ensures long { length text.new ≡ length text.old + 2 * length piece.now }
{
    spell(piece, digits);
    text.push(&digits[..2 * piece.len()]);
}
