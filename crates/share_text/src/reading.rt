//! Lines of a script, read from their bytes.
ghost use Rattle.std.specs.Prelude.{◌≡◌, ◌≤◌, ◌*◌, ◌∷◌, ◌&&◌, ℕ, List, codes, length, nat_le, option_map, IfOk, IfErr};
ghost use Rattle.std.specs.Prelude.{IfSome, MatchOption, None, Some, Ok, if◌then◌else◌};
ghost use Rattle.share_base.specs.Body.{unstamped};
ghost use Rattle.share_base.specs.declared.refusal.Refusal.TheVariants.{Syntax};
ghost use Rattle.share_base.specs.declared.version.Version.{Version};
ghost use Rattle.share_base.specs.declared.command.Command.{Command};
ghost use Rattle.share_base.specs.declared.command.Command.TheVariants.{MakeCurrency, RemoveCurrency, RemoveTicket};
ghost use Rattle.share_base.specs.declared.command.Command.TheVariants.{Unfund, CloseFlow, Hold, Resume};
ghost use Rattle.share_model.specs.declared.line.Line.TheVariants.{Change, Send as SendLine, Turn as TurnLine};
ghost use Rattle.share_model.specs.text.Lines.{ReadsLine, IsReading, IsUnread, is_in_range, is_pairs, payload_of};
ghost use Rattle.share_model.specs.text.Lines.{named_of, numbered_of, mktkt_of, amend_of, fund_of, funding_of, open_of};
ghost use Rattle.share_model.specs.text.Lines.{send_of, turn_of, torn_of, report_of, version_of, audit_of};
ghost use Rattle.share_model.specs.text.Lines.{line_or_refusal};
ghost use Rattle.share_model.specs.text.Lines.{line_by};
ghost use Rattle.share_model.specs.text.Lines.{words_of};
ghost use Rattle.std.specs.Str.{bytes_eq};
ghost use Rattle.share_text.specs.Words.{ReadsRanged, short_line_by, rarer_line_by, line_sent_by};

use crate::payload::{decode_behind, is_payload};
use crate::words::Words;
use share_base::{Body, Command, HEADER_ROOM, MAX_IN_PLACE, Name, Refusal, Version};
use share_model::{HolderKind, Line};
use std::alloc::{AllocError, Global};

/// The longest line, in bytes before its line feed.
pub const MAX_LINE: usize = 20480;

/// The longest line of a packet whose payload needs no memory: `send`, a name of 16 bytes, 32 digits and two spaces.
const MAX_SHORT_PACKET: usize = 54;

/// The line that these bytes, without a line feed, spell on a link of this version. `Syntax` if they spell none.
/// `Range` if frames of the version do not carry the payload of a packet, which has more than 1490 or 9000 bytes.
/// `Range` too if the number of a turn is not 1 to 65535. `NoMemory` if the copy of a payload found none.
pub fn read_line(alloc: Global, version: Version, bytes: &[u8]) -> Result<Line, Refusal>
    ensures reads { ReadsLine version bytes.now result }
    ensures spelled { IfOk result (λ line. IsReading version bytes.now line) }
    ensures refused { IfErr result (λ refusal. IsUnread version bytes.now refusal) }
{
    read_bytes(alloc, version, bytes)
}

/// The most bytes that a turn offers, if these bytes spell a turn in range. `None` says nothing of them: `read_line`
/// reads any line. A number stays in a register, while a `Line` is copied on its way.
#[inline(always)]
pub fn read_turn(bytes: &[u8]) -> Option<u64>
    ensures reads { IfSome result (λ most. (version : Version) → ReadsLine version bytes.now (Ok (TurnLine most))) }
    ensures spelled { IfSome result (λ most. (version : Version) → IsReading version bytes.now (TurnLine most)) }
{
    if bytes.len() > MAX_LINE {
        return None;
    }
    let most = Words::of(after_turn(bytes)?).last_number()?;
    if 1 <= most && most <= 65535 {
        Some(most)
    } else {
        None
    }
}

/// A packet for the flow of this name, if these bytes spell one whose payload needs no memory. `None` says nothing of
/// them, as that of `read_turn` does. The packet is made where it is answered, while a `Line` is copied on its way.
#[inline(always)]
pub fn read_packet(alloc: Global, bytes: &[u8]) -> Option<(Name, Body)>
    ensures reads { IfSome result
        (λ packet. (version : Version) → ReadsLine version bytes.now (Ok (SendLine packet.0 packet.1))) }
    ensures spelled { IfSome result
        (λ packet. (version : Version) → IsReading version bytes.now (SendLine packet.0 packet.1)) }
{
    if bytes.len() > MAX_SHORT_PACKET {
        return None;
    }
    let mut words = Words::of(after_send(bytes)?);
    let flow = words.name()?;
    let digits = words.rest()?;
    if digits.len() > 2 * MAX_IN_PLACE {
        return None;
    }
    let body = body_in_place(alloc, digits)?;
    Some((flow, body))
}

fn read_bytes(alloc: Global, version: Version, bytes: &[u8]) -> Result<Line, Refusal>
    ensures { ReadsLine version bytes.now result }
{
    if bytes.len() > MAX_LINE {
        return Err(Refusal::Syntax);
    }
    if let Some(rest) = after_send(bytes) {
        return send(alloc, version, &mut Words::of(rest));
    }
    if let Some(rest) = after_turn(bytes) {
        return line_or_refusal(version, turn(&mut Words::of(rest)));
    }
    read_any(alloc, version, bytes)
}

// Whether two words are the same. A loop in place ends soonest, since mostly their first bytes differ.
#[inline(always)]
fn is_word(word: &[u8], keyword: &[u8]) -> bool
    ensures { result ≡ bytes_eq word.now keyword.now }
{
    if word.len() != keyword.len() {
        return false;
    }
    for place in 0..keyword.len() {
        if word[place] != keyword[place] {
            return false;
        }
    }
    true
}

// Packets and turns come most, and are recognized soonest by the first bytes of their lines.
fn after_send(line: &[u8]) -> Option<&[u8]>
    ensures { IfSome result (λ rest. words_of line.now ≡ codes "send" ∷ words_of rest.now) }
{
    match line {
        [b's', b'e', b'n', b'd', b' ', rest @ ..] => Some(rest),
        _ => None,
    }
}

fn after_turn(line: &[u8]) -> Option<&[u8]>
    ensures { IfSome result (λ rest. words_of line.now ≡ codes "turn" ∷ words_of rest.now) }
{
    match line {
        [b't', b'u', b'r', b'n', b' ', rest @ ..] => Some(rest),
        _ => None,
    }
}

// The line that these bytes spell, whichever it is.
fn read_any(alloc: Global, version: Version, bytes: &[u8]) -> Result<Line, Refusal>
    requires { length bytes.now ≤ MAX_LINE }
    ensures { ReadsLine version bytes.now result }
{
    let mut words = Words::of(bytes);
    match words.next() {
        None => Err(Refusal::Syntax),
        Some(keyword) => read_words(alloc, version, keyword, &mut words),
    }
}

// The line of a keyword and the words after it.
fn read_words(
    alloc: Global,
    version: Version,
    keyword: &[u8],
    words: &mut Words<'_>,
) -> Result<Line, Refusal>
    ensures { ReadsRanged version (line_by keyword.now words.old) result }
{
    if is_word(keyword, b"send") {
        return send(alloc, version, words);
    }
    line_or_refusal(version, short_line(keyword, words))
}

// Each arm returns by itself: as one expression, the line is copied once for each `else`.
fn short_line(keyword: &[u8], words: &mut Words<'_>) -> Option<Line>
    ensures { result ≡ short_line_by keyword.now words.old }
{
    if is_word(keyword, b"turn") {
        return turn(words);
    }
    if is_word(keyword, b"open") {
        return open(words);
    }
    if is_word(keyword, b"close") {
        return close(words);
    }
    if is_word(keyword, b"mktkt") {
        return make_ticket(words);
    }
    if is_word(keyword, b"fund") {
        return fund(words);
    }
    if is_word(keyword, b"unfund") {
        return unfund(words);
    }
    if is_word(keyword, b"rmtkt") {
        return remove_ticket(words);
    }
    rarer_line(keyword, words)
}

fn rarer_line(keyword: &[u8], words: &mut Words<'_>) -> Option<Line>
    ensures { result ≡ rarer_line_by keyword.now words.old }
{
    if is_word(keyword, b"mkcur") {
        return make_currency(words);
    }
    if is_word(keyword, b"rmcur") {
        return remove_currency(words);
    }
    if is_word(keyword, b"hold") {
        return hold(words);
    }
    if is_word(keyword, b"resume") {
        return resume(words);
    }
    if is_word(keyword, b"amend") {
        return amend(words);
    }
    if is_word(keyword, b"torn") {
        return torn(words);
    }
    if is_word(keyword, b"report") {
        return report(words);
    }
    if is_word(keyword, b"audit") {
        return audit(words);
    }
    None
}

fn line_or_refusal(version: Version, line: Option<Line>) -> Result<Line, Refusal>
    ensures { result ≡ line_or_refusal version line }
{
    match line {
        None => Err(Refusal::Syntax),
        Some(line) => {
            if is_in_range(version, &line) {
                Ok(line)
            } else {
                Err(Refusal::Range)
            }
        }
    }
}

fn is_in_range(version: Version, line: &Line) -> bool
    ensures { result ≡ is_in_range version line.now }
{
    match line {
        Line::Change(_) => true,
        Line::Send { flow: _, body } => body.as_slice().len() <= version.payload(),
        Line::Turn(most) => 1 <= *most && *most <= 65535,
        Line::Torn => true,
        Line::Report => true,
        Line::Audit(_) => true,
    }
}

#[inline(always)]
fn turn(words: &mut Words<'_>) -> Option<Line>
    ensures { result ≡ turn_of words.old }
{
    let most = words.last_number()?;
    Some(Line::Turn(most))
}

fn torn(words: &mut Words<'_>) -> Option<Line>
    ensures { result ≡ torn_of words.old }
{
    if !words.is_end() {
        return None;
    }
    Some(Line::Torn)
}

fn report(words: &mut Words<'_>) -> Option<Line>
    ensures { result ≡ report_of words.old }
{
    if !words.is_end() {
        return None;
    }
    Some(Line::Report)
}

fn audit(words: &mut Words<'_>) -> Option<Line>
    ensures { result ≡ audit_of words.old }
{
    let version = version_of(words.next()?)?;
    if !words.is_end() {
        return None;
    }
    Some(Line::Audit(version))
}

fn version_of(word: &[u8]) -> Option<Version>
    ensures { result ≡ version_of word.now }
{
    if is_word(word, b"1") {
        return Some(Version::One);
    }
    if is_word(word, b"2") {
        return Some(Version::Two);
    }
    None
}

fn open(words: &mut Words<'_>) -> Option<Line>
    ensures { result ≡ open_of words.old }
{
    let name = words.name()?;
    let limit = words.number()?;
    let tariff = words.number()?;
    if !words.is_end() {
        return None;
    }
    Some(Line::Change(Command::OpenFlow {
        name,
        limit,
        tariff,
    }))
}

fn make_ticket(words: &mut Words<'_>) -> Option<Line>
    ensures { result ≡ mktkt_of words.old }
{
    let amount = words.number()?;
    let currency = words.name()?;
    if !words.is_end() {
        return None;
    }
    Some(Line::Change(Command::MakeTicket { amount, currency }))
}

fn make_currency(words: &mut Words<'_>) -> Option<Line>
    ensures { result ≡ named_of MakeCurrency words.old }
{
    Some(Line::Change(Command::MakeCurrency(last_name(words)?)))
}

fn remove_currency(words: &mut Words<'_>) -> Option<Line>
    ensures { result ≡ named_of RemoveCurrency words.old }
{
    Some(Line::Change(Command::RemoveCurrency(last_name(words)?)))
}

fn close(words: &mut Words<'_>) -> Option<Line>
    ensures { result ≡ named_of CloseFlow words.old }
{
    Some(Line::Change(Command::CloseFlow(last_name(words)?)))
}

fn hold(words: &mut Words<'_>) -> Option<Line>
    ensures { result ≡ named_of Hold words.old }
{
    Some(Line::Change(Command::Hold(last_name(words)?)))
}

fn resume(words: &mut Words<'_>) -> Option<Line>
    ensures { result ≡ named_of Resume words.old }
{
    Some(Line::Change(Command::Resume(last_name(words)?)))
}

fn amend(words: &mut Words<'_>) -> Option<Line>
    ensures { result ≡ amend_of words.old }
{
    let ticket = words.number()?;
    let amount = words.number()?;
    if !words.is_end() {
        return None;
    }
    Some(Line::Change(Command::Amend { ticket, amount }))
}

fn remove_ticket(words: &mut Words<'_>) -> Option<Line>
    ensures { result ≡ numbered_of RemoveTicket words.old }
{
    Some(Line::Change(Command::RemoveTicket(last_number(words)?)))
}

fn unfund(words: &mut Words<'_>) -> Option<Line>
    ensures { result ≡ numbered_of Unfund words.old }
{
    Some(Line::Change(Command::Unfund(last_number(words)?)))
}

// The name that is the only word left.
fn last_name(words: &mut Words<'_>) -> Option<Name>
    ensures { (command : List ℕ → Command)
        → option_map (λ name. Change (command name)) result ≡ named_of command words.old }
{
    let name = words.name()?;
    if words.is_end() { Some(name) } else { None }
}

// The number that is the only word left.
fn last_number(words: &mut Words<'_>) -> Option<u64>
    ensures { (command : ℕ → Command)
        → option_map (λ number. Change (command number)) result ≡ numbered_of command words.old }
{
    let number = words.number()?;
    if words.is_end() { Some(number) } else { None }
}

fn fund(words: &mut Words<'_>) -> Option<Line>
    ensures { result ≡ fund_of words.old }
{
    let ticket = words.number()?;
    let kind = words.kind()?;
    let name = words.name()?;
    if !words.is_end() {
        return None;
    }
    Some(Line::Change(funding(kind, ticket, name)))
}

fn funding(kind: HolderKind, ticket: u64, name: Name) -> Command
    ensures { result ≡ funding_of kind ticket name }
{
    match kind {
        HolderKind::Currency => Command::FundCurrency {
            ticket,
            currency: name,
        },
        HolderKind::Flow => Command::FundFlow { ticket, flow: name },
    }
}

#[inline(always)]
fn send(alloc: Global, version: Version, words: &mut Words<'_>) -> Result<Line, Refusal>
    ensures { ReadsRanged version (send_of words.old) result }
{
    let flow = match words.name() {
        None => return Err(Refusal::Syntax),
        Some(flow) => flow,
    };
    let digits = match words.rest() {
        None => return Err(Refusal::Syntax),
        Some(digits) => digits,
    };
    send_line(alloc, version, flow, digits)
}

// The packet whose payload these digits spell.
#[inline(always)]
fn send_line(alloc: Global, version: Version, flow: Name, digits: &[u8]) -> Result<Line, Refusal>
    ensures { ReadsRanged version (line_sent_by flow (payload_of digits.now)) result }
{
    if digits.len() > 2 * version.payload() {
        return Err(unread(digits, Refusal::Range));
    }
    if digits.len() <= 2 * MAX_IN_PLACE {
        return sent_in_place(alloc, flow, digits);
    }
    let Ok(mut bytes) = zeros(alloc, HEADER_ROOM + digits.len().div_ceil(2)) else {
        return Err(unread(digits, Refusal::NoMemory));
    };
    match decode_behind(digits, bytes.as_mut_slice()) {
        None => Err(Refusal::Syntax),
        Some(_) => Ok(Line::Send {
            flow,
            body: Body::from_vec(bytes),
        }),
    }
}

// The packet of a payload that needs no memory.
#[inline(always)]
fn sent_in_place(alloc: Global, flow: Name, digits: &[u8]) -> Result<Line, Refusal>
    requires { length digits.now ≤ 2 * MAX_IN_PLACE }
    ensures { (version : Version) → result ≡ line_or_refusal version (line_sent_by flow (payload_of digits.now)) }
{
    match body_in_place(alloc, digits) {
        None => Err(Refusal::Syntax),
        Some(body) => Ok(Line::Send { flow, body }),
    }
}

// The payload that these digits spell, which needs no memory.
#[inline(always)]
fn body_in_place(alloc: Global, digits: &[u8]) -> Option<Body>
    requires { length digits.now ≤ 2 * MAX_IN_PLACE }
    ensures { MatchOption result (payload_of digits.now ≡ None) (λ body.
        (payload_of digits.now ≡ Some body.payload)
        × (body ≡ unstamped body.payload)
        × (length body.payload ≤ MAX_IN_PLACE)) }
{
    let mut bytes = [0; HEADER_ROOM + MAX_IN_PLACE];
    match decode_behind(digits, &mut bytes) {
        None => None,
        Some(count) => Some(Body::from_array(alloc, bytes, count)),
    }
}

// Why digits are not read: `Syntax` if they spell no payload.
fn unread(digits: &[u8], otherwise: Refusal) -> Refusal
    ensures { result ≡ (if nat_le 2 (length digits.now) && is_pairs digits.now then otherwise else Syntax) }
{
    if is_payload(digits) {
        otherwise
    } else {
        Refusal::Syntax
    }
}

// That many zero bytes. An error if memory for them was refused.
fn zeros(alloc: Global, count: usize) -> Result<Vec<u8>, AllocError>
    ensures { IfOk result (λ bytes. length bytes.items ≡ count) }
{
    vec![in alloc; 0u8; count]
}
