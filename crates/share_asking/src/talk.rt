//! Lines that are sent, and replies that are printed.
ghost use Rattle.std.specs.Prelude.{◌≡◌, ◌∷◌, ◌||◌, [], IfOk, OnOk, map};
ghost use Rattle.std.specs.Io.KnownBytes.{Appends, Consumes};
ghost use Rattle.share_asking.specs.Conversation.{Answered, IsRow, Passed, PassedToEnd, lines_bytes, with_feed};

use crate::batch::batch_len;
use crate::reply::{goes_on, is_end, is_refusal};
use std::alloc::{AllocError, AllocFailed, Global};
use std::io::{BufRead, Error, ErrorKind, Write};
use thiserror::Error as Fault;

/// Why the replies to lines were not all printed.
#[derive(Clone, Copy, Debug, Fault)]
pub enum AskFault {
    #[error("out of memory")]
    NoMemory,
    /// The connection failed.
    #[error("{0}")]
    Failed(Error),
    /// The connection ended before the last reply was whole.
    #[error("the connection ended early")]
    Ended,
    #[error("cannot write the output")]
    Output,
}

impl From<AllocError> for AskFault {
    fn from(_fault: AllocError) -> AskFault {
        AskFault::NoMemory
    }
}

impl<T: Drop> From<AllocFailed<T>> for AskFault {
    fn from(_fault: AllocFailed<T>) -> AskFault {
        AskFault::NoMemory
    }
}

/// Sends lines, prints their replies in order, and returns whether one is a refusal. Few lines go ahead of their
/// replies.
pub fn ask<S: Write, R: BufRead, W: Write>(
    alloc: Global,
    lines: &[&str],
    requests: &mut S,
    replies: &mut R,
    output: &mut W,
) -> Result<bool, AskFault>
    ensures sent { OnOk result (Appends (S.contents requests.old) (S.contents requests.new)
        (lines_bytes (map (λ line. line.now) lines.now))) }
    ensures answered { IfOk result (Answered (R.remaining replies.old) (R.remaining replies.new)
        (W.contents output.old) (W.contents output.new) (map (λ line. line.now) lines.now)) }
{
    let mut is_refused = false;
    let mut from = 0;
    'batches: while from < lines.len() {
        let to = from + batch_len(&lines[from..]);
        let refused = ask_batch(alloc, &lines[from..to], requests, replies, output)?;
        is_refused = either(is_refused, refused);
        from = to;
    }
    Ok(is_refused)
}

fn either(first: bool, second: bool) -> bool
    ensures { result ≡ (first || second) }
{
    first || second
}

// Sends lines, and prints their replies.
fn ask_batch<S: Write, R: BufRead, W: Write>(
    alloc: Global,
    lines: &[&str],
    requests: &mut S,
    replies: &mut R,
    output: &mut W,
) -> Result<bool, AskFault>
    ensures sent { OnOk result (Appends (S.contents requests.old) (S.contents requests.new)
        (lines_bytes (map (λ line. line.now) lines.now))) }
    ensures answered { IfOk result (Answered (R.remaining replies.old) (R.remaining replies.new)
        (W.contents output.old) (W.contents output.new) (map (λ line. line.now) lines.now)) }
{
    send(alloc, lines, requests)?;
    print_replies(alloc, lines, replies, output)
}

// Sends lines, by one write.
fn send<S: Write>(alloc: Global, lines: &[&str], requests: &mut S) -> Result<(), AskFault>
    ensures { OnOk result (Appends (S.contents requests.old) (S.contents requests.new)
        (lines_bytes (map (λ line. line.now) lines.now))) }
{
    let text = text_of(alloc, lines)?;
    match requests.write_all(text.as_slice()) {
        Ok(()) => Ok(()),
        Err(fault) => Err(AskFault::Failed(fault)),
    }
}

// Lines with their line feeds.
fn text_of(alloc: Global, lines: &[&str]) -> Result<Vec<u8>, AskFault>
    ensures { IfOk result (λ text. text.items ≡ lines_bytes (map (λ line. line.now) lines.now)) }
{
    let mut text = Vec::new(alloc);
    for line in lines {
        text.extend_from_slice(line.as_bytes())?;
        text.push(b'\n')?;
    }
    Ok(text)
}

// Prints the replies to lines. Returns whether one is a refusal.
fn print_replies<R: BufRead, W: Write>(
    alloc: Global,
    lines: &[&str],
    replies: &mut R,
    output: &mut W,
) -> Result<bool, AskFault>
    ensures { IfOk result (Answered (R.remaining replies.old) (R.remaining replies.new)
        (W.contents output.old) (W.contents output.new) (map (λ line. line.now) lines.now)) }
{
    let mut is_refused = false;
    for line in lines {
        let refused = print_reply(alloc, line, replies, output)?;
        is_refused = either(is_refused, refused);
    }
    Ok(is_refused)
}

// Prints the reply to a line. Returns whether it is a refusal.
fn print_reply<R: BufRead, W: Write>(
    alloc: Global,
    line: &str,
    replies: &mut R,
    output: &mut W,
) -> Result<bool, AskFault>
    ensures { IfOk result (Answered (R.remaining replies.old) (R.remaining replies.new)
        (W.contents output.old) (W.contents output.new) (line.now ∷ [])) }
{
    let row = print_row(alloc, replies, output)?;
    let is_refused = is_refusal(row.as_slice());
    if goes_on(line.as_bytes(), row.as_slice()) {
        print_to_end(alloc, replies, output)?;
    }
    Ok(is_refused)
}

// Prints the rows of a report after its first one.
fn print_to_end<R: BufRead, W: Write>(
    alloc: Global,
    replies: &mut R,
    output: &mut W,
) -> Result<(), AskFault>
    ensures { OnOk result (PassedToEnd (R.remaining replies.old) (R.remaining replies.new)
        (W.contents output.old) (W.contents output.new)) }
{
    for _ in 0..u64::MAX {
        let row = print_row(alloc, replies, output)?;
        if is_end(row.as_slice()) {
            return Ok(());
        }
    }
    Err(AskFault::Ended)
}

// Prints a row, and returns it without its line feed.
fn print_row<R: BufRead, W: Write>(
    alloc: Global,
    replies: &mut R,
    output: &mut W,
) -> Result<Vec<u8>, AskFault>
    ensures { IfOk result (λ row. Passed (R.remaining replies.old) (R.remaining replies.new)
        (W.contents output.old) (W.contents output.new) (row.items ∷ [])) }
{
    let mut row = read_row(alloc, replies)?;
    // There is room, since the line feed was there before.
    row.push(b'\n')?;
    match output.write_all(row.as_slice()) {
        Ok(()) => {
            row.pop();
            Ok(row)
        }
        Err(_) => Err(AskFault::Output),
    }
}

// Reads a row, without its line feed.
fn read_row<R: BufRead>(alloc: Global, replies: &mut R) -> Result<Vec<u8>, AskFault>
    ensures read { IfOk result (λ row. Consumes (R.remaining replies.old) (R.remaining replies.new)
        (with_feed row.items)) }
    ensures row { IfOk result (λ row. IsRow row.items) }
{
    let mut row = Vec::new(alloc);
    match replies.read_until(b'\n', &mut row) {
        Ok(_) => match row.pop() {
            Some(b'\n') => Ok(row),
            _ => Err(AskFault::Ended),
        },
        Err(fault) if fault.kind() == ErrorKind::OutOfMemory => Err(AskFault::NoMemory),
        Err(fault) => Err(AskFault::Failed(fault)),
    }
}
