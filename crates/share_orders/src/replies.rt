//! Replies: their texts, and those that a connection has not taken.
ghost use Rattle.std.specs.Prelude.{◌≡◌, ◌≤◌, ◌++◌, [], drop, length, nat_le, IfOk, IfErr, OnErr, OnOk};
ghost use Rattle.share_base.specs.declared.command.Outcome.TheVariants.{Replied};
ghost use Rattle.share_base.specs.declared.refusal.Refusal.TheVariants.{NoMemory};
ghost use Rattle.share_model.specs.text.Report.{report};
ghost use Rattle.share_model.specs.text.Texts.{line_text};
ghost use Rattle.share_orders.specs.Replies.{book_text, fault_text};

use itoa::Buffer;
use share_base::{Refusal, Reply};
use share_book::Book;
use share_model::{Rates, Tape};
use share_script::write_reply;
use std::alloc::{AllocError, Global};
use std::marker::Model;

/// No line of a connection is read while this many bytes of replies wait in it.
pub const MAX_REPLIES: usize = 65536;

/// The text of a reply, with its line feed. `NoMemory` if memory was refused.
pub fn reply_text(alloc: Global, reply: &Reply) -> Result<Vec<u8>, Refusal>
    ensures ok { IfOk result (λ text. text.items ≡ line_text (Replied reply.now)) }
    ensures refused { IfErr result (λ e. e ≡ NoMemory) }
{
    let mut tape = Tape::new(alloc);
    if write_reply(reply, &mut tape).is_err() {
        drop(tape);
        return Err(Refusal::NoMemory);
    }
    Ok(tape.into_bytes())
}

/// The report of the open book. `NoMemory` if memory was refused.
pub fn report_text<S: Rates>(alloc: Global, book: &Book<S>) -> Result<Vec<u8>, Refusal>
    ensures ok { IfOk result (λ text. text.items ≡ report book.now.audited.link.live) }
    ensures refused { IfErr result (λ e. e ≡ NoMemory) }
{
    let mut tape = Tape::new(alloc);
    if share_report::report(book.engine(), &mut tape).is_err() {
        drop(tape);
        return Err(Refusal::NoMemory);
    }
    Ok(tape.into_bytes())
}

/// The text that names the book that was begun.
pub fn book_text(alloc: Global, number: u64) -> Result<Vec<u8>, AllocError>
    ensures { IfOk result (λ text. text.items ≡ book_text number) }
{
    let mut digits = Buffer::new();
    let mut text = Vec::new(alloc);
    text.extend_from_slice(b"book ")?;
    text.extend_from_slice(digits.format(number).as_bytes())?;
    text.extend_from_slice(b"\n")?;
    Ok(text)
}

/// The text that says why the plan was not read anew.
pub fn fault_text(alloc: Global, reason: &str) -> Result<Vec<u8>, AllocError>
    ensures { IfOk result (λ text. text.items ≡ fault_text reason.now) }
{
    let mut text = Vec::new(alloc);
    text.extend_from_slice(b"no ")?;
    text.extend_from_slice(reason.as_bytes())?;
    text.extend_from_slice(b"\n")?;
    Ok(text)
}

/// The replies that a connection has not taken, in order. A contract sees their bytes.
#[derive(Drop)]
pub struct Replies {
    bytes: Vec<u8>,
}

impl Model for Replies {
    ghost use Rattle.std.specs.Prelude.{ℕ, List};

    ghost Value = { List ℕ };

    ghost view = { λ replies. replies.bytes.items };
}

impl Replies {
    /// No replies. It takes no memory.
    pub fn new(alloc: Global) -> Replies
        ensures { result ≡ [] }
    {
        Replies {
            bytes: Vec::new(alloc),
        }
    }

    /// Puts the text of a reply after the others. If memory is refused, nothing changes.
    pub fn push(&mut self, text: &[u8]) -> Result<(), AllocError>
        ensures ok { OnOk result (self.new ≡ self.old ++ text.now) }
        ensures refused { OnErr result (self.new ≡ self.old) }
    {
        self.bytes.extend_from_slice(text)
    }

    /// The bytes that the connection has not taken.
    pub fn ready(&self) -> &[u8]
        ensures { result.now ≡ self.now }
    {
        self.bytes.as_slice()
    }

    /// Whether that many bytes wait that no line is read.
    pub fn is_full(&self) -> bool
        ensures { result ≡ nat_le MAX_REPLIES (length self.now) }
    {
        MAX_REPLIES <= self.bytes.len()
    }

    /// Says that the connection took the first bytes.
    pub fn sent(&mut self, count: usize)
        requires { count ≤ length self.old }
        ensures { self.new ≡ drop count self.old }
    {
        let left = self.bytes.len() - count;
        self.bytes.as_mut_slice().rotate_left(count);
        self.bytes.truncate(left);
    }
}
