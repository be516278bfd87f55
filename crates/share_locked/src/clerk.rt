//! Clerks, and the receipts of their commands.
ghost use Rattle.std.specs.Prelude.{◌≡◌, ◌<◌, length, MatchResult};
ghost use Rattle.share_base.specs.declared.refusal.Refusal.TheVariants.{NoMemory};
ghost use Rattle.share_locked.specs.Views.{ClerkView, new_clerk, receipt, with_receipt, with_room};

use crate::link::LinkBrand;
use share_base::{Command, Refusal, Reply};
use std::alloc::Global;
use std::marker::{Model, PhantomData};

/// The receipt of a command that a clerk made: the number of its entry in the journal, the command, and its reply.
#[derive(Clone, Copy, Debug, PartialEq, Eq)]
pub struct Receipt {
    pub number: u64,
    pub command: Command,
    pub reply: Reply,
}

/// A clerk makes commands on a running link, and keeps a receipt of each. A contract sees its number, its receipts, in
/// order, and the number that it has room for.
#[derive(Drop)]
pub struct Clerk<L: LinkBrand> {
    number: u64,
    receipts: Vec<Receipt>,
    of: PhantomData<L>,
}

impl<L: LinkBrand> Model for Clerk<L> {
    ghost use Rattle.std.specs.Prelude.{vec_capacity};
    ghost use Rattle.share_locked.specs.Views.{ClerkView};

    ghost Value = { ClerkView };

    ghost view = { λ c. record { number = c.number; receipts = c.receipts.items; room = vec_capacity c.receipts } };
}

impl<L: LinkBrand> Clerk<L> {
    // A clerk that made no command. It takes no memory.
    pub(crate) fn new(alloc: Global, number: u64) -> Clerk<L>
        ensures { result ≡ new_clerk number result.room }
    {
        Clerk {
            number,
            receipts: Vec::new(alloc),
            of: PhantomData,
        }
    }

    /// Its number, from 1.
    pub fn number(&self) -> u64
        ensures { result ≡ self.now.number }
    {
        self.number
    }

    /// Its receipts, in the order of its commands.
    pub fn receipts(&self) -> &[Receipt]
        ensures { result.now ≡ self.now.receipts }
    {
        self.receipts.as_slice()
    }

    /// Makes room for one more receipt. `NoMemory` if memory was refused; then nothing changed.
    pub fn ready(&mut self) -> Result<(), Refusal>
        ensures { MatchResult result
            (λ _. (self.new ≡ with_room self.old self.new.room) × (length self.old.receipts < self.new.room))
            (λ e. (self.new ≡ self.old) × (e ≡ NoMemory)) }
    {
        self.receipts.reserve(1)?;
        Ok(())
    }

    // Keeps the receipt of a command. It takes no memory.
    pub(crate) fn keep(&mut self, kept: Receipt)
        requires { length self.old.receipts < self.old.room }
        ensures { self.new ≡ with_receipt self.old kept }
    {
        self.receipts.push_reserved(kept);
    }
}

// The receipt of a command.
pub(crate) fn receipt_of(number: u64, command: &Command, reply: &Reply) -> Receipt
    ensures { result ≡ receipt number command.now reply.now }
{
    Receipt {
        number,
        command: *command,
        reply: *reply,
    }
}
