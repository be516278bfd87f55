//! Why a command, an arrival or a turn of the link is refused.
ghost use Rattle.std.specs.Prelude.{◌≡◌};
ghost use Rattle.share_base.specs.Refusal.{refusal_number, refusal_name};
ghost use Rattle.share_base.specs.declared.refusal.Refusal.TheVariants.{NoMemory};

use std::alloc::{AllocError, AllocFailed};
use thiserror::Error;

/// A refusal. It changes no state, the count of events aside, and takes no number.
#[derive(Clone, Copy, Debug, PartialEq, Eq, Error)]
pub enum Refusal {
    #[error("memory was refused")]
    NoMemory,
    #[error("the link has made as many events as its life allows")]
    Spent,
    #[error("the line is not one that can be read")]
    Syntax,
    #[error("a number or a payload is out of its range")]
    Range,
    #[error("no currency has this name")]
    NoCurrency,
    #[error("no ticket has this number")]
    NoTicket,
    #[error("no open flow has this name")]
    NoFlow,
    #[error("no tariff has this number")]
    NoTariff,
    #[error("the name is taken")]
    Taken,
    #[error("the base currency can be neither removed nor funded")]
    Base,
    #[error("a ticket is denominated in the currency, or funds it")]
    InUse,
    #[error("the ticket has a holder")]
    Funding,
    #[error("the ticket has no holder")]
    Unfunded,
    #[error("the holder is funded by as many tickets as it may be")]
    Crowded,
    #[error("the currency would back itself")]
    Cycle,
    #[error("the chain of currencies would be too long")]
    Deep,
    #[error("the table is full")]
    TableFull,
    #[error("a frame of the flow is in part")]
    Sending,
    #[error("the buffer of the flow is full")]
    BufferFull,
    #[error("the link is broken")]
    Broken,
    #[error("the flow is held")]
    Held,
    #[error("the flow is not held")]
    NotHeld,
}

impl Refusal {
    /// The number under which replies name the refusal, from 1 to 22.
    pub fn number(&self) -> u32
        ensures { result ≡ refusal_number self.now }
    {
        match self {
            Refusal::NoMemory => 1,
            Refusal::Spent => 2,
            Refusal::Syntax => 3,
            Refusal::Range => 4,
            Refusal::NoCurrency => 5,
            Refusal::NoTicket => 6,
            Refusal::NoFlow => 7,
            Refusal::NoTariff => 8,
            Refusal::Taken => 9,
            Refusal::Base => 10,
            Refusal::InUse => 11,
            Refusal::Funding => 12,
            Refusal::Unfunded => 13,
            Refusal::Crowded => 14,
            Refusal::Cycle => 15,
            Refusal::Deep => 16,
            Refusal::TableFull => 17,
            Refusal::Sending => 18,
            Refusal::BufferFull => 19,
            Refusal::Broken => 20,
            Refusal::Held => 21,
            Refusal::NotHeld => 22,
        }
    }

    /// The name that replies give beside the number.
    pub fn name(&self) -> &'static str
        ensures { result.now ≡ refusal_name self.now }
    {
        match self {
            Refusal::NoMemory => "NoMemory",
            Refusal::Spent => "Spent",
            Refusal::Syntax => "Syntax",
            Refusal::Range => "Range",
            Refusal::NoCurrency => "NoCurrency",
            Refusal::NoTicket => "NoTicket",
            Refusal::NoFlow => "NoFlow",
            Refusal::NoTariff => "NoTariff",
            Refusal::Taken => "Taken",
            Refusal::Base => "Base",
            Refusal::InUse => "InUse",
            Refusal::Funding => "Funding",
            Refusal::Unfunded => "Unfunded",
            Refusal::Crowded => "Crowded",
            Refusal::Cycle => "Cycle",
            Refusal::Deep => "Deep",
            Refusal::TableFull => "TableFull",
            Refusal::Sending => "Sending",
            Refusal::BufferFull => "BufferFull",
            Refusal::Broken => "Broken",
            Refusal::Held => "Held",
            Refusal::NotHeld => "NotHeld",
        }
    }

    /// An equal refusal, made without memory.
    pub fn same(&self) -> Refusal
        ensures { result ≡ self.now }
    {
        *self
    }
}

/// A refused growth is `NoMemory`.
impl From<AllocError> for Refusal {
    ghost from_gives = { λ _ refusal. refusal ≡ NoMemory };

    fn from(_error: AllocError) -> Refusal {
        Refusal::NoMemory
    }
}

/// A refused growth is `NoMemory`. The value that was not stored is dropped.
impl<T: Drop> From<AllocFailed<T>> for Refusal {
    ghost from_gives = { λ _ refusal. refusal ≡ NoMemory };

    fn from(_error: AllocFailed<T>) -> Refusal {
        Refusal::NoMemory
    }
}
