//! Requests to a link, and its answers.
ghost use Rattle.std.specs.Prelude.{◌≡◌};

use crate::naming::Name;
use crate::number::{FlowNo, TicketNo};
use crate::parcel::Body;
use crate::refusal::Refusal;

/// A change of the funding or of the flows.
#[derive(Clone, Copy, Debug, PartialEq, Eq)]
pub enum Command {
    /// Makes a currency.
    MakeCurrency(Name),
    /// Removes a currency in which no ticket is denominated and which none funds.
    RemoveCurrency(Name),
    /// Issues a ticket of this amount, 1 to 2^20, in a currency.
    MakeTicket { amount: u64, currency: Name },
    /// Removes a ticket without a holder.
    RemoveTicket(u64),
    /// Makes a ticket without a holder fund a currency.
    FundCurrency { ticket: u64, currency: Name },
    /// Makes a ticket without a holder fund an open flow.
    FundFlow { ticket: u64, flow: Name },
    /// Takes a ticket from its holder.
    Unfund(u64),
    /// Opens a flow with a buffer of `limit` packets, 1 to 1024, under a tariff of the shelf.
    OpenFlow { name: Name, limit: u64, tariff: u64 },
    /// Closes an open flow and drops the packets that wait in its buffer.
    CloseFlow(Name),
    /// Holds an open flow: it takes packets, and sends none but the rest of its frame in part.
    Hold(Name),
    /// Ends the hold of a flow.
    Resume(Name),
    /// Changes the amount of a ticket to 1 to 2^20, whatever it funds.
    Amend { ticket: u64, amount: u64 },
}

/// The answer to a command or an arrival.
#[derive(Clone, Copy, Debug, PartialEq, Eq)]
pub enum Reply {
    /// The request is done, and there is nothing to return.
    Done,
    /// The number of the ticket that was made.
    Ticket(TicketNo),
    /// The number of the flow that was opened.
    Flow(FlowNo),
    /// The flow that was closed, the number of its packets that were dropped, and its account.
    Closed {
        flow: FlowNo,
        dropped: u32,
        account: u64,
    },
    /// The flow and the sequence number of the packet that was accepted.
    Packet {
        flow: FlowNo,
        seq: u32,
    },
    /// Why nothing was done.
    Refused(Refusal),
}

impl Reply {
    /// An equal reply, made without memory.
    pub fn same(&self) -> Reply
        ensures { result ≡ self.now }
    {
        *self
    }
}

/// The answer to a turn of the link.
#[derive(Clone, Copy, Debug, PartialEq, Eq)]
pub enum Turn {
    /// The writer accepted `k` bytes of the frame of this packet. The frame is `whole`, or still in part.
    Wrote {
        flow: FlowNo,
        seq: u32,
        k: u32,
        whole: bool,
    },
    /// The writer failed when `j` bytes of the frame of this packet were out. The link is broken.
    Torn {
        flow: FlowNo,
        seq: u32,
        j: u32,
    },
    /// There is nothing to send.
    Idle,
    /// The write was interrupted, and nothing changed.
    Again,
    /// The link was broken already.
    Broken,
    /// The life of the link was spent already.
    Spent,
}

/// An event of a link. Refused commands and arrivals are events too.
#[derive(Drop)]
pub enum Event {
    /// A command was made.
    Commanded(Command),
    /// A packet of this payload came for the flow of this name.
    Arrived { flow: Name, body: Body },
    /// The writer accepted this many bytes, at least 1, of the frame that is sent.
    Written(u32),
    /// The writer failed on the frame that is sent.
    Faulted,
}

/// The answer to an event of either kind.
#[derive(Clone, Copy, Debug, PartialEq, Eq)]
pub enum Outcome {
    /// The answer to a command or an arrival.
    Replied(Reply),
    /// The answer to a turn of the link, or to a declared fault.
    Turned(Turn),
}
