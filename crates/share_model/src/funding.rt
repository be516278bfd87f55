//! Tickets, their holders, and the flows that they fund.

use share_base::{FlowNo, Name, TicketNo};

/// Whom a ticket funds.
#[derive(Clone, Copy, Debug)]
pub enum Holder {
    /// It funds nobody yet.
    Nobody,
    /// It backs the currency of this name.
    Currency(Name),
    /// It funds the open flow of this number.
    Flow(FlowNo),
}

/// A ticket: an amount in a currency, its denomination, and whom it funds.
#[derive(Clone, Copy, Debug)]
pub struct Ticket {
    pub number: TicketNo,
    pub amount: u32,
    pub denomination: Name,
    pub holder: Holder,
}

/// The facts about an open flow that funding knows. It is active while its buffer holds a packet.
#[derive(Clone, Copy, Debug)]
pub struct OpenFlow {
    pub number: FlowNo,
    pub active: bool,
}
