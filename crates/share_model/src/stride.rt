//! The clients of the stride queue, and the part of it that they share.

/// A client of the stride queue: a flow that competes for the link, or one that does not at present.
#[derive(Clone, Copy, Debug, PartialEq, Eq)]
pub struct Client {
    /// Its tickets, or those with which it competed last; 0 before it first competes.
    pub tickets: u32,
    /// 2^40 divided by its tickets; 0 before it first competes.
    pub stride: u64,
    /// The distance by which its pass was ahead of the global pass when it ceased to compete, and its charges since.
    pub remain: i128,
    /// Its charges, on the scale of the global pass, while it competes.
    pub pass: i128,
    pub competes: bool,
}

/// The readings of a client.
#[derive(Clone, Copy, Debug, PartialEq, Eq)]
pub struct Position {
    pub competing: bool,
    /// Its tickets, or those with which it competed last.
    pub tickets: u32,
    pub stride: u64,
    /// Its pass while it competes, its remain otherwise.
    pub place: i128,
}

/// The values that all clients of a stride queue share.
#[derive(Clone, Copy, Debug, PartialEq, Eq)]
pub struct GlobalPart {
    /// The tickets of the clients that compete.
    pub tickets: u64,
    /// The global pass at the last update.
    pub pass: u128,
    /// The clock at the last update.
    pub last: u64,
    /// The units that were charged so far.
    pub clock: u64,
}
