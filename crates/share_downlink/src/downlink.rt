//! The connections of a downlink.
ghost use Rattle.std.specs.Prelude.{◌≡◌, IfOk};
ghost use Rattle.share_downlink.specs.Given.{GivesFrames, no_counts};

use crate::connection::{ClosedConnection, ClosedWhy, Connection, First};
use crate::counts::Counts;
use crate::deliver::Deliver;
use share_base::Refusal;
use share_sockets::Stream;
use std::alloc::Global;
use std::marker::Model;
use std::net::SocketAddr;

/// The most connections that wait for their first frame.
pub const MAX_WAITING: usize = 16;

/// The connections of a downlink, the oldest first. The first one is the current one, and gives its packets. If the
/// first frame of another one is whole, that one becomes the current one: all that are older are over.
/// A contract sees what it counts.
pub struct Downlink {
    connections: Vec<Connection>,
    counts: Counts,
    // Whether connections may be over that were not closed.
    may_be_over: bool,
}

impl Drop for Downlink {
    fn drop(self) {
        let Downlink {
            connections,
            counts: _,
            may_be_over: _,
        } = self;
        drop(connections);
    }
}

impl Model for Downlink {
    ghost use Rattle.share_downlink.specs.declared.counts.Counts.{Counts};

    ghost Value = { Counts };

    ghost view = { λ d. d.counts };
}

impl Downlink {
    /// No connections. `NoMemory` if memory is refused.
    pub fn new(alloc: Global) -> Result<Downlink, Refusal>
        ensures { IfOk result (λ d. d ≡ no_counts) }
    {
        match Vec::with_capacity(alloc, MAX_WAITING + 2) {
            Err(_) => Err(Refusal::NoMemory),
            Ok(connections) => Ok(Downlink {
                connections,
                counts: Counts::new(),
                may_be_over: false,
            }),
        }
    }

    /// The counts of the frames that came.
    pub fn counts(&self) -> Counts
        ensures { result ≡ self.now }
    {
        self.counts
    }

    /// Whether another gateway is connected.
    pub fn is_up(&self) -> bool {
        self.current().is_some()
    }

    // The index of the current connection: of the oldest one that is not over.
    fn current(&self) -> Option<usize> {
        self.connections
            .iter()
            .position(|connection| !connection.is_over())
    }

    /// The address from which the current connection comes.
    pub fn current_address(&self) -> Option<SocketAddr> {
        let index = self.current()?;
        Some(self.connections.get(index)?.from())
    }

    /// Adds a connection that comes from an address, whose events carry this token. If too many wait for their first
    /// frame then, the one that waits for longest is over. Returns false without memory for it, and then it is closed.
    pub fn admit(&mut self, alloc: Global, stream: Stream, from: SocketAddr, token: usize) -> bool
        ensures { self.new ≡ self.old }
    {
        let Ok(connection) = Connection::new(alloc, stream, from, token) else {
            return false;
        };
        if self.connections.push(connection).is_err() {
            return false;
        }
        self.end_crowded();
        true
    }

    // Ends the connection that waits for longest, if too many wait.
    fn end_crowded(&mut self)
        ensures { self.new ≡ self.old }
    {
        if self.waiting() <= MAX_WAITING {
            return;
        }
        let Some(current) = self.current() else {
            return;
        };
        self.end_next(current.saturating_add(1));
    }

    // The number of connections that wait for their first frame.
    fn waiting(&self) -> usize {
        let open = self
            .connections
            .iter()
            .filter(|connection| !connection.is_over())
            .count();
        open.saturating_sub(1)
    }

    // Ends the first connection from this index on that is not over.
    fn end_next(&mut self, from: usize)
        ensures { self.new ≡ self.old }
    {
        'connections: for index in from..self.connections.len() {
            let Some(connection) = self.connections.get_mut(index) else {
                return;
            };
            if connection.is_over() {
                continue 'connections;
            }
            connection.end(ClosedWhy::Crowded);
            self.may_be_over = true;
            return;
        }
    }

    /// The socket of the connection with this token was reported ready.
    pub fn note(&mut self, token: usize)
        ensures { self.new ≡ self.old }
    {
        for index in 0..self.connections.len() {
            if let Some(connection) = self.connections.get_mut(index) {
                if connection.token() == token {
                    connection.note();
                }
            }
        }
    }

    /// Reads a bounded number of pieces of each connection, the oldest first, and gives the packets of their frames.
    /// Nothing is given of a connection once a newer one is the current one. Returns whether more may be at hand.
    pub fn take<D: Deliver>(&mut self, taker: &mut D) -> bool
        ensures { GivesFrames D.delivers taker.old self.old taker.new self.new }
    {
        let mut is_more = false;
        for index in 0..self.connections.len() {
            is_more |= self.serve(index, taker);
        }
        is_more
    }

    // Serves the connection of an index, if it is not over. Returns whether more of it may be at hand.
    fn serve<D: Deliver>(&mut self, index: usize, taker: &mut D) -> bool
        ensures { GivesFrames D.delivers taker.old self.old taker.new self.new }
    {
        if self.current() == Some(index) {
            return self.give(index, taker);
        }
        match self.give_first(index, taker) {
            First::Waits => false,
            First::More => true,
            First::Given => {
                self.replace_before(index);
                self.give(index, taker)
            }
        }
    }

    // Gives the packets of a connection. Returns whether more may be at hand.
    fn give<D: Deliver>(&mut self, index: usize, taker: &mut D) -> bool
        ensures { GivesFrames D.delivers taker.old self.old taker.new self.new }
    {
        let Some(connection) = self.connections.get_mut(index) else {
            return false;
        };
        let is_more = connection.give(&mut self.counts, taker);
        self.may_be_over |= connection.is_over();
        is_more
    }

    // Gives the first packet of a connection that is not over.
    fn give_first<D: Deliver>(&mut self, index: usize, taker: &mut D) -> First
        ensures { GivesFrames D.delivers taker.old self.old taker.new self.new }
    {
        let Some(connection) = self.connections.get_mut(index) else {
            return First::Waits;
        };
        if connection.is_over() {
            return First::Waits;
        }
        let first = connection.give_first(&mut self.counts, taker);
        self.may_be_over |= connection.is_over();
        first
    }

    // Ends all connections before this index.
    fn replace_before(&mut self, index: usize)
        ensures { self.new ≡ self.old }
    {
        for older in 0..index {
            if let Some(connection) = self.connections.get_mut(older) {
                connection.end(ClosedWhy::Replaced);
            }
        }
        self.may_be_over = true;
    }

    /// Closes a connection that is over, and says which it was and why. `None` if no connection is over.
    pub fn close_over(&mut self) -> Option<ClosedConnection>
        ensures { self.new ≡ self.old }
    {
        if !self.may_be_over {
            return None;
        }
        let over = self
            .connections
            .iter()
            .position(|connection| connection.is_over());
        let Some(index) = over else {
            self.may_be_over = false;
            return None;
        };
        let connection = self.connections.remove(index);
        let closed = connection.closed();
        drop(connection);
        closed
    }
}
