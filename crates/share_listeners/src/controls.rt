//! The control connections.

use mio::{Interest, Registry, Token};
use share_controls::ControlConnection;
use share_doorways::{Acceptor, Source, Sources};
use share_news::News;
use share_sockets::{Listener, Stream};
use slab::Slab;
use std::alloc::Global;
use std::io::Eprint;
use std::time::{Clock, Instant};

/// The most control connections at the same time.
const MAX_CONTROLS: usize = 16;

/// The number of connections accepted in a round.
const ACCEPTS: u32 = 64;

/// The listener of control connections, and those that are open.
pub struct Controls {
    listener: Acceptor,
    connections: Slab<ControlConnection>,
}

// This is written out so that no crate above proves how each part is dropped.
impl Drop for Controls {
    fn drop(self) {
        let Controls {
            listener,
            connections,
        } = self;
        drop(listener);
        drop(connections);
    }
}

impl Controls {
    /// No connections at a listener.
    pub fn new(alloc: Global, listener: Listener) -> Controls {
        Controls {
            listener: Acceptor::new(listener),
            connections: Slab::new(alloc),
        }
    }

    /// Connections may wait.
    pub fn note_listener(&mut self) {
        self.listener.note();
    }

    /// A connection was reported ready.
    pub fn note(&mut self, key: usize, readable: bool, writable: bool) {
        if let Some(connection) = self.connections.get_mut(key) {
            connection.note(readable, writable);
        }
    }

    /// All keys of connections are below this number.
    pub fn bound(&self) -> usize {
        self.connections.capacity()
    }

    /// The connection of a key.
    pub fn get(&mut self, key: usize) -> Option<&mut ControlConnection> {
        self.connections.get_mut(key)
    }

    /// The time at which the listener is tried again.
    pub fn due(&self) -> Option<Instant> {
        self.listener.due()
    }

    /// Accepts the connections that wait. Returns true if more may.
    pub fn accept<R: Clock + Eprint>(
        &mut self,
        rt: &R,
        alloc: Global,
        registry: &Registry,
        sources: &mut Sources,
        news: &mut News,
        now: Instant,
    ) -> bool {
        self.listener.tick(now);
        for _ in 0..ACCEPTS {
            match self.listener.accept(rt, news, now) {
                None => return false,
                Some((stream, _)) => self.admit(rt, alloc, registry, sources, news, now, stream),
            }
        }
        true
    }

    // Adds a connection. If there are as many as there may be, the one whose last line is longest ago is closed first.
    fn admit<R: Clock + Eprint>(
        &mut self,
        rt: &R,
        alloc: Global,
        registry: &Registry,
        sources: &mut Sources,
        news: &mut News,
        now: Instant,
        stream: Stream,
    ) {
        if self.connections.len() >= MAX_CONTROLS {
            if let Some(key) = self.stalest() {
                self.remove(sources, key);
                news.tell_control_closed(rt);
            }
        }
        let Some(token) = sources.add(Source::ControlListener) else {
            return;
        };
        match self.join(alloc, registry, token, now, stream) {
            None => drop(sources.remove(token)),
            Some(key) => sources.set(token, Source::Control(key)),
        }
    }

    // The key of the connection whose last line is longest ago.
    fn stalest(&self) -> Option<usize> {
        let mut found: Option<(usize, Instant)> = None;
        for key in 0..self.connections.capacity() {
            if let Some(connection) = self.connections.get(key) {
                let at = connection.last_line();
                if found.is_none_or(|(_, first)| at < first) {
                    found = Some((key, at));
                }
            }
        }
        found.map(|(key, _)| key)
    }

    // Registers a connection and adds it. Returns its key.
    fn join(
        &mut self,
        alloc: Global,
        registry: &Registry,
        token: Token,
        now: Instant,
        stream: Stream,
    ) -> Option<usize> {
        let mut stream = stream;
        let both = Interest::READABLE | Interest::WRITABLE;
        if stream.register(registry, token, both).is_err() {
            return None;
        }
        match ControlConnection::new(alloc, stream, token.0, now) {
            Err(_) => None,
            Ok(connection) => self.connections.insert(connection).ok(),
        }
    }

    // Closes a connection.
    fn remove(&mut self, sources: &mut Sources, key: usize) {
        if let Some(connection) = self.connections.try_remove(key) {
            let token = Token(connection.token());
            drop(connection);
            drop(sources.remove(token));
        }
    }

    /// Gives the socket of a connection the replies that wait, and closes it if it is over. Returns true if more may be
    /// done for it at once.
    pub fn send(&mut self, sources: &mut Sources, key: usize) -> bool {
        let Some(connection) = self.connections.get_mut(key) else {
            return false;
        };
        connection.send();
        if !connection.is_over() {
            return connection.is_busy();
        }
        self.remove(sources, key);
        false
    }
}
