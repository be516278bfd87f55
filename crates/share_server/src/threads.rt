//! The threads of a running server.

use crate::refused::RefusedPackets;
use share_connections::{ConnectionReader, Connections, Kind, Uplink};
use share_control::{Attended, How, attend};
use share_locked::{Attendant, Clerk, LinkBrand, LinkEnd, Port, serve_while};
use share_model::{PlainReader, PlainWriter, Rates};
use share_script::IncomingLines;
use share_served::{BrandedEnd, FoundFaults, Slot, why_text, work};
use std::alloc::Global;
use std::io::{Eprint, ErrorKind};
use std::net::{TcpListener, TcpStream};
use std::sync::{Arc, Mutex, Wait};
use std::thread::{Scope, Threads};
use std::{io, thread};

/// Follows the link's service, and prints which packets the link refused.
#[derive(Drop)]
struct Teller<'a, R, S: Rates, L: LinkBrand> {
    rt: &'a R,
    server: &'a Server<S, L>,
    refused: Mutex<RefusedPackets>,
}

impl<'a, R: Wait + Eprint, S: Rates, L: LinkBrand> Teller<'a, R, S, L> {
    fn new(rt: &'a R, server: &'a Server<S, L>) -> Teller<'a, R, S, L> {
        Teller {
            rt,
            server,
            refused: Mutex::new(RefusedPackets::new()),
        }
    }

    // Counts the packets that were refused since the last call. It prints a line about each connection that has twice
    // as many as were printed, or, at the end, about each that has more.
    fn tell_refused(&self, is_end: bool) {
        let connections = &*self.server.connections;
        if !connections.is_verbose() {
            return;
        }
        let mut refused = self.refused.lock(self.rt);
        let locked = self.server.port.lock(self.rt);
        refused.count(locked.recorder().journal().entries());
        drop(locked);
        for at in 0..self.server.ends.len() {
            if let Some(line) = refused.line(at, is_end) {
                connections.log(self.rt, line);
            }
        }
        drop(refused);
    }
}

impl<'a, R: Wait + Eprint, S: Rates, L: LinkBrand> Attendant for Teller<'a, R, S, L> {
    fn idles(&self) {
        self.server.connections.idles();
        self.tell_refused(false);
    }

    fn ends<W: Wait>(&self, rt: &W) {
        self.server.connections.ends(rt);
        self.tell_refused(true);
    }
}

/// The values that the threads share.
#[derive(Drop)]
pub struct Server<S: Rates, L: LinkBrand> {
    pub alloc: Global,
    pub port: Port<PlainWriter<Uplink>, S, L>,
    pub connections: Arc<Connections>,
    pub control: TcpListener,
    pub ingress: TcpListener,
    // The clerk for each control connection.
    pub clerks: Vec<Slot<Clerk<L>>>,
    // The end of the queue for each ingress connection.
    pub ends: Vec<Slot<BrandedEnd<L>>>,
}

impl<S: Rates, L: LinkBrand> Server<S, L> {
    // The number of connections of a kind that are accepted.
    fn count(&self, kind: Kind) -> usize {
        match kind {
            Kind::Control => self.clerks.len(),
            Kind::Ingress => self.ends.len(),
        }
    }
}

// Answers the lines of a control connection.
fn answer<R: Wait, S: Rates, L: LinkBrand>(
    rt: &R,
    server: &Server<S, L>,
    stream: &TcpStream,
    clerk: Clerk<L>,
) -> Attended<L> {
    let source = PlainReader(ConnectionReader::new(stream, &server.connections));
    match IncomingLines::new(server.alloc, source) {
        Ok(input) => {
            let pace = server.connections.pace();
            attend(rt, server.alloc, &server.port, pace, clerk, input, stream)
        }
        Err(_) => Attended {
            how: How::NoMemory,
            clerk,
        },
    }
}

// Serves a control connection, by the clerk at its place.
fn serve_control<R: Wait + Eprint, S: Rates, L: LinkBrand>(
    rt: &R,
    server: &Server<S, L>,
    number: usize,
    stream: &TcpStream,
    slot: &Slot<Clerk<L>>,
) {
    let Some(clerk) = slot.take(rt) else {
        return;
    };
    let Attended { how, clerk } = answer(rt, server, stream, clerk);
    let count = clerk.receipts().len();
    server.connections.log(
        rt,
        format_args!("control {number}: ended, {how:?}, {count} commands"),
    );
    slot.put(rt, clerk);
}

// Serves an ingress connection, by the end of the queue at its place.
fn serve_ingress<R: Wait + Eprint, S: Rates, L: LinkBrand>(
    rt: &R,
    server: &Server<S, L>,
    number: usize,
    stream: &TcpStream,
    slot: &Slot<BrandedEnd<L>>,
) {
    let Some(end) = slot.take(rt) else {
        return;
    };
    let (end, why, tally) = work(rt, server.alloc, &server.connections, number, stream, end);
    let text = why_text(why);
    server.connections.log(
        rt,
        format_args!("ingress {number}: ended, {text}, {tally} packets"),
    );
    slot.put(rt, end);
}

// The thread of a connection, the one at this place among those of its kind.
fn serve_connection<R: Wait + Eprint, S: Rates, L: LinkBrand>(
    rt: &R,
    server: &Server<S, L>,
    kind: Kind,
    at: usize,
    stream: Arc<TcpStream>,
) {
    let number = number_of(at);
    match kind {
        Kind::Control => {
            if let Some(slot) = server.clerks.get(at) {
                serve_control(rt, server, number, &stream, slot);
            }
        }
        Kind::Ingress => {
            if let Some(slot) = server.ends.get(at) {
                serve_ingress(rt, server, number, &stream, slot);
            }
        }
    }
    drop(stream);
    server.connections.remove(rt, kind, number);
}

// The number of the connection at this place, from 1.
fn number_of(at: usize) -> usize {
    at.saturating_add(1)
}

// Accepts a connection. If that fails, or there is no memory for the connection, the end begins.
fn accept<R: Wait + Eprint, S: Rates, L: LinkBrand>(
    rt: &R,
    server: &Server<S, L>,
    kind: Kind,
    number: usize,
    found: &mut FoundFaults,
) -> Option<Arc<TcpStream>> {
    match accepted(rt, server, kind, number) {
        Ok(stream) => stream,
        Err(fault) => {
            server.connections.not_accepted(rt, fault);
            if fault.kind() == ErrorKind::OutOfMemory {
                found.memory = true;
            } else {
                found.accept = true;
            }
            server.connections.begin_shutdown(rt);
            None
        }
    }
}

// Accepts a connection, and adds it to those that are open. `None` if the end has begun.
fn accepted<R: Wait + Eprint, S: Rates, L: LinkBrand>(
    rt: &R,
    server: &Server<S, L>,
    kind: Kind,
    number: usize,
) -> io::Result<Option<Arc<TcpStream>>> {
    let (listener, word) = match kind {
        Kind::Control => (&server.control, "control"),
        Kind::Ingress => (&server.ingress, "ingress"),
    };
    let count = server.count(kind);
    server
        .connections
        .log(rt, format_args!("waiting for {word} {number} of {count}"));
    let accepted = listener.accept();
    if server.connections.is_ending() {
        drop(accepted);
        return Ok(None);
    }
    let (stream, address) = accepted?;
    server.connections.log(
        rt,
        format_args!("{word} {number}: connected from {address}"),
    );
    Ok(Some(open(rt, server, kind, number, stream)?))
}

// Adds a connection that was accepted to those that are open.
fn open<R: Wait, S: Rates, L: LinkBrand>(
    rt: &R,
    server: &Server<S, L>,
    kind: Kind,
    number: usize,
    stream: TcpStream,
) -> io::Result<Arc<TcpStream>> {
    let _ = stream.set_nodelay(true);
    let stream = Arc::new(server.alloc, stream)?;
    let theirs = Arc::try_clone(&stream)?;
    if !server.connections.add(rt, kind, number, theirs) {
        drop(stream);
        return Err(io::Error::from(ErrorKind::OutOfMemory));
    }
    Ok(stream)
}

// Begins the end, since a connection that was accepted cannot be served.
fn refuse<R: Wait, S: Rates, L: LinkBrand>(
    rt: &R,
    server: &Server<S, L>,
    kind: Kind,
    number: usize,
) {
    server.connections.remove(rt, kind, number);
    server.connections.begin_shutdown(rt);
}

// Accepts the connections of a kind, and starts a thread for each.
fn accept_kind<'s, E, R, S, L>(
    scope: &Scope<'s, E>,
    rt: &'s R,
    server: &'s Server<S, L>,
    kind: Kind,
    found: &mut FoundFaults,
)
where
    R: Wait + Eprint + Sync,
    S: Rates + Send,
    L: LinkBrand + Send,
{
    for at in 0..server.count(kind) {
        let Some(stream) = accept(rt, server, kind, number_of(at), found) else {
            return;
        };
        let started = scope.spawn(move || {
            let mine = stream;
            serve_connection(rt, server, kind, at, mine)
        });
        if started.is_err() {
            found.thread = true;
            refuse(rt, server, kind, number_of(at));
            return;
        }
    }
}

// Accepts the connections, and waits until all are over. If nothing serves the link, it ends them.
fn accept_all<R, S, L>(
    rt: &R,
    server: &Server<S, L>,
    is_served: bool,
    found: FoundFaults,
) -> FoundFaults
where
    R: Threads + Wait + Eprint + Sync,
    S: Rates + Send,
    L: LinkBrand + Send,
{
    thread::scope(thread::scope_env(), rt, |scope| -> FoundFaults {
        let mut found = found;
        let connections = &*server.connections;
        if !is_served {
            found.thread = true;
            connections.begin_shutdown(rt);
        }
        accept_kind(scope, rt, server, Kind::Control, &mut found);
        accept_kind(scope, rt, server, Kind::Ingress, &mut found);
        connections.log(rt, "waiting for all connections to end");
        connections.wait(rt);
        connections.log(rt, "the stop is set");
        connections.log(rt, "waiting for what is left to be sent");
        found
    })
}

/// Runs all threads until the link has ended, and says which faults there were.
pub fn run<R, S, L>(rt: &R, server: &Server<S, L>, found: FoundFaults) -> FoundFaults
where
    R: Threads + Wait + Eprint + Sync,
    S: Rates + Send,
    L: LinkBrand + Send,
{
    thread::scope(thread::scope_env(), rt, |scope| -> FoundFaults {
        let mut found = found;
        let connections = &*server.connections;
        let teller = Teller::new(rt, server);
        let watch = scope.spawn(move || connections.watch(rt));
        if watch.is_err() {
            found.thread = true;
            connections.begin_shutdown(rt);
        }
        let (end, mut found) = serve_while(
            rt,
            &server.port,
            connections.pace(),
            &teller,
            |is_served| -> FoundFaults { accept_all(rt, server, is_served, found) },
        );
        found.life = end == Some(LinkEnd::Spent);
        connections.end_watch();
        found
    })
}
