//! The connections that are open, and how they are ended.

use crate::reason::Reason;
use crate::uplink::UplinkSocket;
use share_locked::{Attendant, Pace, Stop};
use std::alloc::{AllocError, Global};
use std::fmt::Display;
use std::io::{Eprint, ErrorKind, Read};
use std::net::{Shutdown, TcpListener, TcpStream};
use std::os::fd::OwnedFd;
use std::sync::{Arc, Condvar, Mutex, Wait};
use std::thread::Threads;
use std::time::Duration;
use std::{io, thread};

/// The number of pauses that a reply, or a write call on the uplink, may wait once the end has begun.
const GRACE: u64 = 50;

/// The length of a pause in milliseconds.
const PAUSE: u64 = 100;

/// The most bytes that a connection gives once the end has begun.
const LAST_BYTES: usize = 1 << 24;

/// The purpose of a connection.
#[derive(Clone, Copy, Debug, PartialEq, Eq)]
pub enum Kind {
    Control,
    Ingress,
}

/// A connection that is open, by its number among those of its kind.
#[derive(Drop)]
struct Open {
    kind: Kind,
    number: usize,
    stream: Arc<TcpStream>,
}

/// The listeners as streams, which can be shut down. That wakes an accept that waits.
#[derive(Drop)]
pub struct Listening {
    control: TcpStream,
    ingress: TcpStream,
}

/// The connections that are open, the uplink, and the stage of the end.
#[derive(Drop)]
pub struct Connections {
    open: Mutex<Vec<Open>>,
    // Notified when a connection is over.
    closed: Condvar,
    listening: Listening,
    socket: Arc<UplinkSocket>,
    // Set when no more connections are accepted, and those that are open give only what has come.
    ending: Stop,
    // Set when the link has stopped taking offers.
    ingress_closed: Stop,
    pace: Pace,
    // Set when nothing is left to watch.
    over: Stop,
    // Set when the loss of the uplink was printed.
    loss_logged: Stop,
    // Why a connection could not be accepted.
    accept_fault: Mutex<Option<io::Error>>,
    is_verbose: bool,
}

// Another handle of a listener, as a stream.
fn as_stream(listener: &TcpListener) -> io::Result<TcpStream> {
    Ok(TcpStream::from(OwnedFd::from(listener.try_clone()?)))
}

impl Listening {
    /// Other handles of two listeners.
    pub fn of(control: &TcpListener, ingress: &TcpListener) -> io::Result<Listening> {
        let control = as_stream(control)?;
        let ingress = as_stream(ingress)?;
        Ok(Listening { control, ingress })
    }

    // Wakes an accept that waits.
    fn shut(&self) {
        let _ = self.control.shutdown(Shutdown::Both);
        let _ = self.ingress.shutdown(Shutdown::Both);
    }
}

impl Connections {
    /// The connections at these listeners and this uplink: none yet, and room for `room` of them.
    pub fn new(
        alloc: Global,
        listening: Listening,
        socket: Arc<UplinkSocket>,
        pace: Pace,
        room: usize,
        is_verbose: bool,
    ) -> Result<Connections, AllocError> {
        let open = Vec::with_capacity(alloc, room)?;
        Ok(Connections {
            open: Mutex::new(open),
            closed: Condvar::new(),
            listening,
            socket,
            ending: Stop::new(),
            ingress_closed: Stop::new(),
            pace,
            over: Stop::new(),
            loss_logged: Stop::new(),
            accept_fault: Mutex::new(None),
            is_verbose,
        })
    }

    /// Writes a line to standard error, if that is wanted.
    pub fn log<R: Eprint, D: Display + Drop>(&self, rt: &R, line: D) {
        if self.is_verbose {
            let _ = rt.eprintln(line);
        }
    }

    /// Whether lines about what happens are printed.
    pub fn is_verbose(&self) -> bool {
        self.is_verbose
    }

    pub fn socket(&self) -> &UplinkSocket {
        &self.socket
    }

    /// The pace of the link.
    pub fn pace(&self) -> &Pace {
        &self.pace
    }

    /// Whether no more connections are accepted.
    pub fn is_ending(&self) -> bool {
        self.ending.is_set()
    }

    /// Whether the link has stopped taking offers.
    pub fn is_ingress_closed(&self) -> bool {
        self.ingress_closed.is_set()
    }

    /// Adds a connection, and ends it at once if it has to. Returns false if there was no memory for it.
    pub fn add<R: Wait>(&self, rt: &R, kind: Kind, number: usize, stream: Arc<TcpStream>) -> bool {
        let mut open = self.open.lock(rt);
        if self.ending.is_set() {
            let _ = stream.shutdown(Shutdown::Read);
        }
        if self.ingress_closed.is_set() && kind == Kind::Ingress {
            let _ = stream.shutdown(Shutdown::Both);
        }
        open.push(Open {
            kind,
            number,
            stream,
        })
        .is_ok()
    }

    /// A connection could not be accepted. Prints the reason, and keeps it.
    pub fn not_accepted<R: Wait + Eprint>(&self, rt: &R, fault: io::Error) {
        let reason = Reason(fault);
        self.log(rt, format_args!("cannot accept a connection: {reason}"));
        *self.accept_fault.lock(rt) = Some(fault);
    }

    /// Why a connection could not be accepted, if one could not.
    pub fn accept_fault<R: Wait>(&self, rt: &R) -> Option<io::Error> {
        *self.accept_fault.lock(rt)
    }

    /// Removes a connection that is over.
    pub fn remove<R: Wait>(&self, rt: &R, kind: Kind, number: usize) {
        let mut open = self.open.lock(rt);
        open.retain(|one| one.kind != kind || one.number != number);
        drop(open);
        self.closed.notify_all();
    }

    /// Waits until all connections are over.
    pub fn wait<R: Wait>(&self, rt: &R) {
        let open = self.open.lock(rt);
        let _ = self.closed.wait_while(rt, open, |open| !open.is_empty());
    }

    fn shut<R: Wait>(&self, rt: &R, kind: Kind, how: Shutdown) {
        let open = self.open.lock(rt);
        for one in open.as_slice() {
            if one.kind == kind {
                let _ = one.stream.shutdown(how);
            }
        }
    }

    /// Ends the ingress connections, since the link has stopped taking offers.
    pub fn close_ingress<R: Wait>(&self, rt: &R) {
        self.ingress_closed.set();
        self.shut(rt, Kind::Ingress, Shutdown::Both);
    }

    /// Begins the end: no more connections are accepted, and those that are open give only what has come.
    pub fn begin_shutdown<R: Wait>(&self, rt: &R) {
        self.ending.set();
        self.listening.shut();
        self.shut(rt, Kind::Control, Shutdown::Read);
        self.shut(rt, Kind::Ingress, Shutdown::Read);
        self.pace.hurry();
        self.socket.watcher().unpark();
    }

    /// Ends the watch, since nothing is left to watch.
    pub fn end_watch(&self) {
        self.over.set();
        self.socket.watcher().unpark();
    }

    /// Watches the uplink until nothing is left to watch, and prints its loss. From the beginning of the end on it ends
    /// replies that are not written in time, and an uplink that takes nothing for as long.
    pub fn watch<R: Wait + Eprint>(&self, rt: &R) {
        self.watch_until_end(rt);
        self.watch_end(rt);
        self.log_loss(rt);
    }

    // Waits until the end begins, or nothing is left to watch. It prints that the uplink takes nothing, once for each
    // write call.
    fn watch_until_end<R: Wait + Eprint>(&self, rt: &R) {
        let mut steps = 0;
        let mut told = 0;
        for _ in rt.forever() {
            if self.ending.is_set() || self.over.is_set() {
                return;
            }
            self.socket
                .watcher()
                .park_timeout(rt, Duration::from_millis(GRACE * PAUSE));
            self.log_loss(rt);
            let now = self.socket.steps();
            if now == steps && now % 2 == 1 && now != told {
                self.log(rt, "waiting for the uplink, which takes nothing");
                told = now;
            }
            steps = now;
        }
    }

    // Prints that the uplink is lost, once.
    fn log_loss<R: Eprint>(&self, rt: &R) {
        if self.loss_logged.is_set() {
            return;
        }
        if let Some(fault) = self.socket.fault() {
            self.loss_logged.set();
            let reason = Reason(fault);
            self.log(rt, format_args!("the uplink is lost: {reason}"));
        }
    }

    // From the beginning of the end on: ends replies that are not written in time, and an uplink that takes nothing for
    // as long.
    fn watch_end<R: Wait + Eprint>(&self, rt: &R) {
        let mut steps = self.socket.steps();
        if self.pause(rt) {
            return;
        }
        self.shut(rt, Kind::Control, Shutdown::Both);
        for _ in rt.forever() {
            let now = self.socket.steps();
            if now == steps && now % 2 == 1 {
                self.log(rt, "the uplink takes nothing, and is ended");
                self.socket.tear();
            }
            steps = now;
            if self.pause(rt) {
                return;
            }
        }
    }

    // Waits for `GRACE` pauses, or until nothing is left to watch. Returns true if nothing is.
    fn pause<R: Wait + Eprint>(&self, rt: &R) -> bool {
        for _ in 0..GRACE {
            if self.over.is_set() {
                return true;
            }
            self.socket
                .watcher()
                .park_timeout(rt, Duration::from_millis(PAUSE));
            self.log_loss(rt);
        }
        self.over.is_set()
    }
}

impl Attendant for Connections {
    fn idles(&self) {
        self.socket.push();
    }

    fn ends<R: Wait>(&self, rt: &R) {
        self.close_ingress(rt);
    }
}

// Reads to the end, and then ends the connections.
fn end_at_end<R: Wait + Eprint, I: Read + Drop>(rt: &R, input: I, connections: &Connections) {
    let mut input = input;
    let mut buffer = [0u8; 256];
    for _ in rt.forever() {
        match input.read(&mut buffer) {
            Ok(0) => break,
            Ok(_) => (),
            Err(fault) if fault.kind() == ErrorKind::Interrupted => (),
            Err(_) => break,
        }
    }
    drop(input);
    connections.log(rt, "standard input has ended");
    connections.begin_shutdown(rt);
}

/// Starts a thread, which nobody waits for, that ends the connections at the end of standard input. Returns false if
/// there is none.
pub fn end_at_eof<R, I>(rt: &R, input: I, connections: &Arc<Connections>) -> bool
where
    R: Threads + Wait + Eprint + Copy + Send + 'static,
    I: Read + Send + Drop + 'static,
{
    let Ok(theirs) = Arc::try_clone(connections) else {
        return false;
    };
    let own = *rt;
    let started = thread::spawn(rt, move || {
        let input = input;
        end_at_end(&own, input, &theirs)
    });
    started.is_ok()
}

/// A reader of a connection. Once the end has begun it gives at most `LAST_BYTES` bytes more. A socket that is shut
/// down for reading still gives bytes that come later.
#[derive(Drop)]
pub struct ConnectionReader<'a> {
    pub stream: &'a TcpStream,
    pub connections: &'a Connections,
    left: usize,
}

impl<'a> ConnectionReader<'a> {
    pub fn new(stream: &'a TcpStream, connections: &'a Connections) -> ConnectionReader<'a> {
        ConnectionReader {
            stream,
            connections,
            left: LAST_BYTES,
        }
    }
}

impl<'a> Read for ConnectionReader<'a> {
    fn read(&mut self, buf: &mut [u8]) -> io::Result<usize> {
        let mut stream = self.stream;
        if !self.connections.is_ending() {
            return stream.read(buf);
        }
        let most = buf.len().min(self.left);
        let count = stream.read(&mut buf[..most])?;
        self.left = self.left.saturating_sub(count);
        Ok(count)
    }
}
