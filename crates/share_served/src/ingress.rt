//! The work at one ingress connection.
ghost use Rattle.std.specs.Io.{ReadsAtMost};

use crate::slots::BrandedEnd;
use share_connections::{ConnectionReader, Connections};
use share_ingress::{Done, Ended, Gate, IngressReader, Why, run_worker};
use share_locked::LinkBrand;
use share_model::PlainReader;
use std::alloc::Global;
use std::io::{ErrorKind, Read};
use std::net::TcpStream;
use std::sync::Wait;
use std::{io, thread};

/// The number of reads and repeated offers that a worker may make.
const TURNS: u64 = 1 << 40;

/// A reader of an ingress connection. The link hears when its worker has to wait for bytes, and when it waits no
/// more. Once the link has ended it gives nothing, so that a client that still writes sees that nobody reads.
#[derive(Drop)]
pub struct PacedReader<'a> {
    reader: ConnectionReader<'a>,
    worker: u64,
    is_blocking: bool,
}

impl<'a> PacedReader<'a> {
    pub fn new(reader: ConnectionReader<'a>, worker: u64) -> PacedReader<'a> {
        let is_blocking = reader.stream.set_nonblocking(true).is_err();
        reader.connections.pace().end_waiting(worker);
        PacedReader {
            reader,
            worker,
            is_blocking,
        }
    }

    // Waits for bytes and reads them.
    fn wait_and_read(&mut self, buf: &mut [u8]) -> io::Result<usize>
        ensures { ReadsAtMost result buf.new }
    {
        let pace = self.reader.connections.pace();
        pace.begin_waiting(self.worker);
        if !self.is_blocking {
            self.reader.stream.set_nonblocking(false)?;
        }
        let found = self.reader.read(buf);
        self.is_blocking = self.reader.stream.set_nonblocking(true).is_err();
        pace.end_waiting(self.worker);
        found
    }
}

impl<'a> Read for PacedReader<'a> {
    fn read(&mut self, buf: &mut [u8]) -> io::Result<usize> {
        if self.reader.connections.is_ingress_closed() {
            return Ok(0);
        }
        if self.is_blocking {
            return self.wait_and_read(buf);
        }
        match self.reader.read(buf) {
            Err(fault) if fault.kind() == ErrorKind::WouldBlock => self.wait_and_read(buf),
            found => found,
        }
    }
}

/// Lets a worker go on as far as the link allows, until the link has ended.
#[derive(Drop)]
struct AtPace<'a, R> {
    rt: &'a R,
    connections: &'a Connections,
    worker: u64,
}

impl<'a, R: Wait> Gate for AtPace<'a, R> {
    ghost told = { λ _ _ _. Unit {0} };

    fn before(&mut self, n: u64) {
        self.connections.pace().wait(self.rt, self.worker, n);
    }

    fn offered(&mut self, _n: u64) {
        self.connections.pace().ring();
    }

    // A worker at the link's pace finds the queue full only when the link has stopped taking offers.
    fn full(&mut self) -> bool {
        thread::yield_now();
        !self.connections.is_ingress_closed()
    }
}

/// Queues the records of the connection with this number until the connection or the link ends. Returns the end of the
/// queue, why the worker stopped, and the number of records that it queued.
pub fn work<R: Wait, L: LinkBrand>(
    rt: &R,
    alloc: Global,
    connections: &Connections,
    number: usize,
    stream: &TcpStream,
    branded: BrandedEnd<L>,
) -> (BrandedEnd<L>, Why, u64) {
    let worker = number as u64;
    let plain = ConnectionReader::new(stream, connections);
    let source = PlainReader(PacedReader::new(plain, worker));
    let Ok(reader) = IngressReader::new(alloc, source, TURNS) else {
        return (branded, Why::Ended(Ended::NoMemory), 0);
    };
    let gate = AtPace {
        rt,
        connections,
        worker,
    };
    let Done {
        end,
        gate,
        why,
        tally,
    } = run_worker(rt, reader, branded.into_end(), gate);
    drop(gate);
    connections.pace().begin_waiting(worker);
    (BrandedEnd::new(end), why, tally)
}

/// The word for why a worker stopped.
pub fn why_text(why: Why) -> &'static str {
    match why {
        Why::Ended(Ended::End) => "End",
        Why::Ended(Ended::Cut) => "Cut",
        Why::Ended(Ended::BadRecord) => "BadRecord",
        Why::Ended(Ended::Fault) => "Fault",
        Why::Ended(Ended::NoMemory) => "NoMemory",
        Why::Ended(Ended::Bound) => "Bound",
        Why::Stopped => "Stopped",
        Why::NotStarted => "NotStarted",
    }
}
