//! The uplink: the connection to which the frames go.

use share_locked::Stop;
use std::alloc::{AllocError, Global};
use std::io;
use std::io::{ErrorKind, Read, Write};
use std::net::{Shutdown, TcpStream};
use std::sync::Arc;
use std::sync::atomic::{AtomicI32, AtomicU64, Ordering};
use std::thread::Parker;
use std::time::{Clock, Duration, Instant};

/// The seconds in which bytes that the peer sent are read and thrown away.
const AWAY_SECONDS: u64 = 5;

/// The most read calls made for that.
const MOST_READS: u64 = 4096;

/// The most bytes that each of them reads.
const AWAY: usize = 4096;

/// Stands for no fault, in place of the system's number of a fault.
const NO_FAULT: i32 = 0;

/// Stands for a call that took nothing, which has no number.
const TOOK_NOTHING: i32 = -1;

/// Stands for a call that waited until the connection was ended for it, which has none either.
const TIMED_OUT: i32 = -2;

/// The connection, and two counts. One is the number of times that a write call on it began or ended, which is odd
/// during a call. The other is the number of calls that began since the last push.
#[derive(Drop)]
pub struct UplinkSocket {
    stream: TcpStream,
    steps: AtomicU64,
    busy: AtomicU64,
    // The system's number of the fault of the write call that failed.
    fault: AtomicI32,
    // Set when the connection is ended.
    is_torn: Stop,
    watcher: Parker,
}

/// The writer of the link. Its offers are write calls on the connection.
#[derive(Drop)]
pub struct Uplink {
    socket: Arc<UplinkSocket>,
}

impl UplinkSocket {
    pub fn new(stream: TcpStream) -> UplinkSocket {
        UplinkSocket {
            stream,
            steps: AtomicU64::new(0),
            busy: AtomicU64::new(0),
            fault: AtomicI32::new(NO_FAULT),
            is_torn: Stop::new(),
            watcher: Parker::new(),
        }
    }

    /// The parker of the thread that watches the connection. A write call that fails wakes it.
    pub fn watcher(&self) -> &Parker {
        &self.watcher
    }

    /// Why a write call failed, if one did: `TimedOut` if the connection had been ended for it.
    pub fn fault(&self) -> Option<io::Error> {
        match self.fault.load(Ordering::SeqCst) {
            NO_FAULT => None,
            TOOK_NOTHING => Some(io::Error::from(ErrorKind::WriteZero)),
            TIMED_OUT => Some(io::Error::from(ErrorKind::TimedOut)),
            number => Some(io::Error::from_raw_os_error(number)),
        }
    }

    // A write call failed, so the link makes no further one.
    fn fail(&self, number: i32) {
        let number = if self.is_torn.is_set() {
            TIMED_OUT
        } else {
            number
        };
        self.fault.store(number, Ordering::SeqCst);
        self.watcher.unpark();
    }

    // Notes what a write call of some bytes answered.
    fn note(&self, written: &io::Result<usize>, length: usize) {
        match written {
            Ok(0) if length > 0 => self.fail(TOOK_NOTHING),
            Ok(_) => (),
            Err(fault) if fault.kind() == ErrorKind::Interrupted => (),
            Err(fault) => self.fail(fault.raw_os_error().unwrap_or(TOOK_NOTHING)),
        }
    }

    /// The number of times that a write call began or ended. It is odd during a call.
    pub fn steps(&self) -> u64 {
        self.steps.load(Ordering::SeqCst)
    }

    /// Sends the bytes that the system holds back, since the link has nothing more to write at this moment.
    pub fn push(&self) {
        if self.busy.swap(0, Ordering::SeqCst) > 1 {
            let _ = self.stream.set_nodelay(true);
        }
    }

    // A write call begins. From the second one since the last push on the system may hold back a piece that fills no
    // segment until more comes.
    fn begin_write(&self) {
        let _ = self.steps.fetch_add(1, Ordering::SeqCst);
        if self.busy.fetch_add(1, Ordering::SeqCst) == 1 {
            let _ = self.stream.set_nodelay(false);
        }
    }

    fn end_write(&self) {
        let _ = self.steps.fetch_add(1, Ordering::SeqCst);
    }

    /// Ends the connection, and with it a write call that waits.
    pub fn tear(&self) {
        self.is_torn.set();
        let _ = self.stream.shutdown(Shutdown::Both);
    }

    /// Shuts the stream down for writing, so the peer sees its end.
    pub fn end_writing(&self) {
        let _ = self.stream.shutdown(Shutdown::Write);
    }

    /// Reads and throws away what the peer sent, until the peer ends or time is up. If a connection is closed with
    /// bytes unread, it is reset, and its last frames may be lost.
    pub fn read_away(&self, rt: &impl Clock) {
        let Ok(start) = Instant::now(rt) else {
            return;
        };
        let mut buffer = [0u8; AWAY];
        for _ in 0..MOST_READS {
            if !self.reads_more(rt, start, &mut buffer) {
                return;
            }
        }
    }

    // Makes one read call, and says whether one more may find more.
    fn reads_more(&self, rt: &impl Clock, start: Instant, buffer: &mut [u8]) -> bool {
        let Ok(past) = start.elapsed(rt) else {
            return false;
        };
        let Some(rest) = Duration::from_secs(AWAY_SECONDS).checked_sub(past) else {
            return false;
        };
        if self.stream.set_read_timeout(Some(rest)).is_err() {
            return false;
        }
        let mut stream = &self.stream;
        match stream.read(buffer) {
            Ok(count) => count > 0,
            Err(fault) => fault.kind() == ErrorKind::Interrupted,
        }
    }
}

impl Uplink {
    pub fn new(socket: &Arc<UplinkSocket>) -> Result<Uplink, AllocError> {
        Ok(Uplink {
            socket: Arc::try_clone(socket)?,
        })
    }
}

impl Write for Uplink {
    fn write(&mut self, buf: &[u8]) -> io::Result<usize> {
        self.socket.begin_write();
        let mut stream = &self.socket.stream;
        let written = stream.write(buf);
        self.socket.end_write();
        self.socket.note(&written, buf.len());
        written
    }

    fn flush(&mut self) -> io::Result<()> {
        Ok(())
    }
}
