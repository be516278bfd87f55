//! Control lines that are sent to a gateway, and their replies.
ghost use Rattle.std.specs.Prelude.{◌≡◌};
ghost use Rattle.std.specs.Process.{exit_status};

use crate::texts::fail;
use share_asking::{AskFault, ask};
use share_billing::Shown;
use share_gateway_words::AskOrders;
use share_settings::Listener;
use std::alloc::Global;
use std::io::{BufReader, Eprint, Error, Print, Read, Write};
use std::net::{Net, SocketAddr, TcpStream};
use std::os::unix::net::UnixStream;
use std::process::ExitCode;
use std::{fmt, io};

/// Why lines were not all answered.
#[derive(Clone, Copy, Debug)]
enum NotAsked {
    /// The connection could not be made.
    NotConnected(Error),
    Asked(AskFault),
}

impl From<AskFault> for NotAsked {
    fn from(fault: AskFault) -> NotAsked {
        NotAsked::Asked(fault)
    }
}

// Whether a fault is the connection's, and not that of the output or of memory.
fn is_of_connection(fault: AskFault) -> bool {
    matches!(fault, AskFault::Failed(_) | AskFault::Ended)
}

/// Why the lines to an address were not all answered.
#[derive(Clone, Copy, Debug)]
struct AskLine<'a> {
    address: &'a str,
    fault: NotAsked,
}

impl fmt::Display for AskLine<'_> {
    fn fmt<W: fmt::Write>(&self, f: &mut fmt::Formatter<W>) -> fmt::Result {
        let address = Shown(self.address);
        match self.fault {
            NotAsked::NotConnected(fault) => write!(f, "cannot connect to {address}: {fault}"),
            NotAsked::Asked(fault) if is_of_connection(fault) => write!(f, "{address}: {fault}"),
            NotAsked::Asked(fault) => write!(f, "{fault}"),
        }
    }
}

// Sends lines on a stream, by a reader of it that is buffered and by a writer of it, and prints the replies.
fn ask_on<S: Read + Write + Drop, T: Write, R: Print>(
    rt: &R,
    alloc: Global,
    lines: &[&str],
    requests: &mut T,
    stream: S,
) -> Result<bool, NotAsked> {
    let Ok(mut replies) = BufReader::new(alloc, stream) else {
        return Err(NotAsked::Asked(AskFault::NoMemory));
    };
    let mut output = io::writer(rt);
    let asked = ask(alloc, lines, requests, &mut replies, &mut output);
    drop(replies);
    Ok(asked?)
}

// Sends lines over TCP, and prints the replies.
fn ask_tcp<R: Net<Stream = TcpStream> + Print>(
    rt: &R,
    alloc: Global,
    lines: &[&str],
    address: SocketAddr,
) -> Result<bool, NotAsked> {
    match TcpStream::connect(rt, address) {
        Ok(stream) => ask_on(rt, alloc, lines, &mut &stream, &stream),
        Err(fault) => Err(NotAsked::NotConnected(fault)),
    }
}

// Sends lines over a Unix socket, and prints the replies.
fn ask_unix<R: Net + Print>(
    rt: &R,
    alloc: Global,
    lines: &[&str],
    path: &str,
) -> Result<bool, NotAsked> {
    match UnixStream::connect(rt, path) {
        Ok(stream) => ask_on(rt, alloc, lines, &mut &stream, &stream),
        Err(fault) => Err(NotAsked::NotConnected(fault)),
    }
}

// Sends lines, and prints the replies. Returns whether one is a refusal.
fn ask_at<R: Net<Stream = TcpStream> + Print>(
    rt: &R,
    alloc: Global,
    orders: &AskOrders<'_>,
) -> Result<bool, NotAsked> {
    let lines = orders.lines.as_slice();
    match &orders.listener {
        Listener::Tcp(address) => ask_tcp(rt, alloc, lines, *address),
        Listener::Unix(path) => ask_unix(rt, alloc, lines, path.as_str()),
    }
}

/// Sends lines to a gateway and prints the replies. Returns the exit status.
pub(crate) fn ask_given<R: Net<Stream = TcpStream> + Print + Eprint>(
    rt: &R,
    alloc: Global,
    orders: AskOrders<'_>,
) -> ExitCode {
    let asked = ask_at(rt, alloc, &orders);
    let address = orders.address;
    drop(orders);
    match asked {
        Ok(false) => ExitCode::SUCCESS,
        Ok(true) => ExitCode::FAILURE,
        Err(fault) => fail(rt, AskLine { address, fault }),
    }
}
