//! A server before it runs, and the fault that is printed after its run.
ghost use Rattle.std.specs.Prelude.{◌≡◌, [], IfOk, IsErr, IsOk, MatchResult};
ghost use Rattle.std.specs.Process.{exit_status};
ghost use Rattle.share_base.specs.declared.version.Version.TheVariants.{Two};

use share_base::Version;
use share_journal::Journal;
use share_served::{AuditFile, Reason, RunFault, ServeFault, Sockets, has_file};
use share_words::{ServeOrders, Shown};
use std::alloc::Global;
use std::fs::Files;
use std::io;
use std::io::{Eprint, ErrorKind};
use std::net::{Net, TcpListener, TcpStream};
use std::process::ExitCode;
use thiserror::Error;

/// Why a server did not run, or what went wrong in its run, with the word of the command line that it is about.
#[derive(Clone, Copy, Debug, Error)]
pub enum Unserved<'a> {
    /// Memory was refused.
    #[error("out of memory")]
    NoMemory,
    /// The file of the audit could not be made, or the audit could not be written.
    #[error("cannot write the audit {0}: {1}")]
    Audit(Shown<'a>, Reason),
    /// The file of the audit exists, and is not to be replaced.
    #[error("{0} exists: --force replaces it")]
    Exists(Shown<'a>),
    /// The server cannot listen on an address.
    #[error("cannot listen on {0}: {1}")]
    Listen(Shown<'a>, Reason),
    /// The uplink's peer could not be reached.
    #[error("cannot connect to {0}: {1}")]
    Connect(Shown<'a>, Reason),
    /// The run had a fault.
    #[error("{0}")]
    Run(RunFault),
}

fn listen<'a, R: Net<Listener = TcpListener, Stream = TcpStream>>(
    rt: &R,
    address: &'a str,
) -> Result<TcpListener, Unserved<'a>> {
    match TcpListener::bind(rt, address) {
        Ok(listener) => Ok(listener),
        Err(fault) => Err(Unserved::Listen(Shown(address), Reason(fault))),
    }
}

// Connects to the uplink's peer. A verbose server prints that it waits for it.
fn connect<'a, R>(rt: &R, orders: ServeOrders<'a>) -> Result<TcpStream, Unserved<'a>>
where
    R: Net<Listener = TcpListener, Stream = TcpStream> + Eprint,
{
    let address = Shown(orders.uplink);
    if orders.is_verbose {
        let _ = eprintln!(rt; "waiting for the uplink at {address}");
    }
    match TcpStream::connect(rt, orders.uplink) {
        Ok(uplink) => Ok(uplink),
        Err(fault) => Err(Unserved::Connect(address, Reason(fault))),
    }
}

// Listens on both addresses, and connects to the uplink's peer.
fn sockets<'a, R>(rt: &R, orders: ServeOrders<'a>) -> Result<Sockets, Unserved<'a>>
where
    R: Net<Listener = TcpListener, Stream = TcpStream> + Eprint,
{
    let ingress = listen(rt, orders.ingress)?;
    let control = listen(rt, orders.control)?;
    let uplink = connect(rt, orders)?;
    Ok(Sockets {
        ingress,
        control,
        uplink,
    })
}

// Opens the file of the audit. One that exists is refused, unless it is to be replaced.
fn audit_file<'a, R: Files>(
    rt: &'a R,
    alloc: Global,
    orders: ServeOrders<'a>,
) -> Result<AuditFile<'a, R>, Unserved<'a>> {
    let path = orders.audit;
    if !orders.is_forced && has_file(rt, path) {
        return Err(Unserved::Exists(Shown(path)));
    }
    match AuditFile::open(rt, alloc, path, orders.is_forced) {
        Ok(audit) => Ok(audit),
        Err(fault) if fault.kind() == ErrorKind::OutOfMemory => Err(Unserved::NoMemory),
        Err(fault) => Err(Unserved::Audit(Shown(path), Reason(fault))),
    }
}

/// The needs of a run, in this order: a journal of version 2, the file of an audit, sockets. At a fault what was made
/// already is dropped by calls, which keeps the proof short.
pub fn prepared<'a, R>(
    rt: &'a R,
    alloc: Global,
    orders: ServeOrders<'a>,
) -> Result<(Journal, AuditFile<'a, R>, Sockets), Unserved<'a>>
where
    R: Net<Listener = TcpListener, Stream = TcpStream> + Files + Eprint,
    ensures { IfOk result (λ made. made.0 ≡ record { life = orders.entry.life; version = Two; entries = [] }) }
{
    let Ok(mut journal) = Journal::new(alloc, orders.life) else {
        return Err(Unserved::NoMemory);
    };
    journal.choose(Version::Two);
    let audit = match audit_file(rt, alloc, orders) {
        Ok(audit) => audit,
        Err(fault) => {
            drop(journal);
            return Err(fault);
        }
    };
    match sockets(rt, orders) {
        Ok(sockets) => Ok((journal, audit, sockets)),
        Err(fault) => {
            drop(journal);
            drop(audit);
            Err(fault)
        }
    }
}

/// The fault of a run whose audit goes to this file, if there is one, and why the audit was not written.
pub fn result_of_run<'a>(
    served: Result<(), RunFault>,
    audit: &'a str,
    why: Option<io::Error>,
) -> Result<(), Unserved<'a>>
    ensures { MatchResult result (λ _. IsOk served) (λ _. IsErr served) }
{
    match served {
        Ok(()) => Ok(()),
        Err(fault) if fault.kind == ServeFault::Audit => {
            let why = why.unwrap_or(io::Error::from(ErrorKind::Other));
            Err(Unserved::Audit(Shown(audit), Reason(why)))
        }
        Err(fault) => Err(Unserved::Run(fault)),
    }
}

/// Prints the fault of a service, if there is one.
pub fn tell_served(rt: &impl Eprint, served: Result<(), Unserved<'_>>) -> ExitCode
    ensures { MatchResult served.entry (λ _. exit_status result ≡ 0) (λ _. exit_status result ≡ 1) }
{
    match served {
        Ok(()) => ExitCode::SUCCESS,
        Err(fault) => {
            // The exit status shows the fault even if standard error takes no text.
            let _ = eprintln!(rt; "stridelink: {fault}");
            ExitCode::FAILURE
        }
    }
}
