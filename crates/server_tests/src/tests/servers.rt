//! Servers whose standard input has ended. They find no memory before they run: each of their requests is refused in
//! turn, up to that of the first thread. Requests are refused by the allocator of `.ci/allocator.c` alone, with which
//! `.ci/memory` runs this test; with any other one server runs and ends. Or their journal is of version 1.

use crate::tests::assertions::same;
use crate::tests::made::journal_of;
use running_tests::ByByte;
use share_base::Version;
use share_journal::Journal;
use share_model::allocator::WAS_REFUSED;
use share_model::{Tape, asks};
use share_server::{Keep, Plan, ServeFault, Sockets, serve_on};
use std::alloc::Global;
use std::io::Eprint;
use std::net::{Ipv4Addr, Net, Shutdown, SocketAddr, TcpListener, TcpStream};
use std::process::Abort;
use std::sync::Wait;
use std::thread::Threads;
use std::time::Clock;

/// The life of the links, which none of them spends.
const LIFE: u64 = 1 << 16;

/// More requests than a server makes before it starts a thread.
const REQUESTS: u16 = 200;

/// One connection of each kind.
const PLAN: Plan = Plan {
    workers: 1,
    clerks: 1,
    is_verbose: false,
};

/// Keeps the audit in memory.
#[derive(Drop)]
struct InMemory<'a> {
    tape: &'a mut Tape,
}

impl<'a> Keep for InMemory<'a> {
    ghost kept = { λ _ _ _. Unit {0} };

    fn keep(self, journal: &Journal) -> bool {
        journal.audit(self.tape).is_ok()
    }
}

fn listener<T: Net<Listener = TcpListener, Stream = TcpStream> + Abort>(rt: &T) -> TcpListener {
    TcpListener::bind(rt, SocketAddr::from((Ipv4Addr::LOCALHOST, 0)))
        .ok()
        .expect(rt, "a listener")
}

// The sockets of a server, and the peer of its uplink.
fn open_sockets<T>(rt: &T) -> (Sockets, TcpStream)
where
    T: Net<Listener = TcpListener, Stream = TcpStream> + Abort,
{
    let peers = listener(rt);
    let address = peers.local_addr().ok().expect(rt, "an address");
    let uplink = TcpStream::connect(rt, address).ok().expect(rt, "an uplink");
    let (peer, _) = peers.accept().ok().expect(rt, "a peer");
    drop(peers);
    let sockets = Sockets {
        ingress: listener(rt),
        control: listener(rt),
        uplink,
    };
    (sockets, peer)
}

// Serves a link whose standard input has ended, if no request or not the one of this number is refused. Gives the
// result, whether a request was refused, and whether nothing was kept and shown.
fn serves<T>(
    rt: &T,
    alloc: Global,
    version: Version,
    request: u16,
) -> (Result<(), ServeFault>, bool, bool)
where
    T: Net<Listener = TcpListener, Stream = TcpStream>
        + Threads
        + Wait
        + Clock
        + Eprint
        + Abort
        + Copy
        + Send
        + Sync
        + Drop
        + 'static,
{
    let (sockets, peer) = open_sockets(rt);
    let _ = peer.shutdown(Shutdown::Write);
    let journal = journal_of(rt, alloc, version, LIFE);
    let mut audit = Tape::new(alloc);
    let mut report = Tape::new(alloc);
    let keep = InMemory { tape: &mut audit };
    let until = Some(b"".as_slice());
    let _no = asks!(alloc, request);
    let served = serve_on(
        rt,
        alloc,
        ByByte,
        journal,
        sockets,
        PLAN,
        until,
        keep,
        &mut report,
    )
    .map_err(|fault| fault.kind);
    let was_refused = asks!(alloc, WAS_REFUSED);
    let is_silent = audit.bytes().is_empty() && report.bytes().is_empty();
    drop(peer);
    drop(audit);
    drop(report);
    (served, was_refused, is_silent)
}

#[test]
fn servers_run_once_their_memory_is_found(rt: HostRuntime) {
    for request in 1..REQUESTS {
        let (served, was_refused, is_silent) = serves(&rt, rt.alloc(), Version::Two, request);
        if !was_refused {
            same(&rt, request, (served, is_silent), (Ok(()), false));
            return;
        }
        if !is_silent {
            same(&rt, request, served, Err(ServeFault::Thread));
            return;
        }
        same(&rt, request, served, Err(ServeFault::NoMemory));
    }
    panic!(&rt; "no thread is started");
}

#[test]
fn a_journal_of_version_1_is_refused(rt: HostRuntime) {
    let ended = serves(&rt, rt.alloc(), Version::One, REQUESTS);
    let refused = (Err(ServeFault::Mismatch), false, true);
    same(&rt, "version 1", ended, refused);
}
