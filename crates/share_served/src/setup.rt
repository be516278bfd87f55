//! A new link over its sockets, before it is served.
ghost use Rattle.std.specs.Prelude.{◌≡◌, ◌≢◌, ◌≤◌, ◌⊎◌, [], true, IfOk, IfErr};
ghost use Rattle.std.specs.IoError.{error_kind};
ghost use Rattle.share_base.specs.declared.version.Version.TheVariants.{Two};
ghost use Rattle.share_model.specs.lists.Each.{Each};
ghost use Rattle.share_ingress.specs.Ends.{new_ends, new_intake};
ghost use Rattle.share_served.specs.Faults.{bare};
ghost use Rattle.share_served.specs.Shutdown.{CanServe, RefusesToBegin, is_new};

use crate::faults::{RunFault, ServeFault};
use share_base::Version;
use share_connections::{Connections, Listening, Reason, Uplink, UplinkSocket};
use share_core::Engine;
use share_ingress::{IngressEnd, Intake, queue};
use share_journal::{Journal, Recorder};
use share_locked::Pace;
use share_model::{PlainWriter, Rates};
use std::alloc::Global;
use std::io;
use std::io::{Eprint, ErrorKind};
use std::net::{TcpListener, TcpStream};
use std::sync::Arc;

/// The number of places that the queue has.
const QUEUE_CAPACITY: usize = 256;

/// The number of connections, and the ways in which the server behaves.
#[derive(Clone, Copy, Debug, PartialEq, Eq)]
pub struct Plan {
    /// The number of ingress connections accepted.
    pub workers: usize,
    /// The number of control connections accepted, before those.
    pub clerks: usize,
    /// Whether standard error prints what happens.
    pub is_verbose: bool,
}

/// The listeners of the server, and the uplink that is connected.
#[derive(Drop)]
pub struct Sockets {
    pub ingress: TcpListener,
    pub control: TcpListener,
    pub uplink: TcpStream,
}

/// A new link that is not served yet, with both sides of its queue.
#[derive(Drop)]
pub struct NewLink<S: Rates> {
    pub recorder: Recorder<PlainWriter<Uplink>, S>,
    pub intake: Intake,
    pub ends: Vec<IngressEnd>,
}

/// The listeners, and the connections that are open.
#[derive(Drop)]
pub struct Listeners {
    pub ingress: TcpListener,
    pub control: TcpListener,
    pub connections: Arc<Connections>,
}

/// All that there is before a link is served. It is one value, so that a function that ends early drops it in one step,
/// which keeps the proof short.
#[derive(Drop)]
pub struct Setup<S: Rates> {
    pub new_link: NewLink<S>,
    pub listeners: Listeners,
    pub clerks: usize,
}

// A recorder of a new link of version 2 over the uplink.
fn recording<S: Rates + Drop>(
    alloc: Global,
    shelf: S,
    journal: Journal,
    uplink: Uplink,
) -> Result<Recorder<PlainWriter<Uplink>, S>, ServeFault>
    ensures empty { IfOk result (λ r. r.entries ≡ []) }
    ensures version { IfOk result (λ r. r.link.live.version ≡ Two) }
    ensures new { IfOk result (λ _. is_new journal ≡ true) }
    ensures refused { IfErr result (RefusesToBegin journal) }
{
    let mut engine = match Engine::new(alloc, shelf, journal.life(), PlainWriter(uplink)) {
        Ok(engine) => engine,
        Err(refused) => {
            drop(journal);
            return Err(ServeFault::from(refused));
        }
    };
    engine.choose(Version::Two);
    match Recorder::new(engine, journal) {
        Ok(recorder) => Ok(recorder),
        Err(back) => {
            drop(back);
            Err(ServeFault::Mismatch)
        }
    }
}

// A new link over the uplink, with a queue of `QUEUE_CAPACITY` places for these workers.
fn link_over<S: Rates + Drop>(
    alloc: Global,
    shelf: S,
    journal: Journal,
    uplink: Uplink,
    workers: usize,
) -> Result<NewLink<S>, ServeFault>
    requires { (1 ≤ workers) × (workers ≤ 8) }
    ensures empty { IfOk result (λ new_link. new_link.recorder.entries ≡ []) }
    ensures version { IfOk result (λ new_link. new_link.recorder.link.live.version ≡ Two) }
    ensures new { IfOk result (λ _. is_new journal ≡ true) }
    ensures queue { IfOk result (λ new_link.
        (new_link.intake ≡ new_intake new_link.intake.link QUEUE_CAPACITY workers)
        × (new_link.ends.items ≡ new_ends new_link.intake.link QUEUE_CAPACITY workers)) }
    ensures linked { IfOk result (λ new_link. Each (λ e. e.link ≡ new_link.intake.link) new_link.ends.items) }
    ensures refused { IfErr result (RefusesToBegin journal) }
{
    let recorder = recording(alloc, shelf, journal, uplink)?;
    match queue(alloc, QUEUE_CAPACITY, workers) {
        Ok((intake, ends)) => Ok(NewLink {
            recorder,
            intake,
            ends,
        }),
        Err(refused) => {
            drop(recorder);
            Err(ServeFault::from(refused))
        }
    }
}

// The uplink, and the writer of the link over it.
fn writer_over(alloc: Global, uplink: TcpStream) -> Result<(Arc<UplinkSocket>, Uplink), ServeFault>
    ensures { IfErr result (λ fault. fault ≡ ServeFault.NoMemory) }
{
    let _ = uplink.set_nodelay(true);
    let Ok(socket) = Arc::new(alloc, UplinkSocket::new(uplink)) else {
        return Err(ServeFault::NoMemory);
    };
    let writer = Uplink::new(&socket)?;
    Ok((socket, writer))
}

// The fault if listeners cannot be shared.
fn fault_of_listeners(fault: io::Error) -> RunFault
    ensures memory { error_kind fault ≡ ErrorKind.OutOfMemory → result ≡ bare ServeFault.NoMemory }
    ensures others { error_kind fault ≢ ErrorKind.OutOfMemory → result.kind ≡ ServeFault.Accept }
    ensures either { (result ≡ bare ServeFault.NoMemory) ⊎ (result.kind ≡ ServeFault.Accept) }
{
    match fault.kind() {
        ErrorKind::OutOfMemory => RunFault::from(ServeFault::NoMemory),
        _ => RunFault {
            kind: ServeFault::Accept,
            reason: Some(Reason(fault)),
        },
    }
}

// The connections at these listeners, none yet, with room for those of a plan.
fn no_connections(
    alloc: Global,
    ingress: &TcpListener,
    control: &TcpListener,
    socket: Arc<UplinkSocket>,
    plan: Plan,
) -> Result<Arc<Connections>, RunFault>
    ensures { IfErr result (λ fault. (fault ≡ bare ServeFault.NoMemory) ⊎ (fault.kind ≡ ServeFault.Accept)) }
{
    let listening = match Listening::of(control, ingress) {
        Ok(listening) => listening,
        Err(fault) => {
            drop(socket);
            return Err(fault_of_listeners(fault));
        }
    };
    let pace = Pace::new(alloc, QUEUE_CAPACITY, plan.workers)?;
    let room = plan.workers.saturating_add(plan.clerks);
    let connections = Connections::new(alloc, listening, socket, pace, room, plan.is_verbose)?;
    match Arc::new(alloc, connections) {
        Ok(connections) => Ok(connections),
        Err(_) => Err(RunFault::from(ServeFault::NoMemory)),
    }
}

// The listeners, with no connection yet, and the writer of the link.
fn open_listeners(
    alloc: Global,
    sockets: Sockets,
    plan: Plan,
) -> Result<(Listeners, Uplink), RunFault>
    ensures { IfErr result (λ fault. (fault ≡ bare ServeFault.NoMemory) ⊎ (fault.kind ≡ ServeFault.Accept)) }
{
    let Sockets {
        ingress,
        control,
        uplink,
    } = sockets;
    let (socket, writer) = writer_over(alloc, uplink)?;
    let connections = no_connections(alloc, &ingress, &control, socket, plan)?;
    let listeners = Listeners {
        ingress,
        control,
        connections,
    };
    Ok((listeners, writer))
}

// Prints where the server listens.
fn log_addresses<R: Eprint>(rt: &R, listeners: &Listeners) {
    if let Ok(address) = listeners.ingress.local_addr() {
        let line = format_args!("listening for ingress on {address}");
        listeners.connections.log(rt, line);
    }
    if let Ok(address) = listeners.control.local_addr() {
        let line = format_args!("listening for control on {address}");
        listeners.connections.log(rt, line);
    }
}

/// A new link with these sockets. Once all is there, it prints where the server listens.
pub fn set_up<R: Eprint, S: Rates + Drop>(
    rt: &R,
    alloc: Global,
    shelf: S,
    journal: Journal,
    sockets: Sockets,
    plan: Plan,
) -> Result<Setup<S>, RunFault>
    requires { CanServe plan.workers plan.clerks }
    ensures empty { IfOk result (λ s. s.new_link.recorder.entries ≡ []) }
    ensures version { IfOk result (λ s. s.new_link.recorder.link.live.version ≡ Two) }
    ensures new { IfOk result (λ _. is_new journal ≡ true) }
    ensures queue { IfOk result (λ s.
        (s.new_link.intake ≡ new_intake s.new_link.intake.link QUEUE_CAPACITY plan.workers)
        × (s.new_link.ends.items ≡ new_ends s.new_link.intake.link QUEUE_CAPACITY plan.workers)) }
    ensures linked { IfOk result (λ s. Each (λ e. e.link ≡ s.new_link.intake.link) s.new_link.ends.items) }
    ensures clerks { IfOk result (λ s. s.clerks ≡ plan.clerks) }
    ensures refused { IfErr result (λ fault. RefusesToBegin journal fault.kind) }
{
    let (listeners, uplink) = match open_listeners(alloc, sockets, plan) {
        Ok(both) => both,
        Err(fault) => {
            drop(shelf);
            drop(journal);
            return Err(fault);
        }
    };
    match link_over(alloc, shelf, journal, uplink, plan.workers) {
        Ok(new_link) => {
            log_addresses(rt, &listeners);
            let clerks = plan.clerks;
            Ok(Setup {
                new_link,
                listeners,
                clerks,
            })
        }
        Err(kind) => {
            drop(listeners);
            Err(RunFault::from(kind))
        }
    }
}
