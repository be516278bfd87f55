//! A link over sockets, from its first connection to its report.
ghost use Rattle.std.specs.Prelude.{◌≡◌, ◌≤◌, ◌⊎◌, [], Err, OnOk, vec_len, vec_capacity};
ghost use Rattle.share_base.specs.declared.version.Version.TheVariants.{Two};
ghost use Rattle.share_model.specs.lists.Each.{Each};
ghost use Rattle.share_served.specs.Faults.{bare};
ghost use Rattle.share_served.specs.declared.faults.ServeFault.TheVariants.{NoMemory};
ghost use Rattle.share_served.specs.Shutdown.{CanServe, HasItsReason, HasNotBegun, IsResultOf, IsRunClosed, WasServed};

use crate::threads::{Server, run};
use share_connections::end_at_eof;
use share_ingress::IngressEnd;
use share_journal::Journal;
use share_locked::{Clerk, LinkBrand, Locked};
use share_model::{Rates, TellingWriter};
use share_served::{
    EmptySlots, FoundFaults, Keep, Listeners, NewLink, Plan, Reasons, RunFault, Setup, Sockets,
    StoppedLink, close, filled, make_slots, set_up, take_clerks, take_ends, with_clerks,
};
use std::alloc::Global;
use std::io::{Eprint, Read};
use std::marker::Brand;
use std::sync::{Mutex, Wait};
use std::thread::Threads;
use std::time::Clock;

/// Serves a new link of version 2 with this journal, which is empty and of version 2, over these sockets. Accepts the
/// control connections and then the ingress connections, and runs until all have ended and what they brought is sent.
/// Then it settles, keeps the audit, and writes the report to the output, both even if something went wrong. If a
/// reader is given, its end ends the connections. The error is the first fault, in the order of `ServeFault`, with the
/// system's reason for it. If the run cannot begin, nothing is kept and nothing is written.
pub fn serve_on<R, S, I, K, O>(
    rt: &R,
    alloc: Global,
    shelf: S,
    journal: Journal,
    sockets: Sockets,
    plan: Plan,
    until: Option<I>,
    keep: K,
    output: &mut O,
) -> Result<(), RunFault>
where
    R: Threads + Wait + Clock + Eprint + Copy + Send + Sync + 'static,
    S: Rates + Send + Drop,
    I: Read + Send + Drop + 'static,
    K: Keep + Drop,
    O: TellingWriter,
    requires { CanServe plan.workers plan.clerks }
    ensures served { OnOk result (WasServed K.kept O.told O.answers keep output.old output.new) }
    ensures ends { IsRunClosed K.kept O.told O.answers keep output.old output.new result
        ⊎ HasNotBegun journal output.old output.new result }
{
    match set_up(rt, alloc, shelf, journal, sockets, plan) {
        Ok(setup) => { serve_as::<R, S, I, K, O, Brand>(rt, alloc, setup, until, keep, output) }
        Err(fault) => {
            drop(until);
            drop(keep);
            Err(fault)
        }
    }
}

// Serves the link of this name until all its connections have ended, and closes its books.
fn serve_as<R, S, I, K, O, L>(
    rt: &R,
    alloc: Global,
    setup: Setup<S>,
    until: Option<I>,
    keep: K,
    output: &mut O,
) -> Result<(), RunFault>
where
    R: Threads + Wait + Clock + Eprint + Copy + Send + Sync + 'static,
    S: Rates + Send + Drop,
    I: Read + Send + Drop + 'static,
    K: Keep + Drop,
    O: TellingWriter,
    L: LinkBrand + Send,
    requires empty { setup.new_link.recorder.entries ≡ [] }
    requires version { setup.new_link.recorder.link.live.version ≡ Two }
    requires link { setup.new_link.intake.link ≡ L.link }
    requires nothing { setup.new_link.intake.popped ≡ [] }
    requires linked { Each (λ e. e.link ≡ L.link) setup.new_link.ends.items }
    requires clerks { setup.clerks ≤ 8 }
    ensures { IsRunClosed K.kept O.told O.answers keep output.old output.new result
        ⊎ ((result ≡ Err (bare NoMemory)) × (output.new ≡ output.old)) }
{
    match make_slots(alloc, setup.new_link.ends.len(), setup.clerks) {
        Ok(slots) => {
            let ended = serve_all::<R, S, I, L>(rt, alloc, setup, slots, until);
            let reasons = ended.reasons(rt);
            result_of(close(rt, alloc, ended, keep, output), reasons)
        }
        Err(refused) => {
            drop(setup);
            drop(until);
            drop(keep);
            Err(RunFault::from(refused))
        }
    }
}

// The result of a run with these faults and reasons.
fn result_of(found: FoundFaults, reasons: Reasons) -> Result<(), RunFault>
    ensures result { IsResultOf found result }
    ensures reason { HasItsReason reasons result }
{
    match found.first() {
        None => Ok(()),
        Some(kind) => Err(reasons.explain(kind)),
    }
}

// Serves the link of this name until all its connections have ended.
fn serve_all<R, S, I, L>(
    rt: &R,
    alloc: Global,
    setup: Setup<S>,
    slots: EmptySlots<L>,
    until: Option<I>,
) -> StoppedLink<S, L>
where
    R: Threads + Wait + Eprint + Copy + Send + Sync + 'static,
    S: Rates + Send + Drop,
    I: Read + Send + Drop + 'static,
    L: LinkBrand + Send,
    requires empty { setup.new_link.recorder.entries ≡ [] }
    requires version { setup.new_link.recorder.link.live.version ≡ Two }
    requires link { setup.new_link.intake.link ≡ L.link }
    requires nothing { setup.new_link.intake.popped ≡ [] }
    requires linked { Each (λ e. e.link ≡ L.link) setup.new_link.ends.items }
    requires clerks { setup.clerks ≤ 8 }
    requires room { (vec_len setup.new_link.ends ≤ vec_capacity slots.ends)
        × (setup.clerks ≤ vec_capacity slots.clerks) }
    requires vacant { (slots.ends.items ≡ []) × (slots.clerks.items ≡ []) }
    ensures linked { Each (λ e. e.link ≡ L.link) result.ends.items }
{
    let Setup {
        new_link,
        listeners,
        clerks: count,
    } = setup;
    let NewLink {
        recorder,
        intake,
        ends,
    } = new_link;
    let Listeners {
        ingress,
        control,
        connections,
    } = listeners;
    let EmptySlots {
        clerks,
        ends: vacant,
        spare_clerks,
    } = slots;
    let mut spare = ends;
    let ends = filled(&mut spare, vacant);
    let mut locked = Locked::new(recorder, intake);
    let clerks = with_clerks(alloc, &mut locked, count, clerks);
    let server = Server::<S, L> {
        alloc,
        port: Mutex::new(locked),
        connections,
        control,
        ingress,
        clerks,
        ends,
    };
    let found = run_until(rt, &server, until);
    stopped_link(server, spare, spare_clerks, found)
}

// Runs all threads until the link has ended, and says which faults there were. If a reader is given, its end ends the
// connections.
fn run_until<R, S, I, L>(rt: &R, server: &Server<S, L>, until: Option<I>) -> FoundFaults
where
    R: Threads + Wait + Eprint + Copy + Send + Sync + 'static,
    S: Rates + Send,
    I: Read + Send + Drop + 'static,
    L: LinkBrand + Send,
{
    let mut found = FoundFaults::none();
    if let Some(input) = until {
        if !end_at_eof(rt, input, &server.connections) {
            found.thread = true;
            server.connections.begin_shutdown(rt);
        }
    }
    run(rt, server, found)
}

// A link after its service, with its ends and clerks in lists that have room for them.
fn stopped_link<S: Rates + Drop, L: LinkBrand>(
    server: Server<S, L>,
    spare: Vec<IngressEnd>,
    spare_clerks: Vec<Clerk<L>>,
    found: FoundFaults,
) -> StoppedLink<S, L>
    requires { Each (λ e. e.link ≡ L.link) spare.items }
    ensures { Each (λ e. e.link ≡ L.link) result.ends.items }
{
    let Server {
        port,
        connections,
        clerks,
        ends,
        ..
    } = server;
    StoppedLink {
        locked: port.into_inner(),
        ends: take_ends(ends, spare),
        clerks: take_clerks(clerks, spare_clerks),
        connections,
        found,
    }
}
