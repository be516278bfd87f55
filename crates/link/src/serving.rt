//! A service from its preparation to its result.
ghost use Rattle.std.specs.Prelude.{◌≡◌, OnOk};
ghost use Rattle.share_asked.specs.Rates.{program_rates};
ghost use Rattle.share_words.specs.Orders.{CanBeServed};
ghost use Rattle.link.specs.Serves.{HasServed};

use crate::audit::NotedAudit;
use crate::services::{Unserved, prepared, result_of_run};
use share_model::{PatientWriter, PlainWriter, Rates, TellingWriter};
use share_server::{Keep, Plan, serve_on};
use share_words::ServeOrders;
use std::alloc::Global;
use std::cell::Cell;
use std::fs::Files;
use std::io;
use std::io::{Eprint, Print, Printer, Read};
use std::net::{Net, TcpListener, TcpStream};
use std::sync::Wait;
use std::thread::Threads;
use std::time::Clock;

/// Serves a new link with the program's tariffs, as the command line asks. First its journal is made, then the file of
/// the audit is tried, and then the server listens and connects.
pub fn serve<'a, R, S, I>(
    rt: &'a R,
    alloc: Global,
    shelf: S,
    orders: ServeOrders<'a>,
    input: I,
) -> Result<(), Unserved<'a>>
where
    R: Net<Listener = TcpListener, Stream = TcpStream> + Files + Threads + Wait + Clock,
    R: Print + Eprint + Copy + Send + Sync + 'static,
    S: Rates + Send + Drop,
    I: Read + Send + Drop + 'static,
    requires rates { S.rates shelf ≡ program_rates }
    requires orders { CanBeServed orders.life orders.workers orders.clerks }
    ensures { OnOk result (HasServed ⟦<NotedAudit<'a, R> as Keep>⟧.kept
        ⟦<PatientWriter<PlainWriter<Printer<'a, R>>> as TellingWriter>⟧.told
        ⟦<PatientWriter<PlainWriter<Printer<'a, R>>> as TellingWriter>⟧.answers) }
{
    let (journal, audit, sockets) = match prepared(rt, alloc, orders) {
        Ok(all) => all,
        Err(fault) => {
            drop(shelf);
            drop(input);
            return Err(fault);
        }
    };
    let fault = Cell::new(None);
    let keep = NotedAudit {
        audit,
        fault: &fault,
    };
    let plan = Plan {
        workers: orders.workers as usize,
        clerks: orders.clerks as usize,
        is_verbose: orders.is_verbose,
    };
    let mut output = PatientWriter(PlainWriter(io::writer(rt)));
    let until = if orders.is_until_eof {
        Some(input)
    } else {
        drop(input);
        None
    };
    let served = serve_on(
        rt,
        alloc,
        shelf,
        journal,
        sockets,
        plan,
        until,
        keep,
        &mut output,
    );
    result_of_run(served, orders.audit, fault.get())
}
