//! A gateway from its file to its exit status.
ghost use Rattle.std.specs.Prelude.{◌≡◌, ◌↔◌, true};
ghost use Rattle.std.specs.Process.{exit_status};

use crate::recovery::open_books;
use crate::refusing::{refuse_file, refuse_folder};
use crate::texts::fail;
use share_billing::Shown;
use share_gateway_words::GatewayOrders;
use share_loading::read_file;
use share_reactor::{FirstBook, Left, Options, SystemFiles, run};
use share_settings::Settings;
use std::alloc::Global;
use std::io::{Eprint, Print};
use std::net::Net;
use std::process::ExitCode;
use std::sync::Wait;
use std::thread::Threads;
use std::time::Clock;

// The status of a gateway that ended: whether the last book was closed and nothing was left.
fn status_of(left: Left) -> ExitCode
    ensures { (exit_status result ≡ 0) ↔ ((left.is_closed ≡ true) × (left.packets ≡ 0) × (left.bytes ≡ 0)) }
{
    if left.is_closed && left.packets == 0 && left.bytes == 0 {
        ExitCode::SUCCESS
    } else {
        ExitCode::FAILURE
    }
}

// Says that a file has no fault.
fn accept(rt: &impl Print, path: &str) -> ExitCode {
    let path = Shown(path);
    match println!(rt; "{path}: ok") {
        Ok(()) => ExitCode::SUCCESS,
        Err(_) => ExitCode::FAILURE,
    }
}

// Runs a gateway whose folder is open.
fn run_in<R>(
    rt: &R,
    alloc: Global,
    orders: GatewayOrders<'_>,
    settings: Settings,
    first: FirstBook,
) -> ExitCode
where
    R: SystemFiles + Net + Clock + Wait + Threads + Sync + Eprint,
{
    let options = Options {
        grace: orders.grace,
        until_eof: orders.is_until_eof,
        is_quiet: orders.is_quiet,
    };
    match run(rt, alloc, orders.file, settings, first, options) {
        Ok(left) => status_of(left),
        Err(fault) => fail(rt, fault),
    }
}

// Runs a gateway with these settings.
fn run_with<R>(rt: &R, alloc: Global, orders: GatewayOrders<'_>, settings: Settings) -> ExitCode
where
    R: SystemFiles + Net + Clock + Wait + Threads + Sync + Eprint,
{
    match open_books(rt, alloc, settings.books.folder.as_str(), orders.is_quiet) {
        Ok(first) => run_in(rt, alloc, orders, settings, first),
        Err(fault) => {
            let status = refuse_folder(rt, settings.books.folder.as_str(), fault);
            drop(settings);
            status
        }
    }
}

/// Runs a gateway or checks its file, and returns the exit status.
pub(crate) fn gateway_given<R>(rt: &R, alloc: Global, orders: GatewayOrders<'_>) -> ExitCode
where
    R: SystemFiles + Net + Clock + Wait + Threads + Sync + Print + Eprint,
{
    match read_file(rt, alloc, orders.file) {
        Err(refused) => refuse_file(rt, orders.file, &refused),
        Ok(settings) => {
            if orders.is_check {
                drop(settings);
                accept(rt, orders.file)
            } else {
                run_with(rt, alloc, orders, settings)
            }
        }
    }
}
