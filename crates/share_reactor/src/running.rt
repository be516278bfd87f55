//! The run of a gateway, from its sockets to what was left.

use crate::reactor::{Ending, Options, Reactor};
use share_disk::{Folder, OpenText};
use share_gateway_sockets::GatewaySockets;
use share_messages::Messages;
use share_news::{News, NotRun};
use share_reload::{ControlHolds, Roster};
use share_rotation::{Books, Left, UseBooks, tariffs_of, with_books};
use share_settings::{Settings, Text};
use share_writer::{SystemFiles, write_while};
use std::alloc::Global;
use std::fs::{File, Files};
use std::io;
use std::io::Eprint;
use std::net::Net;
use std::sync::Wait;
use std::thread::Threads;
use std::time::Clock;

/// The first book, which is to be begun: its folder, and its number there.
#[derive(Drop)]
pub struct FirstBook {
    pub folder: Folder,
    pub number: u64,
}

/// Runs a gateway with the settings of the file at a path, until its end was asked for and is over. Its first book is
/// this one. Returns what was left.
pub fn run<R: SystemFiles + Net + Clock + Wait + Threads + Sync + Eprint>(
    rt: &R,
    alloc: Global,
    path: &str,
    settings: Settings,
    first: FirstBook,
    options: Options,
) -> Result<Left, NotRun> {
    let sockets = GatewaySockets::open(rt, alloc, &settings, options.until_eof)?;
    let FirstBook { folder, number } = first;
    match begin(rt, alloc, &settings, &folder, number) {
        Err(fault) => {
            sockets.remove_files(rt);
            drop(sockets);
            Err(no_book(alloc, &folder, number, fault))
        }
        Ok(text) => serve(
            rt, alloc, path, settings, &folder, number, text, sockets, options,
        ),
    }
}

// The fault of a first book that could not be begun.
fn no_book(alloc: Global, folder: &Folder, number: u64, fault: io::Error) -> NotRun {
    match Text::copy(alloc, folder.path()) {
        Ok(folder) => NotRun::Book {
            folder,
            number,
            fault,
        },
        Err(_) => NotRun::NoMemory,
    }
}

// Begins the files of the first book.
fn begin<R: Files<File = File>>(
    rt: &R,
    alloc: Global,
    settings: &Settings,
    folder: &Folder,
    number: u64,
) -> io::Result<OpenText> {
    let tariffs = tariffs_of(settings.tariffs.as_slice())?;
    folder.begin(rt, alloc, number, &tariffs)
}

// Runs the loop beside the threads of the disk.
fn serve<R: SystemFiles + Net + Clock + Wait + Threads + Sync + Eprint>(
    rt: &R,
    alloc: Global,
    path: &str,
    settings: Settings,
    folder: &Folder,
    number: u64,
    text: OpenText,
    sockets: GatewaySockets,
    options: Options,
) -> Result<Left, NotRun> {
    let mut sockets = sockets;
    let waker = sockets.waker()?;
    let running = Running {
        alloc,
        path,
        sockets,
        options,
    };
    write_while(rt, alloc, folder, text, &waker, move |queue| {
        with_books(rt, alloc, settings, number, queue, running)
    })??
}

// A gateway that has all but its books.
#[derive(Drop)]
struct Running<'a> {
    alloc: Global,
    path: &'a str,
    sockets: GatewaySockets,
    options: Options,
}

impl<R: Files<File = File> + Net + Clock + Wait + Eprint> UseBooks<R, Result<Left, NotRun>>
    for Running<'_> {
    // Runs the loop, and removes the files of Unix sockets at its end.
    fn use_books(self, rt: &R, books: &mut Books, settings: Settings) -> Result<Left, NotRun> {
        let Running {
            alloc,
            path,
            sockets,
            options,
        } = self;
        let mut reactor = reactor_of(alloc, settings, books, sockets, options)?;
        let left = reactor.run(rt, path);
        reactor.sockets.remove_files(rt);
        drop(reactor);
        Ok(left?)
    }
}

// The names and the numbers of the first tenants.
fn roster_of(alloc: Global, settings: &Settings) -> Result<Roster, NotRun> {
    match Roster::of(alloc, &settings.plan) {
        Ok(roster) => Ok(roster),
        Err(_) => Err(NotRun::NoMemory),
    }
}

// A gateway that is ready to run.
fn reactor_of<'b>(
    alloc: Global,
    settings: Settings,
    books: &'b mut Books,
    sockets: GatewaySockets,
    options: Options,
) -> Result<Reactor<'b>, NotRun> {
    let roster = roster_of(alloc, &settings)?;
    let holds = ControlHolds::new(alloc, &settings.plan)?;
    Ok(Reactor {
        alloc,
        sockets,
        books,
        news: News::new(Messages::new(alloc, options.is_quiet)),
        settings,
        roster,
        holds,
        grace: options.grace,
        ending: Ending::No,
    })
}
