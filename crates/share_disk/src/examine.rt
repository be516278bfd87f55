//! The state of a text that was found in the folder.

use crate::book_end::BookEnd;
use crate::books_csv::BooksCsv;
use crate::files::read_if_there;
use crate::folder::Folder;
use crate::measure::{digest_of, whole_length};
use crate::rates::rates_of;
use crate::time::time_of;
use crate::totals::book_totals;
use share_bill::{Bill, Kind, NotBilled, Wrong, run_text};
use share_catalog::{BookTariff, Closing, FileKind, Row, Tariffs, TextKind, Time, Totals};
use share_model::{PlainReader, Rates, Tape};
use share_report::report;
use share_tariff::PlainShelf;
use std::alloc::Global;
use std::fs::{File, Files, OpenOptions};
use std::io;
use std::io::{ErrorKind, Seek, SeekFrom};

/// Why a text is no run.
#[derive(Clone, Copy, Debug)]
pub enum NoRun {
    /// It was set aside before.
    SetAside,
    /// No file has the tariffs of the book.
    NoTariffs,
    /// The line of this number, counted from 1, is not the next one of a book.
    Line { number: u64, wrong: Wrong },
}

/// The outcome of a text.
#[derive(Drop)]
pub(crate) enum Examined {
    /// An open text without a whole first line.
    Headless,
    /// A text, which is no run for this reason, if there is one.
    Text { end: BookEnd, fault: Option<NoRun> },
}

/// Examines the text of a book, in the file of this kind. An open text is cut after its last line feed.
pub(crate) fn examine<R: Files<File = File>>(
    rt: &R,
    alloc: Global,
    folder: &Folder,
    number: u64,
    kind: FileKind,
) -> io::Result<Examined> {
    let path = folder.path_of(alloc, number, kind)?;
    let mut file = OpenOptions::new()
        .read(true)
        .write(true)
        .open(rt, path.as_str())?;
    let changed = time_of_change(&file)?;
    if kind == FileKind::Open && cut_text(&mut file)? == 0 {
        return Ok(Examined::Headless);
    }
    let tariffs = tariffs_of(rt, alloc, folder, number)?;
    let sha256 = digest_of(&mut file)?;
    let ran = run_file(alloc, file, kind, tariffs.as_slice())?;
    let (why, fault) = match ran.fault {
        None => (Closing::Cut, None),
        Some(fault) => (Closing::Bad, Some(fault)),
    };
    let row = Row {
        book: number,
        kind: ran.kind,
        opened: changed,
        closed: changed,
        why,
        tariffs,
        totals: ran.totals,
        sha256,
    };
    let end = BookEnd {
        row,
        report: ran.report,
    };
    Ok(Examined::Text { end, fault })
}

// The time of the last change of a file.
fn time_of_change(file: &File) -> io::Result<Time> {
    match time_of(file.metadata()?.modified()?) {
        Some(time) => Ok(time),
        None => Err(io::Error::from(ErrorKind::InvalidData)),
    }
}

// Cuts off what follows the last line feed of a text, and returns the number of bytes left. The time of the last change
// stays.
fn cut_text(file: &mut File) -> io::Result<u64> {
    let found = file.metadata()?;
    let whole = whole_length(file)?;
    if whole < found.len() {
        file.set_len(whole)?;
        file.set_modified(found.modified()?)?;
        file.sync_all()?;
    }
    Ok(whole)
}

// The tariffs of a book: those of its file, and otherwise of its row. None if neither has any.
fn tariffs_of<R: Files<File = File>>(
    rt: &R,
    alloc: Global,
    folder: &Folder,
    number: u64,
) -> io::Result<Tariffs> {
    let path = folder.path_of(alloc, number, FileKind::Tariffs)?;
    if let Some(bytes) = read_if_there(rt, alloc, path.as_str())? {
        if let Some(tariffs) = tariffs_in(bytes.as_slice()) {
            return Ok(tariffs);
        }
    }
    match BooksCsv::open(rt, alloc, folder)?.row_of(number)? {
        Some(row) => Ok(row.tariffs),
        None => Ok(Tariffs::none()),
    }
}

// The tariffs of a line with its line feed.
fn tariffs_in(bytes: &[u8]) -> Option<Tariffs> {
    match bytes {
        [line @ .., b'\n'] => Tariffs::read(line),
        _ => None,
    }
}

// The outcome of the run of a text.
#[derive(Drop)]
struct Ran {
    kind: TextKind,
    totals: Totals,
    report: Vec<u8>,
    fault: Option<NoRun>,
}

impl Ran {
    // A text that is no run.
    fn no_run(alloc: Global, kind: FileKind, fault: NoRun) -> Ran {
        Ran {
            kind: kind_in_name(kind),
            totals: Totals {
                events: 0,
                packets: 0,
                bytes: 0,
                units: 0,
                amount: 0,
            },
            report: Vec::new(alloc),
            fault: Some(fault),
        }
    }
}

// The kind of a text that is no run, by the name of its file.
fn kind_in_name(kind: FileKind) -> TextKind {
    match kind {
        FileKind::Audit => TextKind::Whole,
        _ => TextKind::Lengths,
    }
}

// Runs the text of a file, under these tariffs.
fn run_file(alloc: Global, file: File, kind: FileKind, tariffs: &[BookTariff]) -> io::Result<Ran> {
    if kind == FileKind::Bad {
        return Ok(Ran::no_run(alloc, kind, NoRun::SetAside));
    }
    let Ok(shelf) = PlainShelf::new(rates_of(alloc, tariffs)?) else {
        return Ok(Ran::no_run(alloc, kind, NoRun::NoTariffs));
    };
    let mut file = file;
    file.seek(SeekFrom::Start(0))?;
    match run_text(alloc, shelf, PlainReader(file)) {
        Ok(run) => ran_of(alloc, &run.bill),
        Err(NotBilled::Line { number, wrong }) => {
            Ok(Ran::no_run(alloc, kind, NoRun::Line { number, wrong }))
        }
        Err(NotBilled::NoMemory) => Err(io::Error::from(ErrorKind::OutOfMemory)),
        Err(NotBilled::Input) => Err(io::Error::from(ErrorKind::Other)),
    }
}

// The totals and the report of a run.
fn ran_of<S: Rates>(alloc: Global, bill: &Bill<S>) -> io::Result<Ran> {
    let mut text = Tape::new(alloc);
    if report(bill.engine(), &mut text).is_err() {
        return Err(io::Error::from(ErrorKind::OutOfMemory));
    }
    Ok(Ran {
        kind: kind_of_run(bill.kind()),
        totals: book_totals(bill.engine()),
        report: text.into_bytes(),
        fault: None,
    })
}

fn kind_of_run(kind: Kind) -> TextKind {
    match kind {
        Kind::Whole => TextKind::Whole,
        Kind::Lengths => TextKind::Lengths,
    }
}
