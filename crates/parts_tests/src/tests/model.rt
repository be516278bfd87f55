//! share_model: the wrappers of std's readers and writers, how patient a writer is, and the memory of a tape. The
//! traits of std say nothing of an error's kind, and no contract counts calls. So these wrong bodies meet every clause,
//! and tests alone see them. One reports an interruption as a failure, or a failure, of any kind or of one, as an
//! interruption. One reports an end, or 0 accepted bytes, as either. One makes no call for more than 4096 or 40000
//! bytes, or for none. One passes on half of the bytes. One makes a second call after one that was interrupted, failed
//! or accepted nothing. One flushes.
ghost use Rattle.std.specs.Prelude.{◌≤◌, IfOk};

use crate::tests::allocator::{is_steered, keeps_none, mark, refuse, was_refused};
use crate::tests::assertions::{holds, same};
use share_model::{
    Answer, Got, PatientWriter, PlainReader, PlainWriter, Tape, TellingReader, TellingWriter,
};
use std::alloc::{AllocError, Global};
use std::io;
use std::io::{ErrorKind, Read, Write};
use std::process::Abort;
use std::test::Fail;

// Whether these counts were returned.
fn are_counts(counts: Result<Vec<usize>, AllocError>, wanted: &[usize]) -> bool {
    match counts {
        Ok(counts) => counts.as_slice() == wanted,
        Err(_) => false,
    }
}

/// The longest piece and the longest buffer, in bytes.
const LONGEST: usize = 65536;

/// The answer of a call of std: how many of its bytes, or an error.
#[derive(Clone, Copy, Debug)]
enum StdAnswer {
    All,
    Half,
    Nothing,
    Error(ErrorKind),
}

/// The answer for each length, in turn.
static ANSWERS: [StdAnswer; 7] = [
    StdAnswer::All,
    StdAnswer::Error(ErrorKind::Interrupted),
    StdAnswer::Half,
    StdAnswer::Nothing,
    StdAnswer::Error(ErrorKind::WouldBlock),
    StdAnswer::Error(ErrorKind::BrokenPipe),
    StdAnswer::Error(ErrorKind::TimedOut),
];

/// Each kind of error but `Interrupted`.
static FAILURES: [ErrorKind; 41] = [
    ErrorKind::NotFound,
    ErrorKind::PermissionDenied,
    ErrorKind::ConnectionRefused,
    ErrorKind::ConnectionReset,
    ErrorKind::HostUnreachable,
    ErrorKind::NetworkUnreachable,
    ErrorKind::ConnectionAborted,
    ErrorKind::NotConnected,
    ErrorKind::AddrInUse,
    ErrorKind::AddrNotAvailable,
    ErrorKind::NetworkDown,
    ErrorKind::BrokenPipe,
    ErrorKind::AlreadyExists,
    ErrorKind::WouldBlock,
    ErrorKind::NotADirectory,
    ErrorKind::IsADirectory,
    ErrorKind::DirectoryNotEmpty,
    ErrorKind::ReadOnlyFilesystem,
    ErrorKind::FilesystemLoop,
    ErrorKind::StaleNetworkFileHandle,
    ErrorKind::InvalidInput,
    ErrorKind::InvalidData,
    ErrorKind::TimedOut,
    ErrorKind::WriteZero,
    ErrorKind::StorageFull,
    ErrorKind::NotSeekable,
    ErrorKind::QuotaExceeded,
    ErrorKind::FileTooLarge,
    ErrorKind::ResourceBusy,
    ErrorKind::ExecutableFileBusy,
    ErrorKind::Deadlock,
    ErrorKind::CrossesDevices,
    ErrorKind::TooManyLinks,
    ErrorKind::InvalidFilename,
    ErrorKind::ArgumentListTooLong,
    ErrorKind::Unsupported,
    ErrorKind::UnexpectedEof,
    ErrorKind::OutOfMemory,
    ErrorKind::InProgress,
    ErrorKind::Other,
    ErrorKind::Uncategorized,
];

/// Is interrupted for a number of calls, and then gives one answer. It counts its calls, and keeps the length of the
/// last one's bytes.
#[derive(Drop)]
struct Counting {
    interruptions: u64,
    answer: StdAnswer,
    calls: u64,
    flushes: u64,
    length: usize,
}

const UNCALLED: Counting = Counting {
    interruptions: 0,
    answer: StdAnswer::All,
    calls: 0,
    flushes: 0,
    length: 0,
};

impl Counting {
    // A call with `length` bytes.
    fn answer(&mut self, length: usize) -> io::Result<usize>
        ensures { IfOk result (λ count. count ≤ length) }
    {
        self.calls = self.calls.saturating_add(1);
        self.length = length;
        if self.calls <= self.interruptions {
            return Err(ErrorKind::Interrupted.into());
        }
        match self.answer {
            StdAnswer::All => Ok(length),
            StdAnswer::Half => Ok(length / 2),
            StdAnswer::Nothing => Ok(0),
            StdAnswer::Error(kind) => Err(kind.into()),
        }
    }

    // From here on it gives this answer, and counts from 0.
    fn begin(&mut self, answer: StdAnswer) {
        self.answer = answer;
        self.calls = 0;
    }

    // Whether it was called so often since `begin`, with `length` bytes.
    fn was_called(&self, calls: u64, length: usize) -> bool {
        self.calls == calls && self.length == length && self.flushes == 0
    }
}

impl Write for Counting {
    fn write(&mut self, buf: &[u8]) -> io::Result<usize> {
        self.answer(buf.len())
    }

    fn flush(&mut self) -> io::Result<()> {
        self.flushes = self.flushes.saturating_add(1);
        Ok(())
    }
}

impl Read for Counting {
    fn read(&mut self, buf: &mut [u8]) -> io::Result<usize> {
        self.answer(buf.len())
    }
}

// The answer to an offer of `length` bytes if std's call gives this one.
fn offered(answer: StdAnswer, length: usize) -> Answer {
    match answer {
        StdAnswer::All => Answer::Accepted(length),
        StdAnswer::Half => Answer::Accepted(length / 2),
        StdAnswer::Nothing => Answer::Accepted(0),
        StdAnswer::Error(ErrorKind::Interrupted) => Answer::Interrupted,
        StdAnswer::Error(_) => Answer::Failed,
    }
}

// The result of a read into `length` bytes if std's call gives this answer.
fn taken(answer: StdAnswer, length: usize) -> Got {
    match offered(answer, length) {
        Answer::Accepted(0) => Got::End,
        Answer::Accepted(count) => Got::Bytes(count),
        Answer::Interrupted => Got::Interrupted,
        Answer::Failed => Got::Failed,
    }
}

// Whether an offer and a read of this length are one call each, and report what std's call answered.
fn is_one_call(bytes: &mut [u8], answer: StdAnswer) -> bool {
    let length = bytes.len();
    let mut writer = PlainWriter(UNCALLED);
    writer.0.begin(answer);
    let is_offered = writer.offer(bytes) == offered(answer, length)
        && writer.0.was_called(1, length);
    if length == 0 {
        return is_offered;
    }
    let mut reader = PlainReader(UNCALLED);
    reader.0.begin(answer);
    is_offered
        && reader.take_bytes(bytes) == taken(answer, length)
        && reader.0.was_called(1, length)
}

#[test]
fn an_offer_and_a_read_are_one_call_with_all_bytes(rt: HostRuntime) -> Result<(), Fail> {
    let mut bytes = Vec::from_elem(rt.alloc(), b'.', LONGEST)?;
    for length in 0..=LONGEST {
        for &answer in &ANSWERS {
            let held = bytes.len();
            let piece = &mut bytes[..length.min(held)];
            holds(&rt, (answer, length), is_one_call(piece, answer));
        }
    }
    Ok(())
}

#[test]
fn every_error_but_an_interruption_is_a_failure(rt: HostRuntime) {
    let mut bytes = [b'.'; 9017];
    for &kind in &FAILURES {
        holds(&rt, kind, is_one_call(&mut bytes, StdAnswer::Error(kind)));
    }
}

/// The most times that a piece is offered in one call.
const OFFERS: u64 = 1_048_577;

const BROKEN: StdAnswer = StdAnswer::Error(ErrorKind::BrokenPipe);

/// The number of times that the writer is interrupted, and its answer then. Then come the answer to a piece of three
/// bytes, and the number of calls in all.
static PATIENCE: [(u64, StdAnswer, Answer, u64); 7] = [
    (0, StdAnswer::All, Answer::Accepted(3), 1),
    (7, StdAnswer::All, Answer::Accepted(3), 8),
    (OFFERS - 1, StdAnswer::All, Answer::Accepted(3), OFFERS),
    (OFFERS, StdAnswer::All, Answer::Interrupted, OFFERS),
    (0, BROKEN, Answer::Failed, 1),
    (3, BROKEN, Answer::Failed, 4),
    (OFFERS - 1, BROKEN, Answer::Failed, OFFERS),
];

// A patient writer over one that is interrupted so often.
fn patient(interruptions: u64, answer: StdAnswer) -> PatientWriter<PlainWriter<Counting>> {
    PatientWriter(PlainWriter(Counting {
        interruptions,
        answer,
        ..UNCALLED
    }))
}

#[test]
fn an_interrupted_offer_is_made_again(rt: HostRuntime) {
    for &(interruptions, answer, wanted, calls) in &PATIENCE {
        let mut writer = patient(interruptions, answer);
        let row = (interruptions, answer);
        same(&rt, row, writer.offer(b"abc"), wanted);
        holds(&rt, row, writer.0.0.was_called(calls, 3));
        drop(writer);
    }
    let mut writer = patient(OFFERS + 2, StdAnswer::All);
    for &wanted in &[Answer::Interrupted, Answer::Accepted(3)] {
        same(&rt, "two calls", writer.offer(b"abc"), wanted);
    }
    holds(&rt, "two calls", writer.0.0.was_called(OFFERS + 3, 3));
    drop(writer);
}

// A new tape is offered two bytes while a request is refused, and then two more.
fn is_refused_on(rt: &impl Abort, alloc: Global, tape: &mut Tape, request: u16, is_refused: bool) {
    refuse(alloc, request);
    let answer = tape.offer(b"ab");
    same(rt, request, was_refused(alloc), is_refused);
    let wanted = if is_refused {
        Answer::Failed
    } else {
        Answer::Accepted(2)
    };
    let held: &[u8] = if is_refused { b"" } else { b"ab" };
    let counts: &[usize] = if is_refused { &[] } else { &[2] };
    same(rt, request, (answer, tape.bytes()), (wanted, held));
    holds(rt, request, are_counts(tape.counts(alloc), counts));
    same(rt, request, tape.offer(b"cd"), Answer::Accepted(2));
    refuse(alloc, 1);
    let told = tape.counts(alloc).is_err();
    same(rt, (request, "counts"), was_refused(alloc), told);
}

// A tape that gives its bytes keeps nothing, and they are given back.
fn gives_its_bytes(rt: &impl Abort, alloc: Global) {
    mark(alloc);
    let mut tape = Tape::new(alloc);
    same(rt, "whole", tape.offer(b"ab"), Answer::Accepted(2));
    let bytes = tape.into_bytes();
    same(rt, "its bytes", bytes.as_slice(), b"ab".as_slice());
    drop(bytes);
    keeps_none(rt, "its bytes", alloc);
}

#[test]
fn a_piece_is_taken_once_its_memory_is_found(rt: HostRuntime) {
    let alloc = rt.alloc();
    gives_its_bytes(&rt, alloc);
    let is_steered = is_steered(alloc);
    for request in 1..4 {
        mark(alloc);
        let mut tape = Tape::new(alloc);
        is_refused_on(&rt, alloc, &mut tape, request, is_steered && request <= 2);
        drop(tape);
        keeps_none(&rt, request, alloc);
    }
}
