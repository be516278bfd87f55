//! The answers on control connections.
ghost use Rattle.std.specs.Prelude.{◌≡◌, ◌≤◌, [], length};
ghost use Rattle.share_base.specs.declared.version.Version.TheVariants.{Two};

use crate::failing::Taken::Most;
use crate::failing::{Taken, Taking};
use crate::tests::assertions::{holds, same};
use crate::tests::made::{offers, recording};
use running_tests::ByByte;
use share_control::{Attended, How, attend};
use share_ingress::{IngressEnd, Intake, queue};
use share_journal::Recorder;
use share_locked::{Admit, Clerk, LinkBrand, Locked, Pace, Port};
use share_model::{PlainReader, Rates, Tape, Totals};
use share_script::IncomingLines;
use std::alloc::Global;
use std::io;
use std::io::{Error, ErrorKind, Read, Write};
use std::marker::Brand;
use std::process::Abort;
use std::sync::{Mutex, Wait};
use std::test::Fail;

/// A life that is not spent.
const LIFE: u64 = 100;

/// The bytes of a connection, with a bar after what one read gives, and two bars if a read is interrupted. Then come
/// what is written, with a bar after what one write call takes, and the number of commands made.
static CONVERSATIONS: [(&[u8], &[u8], usize); 12] = [
    (b"", b"", 0),
    (b"nonsense\n", b"no 3 Syntax\n|", 0),
    (
        b"turn 1\nsend a 61\ntorn\naudit 1\n\nturn 0\n",
        b"no 3 Syntax\nno 3 Syntax\nno 3 Syntax\nno 3 Syntax\nno 3 Syntax\nno 3 Syntax\n|",
        0,
    ),
    // The first line chooses no version here.
    (b"audit 2\nmkcur x\n", b"no 3 Syntax\nok\n|", 1),
    (
        b"audit 1\n|mkcur x\n|audit 2\n",
        b"no 3 Syntax\n|ok\n|no 3 Syntax\n|",
        1,
    ),
    (
        b"report\n",
        b"clock                            0\n\
        accepted                         0\n\
        written                          0\n\
        torn                             0\n\
        waiting                          0\n\
        dropped                          0\n\
        bytes                            0\n\
        past                             0\n\
        tickets                          0\n\
        pass                             0\n\
        link                             0\n\
        end\n|",
        0,
    ),
    (b"mkcur x\nmkcur x\n", b"ok\nno 9 Taken\n|", 2),
    (b"mkcur x\n|mkcur y\n", b"ok\n|ok\n|", 2),
    (b"mkcur x\nmkcur y", b"ok\n|", 1),
    (b"mk|||cur x|\n", b"ok\n|", 1),
    (
        b"open a 4 1\n|mktkt 1 base\nfund 1 flow a\n",
        b"flow 1\n|ticket 1\nok\n|",
        3,
    ),
    // The second line is cut.
    (b"open a 4 1\nmktkt 1 ba", b"flow 1\n|", 1),
];

/// The lines of a session.
const SESSION: &[u8] =
    b"open a 4 1\nmktkt 1 base\nfund 1 flow a\nturn 1\nmkcur x\nmkcur x\nclose a\n";

/// The answers, and the number of commands made, if that many bytes of the session come. They are at least the first
/// number, and fewer than the second.
static CUTS: [(usize, usize, &[u8], usize); 8] = [
    (0, 11, b"", 0),
    (11, 24, b"flow 1\n", 1),
    (24, 38, b"flow 1\nticket 1\n", 2),
    (38, 45, b"flow 1\nticket 1\nok\n", 3),
    (45, 53, b"flow 1\nticket 1\nok\nno 3 Syntax\n", 3),
    (53, 61, b"flow 1\nticket 1\nok\nno 3 Syntax\nok\n", 4),
    (
        61,
        69,
        b"flow 1\nticket 1\nok\nno 3 Syntax\nok\nno 9 Taken\n",
        5,
    ),
    (
        69,
        70,
        b"flow 1\nticket 1\nok\nno 3 Syntax\nok\nno 9 Taken\nclosed 1 0 0\n",
        6,
    ),
];

/// Three lines that come one by one, and the same lines in one read.
const APART: &[u8] = b"open a 4 1\n|mktkt 1 base\n|fund 1 flow a\n";

const TOGETHER: &[u8] = b"open a 4 1\nmktkt 1 base\nfund 1 flow a\n";

/// Lines of all kinds, of which three make commands.
const ALL_KINDS: &[u8] =
    b"report\nturn 65535\nsend a 61\ntorn\naudit 2\nnonsense\nmkcur x\nhold a\nresume a\n";

/// The answers to this many empty lines are more than the 65536 bytes that wait for a write call.
const EMPTY_LINES: usize = 5500;

const ALL: Taken = Most(usize::MAX);

const NONE: Taken = Most(0);

const BROKEN: Taken = Taken::Error(ErrorKind::BrokenPipe);

const RESET: Taken = Taken::Error(ErrorKind::ConnectionReset);

const BLOCKED: Taken = Taken::Error(ErrorKind::WouldBlock);

const AGAIN: Taken = Taken::Error(ErrorKind::Interrupted);

const END: How = How::End;

const FAULT: How = How::WriteFault;

/// The answers to three lines that come one by one, as they are written: one, two and all of them.
const ONE: &[u8] = b"flow 1\n|";

const TWO: &[u8] = b"flow 1\n|ticket 1\n|";

const THREE: &[u8] = b"flow 1\n|ticket 1\n|ok\n|";

/// Lines, the answers of write calls in turn, what is written, the end of the connection, and the number of commands
/// made. An offer that a refused call left is offered once more when the connection is dropped, so a call that stays
/// refused is refused twice.
static WRITES: [(&[u8], &[Taken], &[u8], How, usize); 20] = [
    (APART, &[BROKEN, BROKEN], b"", FAULT, 1),
    (APART, &[RESET, RESET], b"", FAULT, 1),
    (APART, &[BLOCKED, BLOCKED], b"", FAULT, 1),
    (APART, &[NONE, NONE], b"", FAULT, 1),
    (APART, &[ALL, BROKEN, BROKEN], ONE, FAULT, 2),
    (APART, &[ALL, BLOCKED, BLOCKED], ONE, FAULT, 2),
    (APART, &[ALL, NONE, NONE], ONE, FAULT, 2),
    (APART, &[ALL, ALL, BROKEN, BROKEN], TWO, FAULT, 3),
    (APART, &[ALL, ALL, NONE, NONE], TWO, FAULT, 3),
    (APART, &[ALL, ALL, ALL, BROKEN], THREE, END, 3),
    (APART, &[AGAIN], THREE, END, 3),
    (
        APART,
        &[AGAIN, ALL, AGAIN, AGAIN, ALL, AGAIN],
        THREE,
        END,
        3,
    ),
    (APART, &[Most(1)], b"f|low 1\n|ticket 1\n|ok\n|", END, 3),
    (
        APART,
        &[Most(6), Most(1), Most(8), Most(1), Most(2)],
        b"flow 1|\n|ticket 1|\n|ok|\n|",
        END,
        3,
    ),
    (
        APART,
        &[Most(3), AGAIN, Most(2)],
        b"flo|w |1\n|ticket 1\n|ok\n|",
        END,
        3,
    ),
    (APART, &[Most(3), BROKEN, BROKEN], b"flo|", FAULT, 1),
    (APART, &[Most(3), NONE, NONE], b"flo|", FAULT, 1),
    // The rest goes out when the connection is dropped, and what was taken does not go out again.
    (APART, &[Most(3), BROKEN], b"flo|w 1\n|", FAULT, 1),
    (
        TOGETHER,
        &[Most(9), BROKEN, BROKEN],
        b"flow 1\nti|",
        FAULT,
        3,
    ),
    (TOGETHER, &[Most(9)], b"flow 1\nti|cket 1\nok\n|", END, 3),
];

/// A reader that gives what is before each bar, at most `most` bytes a call. It is interrupted if that is nothing, and
/// may fail at the end.
#[derive(Drop)]
struct Pieces<'a> {
    rest: &'a [u8],
    most: usize,
    fails: bool,
}

// The number of bytes before the first bar.
fn piece_length(bytes: &[u8], most: usize) -> usize
    ensures fits { result ≤ length bytes.now }
    ensures few { result ≤ most }
{
    let count = bytes
        .iter()
        .position(|byte| *byte == b'|')
        .unwrap_or(bytes.len());
    count.min(most)
}

impl<'a> Read for Pieces<'a> {
    fn read(&mut self, buf: &mut [u8]) -> io::Result<usize> {
        if self.rest.is_empty() {
            return if self.fails {
                Err(Error::from(ErrorKind::ConnectionReset))
            } else {
                Ok(0)
            };
        }
        let count = piece_length(self.rest, self.most.min(buf.len()));
        buf[..count].copy_from_slice(&self.rest[..count]);
        self.rest = &self.rest[count..];
        if let Some((b'|', rest)) = self.rest.split_first() {
            self.rest = rest;
        }
        if count == 0 {
            return Err(Error::from(ErrorKind::Interrupted));
        }
        Ok(count)
    }
}

/// A writer that takes what its list says, with a bar after each call that takes something. It fails if the link is
/// locked.
#[derive(Drop)]
struct Barred<'a, S: Rates, L: LinkBrand> {
    port: &'a Port<Tape, S, L>,
    bytes: &'a mut Vec<u8>,
    taking: Taking<'a>,
}

impl<'a, S: Rates, L: LinkBrand> Write for Barred<'a, S, L> {
    fn write(&mut self, buf: &[u8]) -> io::Result<usize> {
        if self.port.try_lock().is_none() {
            return Err(Error::from(ErrorKind::BrokenPipe));
        }
        let count = self.taking.next(buf.len())?;
        if count > 0 {
            self.bytes.extend_from_slice(&buf[..count])?;
            self.bytes.push(b'|')?;
        }
        Ok(count)
    }

    fn flush(&mut self) -> io::Result<()> {
        Ok(())
    }
}

/// The bytes of a connection, the most of it that a read gives, whether the last read fails, and the answers of write
/// calls.
#[derive(Clone, Copy)]
struct Asked<'a> {
    life: u64,
    bytes: &'a [u8],
    most: usize,
    fails: bool,
    taken: &'a [Taken],
}

// A connection without faults.
fn whole<'a>(bytes: &'a [u8]) -> Asked<'a> {
    Asked {
        life: LIFE,
        bytes,
        most: usize::MAX,
        fails: false,
        taken: &[],
    }
}

// The number of entries that the journal of a link has.
fn entries_of<T: Wait, S: Rates, L: LinkBrand>(rt: &T, port: &Port<Tape, S, L>) -> u64 {
    port.lock(rt).recorder().journal().len()
}

// Answers a connection to a link by this clerk.
fn attended_by<T: Wait + Abort, S: Rates, L: LinkBrand>(
    rt: &T,
    alloc: Global,
    port: &Port<Tape, S, L>,
    clerk: Clerk<L>,
    asked: Asked<'_>,
    written: &mut Vec<u8>,
) -> Attended<L> {
    let pieces = Pieces {
        rest: asked.bytes,
        most: asked.most,
        fails: asked.fails,
    };
    let input = IncomingLines::new(alloc, PlainReader(pieces))
        .ok()
        .expect(rt, "a chunk");
    let output = Barred {
        port,
        bytes: written,
        taking: Taking::new(asked.taken),
    };
    let pace = Pace::new(alloc, 1, 1).expect(rt, "a pace");
    attend(rt, alloc, port, &pace, clerk, input, output)
}

// Answers a connection to a link of this name. Returns its end, and the number of its clerk's receipts, which is that
// of the journal's entries.
fn attended<T, S, L>(
    rt: &T,
    alloc: Global,
    recorder: Recorder<Tape, S>,
    intake: Intake,
    asked: Asked<'_>,
    written: &mut Vec<u8>,
) -> (How, usize)
where
    T: Wait + Abort,
    S: Rates + Drop,
    L: LinkBrand,
    requires empty { recorder.entries ≡ [] }
    requires version { recorder.link.live.version ≡ Two }
    requires link { intake.link ≡ L.link }
    requires nothing { intake.popped ≡ [] }
{
    let mut locked = Locked::<Tape, S, L>::new(recorder, intake);
    let clerk = locked.clerk(alloc).expect(rt, "a clerk");
    let port = Mutex::new(locked);
    let Attended { how, clerk } = attended_by(rt, alloc, &port, clerk, asked, written);
    let entries = entries_of(rt, &port);
    drop(port);
    let receipts = clerk.receipts().len();
    same(rt, "entries", entries, receipts as u64);
    drop(clerk);
    (how, receipts)
}

// The counts and the contents of a link.
fn totals_of<T: Wait, S: Rates, L: LinkBrand>(rt: &T, port: &Port<Tape, S, L>) -> Totals {
    port.lock(rt).recorder().engine().totals()
}

// Whether nothing was written on a link.
fn is_unwritten<T: Wait, S: Rates, L: LinkBrand>(rt: &T, port: &Port<Tape, S, L>) -> bool {
    port.lock(rt)
        .recorder()
        .engine()
        .writer()
        .bytes()
        .is_empty()
}

// Checks that the next offer in the queue of a link is the n-th of its worker.
fn admits<T: Wait + Abort, S: Rates, L: LinkBrand>(rt: &T, port: &Port<Tape, S, L>, wanted: u64) {
    let found = port.lock(rt).admit(rt);
    let number = match &found {
        Admit::Admitted { n, .. } => Some(*n),
        _ => None,
    };
    same(rt, "an offer", number, Some(wanted));
}

// Checks that lines make commands and nothing else of a link with a frame to send and an offer in its queue.
fn leaves_the_rest<T, S, L>(
    rt: &T,
    alloc: Global,
    recorder: Recorder<Tape, S>,
    intake: Intake,
    end: IngressEnd,
)
where
    T: Wait + Abort,
    S: Rates + Drop,
    L: LinkBrand,
    requires empty { recorder.entries ≡ [] }
    requires version { recorder.link.live.version ≡ Two }
    requires link { intake.link ≡ L.link }
    requires nothing { intake.popped ≡ [] }
{
    let mut end = end;
    let mut written = Vec::new(alloc);
    let mut locked = Locked::<Tape, S, L>::new(recorder, intake);
    let clerk = locked.clerk(alloc).expect(rt, "a clerk");
    let port = Mutex::new(locked);
    let opened = attended_by(rt, alloc, &port, clerk, whole(TOGETHER), &mut written);
    offers(rt, alloc, &mut end);
    admits(rt, &port, 1);
    offers(rt, alloc, &mut end);
    let before = totals_of(rt, &port);
    let asked = attended_by(
        rt,
        alloc,
        &port,
        opened.clerk,
        whole(ALL_KINDS),
        &mut written,
    );
    let is_left = totals_of(rt, &port) == before;
    holds(rt, "no turn and no arrival", is_left);
    holds(rt, "nothing is written", is_unwritten(rt, &port));
    same(rt, "entries", entries_of(rt, &port), 7);
    same(rt, "commands", asked.clerk.receipts().len(), 6);
    admits(rt, &port, 2);
    drop(asked);
    drop(port);
    drop(end);
    drop(written);
}

fn connections_leave_the_rest<T: Wait + Abort, S: Rates + Drop>(rt: &T, alloc: Global, shelf: S) {
    let recorder = recording(rt, alloc, shelf, LIFE);
    let (intake, mut ends) = queue(alloc, 2, 1).expect(rt, "a queue");
    let end = ends.pop().expect(rt, "an end");
    leaves_the_rest::<T, S, Brand>(rt, alloc, recorder, intake, end);
}

// Answers a connection to a new link.
fn answered<T: Wait + Abort, S: Rates + Drop>(
    rt: &T,
    alloc: Global,
    shelf: S,
    asked: Asked<'_>,
    written: &mut Vec<u8>,
) -> (How, usize) {
    let recorder = recording(rt, alloc, shelf, asked.life);
    let (intake, ends) = queue(alloc, 1, 1).expect(rt, "a queue");
    drop::<Vec<IngressEnd>>(ends);
    attended::<T, S, Brand>(rt, alloc, recorder, intake, asked, written)
}

fn are_answered<T: Wait + Abort, S: Rates + Copy>(
    rt: &T,
    alloc: Global,
    shelf: S,
) -> Result<(), Fail> {
    for &(bytes, want, commands) in &CONVERSATIONS {
        let mut written = Vec::new(alloc);
        let ended = answered(rt, alloc, shelf, whole(bytes), &mut written);
        same(rt, bytes, ended, (How::End, commands));
        same(rt, bytes, written.as_slice(), want);
    }
    Ok(())
}

// Checks the answers if the session is cut after `cut` bytes, or the read after them fails.
fn is_cut<T: Wait + Abort, S: Rates + Copy>(
    rt: &T,
    alloc: Global,
    shelf: S,
    cut: usize,
    want: &[u8],
    commands: usize,
) {
    let bytes = SESSION.get(..cut).expect(rt, "a beginning");
    for &most in &[1, 7, usize::MAX] {
        for &(fails, how) in &[(false, How::End), (true, How::ReadFault)] {
            let mut written = Vec::new(alloc);
            let asked = Asked {
                most,
                fails,
                ..whole(bytes)
            };
            let ended = answered(rt, alloc, shelf, asked, &mut written);
            written.retain(|byte| *byte != b'|');
            let right = ended == (how, commands) && written.as_slice() == want;
            holds(rt, (cut, most, how), right);
            drop(written);
        }
    }
}

// Checks that whole lines alone are answered, wherever the session is cut and whichever read fails.
fn cut_lines_are_no_lines<T: Wait + Abort, S: Rates + Copy>(rt: &T, alloc: Global, shelf: S) {
    for &(first, end, want, commands) in &CUTS {
        for cut in first..end {
            is_cut(rt, alloc, shelf, cut, want, commands);
        }
    }
}

// Checks that answers go out once and in order, whatever the write calls take, up to one that is refused.
fn answers_go_out_once<T: Wait + Abort, S: Rates + Copy>(rt: &T, alloc: Global, shelf: S) {
    for (number, &(bytes, taken, want, how, commands)) in WRITES.iter().enumerate() {
        let mut written = Vec::new(alloc);
        let asked = Asked {
            taken,
            ..whole(bytes)
        };
        let ended = answered(rt, alloc, shelf, asked, &mut written);
        let right = ended == (how, commands) && written.as_slice() == want;
        holds(rt, number, right);
        drop(written);
    }
}

// Checks that answers are written whole by calls that take `most` bytes each.
fn short_writes_go_on<T: Wait + Abort, S: Rates + Copy>(rt: &T, alloc: Global, shelf: S) {
    let want = b"flow 1\nticket 1\nok\n".as_slice();
    for most in 1..20 {
        let taken = [Most(most); 30];
        let mut written = Vec::new(alloc);
        let asked = Asked {
            taken: &taken,
            ..whole(TOGETHER)
        };
        let ended = answered(rt, alloc, shelf, asked, &mut written);
        written.retain(|byte| *byte != b'|');
        let right = ended == (How::End, 3) && written.as_slice() == want;
        holds(rt, (most, "bytes a call"), right);
        drop(written);
    }
}

// Checks that a line which begins so and has this many more bytes is no request, and the line after it has its own
// answer.
fn is_no_request<T: Wait + Abort, S: Rates + Copy>(
    rt: &T,
    alloc: Global,
    shelf: S,
    beginning: &[u8],
    more: usize,
) -> Result<(), Fail> {
    let mut lines = Vec::from_slice(alloc, beginning)?;
    for _ in 0..more {
        lines.push(b'6')?;
    }
    lines.extend_from_slice(b"\nmkcur x\n".as_slice())?;
    let mut written = Vec::new(alloc);
    let asked = whole(lines.as_slice());
    let ended = answered(rt, alloc, shelf, asked, &mut written);
    let right = ended == (How::End, 1) && written.as_slice() == b"no 3 Syntax\nok\n|".as_slice();
    holds(rt, (more, "bytes more"), right);
    Ok(())
}

/// The numbers of digits that a packet has in a line. First come those of 1 byte, and of as many bytes as a frame of
/// each version carries and of one more. Then come as many as a line of 20480 bytes has room for, and more than that.
static DIGITS: [usize; 8] = [2, 2980, 2982, 18000, 18002, 20472, 20474, 40000];

// Checks that neither a packet, however long, nor a line of more than 20480 bytes is a request.
fn packets_and_over_long_lines_are_no_requests<T: Wait + Abort, S: Rates + Copy>(
    rt: &T,
    alloc: Global,
    shelf: S,
) -> Result<(), Fail> {
    for &digits in &DIGITS {
        is_no_request(rt, alloc, shelf, b"send a ", digits)?;
    }
    is_no_request(rt, alloc, shelf, b"", 20481)
}

// Checks that only changes are answered with a spent life, and have no receipts.
fn spent_lives_are_told<T: Wait + Abort, S: Rates + Copy>(
    rt: &T,
    alloc: Global,
    shelf: S,
) -> Result<(), Fail> {
    let mut written = Vec::new(alloc);
    let asked = Asked {
        life: 1,
        ..whole(b"mkcur x\nmkcur y\ntorn\n")
    };
    let (how, receipts) = answered(rt, alloc, shelf, asked, &mut written);
    same(rt, "a spent life", (how, receipts), (How::End, 1));
    let wanted = b"ok\nno 2 Spent\nno 3 Syntax\n|".as_slice();
    same(rt, "a spent life", written.as_slice(), wanted);
    Ok(())
}

// Checks that no answer is written under the lock, even if lines that came together have more answers than may
// wait.
fn answers_are_written_outside_of_holds<T: Wait + Abort, S: Rates + Copy>(
    rt: &T,
    alloc: Global,
    shelf: S,
) -> Result<(), Fail> {
    let mut lines = Vec::new(alloc);
    for _ in 0..200 {
        lines.extend_from_slice(b"report\n".as_slice())?;
    }
    for _ in 0..8000 {
        lines.extend_from_slice(b"mkcur x\n".as_slice())?;
    }
    let mut written = Vec::new(alloc);
    let (how, _) = answered(rt, alloc, shelf, whole(lines.as_slice()), &mut written);
    same(rt, "many answers", how, How::End);
    Ok(())
}

// Checks that no line is obeyed after an answer could not be written, even if they came together.
fn lost_clients_are_not_obeyed<T: Wait + Abort, S: Rates + Copy>(
    rt: &T,
    alloc: Global,
    shelf: S,
) -> Result<(), Fail> {
    let mut lines = Vec::new(alloc);
    lines.resize(EMPTY_LINES, b'\n')?;
    lines.extend_from_slice(b"mkcur x\n".as_slice())?;
    let mut written = Vec::new(alloc);
    let asked = Asked {
        taken: &[BROKEN, BROKEN],
        ..whole(lines.as_slice())
    };
    let ended = answered(rt, alloc, shelf, asked, &mut written);
    same(rt, "a lost client", ended, (How::WriteFault, 0));
    holds(rt, "nothing is written", written.is_empty());
    Ok(())
}

#[test]
fn lines_of_control_connections(rt: HostRuntime) -> Result<(), Fail> {
    let alloc = rt.alloc();
    are_answered(&rt, alloc, ByByte)?;
    packets_and_over_long_lines_are_no_requests(&rt, alloc, ByByte)?;
    spent_lives_are_told(&rt, alloc, ByByte)?;
    answers_are_written_outside_of_holds(&rt, alloc, ByByte)?;
    cut_lines_are_no_lines(&rt, alloc, ByByte);
    answers_go_out_once(&rt, alloc, ByByte);
    short_writes_go_on(&rt, alloc, ByByte);
    lost_clients_are_not_obeyed(&rt, alloc, ByByte)?;
    connections_leave_the_rest(&rt, alloc, ByByte);
    Ok(())
}
