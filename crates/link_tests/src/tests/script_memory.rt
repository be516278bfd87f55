//! Lines and scripts that find no memory. Each run is made again and again: first its first request for memory is
//! refused, then its second, and so on, until none is refused. Requests are refused by the allocator of
//! `.ci/allocator.c` alone, with which `.ci/memory` runs these tests; with any other each run has its memory at once.

use super::allocator::{
    REQUESTS, asks_for_few, keeps_none, mark, refuse, refuse_each, takes_none, was_refused,
};
use super::assertions::{holds, prints, same};
use super::made::{LIFE, VERSIONS};
use super::script_faults::linewise;
use super::scripts::{ITS_OUTPUT, ONE_PACKET, print_written, with_zeros};
use super::tariffs::Four;
use share_base::{Event, HEADER_ROOM, Refusal, Reply, Turn, Version};
use share_core::Engine;
use share_model::allocator::REFUSE_EACH;
use share_model::{Got, Line, PlainWriter, ScriptedReader, Tape, TellingReader};
use share_script::{
    ScriptFault, print_bytes, read_line, run_script, write_event, write_line, write_reply,
    write_turn,
};
use std::alloc::Global;
use std::process::Abort;
use std::str::from_utf8;

/// A packet of 17 bytes, the fewest for which a line takes memory.
const LONG: &str = "send a 6162636465666768696a6b6c6d6e6f7071";

/// Packets of more than 16 bytes, why they are refused if no memory is found, and why with ample memory. What spells
/// no packet is reported before lack of memory.
static LONG_LINES: [(&str, Refusal, Option<Refusal>); 3] = [
    (LONG, Refusal::NoMemory, None),
    (
        "send a 6162636465666768696a6b6c6d6e6f707",
        Refusal::Syntax,
        Some(Refusal::Syntax),
    ),
    (
        "send a 6162636465666768696a6b6c6d6e6f707g",
        Refusal::Syntax,
        Some(Refusal::Syntax),
    ),
];

/// Lines that take no memory to be read, one of each kind.
const SHORT_LINES: &str = "\
    send a 6162636465666768696a6b6c6d6e6f70|mkcur x|rmcur x|mktkt 10 base|rmtkt 1|fund 1 cur x|fund 1 flow a|\
    unfund 1|open a 4 1|close a|hold a|resume a|amend 1 2|turn 65535|torn|report|audit 1|audit 2";

// Why a line is refused if each request for memory is, and whether one was.
fn read_without(alloc: Global, version: Version, line: &[u8]) -> (Option<Refusal>, bool) {
    refuse_each(alloc);
    let read = read_line(alloc, version, line);
    let refused = was_refused(alloc);
    (read.err(), refused)
}

/// Payloads that are out of range before memory is taken for them.
static TOO_LONG: [(Version, usize); 3] = [
    (Version::One, 1491),
    (Version::One, 9000),
    (Version::Two, 9001),
];

#[test]
fn only_a_long_packet_takes_memory_to_be_read(rt: HostRuntime) {
    let alloc = rt.alloc();
    for &version in &VERSIONS {
        for &(line, without, with) in &LONG_LINES {
            let (refusal, refused) = read_without(alloc, version, line.as_bytes());
            let wanted = if refused { Some(without) } else { with };
            same(&rt, line, refusal, wanted);
        }
        for line in SHORT_LINES.split('|') {
            let read = read_without(alloc, version, line.as_bytes());
            same(&rt, line, read, (None, false));
        }
    }
    for &(version, count) in &TOO_LONG {
        let line = with_zeros(&rt, alloc, b"send a ", count, b"");
        let read = read_without(alloc, version, line.as_slice());
        same(&rt, count, read, (Some(Refusal::Range), false));
        drop(line);
    }
}

// Whether the line sends this payload.
fn sends(line: &Line, payload: &[u8]) -> bool {
    match line {
        Line::Send { body, .. } => body.as_slice() == payload,
        _ => false,
    }
}

// The line is read as a packet of this payload, once its memory is found.
fn is_read_at_last(rt: &impl Abort, alloc: Global, version: Version, line: &[u8], payload: &[u8]) {
    for request in 1..REQUESTS {
        mark(alloc);
        refuse(alloc, request);
        let read = read_line(alloc, version, line);
        same(rt, request, read.is_err(), was_refused(alloc));
        match read {
            Err(refusal) => same(rt, request, refusal, Refusal::NoMemory),
            Ok(line) => {
                holds(rt, request, sends(&line, payload));
                return;
            }
        }
        keeps_none(rt, request, alloc);
    }
    panic!(rt; "there is none for good");
}

/// Lines that send that many zero bytes and end so, and why they are refused. Memory that is taken for one is given
/// back with it. It is for a header and a byte of each pair of digits alone.
static ENDS: [(usize, &[u8], Option<Refusal>); 4] = [
    (9000, b"", None),
    (9000, b"0", Some(Refusal::Syntax)),
    (8999, b"0g", Some(Refusal::Syntax)),
    (17, b"", None),
];

fn gives_back(rt: &impl Abort, alloc: Global, line: &[u8], pairs: usize, wanted: Option<Refusal>) {
    mark(alloc);
    let read = read_line(alloc, Version::Two, line);
    let bytes = u16::try_from(pairs.saturating_add(HEADER_ROOM)).unwrap_or(u16::MAX);
    asks_for_few(rt, pairs, alloc, bytes);
    same(rt, pairs, read.err(), wanted);
    keeps_none(rt, pairs, alloc);
}

#[test]
fn a_long_packet_is_read_once_its_memory_is_found(rt: HostRuntime) {
    let alloc = rt.alloc();
    for &version in &VERSIONS {
        is_read_at_last(&rt, alloc, version, LONG.as_bytes(), b"abcdefghijklmnopq");
    }
    let line = with_zeros(&rt, alloc, b"send a ", 9000, b"");
    is_read_at_last(&rt, alloc, Version::Two, line.as_slice(), &[0; 9000]);
    drop(line);
    for &(count, end, wanted) in &ENDS {
        let line = with_zeros(&rt, alloc, b"send a ", count, end);
        let pairs = count.saturating_add(end.len() / 2);
        gives_back(&rt, alloc, line.as_slice(), pairs, wanted);
        drop(line);
    }
}

// Each call that writes a line or an answer, to a writer with room.
fn writes(line: &Line, output: &mut Printed) -> bool {
    let reply = Reply::Refused(Refusal::NoFlow);
    write_line(line, output).is_ok()
        && write_event(&Event::Written(5), output).is_ok()
        && write_reply(&reply, output).is_ok()
        && write_turn(&Turn::Idle, output).is_ok()
        && print_bytes(output, b"hi").is_ok()
}

/// The lines that they write.
const WRITTEN: &[u8] =
    b"send a 6162636465666768696a6b6c6d6e6f7071\nturn 5\nno 7 NoFlow\nidle\nout 6869\n";

#[test]
fn lines_are_written_without_memory(rt: HostRuntime) {
    let alloc = rt.alloc();
    let line = read_line(alloc, Version::One, LONG.as_bytes())
        .ok()
        .expect(&rt, "a line");
    let mut output = roomy(&rt, alloc);
    refuse_each(alloc);
    let written = writes(&line, &mut output);
    takes_none(&rt, "a text", alloc);
    drop(line);
    prints(
        &rt,
        "texts",
        (written, output.0.as_slice()),
        (true, WRITTEN),
    );
    drop(output);
}

/// Gives a script by the line. Before one of its reads, counted from 1, it asks the allocator a question, and before
/// another one it has no more requests refused.
#[derive(Drop)]
struct Asking<'a> {
    alloc: Global,
    lines: ScriptedReader<'a>,
    reads: usize,
    from: usize,
    until: usize,
    question: u16,
}

impl<'a> TellingReader for Asking<'a> {
    ghost use Rattle.std.specs.Prelude.{Some};
    ghost use Rattle.share_model.specs.io.ScriptedReader.{ScriptedGives};

    ghost left = { λ reader. Some reader.lines.left };

    ghost gives = { λ before buffer got after. ScriptedGives before.lines buffer got after.lines };

    ghost tells = { λ before buffer got after did. did.gives };

    fn take_bytes(&mut self, buffer: &mut [u8]) -> Got {
        self.reads = self.reads.saturating_add(1);
        self.ask(self.reads);
        self.lines.take_bytes(buffer)
    }
}

impl<'a> Asking<'a> {
    // Asks what is to be asked before this read; 0 is before the buffers are made.
    fn ask(&self, read: usize) {
        if read == self.from {
            refuse(self.alloc, self.question);
        }
        if read == self.until {
            let _refused = was_refused(self.alloc);
        }
    }
}

/// Takes no memory.
pub(super) type Printed = PlainWriter<Vec<u8>>;

/// Runs a script on a new link, and prints the bytes that the link wrote. Returns how it ended, and whether a request
/// was refused.
fn ran(
    rt: &impl Abort,
    alloc: Global,
    life: u64,
    input: &mut Asking<'_>,
    output: &mut Printed,
) -> (Result<(), ScriptFault>, bool) {
    let engine = Engine::new(alloc, Four, life, Tape::new(alloc)).expect(rt, "a link");
    input.ask(0);
    let ended = run_script(alloc, engine, input, output);
    let refused = was_refused(alloc);
    match ended {
        Ok(engine) => {
            let printed = print_written(&engine, output);
            drop(engine);
            (printed, refused)
        }
        Err(fault) => (Err(fault), refused),
    }
}

/// A script of which some lines find no memory. Each of its reads gives a line. The row has its life and the script.
/// Then come the read that gives the first of these lines, counted from 1, and the read that gives the first line after
/// them. Read 0 is that of the buffers, which are made before the first read. Last come the texts that are printed
/// without memory for them, and with ample memory.
type Row<'a> = (u64, &'a [u8], (usize, usize), &'static [u8], &'static [u8]);

static ROWS: [Row<'static>; 10] = [
    (LIFE, ONE_PACKET, (0, 1), b"", ITS_OUTPUT),
    (
        LIFE,
        ONE_PACKET,
        (1, 2),
        b"no 1 NoMemory\nticket 1\nno 7 NoFlow\nno 7 NoFlow\nidle\nout -\n",
        ITS_OUTPUT,
    ),
    (
        LIFE,
        ONE_PACKET,
        (2, 3),
        b"flow 1\nno 1 NoMemory\nno 6 NoTicket\npacket 1 1\nidle\nout -\n",
        ITS_OUTPUT,
    ),
    // The tape finds none for the frame.
    (
        LIFE,
        ONE_PACKET,
        (5, 6),
        b"flow 1\nticket 1\nok\npacket 1 1\n",
        ITS_OUTPUT,
    ),
    // No number of a flow is taken, and the flow is opened when it is asked for again.
    (
        LIFE,
        b"open a 4 1\nopen a 4 1\nmktkt 1 base\nfund 1 flow a\nsend a 61\nturn 65535\n",
        (1, 2),
        b"no 1 NoMemory\nflow 1\nticket 1\nok\npacket 1 1\nwrote 1 1 13 whole\n\
            out 4c010000000100000001000161\n",
        b"flow 1\nno 9 Taken\nticket 1\nok\npacket 1 1\nwrote 1 1 13 whole\n\
            out 4c010000000100000001000161\n",
    ),
    (
        LIFE,
        b"mkcur x\nmktkt 5 x\nmkcur x\nmktkt 5 x\n",
        (1, 2),
        b"no 1 NoMemory\nno 5 NoCurrency\nok\nticket 1\nout -\n",
        b"ok\nticket 1\nno 9 Taken\nticket 2\nout -\n",
    ),
    // The refused packet takes no number.
    (
        LIFE,
        b"open a 4 1\nmktkt 1 base\nfund 1 flow a\n\
            send a 6162636465666768696a6b6c6d6e6f7071\nsend a 61\nturn 65535\n",
        (4, 5),
        b"flow 1\nticket 1\nok\nno 1 NoMemory\npacket 1 1\nwrote 1 1 13 whole\n\
            out 4c010000000100000001000161\n",
        b"flow 1\nticket 1\nok\npacket 1 1\npacket 1 2\nwrote 1 1 29 whole\n\
            out 4c01000000010000000100116162636465666768696a6b6c6d6e6f7071\n",
    ),
    // Lack of memory is no event of the life.
    (
        3,
        b"open a 4 1\nopen a 4 1\nmktkt 1 base\nfund 1 flow a\nturn 65535\n",
        (1, 2),
        b"no 1 NoMemory\nflow 1\nticket 1\nok\nno 2 Spent\nout -\n",
        b"flow 1\nno 9 Taken\nticket 1\nno 2 Spent\nno 2 Spent\nout -\n",
    ),
    // It is answered after a spent life.
    (
        1,
        b"open a 4 1\nsend a 6162636465666768696a6b6c6d6e6f7071\n",
        (2, 3),
        b"flow 1\nno 2 Spent\nout -\n",
        b"flow 1\nno 2 Spent\nout -\n",
    ),
    // The last line has no line feed, so it is answered when the end was read.
    (
        LIFE,
        b"torn\nopen a 4 1",
        (3, 4),
        b"idle\nno 1 NoMemory\nout -\n",
        b"idle\nflow 1\nout -\n",
    ),
];

/// The first rows are of one script.
const OF_ONE_SCRIPT: usize = 4;

// The end of a run that printed this: one that lacks memory prints no line of bytes.
fn ended(text: &[u8]) -> Result<(), ScriptFault> {
    for line in text.split_inclusive(|byte| *byte == b'\n') {
        if line.starts_with(b"out ") {
            return Ok(());
        }
    }
    Err(ScriptFault::NoMemory)
}

// A reader that has requests refused from one of its reads on, until another.
fn asking_reader<'a>(
    rt: &impl Abort,
    alloc: Global,
    script: &'a [u8],
    reads: (usize, usize),
    question: u16,
) -> Asking<'a> {
    Asking {
        alloc,
        lines: linewise(rt, alloc, script),
        reads: 0,
        from: reads.0,
        until: reads.1,
        question,
    }
}

/// A writer with room for all that is printed here.
pub(super) fn roomy(rt: &impl Abort, alloc: Global) -> Printed {
    PlainWriter(Vec::with_capacity(alloc, 4096).ok().expect(rt, "memory"))
}

// Plays a row in which the question is asked. Returns whether a request was refused.
fn plays(rt: &impl Abort, alloc: Global, row: &Row<'_>, question: u16) -> bool {
    let (life, script, reads, without, with) = *row;
    let name = (from_utf8(without).ok(), question);
    let mut input = asking_reader(rt, alloc, script, reads, question);
    let mut output = roomy(rt, alloc);
    mark(alloc);
    let (outcome, refused) = ran(rt, alloc, life, &mut input, &mut output);
    keeps_none(rt, name, alloc);
    let text = if refused { without } else { with };
    prints(
        rt,
        name,
        (outcome, output.0.as_slice()),
        (ended(text), text),
    );
    let is_unread = refused && reads.0 == 0;
    same(rt, name, input.reads == 0, is_unread);
    drop(input);
    drop(output);
    refused
}

fn finds_no_memory(rt: &impl Abort, alloc: Global, row: &Row<'_>) {
    let _refused = plays(rt, alloc, row, REFUSE_EACH);
    for request in 1..REQUESTS {
        if !plays(rt, alloc, row, request) {
            break;
        }
    }
}

// Whether one of the first rows prints this without memory.
fn is_of_a_row(text: &[u8]) -> bool {
    for row in &ROWS[..OF_ONE_SCRIPT] {
        if row.3 == text {
            return true;
        }
    }
    false
}

// Whichever request of a script is refused, it is that of one of the first rows.
fn a_request_is_refused(rt: &impl Abort, alloc: Global) {
    for request in 1..REQUESTS {
        let mut input = asking_reader(rt, alloc, ONE_PACKET, (0, usize::MAX), request);
        let mut output = roomy(rt, alloc);
        let (outcome, refused) = ran(rt, alloc, LIFE, &mut input, &mut output);
        drop(input);
        let text = output.0.as_slice();
        same(rt, request, outcome, ended(text));
        let is_whole = text == ITS_OUTPUT;
        same(
            rt,
            request,
            (is_of_a_row(text), is_whole),
            (refused, !refused),
        );
        drop(output);
        if !refused {
            break;
        }
    }
}

/// Four lines that find no memory, and the same lines again.
static FOUR_LINES: Row<'static> = (
    LIFE,
    b"open a 4 1\nmkcur x\nmktkt 1 base\nsend a 6162636465666768696a6b6c6d6e6f7071\n\
            open a 4 1\nmkcur x\nmktkt 1 base\nfund 1 flow a\n\
            send a 6162636465666768696a6b6c6d6e6f7071\nturn 65535\n",
    (1, 5),
    b"no 1 NoMemory\nno 1 NoMemory\nno 1 NoMemory\nno 1 NoMemory\n\
            flow 1\nok\nticket 1\nok\npacket 1 1\nwrote 1 1 29 whole\n\
            out 4c01000000010000000100116162636465666768696a6b6c6d6e6f7071\n",
    b"flow 1\nok\nticket 1\npacket 1 1\nno 9 Taken\nno 9 Taken\nticket 2\nok\npacket 1 2\n\
            wrote 1 1 29 whole\nout 4c01000000010000000100116162636465666768696a6b6c6d6e6f7071\n",
);

/// Lines that take no memory.
static TAKE_NONE: [Row<'static>; 3] = [
    // On a new link.
    (
        LIFE,
        b"audit 1\nfund 9 flow zz\nclose zz\nrmcur base\nunfund 1\nrmtkt 1\ntorn\n\
            turn 65535\nturn 0\naudit 1\nsend zz 6162636465666768696a6b6c6d6e6f70\nsend a 6g\n\
            \nmkcur base\nmktkt 0 nope\nopen a 1 9\n",
        (1, usize::MAX),
        b"",
        b"no 6 NoTicket\nno 7 NoFlow\nno 10 Base\nno 6 NoTicket\nno 6 NoTicket\nidle\n\
            idle\nno 4 Range\nno 3 Syntax\nno 7 NoFlow\nno 3 Syntax\n\
            no 3 Syntax\nno 9 Taken\nno 4 Range\nno 8 NoTariff\nout -\n",
    ),
    // On one of version 2.
    (
        LIFE,
        b"audit 2\naudit 2\naudit 1\nturn 0\nsend zz 6162636465666768696a6b6c6d6e6f70\n",
        (1, usize::MAX),
        b"",
        b"no 3 Syntax\nno 3 Syntax\nno 4 Range\nno 7 NoFlow\nout -\n",
    ),
    // The tape, whose room doubles, has room for three more frames of 13 bytes once it holds five.
    (
        LIFE,
        b"open a 1 1\nopen b 4 1\nmkcur x\nmktkt 10 base\nmktkt 5 x\nmktkt 1 base\n\
            fund 3 flow b\nsend b 61\nturn 65535\nsend b 61\nturn 65535\nsend b 61\nturn 65535\n\
            send b 61\nturn 65535\nsend b 61\nturn 65535\n\
            fund 1 cur x\nfund 2 flow a\nhold a\nhold a\namend 1 12\namend 9 1\nresume a\nresume a\n\
            send a 61\nsend a 61\nturn 5\nclose a\nturn 65535\n\
            turn 65535\nunfund 2\nfund 2 cur x\nrmtkt 2\nunfund 1\nrmtkt 1\nrmcur x\nclose a\n\
            send b 61\ntorn\nturn 65535\nclose b\n",
        (18, usize::MAX),
        b"",
        b"flow 1\nflow 2\nok\nticket 1\nticket 2\nticket 3\n\
            ok\npacket 2 1\nwrote 2 1 13 whole\npacket 2 2\nwrote 2 2 13 whole\n\
            packet 2 3\nwrote 2 3 13 whole\npacket 2 4\nwrote 2 4 13 whole\n\
            packet 2 5\nwrote 2 5 13 whole\n\
            ok\nok\nok\nno 21 Held\nok\nno 6 NoTicket\nok\nno 22 NotHeld\n\
            packet 1 1\nno 19 BufferFull\nwrote 1 1 5 part\nno 18 Sending\n\
            wrote 1 1 8 whole\n\
            idle\nok\nno 15 Cycle\nok\nok\nok\nok\nclosed 1 0 13\n\
            packet 2 6\ntorn 2 6 0\nno 20 Broken\nclosed 2 0 65\n\
            out 4c0100000002000000010001614c010000000200000002000161\
            4c0100000002000000030001614c0100000002000000040001614c010000000200000005000161\
            4c010000000100000001000161\n",
    ),
];

// The longest payload of version 2, whose line finds no memory. The refused packet takes no number.
fn a_long_packet_finds_none(rt: &impl Abort, alloc: Global) {
    let before = b"audit 2\nopen a 4 1\nsend a ";
    let script = with_zeros(rt, alloc, before, 9000, b"\nsend a 61\n");
    let row = (
        LIFE,
        script.as_slice(),
        (3, 4),
        b"flow 1\nno 1 NoMemory\npacket 1 1\nout -\n".as_slice(),
        b"flow 1\npacket 1 1\npacket 1 2\nout -\n".as_slice(),
    );
    finds_no_memory(rt, alloc, &row);
    drop(script);
}

#[test]
fn scripts_are_answered_once_their_memory_is_found(rt: HostRuntime) {
    let alloc = rt.alloc();
    for row in &ROWS {
        finds_no_memory(&rt, alloc, row);
    }
    a_request_is_refused(&rt, alloc);
    let _refused = plays(&rt, alloc, &FOUR_LINES, REFUSE_EACH);
    for row in &TAKE_NONE {
        let refused = plays(&rt, alloc, row, REFUSE_EACH);
        holds(&rt, ("takes no memory", row.1.len()), !refused);
    }
    a_long_packet_finds_none(&rt, alloc);
}
