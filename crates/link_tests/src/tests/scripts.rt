//! Whole scripts, run from a reader to a writer: those that come by the byte and those with long lines. Others are the
//! scripts of `tests/scripts/`.

use super::assertions;
use super::assertions::holds;
use super::made::LIFE;
use super::tariffs::Four;
use share_core::Engine;
use share_model::{Got, PlainReader, ScriptedReader, Tape, TellingReader, TellingWriter};
use share_script::{ScriptFault, print_bytes, run_script};
use std::alloc::Global;
use std::process::Abort;
use std::str::from_utf8;

/// The script of one packet.
pub(super) const ONE_PACKET: &[u8] =
    b"open a 4 1\nmktkt 10 base\nfund 1 flow a\nsend a 6869\nturn 65535\n";

/// The output of the script.
pub(super) const ITS_OUTPUT: &[u8] = b"flow 1\nticket 1\nok\npacket 1 1\nwrote 1 1 14 whole\n\
    out 4c01000000010000000100026869\n";

/// Reads of one byte: at once, and each after an interrupted read.
pub(super) static BYTEWISE: [&[Got]; 2] = [&[Got::Bytes(1)], &[Got::Interrupted, Got::Bytes(1)]];

/// Prints the bytes that a link wrote.
pub(super) fn print_written<O: TellingWriter>(
    engine: &Engine<Tape, Four>,
    output: &mut O,
) -> Result<(), ScriptFault> {
    print_bytes(output, engine.writer().bytes())?;
    Ok(())
}

/// Runs a script on a new link, and prints the bytes that the link wrote.
pub(super) fn run<I: TellingReader, O: TellingWriter>(
    rt: &impl Abort,
    alloc: Global,
    input: &mut I,
    output: &mut O,
) -> Result<(), ScriptFault> {
    let engine = Engine::new(alloc, Four, LIFE, Tape::new(alloc)).expect(rt, "a link");
    match run_script(alloc, engine, input, output) {
        Ok(engine) => {
            let printed = print_written(&engine, output);
            drop(engine);
            printed
        }
        Err(fault) => Err(fault),
    }
}

/// The link after a script of which no line is refused.
pub(super) fn after(rt: &impl Abort, alloc: Global, life: u64, script: &str) -> Engine<Tape, Four> {
    let mut output = Tape::new(alloc);
    let mut input = PlainReader(script.as_bytes());
    let engine = Engine::new(alloc, Four, life, Tape::new(alloc)).expect(rt, "a link");
    let engine = run_script(alloc, engine, &mut input, &mut output).expect(rt, "a script");
    let text = from_utf8(output.bytes()).ok().expect(rt, "text");
    holds(
        rt,
        script,
        text.lines().all(|line| !line.starts_with("no ")),
    );
    drop(output);
    engine
}

// The script prints this.
fn prints<I: TellingReader>(rt: &impl Abort, alloc: Global, input: &mut I, wanted: &[u8]) {
    let mut output = Tape::new(alloc);
    let ran = run(rt, alloc, input, &mut output);
    assertions::prints(rt, "a script", (ran, output.bytes()), (Ok(()), wanted));
    drop(output);
}

/// The script prints this, given as a whole and by the byte, with and without interruptions.
pub(super) fn is_answered(rt: &impl Abort, alloc: Global, script: &[u8], wanted: &[u8]) {
    prints(rt, alloc, &mut PlainReader(script), wanted);
    for &reads in &BYTEWISE {
        let reads = reads.repeat(alloc, script.len()).expect(rt, "memory");
        let mut bytewise = ScriptedReader::new(reads, script);
        prints(rt, alloc, &mut bytewise, wanted);
        drop(bytewise);
    }
}

/// This text, a line that sends that many zero bytes, and another text.
pub(super) fn with_zeros(
    rt: &impl Abort,
    alloc: Global,
    before: &[u8],
    count: usize,
    after: &[u8],
) -> Vec<u8> {
    let mut text = before.to_vec(alloc).expect(rt, "memory");
    for _ in 0..count {
        text.extend_from_slice(b"00").expect(rt, "memory");
    }
    text.extend_from_slice(after).expect(rt, "memory");
    text
}

/// Lines that send that many zero bytes, and their answers before a currency is made. Of each version the line
/// before the last has 20480 bytes, and the last 20481.
static LONG_LINES: [(&[u8], usize, &[u8]); 8] = [
    (b"send a ", 1490, b"no 7 NoFlow\nok\nout -\n"),
    (b"send a ", 1491, b"no 4 Range\nok\nout -\n"),
    (b"send ab ", 10236, b"no 4 Range\nok\nout -\n"),
    (b"send a ", 10237, b"no 3 Syntax\nok\nout -\n"),
    (b"audit 2\nsend a ", 9000, b"no 7 NoFlow\nok\nout -\n"),
    (b"audit 2\nsend a ", 9001, b"no 4 Range\nok\nout -\n"),
    (b"audit 2\nsend ab ", 10236, b"no 4 Range\nok\nout -\n"),
    (b"audit 2\nsend a ", 10237, b"no 3 Syntax\nok\nout -\n"),
];

/// Lines before the longest payload, its length, and what is printed before its bytes.
static LARGEST: [(&[u8], usize, &[u8]); 2] = [
    (
        b"open a 4 2\nmktkt 10 base\nfund 1 flow a\nsend a ",
        1490,
        b"flow 1\nticket 1\nok\npacket 1 1\nwrote 1 1 1502 whole\nclosed 1 0 3104\n\
        out 4c01000000010000000105d2",
    ),
    (
        b"audit 2\nopen a 4 2\nmktkt 10 base\nfund 1 flow a\nsend a ",
        9000,
        b"flow 1\nticket 1\nok\npacket 1 1\nwrote 1 1 9017 whole\nclosed 1 0 18080\n\
        out 4c02020000000100000000000000012328",
    ),
];

#[test]
fn scripts_are_answered(rt: HostRuntime) {
    let alloc = rt.alloc();
    for &(lines, count, wanted) in &LONG_LINES {
        let script = with_zeros(&rt, alloc, lines, count, b"\nmkcur x\n");
        is_answered(&rt, alloc, script.as_slice(), wanted);
        drop(script);
    }
    for &(lines, count, answers) in &LARGEST {
        let script = with_zeros(&rt, alloc, lines, count, b"\nturn 65535\nclose a\n");
        let wanted = with_zeros(&rt, alloc, answers, count, b"\n");
        let mut input = PlainReader(script.as_slice());
        prints(&rt, alloc, &mut input, wanted.as_slice());
        drop(script);
        drop(wanted);
    }
}
