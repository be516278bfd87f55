//! Lines, read and written one at a time, and the lines of a connection. Misspelled lines are scripts of
//! `tests/scripts/`.

use super::allocator::{refuse_each, takes_none};
use super::assertions::{holds, same};
use super::made::{REFUSALS, VERSIONS, bytewise};
use super::scripts::with_zeros;
use share_base::Version;
use share_model::{Fault, Got, Line, ScriptedReader, Tape};
use share_script::{Incoming, IncomingLines, read_line, write_line};
use std::alloc::Global;
use std::process::Abort;

/// Lines that are read in both versions, and are written as they were read.
const LINES: &str = "\
    mkcur x-1_y|rmcur x-1_y|mktkt 1048576 x-1_y|rmtkt 0|fund 10 cur x-1_y|fund 10 flow a|unfund 9|\
    open abcdefghijklmnop 18446744073709551615 1|close a|hold a|hold abcdefghijklmnop|resume a|\
    resume abcdefghijklmnop|amend 3 4|amend 9 0|amend 0 1048576|\
    amend 18446744073709551615 18446744073709551615|send a 0068ff|turn 1|turn 65535|torn|audit 1|audit 2|\
    report";

// The line and a line feed go out in one offer.
fn is_written_at_once(rt: &impl Abort, alloc: Global, line: &Line, text: &[u8]) {
    let mut output = Tape::new(alloc);
    let written = write_line(line, &mut output);
    let is_text = output.bytes().strip_suffix(b"\n") == Some(text);
    same(rt, text.len(), (written, is_text), (Ok(()), true));
    let counts = output.counts(alloc).expect(rt, "memory");
    drop(output);
    let whole = [text.len().saturating_add(1)];
    same(rt, text.len(), counts.as_slice(), whole.as_slice());
    drop(counts);
}

// If a byte of it is refused, all bytes before it go out.
fn is_cut_at_each(rt: &impl Abort, alloc: Global, line: &Line, text: &[u8]) {
    for &fault in &REFUSALS {
        for accepted in 0..=text.len() {
            let mut output = bytewise(rt, alloc, accepted, fault);
            let written = write_line(line, &mut output);
            let is_cut = Some(output.bytes()) == text.get(..accepted);
            same(rt, (fault, accepted), (written, is_cut), (Err(Fault), true));
            drop(output);
        }
    }
}

fn line_of(rt: &impl Abort, alloc: Global, version: Version, text: &[u8]) -> Line {
    read_line(alloc, version, text).ok().expect(rt, "a line")
}

#[test]
fn lines_are_read_and_written(rt: HostRuntime) {
    let alloc = rt.alloc();
    for &version in &VERSIONS {
        for text in LINES.split('|') {
            let line = line_of(&rt, alloc, version, text.as_bytes());
            is_written_at_once(&rt, alloc, &line, text.as_bytes());
            is_cut_at_each(&rt, alloc, &line, text.as_bytes());
            drop(line);
        }
        // The longest line, which in version 2 has 18022 bytes and a line feed.
        let text = with_zeros(
            &rt,
            alloc,
            b"send abcdefghijklmnop ",
            version.payload(),
            b"",
        );
        let line = line_of(&rt, alloc, version, text.as_slice());
        is_written_at_once(&rt, alloc, &line, text.as_slice());
        drop(line);
        drop(text);
    }
}

/// The next thing of a connection.
#[derive(Drop)]
enum Want<'a> {
    Line(&'a [u8]),
    OverLong,
    // No whole line is here, and a read call is answered so.
    Read(Got),
}

fn comes(
    rt: &impl Abort,
    lines: &mut IncomingLines<ScriptedReader<'_>>,
    place: usize,
    want: &Want<'_>,
) {
    match want {
        Want::Line(line) => {
            same(rt, place, lines.next(), Incoming::Line);
            same(rt, place, lines.line(), *line);
        }
        Want::OverLong => same(rt, place, lines.next(), Incoming::OverLong),
        Want::Read(got) => {
            let Incoming::Unfinished = lines.next() else {
                panic!(rt; "{place}: a line came before its line feed");
            };
            holds(rt, place, lines.line().is_empty());
            same(rt, place, lines.read(), *got);
        }
    }
}

fn wanted<'a>(line: &'a [u8]) -> [Want<'a>; 23] {
    [
        Want::Read(Got::Bytes(11)),
        Want::Line(b"one"),
        Want::Line(b"two"),
        Want::Read(Got::Interrupted),
        Want::Read(Got::Bytes(4)),
        Want::Line(b"three"),
        Want::Line(b""),
        Want::Read(Got::Bytes(20480)),
        Want::Read(Got::Bytes(1)),
        Want::Line(line),
        Want::Read(Got::Bytes(20481)),
        Want::Read(Got::Bytes(6)),
        Want::OverLong,
        Want::Line(b"four"),
        Want::Read(Got::Bytes(20480)),
        Want::Read(Got::Bytes(20481)),
        Want::Read(Got::Bytes(6)),
        Want::OverLong,
        Want::Read(Got::Bytes(5)),
        Want::Line(b"five"),
        Want::Read(Got::Failed),
        Want::Read(Got::End),
        Want::Read(Got::End),
    ]
}

/// The bytes that the reads give.
static READS: [Got; 12] = [
    Got::Bytes(11),
    Got::Interrupted,
    Got::Bytes(4),
    Got::Bytes(20480),
    Got::Bytes(1),
    Got::Bytes(20481),
    Got::Bytes(6),
    Got::Bytes(20480),
    Got::Bytes(20481),
    Got::Bytes(6),
    Got::Bytes(5),
    Got::Failed,
];

// A line of 20480 bytes comes, and longer ones are passed over.
fn come(rt: &impl Abort, alloc: Global, line: &[u8], long: &[u8]) {
    let parts: [&[u8]; 10] = [
        b"one\ntwo\nthr",
        b"ee\n\n",
        line,
        b"\n",
        long,
        b"\nfour\n",
        line,
        long,
        b"a\nfive",
        b"\nlast",
    ];
    let bytes = parts.concat(alloc).expect(rt, "memory");
    let reads = READS.to_vec(alloc).expect(rt, "memory");
    let reader = ScriptedReader::new(reads, bytes.as_slice());
    let mut lines = IncomingLines::new(alloc, reader).expect(rt, "memory");
    refuse_each(alloc);
    for (place, want) in wanted(line).iter().enumerate() {
        comes(rt, &mut lines, place, want);
    }
    takes_none(rt, "the lines of a connection", alloc);
    drop(lines);
    drop(bytes);
}

#[test]
fn lines_of_a_connection_come(rt: HostRuntime) {
    let alloc = rt.alloc();
    let line = vec![in alloc; b'a'; 20480].expect(&rt, "memory");
    let long = vec![in alloc; b'a'; 20481].expect(&rt, "memory");
    come(&rt, alloc, line.as_slice(), long.as_slice());
    drop(line);
    drop(long);
}
