//! Reports of links, and what writers do with them. Other reports are in the scripts of `tests/scripts/`.

use super::allocator::{refuse_each, takes_none};
use super::assertions::{prints, same};
use super::made::{LIFE, REFUSALS, bytewise, scripted};
use super::script_memory::roomy;
use super::scripts::after;
use super::tariffs::Four;
use share_core::Engine;
use share_model::{Answer, Fault, PatientWriter, Scripted, Tape};
use share_report::report;
use std::alloc::Global;
use std::process::Abort;

/// The report of a new link.
const NEW_SHOWS: &str = "clock                            0\n\
    accepted                         0\n\
    written                          0\n\
    torn                             0\n\
    waiting                          0\n\
    dropped                          0\n\
    bytes                            0\n\
    past                             0\n\
    tickets                          0\n\
    pass                             0\n\
    link                             0\n\
    end\n";

/// The only packet of a flow is torn after 7 bytes, and its report.
const TORN: &str = "open a 4 2\nmktkt 1 base\nfund 1 flow a\nsend a 6869\nturn 7\ntorn\nmkcur x\n";

const TORN_SHOWS: &str = "clock                           64\n\
    accepted                         1\n\
    written                          0\n\
    torn                             1\n\
    waiting                          0\n\
    dropped                          0\n\
    bytes                            7\n\
    past                             0\n\
    tickets                          1\n\
    pass                             0\n\
    link                             2\n\
    flow        1 a                      1    0               128 in               1168231104512\n\
    end\n";

/// A frame is in part, and a flow with a name of 16 bytes never competed, though it is funded.
const IN_PART: &str =
    "open a 4 1\nmktkt 1 base\nfund 1 flow a\nopen long-name_of_16b 1 2\nmktkt 7 base\n\
    fund 2 flow long-name_of_16b\nsend a 6869\nturn 5\n";

const IN_PART_SHOWS: &str = "clock                            0\n\
    accepted                         1\n\
    written                          0\n\
    torn                             0\n\
    waiting                          1\n\
    dropped                          0\n\
    bytes                            5\n\
    past                             0\n\
    tickets                          1\n\
    pass                             0\n\
    link                             1\n\
    flow        1 a                      1    1                 0 in               1099511627776\n\
    flow        2 long-name_of_16b       0    0                 0 out                          0\n\
    end\n";

static TEXTS: [(u64, &str, &str); 4] = [
    (LIFE, "", NEW_SHOWS),
    (LIFE, TORN, TORN_SHOWS),
    // The life ends with the last of the seven events.
    (7, TORN, TORN_SHOWS),
    (LIFE, IN_PART, IN_PART_SHOWS),
];

// The report is written in one call, and without memory.
fn is_shown(rt: &impl Abort, alloc: Global, link: &Engine<Tape, Four>, text: &str) {
    let mut tape = Tape::new(alloc);
    let reported = report(link, &mut tape);
    prints(
        rt,
        "a report",
        (reported, tape.bytes()),
        (Ok(()), text.as_bytes()),
    );
    let counts = tape.counts(alloc).expect(rt, "memory");
    same(rt, text, counts.as_slice(), [text.len()].as_slice());
    drop(counts);
    drop(tape);
    let mut said = roomy(rt, alloc);
    refuse_each(alloc);
    let reported = report(link, &mut said);
    takes_none(rt, "a report", alloc);
    prints(
        rt,
        "a report",
        (reported, said.0.as_slice()),
        (Ok(()), text.as_bytes()),
    );
    drop(said);
}

#[test]
fn reports_show_links(rt: HostRuntime) {
    let alloc = rt.alloc();
    for &(life, script, text) in &TEXTS {
        let link = after(&rt, alloc, life, script);
        is_shown(&rt, alloc, &link, text);
        drop(link);
    }
}

// Whether this is a beginning of the report of that many bytes.
fn is_beginning(bytes: &[u8], count: usize) -> bool {
    Some(bytes) == TORN_SHOWS.as_bytes().get(..count)
}

// A writer has that many bytes of the report when it ends so.
fn is_cut(
    rt: &impl Abort,
    link: &Engine<Tape, Four>,
    writer: Scripted,
    ended: Result<(), Fault>,
    count: usize,
) {
    let mut writer = writer;
    let reported = report(link, &mut writer);
    let is_cut = is_beginning(writer.bytes(), count);
    same(rt, count, (reported, is_cut), (ended, true));
    drop(writer);
}

// A writer that takes that many bytes, at once or one a call, and then refuses an offer, ends the report. One that
// takes a part has the rest in another call.
fn is_cut_at(rt: &impl Abort, alloc: Global, link: &Engine<Tape, Four>, count: usize) {
    for &last in &REFUSALS {
        let writer = bytewise(rt, alloc, count, last);
        is_cut(rt, link, writer, Err(Fault), count);
        let at_once = scripted(rt, alloc, &[Answer::Accepted(count), last]);
        is_cut(rt, link, at_once, Err(Fault), count);
    }
    let in_two = scripted(rt, alloc, &[Answer::Accepted(count.max(1))]);
    is_cut(rt, link, in_two, Ok(()), TORN_SHOWS.len());
}

// A patient writer makes an interrupted offer again.
fn is_patient(rt: &impl Abort, alloc: Global, link: &Engine<Tape, Four>) {
    let answers = [
        Answer::Accepted(34),
        Answer::Interrupted,
        Answer::Interrupted,
        Answer::Accepted(2),
        Answer::Interrupted,
    ];
    let mut patient = PatientWriter(scripted(rt, alloc, &answers));
    let reported = report(link, &mut patient);
    let is_whole = patient.0.bytes() == TORN_SHOWS.as_bytes();
    same(rt, "a patient writer", (reported, is_whole), (Ok(()), true));
    drop(patient);
}

#[test]
fn reports_end_with_a_refused_offer(rt: HostRuntime) {
    let alloc = rt.alloc();
    let link = after(&rt, alloc, 7, TORN);
    is_patient(&rt, alloc, &link);
    for count in 0..TORN_SHOWS.len() {
        is_cut_at(&rt, alloc, &link, count);
    }
    drop(link);
}
