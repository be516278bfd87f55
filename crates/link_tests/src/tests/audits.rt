//! Audits: written, refused at each byte, and run again as scripts.

use super::assertions::{holds, same};
use super::made::{REFUSALS, bytewise, linked};
use super::tariffs::Four;
use share_base::{Outcome, Version};
use share_core::Engine;
use share_journal::{Journal, Recorder};
use share_model::{Answer, Fault, PlainReader, Scripted, Tape};
use share_report::report;
use share_script::{run_script, write_reply, write_turn};
use std::alloc::Global;
use std::process::Abort;

/// A recorder over a writer that gives the answers of a list.
pub(super) type Recording = Recorder<Scripted, Four>;

// The audit of a journal.
fn audit_of(rt: &impl Abort, alloc: Global, journal: &Journal) -> Tape {
    let mut text = Tape::new(alloc);
    same(rt, "an audit", journal.audit(&mut text), Ok(()));
    text
}

// The replies of a journal, each as a line.
fn replies_of(rt: &impl Abort, alloc: Global, journal: &Journal) -> Tape {
    let mut text = Tape::new(alloc);
    for entry in journal.entries() {
        let written = match &entry.reply {
            Outcome::Replied(reply) => write_reply(reply, &mut text),
            Outcome::Turned(turn) => write_turn(turn, &mut text),
        };
        same(rt, "a reply", written, Ok(()));
    }
    text
}

// The report of a link.
fn report_of<W>(rt: &impl Abort, alloc: Global, link: &Engine<W, Four>) -> Tape {
    let mut text = Tape::new(alloc);
    same(rt, "a report", report(link, &mut text), Ok(()));
    text
}

// Both links made as many events, show the same report, and wrote the same bytes.
fn show_the_same(
    rt: &impl Abort,
    alloc: Global,
    one: &Engine<Scripted, Four>,
    other: &Engine<Tape, Four>,
) {
    let is_same = other.writer().bytes() == one.writer().bytes();
    holds(rt, "the bytes", is_same);
    same(rt, "the events", one.events(), other.events());
    let (one, other) = (report_of(rt, alloc, one), report_of(rt, alloc, other));
    holds(rt, "the reports", one.bytes() == other.bytes());
    drop(one);
    drop(other);
}

// The script, run on a new link, prints this text, and comes to the link as it is and to its bytes.
fn comes_to(
    rt: &impl Abort,
    alloc: Global,
    life: u64,
    script: &[u8],
    printed: &[u8],
    link: &Engine<Scripted, Four>,
) {
    let mut output = Tape::new(alloc);
    let mut input = PlainReader(script);
    let engine = linked(rt, alloc, Four, Version::One, life, Tape::new(alloc));
    let engine = run_script(alloc, engine, &mut input, &mut output).expect(rt, "a script");
    holds(rt, "the replies", output.bytes() == printed);
    drop(output);
    show_the_same(rt, alloc, link, &engine);
    drop(engine);
}

/// The audit, run as a script in a life that is not shorter, is answered by the journal's replies.
pub(super) fn replays(rt: &impl Abort, alloc: Global, recorder: &Recording, life: u64) {
    let (engine, journal) = (recorder.engine(), recorder.journal());
    let audit = audit_of(rt, alloc, journal);
    let replies = replies_of(rt, alloc, journal);
    comes_to(rt, alloc, life, audit.bytes(), replies.bytes(), engine);
    drop(audit);
    drop(replies);
}

// A long text that differs is not printed.
fn is_text(rt: &impl Abort, what: &str, bytes: &[u8], wanted: &[u8]) {
    let agree = bytes
        .iter()
        .zip(wanted)
        .take_while(|(byte, wanted)| byte == wanted);
    let (length, all) = (bytes.len(), wanted.len());
    same(rt, what, (length, agree.count()), (all, all));
}

/// A writer that accepts each line whole is called once for it, and one that takes each byte gets the same.
pub(super) fn is_written(rt: &impl Abort, alloc: Global, journal: &Journal, wanted: &[u8]) {
    let audit = audit_of(rt, alloc, journal);
    is_text(rt, "the audit", audit.bytes(), wanted);
    let counts = audit.counts(alloc).expect(rt, "memory");
    drop(audit);
    let mut lines = wanted.split_inclusive(|byte| *byte == b'\n');
    for count in &counts {
        let length = lines.next().map(|line| line.len());
        same(rt, "a line of the audit", length, Some(*count));
    }
    holds(rt, "the lines of the audit", lines.next().is_none());
    drop(counts);
    let mut output = bytewise(rt, alloc, wanted.len(), Answer::Failed);
    let written = journal.audit(&mut output);
    same(rt, "the audit by the byte", written, Ok(()));
    is_text(rt, "the audit by the byte", output.bytes(), wanted);
    drop(output);
}

/// If a writer refuses a byte of the audit, what comes before it is written, and the journal is as it was.
pub(super) fn is_cut_at_each(rt: &impl Abort, alloc: Global, journal: &Journal, wanted: &[u8]) {
    for &last in &REFUSALS {
        for accepted in 0..wanted.len() {
            let mut output = bytewise(rt, alloc, accepted, last);
            same(rt, accepted, journal.audit(&mut output), Err(Fault));
            same(rt, accepted, Some(output.bytes()), wanted.get(..accepted));
            drop(output);
        }
    }
    is_written(rt, alloc, journal, wanted);
}
