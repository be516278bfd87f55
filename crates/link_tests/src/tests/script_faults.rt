//! Scripts that are cut at each byte, and inputs and outputs that fail.

use super::assertions::{prints, same};
use super::made::REFUSALS;
use super::scripts::{BYTEWISE, ITS_OUTPUT, ONE_PACKET, is_answered, run};
use share_model::{
    Answer, Got, PatientWriter, PlainReader, Scripted, ScriptedReader, Tape, TellingReader,
};
use share_script::ScriptFault;
use std::alloc::Global;
use std::process::Abort;

/// The number of bytes from which on a line is answered so, the answer, and then the line of the bytes.
type Cut = (usize, &'static [u8], &'static [u8]);

const NOTHING: &[u8] = b"";

/// No byte was written.
const NONE: &[u8] = b"out -\n";

/// The answer to what is no line.
const NO_LINE: &[u8] = b"no 3 Syntax\n";

/// A line, and what its beginnings are answered that are lines. A number or a payload may end sooner than was meant, as
/// may the name of a currency, of which there is none then.
type Line = (&'static [u8], &'static [Cut]);

const OPENED: Line = (b"open a 4 1\n", &[(10, b"flow 1\n", NONE)]);

const MADE: Line = (
    b"mktkt 10 base\n",
    &[(10, b"no 5 NoCurrency\n", NONE), (13, b"ticket 1\n", NONE)],
);

const FUNDED: Line = (b"fund 1 flow a\n", &[(13, b"ok\n", NONE)]);

const SENT: Line = (
    b"send a 6869\n",
    &[
        (9, b"packet 1 1\n", NONE),
        (10, NO_LINE, NONE),
        (11, b"packet 1 1\n", NONE),
    ],
);

const WRITTEN: Line = (
    b"turn 65535\n",
    &[
        (6, b"wrote 1 1 6 part\n", b"out 4c0100000001\n"),
        (
            7,
            b"wrote 1 1 14 whole\n",
            b"out 4c01000000010000000100026869\n",
        ),
    ],
);

/// The lines of one packet.
static LINES: [Line; 5] = [OPENED, MADE, FUNDED, SENT, WRITTEN];

/// The same in version 2.
static LINES_2: [Line; 6] = [AUDITED, OPENED, MADE, FUNDED, SENT, WRITTEN_2];

const AUDITED: Line = (b"audit 2\n", &[(7, b"", NONE)]);

const WRITTEN_2: Line = (
    b"turn 65535\n",
    &[
        (6, b"wrote 1 1 6 part\n", b"out 4c0201000000\n"),
        (
            7,
            b"wrote 1 1 19 whole\n",
            b"out 4c020100000001000000000000000100026869\n",
        ),
    ],
);

// The answer to this beginning of a line, and the line of the bytes.
fn cut_at(cuts: &[Cut], count: usize) -> (&'static [u8], &'static [u8]) {
    let mut last = (if count == 0 { NOTHING } else { NO_LINE }, NONE);
    for (from, answer, bytes) in cuts {
        if *from <= count {
            last = (*answer, *bytes);
        }
    }
    last
}

fn push(rt: &impl Abort, text: &mut Vec<u8>, piece: &[u8]) {
    text.extend_from_slice(piece).expect(rt, "memory");
}

// Cuts the line that comes after these, of which the answers are these, at each of its bytes. The rest is a script:
// its last line has no line feed, and may be another line than was meant.
fn line_is_cut(rt: &impl Abort, alloc: Global, before: &[u8], answers: &[u8], line: &Line) {
    let (line, cuts) = *line;
    for count in 0..=line.len() {
        let (answer, bytes) = cut_at(cuts, count);
        let mut script = before.to_vec(alloc).expect(rt, "memory");
        push(rt, &mut script, &line[..count]);
        let mut wanted = answers.to_vec(alloc).expect(rt, "memory");
        push(rt, &mut wanted, answer);
        push(rt, &mut wanted, bytes);
        is_answered(rt, alloc, script.as_slice(), wanted.as_slice());
        drop(script);
        drop(wanted);
    }
}

// Cuts each of these lines, which come one after the other.
fn lines_are_cut(rt: &impl Abort, alloc: Global, lines: &[Line]) {
    let (mut script, mut answers) = (Vec::new(alloc), Vec::new(alloc));
    for line in lines {
        line_is_cut(rt, alloc, script.as_slice(), answers.as_slice(), line);
        let (answer, _) = cut_at(line.1, line.0.len());
        push(rt, &mut script, line.0);
        push(rt, &mut answers, answer);
    }
    drop(script);
    drop(answers);
}

#[test]
fn scripts_are_cut_at_each_byte(rt: HostRuntime) {
    lines_are_cut(&rt, rt.alloc(), &LINES);
    lines_are_cut(&rt, rt.alloc(), &LINES_2);
}

// The input fails after these reads, and this is printed before.
fn input_fails(rt: &impl Abort, alloc: Global, row: usize, reads: Vec<Got>, wanted: &[u8]) {
    let mut input = ScriptedReader::new(reads, b"open a 4 1\ntorn\ntorn\n".as_slice());
    let mut output = Tape::new(alloc);
    let ran = run(rt, alloc, &mut input, &mut output);
    drop(input);
    let fault = Err(ScriptFault::Input);
    prints(rt, row, (ran, output.bytes()), (fault, wanted));
    drop(output);
}

// A read fails in place of each byte, and in place of the end.
#[test]
fn input_that_fails(rt: HostRuntime) {
    let alloc = rt.alloc();
    for failing in 0..=21 {
        let wanted: &[u8] = match failing {
            0..=10 => b"",
            11..=15 => b"flow 1\n",
            16..=20 => b"flow 1\nidle\n",
            _ => b"flow 1\nidle\nidle\n",
        };
        for bytes in BYTEWISE {
            let mut reads = bytes.repeat(alloc, failing).expect(&rt, "memory");
            reads.push(Got::Failed).expect(&rt, "memory");
            input_fails(&rt, alloc, failing, reads, wanted);
        }
    }
}

/// A reader that gives a script by the line.
pub(super) fn linewise<'a>(rt: &impl Abort, alloc: Global, script: &'a [u8]) -> ScriptedReader<'a> {
    let mut reads = Vec::new(alloc);
    for line in script.split_inclusive(|byte| *byte == b'\n') {
        reads.push(Got::Bytes(line.len())).expect(rt, "memory");
    }
    ScriptedReader::new(reads, script)
}

// If the output gives these answers, it refuses an offer, and these bytes are printed.
fn output_fails<I: TellingReader>(
    rt: &impl Abort,
    alloc: Global,
    input: &mut I,
    answers: Vec<Answer>,
    wanted: Option<&[u8]>,
) {
    let mut output = Scripted::new(alloc, answers);
    let ran = run(rt, alloc, input, &mut output);
    let wanted = wanted.expect(rt, "a beginning");
    let fault = Err(ScriptFault::Output);
    prints(rt, wanted.len(), (ran, output.bytes()), (fault, wanted));
    drop(output);
}

// That many offers are accepted, of the first of which `first` bytes at most, and the next is answered so.
fn accepting(
    rt: &impl Abort,
    alloc: Global,
    accepted: usize,
    first: usize,
    then: Answer,
) -> Vec<Answer> {
    let mut answers = Vec::new(alloc);
    for place in 0..accepted {
        let most = if place == 0 { first } else { usize::MAX };
        answers.push(Answer::Accepted(most)).expect(rt, "memory");
    }
    answers.push(then).expect(rt, "memory");
    answers
}

/// The text that is printed before each offer to which the answers to the lines of one read go together.
static OF_ONE_READ: [&[u8]; 5] = [
    b"",
    b"idl",
    b"idle\nno 3 Syntax\n",
    b"idle\nno 3 Syntax\nout ",
    b"idle\nno 3 Syntax\nout -",
];

/// The bytes of the output printed before each offer, if the script of one packet is read by the line. The answer to
/// each line is one offer, and the line of the bytes is three.
static BEFORE_OFFERS: [usize; 8] = [0, 7, 16, 19, 30, 49, 53, 81];

#[test]
fn output_that_refuses_an_offer(rt: HostRuntime) {
    let alloc = rt.alloc();
    for &fault in &REFUSALS {
        for (accepted, &wanted) in OF_ONE_READ.iter().enumerate() {
            let answers = accepting(&rt, alloc, accepted, 3, fault);
            let mut input = PlainReader(b"torn\nnone\n".as_slice());
            output_fails(&rt, alloc, &mut input, answers, Some(wanted));
        }
        for (accepted, &before) in BEFORE_OFFERS.iter().enumerate() {
            let answers = accepting(&rt, alloc, accepted, usize::MAX, fault);
            let mut input = linewise(&rt, alloc, ONE_PACKET);
            output_fails(&rt, alloc, &mut input, answers, ITS_OUTPUT.get(..before));
            drop(input);
        }
    }
}

// The output, which is offered again if it was interrupted, gives these answers. All is printed, by that many offers.
fn all_is_printed(rt: &impl Abort, alloc: Global, answers: Vec<Answer>, offers: usize) {
    let mut input = linewise(rt, alloc, ONE_PACKET);
    let mut output = PatientWriter(Scripted::new(alloc, answers));
    let ran = run(rt, alloc, &mut input, &mut output);
    drop(input);
    prints(rt, offers, (ran, output.0.bytes()), (Ok(()), ITS_OUTPUT));
    let counts = output.0.counts(alloc).expect(rt, "memory");
    drop(output);
    same(rt, "offers", counts.len(), offers);
    drop(counts);
}

// Each offer is cut to a byte in turn, after which its rest is offered; or it is interrupted.
#[test]
fn output_that_takes_less(rt: HostRuntime) {
    let alloc = rt.alloc();
    for accepted in 0..8 {
        // The last offer is that of the line feed, a byte.
        let offers = if accepted == 7 { 8 } else { 9 };
        let short = accepting(&rt, alloc, accepted, usize::MAX, Answer::Accepted(1));
        all_is_printed(&rt, alloc, short, offers);
        let interrupted = accepting(&rt, alloc, accepted, usize::MAX, Answer::Interrupted);
        all_is_printed(&rt, alloc, interrupted, 8);
    }
    let bytewise = [Answer::Accepted(1)]
        .repeat(alloc, 82)
        .expect(&rt, "memory");
    all_is_printed(&rt, alloc, bytewise, 82);
}

/// The output of the lines `torn`, `report` and `none` on a new link.
const BETWEEN_ANSWERS: &[u8] = b"idle\n\
    clock                            0\n\
    accepted                         0\n\
    written                          0\n\
    torn                             0\n\
    waiting                          0\n\
    dropped                          0\n\
    bytes                            0\n\
    past                             0\n\
    tickets                          0\n\
    pass                             0\n\
    link                             0\n\
    end\n\
    no 3 Syntax\n";

// The first answer, the report and the last answer are offered one after the other. That many bytes are accepted.
fn accepting_bytes(rt: &impl Abort, alloc: Global, length: usize) -> Vec<Answer> {
    let mut answers = Vec::new(alloc);
    let mut left = length;
    for &offer in &[5, 389, 12] {
        if left > 0 {
            let count = left.min(offer);
            answers.push(Answer::Accepted(count)).expect(rt, "memory");
            left -= count;
        }
    }
    answers.push(Answer::Failed).expect(rt, "memory");
    answers
}

// The answer that waits is offered before the report, and the report before the answer after it.
#[test]
fn output_that_fails_at_each_byte_of_a_report(rt: HostRuntime) {
    let alloc = rt.alloc();
    for length in 0..406 {
        let answers = accepting_bytes(&rt, alloc, length);
        let mut input = PlainReader(b"torn\nreport\nnone\n".as_slice());
        output_fails(
            &rt,
            alloc,
            &mut input,
            answers,
            BETWEEN_ANSWERS.get(..length),
        );
    }
}
