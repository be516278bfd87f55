//! The lines of a control connection, answered one after the other.
ghost use Rattle.std.specs.Prelude.{◌≡◌, MatchResult, OnOk};
ghost use Rattle.share_script.specs.Lines.{IsUnfinished};
ghost use Rattle.share_control.specs.Attends.{AnswersAll, EndsAttending, IsNextRequest, LosesAnswer};

use crate::requests::{Request, answer, request_in};
use share_locked::{Clerk, LinkBrand, Pace, Port};
use share_model::{Fault, Got, PatientWriter, PlainWriter, Rates, TellingReader, TellingWriter};
use share_script::{Incoming, IncomingLines};
use std::alloc::Global;
use std::io::{BufWriter, Write};
use std::sync::Wait;

/// The most bytes of answers that wait. A report, the longest answer, has at most 6400 bytes.
const ROOM: usize = 65536;

/// The end of a control connection.
#[derive(Clone, Copy, Debug, PartialEq, Eq)]
pub enum How {
    /// Its client ended it.
    End,
    /// It could not be read.
    ReadFault,
    /// An answer could not be written.
    WriteFault,
    /// There was no memory for its answers. Nothing was read.
    NoMemory,
}

/// A control connection that has ended, and its clerk.
#[derive(Drop)]
pub struct Attended<L: LinkBrand> {
    pub how: How,
    pub clerk: Clerk<L>,
}

/// A writer of answers, which go out when they are flushed or there is no room for one more.
type Output<O> = PatientWriter<PlainWriter<BufWriter<O>>>;

// The request of the next line, if it came whole.
fn next_request<I: TellingReader + Drop>(
    alloc: Global,
    input: &mut IncomingLines<I>,
) -> Option<Request>
    ensures next { IsNextRequest input.old.ahead result input.new.line input.new.ahead }
    ensures reader { input.new.reader ≡ input.old.reader }
{
    match input.next() {
        Incoming::Line => Some(request_in(alloc, input.line())),
        Incoming::OverLong => Some(Request::NoRequest),
        Incoming::Unfinished => None,
    }
}

// Answers all lines that came whole, until an answer cannot be written.
fn answer_all<
    W: TellingWriter,
    S: Rates,
    L: LinkBrand,
    R: Wait,
    I: TellingReader + Drop,
    O: TellingWriter,
>(
    rt: &R,
    alloc: Global,
    port: &Port<W, S, L>,
    pace: &Pace,
    clerk: &mut Clerk<L>,
    input: &mut IncomingLines<I>,
    output: &mut O,
) -> Result<(), Fault>
    ensures answered { MatchResult result
        (λ _. AnswersAll W O.told O.answers input.old clerk.old output.old input.new clerk.new output.new)
        (λ _. LosesAnswer W O.told O.answers input.old.ahead clerk.old output.old input.new.ahead clerk.new
        output.new) }
    ensures reader { input.new.reader ≡ input.old.reader }
    ensures unfinished { OnOk result (IsUnfinished input.new.ahead) }
{
    for _ in rt.forever() {
        let Some(request) = next_request(alloc, input) else {
            return Ok(());
        };
        answer(rt, alloc, port, pace, clerk, request, output)?;
    }
    unreachable!()
}

// Answers lines until the connection ends. The answers to lines that came together go out together, before the next
// read.
fn converse<
    W: TellingWriter,
    S: Rates,
    L: LinkBrand,
    R: Wait,
    I: TellingReader + Drop,
    O: Write + Drop,
>(
    rt: &R,
    alloc: Global,
    port: &Port<W, S, L>,
    pace: &Pace,
    clerk: &mut Clerk<L>,
    input: &mut IncomingLines<I>,
    output: &mut Output<O>,
) -> How
    ensures { EndsAttending W I.left I.gives input.old clerk.old result clerk.new }
{
    for _ in rt.forever() {
        if answer_all(rt, alloc, port, pace, clerk, input, output).is_err() {
            return How::WriteFault;
        }
        if output.0.0.flush().is_err() {
            return How::WriteFault;
        }
        match input.read() {
            Got::Bytes(_) => (),
            Got::Interrupted => (),
            Got::End => return How::End,
            Got::Failed => return How::ReadFault,
        }
    }
    unreachable!()
}

/// Answers the lines of a control connection, by this clerk, until the connection ends or an answer cannot be written.
/// Bytes after the last line feed are dropped.
pub fn attend<
    W: TellingWriter,
    S: Rates,
    L: LinkBrand,
    R: Wait,
    I: TellingReader + Drop,
    O: Write + Drop,
>(
    rt: &R,
    alloc: Global,
    port: &Port<W, S, L>,
    pace: &Pace,
    clerk: Clerk<L>,
    input: IncomingLines<I>,
    output: O,
) -> Attended<L>
    ensures { EndsAttending W I.left I.gives input clerk result.how result.clerk }
{
    let mut clerk = clerk;
    let mut input = input;
    let Ok(buffered) = BufWriter::with_capacity(alloc, ROOM, output) else {
        return Attended {
            how: How::NoMemory,
            clerk,
        };
    };
    let mut output = PatientWriter(PlainWriter(buffered));
    let how = converse(rt, alloc, port, pace, &mut clerk, &mut input, &mut output);
    Attended { how, clerk }
}
