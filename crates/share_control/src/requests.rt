//! Requests in the lines of a control connection, and their answers.
ghost use Rattle.std.specs.Prelude.{◌≡◌, ℕ, List};
ghost use Rattle.share_model.specs.io.Printing.{WritesText};
ghost use Rattle.share_control.specs.Requests.{request_of, request_in, said_text, IsReady, Obeys, ObeyedLocked};
ghost use Rattle.share_control.specs.Requests.{IsSaidTo, AnswersRequest};

use share_base::{Command, Refusal, Reply, Version};
use share_locked::{Clerk, LinkBrand, Locked, Pace, Port};
use share_model::{Fault, Line, Rates, TellingWriter, put};
use share_script::{read_line, write_reply};
use std::alloc::Global;
use std::sync::Wait;

/// The request of a line of a control connection.
#[derive(Clone, Copy, Debug, PartialEq, Eq)]
pub enum Request {
    /// A change of the funding or of the flows.
    Change(Command),
    /// The report of the link.
    Report,
    /// No line that may come on a control connection.
    NoRequest,
}

/// The answer of a link to a request.
#[derive(Drop)]
enum Said {
    /// The reply to a command, or a refusal.
    Reply(Reply),
    /// Its report.
    Report(Vec<u8>),
}

// The request of a line, from the way it was read.
fn request_of(line: &Result<Line, Refusal>) -> Request
    ensures { result ≡ request_of line.now }
{
    match line {
        Ok(Line::Change(command)) => Request::Change(*command),
        Ok(Line::Report) => Request::Report,
        _ => Request::NoRequest,
    }
}

// The request in the bytes of a line.
pub(crate) fn request_in(alloc: Global, bytes: &[u8]) -> Request
    ensures { result ≡ request_in bytes.now }
{
    let line = read_line(alloc, Version::Two, bytes);
    request_of(&line)
}

// All that a request does to the link and to its clerk, and what the link says.
fn obey<W: TellingWriter, S: Rates, L: LinkBrand>(
    alloc: Global,
    locked: &mut Locked<W, S, L>,
    clerk: &mut Clerk<L>,
    request: Request,
) -> Said
    requires { IsReady clerk.old request }
    ensures { Obeys locked.old clerk.old request result locked.new clerk.new }
{
    match request {
        Request::Change(command) => {
            let (_number, reply) = locked.command(clerk, command);
            Said::Reply(reply)
        }
        Request::Report => match locked.report(alloc) {
            Ok(text) => Said::Report(text),
            Err(refusal) => Said::Reply(Reply::Refused(refusal)),
        },
        Request::NoRequest => unreachable!(),
    }
}

// Obeys a request with the lock taken once.
fn obey_locked<W: TellingWriter, S: Rates, L: LinkBrand, R: Wait>(
    rt: &R,
    alloc: Global,
    port: &Port<W, S, L>,
    clerk: &mut Clerk<L>,
    request: Request,
) -> Said
    requires { IsReady clerk.old request }
    ensures { ObeyedLocked W clerk.old request result clerk.new }
{
    obey(alloc, &mut port.lock(rt), clerk, request)
}

// Makes a command with the lock taken once, after room for its receipt was made.
fn change<W: TellingWriter, S: Rates, L: LinkBrand, R: Wait>(
    rt: &R,
    alloc: Global,
    port: &Port<W, S, L>,
    pace: &Pace,
    clerk: &mut Clerk<L>,
    command: Command,
) -> Said
    ensures { IsSaidTo W clerk.old (Request.Change command) result clerk.new }
{
    if clerk.ready().is_err() {
        return Said::Reply(Reply::Refused(Refusal::NoMemory));
    }
    let said = obey_locked(rt, alloc, port, clerk, Request::Change(command));
    pace.ring();
    said
}

// Does what a line asks for.
fn say<W: TellingWriter, S: Rates, L: LinkBrand, R: Wait>(
    rt: &R,
    alloc: Global,
    port: &Port<W, S, L>,
    pace: &Pace,
    clerk: &mut Clerk<L>,
    request: Request,
) -> Said
    ensures { IsSaidTo W clerk.old request result clerk.new }
{
    match request {
        Request::Change(command) => change(rt, alloc, port, pace, clerk, command),
        Request::Report => obey_locked(rt, alloc, port, clerk, Request::Report),
        Request::NoRequest => Said::Reply(Reply::Refused(Refusal::Syntax)),
    }
}

// Writes what the link said.
fn write_said<O: TellingWriter>(said: &Said, output: &mut O) -> Result<(), Fault>
    ensures { WritesText O.told O.answers output.old output.new (said_text said.now) result }
{
    match said {
        Said::Reply(reply) => write_reply(reply, output),
        Said::Report(text) => put(output, text.as_slice()),
    }
}

// Does what a line asks for, and writes the answer when the lock is let go.
pub(crate) fn answer<W: TellingWriter, S: Rates, L: LinkBrand, R: Wait, O: TellingWriter>(
    rt: &R,
    alloc: Global,
    port: &Port<W, S, L>,
    pace: &Pace,
    clerk: &mut Clerk<L>,
    request: Request,
    output: &mut O,
) -> Result<(), Fault>
    ensures { (text : List ℕ) × AnswersRequest W clerk.old request text clerk.new
        × WritesText O.told O.answers output.old output.new text result }
{
    let said = say(rt, alloc, port, pace, clerk, request);
    write_said(&said, output)
}
