//! The answers to the lines of a script in progress.
ghost use Rattle.std.specs.Prelude.{◌≡◌, ◌≤◌, ◌+◌, Bool, length, true, false, IfOk, IfErr, OnOk, MatchResult};
ghost use Rattle.std.specs.Prelude.{if◌then◌else◌};
ghost use Rattle.share_base.specs.declared.refusal.Refusal.TheVariants.{Spent, Syntax};
ghost use Rattle.share_model.specs.declared.line.Line.TheVariants.{Change, Turn as TurnLine, Audit as AuditLine};
ghost use Rattle.share_model.specs.io.Calls.{Offers, OfferRefused, Called, CallFailed};
ghost use Rattle.share_model.specs.io.Printing.{bytes_told};
ghost use Rattle.share_model.specs.text.Lines.{HasFields, is_in_range};
ghost use Rattle.share_model.specs.text.Report.{report};
ghost use Rattle.share_model.specs.text.Answering.{AnswersBytes, AnswersLine, TakesAll};
ghost use Rattle.share_model.specs.text.Talk.{is_syntax};
ghost use Rattle.share_model.specs.text.Texts.{line_text};
ghost use Rattle.share_script.specs.Printing.{Spooled, SpooledPart};
ghost use Rattle.share_script.specs.Script.{is_torn};
ghost use Rattle.share_script.specs.Session.{answer_text};

use crate::script::ScriptFault;
use crate::spool::{SPOOL, Spool};
use share_base::{Command, Outcome, Refusal, Reply, Turn, Version};
use share_core::Engine;
use share_model::{Line, Rates, TellingWriter};
use share_report::report;
use share_text::{MAX_ANSWER, push_line, read_line, read_packet, read_turn};
use std::alloc::Global;
use std::marker::Model;

/// A script in progress: its link, and whether none of its lines was answered yet. A contract sees it so. Its lines
/// take their memory from its allocator.
#[derive(Drop)]
pub struct Session<W, S: Rates> {
    alloc: Global,
    engine: Engine<W, S>,
    first: bool,
}

impl<W, S: Rates> Model for Session<W, S> {
    ghost use Rattle.std.specs.Coded.{codes};
    ghost use Rattle.share_model.specs.stride.Moves.{coded_stride};
    ghost use Rattle.std.specs.Prelude.{◌≡◌, true};
    ghost use Rattle.share_script.specs.Session.{SessionView};

    ghost Value = { SessionView W };

    ghost coded = { Prim.hlevel (codes, coded_stride) };

    ghost view = { λ session. record { link = session.engine; first = session.first } };

    ghost invariant = { λ session. session.first ≡ true → session.engine.live.counts.events ≡ 0 };
}

impl<W, S: Rates> Session<W, S> {
    /// A script of which no line was answered yet, on a link that made no event.
    pub fn new(alloc: Global, engine: Engine<W, S>) -> Session<W, S>
        requires { engine.live.counts.events ≡ 0 }
        ensures { result ≡ record { link = engine; first = true } }
    {
        Session {
            alloc,
            engine,
            first: true,
        }
    }

    /// The link.
    pub fn into_engine(self) -> Engine<W, S>
        ensures { result ≡ self.link }
    {
        self.engine
    }

    /// The link.
    pub fn engine(&self) -> &Engine<W, S>
        ensures { result.now ≡ self.now.link }
    {
        &self.engine
    }
}

/// The answers to lines.
#[derive(Drop)]
pub enum LineAnswer {
    /// The line of an outcome.
    Outcome(Outcome),
    /// The report of the link.
    Report,
    /// Nothing at all.
    Nothing,
}

/// Reads the next line and makes what it asks for.
#[inline(always)]
pub fn answer<W: TellingWriter + Drop, S: Rates + Drop>(
    session: &mut Session<W, S>,
    bytes: &[u8],
) -> Result<LineAnswer, ScriptFault>
    requires { TakesAll W.answers }
    ensures says { IfOk result (λ line_answer. AnswersBytes W.told session.old.link session.old.first bytes.now
        (answer_text session.new.link.live line_answer) session.new.link) }
    ensures later { OnOk result (session.new.first ≡ false) }
    ensures called { OnOk result (Called W.answers session.old.link.writer session.new.link.writer) }
    ensures fault { IfErr result (λ fault. (fault ≡ ScriptFault.NoMemory)
        × CallFailed W.answers session.old.link.writer session.new.link.writer) }
{
    let first = session.first;
    session.first = false;
    answer_in_place(session.alloc, &mut session.engine, first, bytes)
}

// Answers a turn, and a packet whose payload needs no memory, where it was read: no line is copied on its way.
#[inline(always)]
fn answer_in_place<W: TellingWriter + Drop, S: Rates + Drop>(
    alloc: Global,
    engine: &mut Engine<W, S>,
    first: bool,
    bytes: &[u8],
) -> Result<LineAnswer, ScriptFault>
    requires whole { TakesAll W.answers }
    requires fresh { first ≡ true → engine.old.live.counts.events ≡ 0 }
    ensures says { IfOk result (λ line_answer. AnswersBytes W.told engine.old first bytes.now
        (answer_text engine.new.live line_answer) engine.new) }
    ensures called { OnOk result (Called W.answers engine.old.writer engine.new.writer) }
    ensures fault { IfErr result (λ fault. (fault ≡ ScriptFault.NoMemory)
        × CallFailed W.answers engine.old.writer engine.new.writer) }
{
    if let Some(most) = read_turn(bytes) {
        return answer_line(engine, Line::Turn(most), first);
    }
    if let Some(packet) = read_packet(alloc, bytes) {
        let (flow, body) = packet;
        return answer_line(engine, Line::Send { flow, body }, first);
    }
    answer_bytes(alloc, engine, first, bytes)
}

#[inline(always)]
fn answer_bytes<W: TellingWriter + Drop, S: Rates + Drop>(
    alloc: Global,
    engine: &mut Engine<W, S>,
    first: bool,
    bytes: &[u8],
) -> Result<LineAnswer, ScriptFault>
    requires whole { TakesAll W.answers }
    requires fresh { first ≡ true → engine.old.live.counts.events ≡ 0 }
    ensures says { IfOk result (λ line_answer. AnswersBytes W.told engine.old first bytes.now
        (answer_text engine.new.live line_answer) engine.new) }
    ensures called { OnOk result (Called W.answers engine.old.writer engine.new.writer) }
    ensures fault { IfErr result (λ fault. (fault ≡ ScriptFault.NoMemory)
        × CallFailed W.answers engine.old.writer engine.new.writer) }
{
    match read_line(alloc, engine.version(), bytes) {
        Ok(line) => answer_line(engine, line, first),
        Err(refusal) => Ok(refusal_answer(unread(refusal, engine.spent()))),
    }
}

// A fault of spelling is reported before a spent life, and any other fault after it.
fn unread(refusal: Refusal, spent: bool) -> Refusal
    ensures { result ≡ (if is_syntax refusal then Syntax else if spent then Spent else refusal) }
{
    if is_syntax(refusal) {
        Refusal::Syntax
    } else if spent {
        Refusal::Spent
    } else {
        refusal
    }
}

fn is_syntax(refusal: Refusal) -> bool
    ensures { result ≡ is_syntax refusal }
{
    matches!(refusal, Refusal::Syntax)
}

fn refusal_answer(refusal: Refusal) -> LineAnswer
    ensures { result ≡ LineAnswer.Outcome (Outcome.Replied (Reply.Refused refusal)) }
{
    LineAnswer::Outcome(Outcome::Replied(Reply::Refused(refusal)))
}

#[inline(always)]
fn answer_line<W: TellingWriter + Drop, S: Rates + Drop>(
    engine: &mut Engine<W, S>,
    line: Line,
    first: bool,
) -> Result<LineAnswer, ScriptFault>
    requires whole { TakesAll W.answers }
    requires fields { HasFields line }
    requires in_range { is_in_range engine.old.live.version line ≡ true }
    requires fresh { first ≡ true → engine.old.live.counts.events ≡ 0 }
    ensures says { IfOk result (λ line_answer. AnswersLine W.told engine.old first line
        (answer_text engine.new.live line_answer) engine.new) }
    ensures called { OnOk result (Called W.answers engine.old.writer engine.new.writer) }
    ensures fault { IfErr result (λ fault. (fault ≡ ScriptFault.NoMemory)
        × CallFailed W.answers engine.old.writer engine.new.writer) }
{
    match line {
        Line::Change(command) => Ok(LineAnswer::Outcome(change(engine, command))),
        Line::Send { flow, body } => Ok(LineAnswer::Outcome(Outcome::Replied(engine.arrive(
            flow, body,
        )))),
        Line::Turn(most) => turn(engine, most as u32),
        Line::Torn => Ok(LineAnswer::Outcome(Outcome::Turned(engine.tear()))),
        Line::Report => Ok(LineAnswer::Report),
        Line::Audit(version) => Ok(audit(engine, version, first)),
    }
}

// As the first line it chooses the version of the script. In another place it is no line.
fn audit<W: TellingWriter + Drop, S: Rates + Drop>(
    engine: &mut Engine<W, S>,
    version: Version,
    first: bool,
) -> LineAnswer
    requires { first ≡ true → engine.old.live.counts.events ≡ 0 }
    ensures says { AnswersLine W.told engine.old first (AuditLine version)
        (answer_text engine.new.live result) engine.new }
    ensures called { Called W.answers engine.old.writer engine.new.writer }
{
    if !first {
        return refusal_answer(Refusal::Syntax);
    }
    engine.choose(version);
    LineAnswer::Nothing
}

fn change<W: TellingWriter + Drop, S: Rates + Drop>(
    engine: &mut Engine<W, S>,
    command: Command,
) -> Outcome
    ensures says { (first : Bool) → AnswersLine W.told engine.old first (Change command)
        (line_text result) engine.new }
    ensures called { Called W.answers engine.old.writer engine.new.writer }
{
    Outcome::Replied(engine.command(command))
}

// A writer over memory fails only if it lacks memory.
#[inline(always)]
fn turn<W: TellingWriter + Drop, S: Rates + Drop>(
    engine: &mut Engine<W, S>,
    most: u32,
) -> Result<LineAnswer, ScriptFault>
    requires whole { TakesAll W.answers }
    requires some { 1 ≤ most }
    ensures says { IfOk result (λ line_answer. (first : Bool) → AnswersLine W.told engine.old first (TurnLine most)
        (answer_text engine.new.live line_answer) engine.new) }
    ensures called { OnOk result (Called W.answers engine.old.writer engine.new.writer) }
    ensures fault { IfErr result (λ fault. (fault ≡ ScriptFault.NoMemory)
        × CallFailed W.answers engine.old.writer engine.new.writer) }
{
    let _ = engine.events();
    let turn = engine.turn(most);
    if is_torn(&turn) {
        return Err(ScriptFault::NoMemory);
    }
    Ok(LineAnswer::Outcome(Outcome::Turned(turn)))
}

fn is_torn(turn: &Turn) -> bool
    ensures { result ≡ is_torn turn.now }
{
    matches!(turn, Turn::Torn { .. })
}

/// Prints what a line is answered with. The line of an outcome waits to be written, and a report is written at once,
/// after all that waits.
pub fn print<W, S: Rates, O: TellingWriter>(
    engine: &Engine<W, S>,
    spool: &mut Spool,
    output: &mut O,
    line_answer: &LineAnswer,
) -> Result<(), ScriptFault>
    requires { length spool.old + MAX_ANSWER ≤ SPOOL }
    ensures spooled { MatchResult result
        (λ _. Spooled (bytes_told (O.told output.old)) spool.old (bytes_told (O.told output.new))
        spool.new (answer_text engine.now.live line_answer.now))
        (λ _. SpooledPart (bytes_told (O.told output.old)) spool.old (bytes_told (O.told output.new))
        (answer_text engine.now.live line_answer.now)) }
    ensures offers { MatchResult result (λ _. Offers O.answers output.old output.new)
        (λ fault. (fault ≡ ScriptFault.Output) × OfferRefused O.answers output.old output.new) }
{
    match line_answer {
        LineAnswer::Outcome(outcome) => {
            push_line(spool, outcome);
            Ok(())
        }
        LineAnswer::Report => print_report(engine, spool, output),
        LineAnswer::Nothing => Ok(()),
    }
}

// A report needs some pages of the stack, which no other answer does.
#[inline(never)]
fn print_report<W, S: Rates, O: TellingWriter>(
    engine: &Engine<W, S>,
    spool: &mut Spool,
    output: &mut O,
) -> Result<(), ScriptFault>
    ensures spooled { MatchResult result
        (λ _. Spooled (bytes_told (O.told output.old)) spool.old (bytes_told (O.told output.new))
        spool.new (report engine.now.live))
        (λ _. SpooledPart (bytes_told (O.told output.old)) spool.old (bytes_told (O.told output.new))
        (report engine.now.live)) }
    ensures offers { MatchResult result (λ _. Offers O.answers output.old output.new)
        (λ fault. (fault ≡ ScriptFault.Output) × OfferRefused O.answers output.old output.new) }
{
    spool.put_out(output)?;
    report(engine, output)?;
    Ok(())
}
