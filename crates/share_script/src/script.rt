//! Scripts, run from a reader to a writer.
ghost use Rattle.std.specs.Prelude.{◌≡◌, ◌<◌, ◌^◌, ◌++◌, [], length, Err, IfSome, OnOk, MatchResult};
ghost use Rattle.share_base.specs.declared.version.Version.TheVariants.{One};
ghost use Rattle.share_model.specs.io.Calls.{ReadsToEnd, ReadFails, HasRead, Offers, OfferRefused, CallFailed};
ghost use Rattle.share_model.specs.io.Told.{TapeAnswers};
ghost use Rattle.share_model.specs.link.Live.{empty_link};
ghost use Rattle.share_model.specs.io.Printing.{bytes_told};
ghost use Rattle.share_model.specs.text.Answering.{TakesAll};
ghost use Rattle.share_model.specs.text.Talk.{start_of_script};
ghost use Rattle.share_script.specs.Script.{IsOneFold};
ghost use Rattle.share_script.specs.Script.{Printed, PrintedPart, Feeds, FeedsPart, FedWhole, FedPart, PrintedAnswer};
ghost use Rattle.share_script.specs.Script.{PrintedAnswerPart, FinishesScript, FinishesScriptPart};
ghost use Rattle.share_script.specs.Script.{Wrote, MakesCalls, FoundNone};
ghost use Rattle.share_script.specs.Session.{HoldsScript};

use crate::answers::{Session, answer, print};
use crate::carry::Carry;
use crate::chunk::CHUNK;
use crate::spool::Spool;
use memchr::memchr;
use share_core::Engine;
use share_model::{Fault, Got, Rates, Tape, TellingReader, TellingWriter};
use std::alloc::{AllocError, AllocFailed, Global};
use thiserror::Error;

/// The most read calls that a run makes.
const MAX_READS: u64 = 1 << 32;

/// Why a script was not run to its end.
#[derive(Clone, Copy, Debug, PartialEq, Eq, Error)]
pub enum ScriptFault {
    /// A read failed, or the script takes more than 2^32 reads.
    #[error("cannot read the script")]
    Input,
    /// An offer of an answer, of a report or of the line of the bytes was refused.
    #[error("cannot write the output")]
    Output,
    /// Memory was refused: for the link, for the buffers, or for the bytes of a frame.
    #[error("out of memory")]
    NoMemory,
}

impl From<Fault> for ScriptFault {
    ghost use Rattle.std.specs.Prelude.{◌≡◌};
    ghost use Rattle.share_script.specs.declared.script.ScriptFault.TheVariants.{Output};

    ghost from_gives = { λ _ fault. fault ≡ Output };

    fn from(_refused: Fault) -> ScriptFault {
        ScriptFault::Output
    }
}

impl From<AllocError> for ScriptFault {
    ghost use Rattle.std.specs.Prelude.{◌≡◌};
    ghost use Rattle.share_script.specs.declared.script.ScriptFault.TheVariants.{NoMemory};

    ghost from_gives = { λ _ fault. fault ≡ NoMemory };

    fn from(_refused: AllocError) -> ScriptFault {
        ScriptFault::NoMemory
    }
}

impl<T: Drop> From<AllocFailed<T>> for ScriptFault {
    ghost use Rattle.std.specs.Prelude.{◌≡◌};
    ghost use Rattle.share_script.specs.declared.script.ScriptFault.TheVariants.{NoMemory};

    ghost from_gives = { λ _ fault. fault ≡ NoMemory };

    fn from(_refused: AllocFailed<T>) -> ScriptFault {
        ScriptFault::NoMemory
    }
}

/// Runs a script on a new link whose tape is empty. Each line is answered by a line of output. `report` is answered by
/// the report of the link, and `audit 1` or `audit 2` as the first line by nothing. That first line chooses the version
/// of the script, which is 1 if its first line is another. The answers to what one read gave are offered before the
/// next read is made. An interrupted read is made again; at most 2^32 reads are made. The run ends with the input, or
/// at the first fault. A fault drops the link, and what was printed is then a beginning of the answers to the lines of
/// what was read.
///
/// `Input` if a read failed or too many would be made, `Output` if an offer of an answer or a report was refused.
/// `NoMemory` if there was no memory for the buffers, before anything is read, or the tape found none for a frame.
pub fn run_script<S: Rates + Drop, I: TellingReader, O: TellingWriter>(
    alloc: Global,
    engine: Engine<Tape, S>,
    input: &mut I,
    output: &mut O,
) -> Result<Engine<Tape, S>, ScriptFault>
    requires fresh { engine.live ≡ empty_link One }
    requires empty { engine.writer ≡ record { bytes = []; counts = [] } }
    ensures fold { IfSome (I.left input.old) (λ script. MatchResult result
        (λ done. IsOneFold (bytes_told (O.told output.old)) (bytes_told (O.told output.new)) engine script
        (I.left input.new) done)
        (λ _. PrintedPart (bytes_told (O.told output.old)) (bytes_told (O.told output.new)) engine script
        (I.left input.new))) }
    ensures read { OnOk result (ReadsToEnd I.gives (2 ^ 32) input.old input.new) }
    ensures offers { OnOk result (Offers O.answers output.old output.new) }
    ensures input { result ≡ Err ScriptFault.Input → ReadFails I.gives (2 ^ 32) input.old input.new
        × Offers O.answers output.old output.new }
    ensures output { result ≡ Err ScriptFault.Output → HasRead I.gives (2 ^ 32) input.old input.new
        × OfferRefused O.answers output.old output.new }
    ensures memory { result ≡ Err ScriptFault.NoMemory → FoundNone I.gives (2 ^ 32) input.old input.new
        TapeAnswers engine.writer O.answers output.old output.new }
{
    let _ = engine.events();
    let mut session = Session::new(alloc, engine);
    match run_lines(alloc, &mut session, input, output) {
        Ok(()) => Ok(session.into_engine()),
        Err(fault) => {
            drop(session);
            Err(fault)
        }
    }
}

fn run_lines<S: Rates + Drop, I: TellingReader, O: TellingWriter>(
    alloc: Global,
    session: &mut Session<Tape, S>,
    input: &mut I,
    output: &mut O,
) -> Result<(), ScriptFault>
    requires start { HoldsScript Some session.old start_of_script }
    ensures printed { IfSome (I.left input.old) (λ script. MatchResult result
        (λ _. Printed (bytes_told (O.told output.old)) (bytes_told (O.told output.new))
        session.old.link script (I.left input.new) session.new.link)
        (λ _. PrintedPart (bytes_told (O.told output.old)) (bytes_told (O.told output.new))
        session.old.link script (I.left input.new))) }
    ensures read { OnOk result (ReadsToEnd I.gives (2 ^ 32) input.old input.new) }
    ensures offers { OnOk result (Offers O.answers output.old output.new) }
    ensures input { result ≡ Err ScriptFault.Input → ReadFails I.gives (2 ^ 32) input.old input.new
        × Offers O.answers output.old output.new }
    ensures output { result ≡ Err ScriptFault.Output → HasRead I.gives (2 ^ 32) input.old input.new
        × OfferRefused O.answers output.old output.new }
    ensures memory { result ≡ Err ScriptFault.NoMemory → FoundNone I.gives (2 ^ 32) input.old input.new
        TapeAnswers session.old.link.writer O.answers output.old output.new }
{
    let mut chunk = vec![in alloc; 0u8; CHUNK]?;
    let carry = Carry::new(alloc)?;
    let spool = Spool::new(alloc)?;
    let mut pending = Pending { carry, spool };
    read_all(session, &mut pending, input, output, chunk.as_mut_slice())?;
    finish(session, &mut pending, output)?;
    Ok(())
}

// The state of a run from one line to the next: the beginning of a line, and the answers that wait.
#[derive(Drop)]
struct Pending {
    carry: Carry,
    spool: Spool,
}

// Reads and answers all lines that end in a line feed; the rest of the input is carried.
fn read_all<W: TellingWriter + Drop, S: Rates + Drop, I: TellingReader, O: TellingWriter>(
    session: &mut Session<W, S>,
    pending: &mut Pending,
    input: &mut I,
    output: &mut O,
    chunk: &mut [u8],
) -> Result<(), ScriptFault>
    requires whole { TakesAll W.answers }
    requires room { 0 < length chunk.old }
    requires none { pending.old.carry ≡ [] }
    requires nothing { pending.old.spool ≡ [] }
    ensures fed { IfSome (I.left input.old) (λ script. MatchResult result
        (λ _. FedWhole W.told (bytes_told (O.told output.old)) (bytes_told (O.told output.new))
        session.old script (I.left input.new) session.new pending.new.carry)
        (λ _. FedPart W.told (bytes_told (O.told output.old)) (bytes_told (O.told output.new))
        session.old script (I.left input.new))) }
    ensures nothing { OnOk result (pending.new.spool ≡ []) }
    ensures calls { OnOk result (ReadsToEnd I.gives (2 ^ 32) input.old input.new
        × Wrote W.answers O.answers session.old.link.writer session.new.link.writer output.old output.new) }
    ensures input { result ≡ Err ScriptFault.Input → ReadFails I.gives (2 ^ 32) input.old input.new
        × Offers O.answers output.old output.new }
    ensures output { result ≡ Err ScriptFault.Output → HasRead I.gives (2 ^ 32) input.old input.new
        × OfferRefused O.answers output.old output.new }
    ensures memory { result ≡ Err ScriptFault.NoMemory → HasRead I.gives (2 ^ 32) input.old input.new
        × CallFailed W.answers session.old.link.writer session.new.link.writer
        × Offers O.answers output.old output.new }
{
    for reads in 0..MAX_READS {
        match input.take_bytes(chunk) {
            Got::Bytes(count) => {
                answer_chunk(session, pending, output, &chunk[..count])?;
            }
            Got::End => return Ok(()),
            Got::Interrupted => (),
            Got::Failed => return Err(ScriptFault::Input),
        }
    }
    Err(ScriptFault::Input)
}

// Answers each line that ends in the chunk, and writes the answers; the rest of the chunk is carried.
fn answer_chunk<W: TellingWriter + Drop, S: Rates + Drop, O: TellingWriter>(
    session: &mut Session<W, S>,
    pending: &mut Pending,
    output: &mut O,
    chunk: &[u8],
) -> Result<(), ScriptFault>
    requires whole { TakesAll W.answers }
    requires nothing { pending.old.spool ≡ [] }
    ensures fed { MatchResult result
        (λ _. Feeds W.told (bytes_told (O.told output.old)) [] (bytes_told (O.told output.new)) []
        session.old pending.old.carry chunk.now session.new pending.new.carry)
        (λ _. FeedsPart W.told (bytes_told (O.told output.old)) [] (bytes_told (O.told output.new))
        session.old pending.old.carry chunk.now) }
    ensures nothing { OnOk result (pending.new.spool ≡ []) }
    ensures calls { MakesCalls W.answers O.answers session.old.link.writer session.new.link.writer
        output.old output.new result }
{
    feed(session, pending, output, chunk)?;
    pending.spool.put_out(output)?;
    Ok(())
}

// Answers each line that ends in the chunk; the rest of the chunk is carried.
fn feed<W: TellingWriter + Drop, S: Rates + Drop, O: TellingWriter>(
    session: &mut Session<W, S>,
    pending: &mut Pending,
    output: &mut O,
    chunk: &[u8],
) -> Result<(), ScriptFault>
    requires whole { TakesAll W.answers }
    ensures fed { MatchResult result
        (λ _. Feeds W.told (bytes_told (O.told output.old)) pending.old.spool
        (bytes_told (O.told output.new)) pending.new.spool session.old pending.old.carry chunk.now
        session.new pending.new.carry)
        (λ _. FeedsPart W.told (bytes_told (O.told output.old)) pending.old.spool
        (bytes_told (O.told output.new)) session.old pending.old.carry chunk.now) }
    ensures calls { MakesCalls W.answers O.answers session.old.link.writer session.new.link.writer
        output.old output.new result }
{
    let mut at = 0;
    while let Some(count) = memchr(b'\n', &chunk[at..]) {
        end_line(session, pending, output, &chunk[at..at + count])?;
        at += count + 1;
    }
    pending.carry.add(&chunk[at..]);
    Ok(())
}

// Answers the line that is carried and ends in this piece.
fn end_line<W: TellingWriter + Drop, S: Rates + Drop, O: TellingWriter>(
    session: &mut Session<W, S>,
    pending: &mut Pending,
    output: &mut O,
    piece: &[u8],
) -> Result<(), ScriptFault>
    requires whole { TakesAll W.answers }
    ensures printed { MatchResult result
        (λ _. PrintedAnswer W.told (bytes_told (O.told output.old)) pending.old.spool
        (bytes_told (O.told output.new)) pending.new.spool session.old (pending.old.carry ++ piece.now) session.new)
        (λ _. PrintedAnswerPart W.told (bytes_told (O.told output.old)) pending.old.spool
        (bytes_told (O.told output.new)) session.old (pending.old.carry ++ piece.now)) }
    ensures none { OnOk result (pending.new.carry ≡ []) }
    ensures calls { MakesCalls W.answers O.answers session.old.link.writer session.new.link.writer
        output.old output.new result }
{
    if pending.carry.is_empty() {
        return answer_and_print(session, &mut pending.spool, output, piece);
    }
    pending.carry.add(piece);
    answer_and_print(
        session,
        &mut pending.spool,
        output,
        pending.carry.as_slice(),
    )?;
    pending.carry.clear();
    Ok(())
}

// If there are bytes after the last line feed, they are a line.
fn finish<W: TellingWriter + Drop, S: Rates + Drop, O: TellingWriter>(
    session: &mut Session<W, S>,
    pending: &mut Pending,
    output: &mut O,
) -> Result<(), ScriptFault>
    requires whole { TakesAll W.answers }
    requires nothing { pending.old.spool ≡ [] }
    ensures ends { MatchResult result
        (λ _. FinishesScript W.told (bytes_told (O.told output.old)) (bytes_told (O.told output.new))
        session.old pending.old.carry session.new)
        (λ _. FinishesScriptPart W.told (bytes_told (O.told output.old)) (bytes_told (O.told output.new))
        session.old pending.old.carry) }
    ensures calls { MakesCalls W.answers O.answers session.old.link.writer session.new.link.writer
        output.old output.new result }
{
    if pending.carry.is_empty() {
        return Ok(());
    }
    answer_and_print(
        session,
        &mut pending.spool,
        output,
        pending.carry.as_slice(),
    )?;
    pending.spool.put_out(output)?;
    Ok(())
}

// Answers a line. The answer waits to be written, but a report is written at once, after all that waits.
#[inline(always)]
fn answer_and_print<W: TellingWriter + Drop, S: Rates + Drop, O: TellingWriter>(
    session: &mut Session<W, S>,
    spool: &mut Spool,
    output: &mut O,
    line: &[u8],
) -> Result<(), ScriptFault>
    requires whole { TakesAll W.answers }
    ensures printed { MatchResult result
        (λ _. PrintedAnswer W.told (bytes_told (O.told output.old)) spool.old
        (bytes_told (O.told output.new)) spool.new session.old line.now session.new)
        (λ _. PrintedAnswerPart W.told (bytes_told (O.told output.old)) spool.old
        (bytes_told (O.told output.new)) session.old line.now) }
    ensures calls { MakesCalls W.answers O.answers session.old.link.writer session.new.link.writer
        output.old output.new result }
{
    spool.make_room(output)?;
    let line_answer = answer(session, line)?;
    print(session.engine(), spool, output, &line_answer)?;
    Ok(())
}
