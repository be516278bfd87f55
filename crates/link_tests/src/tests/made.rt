//! New links, and what they are made of.
ghost use Rattle.std.specs.Prelude.{◌≡◌, IfSome};
ghost use Rattle.share_model.specs.link.Live.{empty_link};
ghost use Rattle.share_journal.specs.Records.{AcceptedNothing};

use share_base::Version;
use share_core::Engine;
use share_journal::{Journal, Recorder};
use share_model::{Answer, Rates, Scripted, TellingWriter};
use std::alloc::Global;
use std::process::Abort;

/// A life that no rows spend.
pub(super) const LIFE: u64 = 65536;

pub(super) static VERSIONS: [Version; 2] = [Version::One, Version::Two];

/// A new link of a version.
pub(super) fn linked<W: Drop, S: Rates + Drop>(
    rt: &impl Abort,
    alloc: Global,
    shelf: S,
    version: Version,
    life: u64,
    writer: W,
) -> Engine<W, S>
    ensures live { result.live ≡ empty_link version }
    ensures writer { result.writer ≡ writer }
{
    let mut engine = Engine::new(alloc, shelf, life, writer).expect(rt, "a link");
    engine.choose(version);
    engine
}

/// A writer that gives these answers, and then accepts all.
pub(super) fn scripted(rt: &impl Abort, alloc: Global, answers: &[Answer]) -> Scripted
    ensures { AcceptedNothing result.told }
{
    Scripted::new(alloc, Vec::from_slice(alloc, answers).expect(rt, "memory"))
}

/// The answers by which an offer is refused.
pub(super) static REFUSALS: [Answer; 3] = [
    Answer::Failed,
    Answer::Interrupted,
    Answer::Accepted(0),
];

/// A writer that accepts this many bytes, one a call, and then answers this.
pub(super) fn bytewise(rt: &impl Abort, alloc: Global, accepted: usize, last: Answer) -> Scripted {
    let mut answers = vec![in alloc; Answer::Accepted(1); accepted].expect(rt, "memory");
    answers.push(last).expect(rt, "memory");
    Scripted::new(alloc, answers)
}

/// A new journal of a version.
pub(super) fn journaled(rt: &impl Abort, alloc: Global, version: Version, life: u64) -> Journal {
    let mut journal = Journal::new(alloc, life).expect(rt, "a journal");
    journal.choose(version);
    journal
}

/// A recorder of a link and a journal that are new.
pub(super) fn paired<W: TellingWriter + Drop, S: Rates + Drop>(
    rt: &impl Abort,
    engine: Engine<W, S>,
    journal: Journal,
) -> Recorder<W, S>
    requires { IfSome (W.told engine.writer) AcceptedNothing }
{
    let recorder = Recorder::new(engine, journal).ok();
    recorder.expect(rt, "both are new, of one life and one version")
}

/// A recorder of a new link.
pub(super) fn recording<W: TellingWriter + Drop, S: Rates + Drop>(
    rt: &impl Abort,
    alloc: Global,
    shelf: S,
    version: Version,
    life: u64,
    writer: W,
) -> Recorder<W, S>
    requires { IfSome (W.told writer) AcceptedNothing }
{
    let engine = linked(rt, alloc, shelf, version, life, writer);
    paired(rt, engine, journaled(rt, alloc, version, life))
}
