//! New links.
ghost use Rattle.std.specs.Prelude.{◌≡◌, [], IfSome};
ghost use Rattle.share_base.specs.declared.version.Version.TheVariants.{Two};
ghost use Rattle.share_journal.specs.Records.{AcceptedNothing};

use share_base::{Name, Version};
use share_core::Engine;
use share_journal::{Journal, Recorder};
use share_model::{Rates, TellingWriter};
use std::alloc::Global;
use std::process::Abort;

// A new link of version 2.
fn linked<W: TellingWriter + Drop, S: Rates + Drop>(
    rt: &impl Abort,
    alloc: Global,
    shelf: S,
    life: u64,
    writer: W,
) -> Engine<W, S>
    ensures writer { result.writer ≡ writer }
    ensures version { result.live.version ≡ Two }
{
    let mut engine = Engine::new(alloc, shelf, life, writer).expect(rt, "a link");
    engine.choose(Version::Two);
    engine
}

/// A recorder of a new link of version 2 with this life, over a writer that has accepted nothing.
pub(super) fn recording<W: TellingWriter + Drop, S: Rates + Drop>(
    rt: &impl Abort,
    alloc: Global,
    shelf: S,
    life: u64,
    writer: W,
) -> Recorder<W, S>
    requires { IfSome (W.told writer) AcceptedNothing }
    ensures empty { result.entries ≡ [] }
    ensures version { result.link.live.version ≡ Two }
{
    let engine = linked(rt, alloc, shelf, life, writer);
    let mut journal = Journal::new(alloc, life).expect(rt, "a journal");
    journal.choose(Version::Two);
    match Recorder::new(engine, journal) {
        Ok(recorder) => recorder,
        Err(_) => panic!(rt; "both are new, and of one life and version"),
    }
}

pub(super) fn name(rt: &impl Abort, text: &[u8]) -> Name {
    Name::read(text).expect(rt, "a name")
}
