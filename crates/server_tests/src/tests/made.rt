//! New links, and offers for them.
ghost use Rattle.std.specs.Prelude.{◌≡◌, []};
ghost use Rattle.share_base.specs.declared.version.Version.TheVariants.{Two};

use crate::tests::assertions::holds;
use share_base::{Name, Parcel, Version};
use share_core::Engine;
use share_ingress::{IngressEnd, Offered};
use share_journal::{Journal, Recorder};
use share_model::{Rates, Tape};
use std::alloc::Global;
use std::process::Abort;
use std::sync::Wait;

/// An empty journal of this version.
pub(super) fn journal_of(rt: &impl Abort, alloc: Global, version: Version, life: u64) -> Journal {
    let mut journal = Journal::new(alloc, life).expect(rt, "a journal");
    journal.choose(version);
    journal
}

/// A recorder of a new link of version 2.
pub(super) fn recording<S: Rates + Drop>(
    rt: &impl Abort,
    alloc: Global,
    shelf: S,
    life: u64,
) -> Recorder<Tape, S>
    ensures empty { result.entries ≡ [] }
    ensures version { result.link.live.version ≡ Two }
{
    let mut engine = Engine::new(alloc, shelf, life, Tape::new(alloc)).expect(rt, "a link");
    engine.choose(Version::Two);
    let journal = journal_of(rt, alloc, Version::Two, life);
    let Ok(recorder) = Recorder::new(engine, journal) else {
        panic!(rt; "the link and its journal are not new");
    };
    recorder
}

/// Offers a packet for the flow a.
pub(super) fn offers<T: Wait + Abort>(rt: &T, alloc: Global, end: &mut IngressEnd) {
    let name = Name::read(b"a").expect(rt, "a name");
    let parcel = Parcel::new(alloc, b"x").expect(rt, "a payload");
    let offered = end.offer(rt, name, parcel);
    holds(rt, "an offer", matches!(&offered, Offered::Queued(_)));
    drop(offered);
}
