//! New links, running links on which sessions are played, and their settling.
ghost use Rattle.std.specs.Prelude.{◌≡◌, IfSome};
ghost use Rattle.share_model.specs.lists.Each.{Each};
ghost use Rattle.share_journal.specs.Records.{AcceptedNothing};

use super::allocator::{refuse, refuse_each, was_refused};
use super::assertions::{holds, same};
use super::made::recording;
use crate::ByByte;
use share_base::{Name, Parcel};
use share_ingress::{IngressEnd, Intake, Offered, queue};
use share_journal::Recorder;
use share_locked::{
    Attendant, Clerk, LinkBrand, Locked, Pace, Port, Settled, Stop, Unsettled, WhyUnsettled, settle,
};
use share_model::TellingWriter;
use std::alloc::Global;
use std::marker::{Model, PhantomData};
use std::process::Abort;
use std::sync::{Mutex, Wait};

/// The parts of a new link: an empty recorder, and a queue of which nothing was taken. A contract sees the name of
/// the queue.
#[derive(Drop)]
pub(super) struct NewLink<W: TellingWriter> {
    recorder: Recorder<W, ByByte>,
    intake: Intake,
    ends: Vec<IngressEnd>,
}

impl<W: TellingWriter> Model for NewLink<W> {
    ghost use Rattle.std.specs.Prelude.{◌≡◌, []};
    ghost use Rattle.share_base.specs.declared.version.Version.TheVariants.{Two};
    ghost use Rattle.share_model.specs.lists.Each.{Each};
    ghost use Rattle.share_ingress.specs.Names.{LinkName};

    ghost Value = { LinkName };

    ghost view = { λ n. n.intake.link };

    ghost invariant = { λ n.
        (n.recorder.entries ≡ [])
        × (n.recorder.link.live.version ≡ Two)
        × (n.intake.popped ≡ [])
        × Each (λ e. e.link ≡ n.intake.link) n.ends.items };
}

/// A new link of version 2 with this life, over a writer that has accepted nothing and a queue of that many places.
pub(super) fn new_link<W: TellingWriter + Drop>(
    rt: &impl Abort,
    alloc: Global,
    places: usize,
    workers: usize,
    life: u64,
    writer: W,
) -> NewLink<W>
    requires { IfSome (W.told writer) AcceptedNothing }
{
    let (intake, ends) = queue(alloc, places, workers).expect(rt, "a queue");
    NewLink {
        recorder: recording(rt, alloc, ByByte, life, writer),
        intake,
        ends,
    }
}

/// An end of the queue of this link.
#[derive(Drop)]
pub(super) struct BrandedEnd<L: LinkBrand> {
    end: IngressEnd,
    of: PhantomData<L>,
}

impl<L: LinkBrand> Model for BrandedEnd<L> {
    ghost use Rattle.std.specs.Prelude.{◌≡◌};
    ghost use Rattle.share_ingress.specs.Ends.{EndView};

    ghost Value = { EndView };

    ghost view = { λ l. l.end };

    ghost invariant = { λ l. l.end.link ≡ L.link };
}

impl<L: LinkBrand> BrandedEnd<L> {
    pub(super) fn new(end: IngressEnd) -> BrandedEnd<L>
        requires { end.link ≡ L.link }
    {
        BrandedEnd {
            end,
            of: PhantomData,
        }
    }

    pub(super) fn into_end(self) -> IngressEnd
        ensures { result.link ≡ L.link }
    {
        self.end
    }

    pub(super) fn offer<R: Wait>(&mut self, rt: &R, name: Name, parcel: Parcel) -> Offered {
        self.end.offer(rt, name, parcel)
    }
}

/// A place for an end, from which a worker takes it for its work.
pub(super) type Slot<L> = Mutex<Option<BrandedEnd<L>>>;

/// A running link with its clerks and the ends of its queue, each behind a lock of its own.
#[derive(Drop)]
pub(super) struct Stage<W: TellingWriter, L: LinkBrand> {
    pub(super) port: Port<W, ByByte, L>,
    pub(super) pace: Pace,
    pub(super) has_ended: Stop,
    pub(super) clerks: Vec<Mutex<Clerk<L>>>,
    pub(super) ends: Vec<Slot<L>>,
}

impl<W: TellingWriter, L: LinkBrand> Attendant for Stage<W, L> {
    fn idles(&self) {}

    fn ends<R: Wait>(&self, _rt: &R) {
        self.has_ended.set();
    }
}

fn adds<A: Drop>(rt: &impl Abort, list: &mut Vec<A>, item: A) {
    assert!(rt; list.push(item).is_ok());
}

// The ends, each in a place of its own.
fn into_slots<L: LinkBrand>(rt: &impl Abort, alloc: Global, ends: Vec<IngressEnd>) -> Vec<Slot<L>>
    requires { Each (λ e. e.link ≡ L.link) ends.items }
{
    let mut slots = Vec::new(alloc);
    for end in ends {
        adds(rt, &mut slots, Mutex::new(Some(BrandedEnd::new(end))));
    }
    slots
}

// The ends in these places.
fn into_ends<L: LinkBrand>(rt: &impl Abort, alloc: Global, slots: Vec<Slot<L>>) -> Vec<IngressEnd>
    ensures { Each (λ e. e.link ≡ L.link) result.items }
{
    let mut ends = Vec::new(alloc);
    for slot in slots {
        let linked = slot.into_inner().expect(rt, "an end");
        assert!(rt; ends.push(linked.into_end()).is_ok());
    }
    ends
}

// A clerk has this number and took no memory.
fn is_clerk<L: LinkBrand>(rt: &impl Abort, alloc: Global, clerk: &Clerk<L>, number: u64) {
    holds(rt, "a clerk takes no memory", !was_refused(alloc));
    same(rt, "a clerk", clerk.number(), number);
}

// The next clerk, which has this number and takes no memory.
fn clerk_of<W: TellingWriter, L: LinkBrand>(
    rt: &impl Abort,
    alloc: Global,
    locked: &mut Locked<W, ByByte, L>,
    number: u64,
) -> Mutex<Clerk<L>> {
    refuse_each(alloc);
    let clerk = locked.clerk(alloc).expect(rt, "a clerk");
    is_clerk(rt, alloc, &clerk, number);
    Mutex::new(clerk)
}

/// A new link with that many clerks, numbered from 1. It and they are made without memory.
pub(super) fn staged<W: TellingWriter + Drop, L: LinkBrand>(
    rt: &impl Abort,
    alloc: Global,
    new: NewLink<W>,
    count: u64,
) -> Stage<W, L>
    requires { new ≡ L.link }
{
    let NewLink {
        recorder,
        intake,
        ends,
    } = new;
    let pace = Pace::new(alloc, intake.capacity(), ends.len()).expect(rt, "a pace");
    refuse_each(alloc);
    let mut locked: Locked<W, ByByte, L> = Locked::new(recorder, intake);
    holds(rt, "a link takes no memory", !was_refused(alloc));
    let mut clerks = Vec::new(alloc);
    for made in 0..count {
        let clerk = clerk_of(rt, alloc, &mut locked, made.saturating_add(1));
        adds(rt, &mut clerks, clerk);
    }
    Stage {
        port: Mutex::new(locked),
        pace,
        has_ended: Stop::new(),
        clerks,
        ends: into_slots(rt, alloc, ends),
    }
}

/// The part that a settling leaves out.
#[derive(Clone, Copy, Debug, PartialEq, Eq)]
pub(super) enum Without {
    Nothing,
    LastEnd,
    LastClerk,
}

// Moves the last of a list to another one.
fn move_last<A: Drop>(rt: &impl Abort, from: &mut Vec<A>, to: &mut Vec<A>) {
    if let Some(last) = from.pop() {
        adds(rt, to, last);
    }
}

fn into_clerks<L: LinkBrand>(
    rt: &impl Abort,
    alloc: Global,
    slots: Vec<Mutex<Clerk<L>>>,
) -> Vec<Clerk<L>> {
    let mut clerks = Vec::new(alloc);
    for slot in slots {
        adds(rt, &mut clerks, slot.into_inner());
    }
    clerks
}

// The link is not settled, for this reason, and all comes back. Memory is refused if that is the reason.
fn refused<W: TellingWriter + Drop, L: LinkBrand>(
    rt: &impl Abort,
    alloc: Global,
    locked: Locked<W, ByByte, L>,
    ends: Vec<IngressEnd>,
    clerks: Vec<Clerk<L>>,
    why: WhyUnsettled,
) -> Unsettled<W, ByByte, L>
    requires { Each (λ e. e.link ≡ L.link) ends.items }
    ensures { Each (λ e. e.link ≡ L.link) result.ends.items }
{
    let counts = (ends.len(), clerks.len());
    let is_lacking = why == WhyUnsettled::NoMemory;
    if is_lacking {
        refuse(alloc, 1);
    }
    let settled = settle(alloc, locked, ends, clerks);
    let was_refused = was_refused(alloc);
    let back = settled.err().expect(rt, "it is not settled");
    same(rt, why, (back.why, was_refused), (why, is_lacking));
    same(rt, why, (back.ends.len(), back.clerks.len()), counts);
    back
}

/// The link is not settled without this, for this reason. A clerk that was left out is the first one afterwards.
pub(super) fn unsettled<W: TellingWriter + Drop, L: LinkBrand>(
    rt: &impl Abort,
    alloc: Global,
    stage: Stage<W, L>,
    without: Without,
    why: WhyUnsettled,
) -> Stage<W, L> {
    let Stage {
        port,
        pace,
        has_ended,
        mut clerks,
        mut ends,
    } = stage;
    let mut left_out = Vec::new(alloc);
    let mut first = Vec::new(alloc);
    match without {
        Without::Nothing => (),
        Without::LastEnd => move_last(rt, &mut ends, &mut left_out),
        Without::LastClerk => move_last(rt, &mut clerks, &mut first),
    }
    let ends = into_ends(rt, alloc, ends);
    let clerks = into_clerks(rt, alloc, clerks);
    let back = refused(rt, alloc, port.into_inner(), ends, clerks, why);
    let mut ends = into_slots(rt, alloc, back.ends);
    move_last(rt, &mut left_out, &mut ends);
    drop(left_out);
    for clerk in back.clerks {
        adds(rt, &mut first, Mutex::new(clerk));
    }
    Stage {
        port: Mutex::new(back.locked),
        pace,
        has_ended,
        clerks: first,
        ends,
    }
}

/// The figures of the books of a settled link: the tallies, the arrivals, the commands and the entries.
pub(super) type Books<'a> = (&'a [u64], u64, u64, u64);

/// The link is settled, with these books, by one request for memory.
pub(super) fn settled<W: TellingWriter + Drop, L: LinkBrand>(
    rt: &impl Abort,
    alloc: Global,
    row: &str,
    stage: Stage<W, L>,
    books: Books<'_>,
) -> Recorder<W, ByByte> {
    let Stage {
        port,
        pace,
        has_ended,
        clerks,
        ends,
    } = stage;
    drop(pace);
    drop(has_ended);
    let ends = into_ends(rt, alloc, ends);
    let clerks = into_clerks(rt, alloc, clerks);
    refuse(alloc, 2);
    let settled = settle(alloc, port.into_inner(), ends, clerks);
    holds(rt, row, !was_refused(alloc));
    let Settled {
        recorder,
        tallies,
        arrivals,
        commands,
    } = settled.ok().expect(rt, row);
    let found = (
        tallies.as_slice(),
        arrivals,
        commands,
        recorder.journal().len(),
    );
    same(rt, row, found, books);
    drop(tallies);
    recorder
}
