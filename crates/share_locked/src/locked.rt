//! The state behind the lock of a running link.
ghost use Rattle.std.specs.Prelude.{◌≡◌, ◌<◌, ◌≤◌, ◌++◌, [], suc, length, IfOk, IfErr};
ghost use Rattle.share_base.specs.declared.refusal.Refusal.TheVariants.{NoMemory};
ghost use Rattle.share_base.specs.declared.version.Version.TheVariants.{Two};
ghost use Rattle.share_model.specs.link.Answers.{answers_event};
ghost use Rattle.share_model.specs.link.Calls.{TurnCall};
ghost use Rattle.share_model.specs.text.Report.{report};
ghost use Rattle.share_journal.specs.Arrivals.{arrivals};
ghost use Rattle.share_journal.specs.Entries.{turn_entries};
ghost use Rattle.share_journal.specs.Records.{IsRunNow};
ghost use Rattle.share_locked.specs.Views.{LockedView, new_clerk, clerk_refusal, with_clerk};
ghost use Rattle.share_locked.specs.Calls.{Admission, CommandMade, KeepsSide};

mod settling;

use crate::clerk::{Clerk, receipt_of};
use crate::link::LinkBrand;
pub use settling::{Settled, Unsettled, WhyUnsettled, settle};
use share_base::{Command, Refusal, Reply, Turn};
use share_ingress::{Intake, Offer};
use share_journal::Recorder;
use share_model::{Rates, Tape, TellingWriter};
use std::alloc::Global;
use std::marker::{Model, PhantomData};
use std::sync::Wait;

/// The most clerks that a link has.
const MAX_CLERKS: u64 = 8;

/// The state behind the lock of a running link: a recorder, the intake of its queue, and the number of clerks made. Its
/// frames are of version 2, which carry every payload of an offer. At every moment the events of the entries are the
/// run of the link, as `recorder` says. The arrivals among them are what the intake took, in order.
#[derive(Drop)]
pub struct Locked<W: TellingWriter, S: Rates, L: LinkBrand> {
    recorder: Recorder<W, S>,
    intake: Intake,
    clerks: u64,
    of: PhantomData<L>,
}

impl<W: TellingWriter, S: Rates, L: LinkBrand> Model for Locked<W, S, L> {
    ghost use Rattle.std.specs.Prelude.{◌≡◌, ◌≤◌};
    ghost use Rattle.std.specs.Coded.{codes};
    ghost use Rattle.share_model.specs.stride.Moves.{coded_stride};
    ghost use Rattle.share_base.specs.declared.version.Version.TheVariants.{Two};
    ghost use Rattle.share_journal.specs.Arrivals.{arrivals};
    ghost use Rattle.share_locked.specs.Views.{LockedView};
    ghost use Rattle.share_locked.specs.declared.locked.TheConstants.{MAX_CLERKS};

    ghost Value = { LockedView W };

    ghost coded = { Prim.hlevel (codes, coded_stride) };

    ghost view = { λ l. record { recorder = l.recorder; intake = l.intake; clerks = l.clerks } };

    ghost invariant = { λ l.
        (l.intake.link ≡ L.link)
        × (arrivals l.recorder.entries ≡ l.intake.popped)
        × (l.clerks ≤ MAX_CLERKS)
        × (l.recorder.link.live.version ≡ Two) };
}

/// The answer of `Locked::admit`.
#[derive(Clone, Copy, Debug, PartialEq, Eq)]
pub enum Admit {
    /// The n-th offer of a worker was taken from the queue and came to its flow, with this reply.
    Admitted { worker: u64, n: u64, reply: Reply },
    /// The queue was empty at some moment of the call.
    Empty,
    /// The life was spent already, and nothing was taken.
    Spent,
}

impl<W: TellingWriter, S: Rates, L: LinkBrand> Locked<W, S, L> {
    /// Puts together an empty recorder of version 2 and the intake of this link, which has popped nothing. It takes no
    /// memory.
    pub fn new(recorder: Recorder<W, S>, intake: Intake) -> Locked<W, S, L>
        requires empty { recorder.entries ≡ [] }
        requires version { recorder.link.live.version ≡ Two }
        requires link { intake.link ≡ L.link }
        requires nothing { intake.popped ≡ [] }
        ensures { result ≡ record { recorder = recorder; intake = intake; clerks = 0 } }
    {
        Locked {
            recorder,
            intake,
            clerks: 0,
            of: PhantomData,
        }
    }

    /// The recorder. Its entries are a run. The arrivals among them are what the intake took of the queue, in order,
    /// numbered from 1 for each worker.
    pub fn recorder(&self) -> &Recorder<W, S>
        ensures recorder { result.now ≡ self.now.recorder }
        ensures run { IsRunNow W.told self.now.recorder.link self.now.recorder.entries }
        ensures arrivals { arrivals self.now.recorder.entries ≡ self.now.intake.popped }
        ensures link { self.now.intake.link ≡ L.link }
        ensures version { self.now.recorder.link.live.version ≡ Two }
    {
        let _ = self.recorder.journal();
        &self.recorder
    }

    /// The most offers that the queue holds.
    pub fn capacity(&self) -> usize
        ensures { result ≡ self.now.intake.capacity }
    {
        self.intake.capacity()
    }

    /// Makes one more clerk of this link. `TableFull` if there are eight already. It takes no memory.
    pub fn clerk(&mut self, alloc: Global) -> Result<Clerk<L>, Refusal>
        ensures ok { IfOk result (λ clerk.
            (clerk ≡ new_clerk (suc self.old.clerks) clerk.room)
            × (self.new ≡ with_clerk self.old)
            × (clerk_refusal self.old.clerks ≡ None)) }
        ensures refused { IfErr result (λ e.
            (clerk_refusal self.old.clerks ≡ Some e) × (self.new ≡ self.old)) }
    {
        if self.clerks >= MAX_CLERKS {
            return Err(Refusal::TableFull);
        }
        self.clerks += 1;
        Ok(Clerk::new(alloc, self.clerks))
    }

    /// Makes a command of a clerk, which must have room for a receipt, as `Clerk::ready` makes it. Gives the number of
    /// the command's entry in the journal and the reply, and the clerk keeps a receipt. If the reply is `Spent` or
    /// `NoMemory`, the command was no event: the number is 0, and nothing changed.
    pub fn command(&mut self, clerk: &mut Clerk<L>, command: Command) -> (u64, Reply)
        requires room { length clerk.old.receipts < clerk.old.room }
        ensures { CommandMade self.old clerk.old command result.0 result.1 self.new clerk.new }
    {
        let reply = self.recorder.command(clerk.number(), command);
        if !answers_event(&reply) {
            return (0, reply);
        }
        let number = self.recorder.journal().len();
        clerk.keep(receipt_of(number, &command, &reply));
        (number, reply)
    }

    /// Takes the offer in front of the queue and makes it an arrival, in one call. It takes no memory, and may spin
    /// while another thread is in the middle of a push.
    pub fn admit<R: Wait>(&mut self, rt: &R) -> Admit
        ensures { Admission self.old result self.new }
    {
        if self.recorder.engine().spent() {
            return Admit::Spent;
        }
        let Some(offer) = self.intake.take(rt) else {
            return Admit::Empty;
        };
        let Offer {
            worker,
            n,
            name,
            parcel,
        } = offer;
        // The answer is not used: its contract says that frames of version 2 carry the payload.
        let _ = parcel.len();
        let reply = self.recorder.arrive(worker, name, parcel);
        Admit::Admitted { worker, n, reply }
    }

    /// Makes a turn of the link that offers at most `most` bytes, at least 1, as `Recorder::turn` does. It takes no
    /// memory.
    pub fn turn(&mut self, most: u32) -> Turn
        requires { 1 ≤ most }
        ensures did { TurnCall W.answers self.old.recorder.link most result self.new.recorder.link }
        ensures entry { self.new.recorder.entries ≡ self.old.recorder.entries ++ turn_entries result }
        ensures side { KeepsSide self.old self.new }
    {
        self.recorder.turn(most)
    }

    /// The report of the link as it is. `NoMemory` if memory was refused.
    pub fn report(&self, alloc: Global) -> Result<Vec<u8>, Refusal>
        ensures ok { IfOk result (λ text. text.items ≡ report self.now.recorder.link.live) }
        ensures refused { IfErr result (λ e. e ≡ NoMemory) }
    {
        let mut tape = Tape::new(alloc);
        if share_report::report(self.recorder.engine(), &mut tape).is_err() {
            drop(tape);
            return Err(Refusal::NoMemory);
        }
        Ok(tape.into_bytes())
    }
}

// Whether a reply answers an event.
fn answers_event(reply: &Reply) -> bool
    ensures { result ≡ answers_event reply.now }
{
    match reply {
        Reply::Refused(Refusal::NoMemory) => false,
        Reply::Refused(Refusal::Spent) => false,
        _ => true,
    }
}
