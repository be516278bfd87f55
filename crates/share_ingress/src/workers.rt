//! Workers, which queue the records that they read.
ghost use Rattle.std.specs.Prelude.{◌≡◌, ◌≢◌, None, MatchResult};
ghost use Rattle.share_ingress.specs.Ends.{with_offer};
ghost use Rattle.share_ingress.specs.GateCalls.{GateCall, item_next, item_queued, queue_full};
ghost use Rattle.share_ingress.specs.Gates.{Waits, Drops, WorkerRan, WorkerRanOut};
ghost use Rattle.share_ingress.specs.Reader.{left_of};
ghost use Rattle.share_ingress.specs.Workers.{Worked};
ghost use Rattle.share_ingress.specs.declared.workers.Why.TheVariants.{NotStarted};

use crate::ends::{IngressEnd, Offered};
use crate::reader::{IngressReader, Next};
use share_base::{Name, Parcel};
use share_model::{Ended, TellingReader};
use std::snapshot::Snapshot;
use std::sync::Wait;

/// Hears of a worker's work, and may stop it when the queue is full. Items are counted from 1 in each run of a
/// worker. `told` is what contracts know of a call.
pub trait Gate {
    /// The gate before a call, the call with its answer, and the gate after.
    ghost told: { Self → GateCall → Self → Type 0 };

    /// The n-th item is about to be offered for the first time.
    fn before(&mut self, n: u64)
        ensures { told self.old (item_next n) self.new };

    /// The n-th item is queued.
    fn offered(&mut self, n: u64)
        ensures { told self.old (item_queued n) self.new };

    /// The queue was full. Whether to offer the item again; if not, the worker stops.
    fn full(&mut self) -> bool
        ensures { told self.old (queue_full result) self.new };
}

/// Why a worker stopped.
#[derive(Clone, Copy, Debug, PartialEq, Eq)]
pub enum Why {
    /// The reader ended so; or the bound was used up while the queue was full, which is `Bound`.
    Ended(Ended),
    /// The gate stopped it. The item in hand was dropped.
    Stopped,
    /// It was never started. Nothing was read, and the reader was dropped.
    NotStarted,
}

/// The rest of a worker's work: its end and its gate, why it stopped, and the number of items that it queued.
#[derive(Drop)]
pub struct Done<G> {
    pub end: IngressEnd,
    pub gate: G,
    pub why: Why,
    pub tally: u64,
}

/// Reads records and queues their items, in order, until the reader ends or the gate stops it. While the queue is full,
/// the item in hand is offered again, and each such offer uses up a read of the reader's bound. An item that is not
/// queued at the end is dropped, and nothing is read after it. The reader is dropped.
pub fn run_worker<T: Wait, R: TellingReader + Drop, G: Gate>(
    rt: &T,
    reader: IngressReader<R>,
    end: IngressEnd,
    gate: G,
) -> Done<G>
    ensures started { result.why ≢ NotStarted }
    ensures worked { Worked (left_of R.left reader) end result.end result.tally result.why }
    ensures ran { WorkerRanOut R.gives G.told reader end gate result.tally result.why result.end result.gate }
{
    let mut reader = reader;
    let mut end = end;
    let mut gate = gate;
    let (why, tally, left) = work(rt, &mut reader, &mut end, &mut gate);
    let_go(reader, left);
    Done {
        end,
        gate,
        why,
        tally,
    }
}

// Works until the reader ends or the gate stops it. Returns why, the number of items queued, and the reader.
fn work<T: Wait, R: TellingReader, G: Gate>(
    rt: &T,
    reader: &mut IngressReader<R>,
    end: &mut IngressEnd,
    gate: &mut G,
) -> (Why, u64, Snapshot<IngressReader<R>>)
    ensures worked { Worked (left_of R.left reader.old) end.old end.new result.1 result.0 }
    ensures ran { WorkerRan R.gives G.told reader.old end.old gate.old result.1 result.0 end.new gate.new reader.new }
    ensures left { result.2.value ≡ reader.new }
{
    let first = end.queued();
    for _ in rt.forever() {
        match reader.next() {
            Next::Ended(ended) => {
                return (
                    Why::Ended(ended),
                    end.queued() - first,
                    Snapshot::of(reader),
                );
            }
            Next::Item { name, parcel } => {
                let n = end.queued() - first + 1;
                gate.before(n);
                if let Err(why) = put(rt, reader, end, gate, name, parcel) {
                    return (why, n - 1, Snapshot::of(reader));
                }
                gate.offered(n);
            }
        }
    }
    unreachable!()
}

// Drops a reader. It is generic, so it can call nothing of the reader.
fn let_go<A: Drop>(reader: A, left: Snapshot<A>)
    requires { reader ≡ left.value }
{
    drop(left);
    drop(reader);
}

// Offers an item until it is queued, the gate stops the worker, or the bound is used up.
fn put<T: Wait, R: TellingReader, G: Gate>(
    rt: &T,
    reader: &mut IngressReader<R>,
    end: &mut IngressEnd,
    gate: &mut G,
    name: Name,
    parcel: Parcel,
) -> Result<(), Why>
    requires { reader.old.ended ≡ None }
    ensures end { MatchResult result
        (λ _. end.new ≡ record (with_offer end.old name parcel) { refused = end.new.refused })
        (λ _. end.new ≡ record end.old { refused = end.new.refused }) }
    ensures gate { MatchResult result
        (λ _. Waits G.told end.old reader.old.reads_left gate.old reader.new.reads_left end.new.refused gate.new)
        (λ why. Drops G.told end.old reader.old.reads_left gate.old reader.new.reads_left end.new.refused why
        gate.new) }
    ensures reader { reader.new ≡ record reader.old { reads_left = reader.new.reads_left } }
{
    let mut parcel = parcel;
    for _ in rt.forever() {
        match end.offer(rt, name, parcel) {
            Offered::Queued(_) => return Ok(()),
            Offered::Full(back) => {
                if !gate.full() {
                    return Err(Why::Stopped);
                }
                if !reader.turn() {
                    return Err(Why::Ended(Ended::Bound));
                }
                parcel = back;
            }
        }
    }
    unreachable!()
}
