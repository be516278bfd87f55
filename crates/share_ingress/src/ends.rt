//! The queue from the workers to the link.
ghost use Rattle.std.specs.Prelude.{◌≡◌, ◌≤◌, ◌^◌, ℕ, suc, [], length, None, IfOk, IfErr, IfSome, IfNone};
ghost use Rattle.std.specs.Arc.{arc_value};
ghost use Rattle.crossbeam_queue.specs.Passes.{view, IsPassOf, ruled_capacity};
ghost use Rattle.share_base.specs.Refusal.{IsRefused};
ghost use Rattle.share_model.specs.ingress.Queue.{an_intake, of_worker, Begins, IsWorker};
ghost use Rattle.share_model.specs.lists.Each.{Each};
ghost use Rattle.share_ingress.specs.Ends.{queue_refusal, new_end, new_ends, new_intake, OfferCall, IsTake};
ghost use Rattle.share_ingress.specs.Ends.{with_miss};
ghost use Rattle.share_ingress.specs.Ends.{is_out_of_range};

mod gather;

use crate::counted::Counted;
use crate::protocol::{Beside, Ends, InOrder, OfferQueue, Puts, Takes, Token};
pub use gather::{Ungathered, WhyNot};
use share_base::{Name, Parcel, Refusal};
use share_model::{Offer, QueueView};
use std::alloc::{AllocError, Global};
use std::marker::Model;
use std::sync::{Arc, Wait};

/// The most offers that a queue holds.
const MAX_CAPACITY: usize = 1024;

/// The most workers that a queue has.
const MAX_WORKERS: usize = 8;

/// The most offers that an end queues.
const MAX_OFFERS: u64 = 1 << 40;

/// The answer of an end to an offer.
#[derive(Drop)]
pub enum Offered {
    /// It is queued, as the n-th offer of this end.
    Queued(u64),
    /// The queue was full, or the end has queued 2^40 offers. The parcel comes back.
    Full(Parcel),
}

/// A worker's end of the queue, the only one that queues this worker's offers. A contract sees the name of the queue,
/// the most offers that it holds, and the worker, counted from 1. It sees what the end pushed, and the number of its
/// offers that a full queue refused, counted up to 2^64 - 1.
#[derive(Drop)]
pub struct IngressEnd {
    queue: Arc<OfferQueue, Global>,
    token: Counted<Offer, QueueView>,
    worker: u64,
    count: u64,
}

impl Model for IngressEnd {
    ghost use Rattle.std.specs.Prelude.{◌≡◌, ◌≤◌, ◌^◌, length};
    ghost use Rattle.std.specs.Arc.{arc_value};
    ghost use Rattle.crossbeam_queue.specs.Passes.{view as known, IsPassOf, ruled_capacity};
    ghost use Rattle.share_model.specs.ingress.Queue.{an_end};
    ghost use Rattle.share_ingress.specs.Ends.{EndView};

    ghost Value = { EndView };

    ghost view = { λ e. record {
      link = e.token.pass.table_id;
      capacity = ruled_capacity (arc_value e.queue);
      worker = e.worker;
      pushed = (known e.token.pass).pushed;
      refused = e.token.count;
    } };

    ghost invariant = { λ e.
        IsPassOf (arc_value e.queue) e.token.pass
        × (known e.token.pass ≡ an_end e.worker (known e.token.pass).pushed)
        × (e.count ≡ length (known e.token.pass).pushed)
        × (e.count ≤ 2 ^ 40) };
}

/// The link's side of the queue, the only one that pops. A contract sees the name of the queue, the most offers that it
/// holds, and the number of its workers. It sees what was popped, what was queued just after the last pop, and the
/// workers whose ends were joined to the intake. It sees the number of pops that found the queue empty, counted up to
/// 2^64 - 1.
#[derive(Drop)]
pub struct Intake {
    queue: Arc<OfferQueue, Global>,
    token: Counted<Offer, QueueView>,
    workers: u64,
    // The number of offers popped of each worker.
    counts: [u64; MAX_WORKERS],
}

impl Model for Intake {
    ghost use Rattle.std.specs.Prelude.{◌≡◌, ◌≤◌};
    ghost use Rattle.std.specs.Arc.{arc_value};
    ghost use Rattle.crossbeam_queue.specs.Passes.{view as known, IsPassOf, ruled_capacity};
    ghost use Rattle.share_model.specs.ingress.Queue.{an_intake, IsWorker};
    ghost use Rattle.share_model.specs.lists.Each.{Each};
    ghost use Rattle.share_ingress.specs.Ends.{IntakeView, CountsByWorker};
    ghost use Rattle.share_ingress.specs.declared.ends.TheConstants.{MAX_WORKERS};

    ghost Value = { IntakeView };

    ghost view = { λ i. record {
      link = i.token.pass.table_id;
      capacity = ruled_capacity (arc_value i.queue);
      workers = i.workers;
      popped = (known i.token.pass).popped;
      ahead = (known i.token.pass).ahead;
      closed = (known i.token.pass).closed;
      missed = i.token.count;
    } };

    ghost invariant = { λ i.
        IsPassOf (arc_value i.queue) i.token.pass
        × (known i.token.pass
        ≡ an_intake i.workers (known i.token.pass).popped (known i.token.pass).ahead
        (known i.token.pass).closed)
        × (i.workers ≤ MAX_WORKERS)
        × Each (λ o. IsWorker i.workers o.worker) (known i.token.pass).popped
        × CountsByWorker i.counts (known i.token.pass).popped };
}

/// Makes a queue of `capacity` places, 1 to 1024, with an end for each of 1 to 8 workers, in their order. `Range` if a
/// number is out of range, `NoMemory` if memory was refused.
pub fn queue(
    alloc: Global,
    capacity: usize,
    workers: usize,
) -> Result<(Intake, Vec<IngressEnd>), Refusal>
    ensures ok { IfOk result (λ made. (made.0 ≡ new_intake made.0.link capacity workers)
        × (made.1.items ≡ new_ends made.0.link capacity workers)
        × (queue_refusal capacity workers ≡ None)) }
    ensures workers { IfOk result (λ made. Each (λ e. IsWorker workers e.worker) made.1.items) }
    ensures linked { IfOk result (λ made. Each (λ e. e.link ≡ made.0.link) made.1.items) }
    ensures refused { IfErr result (IsRefused (queue_refusal capacity workers)) }
{
    if is_out_of_range(MAX_CAPACITY, capacity) || is_out_of_range(MAX_WORKERS, workers) {
        return Err(Refusal::Range);
    }
    let mut ends = Vec::with_capacity(alloc, workers)?;
    let (line, mut token) = OfferQueue::ruled(alloc, capacity)?;
    let queue = Arc::new(alloc, line)?;
    for made in 0..workers {
        ends.push(another_end(&queue, &mut token, made as u64 + 1)?)?;
    }
    let intake = Intake {
        queue,
        token: Counted::new(token),
        workers: workers as u64,
        counts: [0; MAX_WORKERS],
    };
    Ok((intake, ends))
}

fn is_out_of_range(most: usize, number: usize) -> bool
    ensures { result ≡ is_out_of_range most number }
{
    number == 0 || number > most
}

// The end of one more worker.
fn another_end(
    queue: &Arc<OfferQueue, Global>,
    token: &mut Token,
    worker: u64,
) -> Result<IngressEnd, AllocError>
    requires queue { IsPassOf (arc_value queue.now) token.old }
    requires known { (made : ℕ) × (worker ≡ suc made) × (view token.old ≡ an_intake made [] [] []) }
    ensures end { IfOk result (λ end. end
        ≡ new_end token.old.table_id (ruled_capacity (arc_value queue.now)) worker) }
    ensures queue { IfOk result (λ _. IsPassOf (arc_value queue.now) token.new) }
    ensures link { IfOk result (λ _. token.new.table_id ≡ token.old.table_id) }
    ensures known { IfOk result (λ _. view token.new ≡ an_intake worker [] [] []) }
{
    let theirs = Arc::try_clone(queue)?;
    let own = queue.another::<Ends>(token);
    Ok(IngressEnd {
        queue: theirs,
        token: Counted::new(own),
        worker,
        count: 0,
    })
}

impl IngressEnd {
    /// The number of offers that this end queued.
    pub fn queued(&self) -> u64
        ensures count { result ≡ length self.now.pushed }
        ensures most { result ≤ 2 ^ 40 }
    {
        self.count
    }

    /// Offers a record to the queue. It is queued as this worker's next offer, or comes back. It comes back only if the
    /// queue was full at some moment of the call, or this end has queued 2^40 offers. It takes no memory, and may spin
    /// while another thread is in the middle of a push or a pop.
    pub fn offer<R: Wait>(&mut self, rt: &R, name: Name, parcel: Parcel) -> Offered
        ensures { OfferCall self.old name parcel result self.new }
    {
        if self.count == MAX_OFFERS {
            return Offered::Full(parcel);
        }
        let offer = Offer {
            worker: self.worker,
            n: self.count + 1,
            name,
            parcel,
        };
        match self.token.push::<InOrder, Puts, R>(&self.queue, rt, offer) {
            Ok(()) => {
                self.count += 1;
                Offered::Queued(self.count)
            }
            Err(back) => {
                let Offer { parcel, .. } = back;
                Offered::Full(parcel)
            }
        }
    }
}

impl Intake {
    /// The most offers that the queue holds.
    pub fn capacity(&self) -> usize
        ensures { result ≡ self.now.capacity }
    {
        self.queue.capacity()
    }

    /// Takes the offer in front. `None` if the queue was empty at some moment of the call. It takes no memory, and may
    /// spin while another thread is in the middle of a push.
    pub fn take<R: Wait>(&mut self, rt: &R) -> Option<Offer>
        ensures some { IfSome result (λ offer. IsTake self.old offer self.new) }
        ensures none { IfNone result ((self.new ≡ with_miss self.old) × (self.old.ahead ≡ [])) }
    {
        let offer = self.token.pop::<InOrder, Takes, R>(&self.queue, rt)?;
        self.counts[(offer.worker - 1) as usize] = offer.n;
        Some(offer)
    }

    /// Gives an end of this queue back as it was. The items that were popped of its worker are, in order, the beginning
    /// of those that the end pushed. It takes no memory.
    pub fn compare(&mut self, end: IngressEnd) -> IngressEnd
        requires { end.link ≡ self.old.link }
        ensures same { (self.new ≡ self.old) × (result ≡ end) }
        ensures front { Begins end.pushed (of_worker end.worker self.old.popped) }
    {
        let IngressEnd {
            queue,
            token,
            worker,
            count,
        } = end;
        let token = self.token.beside::<InOrder, Beside>(&self.queue, token);
        IngressEnd {
            queue,
            token,
            worker,
            count,
        }
    }
}
