//! A side of a queue under a rule, with a count of what the queue refused. That is pops that found nothing, or pushes
//! that found it full.
//!
//! All pops and pushes go through this module. Its functions are generic in the rule and in what a call learns. So none
//! of them can invent what it says of the queue, and no other module can raise the count. No contract rules out one
//! more function here that raises it without a call. So the module has `new`, `pop`, `push`, `beside` and `absorb`, and
//! nothing else.
ghost use Rattle.std.specs.Prelude.{◌≡◌, List, MatchOption, MatchResult};
ghost use Rattle.crossbeam_queue.specs.Fifo.{Pushes, Pops, Forks, Merges, Learns, Held};
ghost use Rattle.crossbeam_queue.specs.Passes.{view, IsSamePass, IsPassOf, ruled_capacity};
ghost use Rattle.share_ingress.specs.Ends.{one_higher};

use crossbeam_queue::protocol::{Join, Lesson, Outcome, Protocol, Split};
use crossbeam_queue::{Pass, RuledArrayQueue};
use std::alloc::Global;
use std::sync::Wait;

/// A pass, and the number of its calls that the queue refused, at most 2^64 - 1.
#[derive(Drop)]
pub(crate) struct Counted<T, V> {
    pass: Pass<T, V>,
    count: u64,
}

impl<T, V> Counted<T, V> {
    /// A pass, none of whose calls was refused.
    pub(crate) fn new(pass: Pass<T, V>) -> Counted<T, V>
        ensures pass { result.pass ≡ pass }
        ensures count { result.count ≡ 0 }
    {
        Counted { pass, count: 0 }
    }

    /// Pops. If the queue was empty at some moment of the call, it gives `None` and is counted.
    pub(crate) fn pop<P: Protocol<T, V>, M: Outcome<T, V> + Lesson<T, V>, R: Wait>(
        &mut self,
        queue: &RuledArrayQueue<T, V, P, Global>,
        rt: &R,
    ) -> Option<T>
        requires queue { IsPassOf queue.now self.old.pass }
        requires rule { Pops P.holds self.old.pass.id (view self.old.pass) (M.then (view self.old.pass))
            × Learns P.holds self.old.pass.id (view self.old.pass) (M.fact (view self.old.pass)) }
        ensures queue { IsSamePass self.old.pass self.new.pass }
        ensures rule { MatchOption result
            ((view self.new.pass ≡ view self.old.pass) × Held 0 (M.fact (view self.old.pass))
            × (self.new.count ≡ one_higher self.old.count))
            (λ x. M.then (view self.old.pass) x (view self.new.pass) × (self.new.count ≡ self.old.count)) }
    {
        match queue.pop_as::<M, R>(rt, &mut self.pass) {
            Some(item) => Some(item),
            None => {
                self.count = self.count.saturating_add(1);
                None
            }
        }
    }

    /// Pushes. If the queue was full at some moment of the call, it gives the item back and is counted.
    pub(crate) fn push<P: Protocol<T, V>, M: Outcome<T, V> + Lesson<T, V>, R: Wait>(
        &mut self,
        queue: &RuledArrayQueue<T, V, P, Global>,
        rt: &R,
        item: T,
    ) -> Result<(), T>
        requires queue { IsPassOf queue.now self.old.pass }
        requires rule { Pushes P.holds (ruled_capacity queue.now) self.old.pass.id (view self.old.pass) item
            (M.then (view self.old.pass) item)
            × Learns P.holds self.old.pass.id (view self.old.pass) (M.fact (view self.old.pass)) }
        ensures queue { IsSamePass self.old.pass self.new.pass }
        ensures rule { MatchResult result
            (λ _. M.then (view self.old.pass) item (view self.new.pass) × (self.new.count ≡ self.old.count))
            (λ back. (back ≡ item) × (view self.new.pass ≡ view self.old.pass)
            × Held (ruled_capacity queue.now) (M.fact (view self.old.pass))
            × (self.new.count ≡ one_higher self.old.count)) }
    {
        match queue.push_as::<M, R>(rt, &mut self.pass, item) {
            Ok(()) => Ok(()),
            Err(back) => {
                self.count = self.count.saturating_add(1);
                Err(back)
            }
        }
    }

    /// Holds another pass beside this one to learn what the queue's rule says of both. Neither count changes.
    pub(crate) fn beside<P: Protocol<T, V>, J: Join<V> + Lesson<T, V> + Split<V>>(
        &mut self,
        queue: &RuledArrayQueue<T, V, P, Global>,
        other: Counted<T, V>,
    ) -> Counted<T, V>
        requires queue { IsPassOf queue.now self.old.pass × IsPassOf queue.now other.pass }
        requires joins { Merges P.holds self.old.pass.id (view self.old.pass) other.pass.id (view other.pass)
            (J.both (view self.old.pass) (view other.pass)) J.spent }
        requires learns { Learns P.holds self.old.pass.id (J.both (view self.old.pass) (view other.pass))
            (J.fact (J.both (view self.old.pass) (view other.pass))) }
        requires parts { Forks P.holds self.old.pass.id (J.both (view self.old.pass) (view other.pass))
            (J.left (J.both (view self.old.pass) (view other.pass)))
            (J.right (J.both (view self.old.pass) (view other.pass))) }
        ensures queue { IsSamePass self.old.pass self.new.pass × IsPassOf queue.now result.pass }
        ensures left { view self.new.pass ≡ J.left (J.both (view self.old.pass) (view other.pass)) }
        ensures right { view result.pass ≡ J.right (J.both (view self.old.pass) (view other.pass)) }
        ensures learned { (items : List T) × J.fact (J.both (view self.old.pass) (view other.pass)) items }
        ensures counts { (self.new.count ≡ self.old.count) × (result.count ≡ other.count) }
    {
        let Counted { pass, count } = other;
        queue.absorb::<J>(&mut self.pass, pass);
        queue.learn_as::<J>(&mut self.pass);
        let pass = queue.another::<J>(&mut self.pass);
        Counted { pass, count }
    }

    /// Joins another pass to this one. It is used up. The count of this one does not change.
    pub(crate) fn absorb<P: Protocol<T, V>, J: Join<V>>(
        &mut self,
        queue: &RuledArrayQueue<T, V, P, Global>,
        other: Counted<T, V>,
    )
        requires queue { IsPassOf queue.now self.old.pass × IsPassOf queue.now other.pass }
        requires joins { Merges P.holds self.old.pass.id (view self.old.pass) other.pass.id (view other.pass)
            (J.both (view self.old.pass) (view other.pass)) J.spent }
        ensures queue { IsSamePass self.old.pass self.new.pass }
        ensures both { view self.new.pass ≡ J.both (view self.old.pass) (view other.pass) }
        ensures count { self.new.count ≡ self.old.count }
    {
        queue.absorb::<J>(&mut self.pass, other.pass);
    }
}
