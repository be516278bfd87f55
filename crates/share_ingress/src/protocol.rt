//! The rule of the queue, and the steps on it.
ghost use Rattle.std.specs.Prelude.{suc, [], ◌∷◌};
ghost use Rattle.share_model.specs.ingress.Queue.{Put, OwnLast, Taken, StillAhead, Behind, an_end, an_intake, a_host};
ghost use Rattle.share_model.specs.ingress.Queue.{a_spent_side};

use crossbeam_queue::protocol::{Join, Lesson, Outcome, Protocol, Split};
use crossbeam_queue::{Pass, RuledArrayQueue};
use share_model::{Offer, QueueView};

/// The items that the end of a worker pushed are those that the intake popped of it, and then what the queue holds
/// of it.
pub struct InOrder;

impl Protocol<Offer, QueueView> for InOrder {
    ghost use Rattle.std.specs.Prelude.{[]};
    ghost use Rattle.share_model.specs.ingress.Queue.{KeepsOrder, an_intake};

    ghost holds = { KeepsOrder };

    ghost first = { an_intake 0 [] [] [] };
}

/// The queue.
pub type OfferQueue = RuledArrayQueue<Offer, QueueView, InOrder>;

/// The parts with which an end, or the intake, calls the queue.
pub type Token = Pass<Offer, QueueView>;

/// A push by an end, including one that was refused.
pub(crate) struct Puts;

impl Outcome<Offer, QueueView> for Puts {
    ghost then = { Put };
}

impl Lesson<Offer, QueueView> for Puts {
    ghost fact = { OwnLast };
}

/// A pop by the intake, including one that found nothing.
pub(crate) struct Takes;

impl Outcome<Offer, QueueView> for Takes {
    ghost then = { Taken };
}

impl Lesson<Offer, QueueView> for Takes {
    ghost fact = { StillAhead };
}

/// The end of one more worker is split off from the intake.
pub(crate) struct Ends;

impl Split<QueueView> for Ends {
    ghost left = { λ v. an_intake (suc v.made) v.popped v.ahead v.closed };

    ghost right = { λ v. an_end (suc v.made) [] };
}

/// An end is beside the intake for a moment, and is taken away again.
pub(crate) struct Beside;

impl Join<QueueView> for Beside {
    ghost both = { a_host };

    ghost spent = { a_spent_side };
}

impl Lesson<Offer, QueueView> for Beside {
    ghost fact = { Behind };
}

impl Split<QueueView> for Beside {
    ghost left = { λ v. an_intake v.made v.popped v.ahead v.closed };

    ghost right = { λ v. an_end v.worker v.pushed };
}

/// An end is joined to the intake, which marks its worker as closed.
pub(crate) struct Closes;

impl Join<QueueView> for Closes {
    ghost both = { λ v u. an_intake v.made v.popped v.ahead (u.worker ∷ v.closed) };

    ghost spent = { a_spent_side };
}
