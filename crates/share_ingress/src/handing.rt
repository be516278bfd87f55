//! Hands an item over to a thread that runs already, with what is known of it.
ghost use Rattle.std.specs.Prelude.{⊤};

use std::marker::{Brand, Model, PhantomData};
use std::sync::{Mutex, Wait};
use std::thread;

/// The facts that the thread that takes an item knows of it. The thread that hands it over chooses this.
pub(crate) trait Fact<X> {
    ghost is: { X → Type 0 };
}

impl<X> Fact<X> for Brand {
    ghost is = { λ _. ⊤ };
}

/// An item of which `K` is known.
#[derive(Drop)]
pub(crate) struct Handed<X, K: Fact<X>> {
    item: X,
    of: PhantomData<K>,
}

impl<X, K: Fact<X>> Model for Handed<X, K> {
    ghost Value = { X };

    ghost view = { λ h. h.item };

    ghost invariant = { λ h. K.is h.item };
}

/// The place at which an item is put and taken.
pub(crate) type Inbox<X, K> = Mutex<Option<Handed<X, K>>>;

/// Puts an item.
pub(crate) fn put<T: Wait, X: Drop, K: Fact<X>>(rt: &T, inbox: &Inbox<X, K>, item: X)
    requires { K.is item }
{
    *inbox.lock(rt) = Some(Handed {
        item,
        of: PhantomData,
    });
}

/// Takes the item once there is one.
pub(crate) fn take<T: Wait, X: Drop, K: Fact<X>>(rt: &T, inbox: &Inbox<X, K>) -> X
    ensures { K.is result }
{
    for _ in rt.forever() {
        if let Some(handed) = inbox.lock(rt).take() {
            let Handed { item, .. } = handed;
            return item;
        }
        thread::yield_now();
    }
    unreachable!()
}
