//! The slots that the threads of connections take, and give back at their ends.
ghost use Rattle.std.specs.Prelude.{◌≡◌, ◌≤◌, ◌+◌, [], IfOk, vec_len, vec_capacity};
ghost use Rattle.share_model.specs.lists.Each.{Each};

use share_ingress::IngressEnd;
use share_locked::{Clerk, LinkBrand, Locked};
use share_model::{Rates, TellingWriter};
use std::alloc::{AllocError, Global};
use std::marker::{Model, PhantomData};
use std::sync::{Mutex, Wait};

/// A slot for a value that one thread at a time takes and uses.
#[derive(Drop)]
pub struct Slot<X> {
    inner: Mutex<Option<X>>,
}

impl<X: Drop> Slot<X> {
    pub fn new(inner: Option<X>) -> Slot<X> {
        Slot {
            inner: Mutex::new(inner),
        }
    }

    /// Puts a value in.
    pub fn put<R: Wait>(&self, rt: &R, item: X) {
        *self.inner.lock(rt) = Some(item);
    }

    /// Takes the value out, if there is one.
    pub fn take<R: Wait>(&self, rt: &R) -> Option<X> {
        self.inner.lock(rt).take()
    }

    /// The value, if there is one.
    pub fn into_inner(self) -> Option<X> {
        self.inner.into_inner()
    }
}

/// An end of the queue of this link.
#[derive(Drop)]
pub struct BrandedEnd<L: LinkBrand> {
    end: IngressEnd,
    of: PhantomData<L>,
}

impl<L: LinkBrand> Model for BrandedEnd<L> {
    ghost use Rattle.std.specs.Prelude.{◌≡◌};
    ghost use Rattle.share_ingress.specs.Ends.{EndView};

    ghost Value = { EndView };

    ghost view = { λ l. l.end };

    ghost invariant = { λ l. l.end.link ≡ L.link };
}

impl<L: LinkBrand> BrandedEnd<L> {
    pub fn new(end: IngressEnd) -> BrandedEnd<L>
        requires { end.link ≡ L.link }
        ensures { result ≡ end }
    {
        BrandedEnd {
            end,
            of: PhantomData,
        }
    }

    /// The end itself.
    pub fn into_end(self) -> IngressEnd
        ensures end { result ≡ self }
        ensures link { result.link ≡ L.link }
    {
        self.end
    }
}

/// Slots of clerks and ends while threads use them, and for lists of them afterwards.
#[derive(Drop)]
pub struct EmptySlots<L: LinkBrand> {
    pub clerks: Vec<Slot<Clerk<L>>>,
    pub ends: Vec<Slot<BrandedEnd<L>>>,
    pub spare_clerks: Vec<Clerk<L>>,
}

/// Empty slots for these numbers of ends and clerks.
pub fn make_slots<L: LinkBrand>(
    alloc: Global,
    ends: usize,
    clerks: usize,
) -> Result<EmptySlots<L>, AllocError>
    ensures vacant { IfOk result (λ slots. (slots.ends.items ≡ []) × (slots.clerks.items ≡ [])) }
    ensures room { IfOk result (λ slots.
        (ends ≤ vec_capacity slots.ends) × (clerks ≤ vec_capacity slots.clerks)) }
{
    let spare_clerks = Vec::with_capacity(alloc, clerks)?;
    let slots = Vec::with_capacity(alloc, clerks)?;
    Ok(EmptySlots {
        clerks: slots,
        ends: Vec::with_capacity(alloc, ends)?,
        spare_clerks,
    })
}

/// Makes the clerks of a link, and puts each into a slot.
pub fn with_clerks<W: TellingWriter, S: Rates, L: LinkBrand>(
    alloc: Global,
    locked: &mut Locked<W, S, L>,
    count: usize,
    vacant: Vec<Slot<Clerk<L>>>,
) -> Vec<Slot<Clerk<L>>>
    requires few { locked.old.clerks + count ≤ 8 }
    requires vacant { (vacant.items ≡ []) × (count ≤ vec_capacity vacant) }
    ensures made { locked.new ≡ record locked.old { clerks = locked.old.clerks + count } }
    ensures slots { vec_len result ≡ count }
{
    let mut slots = vacant;
    while slots.len() < count {
        let Ok(clerk) = locked.clerk(alloc) else {
            unreachable!();
        };
        slots.push_reserved(Slot::new(Some(clerk)));
    }
    slots
}

/// Puts the ends into slots, in their order.
pub fn filled<L: LinkBrand>(
    ends: &mut Vec<IngressEnd>,
    vacant: Vec<Slot<BrandedEnd<L>>>,
) -> Vec<Slot<BrandedEnd<L>>>
    requires linked { Each (λ e. e.link ≡ L.link) ends.old.items }
    requires vacant { (vacant.items ≡ []) × (vec_len ends.old ≤ vec_capacity vacant) }
    ensures taken { ends.new.items ≡ [] }
    ensures slots { vec_len result ≡ vec_len ends.old }
{
    let mut slots = vacant;
    while let Some(end) = ends.pop() {
        slots.push_reserved(Slot::new(Some(BrandedEnd::new(end))));
    }
    slots.as_mut_slice().reverse();
    slots
}

/// Takes the ends from their slots into a list that has room for them.
pub fn take_ends<L: LinkBrand>(
    slots: Vec<Slot<BrandedEnd<L>>>,
    spare: Vec<IngressEnd>,
) -> Vec<IngressEnd>
    requires { Each (λ e. e.link ≡ L.link) spare.items }
    ensures { Each (λ e. e.link ≡ L.link) result.items }
{
    let mut ends = spare;
    for slot in slots {
        if let Some(branded) = slot.into_inner() {
            let _ = ends.push(branded.into_end());
        }
    }
    ends
}

/// Takes the clerks from their slots into a list that has room for them.
pub fn take_clerks<L: LinkBrand>(
    slots: Vec<Slot<Clerk<L>>>,
    spare: Vec<Clerk<L>>,
) -> Vec<Clerk<L>> {
    let mut clerks = spare;
    for slot in slots {
        if let Some(clerk) = slot.into_inner() {
            let _ = clerks.push(clerk);
        }
    }
    clerks
}
