//! Questions to the allocator of `.ci/allocator.c`, over which `.ci/memory` runs the tests of memory. Any other
//! allocator refuses nothing, and then these tests compare the answers alone.

use crate::tests::assertions::{holds, same};
use share_base::Refusal;
use share_model::allocator::{IS_HELD_OTHER, MARK_HELD, WAS_REFUSED};
use share_model::asks;
use std::alloc::Global;
use std::fmt::Debug;
use std::process::Abort;

/// The question of this number and n more is whether more than n bytes were asked for since the mark.
const LONGER: u16 = 8192;

/// Refuses the request of this number from here on.
pub(super) fn refuse(alloc: Global, request: u16) {
    let _no = asks!(alloc, request);
}

/// Refuses nothing from here on. Returns whether a request was refused.
pub(super) fn was_refused(alloc: Global) -> bool {
    asks!(alloc, WAS_REFUSED)
}

/// Remembers the number of blocks held.
pub(super) fn mark(alloc: Global) {
    let _no = asks!(alloc, MARK_HELD);
}

/// As many blocks are held as were remembered.
pub(super) fn keeps_none<R: Debug + Copy>(rt: &impl Abort, row: R, alloc: Global) {
    holds(rt, (row, "keeps no block"), !asks!(alloc, IS_HELD_OTHER));
}

/// That many bytes were asked for since the mark, and not one more.
pub(super) fn asked_for<R: Debug + Copy>(
    rt: &impl Abort,
    row: R,
    alloc: Global,
    bytes: u16,
    is_steered: bool,
) {
    let is_more = asks!(alloc, LONGER.saturating_add(bytes));
    holds(rt, (row, "asks for no more"), !is_more);
    if bytes > 0 {
        let is_less = !asks!(alloc, LONGER.saturating_add(bytes - 1));
        same(rt, (row, "asks for no less"), is_less, !is_steered);
    }
}

/// Whether the allocator is the one that refuses.
pub(super) fn is_steered(alloc: Global) -> bool {
    mark(alloc);
    let block = Vec::<u8>::with_capacity(alloc, 1);
    let is = block.is_ok() && asks!(alloc, IS_HELD_OTHER);
    drop(block);
    is
}

/// After `refuse(alloc, 1)` no request was made: the first one is made here.
pub(super) fn took_none<R: Debug + Copy>(rt: &impl Abort, row: R, alloc: Global) {
    let is_first_refused = Vec::<u8>::with_capacity(alloc, 1).is_err();
    let was_one = was_refused(alloc);
    same(rt, (row, "takes no memory"), is_first_refused, was_one);
}

/// A call of which a request was to be refused has answered so, and keeps no block.
pub(super) fn was_answered<R: Debug + Copy, T: PartialEq + Debug + Drop>(
    rt: &impl Abort,
    row: R,
    alloc: Global,
    is_refused: bool,
    answer: T,
    wanted: T,
) {
    same(rt, (row, "is refused"), was_refused(alloc), is_refused);
    same(rt, row, answer, wanted);
    keeps_none(rt, row, alloc);
}

/// Why nothing is made if a request is refused.
pub(super) fn lack(is_refused: bool) -> Option<Refusal> {
    if is_refused {
        Some(Refusal::NoMemory)
    } else {
        None
    }
}
