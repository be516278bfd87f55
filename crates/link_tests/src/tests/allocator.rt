//! Questions to the allocator of `.ci/allocator.c`, over which `.ci/memory` runs the tests of memory. Any other
//! allocator refuses nothing, and then these tests compare the answers alone.

use super::assertions::{holds, same};
use super::talk::{Said, Talks, ask, text_of};
use share_model::allocator::{IS_HELD_OTHER, MARK_HELD, REFUSE_EACH, WAS_REFUSED};
use share_model::asks;
use std::alloc::Global;
use std::fmt::Debug;
use std::process::Abort;

/// The question of this number and n more is whether more than n bytes were asked for since the mark.
const LONGER: u16 = 8192;

/// More requests than any call here makes.
pub(super) const REQUESTS: u16 = 64;

/// Refuses the request of this number from here on.
pub(super) fn refuse(alloc: Global, request: u16) {
    let _no = asks!(alloc, request);
}

/// Refuses each request from here on.
pub(super) fn refuse_each(alloc: Global) {
    refuse(alloc, REFUSE_EACH);
}

/// Refuses nothing from here on. Returns whether a request was refused.
pub(super) fn was_refused(alloc: Global) -> bool {
    asks!(alloc, WAS_REFUSED)
}

/// Nothing was asked for since `refuse_each`. Then one request is made, which shows whether refusals are asked of an
/// allocator that refuses.
pub(super) fn takes_none<R: Debug + Copy>(rt: &impl Abort, row: R, alloc: Global) {
    holds(rt, (row, "takes no memory"), !was_refused(alloc));
    refuse(alloc, 1);
    let is_refused = Vec::<u8>::with_capacity(alloc, 1).is_err();
    same(rt, (row, "is steered"), was_refused(alloc), is_refused);
}

/// At most that many bytes were asked for since the mark.
pub(super) fn asks_for_few<R: Debug + Copy>(rt: &impl Abort, row: R, alloc: Global, bytes: u16) {
    let is_more = asks!(alloc, LONGER.saturating_add(bytes));
    holds(rt, (row, "asks for no more"), !is_more);
}

/// Remembers the number of blocks held.
pub(super) fn mark(alloc: Global) {
    let _no = asks!(alloc, MARK_HELD);
}

/// As many blocks are held as were remembered.
pub(super) fn keeps_none<R: Debug + Copy>(rt: &impl Abort, row: R, alloc: Global) {
    holds(rt, (row, "keeps no block"), !asks!(alloc, IS_HELD_OTHER));
}

/// A call makes this many requests: as often it was refused, unless the allocator refuses nothing.
pub(super) fn were_made<R: Debug + Copy>(rt: &impl Abort, row: R, refusals: u16, requests: u16) {
    holds(rt, (row, refusals), refusals == 0 || refusals == requests);
}

/// Asks a row, of which this request is refused. Returns whether there was one: then its answer is `NoMemory`, and
/// nothing changed.
pub(super) fn is_refused<L: Talks>(
    rt: &impl Abort,
    alloc: Global,
    said: &mut Said,
    link: &mut L,
    row: &str,
    request: u16,
) -> bool {
    let (asked, wanted) = row.split_once(" = ").expect(rt, "a row");
    let before = link.shown();
    refuse(alloc, request);
    ask(rt, alloc, said, link, asked);
    let refused = was_refused(alloc);
    let wanted = if refused { "no 1 NoMemory" } else { wanted };
    same(rt, (row, request), text_of(rt, said), wanted);
    let is_unchanged = link.shown() == before;
    holds(rt, (row, request), is_unchanged == refused);
    refused
}
