//! The lines printed, over seconds.

use crate::tests::assertions::same;
use share_messages::{Decision, Kind, Messages};
use std::process::Abort;

/// Lines of a kind that come in a second: the number that come, and the number of these that are printed. Then comes
/// the number that the first of them says were left out before it.
type Burst = (Kind, u64, u32, u32, u64);

// Sends the lines of a burst, and compares what becomes of each.
fn send(rt: &impl Abort, messages: &mut Messages, row: usize, burst: Burst) {
    let (kind, second, lines, printed, before) = burst;
    for line in 0..lines {
        let wanted = Decision {
            left_out: if line == 0 { before } else { 0 },
            is_printed: line < printed,
        };
        same(rt, (row, line), messages.decide(kind, second), wanted);
    }
}

/// Ten of a kind are printed in a second. Another kind and another second begin anew, a second before too.
static BURSTS: [Burst; 12] = [
    (Kind::Closed, 100, 1, 1, 0),
    (Kind::Closed, 100, 11, 9, 0),
    (Kind::Refused, 100, 10, 10, 0),
    (Kind::Dropped, 100, 30, 30, 0),
    (Kind::Left, 100, 30, 30, 0),
    (Kind::Closed, 101, 13, 10, 2),
    (Kind::Refused, 101, 1, 1, 0),
    (Kind::Closed, 105, 1, 1, 3),
    (Kind::Closed, 106, 1, 1, 0),
    (Kind::Disk, 106, 12, 10, 0),
    (Kind::Disk, 90, 12, 10, 2),
    (Kind::Dropped, 106, 1, 1, 0),
];

#[test]
fn ten_lines_a_second_are_printed(rt: HostRuntime) {
    let mut messages = Messages::new(rt.alloc(), false);
    let mut row = 0usize;
    for &burst in &BURSTS {
        row = row.saturating_add(1);
        send(&rt, &mut messages, row, burst);
    }
    same(&rt, "disk", messages.take_left_out(Kind::Disk, 90), 2);
    same(&rt, "disk again", messages.take_left_out(Kind::Disk, 90), 0);
    same(&rt, "closed", messages.take_left_out(Kind::Closed, 90), 0);
    send(&rt, &mut messages, row, (Kind::Disk, 90, 1, 1, 0));
}

/// A quiet gateway prints the lines of four kinds, and counts none of the others.
#[test]
fn quiet_gateways_print_four_kinds(rt: HostRuntime) {
    let mut messages = Messages::new(rt.alloc(), true);
    for kind in Kind::ALL {
        let is_kept = kind == Kind::Disk
            || kind == Kind::Bad
            || kind == Kind::Dropped
            || kind == Kind::Left;
        let printed = if is_kept { 5 } else { 0 };
        send(&rt, &mut messages, 0, (kind, 7, 5, printed, 0));
        same(&rt, kind, messages.take_left_out(kind, 8), 0);
    }
}
