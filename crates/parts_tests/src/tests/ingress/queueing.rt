//! The queue on one thread: numbers, order, what comes back if it is full, and how its ends are joined.
ghost use Rattle.std.specs.Prelude.{◌≡◌};
ghost use Rattle.share_model.specs.lists.Each.{Each};

use super::made::{offered, one_end, taken};
use crate::tests::assertions::{holds, same};
use share_base::Refusal;
use share_ingress::{IngressEnd, Intake, WhyNot, queue};
use std::alloc::Global;
use std::process::Abort;
use std::sync::Wait;

/// Offers three items to a queue of one place, and takes the first before the last.
pub(super) fn takes_one<T: Wait + Abort>(
    rt: &T,
    alloc: Global,
    intake: &mut Intake,
    end: &mut IngressEnd,
) {
    same(rt, "first", offered(rt, alloc, end, 7), Some(1));
    same(rt, "full", offered(rt, alloc, end, 8), Some(0));
    same(rt, "in front", taken(rt, intake), Some((1, 1, 7)));
    same(rt, "second", offered(rt, alloc, end, 9), Some(2));
    same(rt, "all", end.queued(), 2);
}

#[test]
fn a_queue_of_one_place_takes_one(rt: HostRuntime) {
    let (mut intake, mut end) = one_end(&rt, rt.alloc(), 1);
    takes_one(&rt, rt.alloc(), &mut intake, &mut end);
    drop(end);
    drop(intake);
}

/// Capacities and numbers of workers, and whether there is such a queue.
static SIZES: [(&str, usize, usize, bool); 7] = [
    ("no place", 0, 1, false),
    ("1025 places", 1025, 1, false),
    ("no worker", 1, 0, false),
    ("nine workers", 1, 9, false),
    ("nothing", 0, 0, false),
    ("the least", 1, 1, true),
    ("the largest", 1024, 8, true),
];

#[test]
fn numbers_out_of_range_make_no_queue(rt: HostRuntime) {
    for &(row, capacity, workers, is_made) in &SIZES {
        let wanted = if is_made { None } else { Some(Refusal::Range) };
        same(&rt, row, queue(rt.alloc(), capacity, workers).err(), wanted);
    }
}

// A queue of four places for two workers: the first made two offers, and the second made one between them.
fn offered_three<T: Wait + Abort>(rt: &T, alloc: Global) -> (Intake, Vec<IngressEnd>)
    ensures { Each (λ e. e.link ≡ result.0.link) result.1.items }
{
    let (intake, mut ends) = queue(alloc, 4, 2).expect(rt, "a queue");
    let mut second = ends.pop().expect(rt, "an end");
    let mut first = ends.pop().expect(rt, "an end");
    same(rt, "1, 1", offered(rt, alloc, &mut first, 1), Some(1));
    same(rt, "2, 1", offered(rt, alloc, &mut second, 2), Some(1));
    same(rt, "1, 2", offered(rt, alloc, &mut first, 3), Some(2));
    holds(rt, "an end", ends.push(first).is_ok());
    holds(rt, "an end", ends.push(second).is_ok());
    (intake, ends)
}

// Takes two offers, in the order of their pushes.
fn take_two<T: Wait + Abort>(rt: &T, intake: &mut Intake)
    ensures { intake.new.link ≡ intake.old.link }
{
    same(rt, "1, 1", taken(rt, intake), Some((1, 1, 1)));
    same(rt, "2, 1", taken(rt, intake), Some((2, 1, 2)));
}

#[test]
fn ends_of_which_all_was_taken_are_joined(rt: HostRuntime) {
    let (mut intake, ends) = offered_three(&rt, rt.alloc());
    take_two(&rt, &mut intake);
    same(&rt, "1, 2", taken(&rt, &mut intake), Some((1, 2, 3)));
    same(&rt, "empty", taken(&rt, &mut intake), None);
    match intake.gather(rt.alloc(), ends) {
        Ok((after, tallies)) => {
            let mut after = after;
            same(&rt, "tallies", tallies.as_slice(), [2, 1].as_slice());
            same(&rt, "joined", taken(&rt, &mut after), None);
        }
        Err(_) => panic!(rt; "they were joined"),
    }
}

// Checks that the ends are not joined, for this reason, and gives what comes back.
fn not_joined<T: Abort>(
    rt: &T,
    alloc: Global,
    intake: Intake,
    ends: Vec<IngressEnd>,
    why: WhyNot,
) -> (Intake, Vec<IngressEnd>)
    requires { Each (λ e. e.link ≡ intake.link) ends.items }
    ensures intake { result.0 ≡ intake }
    ensures ends { Each (λ e. e.link ≡ result.0.link) result.1.items }
{
    match intake.gather(alloc, ends) {
        Ok(_) => panic!(rt; "they were joined"),
        Err(refused) => {
            same(rt, "why", refused.why, why);
            (refused.intake, refused.ends)
        }
    }
}

#[test]
fn an_offer_that_was_not_taken_is_left_over(rt: HostRuntime) {
    let (mut intake, ends) = offered_three(&rt, rt.alloc());
    take_two(&rt, &mut intake);
    let (mut intake, ends) = not_joined(&rt, rt.alloc(), intake, ends, WhyNot::LeftOver);
    same(&rt, "1, 2", taken(&rt, &mut intake), Some((1, 2, 3)));
    holds(&rt, "joined", intake.gather(rt.alloc(), ends).is_ok());
}

#[test]
fn an_end_that_is_missing_is_a_mismatch(rt: HostRuntime) {
    let (intake, mut ends) = queue(rt.alloc(), 1, 2).expect(&rt, "a queue");
    let _second = ends.pop().expect(&rt, "an end");
    let (intake, ends) = not_joined(&rt, rt.alloc(), intake, ends, WhyNot::Mismatch);
    same(&rt, "ends", ends.len(), 1);
    drop(intake);
}
