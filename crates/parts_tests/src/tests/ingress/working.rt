//! Workers: which calls their gate gets, what stops them, and that they run beside each other.

use super::made::{MANY, bytewise, one_end, reader, shared, taken, word};
use crate::readers::TwoRecords;
use crate::tests::assertions::{holds, same};
use share_ingress::Why::{Ended as ByReader, Stopped};
use share_ingress::{Done, Gate, IngressEnd, Intake, Job, Why, queue, run_worker, run_workers};
use share_model::Ended::{BadRecord, Bound, Cut, End, Fault};
use std::alloc::Global;
use std::process::Abort;
use std::sync::atomic::{AtomicU64, Ordering};
use std::sync::{Arc, Wait};

/// When a gate takes an offer of the queue: at each of its calls, when the queue is full, or never.
#[derive(Clone, Copy, Debug, PartialEq, Eq)]
enum Takes {
    Always,
    IfFull,
    Never,
}

/// Has the intake, and writes down its calls as letters, each with the number of what it takes then. It lets an item
/// be offered again `again` times.
#[derive(Drop)]
struct Watching<T> {
    rt: T,
    intake: Intake,
    takes: Takes,
    again: u64,
    calls: Vec<u8>,
}

impl<T: Wait> Watching<T> {
    fn note(&mut self, letter: u8, takes: bool) {
        let _letter = self.calls.push(letter);
        if takes {
            let digit = match taken(&self.rt, &mut self.intake) {
                None => b'-',
                Some((_, n, _)) => b'0' + (n % 10) as u8,
            };
            let _digit = self.calls.push(digit);
        }
    }
}

impl<T: Wait> Gate for Watching<T> {
    ghost told = { λ _ _ _. Unit {0} };

    fn before(&mut self, _n: u64) {
        let takes = self.takes == Takes::Always;
        self.note(b'b', takes);
    }

    fn offered(&mut self, _n: u64) {
        let takes = self.takes == Takes::Always;
        self.note(b'o', takes);
    }

    fn full(&mut self) -> bool {
        let takes = self.takes != Takes::Never;
        self.note(b'f', takes);
        let is_offered_again = self.again > 0;
        self.again = self.again.saturating_sub(1);
        is_offered_again
    }
}

/// Three records for the flow a, with the payloads `b`, `c` and `d`.
const THREE: &[u8] = b"\x01a\x00\x01b\x01a\x00\x01c\x01a\x00\x01d";

/// The bytes that a worker reads one byte a read: the bytes, the byte in place of which a read fails, and the bound.
type Bytes = (&'static [u8], usize, u64);

const WHOLE: Bytes = (THREE, MANY, 100);

const BOUNDED: Bytes = (THREE, MANY, 17);

const FAILING: Bytes = (THREE, 7, 100);

const SHORT: Bytes = (b"\x01a\x00\x01b\x01a\x00\x01c\x01a", MANY, 100);

const BAD: Bytes = (b"\x01a\x00\x01b\x00", MANY, 100);

/// Workers: what they read, the places of the queue, what their gate takes and how often it lets an item be offered
/// again. Then come the reasons of their ends, the number of items that they queue, and the calls of their gate.
static WORKERS: [(Bytes, usize, Takes, u64, Why, u64, &[u8]); 7] = [
    (
        WHOLE,
        1,
        Takes::Always,
        0,
        ByReader(End),
        3,
        b"b-o1b-o2b-o3",
    ),
    (WHOLE, 1, Takes::IfFull, 9, ByReader(End), 3, b"bobf1obf2o"),
    (WHOLE, 2, Takes::Never, 2, Stopped, 2, b"bobobfff"),
    (BOUNDED, 2, Takes::Never, 9, ByReader(Bound), 2, b"bobobfff"),
    (FAILING, 4, Takes::Never, 0, ByReader(Fault), 1, b"bo"),
    (SHORT, 4, Takes::Never, 0, ByReader(Cut), 2, b"bobo"),
    (BAD, 4, Takes::Never, 0, ByReader(BadRecord), 1, b"bo"),
];

// A gate of a queue, and its one end.
fn watched_end<T: Wait + Abort + Copy>(
    rt: &T,
    alloc: Global,
    capacity: usize,
    takes: Takes,
    again: u64,
) -> (Watching<T>, IngressEnd) {
    let (intake, end) = one_end(rt, alloc, capacity);
    let gate = Watching {
        rt: *rt,
        intake,
        takes,
        again,
        calls: Vec::new(alloc),
    };
    (gate, end)
}

#[test]
fn workers_end_as_their_reader_and_gate_say(rt: HostRuntime) {
    for (row, worker) in WORKERS.iter().enumerate() {
        let (bytes, capacity, takes, again, why, tally, calls) = *worker;
        let (gate, end) = watched_end(&rt, rt.alloc(), capacity, takes, again);
        let (bytes, failing, bound) = bytes;
        let bytes = bytewise(&rt, rt.alloc(), bytes, failing, false);
        let reader = reader(&rt, rt.alloc(), bytes, bound);
        let done = run_worker(&rt, reader, end, gate);
        let (got, wanted) = (done.gate.calls.as_slice(), (row, why, tally));
        same(&rt, "calls", (row, got), (row, calls));
        same(&rt, "worker", (row, done.why, done.tally), wanted);
        same(&rt, "its end", (row, done.end.queued()), (row, tally));
        drop(done);
    }
}

/// Sets a word when its first item is queued.
#[derive(Drop)]
struct Setting(Arc<AtomicU64>);

impl Gate for Setting {
    ghost told = { λ _ _ _. Unit {0} };

    fn before(&mut self, _n: u64) {}

    fn offered(&mut self, _n: u64) {
        self.0.store(1, Ordering::SeqCst);
    }

    fn full(&mut self) -> bool {
        true
    }
}

// Two jobs of two records each, each of which reads on only after the other has queued an item.
fn jobs_beside(
    rt: &impl Abort,
    alloc: Global,
    ends: &mut Vec<IngressEnd>,
) -> Vec<Job<TwoRecords, Setting>> {
    let (first, second) = (word(rt, alloc), word(rt, alloc));
    let mut jobs = Vec::with_capacity(alloc, 2).expect(rt, "memory");
    for &(own, other) in &[(&first, &second), (&second, &first)] {
        let word = shared(rt, other);
        let job = Job {
            reader: reader(rt, alloc, TwoRecords { reads: 0, word }, 100),
            end: ends.pop().expect(rt, "an end"),
            gate: Setting(shared(rt, own)),
        };
        holds(rt, "a job", jobs.push(job).is_ok());
    }
    drop(first);
    drop(second);
    jobs
}

// Checks that the queue has two offers of each worker, in their order.
fn come_in_order<T: Wait + Abort>(rt: &T, intake: &mut Intake) {
    let mut numbers: [u64; 2] = [0, 0];
    for _ in 0..4 {
        let (worker, n, _payload) = taken(rt, intake).expect(rt, "an offer");
        let at = if worker == 1 { 0 } else { 1 };
        numbers[at] = numbers[at].saturating_add(1);
        same(rt, "order", (worker, n), (worker, numbers[at]));
    }
    same(rt, "all", (taken(rt, intake), numbers), (None, [2, 2]));
}

fn are_done(rt: &impl Abort, all: &[Done<Setting>]) {
    same(rt, "workers", all.len(), 2);
    for done in all {
        same(rt, "done", (done.why, done.tally), (ByReader(End), 2));
    }
}

#[test]
fn workers_beside(rt: HostRuntime) {
    let (mut intake, mut ends) = queue(rt.alloc(), 4, 2).expect(&rt, "a queue");
    let jobs = jobs_beside(&rt, rt.alloc(), &mut ends);
    drop(ends);
    let all = run_workers(&rt, rt.alloc(), jobs)
        .ok()
        .expect(&rt, "workers");
    are_done(&rt, all.as_slice());
    drop(all);
    come_in_order(&rt, &mut intake);
    drop(intake);
}
