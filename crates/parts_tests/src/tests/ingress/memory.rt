//! Calls that may find no memory. Each call is made again and again. First its first request is refused, then its
//! second, and so on, until none is refused and it succeeds. Requests are refused by the allocator of `.ci/allocator.c`
//! alone, with which `.ci/memory` runs these tests; with any other the first call succeeds.
ghost use Rattle.std.specs.Prelude.{◌≡◌};
ghost use Rattle.share_model.specs.lists.Each.{Each};

use super::made::{count, one_end, one_record, reader, shared, taken, word};
use super::queueing::takes_one;
use crate::readers::TwoRecords;
use crate::tests::allocator::{keeps_none, lack, mark, refuse, was_refused};
use crate::tests::assertions::{holds, same};
use share_base::{Name, Parcel};
use share_ingress::{
    Done, Ended, Gate, IngressEnd, IngressReader, Intake, Job, Next, Offered, Why, WhyNot, queue,
    run_workers,
};
use share_model::allocator::REFUSE_EACH;
use share_model::{Got, ScriptedReader};
use std::alloc::Global;
use std::process::Abort;
use std::sync::{Arc, Wait};

/// More requests than any call here makes.
const REQUESTS: u16 = 64;

/// A record for the flow a, whose payload is kept on the heap.
const LONG: &[u8] = b"\x01a\x00\x14abcdefghijklmnopqrst";

// Offers and takes as many items as the queue of one place lets it, and one too many of each.
fn take_no_memory<T: Wait + Abort>(
    rt: &T,
    alloc: Global,
    intake: &mut Intake,
    end: &mut IngressEnd,
) {
    refuse(alloc, REFUSE_EACH);
    takes_one(rt, alloc, intake, end);
    let last = taken(rt, intake);
    let none = taken(rt, intake);
    let was_refused = was_refused(alloc);
    same(rt, "requests", was_refused, false);
    same(rt, "taken", (last, none), (Some((1, 2, 9)), None));
}

// Offers a payload that is kept on the heap, which stays in the queue, and one that comes back.
fn leaves_one<T: Wait + Abort>(rt: &T, alloc: Global, end: &mut IngressEnd) {
    for &is_queued in &[true, false] {
        let name = Name::read(b"a").expect(rt, "a name");
        let parcel = Parcel::new(alloc, &[7; 20]).expect(rt, "a payload");
        let offered = end.offer(rt, name, parcel);
        let is_third = matches!(&offered, Offered::Queued(3));
        same(rt, "on the heap", is_third, is_queued);
        drop(offered);
    }
}

// Offers and takes. The rest of the queue is given back with it.
fn hands_over<T: Wait + Abort>(rt: &T, alloc: Global) {
    mark(alloc);
    let (mut intake, mut end) = one_end(rt, alloc, 1);
    take_no_memory(rt, alloc, &mut intake, &mut end);
    leaves_one(rt, alloc, &mut end);
    drop(end);
    drop(intake);
    keeps_none(rt, "given back", alloc);
}

#[test]
fn a_queue_is_made_once_its_memory_is_found(rt: HostRuntime) {
    hands_over(&rt, rt.alloc());
    for request in 1..REQUESTS {
        mark(rt.alloc());
        refuse(rt.alloc(), request);
        let made = queue(rt.alloc(), 4, 2);
        let was_refused = was_refused(rt.alloc());
        same(&rt, "queue", made.err(), lack(was_refused));
        keeps_none(&rt, "a queue", rt.alloc());
        if !was_refused {
            return;
        }
    }
    panic!(rt; "there is none for good");
}

// Joins the ends, and gives the tallies.
fn joined(rt: &impl Abort, alloc: Global, intake: Intake, ends: Vec<IngressEnd>) -> Vec<u64>
    requires { Each (λ e. e.link ≡ intake.link) ends.items }
{
    let mut intake = intake;
    let mut ends = ends;
    for request in 1..REQUESTS {
        mark(alloc);
        refuse(alloc, request);
        let gathered = intake.gather(alloc, ends);
        let was_refused = was_refused(alloc);
        same(rt, "joined", gathered.is_err(), was_refused);
        match gathered {
            Ok((_intake, tallies)) => return tallies,
            Err(refused) => {
                same(rt, "why", refused.why, WhyNot::NoMemory);
                keeps_none(rt, "ends that come back", alloc);
                intake = refused.intake;
                ends = refused.ends;
            }
        }
    }
    panic!(rt; "there is none for good");
}

#[test]
fn ends_are_joined_once_memory_for_their_tallies_is_found(rt: HostRuntime) {
    let (intake, ends) = queue(rt.alloc(), 4, 2).expect(&rt, "a queue");
    let tallies = joined(&rt, rt.alloc(), intake, ends);
    same(&rt, "tallies", tallies.as_slice(), [0, 0].as_slice());
}

// The reader of bytes is dropped with the reader of records, or in its place.
#[test]
fn a_reader_is_made_once_its_memory_is_found(rt: HostRuntime) {
    let word = word(&rt, rt.alloc());
    for request in 1..REQUESTS {
        let bytes = TwoRecords {
            reads: 0,
            word: shared(&rt, &word),
        };
        mark(rt.alloc());
        refuse(rt.alloc(), request);
        let made = IngressReader::new(rt.alloc(), bytes, 100);
        let was_refused = was_refused(rt.alloc());
        same(&rt, "reader", made.err(), lack(was_refused));
        keeps_none(&rt, "a reader", rt.alloc());
        same(&rt, "it is dropped", Arc::strong_count(&word), 1);
        if !was_refused {
            return;
        }
    }
    panic!(rt; "there is none for good");
}

#[test]
fn an_item_is_given_once_memory_for_its_payload_is_found(rt: HostRuntime) {
    for request in 1..REQUESTS {
        let bytes = ScriptedReader::new(Vec::new(rt.alloc()), LONG);
        let mut reader = reader(&rt, rt.alloc(), bytes, 100);
        mark(rt.alloc());
        refuse(rt.alloc(), request);
        let next = reader.next();
        let was_refused = was_refused(rt.alloc());
        match next {
            Next::Item { .. } => {
                same(&rt, "item", was_refused, false);
                return;
            }
            Next::Ended(ended) => {
                let wanted = (true, Ended::NoMemory);
                same(&rt, "refused", (was_refused, ended), wanted);
                keeps_none(&rt, "an item", rt.alloc());
                same(&rt, "again", count(&mut reader), (0, Ended::NoMemory));
            }
        }
    }
    panic!(rt; "there is none for good");
}

// Adds a record for the flow a, with a payload of that many bytes.
fn add_record(rt: &impl Abort, bytes: &mut Vec<u8>, size: u16) {
    let [high, low] = size.to_be_bytes();
    let header = [1, 97, high, low];
    holds(rt, size, bytes.extend_from_slice(&header).is_ok());
    let length = bytes.len().saturating_add(usize::from(size));
    holds(rt, size, bytes.resize(length, 7).is_ok());
}

// Records for the flow a, with payloads of 5000 and of 8000 bytes.
fn two_long(rt: &impl Abort, alloc: Global) -> Vec<u8> {
    let mut bytes = Vec::new(alloc);
    for &size in &[5000, 8000] {
        add_record(rt, &mut bytes, size);
    }
    bytes
}

#[test]
fn long_records_are_read_with_no_memory_but_for_their_payloads(rt: HostRuntime) {
    let bytes = two_long(&rt, rt.alloc());
    for request in 1..REQUESTS {
        let short = [Got::Bytes(1448)].repeat(rt.alloc(), 16);
        let reads = ScriptedReader::new(short.expect(&rt, "memory"), bytes.as_slice());
        let mut reader = reader(&rt, rt.alloc(), reads, 100);
        refuse(rt.alloc(), request);
        let counted = count(&mut reader);
        let was_refused = was_refused(rt.alloc());
        drop(reader);
        if !was_refused {
            same(&rt, "all", counted, (2, Ended::End));
            return;
        }
        let items = usize::from(request - 1) / 2;
        same(&rt, "refused", counted, (items, Ended::NoMemory));
    }
    panic!(rt; "there is none for good");
}

/// Stops a worker as soon as the queue is full.
#[derive(Drop)]
struct Impatient;

impl Gate for Impatient {
    ghost told = { λ _ _ _. Unit {0} };

    fn before(&mut self, _n: u64) {}

    fn offered(&mut self, _n: u64) {}

    fn full(&mut self) -> bool {
        false
    }
}

type OneItem = Job<ScriptedReader<'static>, Impatient>;

fn one_item(rt: &impl Abort, alloc: Global, end: IngressEnd) -> OneItem {
    Job {
        reader: reader(rt, alloc, one_record(alloc), 100),
        end,
        gate: Impatient,
    }
}

fn add_job(rt: &impl Abort, jobs: &mut Vec<OneItem>, job: OneItem) {
    holds(rt, "memory", jobs.push(job).is_ok());
}

fn one_item_each(rt: &impl Abort, alloc: Global) -> Vec<OneItem> {
    let (_intake, ends) = queue(alloc, 2, 2).expect(rt, "a queue");
    let mut jobs = Vec::with_capacity(alloc, 2).expect(rt, "memory");
    for end in ends {
        add_job(rt, &mut jobs, one_item(rt, alloc, end));
    }
    jobs
}

// Whether each job was done. Checks that the others were not started.
fn all_done(rt: &impl Abort, all: &[Done<Impatient>]) -> bool {
    let mut is_done = true;
    same(rt, "jobs", all.len(), 2);
    for one in all {
        let is_started = one.why != Why::NotStarted;
        is_done = is_done && is_started;
        let wanted = if is_started {
            (Why::Ended(Ended::End), 1)
        } else {
            (Why::NotStarted, 0)
        };
        same(rt, "job", (one.why, one.tally), wanted);
    }
    is_done
}

#[test]
fn jobs_are_done_once_memory_for_their_threads_is_found(rt: HostRuntime) {
    for request in 1..REQUESTS {
        let jobs = one_item_each(&rt, rt.alloc());
        mark(rt.alloc());
        refuse(rt.alloc(), request);
        let ran = run_workers(&rt, rt.alloc(), jobs);
        let was_refused = was_refused(rt.alloc());
        match ran {
            Err(jobs) => {
                same(&rt, "back", (was_refused, jobs.len()), (true, 2));
                keeps_none(&rt, "jobs that come back", rt.alloc());
            }
            Ok(all) => {
                let is_done = all_done(&rt, all.as_slice());
                holds(&rt, "done", is_done || was_refused);
                if !was_refused {
                    return;
                }
            }
        }
    }
    panic!(rt; "there is none for good");
}
