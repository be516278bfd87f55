//! A link's service ends at a stop that comes in the middle of a round, and if its thread is refused. A thread is
//! refused by the allocator of `.ci/allocator.c` alone, with which `.ci/memory` runs that test.
ghost use Rattle.std.specs.Prelude.{◌≡◌, []};
ghost use Rattle.share_base.specs.declared.version.Version.TheVariants.{Two};

use crate::tests::assertions::same;
use crate::tests::made::{offers, recording};
use running_tests::ByByte;
use share_ingress::{IngressEnd, Intake, queue};
use share_journal::Recorder;
use share_locked::{
    Admit, Attendant, LinkBrand, LinkEnd, Locked, Pace, Port, Stop, run_paced_link, serve_while,
};
use share_model::allocator::WAS_REFUSED;
use share_model::{Rates, Tape, asks};
use std::alloc::Global;
use std::marker::Brand;
use std::process::Abort;
use std::sync::{Mutex, Wait};
use std::thread;
use std::thread::Threads;

/// The number of stops of a service, and the number of moments after its beginning, one yield apart.
const STOPS: u64 = 4000;

const MOMENTS: u64 = 100;

/// More events than a link makes here.
const LIFE: u64 = 65536;

/// More requests for memory than the start of a thread makes.
const REQUESTS: u16 = 64;

/// Notes that the link has stopped taking offers.
#[derive(Drop)]
struct Heard {
    has_ended: Stop,
}

impl Attendant for Heard {
    fn idles(&self) {}

    fn ends<R: Wait>(&self, _rt: &R) {
        self.has_ended.set();
    }
}

// Makes an offer and sets the stop while the link waits for its lock.
fn offers_and_stops<T: Wait + Abort, S: Rates, L: LinkBrand>(
    rt: &T,
    alloc: Global,
    port: &Port<Tape, S, L>,
    end: &mut IngressEnd,
    stop: &Stop,
) {
    let locked = port.lock(rt);
    offers(rt, alloc, end);
    stop.set();
    drop(locked);
}

// Serves a link, and stops it so at a moment after the beginning.
fn is_stopped<T, S, L>(
    rt: &T,
    alloc: Global,
    port: &Port<Tape, S, L>,
    end: &mut IngressEnd,
    moment: u64,
) -> LinkEnd
where
    T: Threads + Wait + Abort + Sync,
    S: Rates + Send,
    L: LinkBrand + Send,
{
    let pace = Pace::new(alloc, 1, 1).expect(rt, "a pace");
    let stop = Stop::new();
    let heard = Heard {
        has_ended: Stop::new(),
    };
    let (paced, stopped, hears) = (&pace, &stop, &heard);
    thread::scope(thread::scope_env(), rt, move |scope| -> LinkEnd {
        let link = scope.spawn(move || run_paced_link(rt, port, stopped, paced, hears));
        for _ in 0..moment {
            thread::yield_now();
        }
        offers_and_stops(rt, alloc, port, end, stopped);
        paced.ring();
        link.ok().expect(rt, "a thread").join(rt)
    })
}

// Checks that no offer made before a stop is left in the queue, whatever the link does when the stop is set.
fn leaves_no_offer<T, S, L>(
    rt: &T,
    alloc: Global,
    recorder: Recorder<Tape, S>,
    intake: Intake,
    end: IngressEnd,
)
where
    T: Threads + Wait + Abort + Sync,
    S: Rates + Send + Drop,
    L: LinkBrand + Send,
    requires empty { recorder.entries ≡ [] }
    requires version { recorder.link.live.version ≡ Two }
    requires link { intake.link ≡ L.link }
    requires nothing { intake.popped ≡ [] }
{
    let mut end = end;
    let port = Mutex::new(Locked::<Tape, S, L>::new(recorder, intake));
    for number in 0..STOPS {
        let ended = is_stopped(rt, alloc, &port, &mut end, number % MOMENTS);
        same(rt, number, ended, LinkEnd::Drained);
        let left = port.lock(rt).admit(rt);
        same(rt, (number, "an offer"), left, Admit::Empty);
    }
    drop(port);
    drop(end);
}

#[test]
fn a_stop_leaves_no_offer(rt: HostRuntime) {
    let alloc = rt.alloc();
    let recorder = recording(&rt, alloc, ByByte, LIFE);
    let (intake, mut ends) = queue(alloc, 1, 1).expect(&rt, "a queue");
    let end = ends.pop().expect(&rt, "an end");
    leaves_no_offer::<HostRuntime, ByByte, Brand>(&rt, alloc, recorder, intake, end);
}

// The reports of a link whose thread may be refused, before the work that it is to be served for.
#[derive(Clone, Copy, Debug, PartialEq, Eq)]
struct Seen {
    is_served: bool,
    has_ended: bool,
}

// Serves a link, whose thread may be refused. Work that the link does not allow waits only if it is served.
fn served_or_not<T, S, L>(
    rt: &T,
    alloc: Global,
    port: &Port<Tape, S, L>,
    request: u16,
) -> (Option<LinkEnd>, Seen, bool)
where
    T: Threads + Wait + Abort + Sync,
    S: Rates + Send,
    L: LinkBrand + Send,
{
    let pace = Pace::new(alloc, 1, 1).expect(rt, "a pace");
    let heard = Heard {
        has_ended: Stop::new(),
    };
    let (paced, hears) = (&pace, &heard);
    let _no = asks!(alloc, request);
    let (end, seen) = serve_while(rt, port, paced, hears, |is_served| -> Seen {
        if !is_served {
            paced.wait(rt, 1, 2);
        }
        Seen {
            is_served,
            has_ended: hears.has_ended.is_set(),
        }
    });
    let was_refused = asks!(alloc, WAS_REFUSED);
    (end, seen, was_refused)
}

// Checks that workers and attendant hear at once of a link whose thread is refused.
fn is_heard_of<T, S, L>(rt: &T, alloc: Global, recorder: Recorder<Tape, S>, intake: Intake)
where
    T: Threads + Wait + Abort + Sync,
    S: Rates + Send + Drop,
    L: LinkBrand + Send,
    requires empty { recorder.entries ≡ [] }
    requires version { recorder.link.live.version ≡ Two }
    requires link { intake.link ≡ L.link }
    requires nothing { intake.popped ≡ [] }
{
    let port = Mutex::new(Locked::<Tape, S, L>::new(recorder, intake));
    for request in 1..REQUESTS {
        let (end, seen, was_refused) = served_or_not(rt, alloc, &port, request);
        let wanted = if was_refused {
            (
                None,
                Seen {
                    is_served: false,
                    has_ended: true,
                },
            )
        } else {
            (
                Some(LinkEnd::Drained),
                Seen {
                    is_served: true,
                    has_ended: false,
                },
            )
        };
        same(rt, request, (end, seen), wanted);
        if !was_refused {
            break;
        }
    }
    drop(port);
}

#[test]
fn a_refused_thread_of_a_link_is_heard_of(rt: HostRuntime) {
    let alloc = rt.alloc();
    let recorder = recording(&rt, alloc, ByByte, LIFE);
    let (intake, ends) = queue(alloc, 1, 1).expect(&rt, "a queue");
    drop::<Vec<IngressEnd>>(ends);
    is_heard_of::<HostRuntime, ByByte, Brand>(&rt, alloc, recorder, intake);
}
