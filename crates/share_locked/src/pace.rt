//! The signals by which the threads of a running link wake each other, and the bound of its workers' lead.
ghost use Rattle.std.specs.Prelude.{◌≡◌, IfErr};
ghost use Rattle.share_base.specs.declared.refusal.Refusal.TheVariants.{NoMemory};

use crate::running::Stop;
use share_base::Refusal;
use std::alloc::Global;
use std::sync::Wait;
use std::sync::atomic::{AtomicU64, Ordering};
use std::thread::Parker;

/// A thread that lies down when it has nothing to do, and sleeps until it is woken.
#[derive(Drop)]
struct Sleeper {
    is_down: AtomicU64,
    parker: Parker,
}

impl Sleeper {
    fn new() -> Sleeper {
        Sleeper {
            is_down: AtomicU64::new(0),
            parker: Parker::new(),
        }
    }

    fn lie_down(&self) {
        self.is_down.store(1, Ordering::SeqCst);
    }

    fn get_up(&self) {
        self.is_down.store(0, Ordering::SeqCst);
    }

    // Sleeps until somebody wakes it. It does not sleep if somebody did since it lay down.
    fn sleep<R: Wait>(&self, rt: &R) {
        for _ in rt.forever() {
            if self.is_down.load(Ordering::SeqCst) == 0 {
                return;
            }
            self.parker.park(rt);
        }
    }

    // Wakes it if it lies down.
    fn wake(&self) {
        if self.is_down.load(Ordering::SeqCst) != 0 {
            self.get_up();
            self.parker.unpark();
        }
    }
}

/// A worker: the number of offers that it may have made, and whether it waits for its connection.
#[derive(Drop)]
struct WorkerPace {
    allowed: AtomicU64,
    is_waiting: AtomicU64,
    parker: Parker,
}

impl WorkerPace {
    // A worker that may make one offer, and has not begun.
    fn new() -> WorkerPace {
        WorkerPace {
            allowed: AtomicU64::new(1),
            is_waiting: AtomicU64::new(1),
            parker: Parker::new(),
        }
    }
}

/// The pace of a running link, which its threads share so that none of them polls. The link's thread sleeps while it
/// has nothing to do, and anyone who makes work for it *rings*. A worker sleeps when it has made as many offers as the
/// link allows. Workers are numbered from 1, as the ends of the queue are.
///
/// No wake-up is lost. A thread that makes work makes it first, and then looks whether the link's thread lies down.
/// That thread lies down first, and then looks for work once more before it sleeps. All accesses have one order, so one
/// of the two sees the other. A worker looks at what it is allowed before each sleep, and a wake-up that comes before
/// its sleep is kept.
#[derive(Drop)]
pub struct Pace {
    link: Sleeper,
    workers: Vec<WorkerPace>,
    most: u64,
    hurry: Stop,
    over: Stop,
}

impl Pace {
    /// The pace of a link with that many workers and a queue of that many places. Each worker may be ahead of
    /// the link by an equal part of the places, so the queue is never full. `NoMemory` if memory is refused.
    pub fn new(alloc: Global, places: usize, workers: usize) -> Result<Pace, Refusal>
        ensures { IfErr result (λ e. e ≡ NoMemory) }
    {
        let mut paces = Vec::with_capacity(alloc, workers)?;
        for _ in 0..workers {
            paces.push(WorkerPace::new())?;
        }
        Ok(Pace {
            link: Sleeper::new(),
            workers: paces,
            most: (places / workers.max(1)).max(1) as u64,
            hurry: Stop::new(),
            over: Stop::new(),
        })
    }

    fn worker(&self, worker: u64) -> Option<&WorkerPace> {
        let at = worker.checked_sub(1)?;
        self.workers.get(at as usize)
    }

    /// Wakes the link's thread if it lies down. Each thread that makes work for the link calls it afterwards.
    pub fn ring(&self) {
        self.link.wake();
    }

    /// A worker calls it before it offers for the n-th time: it sleeps until it is allowed to.
    pub fn wait<R: Wait>(&self, rt: &R, worker: u64, n: u64) {
        let Some(pace) = self.worker(worker) else {
            return;
        };
        for _ in rt.forever() {
            if n <= pace.allowed.load(Ordering::SeqCst) || self.over.is_set() {
                return;
            }
            self.ring();
            pace.parker.park(rt);
        }
    }

    /// A worker calls it when it has to wait for its connection, and when it ends.
    pub fn begin_waiting(&self, worker: u64) {
        if let Some(pace) = self.worker(worker) {
            pace.is_waiting.store(1, Ordering::SeqCst);
            self.ring();
        }
    }

    /// A worker calls it when it waits for its connection no more.
    pub fn end_waiting(&self, worker: u64) {
        if let Some(pace) = self.worker(worker) {
            pace.is_waiting.store(0, Ordering::SeqCst);
        }
    }

    /// From then on no worker waits for room in the buffer of a flow.
    pub fn hurry(&self) {
        self.hurry.set();
        self.ring();
    }

    // The number of workers.
    pub(crate) fn workers(&self) -> usize {
        self.workers.len()
    }

    // The most offers that a worker may be ahead of the link.
    pub(crate) fn most(&self) -> u64 {
        self.most
    }

    pub(crate) fn is_hurried(&self) -> bool {
        self.hurry.is_set()
    }

    // Whether a worker waits for its connection, and not for the link.
    pub(crate) fn is_waiting(&self, worker: u64) -> bool {
        self.worker(worker)
            .is_none_or(|pace| pace.is_waiting.load(Ordering::SeqCst) != 0)
    }

    // Lets a worker make that many offers.
    pub(crate) fn allow(&self, worker: u64, offers: u64) {
        if let Some(pace) = self.worker(worker) {
            pace.allowed.store(offers, Ordering::SeqCst);
            pace.parker.unpark();
        }
    }

    /// Lets all workers go on, since the link has stopped taking offers.
    pub fn end(&self) {
        self.over.set();
        for pace in &self.workers {
            pace.parker.unpark();
        }
    }

    pub(crate) fn lie_down(&self) {
        self.link.lie_down();
    }

    pub(crate) fn get_up(&self) {
        self.link.get_up();
    }

    pub(crate) fn sleep<R: Wait>(&self, rt: &R) {
        self.link.sleep(rt);
    }
}
