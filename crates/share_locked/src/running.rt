//! The worker that serves a running link.
use crate::link::LinkBrand;
use crate::locked::{Admit, Locked};
use share_base::{Reply, Turn};
use share_model::{Rates, TellingWriter};
use std::sync::atomic::{AtomicU64, Ordering};
use std::sync::{Mutex, Wait};
use std::thread;
use std::thread::Parker;
use std::time::Duration;

/// A running link: a thread locks it, and makes one call of `Locked` on the guard.
pub type Port<W, S, L> = Mutex<Locked<W, S, L>>;

/// The most bytes that a turn offers.
const MOST: u32 = 65535;

/// The rounds in a row with nothing to do after which a link that nobody wakes begins to pause.
const EAGER: u32 = 16;

/// The number of milliseconds that it then pauses after each round with nothing to do.
const PAUSE: u64 = 2;

/// A flag that is set once, and stays set.
#[derive(Drop)]
pub struct Stop {
    word: AtomicU64,
}

impl Stop {
    /// A flag that is not set.
    pub fn new() -> Stop {
        Stop {
            word: AtomicU64::new(0),
        }
    }

    /// Sets it.
    pub fn set(&self) {
        self.word.store(1, Ordering::SeqCst);
    }

    /// Whether it was set.
    pub fn is_set(&self) -> bool {
        self.word.load(Ordering::SeqCst) != 0
    }
}

/// The end of a link's service.
#[derive(Clone, Copy, Debug, PartialEq, Eq)]
pub enum LinkEnd {
    /// It was stopped, the queue was empty, and nothing was left to send.
    Drained,
    /// It was stopped, the queue was empty, and the link was broken.
    Broken,
    /// The life was spent.
    Spent,
}

// The findings of a round.
#[derive(Clone, Copy, Debug, PartialEq, Eq)]
enum Round {
    // Something was done, or more may be at once.
    Busy,
    // The queue was empty, and there was nothing to send.
    Idle,
    // The queue was empty, and the link was broken.
    Broken,
    // The life was spent.
    Spent,
}

/// The pacing of a link's service between its calls. The default is that of a link that nobody wakes: it waits for no
/// packet.
pub(crate) trait Pacing {
    /// The n-th offer of a worker was taken, with this reply.
    fn admitted<W: TellingWriter, S: Rates, L: LinkBrand, R: Wait>(
        &mut self,
        _rt: &R,
        _port: &Port<W, S, L>,
        _worker: u64,
        _n: u64,
        _reply: &Reply,
    ) {}

    /// Whether the next turn is to wait for packets that are at hand soon.
    fn awaits(&mut self) -> bool {
        false
    }

    /// Lets the workers run, the n-th time in a row, from 0, that a turn waits.
    fn linger<R: Wait>(&mut self, _rt: &R, _n: u32) {}

    /// A turn was made.
    fn turned<W: TellingWriter, S: Rates, L: LinkBrand, R: Wait>(
        &mut self,
        _rt: &R,
        _port: &Port<W, S, L>,
        _turn: &Turn,
    ) {}

    /// A round had something to do.
    fn worked(&mut self);

    /// A round had nothing to do.
    fn pause<R: Wait>(&mut self, rt: &R);
}

// Pauses for a short time while there is nothing to do.
#[derive(Drop)]
struct Timed {
    parker: Parker,
    idle: u32,
}

impl Pacing for Timed {
    fn worked(&mut self) {
        self.idle = 0;
    }

    fn pause<R: Wait>(&mut self, rt: &R) {
        self.idle = self.idle.saturating_add(1);
        if self.idle < EAGER {
            thread::yield_now();
        } else {
            self.parker.park_timeout(rt, Duration::from_millis(PAUSE));
        }
    }
}

/// Serves a link until it is stopped and has nothing left to do, or until its life is spent. A round admits offers
/// until the queue is empty, at most as many as the queue has places, and then makes one turn. Each call locks by
/// itself, so others get the lock between any two calls. A command waits only for the calls before it. After some
/// rounds in a row with nothing to do it pauses for two milliseconds after each.
pub fn run_link<W: TellingWriter, S: Rates, L: LinkBrand, R: Wait>(
    rt: &R,
    port: &Port<W, S, L>,
    stop: &Stop,
) -> LinkEnd {
    let mut timed = Timed {
        parker: Parker::new(),
        idle: 0,
    };
    serve_in_rounds(rt, port, stop, &mut timed)
}

// Serves a link in rounds.
pub(crate) fn serve_in_rounds<W, S, L, R, P>(
    rt: &R,
    port: &Port<W, S, L>,
    stop: &Stop,
    pacing: &mut P,
) -> LinkEnd
where
    W: TellingWriter,
    S: Rates,
    L: LinkBrand,
    R: Wait,
    P: Pacing,
{
    let places = port.lock(rt).capacity();
    for _ in rt.forever() {
        let last = stop.is_set();
        match serve_round(rt, port, places, pacing) {
            Round::Busy => pacing.worked(),
            Round::Spent => return LinkEnd::Spent,
            Round::Idle if last => return LinkEnd::Drained,
            Round::Broken if last => return LinkEnd::Broken,
            _ => pacing.pause(rt),
        }
    }
    unreachable!()
}

// One round.
fn serve_round<W: TellingWriter, S: Rates, L: LinkBrand, R: Wait, P: Pacing>(
    rt: &R,
    port: &Port<W, S, L>,
    places: usize,
    pacing: &mut P,
) -> Round {
    let found = match admit_awaited(rt, port, places, pacing) {
        Admit::Spent => return Round::Spent,
        found => found,
    };
    let turn = port.lock(rt).turn(MOST);
    pacing.turned(rt, port, &turn);
    match (turn, found) {
        (Turn::Spent, _) => Round::Spent,
        (Turn::Idle, Admit::Empty) => Round::Idle,
        (Turn::Broken, Admit::Empty) => Round::Broken,
        _ => Round::Busy,
    }
}

// Admits what is in the queue, and what is at hand soon. Gives the last answer.
fn admit_awaited<W: TellingWriter, S: Rates, L: LinkBrand, R: Wait, P: Pacing>(
    rt: &R,
    port: &Port<W, S, L>,
    places: usize,
    pacing: &mut P,
) -> Admit {
    let mut times: u32 = 0;
    for _ in rt.forever() {
        let found = admit_all(rt, port, places, pacing);
        if found == Admit::Spent || !pacing.awaits() {
            return found;
        }
        pacing.linger(rt, times);
        times = times.saturating_add(1);
    }
    unreachable!()
}

// Admits until the queue is empty, the life is spent, or `places` offers were admitted. Gives the last answer.
fn admit_all<W: TellingWriter, S: Rates, L: LinkBrand, R: Wait, P: Pacing>(
    rt: &R,
    port: &Port<W, S, L>,
    places: usize,
    pacing: &mut P,
) -> Admit {
    let mut last = Admit::Empty;
    for _ in 0..places {
        last = port.lock(rt).admit(rt);
        match &last {
            Admit::Admitted { worker, n, reply } => {
                pacing.admitted(rt, port, *worker, *n, reply);
            }
            _ => return last,
        }
    }
    last
}
