//! An offer is queued while the link waits for its writer.
ghost use Rattle.std.specs.Prelude.{◌≡◌};

use super::assertions::holds;
use super::cases::OPENED;
use super::session::plays;
use super::stage::{NewLink, Stage, new_link, staged};
use share_locked::{LinkBrand, Stop};
use share_model::{Answer, TellingWriter};
use std::alloc::Global;
use std::marker::Brand;
use std::process::Abort;
use std::sync::{Arc, Wait};
use std::thread;
use std::thread::Threads;

/// The most times that a thread looks at a word.
const LOOKS: u64 = 1_000_000_000;

fn is_seen(word: &Stop) -> bool {
    for _look in 0..LOOKS {
        if word.is_set() {
            return true;
        }
    }
    false
}

/// Sets a word when it is called, and accepts a piece once another word is set. It fails if that is never set.
#[derive(Drop)]
struct Waiting {
    called: Arc<Stop>,
    offered: Arc<Stop>,
}

impl TellingWriter for Waiting {
    ghost use Rattle.std.specs.Prelude.{None};
    ghost use Rattle.share_model.specs.io.Told.{WasTold};

    ghost told = { λ _. None };

    ghost answers = { λ _ piece answer _. WasTold None piece answer None };

    ghost tells = { λ before piece answer after did. did };

    fn offer(&mut self, piece: &[u8]) -> Answer {
        self.called.set();
        if is_seen(&self.offered) {
            Answer::Accepted(piece.len())
        } else {
            Answer::Failed
        }
    }
}

// Offers once more when the writer is called, and sets a word.
fn offers_again<T: Abort + Wait, L: LinkBrand>(
    rt: &T,
    alloc: Global,
    stage: &Stage<Waiting, L>,
    waiting: &Waiting,
) {
    holds(rt, "the writer is called", is_seen(&waiting.called));
    plays(rt, alloc, stage, &["E1 a b = 2"]);
    waiting.offered.set();
}

// The first packet is written while the second one is offered.
fn writes_meanwhile<T, L>(rt: &T, alloc: Global, stage: &Stage<Waiting, L>, waiting: &Waiting)
where
    T: Abort + Threads + Wait + Sync,
    L: LinkBrand + Send,
{
    thread::scope(thread::scope_env(), rt, |scope| {
        let started = scope.spawn(move || offers_again(rt, alloc, stage, waiting));
        holds(rt, "a thread", started.is_ok());
        plays(
            rt,
            alloc,
            stage,
            &["turn 65535 = wrote 1 1 18 whole; admit = 1 2 packet 1 2"],
        );
    });
}

fn is_written<T, L>(rt: &T, alloc: Global, new: NewLink<Waiting>, waiting: &Waiting)
where
    T: Abort + Threads + Wait + Sync,
    L: LinkBrand + Send,
    requires { new ≡ L.link }
{
    let stage = staged::<Waiting, L>(rt, alloc, new, 1);
    plays(
        rt,
        alloc,
        &stage,
        &[OPENED, "E1 a a = 1; admit = 1 1 packet 1 1"],
    );
    writes_meanwhile(rt, alloc, &stage, waiting);
    drop(stage);
}

fn word(rt: &impl Abort, alloc: Global) -> Arc<Stop> {
    Arc::new(alloc, Stop::new()).ok().expect(rt, "memory")
}

fn shared(rt: &impl Abort, word: &Arc<Stop>) -> Arc<Stop> {
    Arc::try_clone(word).ok().expect(rt, "memory")
}

#[test]
fn offer_while_writing(rt: HostRuntime) {
    let alloc = rt.alloc();
    let waiting = Waiting {
        called: word(&rt, alloc),
        offered: word(&rt, alloc),
    };
    let writer = Waiting {
        called: shared(&rt, &waiting.called),
        offered: shared(&rt, &waiting.offered),
    };
    let new = new_link(&rt, alloc, 4, 1, 64, writer);
    is_written::<HostRuntime, Brand>(&rt, alloc, new, &waiting);
    drop(waiting);
}
