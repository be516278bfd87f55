//! A link that is served in a thread of its own.
ghost use Rattle.std.specs.Prelude.{is_some};

use crate::link::LinkBrand;
use crate::pace::Pace;
use crate::paced::{Attendant, run_paced_link};
use crate::running::{LinkEnd, Port, Stop};
use share_model::{Rates, TellingWriter};
use std::sync::Wait;
use std::thread;
use std::thread::Threads;

/// Serves a link in a thread of its own, as `run_paced_link` does, while `work` is done in this one. Then it stops the
/// service and waits for its end. `work` is given whether the link has a thread. If its thread is refused, the
/// attendant and the workers hear before the work that the link takes nothing, and the end is `None`.
pub fn serve_while<W, S, L, R, A, F, X>(
    rt: &R,
    port: &Port<W, S, L>,
    pace: &Pace,
    attendant: &A,
    work: F,
) -> (Option<LinkEnd>, X)
where
    W: TellingWriter + Send,
    S: Rates + Send,
    L: LinkBrand + Send,
    R: Threads + Wait + Sync,
    A: Attendant + Sync,
    F: FnOnce(bool) -> X,
    requires { (is_served : _) → F.pre work is_served }
    ensures { F.post work (is_some result.0) result.1 }
{
    let stop = Stop::new();
    let stopped = &stop;
    thread::scope(
        thread::scope_env(),
        rt,
        move |scope| -> (Option<LinkEnd>, X)
            requires { (is_served : _) → F.pre work is_served }
            ensures { F.post work (is_some result.0) result.1 }
        {
            let link = scope.spawn(move || run_paced_link(rt, port, stopped, pace, attendant));
            if link.is_err() {
                attendant.ends(rt);
                pace.end();
            }
            let done = work(link.is_ok());
            stopped.set();
            pace.ring();
            match link {
                Ok(link) => (Some(link.join(rt)), done),
                Err(_) => (None, done),
            }
        },
    )
}
