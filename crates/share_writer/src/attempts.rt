//! Calls of the system that are made until they succeed.
ghost use Rattle.std.specs.Prelude.{IfSome, Ok};

use crate::faults::number_of;
use crate::shared::{Shared, ThreadState};
use mio::Waker;
use std::io;
use std::io::ErrorKind;
use std::sync::Wait;

/// The calls of the system that a thread makes. One that fails is made again each second. The loop is woken when that
/// begins and when it ends.
#[derive(Clone, Copy)]
pub(crate) struct Attempts<'s> {
    pub(crate) shared: &'s Shared,
    pub(crate) state: &'s ThreadState,
    pub(crate) waker: &'s Waker,
}

impl<'s> Attempts<'s> {
    /// Wakes the loop.
    pub(crate) fn wake(&self) {
        let _ = self.waker.wake();
    }

    /// Whether no more calls are made.
    pub(crate) fn is_abandoned(&self) -> bool {
        self.shared.is_abandoned()
    }

    /// A call has succeeded.
    pub(crate) fn succeeded(&self) {
        if self.state.shown() != 0 {
            self.state.show(0);
            self.wake();
        }
    }

    /// A call has failed. Returns when it is to be made again.
    pub(crate) fn failed<R: Wait>(&self, rt: &R, fault: &io::Error) {
        if fault.kind() == ErrorKind::Interrupted {
            return;
        }
        if self.state.show(number_of(fault)) == 0 {
            self.wake();
        }
        self.state.pause(rt);
    }

    /// Makes a call until it succeeds. `None` if the disk was abandoned before.
    pub(crate) fn until_done<R: Wait, T, F: Fn() -> io::Result<T>>(
        &self,
        rt: &R,
        call: F,
    ) -> Option<T>
        requires { F.IsAlwaysCallable call }
        ensures { IfSome result (λ value. F.post call (Ok value)) }
    {
        for _ in rt.forever() {
            if self.is_abandoned() {
                return None;
            }
            match call() {
                Ok(value) => {
                    self.succeeded();
                    return Some(value);
                }
                Err(fault) => self.failed(rt, &fault),
            }
        }
        unreachable!()
    }
}
