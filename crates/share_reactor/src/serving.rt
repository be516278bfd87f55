//! The answers to web connections.

use crate::reactor::Reactor;
use std::fs::{File, Files};
use std::io::Eprint;
use std::time::{Clock, Duration, Instant};

impl Reactor<'_> {
    /// Answers web connections. Returns true if more may be done for them at once.
    pub(crate) fn serve_web<R: Files<File = File> + Clock + Eprint>(
        &mut self,
        rt: &R,
        now: Instant,
    ) -> bool {
        let bound = self.sockets.accept_web(rt, self.alloc, &mut self.news, now);
        let mut is_busy = false;
        for key in 0..bound {
            is_busy |= self.serve_client(rt, key, now);
        }
        is_busy
    }

    // Reads from a connection, answers it, and sends to it.
    fn serve_client<R: Files<File = File>>(&mut self, rt: &R, key: usize, now: Instant) -> bool {
        let Some(web) = &mut self.sockets.web else {
            return false;
        };
        let text = match web.read(key, now) {
            None => None,
            Some(request) => Some(self.parts().answer_to(rt, request)),
        };
        let Some(web) = &mut self.sockets.web else {
            return false;
        };
        if let Some(text) = text {
            web.answer(key, text);
        }
        web.send(&mut self.sockets.sources, key)
    }

    /// The time in which nothing has to be done for web connections. `None` is for ever.
    pub(crate) fn web_pause(&self, now: Instant) -> Option<Duration> {
        match &self.sockets.web {
            None => None,
            Some(web) => web.pause(now),
        }
    }
}
