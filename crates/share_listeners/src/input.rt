//! Standard input, whose end ends a gateway that is to end with it.

use libc::net::{POLLHUP, POLLIN};
use libc::types::pollfd;
use mio::unix::SourceFd;
use mio::{Interest, Registry, Token};

/// The descriptor of standard input.
const INPUT: i32 = 0;

/// The number of bytes read in one call, and the number of calls made in a round.
const PIECE: usize = 4096;

const CALLS: u32 = 16;

/// Standard input. Its bytes are thrown away.
#[derive(Drop)]
pub struct Input {
    is_readable: bool,
    has_ended: bool,
}

impl Input {
    /// Standard input, whose events carry this token. A file gives no events, so its end is taken as reached.
    pub fn watched(registry: &Registry, token: Token) -> Input {
        let mut source = SourceFd(&INPUT);
        let is_watched = registry
            .register(&mut source, token, Interest::READABLE)
            .is_ok();
        Input {
            is_readable: is_watched,
            has_ended: !is_watched,
        }
    }

    /// Standard input, which is not looked at.
    pub fn ignored() -> Input {
        Input {
            is_readable: false,
            has_ended: false,
        }
    }

    /// It was reported readable.
    pub fn note(&mut self) {
        self.is_readable = true;
    }

    /// Throws away what came. Returns whether it has ended.
    pub fn drain(&mut self) -> bool {
        for _ in 0..CALLS {
            if self.has_ended || !self.is_readable {
                break;
            }
            self.read();
        }
        self.has_ended
    }

    // Reads once, if a read does not wait.
    fn read(&mut self) {
        if !is_ready() {
            self.is_readable = false;
            return;
        }
        let mut piece = [0u8; PIECE];
        if libc::read(INPUT, &mut piece) <= 0 {
            self.has_ended = true;
        }
    }
}

// Whether a read of standard input does not wait.
fn is_ready() -> bool {
    let mut watched = [pollfd {
        fd: INPUT,
        events: POLLIN,
        revents: 0,
    }];
    libc::net::poll(&mut watched, 0) > 0 && watched[0].revents & (POLLIN | POLLHUP) != 0
}
