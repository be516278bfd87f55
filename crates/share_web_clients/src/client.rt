//! One connection of a browser or a scrape.
ghost use Rattle.std.specs.Prelude.{◌≡◌, ◌≤◌, true, length};
ghost use Rattle.std.specs.Duration.{as_nanos};
ghost use Rattle.std.specs.Time.{instant_nanos};
ghost use Rattle.share_web_clients.specs.Clients.{Reads, Sends, is_answering, is_busy, is_open, is_reading, new_client};
ghost use Rattle.share_web_clients.specs.Clients.{noted, sends, takes, time_left};
ghost use Rattle.share_web_clients.specs.declared.client.Stage.TheVariants.{Answering, Over};

use share_sockets::{Progress, Stream};
use share_web::Head;
use std::alloc::Global;
use std::marker::Model;
use std::time::{Duration, Instant};

/// The number of calls on the socket made at a time.
const CALLS: u32 = 4;

/// The number of bytes read at a time.
const PIECE: usize = 2048;

/// The number of seconds that a connection has from its beginning to its end.
const SECONDS: u64 = 10;

/// The stage of a connection.
#[derive(Clone, Copy, Debug, PartialEq, Eq)]
pub enum Stage {
    /// The head comes.
    Reading,
    /// The head is whole, and there is no answer yet.
    Asked,
    /// The answer goes out.
    Answering,
    /// The answer went out. Bytes that come are left out until the far end has ended.
    Closing,
    /// Nothing comes and nothing goes out.
    Over,
}

/// A connection, which asks for one thing. A contract sees its stage, its head, what is left of its answer, and what
/// its socket may be ready for.
pub struct WebClient {
    stream: Stream,
    head: Head,
    answer: Vec<u8>,
    // The number of bytes of the answer that the socket took.
    sent: usize,
    // The token that its events carry.
    token: usize,
    begun: Instant,
    stage: Stage,
    is_readable: bool,
    is_writable: bool,
}

impl Drop for WebClient {
    fn drop(self) {
        let WebClient {
            stream,
            head,
            answer,
            sent: _,
            token: _,
            begun: _,
            stage: _,
            is_readable: _,
            is_writable: _,
        } = self;
        drop(stream);
        drop(head);
        drop(answer);
    }
}

impl Model for WebClient {
    ghost use Rattle.std.specs.Prelude.{◌≤◌, drop, length};
    ghost use Rattle.std.specs.Time.{instant_nanos};
    ghost use Rattle.share_web_clients.specs.Clients.{ClientView};

    ghost Value = { ClientView };

    ghost view = { λ c.
        record {
          token = c.token;
          begun = instant_nanos c.begun;
          stage = c.stage;
          head = c.head;
          answer = drop c.sent c.answer.items;
          reads = c.is_readable;
          writes = c.is_writable;
        } };

    ghost invariant = { λ c. c.sent ≤ length c.answer.items };
}

impl WebClient {
    /// A connection of which nothing was read.
    pub fn new(alloc: Global, stream: Stream, token: usize, now: Instant) -> WebClient
        ensures { result ≡ new_client token (instant_nanos now) }
    {
        WebClient {
            stream,
            head: Head::new(alloc),
            answer: Vec::new(alloc),
            sent: 0,
            token,
            begun: now,
            stage: Stage::Reading,
            is_readable: true,
            is_writable: true,
        }
    }

    /// The token that its events carry.
    pub fn token(&self) -> usize
        ensures { result ≡ self.now.token }
    {
        self.token
    }

    /// Its stage.
    pub fn stage(&self) -> Stage
        ensures { result ≡ self.now.stage }
    {
        self.stage
    }

    /// The bytes of the head that came.
    pub fn head(&self) -> &[u8]
        ensures { result.now ≡ self.now.head }
    {
        self.head.as_bytes()
    }

    /// The time until it is ended.
    pub fn time_left(&self, now: Instant) -> Duration
        ensures { as_nanos result ≡ time_left (instant_nanos now) self.now }
    {
        Duration::from_secs(SECONDS).saturating_sub(now.saturating_duration_since(self.begun))
    }

    /// Its socket was reported readable or writable.
    pub fn note(&mut self, readable: bool, writable: bool)
        ensures { self.new ≡ noted readable writable self.old }
    {
        self.is_readable |= readable;
        self.is_writable |= writable;
    }

    /// Ends it.
    pub fn end(&mut self)
        ensures { self.new ≡ record self.old { stage = Over } }
    {
        self.stage = Stage::Over;
    }

    /// Whether more may be done for it at once.
    pub fn is_busy(&self) -> bool
        ensures { result ≡ is_busy self.now }
    {
        self.takes() || self.sends()
    }

    // Whether bytes may come that are waited for.
    fn takes(&self) -> bool
        ensures { result ≡ takes self.now }
    {
        self.is_readable && self.stage.is_reading()
    }

    // Whether bytes of the answer may go out.
    fn sends(&self) -> bool
        ensures { result ≡ sends self.now }
    {
        self.is_writable && self.stage.is_answering()
    }

    /// Reads what came. Once the head is whole nothing is added to it.
    pub fn read(&mut self)
        ensures { Reads self.old self.new }
    {
        'calls: for _ in 0..CALLS {
            if !self.takes() {
                return;
            }
            self.read_piece();
        }
    }

    // Reads in one call.
    fn read_piece(&mut self)
        ensures { Reads self.old self.new }
    {
        let mut piece = [0u8; PIECE];
        match self.stream.read(&mut piece) {
            Progress::Moved(count) => self.take(&piece[..count]),
            Progress::Again => (),
            Progress::Waits => self.is_readable = false,
            Progress::Over => self.stage = Stage::Over,
        }
    }

    // Takes bytes that came. Without memory for them it ends.
    fn take(&mut self, piece: &[u8])
        ensures { Reads self.old self.new }
    {
        if !self.stage.is_open() {
            return;
        }
        match self.head.take(piece) {
            Err(_) => self.stage = Stage::Over,
            Ok(()) => {
                if self.head.is_over() {
                    self.stage = Stage::Asked;
                }
            }
        }
    }

    /// Gives it the answer.
    pub fn answer(&mut self, text: Vec<u8>)
        ensures { self.new ≡ record self.old { stage = Answering; answer = text.items } }
    {
        self.answer = text;
        self.sent = 0;
        self.stage = Stage::Answering;
    }

    /// Gives the socket what is left of the answer, as far as it takes it.
    pub fn send(&mut self)
        ensures { Sends self.old self.new }
    {
        'calls: for _ in 0..CALLS {
            if !self.sends() {
                return;
            }
            self.send_piece();
        }
    }

    // Gives the socket bytes of the answer in one call.
    fn send_piece(&mut self)
        requires { sends self.old ≡ true }
        ensures { Sends self.old self.new }
    {
        match self.stream.write(&self.answer.as_slice()[self.sent..]) {
            Progress::Moved(count) => self.advance(count),
            Progress::Again => (),
            Progress::Waits => self.is_writable = false,
            Progress::Over => self.stage = Stage::Over,
        }
    }

    // The socket took the first bytes that were left. If it took all, nothing more goes out.
    fn advance(&mut self, count: usize)
        requires fits { count ≤ length self.old.answer }
        requires answers { is_answering self.old.stage ≡ true }
        ensures { Sends self.old self.new }
    {
        self.sent += count;
        if self.sent == self.answer.len() {
            self.stream.end_writing();
            self.stage = Stage::Closing;
        }
    }
}

impl Stage {
    // Whether bytes that come are read.
    fn is_reading(self) -> bool
        ensures { result ≡ is_reading self }
    {
        match self {
            Stage::Reading | Stage::Closing => true,
            Stage::Asked | Stage::Answering | Stage::Over => false,
        }
    }

    // Whether bytes that come are of the head.
    fn is_open(self) -> bool
        ensures { result ≡ is_open self }
    {
        match self {
            Stage::Reading => true,
            Stage::Asked | Stage::Answering | Stage::Closing | Stage::Over => false,
        }
    }

    // Whether the answer goes out.
    fn is_answering(self) -> bool
        ensures { result ≡ is_answering self }
    {
        match self {
            Stage::Answering => true,
            Stage::Reading | Stage::Asked | Stage::Closing | Stage::Over => false,
        }
    }
}
