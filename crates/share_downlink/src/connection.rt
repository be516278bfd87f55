//! One connection on which the frames of another gateway come in.
ghost use Rattle.std.specs.Prelude.{◌≡◌, ◌≢◌, ◌≤◌, ◌<◌, [], true, false, None, Some, IfOk, IfErr, MatchResult, length};
ghost use Rattle.share_base.specs.declared.version.Version.TheVariants.{Two};
ghost use Rattle.share_model.specs.run.History.{IsBeginning};
ghost use Rattle.share_downlink.specs.Connection.{EndsFirst, EndsPieces, FirstGives, FirstMayEnd, IsEndOf};
ghost use Rattle.share_downlink.specs.Connection.{IsReadyAfter, MayEnd, PiecesGive, Reads, closed_of, ended};

use crate::counts::Counts;
use crate::deliver::Deliver;
use crate::incoming::Incoming;
use share_base::Refusal;
use share_gateway::{Field, FrameCut, streams_are_cut_into_frames};
use share_sockets::{Progress, Stream};
use std::alloc::Global;
use std::io::ErrorKind;
use std::net::SocketAddr;

/// The number of bytes read in one call.
const PIECE: usize = 16384;

/// The number of pieces read of a connection in a round.
const PIECES: u32 = 16;

/// The number of pieces read for a first frame in a round: it has at most 9017 bytes.
const PIECES_OF_FIRST: u32 = 2;

/// Why a connection is over.
#[derive(Clone, Copy, Debug, PartialEq, Eq)]
pub enum ClosedWhy {
    /// The far end ended it after a whole frame, or before the first.
    Ended,
    /// The far end ended it within a frame.
    CutShort,
    /// It failed.
    Failed(ErrorKind),
    /// No frame begins at this place of its stream: the first field that no frame has.
    BadFrame { offset: u64, field: Field },
    /// A newer connection replaced it.
    Replaced,
    /// Too many connections wait for their first frame, and it waits for longest.
    Crowded,
}

/// A connection that was closed: the token that its events carried, the address that it came from, and why.
#[derive(Clone, Copy, Debug)]
pub struct ClosedConnection {
    pub token: usize,
    pub from: SocketAddr,
    pub why: ClosedWhy,
}

/// The answer of a connection that waits for its first frame.
#[derive(Clone, Copy, Debug, PartialEq, Eq)]
pub(crate) enum First {
    /// Its frame is whole, and its packet was given.
    Given,
    /// No frame is whole before the socket is ready again.
    Waits,
    /// More of it may be at hand.
    More,
}

/// A connection of another gateway.
pub(crate) struct Connection {
    stream: Stream,
    incoming: Incoming,
    // The token that its events carry, and the address that it came from.
    token: usize,
    from: SocketAddr,
    // Whether the socket may have bytes.
    is_readable: bool,
    // Why nothing more is taken of it, if so.
    over: Option<ClosedWhy>,
}

impl Drop for Connection {
    fn drop(self) {
        let Connection {
            stream,
            incoming,
            token: _,
            from: _,
            is_readable: _,
            over: _,
        } = self;
        drop(stream);
        drop(incoming);
    }
}

impl Connection {
    /// A connection of which nothing was read. `NoMemory` if memory is refused, and then it is closed.
    pub(crate) fn new(
        alloc: Global,
        stream: Stream,
        from: SocketAddr,
        token: usize,
    ) -> Result<Connection, Refusal>
        ensures { IfOk result (λ c. (c.over ≡ None)
            × (c.incoming ≡ record { bytes = []; payload = []; offset = 0 })) }
    {
        Ok(Connection {
            stream,
            incoming: Incoming::new(alloc)?,
            token,
            from,
            is_readable: true,
            over: None,
        })
    }

    /// The token that its events carry.
    pub(crate) fn token(&self) -> usize
        ensures { result ≡ self.now.token }
    {
        self.token
    }

    /// The address that it came from.
    pub(crate) fn from(&self) -> SocketAddr
        ensures { result ≡ self.now.from }
    {
        self.from
    }

    /// Its socket was reported ready.
    pub(crate) fn note(&mut self)
        ensures { self.new ≡ record self.old { is_readable = self.new.is_readable } }
    {
        self.is_readable = true;
    }

    /// Whether nothing more is taken of it.
    pub(crate) fn is_over(&self) -> bool
        ensures over { result ≡ false → self.now.over ≡ None }
        ensures open { result ≡ true → self.now.over ≢ None }
    {
        self.over.is_some()
    }

    /// Nothing more is taken of it, for this reason, unless there was one before.
    pub(crate) fn end(&mut self, why: ClosedWhy)
        ensures { self.new ≡ record self.old { over = ended why self.old.over } }
    {
        if self.over.is_none() {
            self.over = Some(why);
        }
    }

    /// The report of it once it is closed, if it is over.
    pub(crate) fn closed(&self) -> Option<ClosedConnection>
        ensures { result ≡ closed_of self.now.token self.now.from self.now.over }
    {
        let why = self.over?;
        Some(ClosedConnection {
            token: self.token,
            from: self.from,
            why,
        })
    }

    /// Reads pieces and gives the packets of their frames. Returns whether more may be at hand. It is over if nothing
    /// more comes of it.
    pub(crate) fn give<D: Deliver>(&mut self, counts: &mut Counts, taker: &mut D) -> bool
        ensures over { MayEnd result self.old.over self.new }
        ensures given { PiecesGive D.delivers taker.old counts.old self.old.incoming taker.new counts.new
            self.new.incoming }
    {
        match self.give_pieces(counts, taker) {
            Ok(is_more) => is_more,
            Err(why) => {
                self.end(why);
                false
            }
        }
    }

    fn give_pieces<D: Deliver>(
        &mut self,
        counts: &mut Counts,
        taker: &mut D,
    ) -> Result<bool, ClosedWhy>
        ensures given { PiecesGive D.delivers taker.old counts.old self.old.incoming taker.new counts.new
            self.new.incoming }
        ensures over { self.new.over ≡ self.old.over }
        ensures ready { IfOk result (λ is_more. is_more ≡ self.new.is_readable) }
        ensures why { IfErr result (λ why. EndsPieces why self.new.incoming) }
    {
        'pieces: for _ in 0..PIECES {
            if let Some(field) = self.incoming.give_all(counts, taker) {
                return Err(self.bad_frame(field));
            }
            if !self.read()? {
                return Ok(false);
            }
        }
        Ok(true)
    }

    /// Reads until the first frame is whole, and gives its packet. It is over if nothing more comes of it.
    pub(crate) fn give_first<D: Deliver>(&mut self, counts: &mut Counts, taker: &mut D) -> First
        ensures over { FirstMayEnd result self.old.over self.new }
        ensures given { FirstGives D.delivers taker.old counts.old self.old.incoming result taker.new counts.new
            self.new.incoming }
    {
        match self.read_first(counts, taker) {
            Ok(first) => first,
            Err(why) => {
                self.end(why);
                First::Waits
            }
        }
    }

    fn read_first<D: Deliver>(
        &mut self,
        counts: &mut Counts,
        taker: &mut D,
    ) -> Result<First, ClosedWhy>
        ensures given { MatchResult result
            (λ first. FirstGives D.delivers taker.old counts.old self.old.incoming first taker.new counts.new
            self.new.incoming)
            (λ why. FirstGives D.delivers taker.old counts.old self.old.incoming First.Waits taker.new counts.new
            self.new.incoming) }
        ensures over { self.new.over ≡ self.old.over }
        ensures ready { IfOk result (λ first. IsReadyAfter first self.new.is_readable) }
        ensures why { IfErr result (λ why. EndsFirst why self.new.incoming) }
    {
        'pieces: for _ in 0..PIECES_OF_FIRST {
            match self.incoming.give_first(counts, taker) {
                FrameCut::Frame { .. } => return Ok(First::Given),
                FrameCut::Bad(field) => return Err(self.bad_frame(field)),
                FrameCut::More => (),
            }
            if !self.read()? {
                return Ok(First::Waits);
            }
        }
        Ok(First::More)
    }

    // The first field that no frame has, at the place where the bytes begin that were not given.
    fn bad_frame(&self, field: Field) -> ClosedWhy
        ensures { result ≡ ClosedWhy.BadFrame self.now.incoming.offset field }
    {
        ClosedWhy::BadFrame {
            offset: self.incoming.offset(),
            field,
        }
    }

    // Reads a piece of the stream, if some may be there. Returns whether more may be, or why the stream ended.
    fn read(&mut self) -> Result<bool, ClosedWhy>
        requires { IsBeginning Two self.old.incoming.bytes }
        ensures came { Reads self.old.incoming result self.new.incoming }
        ensures ready { IfOk result (λ is_more. is_more ≡ self.new.is_readable) }
        ensures over { self.new.over ≡ self.old.over }
    {
        if !self.is_readable {
            return Ok(false);
        }
        // So the piece has room.
        streams_are_cut_into_frames();
        let mut piece = [0u8; PIECE];
        match self.stream.try_read(&mut piece) {
            Ok(Progress::Moved(count)) => {
                self.incoming.feed(&piece[..count]);
                Ok(true)
            }
            Ok(Progress::Again) => Ok(true),
            Ok(Progress::Waits) => {
                self.is_readable = false;
                Ok(false)
            }
            Ok(Progress::Over) => Err(self.why_ended()),
            Err(fault) => Err(ClosedWhy::Failed(fault.kind())),
        }
    }

    // Why a stream is over that the far end has ended.
    fn why_ended(&self) -> ClosedWhy
        ensures { IsEndOf result self.now.incoming }
    {
        if self.incoming.is_empty() {
            ClosedWhy::Ended
        } else {
            ClosedWhy::CutShort
        }
    }
}
