//! The bytes that go over the stream of an uplink.
ghost use Rattle.std.specs.Prelude.{◌≡◌, true, false, Ok, IfOk};
ghost use Rattle.share_uplink.specs.Passing.{WireTakes};
ghost use Rattle.share_uplink.specs.Uplink.{has_work};

use crate::datagrams::exchange_frames;
use crate::socket::Socket;
use crate::state::far_end_closed;
use share_sockets::{Progress, Stream};
use share_transit::Transit;
use std::io;

/// The number of calls on the socket made before the rest of the round has its turn.
pub(crate) const CALLS: u32 = 64;

/// The number of bytes read in one call.
pub(crate) const PIECE: usize = 4096;

/// The readiness of a stream.
#[derive(Clone, Copy, Debug)]
pub(crate) struct Ready {
    // Whether it may have bytes, and whether it may take some.
    pub(crate) reads: bool,
    pub(crate) writes: bool,
}

/// Whether more may be done at once with a stream that is ready for this.
pub(crate) fn has_work(ready: Ready, transit: &Transit) -> bool
    ensures { result ≡ has_work ready.reads ready.writes transit.now }
{
    if ready.reads {
        return true;
    }
    ready.writes && !transit.ready().is_empty()
}

/// Throws away what came, and then sends what may go. Returns what the socket may still be ready for, or why it is
/// over.
pub(crate) fn exchange(socket: &Socket, ready: Ready, transit: &mut Transit) -> io::Result<Ready>
    ensures wire { WireTakes transit.old transit.new }
    ensures reads { IfOk result (λ after. after.reads ≡ true → ready.reads ≡ true) }
    ensures writes { IfOk result (λ after. after.writes ≡ true → ready.writes ≡ true) }
{
    match socket {
        Socket::Stream(stream) => exchange_bytes(stream, ready, transit),
        Socket::Datagrams(socket) => exchange_frames(socket, ready, transit),
    }
}

// The same over a stream. Nothing is sent once the far end is known to have ended it.
fn exchange_bytes(stream: &Stream, ready: Ready, transit: &mut Transit) -> io::Result<Ready>
    ensures wire { WireTakes transit.old transit.new }
    ensures reads { IfOk result (λ after. after.reads ≡ true → ready.reads ≡ true) }
    ensures writes { IfOk result (λ after. after.writes ≡ true → ready.writes ≡ true) }
{
    let reads = drain(stream, ready.reads)?;
    let writes = send(stream, ready.writes, transit)?;
    Ok(Ready { reads, writes })
}

// Reads what the far end sends if the stream may have some, and throws it away. Returns whether more may be there.
fn drain(stream: &Stream, is_readable: bool) -> io::Result<bool>
    ensures { IfOk result (λ more. more ≡ true → is_readable ≡ true) }
{
    if !is_readable {
        return Ok(false);
    }
    let mut piece = [0u8; PIECE];
    for _ in 0..CALLS {
        match stream.try_read(&mut piece)? {
            Progress::Moved(_) | Progress::Again => (),
            Progress::Waits => return Ok(false),
            Progress::Over => return Err(far_end_closed()),
        }
    }
    Ok(true)
}

// Gives the stream, if it may take some, the bytes that may go on the wire. Returns whether it may take more.
fn send(stream: &Stream, is_writable: bool, transit: &mut Transit) -> io::Result<bool>
    ensures wire { WireTakes transit.old transit.new }
    ensures writes { IfOk result (λ more. more ≡ true → is_writable ≡ true) }
{
    if !is_writable {
        return Ok(false);
    }
    'calls: for _ in 0..CALLS {
        if transit.ready().is_empty() {
            return Ok(true);
        }
        match send_piece(stream, transit) {
            Ok(Progress::Moved(_)) | Ok(Progress::Again) => (),
            Ok(Progress::Waits) => return Ok(false),
            Ok(Progress::Over) => return Err(far_end_closed()),
            Err(fault) => return Err(fault),
        }
    }
    Ok(true)
}

// Gives the stream as many of the bytes that may go on the wire as it takes in one call.
fn send_piece(stream: &Stream, transit: &mut Transit) -> io::Result<Progress>
    ensures { WireTakes transit.old transit.new }
{
    let outcome = stream.try_write(transit.ready());
    if let Ok(Progress::Moved(count)) = outcome {
        transit.sent(count);
    }
    outcome
}
