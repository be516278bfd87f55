//! The frames that go over an uplink of datagrams.
ghost use Rattle.std.specs.Prelude.{◌≡◌, true, IfOk, IfErr};
ghost use Rattle.share_uplink.specs.Passing.{SendsFrames, SendsOne, WireTakes};

use crate::passing::{CALLS, PIECE, Ready};
use share_sockets::{DatagramSocket, Progress, Received};
use share_transit::Transit;
use std::io;

/// Throws away what came, and then sends the frames that may go, each as a datagram. Returns what the socket may still
/// be ready for, or why it is over.
pub(crate) fn exchange_frames(
    socket: &DatagramSocket,
    ready: Ready,
    transit: &mut Transit,
) -> io::Result<Ready>
    ensures frames { SendsFrames transit.old transit.new }
    ensures wire { WireTakes transit.old transit.new }
    ensures reads { IfOk result (λ after. after.reads ≡ true → ready.reads ≡ true) }
    ensures writes { IfOk result (λ after. after.writes ≡ true → ready.writes ≡ true) }
{
    let reads = drain(socket, ready.reads)?;
    let writes = send_frames(socket, ready.writes, transit)?;
    Ok(Ready { reads, writes })
}

// Receives what the far end sends if the socket may have some, and throws it away. Returns whether more may be there.
fn drain(socket: &DatagramSocket, is_readable: bool) -> io::Result<bool>
    ensures { IfOk result (λ more. more ≡ true → is_readable ≡ true) }
{
    if !is_readable {
        return Ok(false);
    }
    let mut piece = [0u8; PIECE];
    for _ in 0..CALLS {
        match socket.receive(&mut piece)? {
            Received::Packet(..) | Received::Again => (),
            Received::Waits | Received::Over => return Ok(false),
        }
    }
    Ok(true)
}

// Sends, if the socket may take some, the frames that may go on the wire. Returns whether it may take more.
fn send_frames(
    socket: &DatagramSocket,
    is_writable: bool,
    transit: &mut Transit,
) -> io::Result<bool>
    ensures frames { SendsFrames transit.old transit.new }
    ensures writes { IfOk result (λ more. more ≡ true → is_writable ≡ true) }
{
    if !is_writable {
        return Ok(false);
    }
    'calls: for _ in 0..CALLS {
        if transit.frame().is_empty() {
            return Ok(true);
        }
        match send_frame(socket, transit) {
            Ok(Progress::Moved(_)) | Ok(Progress::Again) => (),
            Ok(Progress::Waits) => return Ok(false),
            Ok(Progress::Over) => return Ok(true),
            Err(fault) => return Err(fault),
        }
    }
    Ok(true)
}

// Sends the frame that may go next, if there is one, as a datagram. If it was sent, it is out whole.
fn send_frame(socket: &DatagramSocket, transit: &mut Transit) -> io::Result<Progress>
    ensures sent { IfOk result (λ progress. SendsOne transit.old progress transit.new) }
    ensures failed { IfErr result (λ _. transit.new ≡ transit.old) }
{
    let count = transit.frame().len();
    let outcome = socket.send(transit.frame());
    if let Ok(Progress::Moved(_)) = outcome {
        transit.sent(count);
    }
    outcome
}
