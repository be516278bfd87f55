//! The results of reads and writes of one packet.
ghost use Rattle.std.specs.Prelude.{◌≡◌, ◌≢◌, ◌≤◌, ◌==◌, true, false, None, Some, IfOk, IfErr, OnOk};
ghost use Rattle.std.specs.IoError.{error_kind, raw_os_error};
ghost use Rattle.share_sockets.specs.Failure.{IsFailure};
ghost use Rattle.share_sockets.specs.Packets.{loses_one_packet};
ghost use Rattle.share_sockets.specs.declared.received.Received.TheVariants.{Packet, Again, Waits, Over};

use crate::progress::{Progress, outcome_of};
use std::io::{Error, ErrorKind, Result};
use std::net::SocketAddr;

/// The numbers of two errors that `libc` does not name.
const EMSGSIZE: i32 = 90;

const ENOBUFS: i32 = 105;

/// The result of a read of one packet.
#[derive(Clone, Copy, Debug)]
pub enum Received {
    /// A packet of this many bytes, and its sender if the socket is bound to an address of its own.
    Packet(usize, Option<SocketAddr>),
    /// No packet came, and the call is made again. A signal came first, or a packet that was sent before was refused.
    Again,
    /// No packet comes until the socket is ready again.
    Waits,
    /// The descriptor has ended.
    Over,
}

/// The result of the answer to a read of a datagram socket. A packet of no bytes is a packet. An error is that of a
/// packet that was sent before, and the socket goes on.
pub fn datagram_of(answer: Result<(usize, Option<SocketAddr>)>) -> Received
    ensures packet { IfOk answer (λ came. result ≡ Packet came.0 came.1) }
    ensures waits { IfErr answer (λ fault. error_kind fault ≡ ErrorKind.WouldBlock → result ≡ Waits) }
    ensures again { IfErr answer (λ fault. error_kind fault ≢ ErrorKind.WouldBlock → result ≡ Again) }
{
    match answer {
        Ok((count, sender)) => Received::Packet(count, sender),
        Err(fault) => datagram_after(fault),
    }
}

// The result of a fault.
fn datagram_after(fault: Error) -> Received
    ensures waits { error_kind fault ≡ ErrorKind.WouldBlock → result ≡ Waits }
    ensures again { error_kind fault ≢ ErrorKind.WouldBlock → result ≡ Again }
{
    if fault.kind() == ErrorKind::WouldBlock {
        Received::Waits
    } else {
        Received::Again
    }
}

/// The result of the answer to a read of a descriptor. A read of no bytes is its end.
pub fn packet_of(answer: Result<usize>) -> Result<Received>
    ensures packet { IfOk answer (λ count. 1 ≤ count → result ≡ Ok (Packet count None)) }
    ensures end { IfOk answer (λ count. count ≡ 0 → result ≡ Ok Over) }
    ensures waits { IfErr answer (λ fault. error_kind fault ≡ ErrorKind.WouldBlock → result ≡ Ok Waits) }
    ensures again { IfErr answer (λ fault. error_kind fault ≡ ErrorKind.Interrupted → result ≡ Ok Again) }
    ensures failed { IfErr answer (λ fault. IsFailure fault → result ≡ Err fault) }
    ensures fault { IfErr result IsFailure }
{
    match outcome_of(answer) {
        Ok(Progress::Moved(count)) => Ok(Received::Packet(count, None)),
        Ok(Progress::Again) => Ok(Received::Again),
        Ok(Progress::Waits) => Ok(Received::Waits),
        Ok(Progress::Over) => Ok(Received::Over),
        Err(fault) => Err(fault),
    }
}

/// Whether a datagram socket took a whole packet of this length. An error is that of this packet, and the socket goes
/// on.
pub fn took_datagram(answer: Result<usize>, length: usize) -> bool
    ensures took { IfOk answer (λ count. result ≡ (count == length)) }
    ensures lost { IfErr answer (λ _. result ≡ false) }
{
    match answer {
        Ok(count) => count == length,
        Err(_) => false,
    }
}

/// The same of a descriptor, whose failure is returned.
pub fn took_packet(answer: Result<usize>, length: usize) -> Result<bool>
    ensures took { IfOk answer (λ count. result ≡ Ok (count == length)) }
    ensures lost { IfErr answer (λ fault. loses_one_packet (raw_os_error fault) ≡ true → result ≡ Ok false) }
    ensures failed { IfErr answer (λ fault. loses_one_packet (raw_os_error fault) ≡ false → result ≡ Err fault) }
{
    match answer {
        Ok(count) => Ok(count == length),
        Err(fault) => lost_or_failed(fault),
    }
}

// Whether an error loses one packet alone, or is a failure of the descriptor.
fn lost_or_failed(fault: Error) -> Result<bool>
    ensures lost { loses_one_packet (raw_os_error fault) ≡ true → result ≡ Ok false }
    ensures failed { loses_one_packet (raw_os_error fault) ≡ false → result ≡ Err fault }
{
    if loses_one_packet(fault.raw_os_error()) {
        Ok(false)
    } else {
        Err(fault)
    }
}

// Whether an error of this number says that one packet was not taken. Then there is no room for it, the device is down,
// or it takes no packet of this length or with these bytes.
fn loses_one_packet(number: Option<i32>) -> bool
    ensures { result ≡ loses_one_packet number }
{
    match number {
        Some(
            libc::EAGAIN
            | libc::EINTR
            | libc::EIO
            | libc::ENOMEM
            | libc::EINVAL
            | EMSGSIZE
            | ENOBUFS,
        ) => true,
        _ => false,
    }
}
