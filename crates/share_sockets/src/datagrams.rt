//! Sockets by which much is sent as datagrams.
ghost use Rattle.std.specs.Prelude.{◌≡◌, ◌≤◌, ◌≢◌, true, false, length, IfOk, IfErr};
ghost use Rattle.std.specs.IoError.{error_kind};
ghost use Rattle.share_sockets.specs.Failure.{IsFailure, IsFailureUnrefused};
ghost use Rattle.share_sockets.specs.Packets.{packet_length};
ghost use Rattle.share_sockets.specs.Progress.{moved};
ghost use Rattle.share_sockets.specs.declared.progress.Progress.TheVariants.{Again};

use crate::packets::any_address_like;
use crate::progress::{Progress, outcome_of};
use crate::received::Received;
use crate::system;
use mio::net::UdpSocket;
use mio::{Interest, Registry, Token};
use std::io;
use std::io::{Error, ErrorKind};
use std::net::{Net, SocketAddr};
use std::os::fd::AsRawFd;

/// A socket whose datagrams go to an address, and to which those from there alone come. Its calls do not wait. Unlike a
/// `PacketSocket` it says if it has no room for a datagram, or if it has failed. So none is lost at the near end.
#[derive(Drop)]
pub struct DatagramSocket {
    socket: UdpSocket,
}

impl DatagramSocket {
    /// A socket that is connected to an address.
    pub fn connect(net: &impl Net, address: SocketAddr) -> io::Result<DatagramSocket> {
        let socket = UdpSocket::bind(net, any_address_like(address))?;
        socket.connect(address)?;
        Ok(DatagramSocket { socket })
    }

    /// Sets the number of bytes that the socket may hold after they were sent, until they leave. Linux doubles it, and
    /// cuts it to its own limit first.
    pub fn set_send_buffer(&self, bytes: u64) -> io::Result<()> {
        system::set_send_buffer(self.socket.as_raw_fd(), bytes)
    }

    /// Has events of the socket carry this token from here on.
    pub fn register(
        &mut self,
        registry: &Registry,
        token: Token,
        interest: Interest,
    ) -> io::Result<()> {
        registry.register(&mut self.socket, token, interest)
    }

    /// Receives a datagram. Bytes that have no room are lost. A refusal of an earlier datagram, which comes back by
    /// this call, is no failure: the call is made again.
    pub fn receive(&self, buffer: &mut [u8]) -> io::Result<Received>
        ensures length { IfOk result (λ came. packet_length came ≤ length buffer.new) }
        ensures fault { IfErr result IsFailureUnrefused }
    {
        match self.socket.recv(buffer) {
            Ok(count) => Ok(Received::Packet(count, None)),
            Err(fault) => received_after(fault),
        }
    }

    /// Sends a datagram, whole. A refusal of an earlier one, which comes back by this call, is no failure: the call is
    /// made again.
    pub fn send(&self, bytes: &[u8]) -> io::Result<Progress>
        ensures moved { IfOk result (λ progress. moved progress ≤ length bytes.now) }
        ensures fault { IfErr result IsFailureUnrefused }
    {
        match outcome_of(self.socket.send(bytes)) {
            Ok(progress) => Ok(progress),
            Err(fault) => sent_after(fault),
        }
    }
}

// Whether a far end refused what was sent to it.
fn is_refusal(fault: &Error) -> bool
    ensures refused { result ≡ true → error_kind fault.now ≡ ErrorKind.ConnectionRefused }
    ensures other { result ≡ false → error_kind fault.now ≢ ErrorKind.ConnectionRefused }
{
    fault.kind() == ErrorKind::ConnectionRefused
}

// The result of a failure of a call that sends.
fn sent_after(fault: Error) -> io::Result<Progress>
    requires { IsFailure fault }
    ensures moved { IfOk result (λ progress. progress ≡ Again) }
    ensures fault { IfErr result IsFailureUnrefused }
    ensures failed { error_kind fault ≢ ErrorKind.ConnectionRefused → result ≡ Err fault }
{
    if is_refusal(&fault) {
        Ok(Progress::Again)
    } else {
        Err(fault)
    }
}

// The result of a fault of a call that receives.
fn received_after(fault: Error) -> io::Result<Received>
    ensures length { IfOk result (λ came. packet_length came ≤ 0) }
    ensures fault { IfErr result IsFailureUnrefused }
    ensures failed { IsFailureUnrefused fault → result ≡ Err fault }
{
    if is_refusal(&fault) {
        return Ok(Received::Again);
    }
    match outcome_of(Err(fault)) {
        Ok(Progress::Again) => Ok(Received::Again),
        Ok(_) => Ok(Received::Waits),
        Err(fault) => Err(fault),
    }
}
