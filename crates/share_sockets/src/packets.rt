//! Sockets that move packets.
ghost use Rattle.std.specs.Prelude.{◌≤◌, length, IfOk, IfErr};
ghost use Rattle.share_sockets.specs.Failure.{IsFailure};
ghost use Rattle.share_sockets.specs.Packets.{packet_length};

use crate::device::Device;
use crate::received::{Received, datagram_of, took_datagram};
use mio::net::UdpSocket;
use mio::{Interest, Registry, Token};
use std::io;
use std::net::{Ipv4Addr, Ipv6Addr, Net, SocketAddr};

/// A socket or a descriptor of which each read and each write moves one packet. Its calls do not wait.
pub enum PacketSocket {
    /// A datagram socket at an address of its own.
    Bound(UdpSocket),
    /// A datagram socket that is connected to an address.
    Connected(UdpSocket),
    /// A descriptor that the process was given.
    Device(Device),
}

impl Drop for PacketSocket {
    fn drop(self) {
        match self {
            PacketSocket::Bound(socket) => drop(socket),
            PacketSocket::Connected(socket) => drop(socket),
            PacketSocket::Device(device) => drop(device),
        }
    }
}

impl PacketSocket {
    /// A datagram socket at an address, whose events carry this token.
    pub fn bind(
        net: &impl Net,
        registry: &Registry,
        token: Token,
        address: SocketAddr,
    ) -> io::Result<PacketSocket> {
        let mut socket = UdpSocket::bind(net, address)?;
        registry.register(&mut socket, token, Interest::READABLE)?;
        Ok(PacketSocket::Bound(socket))
    }

    /// A datagram socket that is connected to an address, whose events carry this token.
    pub fn connect(
        net: &impl Net,
        registry: &Registry,
        token: Token,
        address: SocketAddr,
    ) -> io::Result<PacketSocket> {
        let mut socket = UdpSocket::bind(net, any_address_like(address))?;
        socket.connect(address)?;
        registry.register(&mut socket, token, Interest::READABLE)?;
        Ok(PacketSocket::Connected(socket))
    }

    /// The descriptor of this number, whose events carry this token.
    pub fn open(number: i32, registry: &Registry, token: Token) -> io::Result<PacketSocket> {
        Ok(PacketSocket::Device(Device::open(number, registry, token)?))
    }

    /// The address at which it receives, or `None` if it is a descriptor.
    pub fn local_address(&self) -> io::Result<Option<SocketAddr>> {
        match self {
            PacketSocket::Bound(socket) | PacketSocket::Connected(socket) => {
                Ok(Some(socket.local_addr()?))
            }
            PacketSocket::Device(_) => Ok(None),
        }
    }

    /// Its events are not reported from this call on.
    pub fn deregister(&mut self, registry: &Registry) -> io::Result<()> {
        match self {
            PacketSocket::Bound(socket) => registry.deregister(socket),
            PacketSocket::Connected(socket) => registry.deregister(socket),
            PacketSocket::Device(device) => device.deregister(registry),
        }
    }

    /// Reads one packet. Bytes that do not fit the buffer are lost.
    pub fn receive(&self, buffer: &mut [u8]) -> io::Result<Received>
        ensures length { IfOk result (λ came. packet_length came ≤ length buffer.new) }
        ensures fault { IfErr result IsFailure }
    {
        match self {
            PacketSocket::Bound(socket) => Ok(receive_from(socket, buffer)),
            PacketSocket::Connected(socket) => Ok(receive_by(socket, buffer)),
            PacketSocket::Device(device) => device.receive(buffer),
        }
    }

    /// Writes one packet: to this receiver, if it is a datagram socket at an address of its own. Returns whether it was
    /// taken, or the failure of a descriptor.
    pub fn send(&self, packet: &[u8], receiver: Option<SocketAddr>) -> io::Result<bool> {
        match self {
            PacketSocket::Bound(socket) => Ok(send_to(socket, packet, receiver)),
            PacketSocket::Connected(socket) => Ok(took_datagram(socket.send(packet), packet.len())),
            PacketSocket::Device(device) => device.send(packet),
        }
    }
}

fn receive_from(socket: &UdpSocket, buffer: &mut [u8]) -> Received
    ensures { packet_length result ≤ length buffer.new }
{
    match socket.recv_from(buffer) {
        Ok((count, sender)) => datagram_of(Ok((count, Some(sender)))),
        Err(fault) => datagram_of(Err(fault)),
    }
}

fn receive_by(socket: &UdpSocket, buffer: &mut [u8]) -> Received
    ensures { packet_length result ≤ length buffer.new }
{
    match socket.recv(buffer) {
        Ok(count) => datagram_of(Ok((count, None))),
        Err(fault) => datagram_of(Err(fault)),
    }
}

fn send_to(socket: &UdpSocket, packet: &[u8], receiver: Option<SocketAddr>) -> bool {
    match receiver {
        Some(address) => took_datagram(socket.send_to(packet, address), packet.len()),
        None => false,
    }
}

/// Any address and port of the same family.
pub(crate) fn any_address_like(address: SocketAddr) -> SocketAddr {
    match address {
        SocketAddr::V4(_) => SocketAddr::from((Ipv4Addr::UNSPECIFIED, 0)),
        SocketAddr::V6(_) => SocketAddr::from((Ipv6Addr::UNSPECIFIED, 0)),
    }
}
