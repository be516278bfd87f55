//! Descriptors that the process was given.
ghost use Rattle.std.specs.Prelude.{◌≤◌, length, IfOk, IfErr};
ghost use Rattle.share_sockets.specs.Failure.{IsFailure};
ghost use Rattle.share_sockets.specs.Packets.{packet_length};

use crate::received::{Received, packet_of, took_packet};
use crate::system;
use mio::unix::SourceFd;
use mio::{Interest, Registry, Token};
use std::io;
use std::os::fd::RawFd;

/// A descriptor that the process was given, of which each read and each write moves one packet. It stays open as long
/// as the process runs, so its number is never that of another file.
#[derive(Drop)]
pub struct Device {
    number: RawFd,
    // Whether it is a socket. A write to one whose peer is gone would end the process by a signal.
    is_socket: bool,
}

impl Device {
    /// The descriptor of this number, which is made non-blocking, and whose events carry this token. One that has no
    /// events, or has them under another token, is refused.
    pub fn open(number: RawFd, registry: &Registry, token: Token) -> io::Result<Device> {
        registry.register(&mut SourceFd(&number), token, Interest::READABLE)?;
        match system::set_nonblocking(number) {
            Ok(()) => Ok(Device {
                number,
                is_socket: system::is_socket(number),
            }),
            Err(fault) => {
                let _ = registry.deregister(&mut SourceFd(&number));
                Err(fault)
            }
        }
    }

    /// Its events are not reported from this call on.
    pub fn deregister(&self, registry: &Registry) -> io::Result<()> {
        registry.deregister(&mut SourceFd(&self.number))
    }

    /// Reads one packet. Bytes that do not fit the buffer are lost.
    pub fn receive(&self, buffer: &mut [u8]) -> io::Result<Received>
        ensures length { IfOk result (λ came. packet_length came ≤ length buffer.new) }
        ensures fault { IfErr result IsFailure }
    {
        packet_of(system::read(self.number, buffer))
    }

    /// Writes one packet. Returns whether it was taken.
    pub fn send(&self, packet: &[u8]) -> io::Result<bool> {
        let answer = if self.is_socket {
            system::send(self.number, packet)
        } else {
            system::write(self.number, packet)
        };
        took_packet(answer, packet.len())
    }
}
