//! Reads packets from sockets, one at a time.
ghost use Rattle.std.specs.Prelude.{◌≡◌, [], IfOk, IfErr};
ghost use Rattle.share_doors.specs.Packets.{ReadsPacket};

use share_base::MAX_PAYLOAD;
use share_sockets::{PacketSocket, Received};
use std::alloc::{AllocError, Global};
use std::io;
use std::marker::Model;

/// The most bytes read of a packet: one more than it may have, which shows that it has more.
const ROOM: usize = MAX_PAYLOAD + 1;

/// Reads packets, and counts them. A contract sees the bytes of the last one, and the number read.
#[derive(Drop)]
pub(crate) struct PacketReader {
    buffer: Vec<u8>,
    // The number of bytes that the last packet fills.
    filled: usize,
    // The number of packets read.
    count: u64,
}

impl Model for PacketReader {
    ghost use Rattle.std.specs.Prelude.{◌≤◌, length, take};
    ghost use Rattle.share_doors.specs.Packets.{ReaderView};

    ghost Value = { ReaderView };

    ghost view = { λ r. record { packet = take r.filled r.buffer.items; count = r.count } };

    ghost invariant = { λ r. r.filled ≤ length r.buffer.items };
}

impl PacketReader {
    /// No packet was read, and there is no room for one.
    pub(crate) fn new(alloc: Global) -> PacketReader
        ensures { result ≡ record { packet = []; count = 0 } }
    {
        PacketReader {
            buffer: Vec::new(alloc),
            filled: 0,
            count: 0,
        }
    }

    /// Makes room for a packet, unless there is.
    pub(crate) fn make_room(&mut self, alloc: Global) -> Result<(), AllocError>
        ensures { self.new.count ≡ self.old.count }
    {
        if self.buffer.is_empty() {
            self.filled = 0;
            self.buffer = vec![in alloc; 0u8; ROOM]?;
        }
        Ok(())
    }

    /// Reads one packet of a socket.
    pub(crate) fn receive(&mut self, socket: &PacketSocket) -> io::Result<Received>
        ensures read { IfOk result (λ came. ReadsPacket self.old came self.new) }
        ensures same { IfErr result (λ _. self.new.count ≡ self.old.count) }
    {
        self.filled = 0;
        let outcome = socket.receive(self.buffer.as_mut_slice());
        if let Ok(Received::Packet(length, _)) = outcome {
            self.filled = length;
            self.count = self.count.saturating_add(1);
        }
        outcome
    }

    /// The bytes of the packet that was read last.
    pub(crate) fn packet(&self) -> &[u8]
        ensures { result.now ≡ self.now.packet }
    {
        &self.buffer[..self.filled]
    }
}
