//! The records of a connection, and the number of its bytes that are buffered.
ghost use Rattle.std.specs.Prelude.{◌≡◌, ◌≢◌, ◌-◌, ◌++◌, [], length, min, take, true, false, IfOk, IfErr, None};
ghost use Rattle.share_base.specs.Refusal.{IsRefused};
ghost use Rattle.share_gateway.specs.Records.{CutsRecord};

use share_base::{Name, Refusal};
use share_gateway::{Cut, Records};
use share_ingress::FRAMING;
use std::alloc::Global;
use std::marker::Model;

/// The records of a connection. A contract sees them as it sees `Records`.
#[derive(Drop)]
pub(crate) struct BufferedRecords {
    records: Records,
    // The number of bytes fed and not given yet.
    buffered: usize,
    // The number of bytes that a record has besides its payload.
    framing: usize,
}

impl Model for BufferedRecords {
    ghost use Rattle.std.specs.Prelude.{◌≡◌, ◌+◌, length};
    ghost use Rattle.share_gateway.specs.Records.{RecordsView};

    ghost Value = { RecordsView };

    ghost view = { λ h. h.records };

    ghost invariant = { λ h. (h.buffered ≡ length h.records.bytes) × (h.framing ≡ 3 + length h.records.name) };
}

impl BufferedRecords {
    /// Those for the tenant of this name, of a connection that nothing came of yet. `NoMemory` if memory is refused.
    pub(crate) fn new(alloc: Global, name: Name) -> Result<BufferedRecords, Refusal>
        ensures ok { IfOk result (λ r. r ≡ record { name = name; bytes = []; payload = [] }) }
        ensures refused { IfErr result (IsRefused None) }
    {
        let framing = FRAMING + name.as_bytes().len();
        Ok(BufferedRecords {
            records: Records::new(alloc, name)?,
            buffered: 0,
            framing,
        })
    }

    /// Takes the next piece of the stream, as far as there is room.
    pub(crate) fn feed(&mut self, piece: &[u8])
        ensures { let count = min (length piece.now) (16384 - length self.old.bytes) in
            self.new ≡ record self.old { bytes = self.old.bytes ++ take count piece.now; payload = [] } }
    {
        self.buffered += self.records.feed(piece);
    }

    /// The front of the bytes. A record is taken away, and its payload is lent by `payload`.
    pub(crate) fn next(&mut self) -> Cut
        ensures { CutsRecord self.old result self.new }
    {
        let cut = self.records.next();
        if cut == Cut::Item {
            self.buffered -= self.framing + self.records.payload().len();
        }
        cut
    }

    /// The payload of the record that was taken last.
    pub(crate) fn payload(&self) -> &[u8]
        ensures { result.now ≡ self.now.payload }
    {
        self.records.payload()
    }

    /// Whether no byte is buffered.
    pub(crate) fn is_empty(&self) -> bool
        ensures empty { result ≡ true → self.now.bytes ≡ [] }
        ensures buffered { result ≡ false → self.now.bytes ≢ [] }
    {
        self.buffered == 0
    }
}
