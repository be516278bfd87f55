//! The record that a connection is being given.
ghost use Rattle.std.specs.Prelude.{◌≡◌, ◌≤◌, ◌++◌, [], length, drop, true, false, OnOk, OnErr};
ghost use Rattle.share_base.specs.Body.{is_payload_length};
ghost use Rattle.share_model.specs.ingress.Records.{record_of};
ghost use Rattle.share_gateway.specs.Records.{item_for};

use share_base::Name;
use share_ingress::FRAMING;
use std::alloc::{AllocError, Global};
use std::marker::Model;

/// The rest of the record that a connection is being given: at most one record, and nothing between two. A contract
/// sees the bytes.
#[derive(Drop)]
pub(crate) struct Outgoing {
    record: Vec<u8>,
    // The number of its bytes that the socket has taken.
    taken: usize,
}

impl Model for Outgoing {
    ghost use Rattle.std.specs.Prelude.{ℕ, List, ◌≤◌, length, drop};

    ghost Value = { List ℕ };

    ghost view = { λ o. drop o.taken o.record.items };

    ghost invariant = { λ o. o.taken ≤ length o.record.items };
}

impl Outgoing {
    /// Nothing is left.
    pub(crate) fn new(alloc: Global) -> Outgoing
        ensures { result ≡ [] }
    {
        Outgoing {
            record: Vec::new(alloc),
            taken: 0,
        }
    }

    /// Begins the record of a payload. If memory is refused, nothing is left.
    pub(crate) fn begin(&mut self, tenant: Name, payload: &[u8]) -> Result<(), AllocError>
        requires none { self.old ≡ [] }
        requires payload { is_payload_length (length payload.now) ≡ true }
        ensures ok { OnOk result (self.new ≡ record_of (item_for tenant payload.now)) }
        ensures refused { OnErr result (self.new ≡ []) }
    {
        self.record.clear();
        self.taken = 0;
        let outcome = push_record(&mut self.record, tenant, payload);
        if outcome.is_err() {
            self.record.clear();
        }
        outcome
    }

    /// The bytes that are left.
    pub(crate) fn bytes(&self) -> &[u8]
        ensures { result.now ≡ self.now }
    {
        &self.record[self.taken..]
    }

    /// Whether nothing is left.
    pub(crate) fn is_empty(&self) -> bool
        ensures empty { result ≡ true → self.now ≡ [] }
        ensures left { result ≡ false → 1 ≤ length self.now }
    {
        self.taken == self.record.len()
    }

    /// The socket has taken bytes of it.
    pub(crate) fn took(&mut self, count: usize)
        requires { count ≤ length self.old }
        ensures { self.new ≡ drop count self.old }
    {
        self.taken += count;
    }

    /// Nothing is left.
    pub(crate) fn clear(&mut self)
        ensures { self.new ≡ [] }
    {
        self.record.clear();
        self.taken = 0;
    }
}

// Adds the record of a payload to bytes.
fn push_record(bytes: &mut Vec<u8>, tenant: Name, payload: &[u8]) -> Result<(), AllocError>
    requires payload { is_payload_length (length payload.now) ≡ true }
    ensures { OnOk result (bytes.new.items ≡ bytes.old.items ++ record_of (item_for tenant payload.now)) }
{
    let name = tenant.as_bytes();
    bytes.reserve(FRAMING + name.len() + payload.len())?;
    bytes.extend_from_slice(&[name.len() as u8])?;
    bytes.extend_from_slice(name)?;
    let length = payload.len();
    bytes.extend_from_slice(&[(length / 256) as u8, (length % 256) as u8])?;
    bytes.extend_from_slice(payload)
}
