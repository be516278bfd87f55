//! Packets that a book takes.
ghost use Rattle.std.specs.Prelude.{◌≡◌, ◌≢◌, ◌≤◌, length, false, true, Some, is_some};
ghost use Rattle.share_core.specs.Room.{free_flow, has_room};
ghost use Rattle.share_model.specs.link.Calls.{is_spent};
ghost use Rattle.share_book.specs.Audited.{lacks_text};
ghost use Rattle.share_book.specs.Book.{Takes, TakesPacket};

use super::{Book, Taken};
use crate::audited::AuditedEngine;
use share_base::{Body, FlowNo, MAX_PAYLOAD, Name, Reply};
use share_core::Engine;
use share_model::Rates;
use std::alloc::Global;

impl<S: Rates> Book<S> {
    /// Takes a packet of a tenant. Answers, in order: `Range` unless it has 1 to 9000 bytes, `Spent`, `NoText`,
    /// `NoRoom`, and `NoMemory` if the memory for its payload was refused. Up to 16 bytes take none. Unless it is
    /// `Packet` nothing changes.
    pub fn take(&mut self, alloc: Global, tenant: Name, payload: &[u8]) -> Taken
        ensures taken { Takes self.old.audited tenant payload.now result self.new.audited }
        ensures plan { self.new.plan ≡ self.old.plan }
        ensures in_place { length payload.now ≤ 16 → result ≢ Taken.NoMemory }
    {
        if payload.is_empty() || payload.len() > MAX_PAYLOAD {
            return Taken::Range;
        }
        if self.audited.engine().spent() {
            return Taken::Spent;
        }
        if self.audited.lacks_text() {
            return Taken::NoText;
        }
        let Some(number) = free_flow(self.audited.engine(), tenant) else {
            return Taken::NoRoom;
        };
        match Body::new(alloc, payload) {
            Err(_) => Taken::NoMemory,
            Ok(body) => accept(&mut self.audited, tenant, number, body),
        }
    }
}

// The number of the tenant's flow, if its buffer has room.
fn free_flow<S: Rates>(engine: &Engine<(), S>, tenant: Name) -> Option<FlowNo>
    ensures free { result ≡ free_flow engine.now.live tenant }
    ensures room { has_room engine.now.live tenant ≡ is_some result }
{
    engine.free_flow(tenant)
}

// Takes a packet for which there is room.
fn accept<S: Rates>(
    audited: &mut AuditedEngine<S>,
    tenant: Name,
    number: FlowNo,
    body: Body,
) -> Taken
    requires living { is_spent audited.old.link ≡ false }
    requires text { lacks_text audited.old ≡ false }
    requires room { has_room audited.old.link.live tenant ≡ true }
    requires free { free_flow audited.old.link.live tenant ≡ Some number }
    ensures { TakesPacket audited.old tenant body.payload result audited.new }
{
    let Reply::Packet { seq, .. } = audited.arrive_at(tenant, number, body) else {
        unreachable!()
    };
    Taken::Packet { seq }
}
