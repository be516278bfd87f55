//! Packets that are carried over from a book that was closed.
ghost use Rattle.std.specs.Prelude.{◌≡◌, ◌<◌, not, true, false, if◌then◌else◌};
ghost use Rattle.share_core.specs.Room.{has_room};
ghost use Rattle.share_model.specs.link.Buffers.{count_in};
ghost use Rattle.share_model.specs.link.Calls.{is_spent};
ghost use Rattle.share_book.specs.Audited.{lacks_text};
ghost use Rattle.share_gateway.specs.PlanChanges.{tenant_flow};
ghost use Rattle.share_book.specs.Carry.{Carries, IsCarried, carry_tenant, left_in};

use super::{Closed, NewBook};
use crate::audited::AuditedEngine;
use share_base::{FlowNo, Name};
use share_gateway::Tenant;
use share_model::Rates;

/// The answer of a book to a call that carries packets over.
#[derive(Clone, Copy, Debug, PartialEq, Eq)]
pub enum Carried {
    /// The text has no room for the longest line: when some of it was drained, packets are left to carry.
    More,
    /// No event of the book's life is left, and packets are left to carry.
    Spent,
    /// All packets that have room were carried, and this many are left.
    Done { dropped: u64 },
}

impl<S: Rates> NewBook<S> {
    /// Takes over the packets that wait in a closed book, tenant by tenant in the order of the plan, each tenant's in
    /// their order. Each is one event, with its line. A tenant is the same if its name is. Packets beyond the limit of
    /// a buffer, the latest ones, and those of tenants that the plan lacks stay in the closed book. After `Done` they
    /// are dropped with it. It takes no memory, and copies no payload.
    pub fn carry(&mut self, closed: &mut Closed) -> Carried
        ensures carried { Carries self.old.audited self.old.plan.tenants closed.old result self.new.audited closed.new }
        ensures plan { self.new.plan ≡ self.old.plan }
    {
        carry_all(&mut self.book.audited, self.book.plan.tenants(), closed)
    }
}

impl Closed {
    // The number of packets of all tenants that wait.
    #[tactic(auto, using(share_gateway::proofs::PlanChangeLemmas::few_tenants))]
    fn left(&self) -> u64
        ensures { result ≡ left_in self.now }
    {
        let tenants = self.plan.tenants();
        let mut left = 0;
        for index in 0..tenants.len() {
            let tenant = &tenants[index];
            left += u64::from(self.waiting(FlowNo(tenant.flow)));
        }
        left
    }
}

// Takes over the packets of these tenants, in order.
fn carry_all<S: Rates>(
    audited: &mut AuditedEngine<S>,
    tenants: &[Tenant],
    closed: &mut Closed,
) -> Carried
    ensures { Carries audited.old tenants.now closed.old result audited.new closed.new }
{
    'tenants: for index in 0..tenants.len() {
        let tenant = &tenants[index];
        if !carry_tenant(audited, closed, tenant.name) {
            return stop(audited);
        }
    }
    Carried::Done {
        dropped: closed.left(),
    }
}

// Why packets are left to carry.
fn stop<S: Rates>(audited: &AuditedEngine<S>) -> Carried
    ensures { result ≡ (if is_spent audited.now.link then Carried.Spent else Carried.More) }
{
    if audited.engine().spent() {
        Carried::Spent
    } else {
        Carried::More
    }
}

// Takes over the packets of a tenant. Returns false if that stopped before all that have room were carried.
fn carry_tenant<S: Rates>(audited: &mut AuditedEngine<S>, closed: &mut Closed, name: Name) -> bool
    ensures { carry_tenant audited.old closed.old name
        ≡ record { book = audited.new; closed = closed.new; stopped = not result } }
{
    let flow = closed.plan.flow_of(name);
    'packets: while closed.waiting(flow) > 0 && audited.engine().has_room(name) {
        if audited.engine().spent() || audited.lacks_text() {
            return false;
        }
        carry_packet(audited, closed, flow, name);
    }
    true
}

// Takes over the first packet of a tenant.
fn carry_packet<S: Rates>(
    audited: &mut AuditedEngine<S>,
    closed: &mut Closed,
    flow: FlowNo,
    name: Name,
)
    requires living { is_spent audited.old.link ≡ false }
    requires text { lacks_text audited.old ≡ false }
    requires room { has_room audited.old.link.live name ≡ true }
    requires flow { flow ≡ tenant_flow closed.old.plan name }
    requires some { 0 < count_in closed.old.buffers flow }
    ensures { IsCarried audited.old closed.old name audited.new closed.new }
{
    let Some(body) = closed.buffers.pop(flow) else {
        unreachable!()
    };
    let _ = audited.arrive(name, body);
}
