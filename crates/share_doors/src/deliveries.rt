//! Packets that are given to the ports and the connections of a tenant.
ghost use Rattle.std.specs.Prelude.{◌≡◌, if◌then◌else◌};
ghost use Rattle.share_doors.specs.Deliveries.{EachPortIsGiven, EachSenderIsGiven, PortIsGivenAt, SenderIsGivenAt};
ghost use Rattle.share_doors.specs.Door.{one_more};

use crate::packet_port::PacketPort;
use crate::sender::Sender;
use share_base::Name;
use slab::Slab;
use std::marker::Model;

/// The number of packets given, and the number lost. A contract sees both.
#[derive(Drop)]
pub(crate) struct Deliveries {
    given: u64,
    // A packet that two ports lose counts twice.
    lost: u64,
}

impl Model for Deliveries {
    ghost use Rattle.share_doors.specs.Deliveries.{DeliveriesView};

    ghost Value = { DeliveriesView };

    ghost view = { λ d. record { given = d.given; lost = d.lost } };
}

impl Deliveries {
    /// None.
    pub(crate) fn new() -> Deliveries
        ensures { result ≡ record { given = 0; lost = 0 } }
    {
        Deliveries { given: 0, lost: 0 }
    }

    /// The number of packets lost.
    pub(crate) fn lost(&self) -> u64
        ensures { result ≡ self.now.lost }
    {
        self.lost
    }

    /// Gives a packet to each port, and to each connection as a record of the tenant. Each that does not take it at
    /// once loses it. If there is neither, it is lost once.
    pub(crate) fn give(
        &mut self,
        ports: &mut Slab<PacketPort>,
        senders: &mut Slab<Sender>,
        tenant: Name,
        payload: &[u8],
    )
        ensures given { self.new.given ≡ one_more self.old.given }
        ensures ports { EachPortIsGiven ports.old ports.new }
        ensures senders { EachSenderIsGiven senders.old senders.new }
    {
        self.given = self.given.saturating_add(1);
        self.count(!ports.is_empty() || !senders.is_empty());
        self.give_to_ports(ports, payload);
        self.give_to_senders(senders, tenant, payload);
    }

    // Counts a loss, unless a packet was taken.
    fn count(&mut self, was_taken: bool)
        ensures { self.new
            ≡ (if was_taken then self.old else record self.old { lost = one_more self.old.lost }) }
    {
        if !was_taken {
            self.lost = self.lost.saturating_add(1);
        }
    }

    fn give_to_ports(&mut self, ports: &mut Slab<PacketPort>, payload: &[u8])
        ensures same { self.new.given ≡ self.old.given }
        ensures each { EachPortIsGiven ports.old ports.new }
    {
        'keys: for key in 0..ports.capacity() {
            self.give_to_port(ports, key, payload);
        }
    }

    fn give_to_port(&mut self, ports: &mut Slab<PacketPort>, key: usize, payload: &[u8])
        ensures same { self.new.given ≡ self.old.given }
        ensures one { PortIsGivenAt key ports.old ports.new }
        ensures capacity { ports.new.capacity ≡ ports.old.capacity }
    {
        if let Some(port) = ports.get_mut(key) {
            self.count(port.deliver(payload));
        }
    }

    fn give_to_senders(&mut self, senders: &mut Slab<Sender>, tenant: Name, payload: &[u8])
        ensures same { self.new.given ≡ self.old.given }
        ensures each { EachSenderIsGiven senders.old senders.new }
    {
        'keys: for key in 0..senders.capacity() {
            self.give_to_sender(senders, key, tenant, payload);
        }
    }

    fn give_to_sender(
        &mut self,
        senders: &mut Slab<Sender>,
        key: usize,
        tenant: Name,
        payload: &[u8],
    )
        ensures same { self.new.given ≡ self.old.given }
        ensures one { SenderIsGivenAt key senders.old senders.new }
        ensures capacity { senders.new.capacity ≡ senders.old.capacity }
    {
        if let Some(sender) = senders.get_mut(key) {
            self.count(sender.deliver(tenant, payload));
        }
    }
}
