//! Packets of a tenant that no frame carries.
ghost use Rattle.std.specs.Prelude.{◌≡◌, ◌-◌, ◌^◌, ◌∷◌, ◌++◌, [], min, sum_by, IfOk, MatchOption};
ghost use Rattle.share_lives.specs.Remainders.{Gains, remainder_of, remainders_of};
ghost use Rattle.share_lives.specs.declared.remainder.Remainder.{Remainder};

use share_base::{FlowNo, Name};
use share_book::Closed;
use std::alloc::{AllocError, Global};
use std::marker::Model;

/// The most tenants of a plan.
const TENANTS: usize = 64;

/// Packets of a tenant that were dropped when a book followed another, or were left at the end.
#[derive(Clone, Copy, Debug)]
pub struct Remainder {
    pub tenant: Name,
    pub packets: u32,
}

/// The remainders of all tenants. Its memory is made once, for 64 of them. A contract sees them in order.
#[derive(Drop)]
pub struct Remainders {
    all: Vec<Remainder>,
}

impl Model for Remainders {
    ghost use Rattle.std.specs.Prelude.{◌≤◌, List, vec_capacity};
    ghost use Rattle.share_lives.specs.declared.remainder.Remainder.{Remainder};

    ghost Value = { List Remainder };

    ghost view = { λ r. r.all.items };

    ghost invariant = { λ r. 64 ≤ vec_capacity r.all };
}

impl Remainders {
    /// No remainders.
    pub fn new(alloc: Global) -> Result<Remainders, AllocError>
        ensures { IfOk result (λ r. r ≡ []) }
    {
        Ok(Remainders {
            all: Vec::with_capacity(alloc, TENANTS)?,
        })
    }

    /// Removes the last remainder, and returns it.
    pub fn pop(&mut self) -> Option<Remainder>
        ensures { MatchOption result ((self.old ≡ []) × (self.new ≡ [])) (λ r. self.old ≡ self.new ++ r ∷ []) }
    {
        self.all.pop()
    }

    /// Adds what waits in a closed book.
    pub(crate) fn add_all(&mut self, closed: &Closed)
        ensures { Gains self.old (remainders_of closed.now) self.new }
    {
        let tenants = closed.plan().tenants();
        'tenants: for index in 0..tenants.len() {
            let tenant = &tenants[index];
            self.add(tenant.name, closed.waiting(FlowNo(tenant.flow)));
        }
    }

    // Adds the packets of a tenant, if there are any.
    fn add(&mut self, tenant: Name, packets: u32)
        ensures { Gains self.old (remainder_of tenant packets) self.new }
    {
        if packets > 0 {
            let _ = self.all.push(Remainder { tenant, packets });
        }
    }

    /// The number of packets.
    pub fn packets(&self) -> u64
        ensures { result ≡ min u64.MAX (sum_by (λ (r : Remainder). r.packets) self.now) }
    {
        let mut packets: u64 = 0;
        for remainder in &self.all {
            packets = packets.saturating_add(u64::from(remainder.packets));
        }
        packets
    }
}
