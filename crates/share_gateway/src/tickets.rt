//! The ticket of a grant.
ghost use Rattle.std.specs.Prelude.{◌≡◌, ◌<◌, ◌+◌, IfOk};
ghost use Rattle.share_gateway.specs.GrantTickets.{grant_ticket, is_named, ticket_after, IsTicketOf};
ghost use Rattle.share_gateway.specs.OpeningLeft.{seen};

use crate::openings::{Grantee, grantee_at, grantee_count};
use crate::plan::Plan;
use share_base::{Name, Refusal};

impl Plan {
    /// The ticket of a grant, numbered from 1, of a currency or a tenant: tickets are numbered from 1 in the order of
    /// the opening. Otherwise `NoCurrency` if neither has the name, or `NoTicket` if it has fewer grants.
    pub fn ticket_of(&self, name: Name, number: u64) -> Result<u64, Refusal>
        ensures ticket { result ≡ grant_ticket self.now name number }
        ensures stands { IfOk result (λ ticket. IsTicketOf self.now name number ticket) }
    {
        // Its contract says that the plan is in its limits.
        let _ = self.tenants();
        let mut before = 0;
        for index in 0..grantee_count(self) {
            let to = grantee_at(self, index);
            let count = to.grants().len() as u64;
            if is_named(name, &to) {
                return ticket_after(before, number, count);
            }
            before += count;
        }
        Err(Refusal::NoCurrency)
    }
}

// The ticket of a grant of this many, before which there are others.
fn ticket_after(before: u64, number: u64, count: u64) -> Result<u64, Refusal>
    requires { before + count < 4294967296 }
    ensures { result ≡ ticket_after before number count }
{
    if number < 1 || number > count {
        return Err(Refusal::NoTicket);
    }
    Ok(before + number)
}

fn is_named(name: Name, to: &Grantee<'_>) -> bool
    ensures { result ≡ is_named name (seen to.now) }
{
    match to {
        Grantee::Currency { currency, .. } => name.as_bytes() == currency.name.as_bytes(),
        Grantee::Tenant { tenant, .. } => name.as_bytes() == tenant.name.as_bytes(),
    }
}
