//! Plans that tests open.

use share_base::Name;
use share_gateway::{Currency, Grant, Plan, Tenant};
use std::alloc::Global;
use std::process::Abort;

pub(super) fn named(rt: &impl Abort, text: &str) -> Name {
    Name::read(text.as_bytes()).expect(rt, "a name")
}

/// Grants of these amounts and currencies.
pub(super) fn granted(rt: &impl Abort, alloc: Global, rows: &[(u64, &str)]) -> Vec<Grant> {
    let mut grants = Vec::new(alloc);
    for at in 0..rows.len() {
        let grant = Grant {
            amount: rows[at].0,
            denomination: named(rt, rows[at].1),
        };
        grants.push(grant).expect(rt, "memory");
    }
    grants
}

fn currency(rt: &impl Abort, alloc: Global, grants: &[(u64, &str)]) -> Vec<Currency> {
    let currency = Currency {
        name: named(rt, "x"),
        grants: granted(rt, alloc, grants),
    };
    vec![in alloc; currency].expect(rt, "memory")
}

/// A tenant with a buffer of 4 packets that is not held.
pub(super) fn tenant(name: Name, flow: u32, tariff: u64, grants: Vec<Grant>) -> Tenant {
    Tenant {
        name,
        flow,
        limit: 4,
        tariff,
        grants,
        held: false,
    }
}

// The tenants a and b with 1 and 2 of x, the second with these.
fn pair(rt: &impl Abort, alloc: Global, flow: u32, tariff: u64, held: bool) -> Vec<Tenant> {
    let first = tenant(named(rt, "a"), 1, 1, granted(rt, alloc, &[(1, "x")]));
    let mut second = tenant(
        named(rt, "b"),
        flow,
        tariff,
        granted(rt, alloc, &[(2, "x")]),
    );
    second.held = held;
    vec![in alloc; first, second].expect(rt, "memory")
}

/// A plan of these currencies and tenants.
pub(super) fn planned(rt: &impl Abort, currencies: Vec<Currency>, tenants: Vec<Tenant>) -> Plan {
    Plan::new(currencies, tenants).ok().expect(rt, "a plan")
}

/// The currency x, with 1000 of base, and two tenants, the second with this flow number, and held or not.
pub(super) fn shared(rt: &impl Abort, alloc: Global, flow: u32, held: bool) -> Plan {
    let currencies = currency(rt, alloc, &[(1000, "base")]);
    planned(rt, currencies, pair(rt, alloc, flow, 1, held))
}

/// The second tenant has another tariff.
pub(super) fn with_tariff(rt: &impl Abort, alloc: Global, tariff: u64) -> Plan {
    let currencies = currency(rt, alloc, &[(1000, "base")]);
    planned(rt, currencies, pair(rt, alloc, 2, tariff, false))
}

/// The second grant of the currency is of itself.
pub(super) fn looped(rt: &impl Abort, alloc: Global) -> Plan {
    let currencies = currency(rt, alloc, &[(1000, "base"), (5, "x")]);
    planned(rt, currencies, pair(rt, alloc, 2, 1, false))
}

/// Tenants without grants, one more than flows may be open.
pub(super) fn many(rt: &impl Abort, alloc: Global) -> Plan {
    let mut tenants = Vec::new(alloc);
    for flow in 1..66_u32 {
        let name = format!(in alloc; "t{flow}").expect(rt, "memory");
        let one = tenant(named(rt, name.as_str()), flow, 1, Vec::new(alloc));
        tenants.push(one).expect(rt, "memory");
    }
    planned(rt, Vec::new(alloc), tenants)
}

// A tenant with 1 of x.
fn first(rt: &impl Abort, alloc: Global, limit: u64) -> Tenant {
    let mut first = tenant(named(rt, "a"), 1, 1, granted(rt, alloc, &[(1, "x")]));
    first.limit = limit;
    first
}

// The currency x, with 1000 of base, and these tenants.
fn funded(rt: &impl Abort, alloc: Global, tenants: Vec<Tenant>) -> Plan {
    planned(rt, currency(rt, alloc, &[(1000, "base")]), tenants)
}

/// The first tenant's buffer holds one packet; the second is held.
pub(super) fn first_limited(rt: &impl Abort, alloc: Global) -> Plan {
    let mut second = tenant(named(rt, "b"), 2, 1, granted(rt, alloc, &[(2, "x")]));
    second.held = true;
    let tenants = vec![in alloc; first(rt, alloc, 1), second].expect(rt, "memory");
    funded(rt, alloc, tenants)
}

/// The second tenant without the first.
pub(super) fn second_alone(rt: &impl Abort, alloc: Global) -> Plan {
    let second = tenant(named(rt, "b"), 2, 1, granted(rt, alloc, &[(2, "x")]));
    let tenants = vec![in alloc; second].expect(rt, "memory");
    funded(rt, alloc, tenants)
}

/// The first tenant alone, whose buffer holds 20 packets.
pub(super) fn roomy(rt: &impl Abort, alloc: Global) -> Plan {
    let tenants = vec![in alloc; first(rt, alloc, 20)].expect(rt, "memory");
    funded(rt, alloc, tenants)
}
