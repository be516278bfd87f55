//! The names and the flow numbers of all tenants since the start of a gateway.
ghost use Rattle.std.specs.Prelude.{◌≡◌, [], ◌++◌, map, filter, find, option_copied, IfOk, IfErr, OnOk, OnErr, None};
ghost use Rattle.share_reload.specs.Rosters.{numbered, tenants_of, clashes, first_clash, is_known, is_new, admitted};
ghost use Rattle.share_reload.specs.Rosters.{IsNotAdmitted, HaveOwnNames};

use crate::clash::{Clash, Numbered, is_same_name};
use share_gateway::{Plan, Tenant};
use std::alloc::{AllocError, Global};
use std::fmt;
use std::marker::Model;

/// The names and the flow numbers of all tenants since the start of a gateway, those that are gone included. A contract
/// sees them in the order in which they came.
pub struct Roster {
    known: Vec<Numbered>,
}

// This is written out so that no crate above proves how each part is dropped.
impl Drop for Roster {
    fn drop(self) {
        let Roster { known } = self;
        drop(known);
    }
}

impl Model for Roster {
    ghost use Rattle.std.specs.Prelude.{List};
    ghost use Rattle.share_reload.specs.declared.clash.Numbered.{Numbered};

    ghost Value = { List Numbered };

    ghost view = { λ r. r.known.items };
}

/// Why a plan is not admitted.
#[derive(Clone, Copy, Debug, PartialEq, Eq)]
pub enum NotAdmitted {
    Clash(Clash),
    NoMemory,
}

impl fmt::Display for NotAdmitted {
    fn fmt<W: fmt::Write>(&self, f: &mut fmt::Formatter<W>) -> fmt::Result {
        match self {
            NotAdmitted::Clash(clash) => write!(f, "{clash}"),
            NotAdmitted::NoMemory => f.write_str("out of memory"),
        }
    }
}

impl Roster {
    /// A roster without a tenant. It takes no memory.
    pub fn new(alloc: Global) -> Roster
        ensures { result ≡ [] }
    {
        Roster {
            known: Vec::new(alloc),
        }
    }

    /// The tenants of the first plan.
    pub fn of(alloc: Global, plan: &Plan) -> Result<Roster, NotAdmitted>
        ensures ok { IfOk result (λ r. r ≡ admitted [] plan.now) }
        ensures clear { OnOk result (first_clash [] (tenants_of plan.now) ≡ None) }
        ensures not { IfErr result (IsNotAdmitted [] plan.now) }
    {
        let mut roster = Roster::new(alloc);
        match roster.admit(plan) {
            Ok(()) => Ok(roster),
            Err(why) => Err(why),
        }
    }

    /// The clash of the first tenant of a plan that has the number of another name, or a name with another number. Each
    /// is compared with the tenants of the roster, and with those before it in the plan.
    pub fn clash(&self, plan: &Plan) -> Option<Clash>
        ensures value { result ≡ first_clash self.now (tenants_of plan.now) }
        ensures names { result ≡ None → HaveOwnNames plan.now }
    {
        let tenants = plan.tenants();
        for index in 0..tenants.len() {
            let tenant = Numbered::of(&tenants[index]);
            if let Some(known) = clashing(self.known.as_slice(), &tenants[..index], &tenant) {
                return Some(tenant.clash_with(&known));
            }
        }
        None
    }

    /// Adds the tenants of a plan whose names are new. Nothing changes if a tenant of the plan clashes, or if memory is
    /// refused.
    pub fn admit(&mut self, plan: &Plan) -> Result<(), NotAdmitted>
        ensures ok { OnOk result (self.new ≡ admitted self.old plan.now) }
        ensures clear { OnOk result (first_clash self.old (tenants_of plan.now) ≡ None) }
        ensures not { IfErr result (IsNotAdmitted self.old plan.now) }
        ensures kept { OnErr result (self.new ≡ self.old) }
    {
        if let Some(clash) = self.clash(plan) {
            return Err(NotAdmitted::Clash(clash));
        }
        match self.add(plan.tenants()) {
            Ok(()) => Ok(()),
            Err(_) => Err(NotAdmitted::NoMemory),
        }
    }

    // Adds the tenants whose names are new, or none if memory is refused.
    fn add(&mut self, tenants: &[Tenant]) -> Result<(), AllocError>
        ensures ok { OnOk result (self.new ≡ self.old ++ filter (is_new self.old) (map numbered tenants.now)) }
        ensures kept { OnErr result (self.new ≡ self.old) }
    {
        let count = self.known.len();
        self.known.reserve(tenants.len())?;
        for tenant in tenants {
            let tenant = Numbered::of(tenant);
            if !is_known(&self.known[..count], &tenant) {
                self.known.push_reserved(tenant);
            }
        }
        Ok(())
    }
}

// Whether one of the known tenants has this tenant's name.
fn is_known(known: &[Numbered], tenant: &Numbered) -> bool
    ensures { result ≡ is_known known.now tenant.now }
{
    known
        .iter()
        .any(|other| is_same_name(tenant.name, other.name))
}

// The first tenant with which this one clashes, of those that are known and then of those before it in its plan.
fn clashing(known: &[Numbered], before: &[Tenant], tenant: &Numbered) -> Option<Numbered>
    ensures { result ≡ find (clashes tenant.now) (known.now ++ map numbered before.now) }
{
    match clashing_known(known, tenant) {
        Some(other) => Some(*other),
        None => clashing_before(before, tenant),
    }
}

fn clashing_known<'a>(known: &'a [Numbered], tenant: &Numbered) -> Option<&'a Numbered>
    ensures { option_copied result ≡ find (clashes tenant.now) known.now }
{
    known.iter().find(|other| tenant.clashes(other))
}

fn clashing_before(before: &[Tenant], tenant: &Numbered) -> Option<Numbered>
    ensures { result ≡ find (clashes tenant.now) (map numbered before.now) }
{
    before
        .iter()
        .map(|other| Numbered::of(other))
        .find(|other| tenant.clashes(other))
}
