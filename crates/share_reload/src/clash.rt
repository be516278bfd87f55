//! Names and flow numbers that clash.
ghost use Rattle.std.specs.Prelude.{◌≡◌, bytes_eq};
ghost use Rattle.share_reload.specs.Rosters.{numbered, clashes, clash_of};

use share_base::Name;
use share_gateway::Tenant;
use std::{fmt, str};

/// A tenant's name, and the number of its flow.
#[derive(Clone, Copy, Debug)]
pub struct Numbered {
    pub name: Name,
    pub flow: u32,
}

/// The clash of a tenant of a plan with one that is known.
#[derive(Clone, Copy, Debug, PartialEq, Eq)]
pub enum Clash {
    /// Another name has the tenant's number.
    Taken { flow: u32, name: Name },
    /// The tenant's name has another number.
    Renumbered { name: Name, flow: u32 },
}

impl fmt::Display for Clash {
    fn fmt<W: fmt::Write>(&self, f: &mut fmt::Formatter<W>) -> fmt::Result {
        match self {
            Clash::Taken { flow, name } => {
                let name = text_of(name);
                write!(f, "flow {flow} is {name}'s")
            }
            Clash::Renumbered { name, flow } => {
                let name = text_of(name);
                write!(f, "{name} is flow {flow}")
            }
        }
    }
}

fn text_of(name: &Name) -> &str {
    str::from_utf8(name.as_bytes()).unwrap_or("-")
}

impl Numbered {
    /// The name and the number of a tenant.
    pub(crate) fn of(tenant: &Tenant) -> Numbered
        ensures { result ≡ numbered tenant.now }
    {
        Numbered {
            name: tenant.name,
            flow: tenant.flow,
        }
    }

    /// Whether this tenant has the name of one that is known but another number, or its number but another name.
    pub(crate) fn clashes(&self, known: &Numbered) -> bool
        ensures { result ≡ clashes self.now known.now }
    {
        is_same_name(self.name, known.name) != (self.flow == known.flow)
    }

    /// The clash of this tenant with one that is known.
    pub(crate) fn clash_with(&self, known: &Numbered) -> Clash
        ensures { result ≡ clash_of self.now known.now }
    {
        if self.flow == known.flow {
            Clash::Taken {
                flow: known.flow,
                name: known.name,
            }
        } else {
            Clash::Renumbered {
                name: known.name,
                flow: known.flow,
            }
        }
    }
}

/// Whether two names are the same.
pub(crate) fn is_same_name(name: Name, other: Name) -> bool
    ensures { result ≡ bytes_eq name other }
{
    name.as_bytes() == other.as_bytes()
}
