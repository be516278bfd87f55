//! Plans one after the other, whose names keep their numbers.

use super::assertions::same;
use super::settings::{TenantRow, plan_of};
use share_reload::{NotAdmitted, Roster};
use std::alloc::Global;
use std::process::Abort;

/// The tenants of the next plan, and why it is not admitted.
type Row = (&'static [TenantRow], &'static str);

const ACME: TenantRow = ("acme", 1, false);

const BOND: TenantRow = ("bond", 3, false);

const COLE: TenantRow = ("cole", 4, false);

static ROWS: [Row; 9] = [
    (&[ACME, BOND], ""),
    (&[ACME], ""),
    (&[ACME, ("cole", 3, false)], "flow 3 is bond's"),
    (&[ACME, ("bond", 4, false)], "bond is flow 3"),
    (&[ACME, COLE], ""),
    (&[ACME, BOND, COLE], ""),
    (&[("bond", 1, false)], "flow 1 is acme's"),
    (&[("dune", 5, false), ("dune", 6, false)], "dune is flow 5"),
    (&[("erin", 2, false), ("dune", 6, false)], ""),
];

fn fault_of(rt: &impl Abort, alloc: Global, admitted: Result<(), NotAdmitted>) -> String {
    match admitted {
        Ok(()) => String::new(alloc),
        Err(why) => format!(in alloc; "{why}").expect(rt, "memory"),
    }
}

#[test]
fn a_name_keeps_its_number(rt: HostRuntime) {
    let alloc = rt.alloc();
    let mut roster = Roster::new(alloc);
    for &(tenants, wanted) in &ROWS {
        let plan = plan_of(&rt, alloc, tenants);
        let clash = match roster.clash(&plan) {
            None => String::new(alloc),
            Some(clash) => format!(in alloc; "{clash}").expect(&rt, "memory"),
        };
        same(&rt, wanted, clash.as_str(), wanted);
        let fault = fault_of(&rt, alloc, roster.admit(&plan));
        same(&rt, wanted, fault.as_str(), wanted);
    }
}
