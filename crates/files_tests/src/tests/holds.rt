//! Holds by control lines, over plans that are read again.

use super::assertions::same;
use super::settings::{TenantRow, plan_of};
use share_base::Name;
use share_gateway::Plan;
use share_reload::ControlHolds;
use std::alloc::Global;
use std::process::Abort;
use std::str;

/// A step: a control line that was answered `ok`, or a plan that is read again.
#[derive(Clone, Copy, Debug)]
enum Step {
    Hold(&'static str),
    Resume(&'static str),
    Reload(&'static [TenantRow]),
}

/// A step, and the names that are held in the plan after it, each with a space after it.
type Row = (Step, &'static str);

const ALL: &[TenantRow] = &[("acme", 1, false), ("bond", 2, true), ("cole", 3, false)];

const WITHOUT_ACME: &[TenantRow] = &[("bond", 2, true), ("cole", 3, false)];

const FREE: &[TenantRow] = &[("acme", 1, false), ("bond", 2, false), ("cole", 3, false)];

static ROWS: [Row; 11] = [
    (Step::Reload(ALL), "bond "),
    (Step::Hold("acme"), "bond "),
    (Step::Hold("zoe"), "bond "),
    (Step::Reload(ALL), "acme bond "),
    (Step::Reload(FREE), "acme "),
    (Step::Reload(WITHOUT_ACME), "bond "),
    (Step::Reload(FREE), ""),
    (Step::Hold("cole"), ""),
    (Step::Reload(FREE), "cole "),
    (Step::Resume("cole"), "cole "),
    (Step::Reload(FREE), ""),
];

fn name(rt: &impl Abort, text: &str) -> Name {
    Name::read(text.as_bytes()).expect(rt, "a name")
}

// The names of the tenants that a plan holds.
fn held_in(rt: &impl Abort, alloc: Global, plan: &Plan) -> String {
    let mut held = String::new(alloc);
    for tenant in plan.tenants() {
        if tenant.held {
            let name = str::from_utf8(tenant.name.as_bytes()).ok();
            held.push_str(name.expect(rt, "a name"))
                .expect(rt, "memory");
            held.push_str(" ").expect(rt, "memory");
        }
    }
    held
}

#[test]
fn a_hold_ends_with_its_tenant(rt: HostRuntime) {
    let alloc = rt.alloc();
    let mut plan = plan_of(&rt, alloc, ALL);
    let mut holds = ControlHolds::new(alloc, &plan).expect(&rt, "memory");
    for &(step, wanted) in &ROWS {
        match step {
            Step::Hold(text) => {
                let name = name(&rt, text);
                holds.note_hold(name);
                same(&rt, step, holds.holds(name), text != "zoe");
            }
            Step::Resume(text) => {
                let name = name(&rt, text);
                holds.note_resume(name);
                same(&rt, step, holds.holds(name), false);
            }
            Step::Reload(tenants) => {
                plan = plan_of(&rt, alloc, tenants);
                holds = holds.keep(alloc, &plan).expect(&rt, "memory");
                holds.hold_in(&mut plan);
            }
        }
        same(&rt, step, held_in(&rt, alloc, &plan).as_str(), wanted);
    }
}
