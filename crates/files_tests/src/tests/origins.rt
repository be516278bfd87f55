//! Ports of a file that is read again, and where each was before.

use super::assertions::same;
use super::changes::PORTS;
use super::settings::changed_settings;
use share_config::read_settings;
use share_reload::{PortOrigin, port_origin};
use share_settings::{Settings, TenantPorts};
use std::process::Abort;

/// A tenant and a port of it, from 0, and where the port was before.
type Origin = (usize, usize, Option<(usize, usize)>);

/// A text of the file, what stands there instead, and the ports of the changed file that are looked at.
type Row = (&'static str, &'static str, &'static [Origin]);

static ROWS: [Row; 8] = [
    (
        "",
        "",
        &[
            (0, 0, Some((0, 0))),
            (0, 1, Some((0, 1))),
            (0, 2, Some((0, 2))),
            (2, 0, Some((2, 0))),
            (2, 1, Some((2, 1))),
            (2, 2, Some((2, 2))),
        ],
    ),
    // Two ports go to another tenant, one of them first.
    (
        "port = [ \"127.0.0.1:7101\", \"unix:/run/stridelink/acme\", \"udp:127.0.0.1:7201\" ]\n\n\
            [[tenant]]\nname = \"bond\"",
        "[[tenant]]\nname = \"bond\"\nport = [ \"udp:127.0.0.1:7201\", \"127.0.0.1:7101\" ]",
        &[(1, 0, Some((0, 2))), (1, 1, Some((0, 0)))],
    ),
    (
        "name = \"bond\"",
        "name = \"bond\"\nport = [ \"127.0.0.1:7104\" ]",
        &[(1, 0, None)],
    ),
    ("udp:127.0.0.1:7201", "127.0.0.1:7201", &[(0, 2, None)]),
    (
        "unix:/run/stridelink/acme",
        "unix:/run/stridelink/acm",
        &[(0, 1, None), (0, 2, Some((0, 2)))],
    ),
    (
        "\"fd:3\", \"udp-to:127.0.0.1:7202\"",
        "\"udp:127.0.0.1:7202\", \"fd:3\"",
        &[(2, 0, None), (2, 1, Some((2, 0)))],
    ),
    (
        "name = \"acme\"\nport = [ \"127.0.0.1:7101\", ",
        "name = \"dune\"\nport = [ ",
        &[(0, 0, Some((0, 1)))],
    ),
    (
        "[2001:db8::7]:7101",
        "[2001:db8:0:0:0:0:0:7]:7101",
        &[(2, 2, Some((2, 2)))],
    ),
];

fn origin_of(old: &[TenantPorts], new: &[TenantPorts], at: Origin) -> Option<(usize, usize)> {
    let port = new.get(at.0)?.ports.get(at.1)?;
    let PortOrigin { tenant, port } = port_origin(old, port)?;
    Some((tenant, port))
}

fn are_origins(rt: &impl Abort, old: &Settings, new: &Settings, origins: &[Origin]) {
    for origin in origins {
        let got = origin_of(old.ports.as_slice(), new.ports.as_slice(), *origin);
        same(rt, *origin, got, origin.2);
    }
}

#[test]
fn a_port_is_found_where_it_was(rt: HostRuntime) {
    let alloc = rt.alloc();
    let old = read_settings(alloc, PORTS).expect(&rt, "a file");
    for &(before, after, origins) in &ROWS {
        let new = changed_settings(&rt, alloc, PORTS, (before, after));
        are_origins(&rt, &old, &new, origins);
    }
}
