//! The place of a port before its file was read again.
ghost use Rattle.std.specs.Prelude.{◌≡◌, position};
ghost use Rattle.share_settings.specs.Same.{same_port};
ghost use Rattle.share_reload.specs.Origins.{IsOrigin};

use share_settings::{Port, TenantPorts};

/// The place that a port had: its tenant, and its index among the tenant's ports. Both count from 0.
#[derive(Clone, Copy, Debug, PartialEq, Eq)]
pub struct PortOrigin {
    pub tenant: usize,
    pub port: usize,
}

/// The first place of a port among the ports of all tenants, or `None` if no tenant had it. Two ports are the same if
/// they are of one kind, and have the same address, path or number.
pub fn port_origin(old: &[TenantPorts], port: &Port) -> Option<PortOrigin>
    ensures { IsOrigin old.now port.now result }
{
    for index in 0..old.len() {
        let tenant = &old[index];
        if let Some(place) = index_of(tenant.ports.as_slice(), port) {
            return Some(PortOrigin {
                tenant: index,
                port: place,
            });
        }
    }
    None
}

// The first place of a port in a list.
fn index_of(ports: &[Port], port: &Port) -> Option<usize>
    ensures { result ≡ position (same_port port.now) ports.now }
{
    ports.iter().position(|other| port.is_same(other))
}
