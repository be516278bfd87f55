//! Texts of files, and how they are changed.

/// A file with an uplink and no downlink, and with settings that a gateway has.
pub(super) const FILE: &str = r#"[uplink]
connect = "192.0.2.7:7003"
rate = "20 Mbit/s"
buffer = 262144

[books]
folder = "/var/lib/stridelink/uplink"
text = "lengths"
events = 16777216
period = "1 h"

[control]
listen = "unix:/run/stridelink/uplink"
mode = "0600"

[[tariff]]
cell = 48
overhead = 16
price = 2

[[currency]]
name = "gold"
tickets = [ { amount = 300 } ]

[[tenant]]
name = "acme"
flow = 1
port = [ "127.0.0.1:7101", "unix:/run/stridelink/acme" ]
mode = "0640"
packets = 256
tariff = 1
held = false
tickets = [ { amount = 200, of = "gold" }, { amount = 50 } ]

[[tenant]]
name = "bond"
flow = 3
port = [ "[2001:db8::7]:7102" ]
tickets = [ { amount = 100, of = "gold" } ]
"#;

/// The same sections with a downlink and a web listener, and without tenants.
pub(super) const FAR: &str = r#"[books]
folder = "/var/lib/stridelink/far"

[control]
listen = "127.0.0.1:7002"

[downlink]
listen = "192.0.2.1:7003"
from = "192.0.2.7"

[web]
listen = "127.0.0.1:9107"
"#;

/// The sections before the tenants of a plan.
pub(super) const SECTIONS: &str = r#"[uplink]
connect = "192.0.2.7:7003"

[books]
folder = "/var/lib/stridelink/uplink"

[control]
listen = "127.0.0.1:7002"

"#;

/// Ports of two tenants, of each kind.
pub(super) const PORTS: &str = r#"[uplink]
connect = "192.0.2.7:7003"

[books]
folder = "/var/lib/stridelink/uplink"

[control]
listen = "127.0.0.1:7002"

[[tenant]]
name = "acme"
port = [ "127.0.0.1:7101", "unix:/run/stridelink/acme", "udp:127.0.0.1:7201" ]

[[tenant]]
name = "bond"

[[tenant]]
name = "cole"
port = [ "fd:3", "udp-to:127.0.0.1:7202", "[2001:db8::7]:7101" ]
"#;
