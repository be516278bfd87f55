//! The addresses that a file gives, each of them once.
ghost use Rattle.std.specs.Prelude.{◌≡◌, ◌++◌, ◌∷◌, [], IfOk, IfErr, OnOk, Ok, Err};
ghost use Rattle.std.specs.List.{list_any};
ghost use Rattle.share_config.specs.Endpoints.{endpoint, uplink_endpoints, control_endpoint, downlink_endpoints};
ghost use Rattle.share_config.specs.Endpoints.{web_endpoints, ports_from, tenants_from, endpoints_of, is_same_endpoint};
ghost use Rattle.share_config.specs.Endpoints.{once};
ghost use Rattle.share_config.specs.declared.key.Key.TheVariants as key;
ghost use Rattle.share_config.specs.declared.fault.ConfigFault.TheVariants.{NoMemory};

use crate::fault::{ConfigFault, Reason};
use crate::key::{Key, Location};
use share_settings::{Control, Downlink, Port, TenantPorts, Uplink, Web};
use std::alloc::Global;

/// An address that a file gives: the table and the key that give it, and which of the key's addresses it is, from 1.
#[derive(Drop)]
pub(crate) struct Endpoint {
    location: Location,
    key: Key,
    number: usize,
    port: Port,
}

/// The fault of the first address that is given before: in `[uplink]`, in `[control]`, in `[downlink]`, in `[web]`, or
/// among the ports of the tenants.
pub(crate) fn check_addresses(
    alloc: Global,
    uplink: Option<Uplink>,
    control: &Control,
    downlink: Option<Downlink>,
    web: Option<Web>,
    tenants: &[TenantPorts],
) -> Result<(), ConfigFault>
    ensures ok { OnOk result
        (once (endpoints_of uplink control.now downlink web tenants.now)
        ≡ Ok (endpoints_of uplink control.now downlink web tenants.now)) }
    ensures fault { IfErr result (λ e. ¬ (e ≡ NoMemory)
        → once (endpoints_of uplink control.now downlink web tenants.now) ≡ Err e) }
{
    let mut list = Vec::new(alloc);
    push_uplink(&mut list, uplink)?;
    push_control(alloc, &mut list, control)?;
    push_downlink(&mut list, downlink)?;
    push_web(&mut list, web)?;
    push_tenants(alloc, &mut list, tenants)?;
    check_once(list.as_slice())
}

fn push(list: &mut Vec<Endpoint>, endpoint: Endpoint) -> Result<(), ConfigFault>
    ensures ok { OnOk result (list.new.items ≡ list.old.items ++ endpoint ∷ []) }
    ensures fault { IfErr result (λ e. e ≡ NoMemory) }
{
    match list.push(endpoint) {
        Ok(()) => Ok(()),
        Err(_) => Err(ConfigFault::NoMemory),
    }
}

fn push_uplink(list: &mut Vec<Endpoint>, uplink: Option<Uplink>) -> Result<(), ConfigFault>
    ensures ok { OnOk result (list.new.items ≡ list.old.items ++ uplink_endpoints uplink) }
    ensures fault { IfErr result (λ e. e ≡ NoMemory) }
{
    match uplink {
        None => Ok(()),
        Some(uplink) => push(
            list,
            Endpoint {
                location: Location::Uplink,
                key: Key::Connect,
                number: 1,
                port: uplink.to.port(),
            },
        ),
    }
}

fn push_control(
    alloc: Global,
    list: &mut Vec<Endpoint>,
    control: &Control,
) -> Result<(), ConfigFault>
    ensures ok { OnOk result (list.new.items ≡ list.old.items ++ control_endpoint control.now ∷ []) }
    ensures fault { IfErr result (λ e. e ≡ NoMemory) }
{
    match control.listen.port(alloc) {
        Err(_) => Err(ConfigFault::NoMemory),
        Ok(port) => push(
            list,
            Endpoint {
                location: Location::Control,
                key: Key::Listen,
                number: 1,
                port,
            },
        ),
    }
}

fn push_downlink(list: &mut Vec<Endpoint>, downlink: Option<Downlink>) -> Result<(), ConfigFault>
    ensures ok { OnOk result (list.new.items ≡ list.old.items ++ downlink_endpoints downlink) }
    ensures fault { IfErr result (λ e. e ≡ NoMemory) }
{
    match downlink {
        None => Ok(()),
        Some(downlink) => push(
            list,
            Endpoint {
                location: Location::Downlink,
                key: Key::Listen,
                number: 1,
                port: downlink.listen.port(),
            },
        ),
    }
}

fn push_web(list: &mut Vec<Endpoint>, web: Option<Web>) -> Result<(), ConfigFault>
    ensures ok { OnOk result (list.new.items ≡ list.old.items ++ web_endpoints web) }
    ensures fault { IfErr result (λ e. e ≡ NoMemory) }
{
    match web {
        None => Ok(()),
        Some(web) => push(
            list,
            Endpoint {
                location: Location::Web,
                key: Key::Listen,
                number: 1,
                port: Port::Tcp(web.listen),
            },
        ),
    }
}

fn push_tenants(
    alloc: Global,
    list: &mut Vec<Endpoint>,
    tenants: &[TenantPorts],
) -> Result<(), ConfigFault>
    ensures ok { OnOk result (list.new.items ≡ list.old.items ++ tenants_from 1 tenants.now) }
    ensures fault { IfErr result (λ e. e ≡ NoMemory) }
{
    for index in 0..tenants.len() {
        let tenant = &tenants[index];
        push_ports(
            alloc,
            list,
            Location::Tenant(index + 1),
            tenant.ports.as_slice(),
        )?;
    }
    Ok(())
}

fn push_ports(
    alloc: Global,
    list: &mut Vec<Endpoint>,
    location: Location,
    ports: &[Port],
) -> Result<(), ConfigFault>
    ensures ok { OnOk result (list.new.items ≡ list.old.items ++ ports_from location 1 ports.now) }
    ensures fault { IfErr result (λ e. e ≡ NoMemory) }
{
    for index in 0..ports.len() {
        push_port(alloc, list, location, index + 1, &ports[index])?;
    }
    Ok(())
}

fn push_port(
    alloc: Global,
    list: &mut Vec<Endpoint>,
    location: Location,
    number: usize,
    port: &Port,
) -> Result<(), ConfigFault>
    ensures ok { OnOk result (list.new.items ≡ list.old.items ++ endpoint location key.Port number port.now ∷ []) }
    ensures fault { IfErr result (λ e. e ≡ NoMemory) }
{
    match port.copy(alloc) {
        Err(_) => Err(ConfigFault::NoMemory),
        Ok(port) => push(
            list,
            Endpoint {
                location,
                key: Key::Port,
                number,
                port,
            },
        ),
    }
}

// The fault of the first address that is the same as one before it.
fn check_once(endpoints: &[Endpoint]) -> Result<(), ConfigFault>
    ensures ok { OnOk result (once endpoints.now ≡ Ok endpoints.now) }
    ensures fault { IfErr result (λ e. once endpoints.now ≡ Err e) }
{
    for index in 0..endpoints.len() {
        let endpoint = &endpoints[index];
        if is_among(&endpoints[..index], endpoint) {
            return Err(ConfigFault::wrong(
                endpoint.location,
                endpoint.key,
                Reason::Twice {
                    number: endpoint.number,
                },
            ));
        }
    }
    Ok(())
}

fn is_among(endpoints: &[Endpoint], endpoint: &Endpoint) -> bool
    ensures { result ≡ list_any (is_same_endpoint endpoint.now) endpoints.now }
{
    endpoints
        .iter()
        .any(|other| is_same_endpoint(endpoint, other))
}

fn is_same_endpoint(endpoint: &Endpoint, other: &Endpoint) -> bool
    ensures { result ≡ is_same_endpoint endpoint.now other.now }
{
    endpoint.port.is_same(&other.port)
}
