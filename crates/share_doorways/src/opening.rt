//! The opening of the ports of tenants.

use crate::acceptor::Acceptor;
use crate::doorways::Doorways;
use crate::ports::{Opened, Opening, Port, PortAddress, open_at};
use crate::sources::{Source, Sources};
use mio::{Registry, Token};
use share_base::FlowNo;
use share_doors::Door;
use share_news::NotRun;
use share_settings::{Settings, TenantPorts};
use std::alloc::Global;
use std::fs::Files;
use std::io::Error;
use std::net::Net;

/// Adds a source and returns its token.
pub fn token_of(sources: &mut Sources, source: Source) -> Result<Token, NotRun> {
    match sources.add(source) {
        Some(token) => Ok(token),
        None => Err(NotRun::NoMemory),
    }
}

/// The fault of an address that cannot be opened.
pub fn not_opened(alloc: Global, address: &PortAddress, fault: Error) -> NotRun {
    match address.copy(alloc) {
        Ok(port) => NotRun::Port { port, fault },
        Err(_) => NotRun::NoMemory,
    }
}

/// Opens a port of the tenant with this door, and adds it.
pub fn open_port<R: Files + Net>(
    rt: &R,
    alloc: Global,
    registry: &Registry,
    sources: &mut Sources,
    doorways: &mut Doorways,
    door: usize,
    address: &PortAddress,
    mode: u32,
) -> Result<usize, NotRun> {
    let token = token_of(sources, Source::ControlListener)?;
    let opened = match open_at(rt, registry, token, address, mode) {
        Ok(opened) => opened,
        Err(fault) => {
            drop(sources.remove(token));
            return Err(not_opened(alloc, address, fault));
        }
    };
    let address = address.copy(alloc)?;
    match add_port(alloc, doorways, opened, address, token, door) {
        Some(port) => {
            sources.set(token, Source::Port(port));
            Ok(port)
        }
        None => Err(NotRun::NoMemory),
    }
}

// Adds what was opened at an address. Returns its key.
fn add_port(
    alloc: Global,
    doorways: &mut Doorways,
    opened: Opened,
    address: PortAddress,
    token: Token,
    door: usize,
) -> Option<usize> {
    match opened {
        Opened::Listener(listener) => doorways.add_port(Port {
            address,
            opening: Opening::Listener(Acceptor::new(listener)),
            token,
            door,
        }),
        Opened::Packets(socket) => {
            let port = doorways.add_port(Port {
                address,
                opening: Opening::Closed,
                token,
                door,
            })?;
            doorways.add_socket(alloc, port, socket)
        }
    }
}

// Opens the ports of a tenant.
fn open_ports<R: Files + Net>(
    rt: &R,
    alloc: Global,
    registry: &Registry,
    sources: &mut Sources,
    doorways: &mut Doorways,
    door: usize,
    ports: &TenantPorts,
) -> Result<(), NotRun> {
    for index in 0..ports.ports.len() {
        let address = &ports.ports[index];
        open_port(
            rt, alloc, registry, sources, doorways, door, address, ports.mode,
        )?;
    }
    Ok(())
}

// Adds the door of a tenant, and opens its ports.
fn open_door<R: Files + Net>(
    rt: &R,
    alloc: Global,
    registry: &Registry,
    sources: &mut Sources,
    doorways: &mut Doorways,
    settings: &Settings,
    index: usize,
) -> Result<(), NotRun> {
    let Some(tenant) = settings.plan.tenants().get(index) else {
        return Ok(());
    };
    let Some(ports) = settings.ports.get(index) else {
        return Ok(());
    };
    let Some(door) = doorways.add_door(Door::new(alloc, tenant.name, FlowNo(tenant.flow))) else {
        return Err(NotRun::NoMemory);
    };
    open_ports(rt, alloc, registry, sources, doorways, door, ports)
}

/// Adds the doors of all tenants, and opens their ports.
pub fn open_doors<R: Files + Net>(
    rt: &R,
    alloc: Global,
    registry: &Registry,
    sources: &mut Sources,
    doorways: &mut Doorways,
    settings: &Settings,
) -> Result<(), NotRun> {
    for index in 0..settings.plan.tenants().len() {
        open_door(rt, alloc, registry, sources, doorways, settings, index)?;
    }
    Ok(())
}
