//! Files of a gateway, made from texts.

use super::assertions::holds;
use super::changes::SECTIONS;
use share_config::read_settings;
use share_gateway::Plan;
use share_settings::Settings;
use std::alloc::{AllocError, Global};
use std::mem;
use std::process::Abort;

/// A tenant of a file: its name, its flow number, and whether the file holds it.
pub(super) type TenantRow = (&'static str, u32, bool);

/// The file with a text changed that it has. Without a text to change, the new one is put at its end.
pub(super) fn changed(
    alloc: Global,
    file: &str,
    old: &str,
    new: &str,
) -> Result<String, AllocError> {
    let (before, after) = match file.split_once(old) {
        Some((before, after)) if !old.is_empty() => (before, after),
        _ => (file, ""),
    };
    let mut text = String::from_str(alloc, before)?;
    text.push_str(new)?;
    text.push_str(after)?;
    Ok(text)
}

/// The settings of a file with a text changed.
pub(super) fn changed_settings(
    rt: &impl Abort,
    alloc: Global,
    file: &'static str,
    change: (&'static str, &'static str),
) -> Settings {
    holds(rt, change, file.contains(change.0));
    let text = changed(alloc, file, change.0, change.1).expect(rt, "memory");
    read_settings(alloc, text.as_str()).expect(rt, change.1)
}

fn file_of(alloc: Global, tenants: &[TenantRow]) -> Result<String, AllocError> {
    let mut text = String::from_str(alloc, SECTIONS)?;
    for (name, flow, held) in tenants {
        let tenant = format!(in alloc;
            "[[tenant]]\nname = \"{name}\"\nflow = {flow}\nheld = {held}\n"
        )?;
        text.push_str(tenant.as_str())?;
    }
    Ok(text)
}

/// The plan of a file with these tenants.
pub(super) fn plan_of(rt: &impl Abort, alloc: Global, tenants: &[TenantRow]) -> Plan {
    let text = file_of(alloc, tenants).expect(rt, "memory");
    let mut settings = read_settings(alloc, text.as_str()).expect(rt, "a plan");
    let none = Plan::new(Vec::new(alloc), Vec::new(alloc)).expect(rt, "a plan of nobody");
    mem::replace(&mut settings.plan, none)
}
