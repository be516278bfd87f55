//! The text of the metrics of a status.
ghost use Rattle.std.specs.Prelude.{◌≡◌, ◌++◌, IfOk, OnOk, flat_map};
ghost use Rattle.share_metrics.specs.Metrics.{closing, family_head, family_suffix, gateway_family, gateway_text};
ghost use Rattle.share_metrics.specs.Metrics.{kind_of, metrics_text, number_line, sample_suffix, samples_text};
ghost use Rattle.share_metrics.specs.Metrics.{tenant_family, tenant_sample, tenants_text};

use crate::family::{GATEWAY_FAMILIES, GatewayFamily, TENANT_FAMILIES, TenantFamily};
use itoa::Buffer;
use share_status::{Status, TenantStatus};
use share_web::{Exposition, push_three};
use std::alloc::{AllocError, Global};

/// The metrics of a status: the families of the gateway, then those by tenant.
pub fn metrics_text(
    alloc: Global,
    exposition: Exposition,
    status: &Status<'_>,
) -> Result<Vec<u8>, AllocError>
    ensures { IfOk result (λ text. text.items ≡ metrics_text exposition status.now) }
{
    let mut text = Vec::new(alloc);
    match push_metrics(&mut text, exposition, status) {
        Ok(()) => Ok(text),
        Err(refused) => {
            drop(text);
            Err(refused)
        }
    }
}

fn push_metrics(
    text: &mut Vec<u8>,
    exposition: Exposition,
    status: &Status<'_>,
) -> Result<(), AllocError>
    ensures { OnOk result (text.new.items ≡ text.old.items ++ metrics_text exposition status.now) }
{
    push_gateway(text, exposition, status)?;
    push_tenants(text, exposition, status.tenants)?;
    text.extend_from_slice(closing(exposition))
}

fn push_gateway(
    text: &mut Vec<u8>,
    exposition: Exposition,
    status: &Status<'_>,
) -> Result<(), AllocError>
    ensures { OnOk result (text.new.items ≡ text.old.items ++ gateway_text exposition status.now) }
{
    push_gateway_families(text, exposition, &GATEWAY_FAMILIES, status)
}

fn push_gateway_families(
    text: &mut Vec<u8>,
    exposition: Exposition,
    families: &[GatewayFamily],
    status: &Status<'_>,
) -> Result<(), AllocError>
    ensures { OnOk result
        (text.new.items ≡ text.old.items ++ flat_map (gateway_family exposition status.now) families.now) }
{
    'families: for index in 0..families.len() {
        push_gateway_family(text, exposition, families[index], status)?;
    }
    Ok(())
}

#[tactic(auto, unfolding(crate::specs::Metrics::gateway_family))]
fn push_gateway_family(
    text: &mut Vec<u8>,
    exposition: Exposition,
    family: GatewayFamily,
    status: &Status<'_>,
) -> Result<(), AllocError>
    ensures { OnOk result (text.new.items ≡ text.old.items ++ gateway_family exposition status.now family) }
{
    let Some(value) = family.value(status) else {
        return Ok(());
    };
    push_head(
        text,
        exposition,
        family.name(),
        family.help(),
        family.is_counter(),
    )?;
    push_three(
        text,
        family.name(),
        sample_suffix(family.is_counter()),
        b" ",
    )?;
    push_number(text, value)
}

fn push_tenants(
    text: &mut Vec<u8>,
    exposition: Exposition,
    tenants: &[TenantStatus<'_>],
) -> Result<(), AllocError>
    ensures { OnOk result (text.new.items ≡ text.old.items ++ tenants_text exposition tenants.now) }
{
    push_tenant_families(text, exposition, &TENANT_FAMILIES, tenants)
}

fn push_tenant_families(
    text: &mut Vec<u8>,
    exposition: Exposition,
    families: &[TenantFamily],
    tenants: &[TenantStatus<'_>],
) -> Result<(), AllocError>
    ensures { OnOk result
        (text.new.items ≡ text.old.items ++ flat_map (tenant_family exposition tenants.now) families.now) }
{
    'families: for index in 0..families.len() {
        push_tenant_family(text, exposition, families[index], tenants)?;
    }
    Ok(())
}

#[tactic(auto, unfolding(crate::specs::Metrics::tenant_family))]
fn push_tenant_family(
    text: &mut Vec<u8>,
    exposition: Exposition,
    family: TenantFamily,
    tenants: &[TenantStatus<'_>],
) -> Result<(), AllocError>
    ensures { OnOk result (text.new.items ≡ text.old.items ++ tenant_family exposition tenants.now family) }
{
    push_head(
        text,
        exposition,
        family.name(),
        family.help(),
        family.is_counter(),
    )?;
    push_samples(text, family, tenants)
}

fn push_samples(
    text: &mut Vec<u8>,
    family: TenantFamily,
    tenants: &[TenantStatus<'_>],
) -> Result<(), AllocError>
    ensures { OnOk result (text.new.items ≡ text.old.items ++ samples_text family tenants.now) }
{
    'tenants: for index in 0..tenants.len() {
        push_sample(text, family, &tenants[index])?;
    }
    Ok(())
}

#[tactic(auto, unfolding(crate::specs::Metrics::tenant_sample))]
fn push_sample(
    text: &mut Vec<u8>,
    family: TenantFamily,
    tenant: &TenantStatus<'_>,
) -> Result<(), AllocError>
    ensures { OnOk result (text.new.items ≡ text.old.items ++ tenant_sample family tenant.now) }
{
    push_three(
        text,
        family.name(),
        sample_suffix(family.is_counter()),
        b"{tenant=\"",
    )?;
    push_three(text, tenant.name.as_bytes(), b"\"}", b" ")?;
    push_number(text, family.value(tenant))
}

// Adds the lines that say what a family is.
#[tactic(auto, unfolding(crate::specs::Metrics::family_head))]
fn push_head(
    text: &mut Vec<u8>,
    exposition: Exposition,
    name: &[u8],
    help: &[u8],
    is_counter: bool,
) -> Result<(), AllocError>
    ensures { OnOk result
        (text.new.items ≡ text.old.items ++ family_head exposition name.now help.now is_counter) }
{
    let suffix = family_suffix(exposition, is_counter);
    push_three(text, b"# HELP ", name, suffix)?;
    push_three(text, b" ", help, b"\n")?;
    push_three(text, b"# TYPE ", name, suffix)?;
    text.extend_from_slice(kind_of(is_counter))
}

// The ending of the name of a family in the lines that say what it is.
fn family_suffix(exposition: Exposition, is_counter: bool) -> &'static [u8]
    ensures { result.now ≡ family_suffix exposition is_counter }
{
    match exposition {
        Exposition::Plain => sample_suffix(is_counter),
        Exposition::OpenMetrics => b"",
    }
}

// The ending of the name of a family in its samples.
fn sample_suffix(is_counter: bool) -> &'static [u8]
    ensures { result.now ≡ sample_suffix is_counter }
{
    if is_counter { b"_total" } else { b"" }
}

fn kind_of(is_counter: bool) -> &'static [u8]
    ensures { result.now ≡ kind_of is_counter }
{
    if is_counter {
        b" counter\n"
    } else {
        b" gauge\n"
    }
}

// The last line of OpenMetrics.
fn closing(exposition: Exposition) -> &'static [u8]
    ensures { result.now ≡ closing exposition }
{
    match exposition {
        Exposition::Plain => b"",
        Exposition::OpenMetrics => b"# EOF\n",
    }
}

// Adds a number and a line feed.
#[tactic(auto, unfolding(crate::specs::Metrics::number_line))]
fn push_number(text: &mut Vec<u8>, value: u64) -> Result<(), AllocError>
    ensures { OnOk result (text.new.items ≡ text.old.items ++ number_line value) }
{
    let mut digits = Buffer::new();
    text.extend_from_slice(digits.format(value).as_bytes())?;
    text.extend_from_slice(b"\n")
}
