//! The text of a status.
ghost use Rattle.std.specs.Prelude.{◌≡◌, ◌++◌, codes, IfOk, OnOk, Some};
ghost use Rattle.std.specs.Str.{IsUtf8};
ghost use Rattle.json.specs.Json.{document};
ghost use Rattle.json.specs.Lex.{tokens};
ghost use Rattle.json.specs.Tree.{json_tokens};
ghost use Rattle.share_status.specs.Members.{all_member_tokens, member_tokens};
ghost use Rattle.share_status.specs.Status.{address_of, book_members, disk_members, disk_of, downlink_members};
ghost use Rattle.share_status.specs.Status.{downlink_of, downlink_state_of, grant_members, grant_of, grants_of};
ghost use Rattle.share_status.specs.Status.{or_null};
ghost use Rattle.share_status.specs.Status.{part_members, status_line, status_of, tenant_counts, tenant_of};
ghost use Rattle.share_status.specs.Status.{tenant_plan};
ghost use Rattle.share_status.specs.Status.{tenants_of, uplink_members, uplink_of, uplink_state_of, whole};

use crate::json_text::JsonText;
use crate::status::{
    DiskStatus, DownlinkState, DownlinkStatus, Status, TenantStatus, UplinkState, UplinkStatus,
};
use share_base::Name;
use share_gateway::Grant;
use std::alloc::{AllocError, Global};
use std::net::SocketAddr;
use std::str;

/// The line of a status, with its line feed. It reads as the JSON of `specs/Status.antt`, with its members in their
/// order.
pub fn status_text(alloc: Global, status: &Status<'_>) -> Result<Vec<u8>, AllocError>
    ensures line { IfOk result (λ text. text.items ≡ status_line status.now ++ codes "\n") }
    ensures reads_back { OnOk result (document (status_line status.now) ≡ Some (status_of status.now)) }
{
    let mut line = object_text(alloc, status)?;
    match line.push(b'\n') {
        Ok(()) => Ok(line),
        Err(_) => {
            drop(line);
            Err(AllocError)
        }
    }
}

fn object_text(alloc: Global, status: &Status<'_>) -> Result<Vec<u8>, AllocError>
    ensures line { IfOk result (λ text. text.items ≡ status_line status.now) }
    ensures reads_back { OnOk result (tokens (status_line status.now) ≡ json_tokens (status_of status.now)) }
{
    let mut text = JsonText::new(alloc);
    match push_status(&mut text, alloc, status) {
        Ok(()) => Ok(text.into_bytes()),
        Err(refused) => {
            drop(text);
            Err(refused)
        }
    }
}

#[tactic(auto, using(crate::proofs::TokenLemmas::two_written))]
fn push_status(text: &mut JsonText, alloc: Global, status: &Status<'_>) -> Result<(), AllocError>
    ensures { OnOk result (text.new ≡ text.old ++ json_tokens (status_of status.now)) }
{
    text.begin_object()?;
    push_book(text, status)?;
    push_parts(text, alloc, status)?;
    text.end_object()
}

#[tactic(auto, unfolding(crate::specs::Status::book_members))]
fn push_book(text: &mut JsonText, status: &Status<'_>) -> Result<(), AllocError>
    ensures { OnOk result (text.new ≡ text.old ++ all_member_tokens (book_members status.now)) }
{
    text.string_member("version", status.version)?;
    text.string_member("proved", status.proved)?;
    text.number_members(&[
        ("book", status.book),
        ("events", status.events),
        ("left", status.left),
    ])?;
    text.string_member("opened", text_of(&status.opened.text()))
}

#[tactic(auto, unfolding(crate::specs::Status::part_members))]
fn push_parts(text: &mut JsonText, alloc: Global, status: &Status<'_>) -> Result<(), AllocError>
    ensures { OnOk result (text.new ≡ text.old ++ all_member_tokens (part_members status.now)) }
{
    push_uplink(text, alloc, &status.uplink)?;
    push_rate(text, status.rate)?;
    push_disk(text, &status.disk)?;
    push_tenants(text, status.tenants)?;
    push_downlink(text, alloc, &status.downlink)
}

#[tactic(auto, using(crate::proofs::TokenLemmas::member_written))]
fn push_uplink(
    text: &mut JsonText,
    alloc: Global,
    uplink: &Option<UplinkStatus>,
) -> Result<(), AllocError>
    ensures { OnOk result (text.new ≡ text.old ++ member_tokens (codes "uplink", or_null uplink_of uplink.now)) }
{
    text.key("uplink")?;
    let Some(uplink) = uplink else {
        return text.null();
    };
    text.begin_object()?;
    push_uplink_members(text, alloc, uplink)?;
    text.end_object()
}

#[tactic(auto, unfolding(crate::specs::Status::uplink_members))]
fn push_uplink_members(
    text: &mut JsonText,
    alloc: Global,
    uplink: &UplinkStatus,
) -> Result<(), AllocError>
    ensures { OnOk result (text.new ≡ text.old ++ all_member_tokens (uplink_members uplink.now)) }
{
    text.string_member("state", uplink_state_of(uplink.state))?;
    push_address(text, alloc, uplink.address)?;
    text.number_members(&[
        ("sent", uplink.sent),
        ("outbox", uplink.outbox),
        ("lost", uplink.lost),
    ])
}

fn push_rate(text: &mut JsonText, rate: Option<u64>) -> Result<(), AllocError>
    ensures { OnOk result (text.new ≡ text.old ++ member_tokens (codes "rate", or_null whole rate)) }
{
    text.key("rate")?;
    match rate {
        None => text.null(),
        Some(rate) => text.number(rate),
    }
}

#[tactic(auto, using(crate::proofs::TokenLemmas::member_written))]
fn push_disk(text: &mut JsonText, disk: &DiskStatus<'_>) -> Result<(), AllocError>
    ensures { OnOk result (text.new ≡ text.old ++ member_tokens (codes "disk", disk_of disk.now)) }
{
    text.key("disk")?;
    text.begin_object()?;
    push_disk_members(text, disk)?;
    text.end_object()
}

#[tactic(auto, unfolding(crate::specs::Status::disk_members))]
fn push_disk_members(text: &mut JsonText, disk: &DiskStatus<'_>) -> Result<(), AllocError>
    ensures { OnOk result (text.new ≡ text.old ++ all_member_tokens (disk_members disk.now)) }
{
    text.number_members(&[("waiting", disk.waiting)])?;
    text.key("fault")?;
    match disk.fault {
        None => text.null(),
        Some(fault) => text.string(fault),
    }
}

#[tactic(auto, using(crate::proofs::TokenLemmas::member_written))]
fn push_downlink(
    text: &mut JsonText,
    alloc: Global,
    downlink: &Option<DownlinkStatus>,
) -> Result<(), AllocError>
    ensures { OnOk result (text.new ≡ text.old ++ member_tokens (codes "downlink", or_null downlink_of downlink.now)) }
{
    text.key("downlink")?;
    let Some(downlink) = downlink else {
        return text.null();
    };
    text.begin_object()?;
    push_downlink_members(text, alloc, downlink)?;
    text.end_object()
}

#[tactic(auto, unfolding(crate::specs::Status::downlink_members))]
fn push_downlink_members(
    text: &mut JsonText,
    alloc: Global,
    downlink: &DownlinkStatus,
) -> Result<(), AllocError>
    ensures { OnOk result (text.new ≡ text.old ++ all_member_tokens (downlink_members downlink.now)) }
{
    text.string_member("state", downlink_state_of(downlink.state))?;
    push_address(text, alloc, downlink.address)?;
    text.number_members(&[
        ("frames", downlink.frames),
        ("bytes", downlink.bytes),
        ("strangers", downlink.strangers),
    ])
}

fn push_address(text: &mut JsonText, alloc: Global, address: SocketAddr) -> Result<(), AllocError>
    ensures { OnOk result (text.new ≡ text.old ++ member_tokens (codes "address", address_of address)) }
{
    let shown = format!(in alloc; "{address}")?;
    text.string_member("address", shown.as_str())
}

#[tactic(auto, using(crate::proofs::TokenLemmas::array_written))]
fn push_tenants(text: &mut JsonText, tenants: &[TenantStatus<'_>]) -> Result<(), AllocError>
    ensures { OnOk result (text.new ≡ text.old ++ member_tokens (codes "tenants", tenants_of tenants.now)) }
{
    text.key("tenants")?;
    text.begin_array()?;
    'tenants: for index in 0..tenants.len() {
        push_tenant(text, &tenants[index])?;
    }
    text.end_array()
}

#[tactic(auto, using(crate::proofs::TokenLemmas::two_written))]
fn push_tenant(text: &mut JsonText, tenant: &TenantStatus<'_>) -> Result<(), AllocError>
    ensures { OnOk result (text.new ≡ text.old ++ json_tokens (tenant_of tenant.now)) }
{
    text.begin_object()?;
    push_plan(text, tenant)?;
    push_counts(text, tenant)?;
    text.end_object()
}

#[tactic(auto, unfolding(crate::specs::Status::tenant_plan))]
fn push_plan(text: &mut JsonText, tenant: &TenantStatus<'_>) -> Result<(), AllocError>
    ensures { OnOk result (text.new ≡ text.old ++ all_member_tokens (tenant_plan tenant.now)) }
{
    text.string_member("name", name_text(&tenant.name))?;
    text.number_members(&[("flow", u64::from(tenant.flow))])?;
    text.flag_member("held", tenant.held)?;
    text.number_members(&[("tickets", u64::from(tenant.tickets))])?;
    push_grants(text, tenant.grants)
}

#[tactic(auto, unfolding(crate::specs::Status::tenant_counts))]
fn push_counts(text: &mut JsonText, tenant: &TenantStatus<'_>) -> Result<(), AllocError>
    ensures { OnOk result (text.new ≡ text.old ++ all_member_tokens (tenant_counts tenant.now)) }
{
    text.number_members(&[
        ("waiting", u64::from(tenant.waiting)),
        ("limit", tenant.limit),
        ("taken_packets", tenant.taken_packets),
        ("taken_bytes", tenant.taken_bytes),
        ("sent_packets", tenant.sent_packets),
        ("sent_bytes", tenant.sent_bytes),
        ("amount", tenant.amount),
        ("connections", tenant.connections),
        ("dropped", tenant.dropped),
        ("lost", tenant.lost),
    ])
}

#[tactic(auto, using(crate::proofs::TokenLemmas::array_written))]
fn push_grants(text: &mut JsonText, grants: &[Grant]) -> Result<(), AllocError>
    ensures { OnOk result (text.new ≡ text.old ++ member_tokens (codes "grants", grants_of grants.now)) }
{
    text.key("grants")?;
    text.begin_array()?;
    'grants: for index in 0..grants.len() {
        push_grant(text, &grants[index])?;
    }
    text.end_array()
}

#[tactic(auto, using(crate::proofs::TokenLemmas::object_written))]
fn push_grant(text: &mut JsonText, grant: &Grant) -> Result<(), AllocError>
    ensures { OnOk result (text.new ≡ text.old ++ json_tokens (grant_of grant.now)) }
{
    text.begin_object()?;
    push_grant_members(text, grant)?;
    text.end_object()
}

#[tactic(auto, unfolding(crate::specs::Status::grant_members))]
fn push_grant_members(text: &mut JsonText, grant: &Grant) -> Result<(), AllocError>
    ensures { OnOk result (text.new ≡ text.old ++ all_member_tokens (grant_members grant.now)) }
{
    text.number_members(&[("amount", grant.amount)])?;
    text.string_member("of", name_text(&grant.denomination))
}

// The bytes of a name are text.
fn name_text(name: &Name) -> &str
    ensures { result.now ≡ name.now }
{
    text_of(name.as_bytes())
}

// The text that bytes are, as those of a time or a name.
fn text_of(bytes: &[u8]) -> &str
    requires { IsUtf8 bytes.now }
    ensures { result.now ≡ bytes.now }
{
    match str::from_utf8(bytes) {
        Ok(text) => text,
        Err(_) => unreachable!(),
    }
}

fn uplink_state_of(state: UplinkState) -> &'static str
    ensures { result.now ≡ uplink_state_of state }
{
    match state {
        UplinkState::Up => "up",
        UplinkState::Dialling => "dialling",
    }
}

fn downlink_state_of(state: DownlinkState) -> &'static str
    ensures { result.now ≡ downlink_state_of state }
{
    match state {
        DownlinkState::Up => "up",
        DownlinkState::Listening => "listening",
    }
}
