//! The opening of a plan: the commands that make it on a new link, one after the other.
ghost use Rattle.std.specs.Prelude.{◌≡◌, ◌<◌, ◌+◌, [], ◌∷◌, ◌++◌};
ghost use Rattle.std.specs.Prelude.{length, drop, slice_get, MatchOption, Some, option_map};
ghost use Rattle.share_gateway.specs.Plan.{gap};
ghost use Rattle.share_gateway.specs.Opening.{opening, grantees, grants_to, grant_entry, fund_command, open_command};
ghost use Rattle.share_gateway.specs.Opening.{gap_commands, grant_commands, grant_to, ToTenant};
ghost use Rattle.share_gateway.specs.OpeningLeft.{seen, group_list, sections_left, currencies_left, flows_left};
ghost use Rattle.share_gateway.specs.OpeningLeft.{grants_left, holds_left, grants_from, FindsGrant, NumbersFit};

use crate::plan::{Currency, Entry, Grant, Plan, Tenant};
use share_base::{Command, Name};
use std::marker::Model;

/// A command of a plan's opening, and the entry of the plan that it is for.
#[derive(Clone, Copy, Debug)]
pub struct PlanCommand {
    pub command: Command,
    pub entry: Entry,
}

// One or two commands of one entry, which follow one another.
#[derive(Clone, Copy)]
struct Group {
    first: PlanCommand,
    second: Option<PlanCommand>,
}

// The next flow number, and the index of the tenant that has it or the next greater one.
#[derive(Clone, Copy)]
struct FlowCursor {
    number: u32,
    tenant: usize,
}

// The next grant: its index among those of a grantee, the grantee's among all, and the number of its ticket.
#[derive(Clone, Copy)]
struct GrantCursor {
    grantee: usize,
    grant: usize,
    ticket: u64,
}

// The next item of each section of an opening. It has the index of a currency, a flow, a grant, and the index from
// which on tenants are held.
#[derive(Clone, Copy)]
struct Sections {
    currency: usize,
    flows: FlowCursor,
    grants: GrantCursor,
    holder: usize,
}

// The grantee: a currency or a tenant, with its number from 1.
#[derive(Clone, Copy)]
pub(crate) enum Grantee<'a> {
    Currency {
        number: usize,
        currency: &'a Currency,
    },
    Tenant {
        number: usize,
        tenant: &'a Tenant,
    },
}

// A grant, its index, and what it is to, with its index.
#[derive(Clone, Copy)]
struct Found<'a> {
    grantee: Grantee<'a>,
    index: usize,
    grant: usize,
}

/// The commands of a plan's opening that are not given yet. A contract sees them as a list.
#[derive(Drop)]
pub struct OpeningCommands<'a> {
    plan: &'a Plan,
    pending: Option<PlanCommand>,
    sections: Sections,
}

impl<'a> Model for OpeningCommands<'a> {
    ghost use Rattle.std.specs.Prelude.{List, ◌++◌};
    ghost use Rattle.share_gateway.specs.declared.openings.PlanCommand.{PlanCommand};
    ghost use Rattle.share_gateway.specs.OpeningLeft.{option_list, sections_left, NumbersFit};

    ghost Value = { List PlanCommand };

    ghost view = { λ o. option_list o.pending ++ sections_left o.plan.now o.sections };

    ghost invariant = { λ o. NumbersFit o.plan.now o.sections.grants };
}

/// The commands of the plan's opening, one after the other. Each currency is made. Each flow number from 1 to the
/// greatest is opened, and closed again if no tenant has it. For each grant a ticket is made, and funds. Each tenant
/// that is held is held. It takes no memory.
pub fn opening(plan: &Plan) -> OpeningCommands<'_>
    ensures { result ≡ opening plan.entry.now }
{
    let _ = plan.tenants();
    OpeningCommands {
        plan,
        pending: None,
        sections: Sections {
            currency: 0,
            flows: FlowCursor {
                number: 1,
                tenant: 0,
            },
            grants: GrantCursor {
                grantee: 0,
                grant: 0,
                ticket: 1,
            },
            holder: 0,
        },
    }
}

impl<'a> OpeningCommands<'a> {
    /// The next command, and the entry that it is for. `None` if no command is left.
    pub fn next(&mut self) -> Option<PlanCommand>
        ensures { MatchOption result (self.old ≡ []) (λ command. self.old ≡ command ∷ self.new) }
    {
        if let Some(command) = self.pending {
            self.pending = None;
            return Some(command);
        }
        match next_group(self.plan, &mut self.sections) {
            None => None,
            Some(group) => {
                self.pending = group.second;
                Some(group.first)
            }
        }
    }
}

fn next_group(plan: &Plan, sections: &mut Sections) -> Option<Group>
    requires { NumbersFit plan.now sections.old.grants }
    ensures next { MatchOption result (sections_left plan.now sections.old ≡ [])
        (λ group. sections_left plan.now sections.old ≡ group_list group ++ sections_left plan.now sections.new) }
    ensures fit { NumbersFit plan.now sections.new.grants }
{
    if let Some(group) = next_currency(plan, &mut sections.currency) {
        return Some(group);
    }
    if let Some(group) = next_flow(plan, &mut sections.flows) {
        return Some(group);
    }
    if let Some(group) = next_grant(plan, &mut sections.grants) {
        return Some(group);
    }
    next_hold(plan, &mut sections.holder)
}

fn next_currency(plan: &Plan, currency: &mut usize) -> Option<Group>
    ensures { MatchOption result ((currencies_left plan.now currency.old ≡ []) × (currency.new ≡ currency.old))
        (λ group. currencies_left plan.now currency.old ≡ group_list group ++ currencies_left plan.now currency.new) }
{
    let index = *currency;
    let made = plan.currencies().get(index)?;
    *currency = index + 1;
    Some(alone(PlanCommand {
        command: Command::MakeCurrency(made.name),
        entry: Entry::Currency(index + 1),
    }))
}

fn alone(command: PlanCommand) -> Group
    ensures { group_list result ≡ command ∷ [] }
{
    Group {
        first: command,
        second: None,
    }
}

fn next_flow(plan: &Plan, cursor: &mut FlowCursor) -> Option<Group>
    ensures { MatchOption result ((flows_left plan.now cursor.old ≡ []) × (cursor.new ≡ cursor.old))
        (λ group. flows_left plan.now cursor.old ≡ group_list group ++ flows_left plan.now cursor.new) }
{
    let index = cursor.tenant;
    let tenant = plan.tenants().get(index)?;
    if cursor.number < tenant.flow {
        cursor.number += 1;
        return Some(gap(Entry::Tenant(index + 1)));
    }
    *cursor = FlowCursor {
        number: tenant.flow + 1,
        tenant: index + 1,
    };
    Some(alone(open_command(index + 1, tenant)))
}

fn open_command(number: usize, tenant: &Tenant) -> PlanCommand
    ensures { result ≡ open_command (number, tenant.now) }
{
    PlanCommand {
        command: Command::OpenFlow {
            name: tenant.name,
            limit: tenant.limit,
            tariff: tenant.tariff,
        },
        entry: Entry::Tenant(number),
    }
}

// A flow number that no tenant has is opened and closed.
fn gap(entry: Entry) -> Group
    ensures { group_list result ≡ gap_commands entry }
{
    let name = gap_name();
    Group {
        first: PlanCommand {
            command: Command::OpenFlow {
                name,
                limit: 1,
                tariff: 1,
            },
            entry,
        },
        second: Some(PlanCommand {
            command: Command::CloseFlow(name),
            entry,
        }),
    }
}

fn gap_name() -> Name
    ensures { result ≡ gap }
{
    match Name::read(b"gap") {
        None => unreachable!(),
        Some(name) => name,
    }
}

fn next_grant(plan: &Plan, cursor: &mut GrantCursor) -> Option<Group>
    requires { NumbersFit plan.now cursor.old }
    ensures next { MatchOption result ((grants_left plan.now cursor.old ≡ []) × (cursor.new ≡ cursor.old))
        (λ group. grants_left plan.now cursor.old ≡ group_list group ++ grants_left plan.now cursor.new) }
    ensures fit { NumbersFit plan.now cursor.new }
{
    let found = find_grant(plan, cursor.grantee, cursor.grant)?;
    let grant = found.grantee.grants()[found.grant];
    let group = grant_commands(&found.grantee, found.grant + 1, grant, cursor.ticket);
    *cursor = GrantCursor {
        grantee: found.index,
        grant: found.grant + 1,
        ticket: cursor.ticket + 1,
    };
    Some(group)
}

// The grant's ticket is made, and funds.
fn grant_commands(grantee: &Grantee<'_>, number: usize, grant: Grant, ticket: u64) -> Group
    ensures { group_list result ≡ grant_commands (ticket, grant_to (seen grantee.now) (number, grant)) }
{
    let entry = grantee.entry(number);
    Group {
        first: PlanCommand {
            command: Command::MakeTicket {
                amount: grant.amount,
                currency: grant.denomination,
            },
            entry,
        },
        second: Some(PlanCommand {
            command: grantee.fund(ticket),
            entry,
        }),
    }
}

// The first grant from this one on: of the grantee of this index from its grant of that index on, or of a later one.
fn find_grant(plan: &Plan, grantee: usize, grant: usize) -> Option<Found<'_>>
    ensures { MatchOption result (grants_from grant (drop grantee (grantees plan.entry.now)) ≡ [])
        (FindsGrant plan.entry.now grantee grant) }
{
    let mut at = grant;
    for index in grantee..grantee_count(plan) {
        let to = grantee_at(plan, index);
        if at < to.grants().len() {
            return Some(Found {
                grantee: to,
                index,
                grant: at,
            });
        }
        at = 0;
    }
    None
}

pub(crate) fn grantee_count(plan: &Plan) -> usize
    ensures { result ≡ length (grantees plan.now) }
{
    plan.currencies().len() + plan.tenants().len()
}

pub(crate) fn grantee_at(plan: &Plan, index: usize) -> Grantee<'_>
    requires { index < length (grantees plan.now) }
    ensures { slice_get (grantees plan.entry.now) index ≡ Some (seen result) }
{
    let currencies = plan.currencies();
    if index < currencies.len() {
        return Grantee::Currency {
            number: index + 1,
            currency: &currencies[index],
        };
    }
    let place = index - currencies.len();
    tenant_at(plan.tenants(), place)
}

fn tenant_at(tenants: &[Tenant], place: usize) -> Grantee<'_>
    requires { place < length tenants.now }
    ensures { option_map (λ t. ToTenant (place + 1) t) (slice_get tenants.entry.now place) ≡ Some (seen result) }
{
    Grantee::Tenant {
        number: place + 1,
        tenant: &tenants[place],
    }
}

impl<'a> Grantee<'a> {
    pub(crate) fn grants(&self) -> &'a [Grant]
        ensures { result.now ≡ grants_to (seen self.now) }
    {
        match self {
            Grantee::Currency { currency, .. } => currency.grants.as_slice(),
            Grantee::Tenant { tenant, .. } => tenant.grants.as_slice(),
        }
    }

    fn entry(&self, grant: usize) -> Entry
        ensures { result ≡ grant_entry (seen self.now) grant }
    {
        match self {
            Grantee::Currency { number, .. } => Entry::CurrencyGrant {
                currency: *number,
                grant,
            },
            Grantee::Tenant { number, .. } => Entry::TenantGrant {
                tenant: *number,
                grant,
            },
        }
    }

    fn fund(&self, ticket: u64) -> Command
        ensures { result ≡ fund_command (seen self.now) ticket }
    {
        match self {
            Grantee::Currency { currency, .. } => Command::FundCurrency {
                ticket,
                currency: currency.name,
            },
            Grantee::Tenant { tenant, .. } => Command::FundFlow {
                ticket,
                flow: tenant.name,
            },
        }
    }
}

fn next_hold(plan: &Plan, holder: &mut usize) -> Option<Group>
    ensures { MatchOption result ((holds_left plan.now holder.old ≡ []) × (holder.new ≡ holder.old))
        (λ group. holds_left plan.now holder.old ≡ group_list group ++ holds_left plan.now holder.new) }
{
    let tenants = plan.tenants();
    for index in *holder..tenants.len() {
        let tenant = &tenants[index];
        if tenant.held {
            *holder = index + 1;
            return Some(alone(PlanCommand {
                command: Command::Hold(tenant.name),
                entry: Entry::Tenant(index + 1),
            }));
        }
    }
    None
}
