//! Changes of a plan that is in use, and the flow of a tenant.
ghost use Rattle.std.specs.Prelude.{◌≡◌, find, is_some, position};
ghost use Rattle.share_model.specs.lists.Change.{change_first};
ghost use Rattle.share_gateway.specs.Plan.{has_name};
ghost use Rattle.share_gateway.specs.PlanChanges.{flow_by, held_as, is_tenant, tenant_flow, with_hold};
ghost use Rattle.share_gateway.specs.PlanChanges.{amend_at, currency_amended, tenant_amended, with_amount};

use super::{Currency, Grant, Plan, Tenant, has_name};
use share_base::{FlowNo, Name};

impl Plan {
    /// Holds the tenant of a name, or ends its hold. Nothing changes if there is none.
    pub fn set_held(&mut self, name: Name, held: bool)
        ensures { self.new ≡ with_hold name held self.old }
    {
        match place_of(self.tenants.as_slice(), name) {
            None => {}
            Some(index) => {
                let tenant = &mut self.tenants[index];
                mark_held(tenant, held);
            }
        }
    }

    /// Gives the grant of an index, from 0, of a currency or otherwise of a tenant this amount. Nothing changes
    /// if neither has the name, or it has fewer grants.
    pub fn set_amount(&mut self, name: Name, grant: usize, amount: u64)
        ensures { self.new ≡ with_amount name grant amount self.old }
    {
        if amend_currency(&mut self.currencies, name, grant, amount) {
            return;
        }
        amend_tenant(&mut self.tenants, name, grant, amount);
    }

    /// The flow of the tenant of a name, and 0, which no flow has, if there is none.
    pub fn flow_of(&self, name: Name) -> FlowNo
        ensures { result ≡ tenant_flow self.now name }
    {
        flow_of(self.tenants.as_slice(), name)
    }
}

// The index of the tenant of a name.
fn place_of(tenants: &[Tenant], name: Name) -> Option<usize>
    ensures { result ≡ position (is_tenant name) tenants.now }
{
    tenants.iter().position(|tenant| is_tenant(name, tenant))
}

fn mark_held(tenant: &mut Tenant, held: bool)
    ensures { tenant.new ≡ held_as held tenant.old }
{
    tenant.held = held;
}

// Whether a tenant has this name.
fn is_tenant(name: Name, tenant: &Tenant) -> bool
    ensures { result ≡ is_tenant name tenant.now }
{
    name.as_bytes() == tenant.name.as_bytes()
}

// The flow of the tenant of a name, and 0 if there is none.
fn flow_of(tenants: &[Tenant], name: Name) -> FlowNo
    ensures { result ≡ flow_by (find (is_tenant name) tenants.now) }
{
    match place_of(tenants, name) {
        None => FlowNo(0),
        Some(index) => {
            let tenant = &tenants[index];
            FlowNo(tenant.flow)
        }
    }
}

// The index of the currency of a name.
fn place_of_currency(currencies: &[Currency], name: Name) -> Option<usize>
    ensures { result ≡ position (has_name name) currencies.now }
{
    currencies
        .iter()
        .position(|currency| has_name(name, currency))
}

// Amends a grant of the currency of a name. Returns false if there is none.
fn amend_currency(currencies: &mut Vec<Currency>, name: Name, grant: usize, amount: u64) -> bool
    ensures found { result ≡ is_some (find (has_name name) currencies.old.items) }
    ensures amended { currencies.new.items
        ≡ change_first (has_name name) (currency_amended grant amount) currencies.old.items }
{
    match place_of_currency(currencies.as_slice(), name) {
        None => false,
        Some(index) => {
            let currency = &mut currencies[index];
            amend_in_currency(currency, grant, amount);
            true
        }
    }
}

fn amend_in_currency(currency: &mut Currency, grant: usize, amount: u64)
    ensures { currency.new ≡ currency_amended grant amount currency.old }
{
    amend(&mut currency.grants, grant, amount);
}

// Amends a grant of the tenant of a name. Nothing changes if there is none.
fn amend_tenant(tenants: &mut Vec<Tenant>, name: Name, grant: usize, amount: u64)
    ensures { tenants.new.items
        ≡ change_first (is_tenant name) (tenant_amended grant amount) tenants.old.items }
{
    match place_of(tenants.as_slice(), name) {
        None => {}
        Some(index) => {
            let tenant = &mut tenants[index];
            amend_in_tenant(tenant, grant, amount);
        }
    }
}

fn amend_in_tenant(tenant: &mut Tenant, grant: usize, amount: u64)
    ensures { tenant.new ≡ tenant_amended grant amount tenant.old }
{
    amend(&mut tenant.grants, grant, amount);
}

// Gives the grant of an index this amount. Nothing changes if there is none.
fn amend(grants: &mut Vec<Grant>, index: usize, amount: u64)
    ensures { grants.new.items ≡ amend_at index amount grants.old.items }
{
    if index < grants.len() {
        grants[index].amount = amount;
    }
}
