//! Copies of plans.
ghost use Rattle.std.specs.Prelude.{◌≡◌, IfOk};

use super::{Currency, Plan, Tenant};
use std::alloc::{AllocError, Global};

impl Plan {
    /// An equal plan, in memory of its own.
    pub fn copy(&self, alloc: Global) -> Result<Plan, AllocError>
        ensures { IfOk result (λ p. p ≡ self.now) }
    {
        let currencies = copies_of_currencies(alloc, self.currencies.as_slice())?;
        let tenants = copies_of_tenants(alloc, self.tenants.as_slice())?;
        Ok(Plan {
            currencies,
            tenants,
        })
    }
}

#[tactic(auto, using(std::proofs::lemmas::List::take_more, std::proofs::lemmas::List::take_all))]
fn copies_of_currencies(alloc: Global, currencies: &[Currency]) -> Result<Vec<Currency>, AllocError>
    ensures { IfOk result (λ copies. copies.items ≡ currencies.now) }
{
    let mut copies = Vec::with_capacity(alloc, currencies.len())?;
    for index in 0..currencies.len() {
        copies.push(copy_of_currency(alloc, &currencies[index])?)?;
    }
    Ok(copies)
}

fn copy_of_currency(alloc: Global, currency: &Currency) -> Result<Currency, AllocError>
    ensures { IfOk result (λ copy. copy ≡ currency.now) }
{
    let grants = Vec::from_slice(alloc, currency.grants.as_slice())?;
    Ok(Currency {
        name: currency.name,
        grants,
    })
}

#[tactic(auto, using(std::proofs::lemmas::List::take_more, std::proofs::lemmas::List::take_all))]
fn copies_of_tenants(alloc: Global, tenants: &[Tenant]) -> Result<Vec<Tenant>, AllocError>
    ensures { IfOk result (λ copies. copies.items ≡ tenants.now) }
{
    let mut copies = Vec::with_capacity(alloc, tenants.len())?;
    for index in 0..tenants.len() {
        copies.push(copy_of_tenant(alloc, &tenants[index])?)?;
    }
    Ok(copies)
}

fn copy_of_tenant(alloc: Global, tenant: &Tenant) -> Result<Tenant, AllocError>
    ensures { IfOk result (λ copy. copy ≡ tenant.now) }
{
    let grants = Vec::from_slice(alloc, tenant.grants.as_slice())?;
    Ok(Tenant {
        name: tenant.name,
        flow: tenant.flow,
        limit: tenant.limit,
        tariff: tenant.tariff,
        grants,
        held: tenant.held,
    })
}
