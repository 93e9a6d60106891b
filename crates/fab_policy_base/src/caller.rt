//! The callers of a policy: who shows a token, and whose things a caller may see.
ghost use Rattle.std.specs.Prelude.{◌≡◌, ℕ, IfNone, IfSome, IsSomeAnd, option_copied, option_map, slice_get};
ghost use Rattle.fab_policy_base.specs.Callers as spec;

use crate::policy::{Caller, Policy, Rule, Tenants, Window};
use fab_names::Name;
use std::marker::Model;

/// A caller of a policy, by the place among its callers. A contract sees that number.
#[derive(Clone, Copy)]
pub struct CallerId {
    place: usize,
}

impl Model for CallerId {
    ghost use Rattle.std.specs.Prelude.{ℕ};

    ghost Value = { ℕ };

    ghost view = { λ c. c.place };

    ghost inverse = { λ n. record { place = n } };
}

/// Whether the name is among these.
fn has_name(names: &[Name], name: &Name) -> bool
    ensures { result ≡ spec.has_name names.now name.now }
{
    names.contains(name)
}

impl Caller {
    /// Whether the caller has the token.
    pub fn has_token(&self, token: &str) -> bool
        ensures { result ≡ spec.is_same self.now.token token.now }
    {
        self.token.as_str() == token
    }

    /// Whether the caller has the role.
    pub fn has_role(&self, role: &Name) -> bool
        ensures { result ≡ spec.has_name self.now.roles role.now }
    {
        has_name(&self.roles, role)
    }

    /// Whether the tenant is the caller's, by name or as one of all.
    pub fn has_tenant(&self, tenant: &Name) -> bool
        ensures { result ≡ spec.has_tenant self.now tenant.now }
    {
        match &self.tenants {
            Tenants::All => true,
            Tenants::Listed(own) => has_name(own, tenant),
        }
    }

    /// Whether the caller's list names the tenant. A caller whose is every tenant has no list.
    pub fn lists_tenant(&self, tenant: &Name) -> bool
        ensures { result ≡ spec.lists_tenant self.now tenant.now }
    {
        match &self.tenants {
            Tenants::All => false,
            Tenants::Listed(own) => has_name(own, tenant),
        }
    }
}

/// The place of a caller with the token.
fn place_of(callers: &[Caller], token: &str) -> Option<usize>
    ensures nobody { IfNone result ((id : ℕ) → ¬ IsSomeAnd (slice_get callers.now id) (λ c. c.token ≡ token.now)) }
    ensures has { IfSome result (λ id. IsSomeAnd (slice_get callers.now id) (λ c. c.token ≡ token.now)) }
{
    for i in 0..callers.len() {
        if callers[i].has_token(token) {
            return Some(i);
        }
    }
    None
}

impl Policy {
    /// The callers. A `CallerId` is the place of one among them.
    pub fn callers(&self) -> &[Caller]
        ensures { result.now ≡ self.now.callers }
    {
        &self.callers
    }

    /// The windows.
    pub fn windows(&self) -> &[Window]
        ensures { result.now ≡ self.now.windows }
    {
        &self.windows
    }

    /// The rules in their order.
    pub fn rules(&self) -> &[Rule]
        ensures { result.now ≡ self.now.rules }
    {
        &self.rules
    }

    /// The only caller with the token, or none where nobody has it. It takes no memory.
    pub fn caller(&self, token: &str) -> Option<CallerId>
        ensures nobody { IfNone result ((id : ℕ) → ¬ spec.HasToken self.now token.now id) }
        ensures only { IfSome result (spec.IsOnlyWith self.now token.now) }
    {
        let place = place_of(&self.callers, token)?;
        Some(CallerId { place })
    }

    /// The row of a caller, or none where the policy has no such caller.
    pub fn row(&self, id: CallerId) -> Option<&Caller>
        ensures { option_copied result ≡ slice_get self.now.callers id }
    {
        self.callers.get(id.place)
    }

    /// The name of a caller, or none where the policy has no such caller. It takes no memory.
    pub fn name_of(&self, id: CallerId) -> Option<Name>
        ensures { result ≡ option_map (λ c. c.name) (slice_get self.now.callers id) }
    {
        Some(self.row(id)?.name)
    }

    /// Whether the caller has the tenant, by name or as one of all. It takes no memory.
    pub fn has_tenant(&self, id: CallerId, tenant: &Name) -> bool
        ensures { result ≡ spec.sees self.now id tenant.now }
    {
        match self.row(id) {
            Some(caller) => caller.has_tenant(tenant),
            None => false,
        }
    }
}
