//! Host groups.
ghost use Rattle.std.specs.Prelude.{◌≡◌, ℕ, List, false, IfOk, OnOk, OnErr, IsTrue, ◌↔◌};
ghost use Rattle.std.specs.FinSet as set;
ghost use Rattle.std.specs.List.Sorted.{IsStrictlySortedBy};
ghost use Rattle.fab_inventory.specs.fab_names.Orders.{name_cmp};
ghost use Rattle.fab_mapping_base.specs.Groups.{host_group_of};
ghost use Rattle.fab_mapping_base.specs.Soundness.{IsSoundHostGroup};

use crate::limits::MOST_HOSTS;
use crate::same::are_same_names;
use fab_inventory::lemmas::set_of;
use fab_inventory::names::Name;
use std::alloc::{AllocError, Allocator};
use std::collections::BTreeSet;
use std::collections::btree_set::Iter;
use std::marker::Model;

/// A host group: hosts that a storage group serves together (the group of initiators of SNIA
/// Swordfish).
///
/// A contract sees it as a `HostGroupRows`.
#[derive(Drop)]
pub struct HostGroup<A: Allocator + Copy> {
    tenant: Name,
    hosts: BTreeSet<Name, A>,
}

impl<A: Allocator + Copy> Model for HostGroup<A> {
    ghost use Rattle.std.specs.FinSet as set;
    ghost use Rattle.fab_mapping_base.specs.Groups.{HostGroupRows, host_group_code};

    ghost Value = { HostGroupRows };

    ghost coded = { host_group_code };

    ghost view = { λ a. record { tenant = a.tenant; hosts = set.from_list a.hosts.keys } };
}

impl<A: Allocator + Copy> HostGroup<A> {
    /// A host group of the listed hosts. Hosts listed twice count once.
    ///
    /// # Errors
    /// `AllocError` where there is no memory.
    pub fn new(alloc: A, tenant: Name, hosts: &[Name]) -> Result<Self, AllocError>
        ensures { IfOk result (λ group. group ≡ host_group_of tenant hosts.now) }
    {
        Ok(HostGroup {
            tenant,
            hosts: set_of(alloc, hosts)?,
        })
    }

    /// The host group of these hosts, as they are: what a stored one was made of. Nothing is
    /// tested, not even that there is a host.
    pub fn from_parts(tenant: Name, hosts: BTreeSet<Name, A>) -> Self
        ensures { result ≡ record { tenant = tenant; hosts = set.from_list hosts.keys } }
    {
        HostGroup { tenant, hosts }
    }

    /// Whose it is.
    pub fn tenant(&self) -> Name
        ensures { result ≡ self.now.tenant }
    {
        self.tenant
    }

    /// Whether the host is in it.
    pub fn has_host(&self, host: &Name) -> bool
        ensures { result ≡ set.contains self.now.hosts host.now }
    {
        self.hosts.contains(host)
    }

    /// Whether the other is the same host group: of the same tenant, with the same hosts. It takes no
    /// memory.
    pub fn is_same(&self, other: &Self) -> bool
        ensures { IsTrue result ↔ (self.now ≡ other.now) }
    {
        self.tenant == other.tenant && are_same_names(&self.hosts, &other.hosts)
    }

    /// Its hosts, in the order of their names.
    pub fn hosts(&self) -> Iter<'_, Name>
        ensures hosts { set.from_list result ≡ self.now.hosts }
        ensures ordered { IsStrictlySortedBy name_cmp result }
    {
        self.hosts.iter()
    }

    /// Whether there is no host.
    pub fn is_bare(&self) -> bool
        ensures { IsTrue result ↔ ((host : List ℕ) → set.contains self.now.hosts host ≡ false) }
    {
        self.hosts.is_empty()
    }

    /// Sets whose it is.
    pub fn set_tenant(&mut self, tenant: Name)
        ensures { self.new ≡ record self.old { tenant = tenant } }
    {
        self.tenant = tenant;
    }

    /// Puts a host in, if it is not there. Nothing is tested.
    ///
    /// # Errors
    /// `AllocError` where there is no memory. It is then as it was.
    pub fn put_host(&mut self, host: Name) -> Result<(), AllocError>
        ensures ok { OnOk result (self.new ≡ record self.old { hosts = set.insert self.old.hosts host }) }
        ensures err { OnErr result (self.new ≡ self.old) }
    {
        self.hosts.insert(host)?;
        Ok(())
    }

    /// Takes a host out, if it is there. It may be the last one.
    pub fn take_host(&mut self, host: &Name)
        ensures { self.new ≡ record self.old { hosts = set.remove self.old.hosts host.now } }
    {
        self.hosts.remove(host);
    }

    /// Whether there is a host, and there are no more than there may be.
    pub fn is_sound(&self) -> bool
        ensures { IsTrue result ↔ IsSoundHostGroup self.now }
    {
        let count = self.hosts.len();
        0 < count && count <= MOST_HOSTS
    }
}

impl<A: Allocator + Copy> Clone for HostGroup<A> {
    ghost is_clone = { λ x y. y ≡ x };

    fn clone(&self) -> Result<Self, AllocError> {
        Ok(HostGroup {
            tenant: self.tenant,
            hosts: self.hosts.clone()?,
        })
    }
}
