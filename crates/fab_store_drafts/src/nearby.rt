//! Which storage groups serve a host that one serves.
ghost use Rattle.std.specs.Prelude.{◌≡◌, ◌↔◌, ℕ, List, true, OnOk, IfOk};
ghost use Rattle.std.specs.BTreeSet.{contains};
ghost use Rattle.fab_reach_base.specs.fab_lemmas.Adding.{Adds};
ghost use Rattle.fab_reach_base.specs.fab_names.Orders.{name_cmp};
ghost use Rattle.fab_store_drafts.specs.Inner.Nearby.{SharesHost, SharesHostOf, IsNear, ServesOne, IsBeside};

use crate::users::Users;
use crate::uses::Used;
use fab_reach_base::mapping::{HostGroup, Mapping, StorageGroup};
use fab_reach_base::names::Name;
use std::alloc::{AllocError, Allocator};
use std::collections::BTreeSet;

/// Adds the host groups that have a host of this one.
fn add_sharing<A: Allocator + Copy>(
    near: &mut BTreeSet<Name, A>,
    users: &Users<A>,
    hosts: &HostGroup<A>,
) -> Result<(), AllocError>
    ensures { OnOk result (Adds (SharesHost users.now hosts.now) (contains name_cmp near.old) (contains name_cmp near.new)) }
{
    for host in hosts.hosts() {
        users.add_to(near, &Used::Host(*host))?;
    }
    Ok(())
}

/// Adds the host groups that have a host of the host group of this name.
fn add_sharing_of<A: Allocator + Copy>(
    near: &mut BTreeSet<Name, A>,
    mapping: &Mapping<A>,
    users: &Users<A>,
    name: &Name,
) -> Result<(), AllocError>
    ensures { OnOk result (Adds (SharesHostOf mapping.now users.now name.now) (contains name_cmp near.old) (contains name_cmp near.new)) }
{
    match mapping.host_group(name) {
        Some(hosts) => add_sharing(near, users, hosts),
        None => Ok(()),
    }
}

/// Adds the host groups that have a host which the storage group serves.
fn add_near<A: Allocator + Copy>(
    near: &mut BTreeSet<Name, A>,
    mapping: &Mapping<A>,
    users: &Users<A>,
    group: &StorageGroup<A>,
) -> Result<(), AllocError>
    ensures { OnOk result (Adds (IsNear mapping.now users.now group.now) (contains name_cmp near.old) (contains name_cmp near.new)) }
{
    for name in group.host_groups() {
        add_sharing_of(near, mapping, users, name)?;
    }
    Ok(())
}

/// Adds the storage groups that serve one of the host groups.
fn add_serving<A: Allocator + Copy>(
    serving: &mut BTreeSet<Name, A>,
    users: &Users<A>,
    near: &BTreeSet<Name, A>,
) -> Result<(), AllocError>
    ensures { OnOk result (Adds (ServesOne users.now near.now) (contains name_cmp serving.old) (contains name_cmp serving.new)) }
{
    for hosts in near {
        users.add_to(serving, &Used::HostGroup(*hosts))?;
    }
    Ok(())
}

/// The storage groups that serve a host which this one serves, each once.
///
/// # Errors
/// `AllocError` where there is no memory.
pub fn beside<A: Allocator + Copy>(
    alloc: A,
    mapping: &Mapping<A>,
    users: &Users<A>,
    group: &StorageGroup<A>,
) -> Result<BTreeSet<Name, A>, AllocError>
    ensures { IfOk result (λ names. (n : List ℕ) → (contains name_cmp names n ≡ true) ↔ IsBeside mapping.now users.now group.now n) }
{
    let mut near = BTreeSet::new(alloc);
    add_near(&mut near, mapping, users, group)?;
    let mut serving = BTreeSet::new(alloc);
    add_serving(&mut serving, users, &near)?;
    Ok(serving)
}
