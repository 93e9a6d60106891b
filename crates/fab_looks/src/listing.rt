//! Lists of names.
ghost use Rattle.std.specs.Prelude.{◌≡◌, ◌↔◌, ℕ, List, Contains, IfOk};
ghost use Rattle.std.specs.Map.{keys_of};
ghost use Rattle.fab_desk_base.specs.Showing.{IsOpenTo};
ghost use Rattle.fab_desk_base.specs.Tenants.{Has};
ghost use Rattle.fab_looks.specs.Lists as lists;
ghost use Rattle.fab_looks.specs.Lists.{IsListing};

use crate::entries::{
    aliases_of, groups_of, holders_of, host_groups_of, plans_of, sets_of, volumes_of, zones_of,
};
use fab_desk_base::{Query, is_open_to};
use fab_policy::{CallerId, Policy};
use fab_reach_base::inventory::HolderKind;
use fab_reach_base::names::{Fabric, Name};
use fab_world::World;
use std::alloc::{AllocError, Allocator};
use std::collections::BTreeSet;
use std::collections::btree_map::Iter;

/// What names are listed of.
#[derive(Clone, Copy)]
pub enum Kind {
    /// Those hosts whose tenant is one of the caller's.
    Hosts,
    /// Those arrays whose tenant is one of the caller's.
    Arrays,
    /// Those volumes whose tenant is one of the caller's.
    Volumes,
    /// Those host groups whose tenant is one of the caller's.
    HostGroups,
    /// Those storage groups whose tenant is one of the caller's.
    Groups,
    /// All plans, in whatever state.
    Plans,
    /// All aliases of a fabric.
    Aliases(Fabric),
    /// All zones of a fabric.
    Zones(Fabric),
    /// All zone sets of a fabric.
    Sets(Fabric),
}

/// The read of one name of the kind.
pub fn query_of(kind: Kind, name: Name) -> Query
    ensures { result ≡ lists.query_of kind name }
{
    match kind {
        Kind::Hosts => Query::Holder {
            kind: HolderKind::Host,
            name,
        },
        Kind::Arrays => Query::Holder {
            kind: HolderKind::Array,
            name,
        },
        Kind::Volumes => Query::Volume { name },
        Kind::HostGroups => Query::HostGroup { name },
        Kind::Groups => Query::Group { name },
        Kind::Plans => Query::Plan { name },
        Kind::Aliases(fabric) => Query::Alias { fabric, name },
        Kind::Zones(fabric) => Query::Zone { fabric, name },
        Kind::Sets(fabric) => Query::Set { fabric, name },
    }
}

/// Those of the names that are gone through whose read is open to the caller.
fn open_names<V, A: Allocator + Copy>(
    alloc: A,
    policy: &Policy,
    world: &World<A>,
    id: CallerId,
    kind: Kind,
    entries: Iter<'_, Name, V>,
) -> Result<BTreeSet<Name, A>, AllocError>
    ensures { IfOk result (λ names. (n : List ℕ) → Has names n ↔ (Contains (keys_of entries.entry) n × IsOpenTo policy.now world.now id (lists.query_of kind n))) }
{
    let mut names = BTreeSet::new(alloc);
    for (name, _value) in entries {
        if is_open_to(policy, world, id, &query_of(kind, *name)) {
            names.insert(*name)?;
        }
    }
    Ok(names)
}

/// The names of a kind whose read is open to the caller, in order: of hosts, arrays, volumes, host
/// groups and storage groups those of its tenants, and all names of the other kinds.
///
/// It goes once through all names of the kind.
///
/// # Errors
/// `AllocError` where there is no memory.
pub fn list<A: Allocator + Copy>(
    alloc: A,
    policy: &Policy,
    world: &World<A>,
    id: CallerId,
    kind: Kind,
) -> Result<BTreeSet<Name, A>, AllocError>
    ensures { IfOk result (IsListing policy.now world.now id kind) }
{
    match kind {
        Kind::Hosts => open_names(alloc, policy, world, id, kind, holders_of(world)),
        Kind::Arrays => open_names(alloc, policy, world, id, kind, holders_of(world)),
        Kind::Volumes => open_names(alloc, policy, world, id, kind, volumes_of(world)),
        Kind::HostGroups => open_names(alloc, policy, world, id, kind, host_groups_of(world)),
        Kind::Groups => open_names(alloc, policy, world, id, kind, groups_of(world)),
        Kind::Plans => open_names(alloc, policy, world, id, kind, plans_of(world)),
        Kind::Aliases(fabric) => {
            open_names(alloc, policy, world, id, kind, aliases_of(world, fabric))
        }
        Kind::Zones(fabric) => open_names(alloc, policy, world, id, kind, zones_of(world, fabric)),
        Kind::Sets(fabric) => open_names(alloc, policy, world, id, kind, sets_of(world, fabric)),
    }
}
