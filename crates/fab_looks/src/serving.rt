//! Which exposed storage groups map a volume to each host.
ghost use Rattle.std.specs.Prelude.{◌≡◌, ℕ, List, map, Some, true, IsTrue, OnOk, IfOk};
ghost use Rattle.std.specs.BTreeSet.{contains};
ghost use Rattle.std.specs.FinMap as map;
ghost use Rattle.std.specs.FinSet as set;
ghost use Rattle.fab_names.specs.Orders.{name_cmp};
ghost use Rattle.fab_reach_base.specs.Adding.{Adds};
ghost use Rattle.fab_reach_base.specs.Gathering.{Lists, Serves};
ghost use Rattle.fab_looks.specs.Inner.Offers.{AreJust};
ghost use Rattle.fab_looks.specs.Inner.Serving.{ByGroup, IsNamedBy, IsIndexTo};

use fab_mapping::{Mapping, StorageGroup};
use fab_names::Name;
use fab_reach_base::serve_group;
use std::alloc::{AllocError, Allocator};
use std::collections::{BTreeMap, BTreeSet};

/// Puts the storage group under each host that it serves, if it is exposed and maps the volume.
fn serve_volume<A: Allocator + Copy>(
    alloc: A,
    served: &mut BTreeMap<Name, BTreeSet<Name, A>, A>,
    mapping: &Mapping<A>,
    name: Name,
    group: &StorageGroup<A>,
    volume: &Name,
) -> Result<(), AllocError>
    ensures { OnOk result (Adds (ByGroup mapping.now volume.now (name, group.now)) (Lists served.old) (Lists served.new)) }
{
    if group.is_exposed() && group.has_volume(volume) {
        serve_group(alloc, served, mapping, name, group)?;
    }
    Ok(())
}

/// The hosts that exposed storage groups with the volume serve, each with the names of these. It
/// walks once through all storage groups, and through the host groups of those alone.
pub fn served_hosts<A: Allocator + Copy>(
    alloc: A,
    mapping: &Mapping<A>,
    volume: &Name,
) -> Result<BTreeMap<Name, BTreeSet<Name, A>, A>, AllocError>
    ensures { IfOk result (IsIndexTo mapping.now volume.now) }
{
    let mut served = BTreeMap::new(alloc);
    for (name, group) in mapping.groups() {
        serve_volume(alloc, &mut served, mapping, *name, group, volume)?;
    }
    Ok(served)
}

/// The storage groups of these names.
pub fn named_groups<'a, A: Allocator + Copy>(
    alloc: A,
    mapping: &'a Mapping<A>,
    names: &BTreeSet<Name, A>,
) -> Result<Vec<&'a StorageGroup<A>, A>, AllocError>
    ensures { IfOk result (λ groups. AreJust (IsNamedBy mapping.now names.now) (map (λ r. r.now) groups.items)) }
{
    let mut groups = Vec::new(alloc);
    for name in names {
        if let Some(group) = mapping.group(name) {
            groups.push(group)?;
        }
    }
    Ok(groups)
}
