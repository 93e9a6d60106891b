//! What sets and maps have, listed in their order.
ghost use Rattle.std.specs.Prelude.{◌≡◌, IfOk};
ghost use Rattle.std.specs.FinMap as fin;
ghost use Rattle.fab_reach_base.specs.fab_names.Orders.{name_cmp};
ghost use Rattle.fab_desk_base.specs.Showing.{AreEntries};

use fab_policy::Approval;
use fab_reach_base::names::{Name, Wwn};
use std::alloc::{AllocError, Allocator};
use std::collections::{BTreeMap, btree_map, btree_set};

/// The names that are gone through.
pub fn names_listed<A: Allocator + Copy>(
    alloc: A,
    names: btree_set::Iter<'_, Name>,
) -> Result<Vec<Name, A>, AllocError>
    ensures { IfOk result (λ items. items.items ≡ names.entry) }
{
    names.copied().collect(alloc)
}

/// The ports that are gone through.
pub fn ports_listed<A: Allocator + Copy>(
    alloc: A,
    ports: btree_set::Iter<'_, Wwn>,
) -> Result<Vec<Wwn, A>, AllocError>
    ensures { IfOk result (λ items. items.items ≡ ports.entry) }
{
    ports.copied().collect(alloc)
}

/// The volumes by logical unit number that are gone through.
pub fn units_listed<A: Allocator + Copy>(
    alloc: A,
    units: btree_map::Iter<'_, u16, Name>,
) -> Result<Vec<(u16, Name), A>, AllocError>
    ensures { IfOk result (λ items. items.items ≡ units.entry) }
{
    let mut items = Vec::new(alloc);
    for (unit, volume) in units {
        items.push((*unit, *volume))?;
    }
    Ok(items)
}

/// The approvals of a plan, by the names of the callers.
pub fn approvals_listed<A: Allocator + Copy>(
    alloc: A,
    approvals: &BTreeMap<Name, u64, A>,
) -> Result<Vec<Approval, A>, AllocError>
    ensures { IfOk result (λ items. AreEntries (fin.entries (fin.from_entries {R = name_cmp} approvals.now.entries)) items.items) }
{
    let _count = approvals.len();
    let mut items = Vec::new(alloc);
    for (caller, revision) in approvals {
        items.push(Approval {
            caller: *caller,
            revision: *revision,
        })?;
    }
    Ok(items)
}
