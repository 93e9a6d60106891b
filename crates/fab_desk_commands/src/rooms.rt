//! Places of plans, and of names in an order: made before a plan comes, or is activated, so that it
//! needs no memory then.
ghost use Rattle.std.specs.Prelude.{◌≡◌, ◌++◌, [], ◌∷◌, OnOk, OnErr, IsSome};
ghost use Rattle.std.specs.BTreeMap.{get};
ghost use Rattle.std.specs.FinMap as map;
ghost use Rattle.fab_reach_base.specs.fab_names.Orders.{name_cmp};
ghost use Rattle.fab_desk_commands.specs.Nexts.{all_but_last, blank_plan};

use fab_reach_base::names::Name;
use fab_world::plans::{PlanText, Staged};
use fab_world::{AnyPlan, KeptPlan};
use std::alloc::{AllocError, Allocator};
use std::collections::BTreeMap;

/// A plan without steps, which keeps a place. It takes no memory.
pub fn blank<A: Allocator + Copy>(alloc: A, author: Name) -> KeptPlan<A>
    ensures { result ≡ blank_plan author }
{
    KeptPlan {
        inner: AnyPlan::Staged(Staged::new(alloc, author, PlanText::blank(alloc))),
    }
}

/// Makes a place for a plan: a blank one stands under its name.
///
/// # Errors
/// `AllocError` where there is no memory: the plans are as they were.
pub fn make_place<A: Allocator + Copy>(
    alloc: A,
    plans: &mut BTreeMap<Name, KeptPlan<A>, A>,
    name: Name,
) -> Result<(), AllocError>
    ensures ok { OnOk result (map.from_entries {R = name_cmp} plans.new.entries ≡ map.insert (map.from_entries {R = name_cmp} plans.old.entries) name (blank_plan name)) }
    ensures err { OnErr result (map.from_entries {R = name_cmp} plans.new.entries ≡ map.from_entries {R = name_cmp} plans.old.entries) }
{
    let _former = plans.insert(name, blank(alloc, name))?;
    Ok(())
}

/// Takes the place of a plan away, with what stands there. It takes no memory.
pub fn remove_place<A: Allocator + Copy>(plans: &mut BTreeMap<Name, KeptPlan<A>, A>, name: &Name)
    ensures { map.from_entries {R = name_cmp} plans.new.entries ≡ map.remove (map.from_entries {R = name_cmp} plans.old.entries) name.now }
{
    plans.remove(name);
}

/// Puts a plan in its place, which is there. It takes no memory.
pub fn put_in_place<A: Allocator + Copy>(
    plans: &mut BTreeMap<Name, KeptPlan<A>, A>,
    name: &Name,
    plan: KeptPlan<A>,
)
    requires { IsSome (get name_cmp plans.old name.now) }
    ensures { map.from_entries {R = name_cmp} plans.new.entries ≡ map.insert (map.from_entries {R = name_cmp} plans.old.entries) name.now plan }
{
    if let Some(place) = plans.get_mut(name) {
        *place = plan;
    }
}

/// Puts a name behind those of an order.
///
/// # Errors
/// `AllocError` where there is no memory: the order is as it was.
pub fn push_last<A: Allocator + Copy>(
    order: &mut Vec<Name, A>,
    name: Name,
) -> Result<(), AllocError>
    ensures ok { OnOk result (order.new.items ≡ order.old.items ++ name ∷ []) }
    ensures err { OnErr result (order.new.items ≡ order.old.items) }
{
    order.push(name)?;
    Ok(())
}

/// Takes the last name of an order away, if there is one. It takes no memory.
pub fn pop_last<A: Allocator + Copy>(order: &mut Vec<Name, A>)
    ensures { order.new.items ≡ all_but_last order.old.items }
{
    let _last = order.pop();
}
