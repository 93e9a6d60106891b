//! Looks at a port, and at the ports of a holder.
ghost use Rattle.std.specs.Prelude.{OnOk};
ghost use Rattle.fab_reach_base.specs.Adding.{Adds};
ghost use Rattle.fab_reach_books.specs.Inner.Sets.{HasPortIn};
ghost use Rattle.fab_reach_index.specs.Inner.Holding.{HoldsIn};

use fab_names::{Name, Wwn};
use std::alloc::{AllocError, Allocator};
use std::collections::{BTreeMap, BTreeSet};

/// Adds the ports of a set.
pub fn add_all<A: Allocator + Copy>(
    ports: &mut BTreeSet<Wwn, A>,
    these: &BTreeSet<Wwn, A>,
) -> Result<(), AllocError>
    ensures { OnOk result (Adds (HasPortIn these.now) (HasPortIn ports.old) (HasPortIn ports.new)) }
{
    for port in these {
        ports.insert(*port)?;
    }
    Ok(())
}

/// Adds the ports that the holder holds.
pub fn add_held<A: Allocator + Copy>(
    ports: &mut BTreeSet<Wwn, A>,
    held: &BTreeMap<Name, BTreeSet<Wwn, A>, A>,
    holder: &Name,
) -> Result<(), AllocError>
    ensures { OnOk result (Adds (HoldsIn held.now holder.now) (HasPortIn ports.old) (HasPortIn ports.new)) }
{
    match held.get(holder) {
        Some(these) => add_all(ports, these),
        None => Ok(()),
    }
}
