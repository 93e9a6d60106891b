//! The storage groups by which a host is offered a volume, and the logical unit numbers.
ghost use Rattle.std.specs.Prelude.{◌≡◌, ◌↔◌, true, IsTrue, OnOk, IfOk};
ghost use Rattle.std.specs.Ordering.{nat_cmp};
ghost use Rattle.fab_desk_base.specs.Tenants.{Has};
ghost use Rattle.fab_reach_base.specs.fab_lemmas.Lists.{IsListOf};
ghost use Rattle.fab_looks_ways.specs.Inner.Offers.{HasUnit, IsOfferOf};
ghost use Rattle.fab_looks_ways.specs.Offers.{IsOffer, IsUnitAt, IsUnitOf, IsUnitOfSome};
ghost use Rattle.fab_reach_base.specs.fab_names.Orders.{name_cmp};
ghost use Rattle.fab_reach_base.specs.Adding.{Adds};
ghost use Rattle.fab_reach_base.specs.Gathering.{Serves};

use fab_looks::serves;
use fab_reach_base::lemmas::keys_listed;
use fab_reach_base::mapping::{Mapping, StorageGroup};
use fab_reach_base::names::Name;
use std::alloc::{AllocError, Allocator};
use std::collections::BTreeSet;

/// Whether the storage group is exposed and serves the host.
fn offers<A: Allocator + Copy>(mapping: &Mapping<A>, group: &StorageGroup<A>, host: &Name) -> bool
    ensures { IsTrue result ↔ ((group.now.exposed ≡ true) × Serves mapping.now group.now host.now) }
{
    if !group.is_exposed() {
        return false;
    }
    serves(mapping, group, host)
}

/// The same of the storage group of this name.
fn is_offer<A: Allocator + Copy>(mapping: &Mapping<A>, host: &Name, name: &Name) -> bool
    ensures { IsTrue result ↔ IsOffer mapping.now host.now name.now }
{
    match mapping.group(name) {
        Some(group) => offers(mapping, group, host),
        None => false,
    }
}

/// Adds those of the storage groups that are exposed and serve the host.
fn add_offers<A: Allocator + Copy>(
    offers: &mut BTreeSet<Name, A>,
    mapping: &Mapping<A>,
    names: &BTreeSet<Name, A>,
    host: &Name,
) -> Result<(), AllocError>
    ensures { OnOk result (Adds (IsOfferOf mapping.now names.now host.now) (Has offers.old) (Has offers.new)) }
{
    for name in names {
        if is_offer(mapping, host, name) {
            offers.insert(*name)?;
        }
    }
    Ok(())
}

/// Those of the storage groups that are exposed and serve the host, in order.
///
/// # Errors
/// `AllocError` where there is no memory.
pub fn offers_of<A: Allocator + Copy>(
    alloc: A,
    mapping: &Mapping<A>,
    names: &BTreeSet<Name, A>,
    host: &Name,
) -> Result<Vec<Name, A>, AllocError>
    ensures { IfOk result (λ offers. IsListOf name_cmp (IsOfferOf mapping.now names.now host.now) offers.items) }
{
    let mut offers = BTreeSet::new(alloc);
    add_offers(&mut offers, mapping, names, host)?;
    let _count = offers.len();
    let items = keys_listed(alloc, &offers)?;
    Ok(items)
}

/// Adds the logical unit numbers at which the storage group maps the volume.
fn add_units<A: Allocator + Copy>(
    units: &mut BTreeSet<u16, A>,
    group: &StorageGroup<A>,
    volume: &Name,
) -> Result<(), AllocError>
    ensures { OnOk result (Adds (IsUnitOf group.now volume.now) (HasUnit units.old) (HasUnit units.new)) }
{
    for (unit, there) in group.units() {
        if *there == *volume {
            units.insert(*unit)?;
        }
    }
    Ok(())
}

/// Adds those of the storage group of this name.
fn add_named<A: Allocator + Copy>(
    units: &mut BTreeSet<u16, A>,
    mapping: &Mapping<A>,
    volume: &Name,
    name: &Name,
) -> Result<(), AllocError>
    ensures { OnOk result (Adds (IsUnitAt mapping.now volume.now name.now) (HasUnit units.old) (HasUnit units.new)) }
{
    let Some(group) = mapping.group(name) else {
        return Ok(());
    };
    add_units(units, group, volume)?;
    Ok(())
}

/// Adds those of the storage groups of these names.
fn add_all_named<A: Allocator + Copy>(
    units: &mut BTreeSet<u16, A>,
    mapping: &Mapping<A>,
    volume: &Name,
    names: &[Name],
) -> Result<(), AllocError>
    ensures { OnOk result (Adds (IsUnitOfSome mapping.now volume.now names.now) (HasUnit units.old) (HasUnit units.new)) }
{
    for name in names {
        add_named(units, mapping, volume, name)?;
    }
    Ok(())
}

/// The logical unit numbers at which the storage groups of these names map the volume, in order.
///
/// # Errors
/// `AllocError` where there is no memory.
pub fn units_of<A: Allocator + Copy>(
    alloc: A,
    mapping: &Mapping<A>,
    volume: &Name,
    names: &[Name],
) -> Result<Vec<u16, A>, AllocError>
    ensures { IfOk result (λ units. IsListOf nat_cmp (IsUnitOfSome mapping.now volume.now names.now) units.items) }
{
    let mut units = BTreeSet::new(alloc);
    add_all_named(&mut units, mapping, volume, names)?;
    let _count = units.len();
    let items = keys_listed(alloc, &units)?;
    Ok(items)
}
