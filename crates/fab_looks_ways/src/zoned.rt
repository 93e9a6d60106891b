//! The zones that a port is in.
ghost use Rattle.std.specs.Prelude.{◌≡◌, ◌↔◌, ℕ, List, true, OnOk, IfOk};
ghost use Rattle.std.specs.Option.{option_copied};
ghost use Rattle.fab_desk_base.specs.Tenants.{Has};
ghost use Rattle.fab_reach_base.specs.fab_lemmas.MapsOfSets.{in_tree};
ghost use Rattle.fab_looks_ways.specs.Pairs as pairs;
ghost use Rattle.fab_looks_ways.specs.Pairs.{AreZonesOf};
ghost use Rattle.fab_reach_base.specs.fab_names.Orders.{name_cmp};
ghost use Rattle.fab_reach_base.specs.Adding.{Adds};
ghost use Rattle.fab_reach_base.specs.Records.{zoning_at};
ghost use Rattle.fab_reach_base.specs.fab_zoning_rows.PortZones.{in_zones};

use fab_reach_base::inventory::Port;
use fab_reach_base::lemmas::keys_listed;
use fab_reach_base::names::{Fabric, Name};
use fab_reach_base::zoning::rows::PortZones;
use fab_world::World;
use std::alloc::{AllocError, Allocator};
use std::collections::BTreeSet;

/// The zones that a port is in: a single one by its name, and many as a number.
#[derive(Clone, Copy)]
pub enum Zoned {
    /// In none.
    Nowhere,
    /// In this one alone.
    One(Name),
    /// In so many, more than one.
    Many(usize),
}

/// Adds all names of a set.
fn add_all<A: Allocator + Copy>(
    names: &mut BTreeSet<Name, A>,
    more: &BTreeSet<Name, A>,
) -> Result<(), AllocError>
    ensures { OnOk result (Adds (Has more.now) (Has names.old) (Has names.new)) }
{
    for name in more {
        names.insert(*name)?;
    }
    Ok(())
}

/// Adds all names of a set, if there is one.
fn add_those<A: Allocator + Copy>(
    names: &mut BTreeSet<Name, A>,
    more: Option<&BTreeSet<Name, A>>,
) -> Result<(), AllocError>
    ensures { OnOk result (Adds (λ z. in_tree name_cmp (option_copied more.entry) z ≡ true) (Has names.old) (Has names.new)) }
{
    match more {
        Some(more) => add_all(names, more),
        None => Ok(()),
    }
}

/// The names of the zones of a port.
fn names_of<A: Allocator + Copy>(
    alloc: A,
    zones: &PortZones<'_, A>,
) -> Result<BTreeSet<Name, A>, AllocError>
    ensures { IfOk result (λ names. (z : List ℕ) → Has names z ↔ (in_zones zones.now z ≡ true)) }
{
    let mut names = BTreeSet::new(alloc);
    add_those(&mut names, zones.by_port)?;
    add_those(&mut names, zones.by_node)?;
    add_those(&mut names, zones.by_place)?;
    add_those(&mut names, zones.by_address)?;
    Ok(names)
}

/// Names as they are told.
fn told_as(names: &[Name]) -> Zoned
    ensures { result ≡ pairs.told_as names.now }
{
    match names {
        [] => Zoned::Nowhere,
        [zone] => Zoned::One(*zone),
        [_, _, ..] => Zoned::Many(names.len()),
    }
}

/// The zones of the fabric that have the port, as they are told.
///
/// # Errors
/// `AllocError` where there is no memory.
pub fn zoned_at<A: Allocator + Copy>(
    alloc: A,
    world: &World<A>,
    fabric: Fabric,
    port: &Port,
) -> Result<Zoned, AllocError>
    ensures { IfOk result (AreZonesOf (zoning_at world.now.config fabric) port.now) }
{
    let zones = world.config.zoning(fabric).zones_of(port);
    let names = names_of(alloc, &zones)?;
    let _count = names.len();
    let items = keys_listed(alloc, &names)?;
    Ok(told_as(&items))
}
