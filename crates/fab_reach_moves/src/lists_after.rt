//! Lists of the world after a step, by the world before it and the difference: the parts of a group, and
//! the ports of a holder.
ghost use Rattle.std.specs.Prelude.{◌≡◌, ◌↔◌, ℕ, List, Contains, true, false, OnOk, IfOk};
ghost use Rattle.std.specs.FinSet as set;
ghost use Rattle.std.specs.Option.{option_copied};
ghost use Rattle.std.specs.Ordering.{nat_cmp};
ghost use Rattle.fab_lemmas.specs.MapsOfSets.{in_tree};
ghost use Rattle.fab_names.specs.Orders.{name_cmp};
ghost use Rattle.fab_reach_base.specs.Adding.{Adds};
ghost use Rattle.fab_reach_base.specs.Records.{Records};
ghost use Rattle.fab_reach_base.specs.Views.{seen};
ghost use Rattle.fab_reach_books.specs.Inner.Sets.{HasName, HasPortIn};
ghost use Rattle.fab_reach_books.specs.Rows.{Stands};
ghost use Rattle.fab_reach_books.specs.declared.row.Row.{Row};
ghost use Rattle.fab_reach_index.specs.Indexes.{IsHeldBy, IsIndexOf};
ghost use Rattle.fab_reach_index.specs.Inner.Holding.{HoldsIn};
ghost use Rattle.fab_reach_moves.specs.Inner.Listing.{IsHostOf, name_row, target_row, NamesNoPort};
ghost use Rattle.fab_reach_moves.specs.declared.lists_after.Listed.TheVariants.{Hosts};
ghost use Rattle.fab_reach_moves.specs.Inner.Telling.{IsSideOf, IsTold};

use crate::after::said_port;
use crate::groups::add_names;
use crate::told::{Side, Told};
use fab_mapping::{HostGroup, StorageGroup};
use fab_names::{Name, Wwn};
use fab_reach_base::View;
use fab_reach_index::{Index, add_all, add_held};
use std::alloc::{AllocError, Allocator};
use std::collections::{BTreeMap, BTreeSet};

/// Names that rows say.
#[derive(Clone, Copy, Drop)]
pub enum Listed {
    /// The host groups of the storage group of this name.
    HostGroups(Name),
    /// The hosts of the host group of this name.
    Hosts(Name),
}

/// The names that the rows say, if they say some.
fn said_names<'a, A: Allocator + Copy>(
    side: &'a Side<A>,
    listed: &Listed,
) -> Option<&'a BTreeSet<Name, A>>
    ensures { (rows : List Row) → IsSideOf rows side.now → (x : List ℕ) → (in_tree name_cmp (option_copied result) x ≡ true) ↔ Contains rows (name_row listed.now x) }
{
    match listed {
        Listed::HostGroups(name) => side.host_groups.get(name),
        Listed::Hosts(name) => side.hosts.get(name),
    }
}

/// Whether the name is among these, if there are any.
fn has_name<A: Allocator + Copy>(names: Option<&BTreeSet<Name, A>>, name: &Name) -> bool
    ensures { result ≡ in_tree name_cmp (option_copied names.entry) name.now }
{
    match names {
        Some(names) => names.contains(name),
        None => false,
    }
}

/// Adds the name, unless it is gone.
fn add_unless_gone<A: Allocator + Copy>(
    names: &mut BTreeSet<Name, A>,
    gone: Option<&BTreeSet<Name, A>>,
    name: &Name,
) -> Result<(), AllocError>
    ensures { OnOk result (Adds (λ x. (x ≡ name.now) × (in_tree name_cmp (option_copied gone.entry) x ≡ false)) (HasName names.old) (HasName names.new)) }
{
    if !has_name(gone, name) {
        names.insert(*name)?;
    }
    Ok(())
}

/// Adds the host groups of a storage group, but for those that are gone.
fn add_host_groups_but<A: Allocator + Copy>(
    names: &mut BTreeSet<Name, A>,
    gone: Option<&BTreeSet<Name, A>>,
    group: &StorageGroup<A>,
) -> Result<(), AllocError>
    ensures { OnOk result (Adds (λ x. (set.contains group.now.host_groups x ≡ true) × (in_tree name_cmp (option_copied gone.entry) x ≡ false)) (HasName names.old) (HasName names.new)) }
{
    for name in group.host_groups() {
        add_unless_gone(names, gone, name)?;
    }
    Ok(())
}

/// Adds the hosts of a host group, but for those that are gone.
fn add_hosts_but<A: Allocator + Copy>(
    names: &mut BTreeSet<Name, A>,
    gone: Option<&BTreeSet<Name, A>>,
    group: &HostGroup<A>,
) -> Result<(), AllocError>
    ensures { OnOk result (Adds (λ x. (set.contains group.now.hosts x ≡ true) × (in_tree name_cmp (option_copied gone.entry) x ≡ false)) (HasName names.old) (HasName names.new)) }
{
    for name in group.hosts() {
        add_unless_gone(names, gone, name)?;
    }
    Ok(())
}

/// Adds the names that were listed before the step, but for those that are gone.
fn add_listed_but<A: Allocator + Copy>(
    names: &mut BTreeSet<Name, A>,
    gone: Option<&BTreeSet<Name, A>>,
    before: &View<'_, A>,
    listed: &Listed,
) -> Result<(), AllocError>
    ensures { OnOk result (Adds (λ x. Stands (seen before.now) (name_row listed.now x) × (in_tree name_cmp (option_copied gone.entry) x ≡ false)) (HasName names.old) (HasName names.new)) }
{
    match listed {
        Listed::HostGroups(name) => {
            if let Some(group) = before.config.mapping().group(name) {
                add_host_groups_but(names, gone, group)?;
            }
            Ok(())
        }
        Listed::Hosts(name) => {
            if let Some(group) = before.config.mapping().host_group(name) {
                add_hosts_but(names, gone, group)?;
            }
            Ok(())
        }
    }
}

/// Adds the names, if there are any.
fn add_some_names<A: Allocator + Copy>(
    names: &mut BTreeSet<Name, A>,
    these: Option<&BTreeSet<Name, A>>,
) -> Result<(), AllocError>
    ensures { OnOk result (Adds (λ x. in_tree name_cmp (option_copied these.entry) x ≡ true) (HasName names.old) (HasName names.new)) }
{
    if let Some(these) = these {
        add_names(names, these)?;
    }
    Ok(())
}

/// Adds the names that are listed after the step.
///
/// # Errors
/// `AllocError` where there is no memory: some may have been added.
fn add_listed_after<A: Allocator + Copy>(
    names: &mut BTreeSet<Name, A>,
    before: &View<'_, A>,
    told: &Told<A>,
    listed: &Listed,
) -> Result<(), AllocError>
    ensures { (v : Records) → IsTold (seen before.now) v told.now
        → OnOk result (Adds (λ x. Stands v (name_row listed.now x)) (HasName names.old) (HasName names.new)) }
{
    let gone = said_names(&told.gone, listed);
    add_listed_but(names, gone, before, listed)?;
    let come = said_names(&told.come, listed);
    add_some_names(names, come)?;
    Ok(())
}

/// The names that are listed after the step.
///
/// # Errors
/// `AllocError` where there is no memory.
fn listed_after<A: Allocator + Copy>(
    alloc: A,
    before: &View<'_, A>,
    told: &Told<A>,
    listed: &Listed,
) -> Result<BTreeSet<Name, A>, AllocError>
    ensures { (v : Records) → IsTold (seen before.now) v told.now
        → IfOk result (λ names. (x : List ℕ) → HasName names x ↔ Stands v (name_row listed.now x)) }
{
    let mut names = BTreeSet::new(alloc);
    add_listed_after(&mut names, before, told, listed)?;
    Ok(names)
}

/// Adds the hosts that the host groups have after the step.
fn add_hosts_after<A: Allocator + Copy>(
    hosts: &mut BTreeSet<Name, A>,
    before: &View<'_, A>,
    told: &Told<A>,
    groups: &BTreeSet<Name, A>,
) -> Result<(), AllocError>
    ensures { (v : Records) → IsTold (seen before.now) v told.now
        → OnOk result (Adds (λ h. (k : List ℕ) × HasName groups.now k × Stands v (name_row (Hosts k) h)) (HasName hosts.old) (HasName hosts.new)) }
{
    for name in groups {
        add_listed_after(hosts, before, told, &Listed::Hosts(*name))?;
    }
    Ok(())
}

/// The hosts that the storage group serves after the step.
///
/// # Errors
/// `AllocError` where there is no memory.
pub fn hosts_after<A: Allocator + Copy>(
    alloc: A,
    before: &View<'_, A>,
    told: &Told<A>,
    name: &Name,
) -> Result<BTreeSet<Name, A>, AllocError>
    ensures { (v : Records) → IsTold (seen before.now) v told.now
        → IfOk result (λ hosts. (h : List ℕ) → HasName hosts h ↔ IsHostOf v name.now h) }
{
    let groups = listed_after(alloc, before, told, &Listed::HostGroups(*name))?;
    let mut hosts = BTreeSet::new(alloc);
    add_hosts_after(&mut hosts, before, told, &groups)?;
    Ok(hosts)
}

/// Adds the names that were listed before the step.
fn add_listed_before<A: Allocator + Copy>(
    alloc: A,
    names: &mut BTreeSet<Name, A>,
    before: &View<'_, A>,
    listed: &Listed,
) -> Result<(), AllocError>
    ensures { OnOk result (Adds (λ x. Stands (seen before.now) (name_row listed.now x)) (HasName names.old) (HasName names.new)) }
{
    let none = BTreeSet::new(alloc);
    add_listed_but(names, Some(&none), before, listed)?;
    Ok(())
}

/// The names that were listed before the step.
fn listed_before<A: Allocator + Copy>(
    alloc: A,
    before: &View<'_, A>,
    listed: &Listed,
) -> Result<BTreeSet<Name, A>, AllocError>
    ensures { IfOk result (λ names. (x : List ℕ) → HasName names x ↔ Stands (seen before.now) (name_row listed.now x)) }
{
    let mut names = BTreeSet::new(alloc);
    add_listed_before(alloc, &mut names, before, listed)?;
    Ok(names)
}

/// Adds the hosts that the host groups had before the step.
fn add_hosts_before<A: Allocator + Copy>(
    alloc: A,
    hosts: &mut BTreeSet<Name, A>,
    before: &View<'_, A>,
    groups: &BTreeSet<Name, A>,
) -> Result<(), AllocError>
    ensures { OnOk result (Adds (λ h. (k : List ℕ) × HasName groups.now k × Stands (seen before.now) (name_row (Hosts k) h)) (HasName hosts.old) (HasName hosts.new)) }
{
    for name in groups {
        add_listed_before(alloc, hosts, before, &Listed::Hosts(*name))?;
    }
    Ok(())
}

/// The hosts that the storage group served before the step.
///
/// # Errors
/// `AllocError` where there is no memory.
pub fn hosts_before<A: Allocator + Copy>(
    alloc: A,
    before: &View<'_, A>,
    name: &Name,
) -> Result<BTreeSet<Name, A>, AllocError>
    ensures { IfOk result (λ hosts. (h : List ℕ) → HasName hosts h ↔ IsHostOf (seen before.now) name.now h) }
{
    let groups = listed_before(alloc, before, &Listed::HostGroups(*name))?;
    let mut hosts = BTreeSet::new(alloc);
    add_hosts_before(alloc, &mut hosts, before, &groups)?;
    Ok(hosts)
}

/// Whether the port is among these, if there are any.
fn has_port<A: Allocator + Copy>(ports: Option<&BTreeSet<Wwn, A>>, port: &Wwn) -> bool
    ensures { result ≡ in_tree nat_cmp (option_copied ports.entry) port.now }
{
    match ports {
        Some(ports) => ports.contains(port),
        None => false,
    }
}

/// Adds the target, unless it is gone.
fn add_target_unless_gone<A: Allocator + Copy>(
    ports: &mut BTreeSet<Wwn, A>,
    gone: Option<&BTreeSet<Wwn, A>>,
    target: &Wwn,
) -> Result<(), AllocError>
    ensures { OnOk result (Adds (λ q. (q ≡ target.now) × (in_tree nat_cmp (option_copied gone.entry) q ≡ false)) (HasPortIn ports.old) (HasPortIn ports.new)) }
{
    if !has_port(gone, target) {
        ports.insert(*target)?;
    }
    Ok(())
}

/// Adds the targets of a storage group, but for those that are gone.
fn add_targets_but<A: Allocator + Copy>(
    ports: &mut BTreeSet<Wwn, A>,
    gone: Option<&BTreeSet<Wwn, A>>,
    group: &StorageGroup<A>,
) -> Result<(), AllocError>
    ensures { OnOk result (Adds (λ q. (set.contains group.now.targets q ≡ true) × (in_tree nat_cmp (option_copied gone.entry) q ≡ false)) (HasPortIn ports.old) (HasPortIn ports.new)) }
{
    for target in group.targets() {
        add_target_unless_gone(ports, gone, target)?;
    }
    Ok(())
}

/// Adds the targets that the storage group of this name had before the step, but for those that are
/// gone.
fn add_targets_before<A: Allocator + Copy>(
    ports: &mut BTreeSet<Wwn, A>,
    gone: Option<&BTreeSet<Wwn, A>>,
    before: &View<'_, A>,
    name: &Name,
) -> Result<(), AllocError>
    ensures { OnOk result (Adds (λ q. Stands (seen before.now) (target_row name.now q) × (in_tree nat_cmp (option_copied gone.entry) q ≡ false)) (HasPortIn ports.old) (HasPortIn ports.new)) }
{
    if let Some(group) = before.config.mapping().group(name) {
        add_targets_but(ports, gone, group)?;
    }
    Ok(())
}

/// The targets that the storage group of this name had before the step.
///
/// # Errors
/// `AllocError` where there is no memory.
pub fn targets_before<A: Allocator + Copy>(
    alloc: A,
    before: &View<'_, A>,
    name: &Name,
) -> Result<BTreeSet<Wwn, A>, AllocError>
    ensures { IfOk result (λ ports. (q : ℕ) → HasPortIn ports q ↔ Stands (seen before.now) (target_row name.now q)) }
{
    let none = BTreeSet::new(alloc);
    let mut ports = BTreeSet::new(alloc);
    add_targets_before(&mut ports, Some(&none), before, name)?;
    Ok(ports)
}

/// Adds the ports, if there are any.
fn add_some_ports<A: Allocator + Copy>(
    ports: &mut BTreeSet<Wwn, A>,
    these: Option<&BTreeSet<Wwn, A>>,
) -> Result<(), AllocError>
    ensures { OnOk result (Adds (λ q. in_tree nat_cmp (option_copied these.entry) q ≡ true) (HasPortIn ports.old) (HasPortIn ports.new)) }
{
    if let Some(these) = these {
        add_all(ports, these)?;
    }
    Ok(())
}

/// The targets that the storage group of this name has after the step.
///
/// # Errors
/// `AllocError` where there is no memory.
pub fn targets_after<A: Allocator + Copy>(
    alloc: A,
    before: &View<'_, A>,
    told: &Told<A>,
    name: &Name,
) -> Result<BTreeSet<Wwn, A>, AllocError>
    ensures { (v : Records) → IsTold (seen before.now) v told.now
        → IfOk result (λ ports. (q : ℕ) → HasPortIn ports q ↔ Stands v (target_row name.now q)) }
{
    let mut ports = BTreeSet::new(alloc);
    add_targets_before(&mut ports, told.gone.targets.get(name), before, name)?;
    add_some_ports(&mut ports, told.come.targets.get(name))?;
    Ok(ports)
}

/// Adds the port, unless the rows say it.
fn add_unless_said<A: Allocator + Copy>(
    ports: &mut BTreeSet<Wwn, A>,
    side: &Side<A>,
    port: &Wwn,
) -> Result<(), AllocError>
    ensures { (rows : List Row) → IsSideOf rows side.now → OnOk result (Adds (λ p. (p ≡ port.now) × NamesNoPort rows p) (HasPortIn ports.old) (HasPortIn ports.new)) }
{
    if let Some(_port) = said_port(side, port) {
        return Ok(());
    }
    ports.insert(*port)?;
    Ok(())
}

/// Adds the ports, but for those that the rows say.
fn add_all_unless_said<A: Allocator + Copy>(
    ports: &mut BTreeSet<Wwn, A>,
    side: &Side<A>,
    these: &BTreeSet<Wwn, A>,
) -> Result<(), AllocError>
    ensures { (rows : List Row) → IsSideOf rows side.now → OnOk result (Adds (λ p. HasPortIn these.now p × NamesNoPort rows p) (HasPortIn ports.old) (HasPortIn ports.new)) }
{
    for port in these {
        add_unless_said(ports, side, port)?;
    }
    Ok(())
}

/// Adds the ports that the holder held, but for those that the rows say.
fn add_held_but<A: Allocator + Copy>(
    ports: &mut BTreeSet<Wwn, A>,
    side: &Side<A>,
    held: &BTreeMap<Name, BTreeSet<Wwn, A>, A>,
    holder: &Name,
) -> Result<(), AllocError>
    ensures { (rows : List Row) → IsSideOf rows side.now → OnOk result (Adds (λ p. HoldsIn held.now holder.now p × NamesNoPort rows p) (HasPortIn ports.old) (HasPortIn ports.new)) }
{
    if let Some(these) = held.get(holder) {
        add_all_unless_said(ports, side, these)?;
    }
    Ok(())
}

/// Adds the ports that the holder holds after the step.
///
/// # Errors
/// `AllocError` where there is no memory: some may have been added.
pub fn add_held_after<A: Allocator + Copy>(
    ports: &mut BTreeSet<Wwn, A>,
    index: &Index<A>,
    told: &Told<A>,
    holder: &Name,
) -> Result<(), AllocError>
    ensures { (w v : Records) → IsIndexOf w index.now → IsTold w v told.now
        → OnOk result (Adds (IsHeldBy v holder.now) (HasPortIn ports.old) (HasPortIn ports.new)) }
{
    add_held_but(ports, &told.gone, &index.held, holder)?;
    add_held(ports, &told.come.held, holder)?;
    Ok(())
}
