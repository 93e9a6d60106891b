//! The paths of a world, pair by pair.
ghost use Rattle.std.specs.Prelude.{◌≡◌, ◌≤◌, ℕ, List, length, Some, true, IsTrue, ◌↔◌, OnOk, IfOk, IfErr, MatchOption};
ghost use Rattle.std.specs.Option.{option_copied};
ghost use Rattle.std.specs.BTreeSet.{contains};
ghost use Rattle.std.specs.FinSet as set;
ghost use Rattle.std.specs.Ordering.{nat_cmp};
ghost use Rattle.fab_reach_base.specs.Adding.{Adds};
ghost use Rattle.fab_reach_base.specs.Orders.{Has, IsListOf};
ghost use Rattle.fab_reach_base.specs.Reach.{IsPort, IsInitiator, IsTarget, PathOf, Reaches};
ghost use Rattle.fab_reach_base.specs.Gathering.{IsIndexOf, AreGroupsOf, MayMeet, UnitPath, GroupPath, IsTargeted, PathFrom, StopsAt};
ghost use Rattle.fab_reach_base.specs.Limits.{IsPathsFault, most_paths};
ghost use Rattle.fab_reach_base.specs.Views.{seen};
ghost use Rattle.fab_reach_base.specs.Books.{AreReached};
ghost use Rattle.fab_reach_base.specs.Records.{zoning_at};
ghost use Rattle.fab_zoning.specs.Joins.{Joined};

use crate::served::served_hosts;
use crate::{Config, Path, View};
use fab_mapping::base::inventory::{HolderKind, Inventory, Port};
use fab_mapping::base::names::{Fabric, Name, Wwn};
use fab_mapping::{Mapping, StorageGroup};
use std::alloc::{AllocError, Allocator};
use std::collections::{BTreeMap, BTreeSet};

/// How many paths a world may have.
pub const MOST_PATHS: usize = 65536;

/// Why the paths of a world are not listed.
#[derive(Clone, Copy, Debug, Drop)]
pub enum PathsFault {
    /// There are more than `MOST_PATHS`.
    TooMany,
    /// There is no memory.
    Memory,
}

impl From<AllocError> for PathsFault {
    ghost use Rattle.std.specs.Prelude.{◌≡◌};
    ghost use Rattle.fab_reach_base.specs.declared.listing.PathsFault.TheVariants.{Memory};

    ghost from_gives = { λ _ e. e ≡ Memory };

    fn from(_error: AllocError) -> PathsFault {
        PathsFault::Memory
    }
}

/// The host that holds the port.
pub fn host_of<A: Allocator + Copy>(view: &View<'_, A>, port: &Port) -> Option<Name>
    ensures { MatchOption result ((h : List ℕ) → ¬ IsInitiator (seen view.now) port.now h) (IsInitiator (seen view.now) port.now) }
{
    let Some(name) = port.holder else {
        return None;
    };
    let Some(holder) = view.inventory.holder(&name) else {
        return None;
    };
    if holder.kind == HolderKind::Host {
        Some(name)
    } else {
        None
    }
}

/// Whether an array holds the port.
pub fn is_target<A: Allocator + Copy>(view: &View<'_, A>, port: &Port) -> bool
    ensures { IsTrue result ↔ IsTarget (seen view.now) port.now }
{
    let Some(name) = port.holder else {
        return false;
    };
    let Some(holder) = view.inventory.holder(&name) else {
        return false;
    };
    holder.kind == HolderKind::Array
}

/// Whether the two ports may communicate in the fabric.
fn is_joined<A: Allocator + Copy>(view: &View<'_, A>, fabric: Fabric, p: &Port, q: &Port) -> bool
    ensures { IsTrue result ↔ Joined (zoning_at (seen view.now).config fabric) p.now q.now }
{
    view.config.zoning(fabric).joined(p, q).is_some()
}

/// The fabric in which the initiator port and the target port may communicate.
fn meeting<A: Allocator + Copy>(view: &View<'_, A>, p: &Port, q: &Port) -> Option<Fabric>
    ensures { MatchOption result ((f : _) → ¬ MayMeet (seen view.now) p.now q.now f) (MayMeet (seen view.now) p.now q.now) }
{
    let Some((fabric, _)) = p.at else {
        return None;
    };
    if is_target(view, q) && is_joined(view, fabric, p, q) {
        Some(fabric)
    } else {
        None
    }
}

/// Adds the paths of a pair to the volumes of a storage group.
fn add_units<A: Allocator + Copy>(
    paths: &mut BTreeSet<Path, A>,
    fabric: Fabric,
    initiator: Wwn,
    target: Wwn,
    group: &StorageGroup<A>,
) -> Result<(), AllocError>
    ensures { OnOk result (Adds (UnitPath fabric initiator target group.now) (Has paths.old) (Has paths.new)) }
{
    for (unit, volume) in group.units() {
        paths.insert(Path {
            fabric,
            initiator,
            target,
            volume: *volume,
            unit: *unit,
        })?;
    }
    Ok(())
}

/// Adds the paths of a pair by the storage group of this name, if it has the target.
fn add_group<A: Allocator + Copy>(
    paths: &mut BTreeSet<Path, A>,
    mapping: &Mapping<A>,
    fabric: Fabric,
    initiator: Wwn,
    target: Wwn,
    name: &Name,
) -> Result<(), AllocError>
    ensures { OnOk result (Adds (GroupPath mapping.now fabric initiator target name.now) (Has paths.old) (Has paths.new)) }
{
    if let Some(group) = mapping.group(name) {
        if group.has_target(&target) {
            add_units(paths, fabric, initiator, target, group)?;
        }
    }
    Ok(())
}

/// Adds the paths of a pair of ports: those of the exposed storage groups that serve the host of `p`,
/// which are given, and have `q` as a target, where the two ports are logged in at one fabric that joins
/// them.
///
/// # Errors
/// `AllocError` where there is no memory; some of the paths may have been added.
pub fn add_pair_of<A: Allocator + Copy>(
    paths: &mut BTreeSet<Path, A>,
    view: &View<'_, A>,
    groups: Option<&BTreeSet<Name, A>>,
    host: &Name,
    p: &Port,
    q: &Port,
) -> Result<(), AllocError>
    requires groups { AreGroupsOf (seen view.now).config.mapping host.now (option_copied groups) }
    requires p { IsPort (seen view.now) p.now.name p.now }
    requires q { IsPort (seen view.now) q.now.name q.now }
    requires host { IsInitiator (seen view.now) p.now host.now }
    ensures { OnOk result (Adds (PathOf (seen view.now) p.now.name q.now.name) (Has paths.old) (Has paths.new)) }
{
    let _host = host;
    let Some(fabric) = meeting(view, p, q) else {
        return Ok(());
    };
    let Some(groups) = groups else {
        return Ok(());
    };
    for name in groups {
        add_group(paths, view.config.mapping(), fabric, p.name, q.name, name)?;
    }
    Ok(())
}

/// Adds the paths of a pair of ports, where the groups of each host are known.
///
/// # Errors
/// `AllocError` where there is no memory; some of the paths may have been added.
pub fn add_pair<A: Allocator + Copy>(
    paths: &mut BTreeSet<Path, A>,
    view: &View<'_, A>,
    served: &BTreeMap<Name, BTreeSet<Name, A>, A>,
    host: &Name,
    p: &Port,
    q: &Port,
) -> Result<(), AllocError>
    requires index { IsIndexOf (seen view.now).config.mapping served.now }
    requires p { IsPort (seen view.now) p.now.name p.now }
    requires q { IsPort (seen view.now) q.now.name q.now }
    requires host { IsInitiator (seen view.now) p.now host.now }
    ensures { OnOk result (Adds (PathOf (seen view.now) p.now.name q.now.name) (Has paths.old) (Has paths.new)) }
{
    add_pair_of(paths, view, served.get(host), host, p, q)
}

/// Adds the targets of a storage group.
fn add_targets<A: Allocator + Copy>(
    targets: &mut BTreeSet<Wwn, A>,
    group: &StorageGroup<A>,
) -> Result<(), AllocError>
    ensures { OnOk result (Adds (λ q. set.contains group.now.targets q ≡ true) (λ q. IsTrue (contains nat_cmp targets.old q)) (λ q. IsTrue (contains nat_cmp targets.new q))) }
{
    for target in group.targets() {
        targets.insert(*target)?;
    }
    Ok(())
}

/// The targets of the storage groups of these names, each once.
///
/// # Errors
/// `AllocError` where there is no memory.
pub fn targets_of<A: Allocator + Copy>(
    alloc: A,
    mapping: &Mapping<A>,
    groups: &BTreeSet<Name, A>,
) -> Result<BTreeSet<Wwn, A>, AllocError>
    ensures { IfOk result (λ targets. (q : ℕ) → IsTrue (contains nat_cmp targets q) ↔ IsTargeted mapping.now groups.now q) }
{
    let mut targets = BTreeSet::new(alloc);
    for name in groups {
        if let Some(group) = mapping.group(name) {
            add_targets(&mut targets, group)?;
        }
    }
    Ok(targets)
}

/// Adds the paths from an initiator port. It asks about each pair once.
fn add_port<A: Allocator + Copy>(
    alloc: A,
    paths: &mut BTreeSet<Path, A>,
    view: &View<'_, A>,
    served: &BTreeMap<Name, BTreeSet<Name, A>, A>,
    most: usize,
    host: &Name,
    p: &Port,
) -> Result<(), PathsFault>
    requires index { IsIndexOf (seen view.now).config.mapping served.now }
    requires p { IsPort (seen view.now) p.now.name p.now }
    requires host { IsInitiator (seen view.now) p.now host.now }
    ensures ok { OnOk result (Adds (PathFrom (seen view.now) p.now.name) (Has paths.old) (Has paths.new)) }
    ensures err { IfErr result (StopsAt most (Reaches (seen view.now)) paths.old paths.new) }
{
    let Some(groups) = served.get(host) else {
        return Ok(());
    };
    let targets = targets_of(alloc, view.config.mapping(), groups)?;
    for target in &targets {
        if let Some(q) = view.inventory.port(target) {
            add_pair(paths, view, served, host, p, &q)?;
            if paths.len() > most {
                return Err(PathsFault::TooMany);
            }
        }
    }
    Ok(())
}

/// Adds the paths from a port, if a host holds it.
fn add_known<A: Allocator + Copy>(
    alloc: A,
    paths: &mut BTreeSet<Path, A>,
    view: &View<'_, A>,
    served: &BTreeMap<Name, BTreeSet<Name, A>, A>,
    most: usize,
    name: &Wwn,
) -> Result<(), PathsFault>
    requires { IsIndexOf (seen view.now).config.mapping served.now }
    ensures ok { OnOk result (Adds (PathFrom (seen view.now) name.now) (Has paths.old) (Has paths.new)) }
    ensures err { IfErr result (StopsAt most (Reaches (seen view.now)) paths.old paths.new) }
{
    let Some(p) = view.inventory.port(name) else {
        return Ok(());
    };
    let Some(host) = host_of(view, &p) else {
        return Ok(());
    };
    add_port(alloc, paths, view, served, most, &host, &p)
}

/// Adds the paths from each known port.
fn add_all<A: Allocator + Copy>(
    alloc: A,
    paths: &mut BTreeSet<Path, A>,
    view: &View<'_, A>,
    served: &BTreeMap<Name, BTreeSet<Name, A>, A>,
    most: usize,
) -> Result<(), PathsFault>
    requires { IsIndexOf (seen view.now).config.mapping served.now }
    ensures ok { OnOk result (Adds (Reaches (seen view.now)) (Has paths.old) (Has paths.new)) }
    ensures err { IfErr result (StopsAt most (Reaches (seen view.now)) paths.old paths.new) }
{
    for (name, _known) in view.inventory.ports() {
        add_known(alloc, paths, view, served, most, name)?;
    }
    Ok(())
}

/// The paths of a set, in order.
///
/// # Errors
/// `AllocError` where there is no memory.
pub fn listed<A: Allocator + Copy>(
    alloc: A,
    paths: &BTreeSet<Path, A>,
) -> Result<Vec<Path, A>, AllocError>
    ensures { IfOk result (λ items. items.items ≡ paths.now.keys) }
{
    paths.iter().copied().collect(alloc)
}

/// The set of the paths of a world, if there are no more than a limit. One pair past the limit the
/// work ends.
///
/// # Errors
/// `TooMany` where there are more than the limit, and `Memory`.
pub fn gather<A: Allocator + Copy>(
    alloc: A,
    view: &View<'_, A>,
    most: usize,
) -> Result<BTreeSet<Path, A>, PathsFault>
    ensures ok { IfOk result (λ paths. AreReached (seen view.now) (Has paths)) }
    ensures few { IfOk result (λ paths. length paths.keys ≤ most) }
    ensures err { IfErr result (IsPathsFault most (Reaches (seen view.now))) }
{
    let served = served_hosts(alloc, view.config.mapping())?;
    let mut paths = BTreeSet::new(alloc);
    add_all(alloc, &mut paths, view, &served, most)?;
    if paths.len() > most {
        return Err(PathsFault::TooMany);
    }
    Ok(paths)
}

/// The paths of a world, each once, in order, if there are no more than `MOST_PATHS`. One pair past
/// the limit the work ends.
///
/// # Errors
/// `TooMany` where there are more than `MOST_PATHS`, and `Memory`.
pub fn few_paths<A: Allocator + Copy>(
    alloc: A,
    inventory: &Inventory<A>,
    config: &Config<A>,
) -> Result<Vec<Path, A>, PathsFault>
    ensures ok { IfOk result (λ paths. IsListOf (Reaches (record { inventory = inventory.now; config = config.now })) paths.items) }
    ensures few { IfOk result (λ paths. length paths.items ≤ most_paths) }
    ensures err { IfErr result (IsPathsFault most_paths (Reaches (record { inventory = inventory.now; config = config.now }))) }
{
    let paths = gather(alloc, &View::of(inventory, config), MOST_PATHS)?;
    let _count = paths.len();
    let items = listed(alloc, &paths)?;
    Ok(items)
}

/// The set of all paths of a world.
///
/// # Errors
/// `AllocError` where there is no memory.
pub fn all_paths<A: Allocator + Copy>(
    alloc: A,
    view: &View<'_, A>,
) -> Result<BTreeSet<Path, A>, AllocError>
    ensures { IfOk result (λ paths. AreReached (seen view.now) (Has paths)) }
{
    match gather(alloc, view, usize::MAX) {
        Ok(paths) => Ok(paths),
        Err(_) => Err(AllocError),
    }
}

/// The paths of a world, each once, in order, however many they are.
///
/// # Errors
/// `AllocError` where there is no memory.
pub fn plain_paths<A: Allocator + Copy>(
    alloc: A,
    inventory: &Inventory<A>,
    config: &Config<A>,
) -> Result<Vec<Path, A>, AllocError>
    ensures { IfOk result (λ paths. IsListOf (Reaches (record { inventory = inventory.now; config = config.now })) paths.items) }
{
    let paths = all_paths(alloc, &View::of(inventory, config))?;
    let _count = paths.len();
    let items = listed(alloc, &paths)?;
    Ok(items)
}
