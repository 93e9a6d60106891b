//! The pairs that storage groups offered before a step.
ghost use Rattle.std.specs.Prelude.{◌≡◌, ◌↔◌, ℕ, List, Some, true, OnOk, IfOk};
ghost use Rattle.fab_lemmas.specs.MapsOfSets.{in_tree};
ghost use Rattle.fab_names.specs.Orders.{name_cmp};
ghost use Rattle.fab_reach_base.specs.Adding.{Adds};
ghost use Rattle.fab_reach_base.specs.Gathering.{ServesBy};
ghost use Rattle.fab_reach_books.specs.Inner.Sets.{HasPairIn, HasPortIn};
ghost use Rattle.fab_reach_index.specs.Inner.Holding.{HoldsIn};
ghost use Rattle.fab_reach_pairs.specs.Inner.Offering.{IsHostPort, IsPortServed, IsPortServedBy, IsPortServedAt};

use fab_mapping::{HostGroup, Mapping, StorageGroup};
use fab_names::{Name, Wwn};
use fab_reach_index::{Index, add_held};
use std::alloc::{AllocError, Allocator};
use std::collections::{BTreeMap, BTreeSet};

/// Adds the ports that the hosts of a host group hold.
fn add_hosts<A: Allocator + Copy>(
    ports: &mut BTreeSet<Wwn, A>,
    held: &BTreeMap<Name, BTreeSet<Wwn, A>, A>,
    hosts: &HostGroup<A>,
) -> Result<(), AllocError>
    ensures { OnOk result (Adds (IsHostPort held.now hosts.now) (HasPortIn ports.old) (HasPortIn ports.new)) }
{
    for host in hosts.hosts() {
        add_held(ports, held, host)?;
    }
    Ok(())
}

/// Adds the ports that the hosts of the host group of this name hold, if there is one.
fn add_hosts_of<A: Allocator + Copy>(
    ports: &mut BTreeSet<Wwn, A>,
    held: &BTreeMap<Name, BTreeSet<Wwn, A>, A>,
    mapping: &Mapping<A>,
    name: &Name,
) -> Result<(), AllocError>
    ensures { OnOk result (Adds (λ p. (h : List ℕ) × ServesBy mapping.now name.now h × HoldsIn held.now h p) (HasPortIn ports.old) (HasPortIn ports.new)) }
{
    if let Some(hosts) = mapping.host_group(name) {
        add_hosts(ports, held, hosts)?;
    }
    Ok(())
}

/// Adds the ports of the hosts that a storage group serves.
fn add_served<A: Allocator + Copy>(
    ports: &mut BTreeSet<Wwn, A>,
    held: &BTreeMap<Name, BTreeSet<Wwn, A>, A>,
    mapping: &Mapping<A>,
    group: &StorageGroup<A>,
) -> Result<(), AllocError>
    ensures { OnOk result (Adds (IsPortServed mapping.now held.now group.now) (HasPortIn ports.old) (HasPortIn ports.new)) }
{
    for name in group.host_groups() {
        add_hosts_of(ports, held, mapping, name)?;
    }
    Ok(())
}

/// The ports of the hosts that a storage group serves.
///
/// # Errors
/// `AllocError` where there is no memory for them.
pub fn served_ports<A: Allocator + Copy>(
    alloc: A,
    held: &BTreeMap<Name, BTreeSet<Wwn, A>, A>,
    mapping: &Mapping<A>,
    group: &StorageGroup<A>,
) -> Result<BTreeSet<Wwn, A>, AllocError>
    ensures { IfOk result (λ ports. (p : ℕ) → HasPortIn ports p ↔ IsPortServed mapping.now held.now group.now p) }
{
    let mut ports = BTreeSet::new(alloc);
    add_served(&mut ports, held, mapping, group)?;
    Ok(ports)
}

/// Adds the pair of each of the initiators with the target.
pub fn add_with_target<A: Allocator + Copy>(
    pairs: &mut BTreeSet<(Wwn, Wwn), A>,
    initiators: &BTreeSet<Wwn, A>,
    target: Wwn,
) -> Result<(), AllocError>
    ensures { OnOk result (Adds (λ e. HasPortIn initiators.now e.0 × (e.1 ≡ target)) (HasPairIn pairs.old) (HasPairIn pairs.new)) }
{
    for port in initiators {
        pairs.insert((*port, target))?;
    }
    Ok(())
}

/// Adds the pair of the initiator with each of the targets.
pub fn add_with_initiator<A: Allocator + Copy>(
    pairs: &mut BTreeSet<(Wwn, Wwn), A>,
    initiator: Wwn,
    targets: &BTreeSet<Wwn, A>,
) -> Result<(), AllocError>
    ensures { OnOk result (Adds (λ e. HasPortIn targets.now e.1 × (e.0 ≡ initiator)) (HasPairIn pairs.old) (HasPairIn pairs.new)) }
{
    for port in targets {
        pairs.insert((initiator, *port))?;
    }
    Ok(())
}

/// Adds the pairs of the target with the ports that the storage group of this name serves.
fn add_served_by<A: Allocator + Copy>(
    alloc: A,
    pairs: &mut BTreeSet<(Wwn, Wwn), A>,
    held: &BTreeMap<Name, BTreeSet<Wwn, A>, A>,
    mapping: &Mapping<A>,
    name: &Name,
    target: Wwn,
) -> Result<(), AllocError>
    ensures { OnOk result (Adds (λ e. IsPortServedBy mapping.now held.now name.now e.0 × (e.1 ≡ target)) (HasPairIn pairs.old) (HasPairIn pairs.new)) }
{
    let Some(group) = mapping.group(name) else {
        return Ok(());
    };
    let ports = served_ports(alloc, held, mapping, group)?;
    add_with_target(pairs, &ports, target)?;
    Ok(())
}

/// Adds the pairs of the target with the ports that the storage groups of these names serve.
fn add_served_by_all<A: Allocator + Copy>(
    alloc: A,
    pairs: &mut BTreeSet<(Wwn, Wwn), A>,
    held: &BTreeMap<Name, BTreeSet<Wwn, A>, A>,
    mapping: &Mapping<A>,
    names: &BTreeSet<Name, A>,
    target: Wwn,
) -> Result<(), AllocError>
    ensures { OnOk result (Adds (λ e. (n : List ℕ) × (in_tree name_cmp (Some names.now) n ≡ true) × IsPortServedBy mapping.now held.now n e.0 × (e.1 ≡ target)) (HasPairIn pairs.old) (HasPairIn pairs.new)) }
{
    for name in names {
        add_served_by(alloc, pairs, held, mapping, name, target)?;
    }
    Ok(())
}

/// Adds the pairs of the target that it was offered in.
fn add_offered_to<A: Allocator + Copy>(
    alloc: A,
    pairs: &mut BTreeSet<(Wwn, Wwn), A>,
    index: &Index<A>,
    mapping: &Mapping<A>,
    target: &Wwn,
) -> Result<(), AllocError>
    ensures { OnOk result (Adds (λ e. IsPortServedAt mapping.now index.now.held index.now.targeted target.now e.0 × (e.1 ≡ target.now)) (HasPairIn pairs.old) (HasPairIn pairs.new)) }
{
    if let Some(names) = index.targeted.get(target) {
        add_served_by_all(alloc, pairs, &index.held, mapping, names, *target)?;
    }
    Ok(())
}

/// Adds the pairs that each of the targets was offered in.
///
/// # Errors
/// `AllocError` where there is no memory for the pairs: some of them may be there.
pub fn add_offered_to_all<A: Allocator + Copy>(
    alloc: A,
    pairs: &mut BTreeSet<(Wwn, Wwn), A>,
    index: &Index<A>,
    mapping: &Mapping<A>,
    targets: &BTreeSet<Wwn, A>,
) -> Result<(), AllocError>
    ensures { OnOk result (Adds (λ e. HasPortIn targets.now e.1 × IsPortServedAt mapping.now index.now.held index.now.targeted e.1 e.0) (HasPairIn pairs.old) (HasPairIn pairs.new)) }
{
    for target in targets {
        add_offered_to(alloc, pairs, index, mapping, target)?;
    }
    Ok(())
}
