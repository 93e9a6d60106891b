//! What rows say, by key: maps and sets that are gathered in one walk through the rows.
ghost use Rattle.std.specs.Prelude.{◌++◌, ◌∷◌, [], List, IfOk, OnOk, MatchOption};
ghost use Rattle.fab_zoning.specs.Edits.{IsIn};
ghost use Rattle.fab_reach_base.specs.Adding.{Adds};
ghost use Rattle.fab_reach_books.specs.declared.row.Row.{Row};
ghost use Rattle.fab_reach_index.specs.Indexes.{IsTreeOf};
ghost use Rattle.fab_reach_moves.specs.Inner.Saying.{IsOnce, IsSaid, AreSaid};

use fab_inventory::Port;
use fab_names::{Fabric, Member, Name, Wwn};
use fab_reach_books::Row;
use fab_reach_index::add_at;
use fab_store_rows::{GroupRow, PartRow, StoragePart};
use fab_zoning::Key;
use std::alloc::{AllocError, Allocator};
use std::collections::{BTreeMap, BTreeSet};

/// What rows say under keys.
pub trait Saying<K: Key, X> {
    // the row says the item under the key
    ghost says: { Row → K → X → Type 0 };

    /// What the row says, and under which key.
    fn said(&self, row: &Row) -> Option<(K, X)>
        ensures { MatchOption result ((k : K) (x : X) → ¬ says row.now k x) (λ e. says row.now e.0 e.1) };

    ghost once: { IsOnce says };
}

/// The ports, by N_Port_Name.
#[derive(Drop)]
pub struct Ports;

impl Saying<Wwn, Port> for Ports {
    ghost use Rattle.fab_reach_moves.specs.Inner.Saying.{SaysPortAt};
    ghost use Rattle.fab_reach_moves.specs.Inner.SayingLaws.{once_port};

    ghost says = { SaysPortAt };

    ghost once = { once_port };

    fn said(&self, row: &Row) -> Option<(Wwn, Port)> {
        match row {
            Row::Port(port) => Some((port.name, *port)),
            _ => None,
        }
    }
}

/// The ports of each holder.
#[derive(Drop)]
pub struct Held;

impl Saying<Name, Wwn> for Held {
    ghost use Rattle.fab_reach_moves.specs.Inner.Listing.{SaysHeld};
    ghost use Rattle.fab_reach_moves.specs.Inner.SayingLaws.{once_held};

    ghost says = { SaysHeld };

    ghost once = { once_held };

    fn said(&self, row: &Row) -> Option<(Name, Wwn)> {
        let Row::Port(port) = row else {
            return None;
        };
        match port.holder {
            Some(holder) => Some((holder, port.name)),
            None => None,
        }
    }
}

/// The hosts of each host group.
#[derive(Drop)]
pub struct Hosts;

impl Saying<Name, Name> for Hosts {
    ghost use Rattle.fab_reach_moves.specs.Inner.Saying.{SaysHost};
    ghost use Rattle.fab_reach_moves.specs.Inner.SayingLaws.{once_host};

    ghost says = { SaysHost };

    ghost once = { once_host };

    fn said(&self, row: &Row) -> Option<(Name, Name)> {
        match row {
            Row::Part(PartRow::Host(name, host)) => Some((*name, *host)),
            _ => None,
        }
    }
}

/// The host groups of each storage group.
#[derive(Drop)]
pub struct HostGroups;

impl Saying<Name, Name> for HostGroups {
    ghost use Rattle.fab_reach_moves.specs.Inner.Saying.{SaysHostGroup};
    ghost use Rattle.fab_reach_moves.specs.Inner.SayingLaws.{once_host_group};

    ghost says = { SaysHostGroup };

    ghost once = { once_host_group };

    fn said(&self, row: &Row) -> Option<(Name, Name)> {
        match row {
            Row::Part(PartRow::Storage(name, StoragePart::HostGroup(hosts))) => {
                Some((*name, *hosts))
            }
            _ => None,
        }
    }
}

/// The storage groups of each host group.
#[derive(Drop)]
pub struct Serving;

impl Saying<Name, Name> for Serving {
    ghost use Rattle.fab_reach_moves.specs.Inner.Saying.{SaysServing};
    ghost use Rattle.fab_reach_moves.specs.Inner.SayingLaws.{once_serving};

    ghost says = { SaysServing };

    ghost once = { once_serving };

    fn said(&self, row: &Row) -> Option<(Name, Name)> {
        match row {
            Row::Part(PartRow::Storage(name, StoragePart::HostGroup(hosts))) => {
                Some((*hosts, *name))
            }
            _ => None,
        }
    }
}

/// The active zones that have each member, by fabric.
#[derive(Drop)]
pub struct Zoned;

impl Saying<(Fabric, Member), Name> for Zoned {
    ghost use Rattle.fab_reach_moves.specs.Inner.Saying.{SaysZoned};
    ghost use Rattle.fab_reach_moves.specs.Inner.SayingLaws.{once_zoned};

    ghost says = { SaysZoned };

    ghost once = { once_zoned };

    fn said(&self, row: &Row) -> Option<((Fabric, Member), Name)> {
        match row {
            Row::Active(active) => Some(((active.fabric, active.member), active.zone)),
            _ => None,
        }
    }
}

/// The targets of each storage group.
#[derive(Drop)]
pub struct Targets;

impl Saying<Name, Wwn> for Targets {
    ghost use Rattle.fab_reach_moves.specs.Inner.Saying.{SaysTarget};
    ghost use Rattle.fab_reach_moves.specs.Inner.SayingLaws.{once_target};

    ghost says = { SaysTarget };

    ghost once = { once_target };

    fn said(&self, row: &Row) -> Option<(Name, Wwn)> {
        match row {
            Row::Part(PartRow::Storage(name, StoragePart::Target(target))) => {
                Some((*name, *target))
            }
            _ => None,
        }
    }
}

/// Whether each storage group is exposed.
#[derive(Drop)]
pub struct Heads;

impl Saying<Name, bool> for Heads {
    ghost use Rattle.fab_reach_moves.specs.Inner.Listing.{SaysHead};
    ghost use Rattle.fab_reach_moves.specs.Inner.SayingLaws.{once_head};

    ghost says = { SaysHead };

    ghost once = { once_head };

    fn said(&self, row: &Row) -> Option<(Name, bool)> {
        match row {
            Row::Group(GroupRow::Storage(group)) => Some((group.name, group.exposed)),
            _ => None,
        }
    }
}

/// The logical unit numbers of each storage group.
#[derive(Drop)]
pub struct Units;

impl Saying<Name, u16> for Units {
    ghost use Rattle.fab_reach_moves.specs.Inner.Saying.{SaysUnitAt};
    ghost use Rattle.fab_reach_moves.specs.Inner.SayingLaws.{once_unit};

    ghost says = { SaysUnitAt };

    ghost once = { once_unit };

    fn said(&self, row: &Row) -> Option<(Name, u16)> {
        match row {
            Row::Part(PartRow::Storage(name, StoragePart::Unit(unit, _))) => Some((*name, *unit)),
            _ => None,
        }
    }
}

/// Adds what the row says to the set of its key.
fn add_item<K: Key, X: Key, S: Saying<K, X>, A: Allocator + Copy>(
    alloc: A,
    sets: &mut BTreeMap<K, BTreeSet<X, A>, A>,
    saying: &S,
    row: &Row,
) -> Result<(), AllocError>
    ensures { OnOk result (Adds (λ e. S.says row.now e.0 e.1) (IsIn K.cmp X.cmp sets.old) (IsIn K.cmp X.cmp sets.new)) }
{
    let Some(said) = saying.said(row) else {
        return Ok(());
    };
    add_at(alloc, sets, said.0, said.1)?;
    Ok(())
}

/// Adds what the rows say to the sets of their keys.
fn add_items<K: Key, X: Key, S: Saying<K, X>, A: Allocator + Copy>(
    alloc: A,
    sets: &mut BTreeMap<K, BTreeSet<X, A>, A>,
    saying: &S,
    rows: &[Row],
) -> Result<(), AllocError>
    ensures { OnOk result (Adds (λ e. IsSaid S.says rows.now e.0 e.1) (IsIn K.cmp X.cmp sets.old) (IsIn K.cmp X.cmp sets.new)) }
{
    for row in rows {
        add_item(alloc, sets, saying, row)?;
    }
    Ok(())
}

/// All that the rows say, a set under each key.
///
/// # Errors
/// `AllocError` where there is no memory.
pub fn items_said<K: Key, X: Key, S: Saying<K, X>, A: Allocator + Copy>(
    alloc: A,
    saying: &S,
    rows: &[Row],
) -> Result<BTreeMap<K, BTreeSet<X, A>, A>, AllocError>
    ensures { IfOk result (IsTreeOf K.cmp X.cmp (IsSaid S.says rows.now)) }
{
    let mut sets = BTreeMap::new(alloc);
    add_items(alloc, &mut sets, saying, rows)?;
    Ok(sets)
}

/// Puts what the row says under its key.
fn put_value<K: Key, X: Copy + Drop, S: Saying<K, X>, A: Allocator + Copy>(
    values: &mut BTreeMap<K, X, A>,
    saying: &S,
    row: &Row,
) -> Result<(), AllocError>
    ensures { OnOk result ((before : List Row) → AreSaid K.cmp S.says before values.old → AreSaid K.cmp S.says (before ++ row.now ∷ []) values.new) }
{
    let Some(said) = saying.said(row) else {
        return Ok(());
    };
    values.insert(said.0, said.1)?;
    Ok(())
}

/// Of what the rows say under each key, one thing.
///
/// # Errors
/// `AllocError` where there is no memory.
pub fn values_said<K: Key, X: Copy + Drop, S: Saying<K, X>, A: Allocator + Copy>(
    alloc: A,
    saying: &S,
    rows: &[Row],
) -> Result<BTreeMap<K, X, A>, AllocError>
    ensures { IfOk result (AreSaid K.cmp S.says rows.now) }
{
    let mut values = BTreeMap::new(alloc);
    for row in rows {
        put_value(&mut values, saying, row)?;
    }
    Ok(values)
}
