//! The zoning of one fabric.
ghost use Rattle.std.specs.Prelude.{◌≡◌, ℕ, List, ◌<◌, ◌≤◌, ◌+◌, min, ◌↔◌, Some, None, true, length, All, MatchOption, IsTrue, IsSome, IfSome, IfOk, OnOk, IfErr, OnErr};
ghost use Rattle.std.specs.FinMap as map;
ghost use Rattle.std.specs.FinSet as set;
ghost use Rattle.std.specs.Option.{option_map, option_copied};
ghost use Rattle.std.specs.Map.{keys_of};
ghost use Rattle.std.specs.List.Sorted.{IsStrictlySortedBy};
ghost use Rattle.fab_names.specs.declared.member.Member.TheVariants.{Alias};
ghost use Rattle.fab_names.specs.Orders.{name_cmp, member_cmp};
ghost use Rattle.fab_zoning_rows.specs.fab_lemmas.MapsOfSets.{in_tree, seen_set, seen_sets};
ghost use Rattle.fab_zoning_rows.specs.Limits.{most_rows};
ghost use Rattle.fab_zoning_rows.specs.fab_lemmas.Lists.{IsListOf};
ghost use Rattle.fab_zoning_rows.specs.Rows.{row_cmp, IsRowOf, IsPlain};
ghost use Rattle.fab_zoning.specs.Soundness.{AreSoundDefinitions, IsSoundActive, IsSound};
ghost use Rattle.fab_zoning.specs.Zonings.{new_zoning};
ghost use Rattle.fab_zoning.specs.Edits.{Puts, Takes, IsItem, HasSome};
ghost use Rattle.fab_zoning.specs.Parts.{zoning_of};
ghost use Rattle.fab_zoning_rows.specs.PortZones.{in_zones};
ghost use Rattle.fab_zoning_rows.specs.Views.{seen_rows};
ghost use Rattle.fab_zoning_rows.specs.Holding.{IsLoggedInAt, Holds};
ghost use Rattle.fab_zoning.specs.Joins.{Joined, Explains};
ghost use Rattle.fab_zoning.specs.Resolved.{AreResolved};
ghost use Rattle.fab_zoning.specs.Steps.{IsListing, IsListingFault, CanPutAlias, IsPutAliasFault, CanPutZone, IsPutZoneFault, CanPutSet, IsPutSetFault, CanDropAlias, IsDropAliasFault, CanDropZone, IsDropZoneFault, IsDropSetFault, IsActivateFault};

use crate::items::{put_item, take_item};
use crate::named::{
    first_unknown, first_unknown_alias, first_user, is_full, knows, members_of, names_of, put,
    take_out,
};
use crate::resolve::resolved;
use crate::sound::{are_sound, is_active_sound};
use crate::{DefaultFlag, Why, ZoningFault, ZoningLimit};
use fab_names::{Fabric, Member, Name};
use fab_zoning_rows::inventory::Port;
use fab_zoning_rows::{ActiveRows, PortZones};
use std::alloc::{AllocError, Allocator};
use std::collections::btree_map::Iter;
use std::collections::{BTreeMap, BTreeSet};
use std::marker::Model;

/// How many aliases a fabric may have.
pub const MOST_ALIASES: usize = 2048;

/// How many zones a fabric may have.
pub const MOST_ZONES: usize = 2048;

/// How many zone sets a fabric may have.
pub const MOST_SETS: usize = 64;

/// How many members may be listed for an alias, a zone or a zone set, equal ones counted.
pub const MOST_MEMBERS: usize = 255;

/// The zoning of one fabric (FC-GS, Fabric Zone Server).
///
/// An alias is a name for members. A zone is a set of members, of which some may be aliases. A
/// zone set is a set of zones. At most one zone set is active. The active set is a copy, with its
/// aliases replaced by their members: rows, each of a zone and a member of it. What is done later
/// to aliases, zones and sets changes none of them. The names of aliases, of zones and of sets are
/// apart from one another.
///
/// A contract sees the whole as one `FabricZoning`, a record of finite sets.
pub struct Zoning<A: Allocator + Copy> {
    alloc: A,
    fabric: Fabric,
    aliases: BTreeMap<Name, BTreeSet<Member, A>, A>,
    zones: BTreeMap<Name, BTreeSet<Member, A>, A>,
    sets: BTreeMap<Name, BTreeSet<Name, A>, A>,
    active: Option<Name>,
    rows: ActiveRows<A>,
    flag: DefaultFlag,
}

// It is written out, so that a caller does not prove again how each part is dropped.
impl<A: Allocator + Copy> Drop for Zoning<A> {
    fn drop(self) {
        let Zoning {
            alloc: _,
            fabric: _,
            aliases: _,
            zones: _,
            sets: _,
            active: _,
            rows: _,
            flag: _,
        } = self;
    }
}

/// The parts of a fabric's zoning, as tables and stored configurations give them.
#[derive(Drop)]
pub struct ZoningParts<A: Allocator + Copy> {
    /// The members of each alias.
    pub aliases: BTreeMap<Name, BTreeSet<Member, A>, A>,
    /// The members of each zone.
    pub zones: BTreeMap<Name, BTreeSet<Member, A>, A>,
    /// The zones of each zone set.
    pub sets: BTreeMap<Name, BTreeSet<Name, A>, A>,
    /// The name of the active set, if one is active.
    pub active: Option<Name>,
    /// The active rows: the zones in which each member is.
    pub active_zones: BTreeMap<Member, BTreeSet<Name, A>, A>,
    /// What the default zone permits.
    pub flag: DefaultFlag,
}

impl<A: Allocator + Copy> Model for Zoning<A> {
    ghost use Rattle.fab_names.specs.Orders.{name_cmp, member_cmp};
    ghost use Rattle.fab_zoning.specs.Zonings.{FabricZoning, zoning_code};
    ghost use Rattle.fab_zoning_rows.specs.fab_lemmas.MapsOfSets.{seen_sets};

    ghost Value = { FabricZoning };

    ghost coded = { zoning_code };

    ghost view = { λ a. record {
      fabric = a.fabric;
      aliases = seen_sets name_cmp member_cmp a.aliases.entries;
      zones = seen_sets name_cmp member_cmp a.zones.entries;
      sets = seen_sets name_cmp name_cmp a.sets.entries;
      active = a.active;
      rows = a.rows;
      flag = a.flag;
    } };
}

/// Whether the port is logged in at the fabric.
pub fn is_logged_in_at(fabric: Fabric, port: &Port) -> bool
    ensures { IsTrue result ↔ IsLoggedInAt fabric port.now }
{
    match port.at {
        Some((here, _)) => here == fabric,
        None => false,
    }
}

/// What refuses a list of so many members.
fn listing_fault(count: usize) -> Option<ZoningFault>
    ensures { MatchOption result (IsListing count) (IsListingFault count) }
{
    if count == 0 {
        Some(ZoningFault::Empty)
    } else if count > MOST_MEMBERS {
        Some(ZoningFault::Limit(ZoningLimit::Members))
    } else {
        None
    }
}

/// The set of the listed rows.
fn rows_of<A: Allocator + Copy>(
    alloc: A,
    listed: &[(Name, Member)],
) -> Result<ActiveRows<A>, AllocError>
    requires { length listed.now ≤ most_rows }
    ensures { IfOk result (λ rows. rows ≡ set.from_list listed.now) }
{
    let mut rows = ActiveRows::new(alloc);
    for (zone, member) in listed {
        rows.put(*zone, *member)?;
    }
    Ok(rows)
}

impl<A: Allocator + Copy> Zoning<A> {
    /// The zoning of a fabric in which there is nothing yet: no alias, zone or zone set, no active
    /// set, and a default zone that denies.
    pub fn new(alloc: A, fabric: Fabric) -> Self
        ensures new { result ≡ new_zoning fabric }
        ensures sound { IsSound result }
    {
        Zoning {
            alloc,
            fabric,
            aliases: BTreeMap::new(alloc),
            zones: BTreeMap::new(alloc),
            sets: BTreeMap::new(alloc),
            active: None,
            rows: ActiveRows::new(alloc),
            flag: DefaultFlag::Deny,
        }
    }

    /// The zoning of a fabric that has just these parts: aliases, zones, zone sets, the name of the
    /// active set, its rows as the zones of each member, and what the default zone permits. Nothing
    /// is tested: whether they fit together `is_sound` tells.
    pub fn from_parts(alloc: A, fabric: Fabric, parts: ZoningParts<A>) -> Self
        ensures { result ≡ zoning_of fabric parts }
    {
        Zoning {
            alloc,
            fabric,
            aliases: parts.aliases,
            zones: parts.zones,
            sets: parts.sets,
            active: parts.active,
            rows: ActiveRows::from_zones(alloc, parts.active_zones),
            flag: parts.flag,
        }
    }

    /// Whether the aliases, zones and zone sets are sound. It takes no memory.
    pub fn has_sound_definitions(&self) -> bool
        ensures { IsTrue result ↔ AreSoundDefinitions self.now.aliases self.now.zones self.now.sets }
    {
        are_sound(&self.aliases, &self.zones, &self.sets)
    }

    /// Whether the active name and rows are sound. It takes no memory.
    pub fn has_sound_active(&self) -> bool
        ensures { IsTrue result ↔ IsSoundActive self.now.active self.now.rows }
    {
        is_active_sound(self.active, &self.rows)
    }

    /// Whether the zoning is sound. It takes no memory.
    pub fn is_sound(&self) -> bool
        ensures { IsTrue result ↔ IsSound self.now }
    {
        self.has_sound_definitions() && self.has_sound_active()
    }

    /// Sets what the default zone permits.
    pub fn set_default(&mut self, flag: DefaultFlag)
        ensures set { self.new ≡ record self.old { flag = flag } }
        ensures sound { IsSound self.old → IsSound self.new }
    {
        self.flag = flag;
    }

    /// Makes an alias, or replaces the members of one.
    ///
    /// # Errors
    /// `Empty` where no member is listed, `Limit(Members)` where more than 255 are,
    /// `Limit(Aliases)` where the alias is new and there are 2048, and `Memory`. The zoning is then
    /// as it was.
    pub fn put_alias(&mut self, name: Name, members: &[Member]) -> Result<(), ZoningFault>
        requires plain { All IsPlain members.now }
        ensures accepted { OnOk result (CanPutAlias self.old name members.now) }
        ensures ok { OnOk result (self.new ≡ record self.old { aliases = map.insert self.old.aliases name (set.from_list members.now) }) }
        ensures sound { OnOk result (IsSound self.old → IsSound self.new) }
        ensures refused { IfErr result (IsPutAliasFault self.old name members.now) }
        ensures err { OnErr result (self.new ≡ self.old) }
    {
        if let Some(fault) = listing_fault(members.len()) {
            return Err(fault);
        }
        if is_full(&self.aliases, &name, MOST_ALIASES) {
            return Err(ZoningFault::Limit(ZoningLimit::Aliases));
        }
        let members = members_of(self.alloc, members)?;
        put(&mut self.aliases, name, members)?;
        Ok(())
    }

    /// Drops an alias.
    ///
    /// # Errors
    /// `Unknown` where there is none of this name, and `InUse` with the first zone that names it.
    /// The zoning is then as it was.
    pub fn drop_alias(&mut self, name: &Name) -> Result<(), ZoningFault>
        ensures accepted { OnOk result (CanDropAlias self.old name.now) }
        ensures ok { OnOk result (self.new ≡ record self.old { aliases = map.remove self.old.aliases name.now }) }
        ensures sound { OnOk result (IsSound self.old → IsSound self.new) }
        ensures refused { IfErr result (IsDropAliasFault self.old name.now) }
        ensures err { OnErr result (self.new ≡ self.old) }
    {
        if !knows(&self.aliases, name) {
            return Err(ZoningFault::Unknown(*name));
        }
        if let Some(zone) = first_user(&self.zones, &Member::Alias(*name)) {
            return Err(ZoningFault::InUse(*name, *zone));
        }
        take_out(&mut self.aliases, name);
        Ok(())
    }

    /// Makes a zone, or replaces the members of one.
    ///
    /// # Errors
    /// `Empty` where no member is listed, `Limit(Members)` where more than 255 are, `Unknown` with
    /// the first alias that is not there, `Limit(Zones)` where the zone is new and there are 2048,
    /// and `Memory`. The zoning is then as it was.
    pub fn put_zone(&mut self, name: Name, members: &[Member]) -> Result<(), ZoningFault>
        ensures accepted { OnOk result (CanPutZone self.old name members.now) }
        ensures ok { OnOk result (self.new ≡ record self.old { zones = map.insert self.old.zones name (set.from_list members.now) }) }
        ensures sound { OnOk result (IsSound self.old → IsSound self.new) }
        ensures refused { IfErr result (IsPutZoneFault self.old name members.now) }
        ensures err { OnErr result (self.new ≡ self.old) }
    {
        if let Some(fault) = listing_fault(members.len()) {
            return Err(fault);
        }
        if let Some(alias) = first_unknown_alias(&self.aliases, members) {
            return Err(ZoningFault::Unknown(alias));
        }
        if is_full(&self.zones, &name, MOST_ZONES) {
            return Err(ZoningFault::Limit(ZoningLimit::Zones));
        }
        let members = members_of(self.alloc, members)?;
        put(&mut self.zones, name, members)?;
        Ok(())
    }

    /// Drops a zone.
    ///
    /// # Errors
    /// `Unknown` where there is none of this name, and `InUse` with the first zone set that names
    /// it. The zoning is then as it was.
    pub fn drop_zone(&mut self, name: &Name) -> Result<(), ZoningFault>
        ensures accepted { OnOk result (CanDropZone self.old name.now) }
        ensures ok { OnOk result (self.new ≡ record self.old { zones = map.remove self.old.zones name.now }) }
        ensures sound { OnOk result (IsSound self.old → IsSound self.new) }
        ensures refused { IfErr result (IsDropZoneFault self.old name.now) }
        ensures err { OnErr result (self.new ≡ self.old) }
    {
        if !knows(&self.zones, name) {
            return Err(ZoningFault::Unknown(*name));
        }
        if let Some(zone_set) = first_user(&self.sets, name) {
            return Err(ZoningFault::InUse(*name, *zone_set));
        }
        take_out(&mut self.zones, name);
        Ok(())
    }

    /// Makes a zone set, or replaces the zones of one. What is active stays as it is.
    ///
    /// # Errors
    /// `Empty` where no zone is listed, `Limit(Members)` where more than 255 are, `Unknown` with
    /// the first zone that is not there, `Limit(Sets)` where the set is new and there are 64, and
    /// `Memory`. The zoning is then as it was.
    pub fn put_set(&mut self, name: Name, zones: &[Name]) -> Result<(), ZoningFault>
        ensures accepted { OnOk result (CanPutSet self.old name zones.now) }
        ensures ok { OnOk result (self.new ≡ record self.old { sets = map.insert self.old.sets name (set.from_list zones.now) }) }
        ensures sound { OnOk result (IsSound self.old → IsSound self.new) }
        ensures refused { IfErr result (IsPutSetFault self.old name zones.now) }
        ensures err { OnErr result (self.new ≡ self.old) }
    {
        if let Some(fault) = listing_fault(zones.len()) {
            return Err(fault);
        }
        if let Some(zone) = first_unknown(&self.zones, zones) {
            return Err(ZoningFault::Unknown(zone));
        }
        if is_full(&self.sets, &name, MOST_SETS) {
            return Err(ZoningFault::Limit(ZoningLimit::Sets));
        }
        let zones = names_of(self.alloc, zones)?;
        put(&mut self.sets, name, zones)?;
        Ok(())
    }

    /// Drops a zone set, also while a copy of it is active: what is active stays as it is.
    ///
    /// # Errors
    /// `Unknown` where there is none of this name. The zoning is then as it was.
    pub fn drop_set(&mut self, name: &Name) -> Result<(), ZoningFault>
        ensures known { OnOk result (map.contains_key self.old.sets name.now ≡ true) }
        ensures ok { OnOk result (self.new ≡ record self.old { sets = map.remove self.old.sets name.now }) }
        ensures sound { OnOk result (IsSound self.old → IsSound self.new) }
        ensures refused { IfErr result (IsDropSetFault self.old name.now) }
        ensures err { OnErr result (self.new ≡ self.old) }
    {
        if !knows(&self.sets, name) {
            return Err(ZoningFault::Unknown(*name));
        }
        take_out(&mut self.sets, name);
        Ok(())
    }

    /// Makes a zone set the active one, in place of what was active: a copy of its zones, with
    /// their aliases replaced by the members that they have now.
    ///
    /// # Errors
    /// `Unknown` where there is no set of this name, `Limit(Active)` where it has more than 65536
    /// rows, and `Memory`. The zoning is then as it was.
    pub fn activate(&mut self, name: &Name) -> Result<(), ZoningFault>
        ensures known { OnOk result (map.contains_key self.old.sets name.now ≡ true) }
        ensures rows { OnOk result (AreResolved self.old name.now self.new.rows) }
        ensures few { OnOk result (set.len self.new.rows ≤ most_rows) }
        ensures rest { OnOk result (self.new ≡ record self.old { active = Some name.now; rows = self.new.rows }) }
        ensures sound { OnOk result (IsSound self.old → IsSound self.new) }
        ensures refused { IfErr result (IsActivateFault self.old name.now) }
        ensures err { OnErr result (self.new ≡ self.old) }
    {
        let Some(zone_set) = self.sets.get(name) else {
            return Err(ZoningFault::Unknown(*name));
        };
        self.rows = resolved(self.alloc, &self.aliases, &self.zones, zone_set)?;
        self.active = Some(*name);
        Ok(())
    }

    /// Leaves no zone set active, also where none was.
    pub fn deactivate(&mut self)
        ensures inactive { self.new ≡ record self.old { active = None; rows = set.empty } }
        ensures sound { IsSound self.old → IsSound self.new }
    {
        self.rows = ActiveRows::new(self.alloc);
        self.active = None;
    }

    /// Sets the active set: its name, and its rows in place of those that were there. Rows that
    /// are listed twice count once.
    ///
    /// # Errors
    /// `AllocError` where there is no memory. The zoning is then as it was.
    pub fn set_active(&mut self, name: Name, rows: &[(Name, Member)]) -> Result<(), AllocError>
        requires some { 0 < length rows.now }
        requires few { length rows.now ≤ most_rows }
        requires plain { All (λ row. IsPlain row.1) rows.now }
        ensures ok { OnOk result (self.new ≡ record self.old { active = Some name; rows = set.from_list rows.now }) }
        ensures sound { OnOk result (IsSound self.old → IsSound self.new) }
        ensures err { OnErr result (self.new ≡ self.old) }
    {
        self.rows = rows_of(self.alloc, rows)?;
        self.active = Some(name);
        Ok(())
    }

    /// Puts a member of an alias, and makes it where there is none of this name. Nothing is tested.
    ///
    /// # Errors
    /// `AllocError` where there is no memory. The zoning is then as it was.
    pub fn add_to_alias(&mut self, name: Name, member: Member) -> Result<(), AllocError>
        ensures puts { OnOk result (Puts (name, member) (IsItem self.old.aliases) (IsItem self.new.aliases)) }
        ensures rest { OnOk result (self.new ≡ record self.old { aliases = self.new.aliases }) }
        ensures some { OnOk result (HasSome self.old.aliases → HasSome self.new.aliases) }
        ensures err { OnErr result (self.new ≡ self.old) }
    {
        put_item(self.alloc, &mut self.aliases, name, member)
    }

    /// Takes out a member of an alias, if it is there, and the whole where nothing is left. Nothing is
    /// tested. It takes no memory.
    pub fn take_from_alias(&mut self, name: &Name, member: &Member)
        ensures takes { Takes (name.now, member.now) (IsItem self.old.aliases) (IsItem self.new.aliases) }
        ensures rest { self.new ≡ record self.old { aliases = self.new.aliases } }
        ensures some { HasSome self.old.aliases → HasSome self.new.aliases }
    {
        take_item(&mut self.aliases, name, member);
    }

    /// Puts a member of a zone, and makes it where there is none of this name. Nothing is tested.
    ///
    /// # Errors
    /// `AllocError` where there is no memory. The zoning is then as it was.
    pub fn add_to_zone(&mut self, name: Name, member: Member) -> Result<(), AllocError>
        ensures puts { OnOk result (Puts (name, member) (IsItem self.old.zones) (IsItem self.new.zones)) }
        ensures rest { OnOk result (self.new ≡ record self.old { zones = self.new.zones }) }
        ensures some { OnOk result (HasSome self.old.zones → HasSome self.new.zones) }
        ensures err { OnErr result (self.new ≡ self.old) }
    {
        put_item(self.alloc, &mut self.zones, name, member)
    }

    /// Takes out a member of a zone, if it is there, and the whole where nothing is left. Nothing is
    /// tested. It takes no memory.
    pub fn take_from_zone(&mut self, name: &Name, member: &Member)
        ensures takes { Takes (name.now, member.now) (IsItem self.old.zones) (IsItem self.new.zones) }
        ensures rest { self.new ≡ record self.old { zones = self.new.zones } }
        ensures some { HasSome self.old.zones → HasSome self.new.zones }
    {
        take_item(&mut self.zones, name, member);
    }

    /// Puts a zone of a zone set, and makes it where there is none of this name. Nothing is tested.
    ///
    /// # Errors
    /// `AllocError` where there is no memory. The zoning is then as it was.
    pub fn add_to_set(&mut self, name: Name, zone: Name) -> Result<(), AllocError>
        ensures puts { OnOk result (Puts (name, zone) (IsItem self.old.sets) (IsItem self.new.sets)) }
        ensures rest { OnOk result (self.new ≡ record self.old { sets = self.new.sets }) }
        ensures some { OnOk result (HasSome self.old.sets → HasSome self.new.sets) }
        ensures err { OnErr result (self.new ≡ self.old) }
    {
        put_item(self.alloc, &mut self.sets, name, zone)
    }

    /// Takes out a zone of a zone set, if it is there, and the whole where nothing is left. Nothing is
    /// tested. It takes no memory.
    pub fn take_from_set(&mut self, name: &Name, zone: &Name)
        ensures takes { Takes (name.now, zone.now) (IsItem self.old.sets) (IsItem self.new.sets) }
        ensures rest { self.new ≡ record self.old { sets = self.new.sets } }
        ensures some { HasSome self.old.sets → HasSome self.new.sets }
    {
        take_item(&mut self.sets, name, zone);
    }

    /// Puts an active row. Nothing is tested.
    ///
    /// # Errors
    /// `AllocError` where there is no memory. The zoning is then as it was.
    pub fn add_active(&mut self, zone: Name, member: Member) -> Result<(), AllocError>
        ensures ok { OnOk result (self.new ≡ record self.old { rows = set.insert self.old.rows (zone, member) }) }
        ensures err { OnErr result (self.new ≡ self.old) }
    {
        self.rows.put(zone, member)
    }

    /// Takes out an active row, if it is there. Nothing is tested. It takes no memory.
    pub fn take_active(&mut self, zone: &Name, member: &Member)
        ensures { self.new ≡ record self.old { rows = set.remove self.old.rows (zone.now, member.now) } }
    {
        self.rows.take(zone, member);
    }

    /// Sets the name of the active set, or none. Nothing is tested, and the rows stay.
    pub fn set_active_name(&mut self, name: Option<Name>)
        ensures { self.new ≡ record self.old { active = name } }
    {
        self.active = name;
    }

    /// Why two ports may communicate, where they may. It takes no memory.
    ///
    /// They may where they are two ports, both logged in at this fabric, and some zone of the
    /// active set has both, or neither is in a zone of it and the default zone permits. With no
    /// active set each port is in the default zone.
    pub fn joined(&self, p: &Port, q: &Port) -> Option<Why<'_>>
        ensures joined { IsSome result ↔ Joined self.now p.now q.now }
        ensures why { IfSome result (Explains self.now p.now q.now) }
    {
        if p.name == q.name
            || !is_logged_in_at(self.fabric, p)
            || !is_logged_in_at(self.fabric, q)
        {
            return None;
        }
        let zones_of_p = self.rows.zones_of(p);
        let zones_of_q = self.rows.zones_of(q);
        if let Some(zone) = zones_of_p.first_common(&zones_of_q) {
            return Some(Why::Zone(zone));
        }
        if let DefaultFlag::Deny = self.flag {
            return None;
        }
        if !zones_of_p.is_empty() || !zones_of_q.is_empty() {
            return None;
        }
        Some(Why::Default)
    }

    /// The fabric whose zoning it is.
    pub fn fabric(&self) -> Fabric
        ensures { result ≡ self.now.fabric }
    {
        self.fabric
    }

    /// The name of the active set, if one is active.
    pub fn active(&self) -> Option<Name>
        ensures { result ≡ self.now.active }
    {
        self.active
    }

    /// What the default zone permits.
    pub fn flag(&self) -> DefaultFlag
        ensures { result ≡ self.now.flag }
    {
        self.flag
    }

    /// The members of an alias.
    pub fn alias(&self, name: &Name) -> Option<&BTreeSet<Member, A>>
        ensures { option_map (seen_set member_cmp) (option_copied result) ≡ map.get self.now.aliases name.now }
    {
        self.aliases.get(name)
    }

    /// The members of a zone.
    pub fn zone(&self, name: &Name) -> Option<&BTreeSet<Member, A>>
        ensures { option_map (seen_set member_cmp) (option_copied result) ≡ map.get self.now.zones name.now }
    {
        self.zones.get(name)
    }

    /// The zones of a zone set.
    pub fn zone_set(&self, name: &Name) -> Option<&BTreeSet<Name, A>>
        ensures { option_map (seen_set name_cmp) (option_copied result) ≡ map.get self.now.sets name.now }
    {
        self.sets.get(name)
    }

    /// The aliases with their members, in the order of their names.
    pub fn aliases(&self) -> Iter<'_, Name, BTreeSet<Member, A>>
        ensures aliases { seen_sets name_cmp member_cmp result ≡ self.now.aliases }
        ensures ordered { IsStrictlySortedBy name_cmp (keys_of result) }
    {
        self.aliases.iter()
    }

    /// The zones with their members, in the order of their names.
    pub fn zones(&self) -> Iter<'_, Name, BTreeSet<Member, A>>
        ensures zones { seen_sets name_cmp member_cmp result ≡ self.now.zones }
        ensures ordered { IsStrictlySortedBy name_cmp (keys_of result) }
    {
        self.zones.iter()
    }

    /// The zone sets with their zones, in the order of their names.
    pub fn zone_sets(&self) -> Iter<'_, Name, BTreeSet<Name, A>>
        ensures sets { seen_sets name_cmp name_cmp result ≡ self.now.sets }
        ensures ordered { IsStrictlySortedBy name_cmp (keys_of result) }
    {
        self.sets.iter()
    }

    /// Whether the row of a zone and a member is active. It takes no memory.
    pub fn has_active(&self, zone: &Name, member: &Member) -> bool
        ensures { result ≡ set.contains self.now.rows (zone.now, member.now) }
    {
        self.rows.contains(zone, member)
    }

    /// The zones of the active set that have the port, wherever it is logged in: those with its
    /// N_Port_Name, those with its Node_Name, those with its place and those with its N_Port_ID. It takes
    /// no memory.
    pub fn zones_of(&self, port: &Port) -> PortZones<'_, A>
        ensures { (z : List ℕ) → (in_zones result z ≡ true) ↔ Holds self.now.rows port.now z }
    {
        self.rows.zones_of(port)
    }

    /// The zones of the active set that have the member as it stands there, if one has it. It takes no
    /// memory.
    pub fn active_zones_with(&self, member: &Member) -> Option<&BTreeSet<Name, A>>
        ensures { (z : List ℕ) → in_tree name_cmp (option_copied result) z ≡ set.contains self.now.rows (z, member.now) }
    {
        self.rows.zones_with(member)
    }

    /// The active rows: the zones in which each member is, in the order of the members.
    pub fn active_zones(&self) -> Iter<'_, Member, BTreeSet<Name, A>>
        ensures rows { seen_rows result ≡ self.now.rows }
        ensures ordered { IsStrictlySortedBy member_cmp (keys_of result) }
    {
        self.rows.zones_by_member()
    }

    /// How many rows are active, counted no further than one past the limit. It takes no memory.
    pub fn active_count(&self) -> usize
        ensures { result ≡ min (set.len self.now.rows) (most_rows + 1) }
    {
        self.rows.count()
    }

    /// The active rows, by zone and then by member. The time grows in step with the rows and the
    /// logarithm of their number.
    ///
    /// # Errors
    /// `AllocError` where there is no memory.
    pub fn active_rows(&self) -> Result<BTreeSet<(Name, Member), A>, AllocError>
        ensures { IfOk result (λ rows. IsListOf row_cmp (IsRowOf self.now.rows) rows.keys) }
    {
        self.rows.by_zone()
    }

    /// An equal zoning.
    ///
    /// # Errors
    /// `AllocError` where there is no memory.
    pub fn copy(&self) -> Result<Zoning<A>, AllocError>
        ensures { IfOk result (λ copy. copy ≡ self.now) }
    {
        Ok(Zoning {
            alloc: self.alloc,
            fabric: self.fabric,
            aliases: self.aliases.clone()?,
            zones: self.zones.clone()?,
            sets: self.sets.clone()?,
            active: self.active,
            rows: self.rows.copy()?,
            flag: self.flag,
        })
    }
}
