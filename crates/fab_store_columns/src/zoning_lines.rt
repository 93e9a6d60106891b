//! Lines of the tables of zoning items and of active rows.
ghost use Rattle.std.specs.Prelude.{◌≡◌, ℕ, List, MatchOption, IfOk, string_bytes};
ghost use Rattle.fab_names.specs.Names.{SpellsName};
ghost use Rattle.fab_names.specs.Members.{SpellsPrinted};
ghost use Rattle.fab_names.specs.declared.member.Member.{Member};
ghost use Rattle.fab_store_rows.specs.declared.config_row.ZoningItem.{ZoningItem};
ghost use Rattle.fab_store_rows.specs.declared.config_row.ZoningRow.{ZoningRow};
ghost use Rattle.fab_store_rows.specs.declared.config_row.ActiveRow.{ActiveRow};
ghost use Rattle.fab_store_columns.specs.ZoningLines as spec;

use fab_names::{Member, Name};
use fab_store_columns_base::{name_text, print_member, read_fabric, read_name};
use fab_store_rows::{ActiveRow, ZoningItem, ZoningRow};
use std::alloc::{AllocError, Allocator};
use std::marker::Model;

/// A line of `zoning`. A contract sees its columns.
#[derive(Drop)]
pub struct ZoningLine<A: Allocator + Copy> {
    /// `A` or `B`.
    pub fabric: String<A>,
    /// `alias`, `zone` or `set`.
    pub kind: String<A>,
    pub name: String<A>,
    /// A member as printed, or of a set the name of a zone.
    pub item: String<A>,
}

impl<A: Allocator + Copy> Model for ZoningLine<A> {
    ghost use Rattle.std.specs.Prelude.{string_bytes};
    ghost use Rattle.fab_store_columns.specs.ZoningLines.{ZoningColumns};

    ghost Value = { ZoningColumns };

    ghost view = { λ l. record { fabric = string_bytes l.fabric; kind = string_bytes l.kind; name = string_bytes l.name; item = string_bytes l.item } };
}

/// A line of `active`. A contract sees its columns.
#[derive(Drop)]
pub struct ActiveLine<A: Allocator + Copy> {
    /// `A` or `B`.
    pub fabric: String<A>,
    pub zone: String<A>,
    /// A member as printed.
    pub member: String<A>,
}

impl<A: Allocator + Copy> Model for ActiveLine<A> {
    ghost use Rattle.std.specs.Prelude.{string_bytes};
    ghost use Rattle.fab_store_columns.specs.ZoningLines.{ActiveColumns};

    ghost Value = { ActiveColumns };

    ghost view = { λ l. record { fabric = string_bytes l.fabric; zone = string_bytes l.zone; member = string_bytes l.member } };
}

/// A name and a member, in two texts.
fn read_name_and_member(name: &str, item: &str) -> Option<(Name, Member)>
    ensures { MatchOption result ((n : List ℕ) (m : Member) → SpellsName name.now n → ¬ SpellsPrinted item.now m)
        (λ found. SpellsName name.now found.0 × SpellsPrinted item.now found.1) }
{
    let Some(name) = read_name(name) else {
        return None;
    };
    let Some(member) = Member::read_printed(item) else {
        return None;
    };
    Some((name, member))
}

/// Two names, in two texts.
fn read_two_names(name: &str, item: &str) -> Option<(Name, Name)>
    ensures { MatchOption result ((n k : List ℕ) → SpellsName name.now n → ¬ SpellsName item.now k)
        (λ found. SpellsName name.now found.0 × SpellsName item.now found.1) }
{
    let Some(name) = read_name(name) else {
        return None;
    };
    let Some(item) = read_name(item) else {
        return None;
    };
    Some((name, item))
}

/// The item that three columns show, if they show one.
fn read_item(kind: &str, name: &str, item: &str) -> Option<ZoningItem>
    ensures { MatchOption result ((r : ZoningItem) → ¬ spec.ShowsItemAt kind.now name.now item.now r)
        (spec.ShowsItemAt kind.now name.now item.now) }
{
    match kind {
        "alias" => match read_name_and_member(name, item) {
            Some(found) => Some(ZoningItem::Alias(found.0, found.1)),
            None => None,
        },
        "zone" => match read_name_and_member(name, item) {
            Some(found) => Some(ZoningItem::Zone(found.0, found.1)),
            None => None,
        },
        "set" => match read_two_names(name, item) {
            Some(found) => Some(ZoningItem::Set(found.0, found.1)),
            None => None,
        },
        _ => None,
    }
}

/// The row that four columns show, if they show one. It takes no memory.
pub fn read_zoning(fabric: &str, kind: &str, name: &str, item: &str) -> Option<ZoningRow>
    ensures { MatchOption result ((r : ZoningRow) → ¬ spec.ShowsZoning (spec.zoning_line fabric.now kind.now name.now item.now) r)
        (spec.ShowsZoning (spec.zoning_line fabric.now kind.now name.now item.now)) }
{
    let Some(fabric) = read_fabric(fabric) else {
        return None;
    };
    let Some(item) = read_item(kind, name, item) else {
        return None;
    };
    Some(ZoningRow { fabric, item })
}

/// The row that three columns show, if they show one. It takes no memory.
pub fn read_active(fabric: &str, zone: &str, member: &str) -> Option<ActiveRow>
    ensures { MatchOption result ((r : ActiveRow) → ¬ spec.ShowsActive (spec.active_line fabric.now zone.now member.now) r)
        (spec.ShowsActive (spec.active_line fabric.now zone.now member.now)) }
{
    let Some(fabric) = read_fabric(fabric) else {
        return None;
    };
    let Some(zone) = read_name(zone) else {
        return None;
    };
    let Some(member) = Member::read_printed(member) else {
        return None;
    };
    Some(ActiveRow {
        fabric,
        zone,
        member,
    })
}

/// The word of what has the item.
fn kind_of_item(item: &ZoningItem) -> &'static str
    ensures { result.now ≡ spec.kind_of_item item.now }
{
    match item {
        ZoningItem::Alias(_, _) => "alias",
        ZoningItem::Zone(_, _) => "zone",
        ZoningItem::Set(_, _) => "set",
    }
}

/// The name of what has the item.
fn print_name_of_item<A: Allocator>(alloc: A, item: &ZoningItem) -> Result<String<A>, AllocError>
    ensures { IfOk result (λ text. SpellsName (string_bytes text) (spec.name_of_item item.now)) }
{
    match item {
        ZoningItem::Alias(name, _) => name_text(alloc, name),
        ZoningItem::Zone(name, _) => name_text(alloc, name),
        ZoningItem::Set(name, _) => name_text(alloc, name),
    }
}

/// The text of the item.
fn print_item<A: Allocator>(alloc: A, item: &ZoningItem) -> Result<String<A>, AllocError>
    ensures { IfOk result (λ text. spec.ShowsItem (string_bytes text) item.now) }
{
    match item {
        ZoningItem::Alias(_, member) => print_member(alloc, member),
        ZoningItem::Zone(_, member) => print_member(alloc, member),
        ZoningItem::Set(_, zone) => name_text(alloc, zone),
    }
}

impl<A: Allocator + Copy> ZoningLine<A> {
    /// The row that the line shows, if it shows one. It takes no memory.
    pub fn read(&self) -> Option<ZoningRow>
        ensures { MatchOption result ((r : ZoningRow) → ¬ spec.ShowsZoning self.now r) (spec.ShowsZoning self.now) }
    {
        read_zoning(
            self.fabric.as_str(),
            self.kind.as_str(),
            self.name.as_str(),
            self.item.as_str(),
        )
    }

    /// The line that shows the row.
    ///
    /// # Errors
    /// `AllocError` where there is no memory.
    pub fn print(alloc: A, row: &ZoningRow) -> Result<Self, AllocError>
        ensures { IfOk result (λ line. spec.ShowsZoning line row.now) }
    {
        Ok(ZoningLine {
            fabric: row.fabric.print(alloc)?,
            kind: kind_of_item(&row.item).to_string(alloc)?,
            name: print_name_of_item(alloc, &row.item)?,
            item: print_item(alloc, &row.item)?,
        })
    }
}

impl<A: Allocator + Copy> ActiveLine<A> {
    /// The row that the line shows, if it shows one. It takes no memory.
    pub fn read(&self) -> Option<ActiveRow>
        ensures { MatchOption result ((r : ActiveRow) → ¬ spec.ShowsActive self.now r) (spec.ShowsActive self.now) }
    {
        read_active(
            self.fabric.as_str(),
            self.zone.as_str(),
            self.member.as_str(),
        )
    }

    /// The line that shows the row.
    ///
    /// # Errors
    /// `AllocError` where there is no memory.
    pub fn print(alloc: A, row: &ActiveRow) -> Result<Self, AllocError>
        ensures { IfOk result (λ line. spec.ShowsActive line row.now) }
    {
        Ok(ActiveLine {
            fabric: row.fabric.print(alloc)?,
            zone: name_text(alloc, &row.zone)?,
            member: print_member(alloc, &row.member)?,
        })
    }
}
