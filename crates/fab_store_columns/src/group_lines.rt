//! Lines of the table of groups.
ghost use Rattle.std.specs.Prelude.{MatchOption, IfOk, string_bytes};
ghost use Rattle.fab_store_rows.specs.declared.config_row.GroupRow.{GroupRow};
ghost use Rattle.fab_store_rows.specs.declared.config_row.GroupRow.TheVariants as group;
ghost use Rattle.fab_store_rows.specs.declared.config_row.HostGroupRow.{HostGroupRow};
ghost use Rattle.fab_store_rows.specs.declared.config_row.StorageGroupRow.{StorageGroupRow};
ghost use Rattle.fab_store_columns.specs.GroupLines as spec;
ghost use Rattle.std.specs.Prelude.{codes};

use fab_store_columns_base::{flag_column, name_text, read_flag, read_name};
use fab_store_rows::{GroupRow, HostGroupRow, StorageGroupRow};
use std::alloc::{AllocError, Allocator};
use std::marker::Model;

/// A line of `groups`. A contract sees its columns.
#[derive(Drop)]
pub struct GroupLine<A: Allocator + Copy> {
    /// `host` or `storage`.
    pub kind: String<A>,
    pub name: String<A>,
    pub tenant: String<A>,
    /// The name of a storage group's array, or the empty text.
    pub array: String<A>,
    /// 1 where a storage group is exposed, else 0.
    pub exposed: i64,
}

impl<A: Allocator + Copy> Model for GroupLine<A> {
    ghost use Rattle.std.specs.Prelude.{string_bytes};
    ghost use Rattle.fab_store_columns.specs.GroupLines.{GroupColumns};

    ghost Value = { GroupColumns };

    ghost view = { λ l. record { kind = string_bytes l.kind; name = string_bytes l.name; tenant = string_bytes l.tenant; array = string_bytes l.array; exposed = l.exposed } };
}

/// The host group that four columns show, if they show one.
fn read_host_group(name: &str, tenant: &str, array: &str, exposed: &i64) -> Option<GroupRow>
    ensures { MatchOption result ((r : HostGroupRow) → ¬ spec.ShowsGroup (spec.group_line (codes "host") name.now tenant.now array.now exposed.now) (group.Host r))
        (spec.ShowsGroup (spec.group_line (codes "host") name.now tenant.now array.now exposed.now)) }
{
    let Some(name) = read_name(name) else {
        return None;
    };
    let Some(tenant) = read_name(tenant) else {
        return None;
    };
    if *exposed != 0 {
        return None;
    }
    if !array.is_empty() {
        return None;
    }
    Some(GroupRow::Host(HostGroupRow { name, tenant }))
}

/// The storage group that four columns show, if they show one.
fn read_storage_group(name: &str, tenant: &str, array: &str, exposed: &i64) -> Option<GroupRow>
    ensures { MatchOption result ((r : StorageGroupRow) → ¬ spec.ShowsGroup (spec.group_line (codes "storage") name.now tenant.now array.now exposed.now) (group.Storage r))
        (spec.ShowsGroup (spec.group_line (codes "storage") name.now tenant.now array.now exposed.now)) }
{
    let Some(name) = read_name(name) else {
        return None;
    };
    let Some(tenant) = read_name(tenant) else {
        return None;
    };
    let Some(array) = read_name(array) else {
        return None;
    };
    let Some(exposed) = read_flag(exposed) else {
        return None;
    };
    Some(GroupRow::Storage(StorageGroupRow {
        name,
        tenant,
        array,
        exposed,
    }))
}

/// The group that five columns show, if they show one. It takes no memory.
pub fn read_group(
    kind: &str,
    name: &str,
    tenant: &str,
    array: &str,
    exposed: &i64,
) -> Option<GroupRow>
    ensures { MatchOption result ((r : GroupRow) → ¬ spec.ShowsGroup (spec.group_line kind.now name.now tenant.now array.now exposed.now) r)
        (spec.ShowsGroup (spec.group_line kind.now name.now tenant.now array.now exposed.now)) }
{
    match kind {
        "host" => read_host_group(name, tenant, array, exposed),
        "storage" => read_storage_group(name, tenant, array, exposed),
        _ => None,
    }
}

/// The line of a host group.
fn print_host_group<A: Allocator + Copy>(
    alloc: A,
    row: &HostGroupRow,
) -> Result<GroupLine<A>, AllocError>
    ensures { IfOk result (λ line. spec.ShowsGroup line (group.Host row.now)) }
{
    Ok(GroupLine {
        kind: "host".to_string(alloc)?,
        name: name_text(alloc, &row.name)?,
        tenant: name_text(alloc, &row.tenant)?,
        array: String::new(alloc),
        exposed: 0,
    })
}

/// The line of a storage group.
fn print_storage_group<A: Allocator + Copy>(
    alloc: A,
    row: &StorageGroupRow,
) -> Result<GroupLine<A>, AllocError>
    ensures { IfOk result (λ line. spec.ShowsGroup line (group.Storage row.now)) }
{
    Ok(GroupLine {
        kind: "storage".to_string(alloc)?,
        name: name_text(alloc, &row.name)?,
        tenant: name_text(alloc, &row.tenant)?,
        array: name_text(alloc, &row.array)?,
        exposed: flag_column(row.exposed),
    })
}

impl<A: Allocator + Copy> GroupLine<A> {
    /// The row that the line shows, if it shows one. It takes no memory.
    pub fn read(&self) -> Option<GroupRow>
        ensures { MatchOption result ((r : GroupRow) → ¬ spec.ShowsGroup self.now r) (spec.ShowsGroup self.now) }
    {
        read_group(
            self.kind.as_str(),
            self.name.as_str(),
            self.tenant.as_str(),
            self.array.as_str(),
            &self.exposed,
        )
    }

    /// The line that shows the row.
    ///
    /// # Errors
    /// `AllocError` where there is no memory.
    pub fn print(alloc: A, row: &GroupRow) -> Result<Self, AllocError>
        ensures { IfOk result (λ line. spec.ShowsGroup line row.now) }
    {
        match row {
            GroupRow::Host(row) => print_host_group(alloc, row),
            GroupRow::Storage(row) => print_storage_group(alloc, row),
        }
    }
}
