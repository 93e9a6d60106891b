//! Whether the storage groups that rows touch clash with others.
ghost use Rattle.std.specs.Prelude.{◌≡◌, ◌↔◌, ℕ, List, true, OnOk, IfOk, IsTrue};
ghost use Rattle.std.specs.BTreeSet.{contains};
ghost use Rattle.fab_reach_base.specs.fab_lemmas.Adding.{Adds};
ghost use Rattle.fab_reach_base.specs.fab_names.Orders.{name_cmp};
ghost use Rattle.fab_store_drafts.specs.Inner.Nearby.{IsFine};
ghost use Rattle.fab_store_drafts.specs.There.{GroupTouches, PartTouches, Touches, IsTouched, IsClear, IsClearAt};
ghost use Rattle.fab_store_drafts.specs.Users.{AreUsers};

use crate::nearby::beside;
use crate::users::Users;
use crate::uses::Used;
use fab_reach_base::Config;
use fab_reach_base::mapping::base::are_at_odds;
use fab_reach_base::mapping::{Mapping, StorageGroup};
use fab_reach_base::names::Name;
use fab_store_rows::{ConfigRow, GroupRow, PartRow};
use std::alloc::{AllocError, Allocator};
use std::collections::BTreeSet;

/// Whether an exposed storage group of this name, if there is one, is not at odds with this one.
fn is_fine<A: Allocator + Copy>(mapping: &Mapping<A>, group: &StorageGroup<A>, name: &Name) -> bool
    ensures { IsTrue result ↔ IsFine mapping.now group.now name.now }
{
    let Some(other) = mapping.group(name) else {
        return true;
    };
    if !other.is_exposed() {
        return true;
    }
    !are_at_odds(group, other)
}

/// Whether none of the storage groups of these names is exposed and at odds with this one.
fn are_fine<A: Allocator + Copy>(
    mapping: &Mapping<A>,
    group: &StorageGroup<A>,
    names: &BTreeSet<Name, A>,
) -> bool
    ensures { IsTrue result ↔ ((n : List ℕ) → contains name_cmp names.now n ≡ true → IsFine mapping.now group.now n) }
{
    for name in names {
        if !is_fine(mapping, group, name) {
            return false;
        }
    }
    true
}

/// Whether no exposed storage group maps another volume where this one maps one.
///
/// # Errors
/// `AllocError` where there is no memory.
fn is_clear<A: Allocator + Copy>(
    alloc: A,
    config: &Config<A>,
    users: &Users<A>,
    group: &StorageGroup<A>,
) -> Result<bool, AllocError>
    requires { AreUsers config.now users.now }
    ensures { IfOk result (λ is. IsTrue is ↔ IsClear config.now.mapping group.now) }
{
    let mapping = config.mapping();
    let names = beside(alloc, mapping, users, group)?;
    Ok(are_fine(mapping, group, &names))
}

/// Whether an exposed storage group of this name, if there is one, is clear of the others.
///
/// # Errors
/// `AllocError` where there is no memory.
fn is_clear_at<A: Allocator + Copy>(
    alloc: A,
    config: &Config<A>,
    users: &Users<A>,
    name: &Name,
) -> Result<bool, AllocError>
    requires { AreUsers config.now users.now }
    ensures { IfOk result (λ is. IsTrue is ↔ IsClearAt config.now.mapping name.now) }
{
    let Some(group) = config.mapping().group(name) else {
        return Ok(true);
    };
    if !group.is_exposed() {
        return Ok(true);
    }
    is_clear(alloc, config, users, group)
}

/// Adds the storage group that the row of a group touches.
fn add_group<A: Allocator + Copy>(
    touched: &mut BTreeSet<Name, A>,
    row: &GroupRow,
) -> Result<(), AllocError>
    ensures { OnOk result (Adds (GroupTouches row.now) (contains name_cmp touched.old) (contains name_cmp touched.new)) }
{
    match row {
        GroupRow::Host(_) => Ok(()),
        GroupRow::Storage(row) => add_name(touched, row.name),
    }
}

/// Adds a name.
fn add_name<A: Allocator + Copy>(
    names: &mut BTreeSet<Name, A>,
    name: Name,
) -> Result<(), AllocError>
    ensures { OnOk result (Adds (λ n. name ≡ n) (contains name_cmp names.old) (contains name_cmp names.new)) }
{
    names.insert(name)?;
    Ok(())
}

/// Adds the storage groups that the row of a part touches.
fn add_part<A: Allocator + Copy>(
    touched: &mut BTreeSet<Name, A>,
    config: &Config<A>,
    users: &Users<A>,
    row: &PartRow,
) -> Result<(), AllocError>
    requires { AreUsers config.now users.now }
    ensures { OnOk result (Adds (PartTouches config.now.mapping row.now) (contains name_cmp touched.old) (contains name_cmp touched.new)) }
{
    let _config = config;
    match row {
        PartRow::Host(hosts, _) => users.add_to(touched, &Used::HostGroup(*hosts)),
        PartRow::Storage(name, _) => add_name(touched, *name),
    }
}

/// Adds the storage groups that the row touches.
fn add_touched<A: Allocator + Copy>(
    touched: &mut BTreeSet<Name, A>,
    config: &Config<A>,
    users: &Users<A>,
    row: &ConfigRow,
) -> Result<(), AllocError>
    requires { AreUsers config.now users.now }
    ensures { OnOk result (Adds (Touches config.now.mapping row.now) (contains name_cmp touched.old) (contains name_cmp touched.new)) }
{
    match row {
        ConfigRow::Group(row) => add_group(touched, row),
        ConfigRow::Part(row) => add_part(touched, config, users, row),
        _ => Ok(()),
    }
}

/// The storage groups that the rows touch, each once.
///
/// # Errors
/// `AllocError` where there is no memory.
fn touched_by<A: Allocator + Copy>(
    alloc: A,
    config: &Config<A>,
    users: &Users<A>,
    rows: &[ConfigRow],
) -> Result<BTreeSet<Name, A>, AllocError>
    requires { AreUsers config.now users.now }
    ensures { IfOk result (λ names. (n : List ℕ) → (contains name_cmp names n ≡ true) ↔ IsTouched config.now.mapping rows.now n) }
{
    let mut touched = BTreeSet::new(alloc);
    for row in rows {
        add_touched(&mut touched, config, users, row)?;
    }
    Ok(touched)
}

/// Whether each of the storage groups of these names is clear of the others.
///
/// # Errors
/// `AllocError` where there is no memory.
fn are_clear<A: Allocator + Copy>(
    alloc: A,
    config: &Config<A>,
    users: &Users<A>,
    names: &BTreeSet<Name, A>,
) -> Result<bool, AllocError>
    requires { AreUsers config.now users.now }
    ensures { IfOk result (λ are. IsTrue are ↔ ((n : List ℕ) → contains name_cmp names.now n ≡ true → IsClearAt config.now.mapping n)) }
{
    for name in names {
        if !is_clear_at(alloc, config, users, name)? {
            return Ok(false);
        }
    }
    Ok(true)
}

/// Whether the storage groups that the rows touch are clear of the others.
///
/// # Errors
/// `AllocError` where there is no memory.
pub fn has_no_clash<A: Allocator + Copy>(
    alloc: A,
    config: &Config<A>,
    users: &Users<A>,
    rows: &[ConfigRow],
) -> Result<bool, AllocError>
    requires { AreUsers config.now users.now }
    ensures { IfOk result (λ no_clash. IsTrue no_clash ↔ ((n : List ℕ) → IsTouched config.now.mapping rows.now n → IsClearAt config.now.mapping n)) }
{
    let names = touched_by(alloc, config, users, rows)?;
    are_clear(alloc, config, users, &names)
}
