//! Values at the keys of a table, whatever they mean.
ghost use Rattle.std.specs.Prelude.{◌≡◌, IfOk, OnOk, not, option_map, option_copied, string_bytes, find};
ghost use Rattle.std.specs.Map.{keys_of};
ghost use Rattle.toml.specs.Data.{get_member};
ghost use Rattle.toml.specs.View.{view, table_view, array_view};
ghost use Rattle.fab_policy_text.specs.Shapes as shapes;
ghost use Rattle.fab_policy_base.specs.Words.{key_word, is_word_of};

use crate::unknown::unknown;
use fab_policy_base::{Key, PolicyFault, is_word_of};
use std::alloc::Global;
use toml::value::Array;
use toml::{Table, Value};

/// What is read from a value that stands at a key.
pub(crate) trait Read {
    ghost use Rattle.toml.specs.Data.{Data};
    ghost use Rattle.fab_policy_base.specs.declared.fault.PolicyFault.{PolicyFault};
    ghost use Rattle.fab_policy_base.specs.declared.key.Key.{Key};

    ghost means: { Data → Self → Type 0 };

    ghost wrong: { Key → Data → PolicyFault → Type 0 };

    /// Reads the value that stands at the key.
    fn read(alloc: Global, value: &Value, key: Key) -> Result<Self, PolicyFault>
        ensures ok { IfOk result (means (view value.now)) }
        ensures fault { shapes.IfRefused result (wrong key (view value.now)) };
}

/// The value at a key.
pub(crate) fn member(table: &Table, key: Key) -> Option<&Value>
    ensures { option_map (λ v. view v.now) result ≡ get_member (key_word key) (table_view table.entry.now) }
{
    table.get(key.word())
}

/// What the value at a key means.
pub(crate) fn field<T: Read>(alloc: Global, table: &Table, key: Key) -> Result<T, PolicyFault>
    ensures ok { IfOk result (shapes.At key T.means (table_view table.now)) }
    ensures fault { shapes.IfRefused result (shapes.FaultAt key T.wrong (table_view table.now)) }
{
    match member(table, key) {
        Some(value) => T::read(alloc, value, key),
        None => Err(PolicyFault::Missing(key)),
    }
}

/// What the value at a key means, where the key is there.
pub(crate) fn optional<T: Read>(
    alloc: Global,
    table: &Table,
    key: Key,
) -> Result<Option<T>, PolicyFault>
    ensures ok { IfOk result (shapes.MaybeAt key T.means (table_view table.now)) }
    ensures fault { shapes.IfRefused result (shapes.FaultIn key T.wrong (table_view table.now)) }
{
    let Some(value) = member(table, key) else {
        return Ok(None);
    };
    Ok(Some(T::read(alloc, value, key)?))
}

/// What each item of an array means.
pub(crate) fn each<T: Read + Drop>(
    alloc: Global,
    items: &Array,
    key: Key,
) -> Result<Vec<T>, PolicyFault>
    ensures ok { IfOk result (λ v. shapes.EachMeans T.means (array_view items.now) v.items) }
    ensures fault { shapes.IfRefused result (shapes.ItemFault T.wrong key (array_view items.now)) }
{
    let mut read = Vec::new(alloc);
    for item in items {
        match T::read(alloc, item, key) {
            Ok(x) => {
                let Ok(()) = read.push(x) else {
                    return Err(PolicyFault::Memory);
                };
            }
            Err(e) => return Err(e),
        }
    }
    Ok(read)
}

/// What the items of an array mean, of which there may be so many.
pub(crate) fn list<T: Read + Drop>(
    alloc: Global,
    value: &Value,
    key: Key,
    limit: usize,
) -> Result<Vec<T>, PolicyFault>
    ensures ok { IfOk result (λ v. shapes.IsList T.means limit (view value.now) v.items) }
    ensures fault { shapes.IfRefused result (shapes.ListFault T.wrong limit key (view value.now)) }
{
    let Some(items) = value.as_array() else {
        return Err(PolicyFault::WrongType(key));
    };
    if items.len() > limit {
        return Err(PolicyFault::Limit(key));
    }
    match each(alloc, items, key) {
        Ok(read) => Ok(read),
        Err(e) => Err(e),
    }
}

/// The list at a key.
pub(crate) fn list_at<T: Read + Drop>(
    alloc: Global,
    table: &Table,
    key: Key,
    limit: usize,
) -> Result<Vec<T>, PolicyFault>
    ensures ok { IfOk result (λ v. shapes.At key (shapes.IsList T.means limit) (table_view table.now) v.items) }
    ensures fault { shapes.IfRefused result (shapes.FaultAt key (shapes.ListFault T.wrong limit) (table_view table.now)) }
{
    match member(table, key) {
        Some(value) => list(alloc, value, key, limit),
        None => Err(PolicyFault::Missing(key)),
    }
}

/// The list at a key, empty where the key is missing.
pub(crate) fn optional_list<T: Read + Drop>(
    alloc: Global,
    table: &Table,
    key: Key,
    limit: usize,
) -> Result<Vec<T>, PolicyFault>
    ensures ok { IfOk result (λ v. shapes.ListAt key T.means limit (table_view table.now) v.items) }
    ensures fault { shapes.IfRefused result (shapes.FaultIn key (shapes.ListFault T.wrong limit) (table_view table.now)) }
{
    match member(table, key) {
        Some(value) => list(alloc, value, key, limit),
        None => Ok(Vec::new(alloc)),
    }
}

/// A key of the table that is none of these.
fn other_key<'a>(table: &'a Table, keys: &[Key]) -> Option<&'a String>
    ensures { option_copied result
        ≡ find (λ k. not (is_word_of keys.now (string_bytes k))) (keys_of table.now.entries) }
{
    table.keys().find(|k| !is_word_of(keys, k.as_str()))
}

/// Refuses a table with a key that is none of these.
pub(crate) fn only(alloc: Global, table: &Table, keys: &[Key]) -> Result<(), PolicyFault>
    ensures ok { OnOk result (shapes.HasOnly keys.now (table_view table.now)) }
    ensures fault { shapes.IfRefused result (shapes.HasOther keys.now (table_view table.now)) }
{
    match other_key(table, keys) {
        Some(key) => Err(unknown(alloc, key.as_str())),
        None => Ok(()),
    }
}
