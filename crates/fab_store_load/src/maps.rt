//! A map from rows.
ghost use Rattle.std.specs.Prelude.{Some, MatchOption, IfOk};
ghost use Rattle.std.specs.Bool.{OnTrue, OnFalse};
ghost use Rattle.std.specs.BTreeMap.{get};
ghost use Rattle.fab_store_load.specs.Rows.{StandsIn, AreRows, HasRepeat};
ghost use Rattle.fab_reach_base.specs.fab_zoning.Edits.{Puts};
ghost use Rattle.fab_store_load.specs.Others.{HasOther};

use crate::kind::{Kind, Value};
use fab_reach_base::zoning::Key;
use std::alloc::{AllocError, Allocator};
use std::collections::BTreeMap;

/// Puts a value at a key where no other value is there, and says whether none is.
pub fn put<K: Key, V: Value, A: Allocator + Copy>(
    map: &mut BTreeMap<K, V, A>,
    key: K,
    value: V,
) -> Result<bool, AllocError>
    ensures puts { IfOk result (λ is_free. OnTrue is_free (Puts (key, value) (StandsIn (get K.cmp map.old)) (StandsIn (get K.cmp map.new)))) }
    ensures other { IfOk result (λ is_free. OnFalse is_free (HasOther (get K.cmp map.old) key value)) }
{
    if let Some(there) = map.get(&key) {
        return Ok(*there == value);
    }
    map.insert(key, value)?;
    Ok(true)
}

/// The map whose entries the rows of the kind say, or none where two of them have one key and
/// differ.
///
/// # Errors
/// `AllocError` where there is no memory.
pub fn map_of<R, K: Key, V: Value, S: Kind<R, (K, V)>, A: Allocator + Copy>(
    alloc: A,
    kind: &S,
    rows: &[R],
) -> Result<Option<BTreeMap<K, V, A>>, AllocError>
    ensures { IfOk result (λ found. MatchOption found (HasRepeat (S.row_of kind.now) rows.now) (λ map. AreRows (S.row_of kind.now) rows.now (StandsIn (get K.cmp map)))) }
{
    let mut map = BTreeMap::new(alloc);
    for row in rows {
        let Some(entry) = kind.entry(row) else {
            continue;
        };
        if !put(&mut map, entry.0, entry.1)? {
            return Ok(None);
        }
    }
    Ok(Some(map))
}
