//! Maps under names from rows.
ghost use Rattle.std.specs.Prelude.{MatchOption, IfOk};
ghost use Rattle.std.specs.Bool.{OnTrue, OnFalse};
ghost use Rattle.fab_store_load.specs.Rows.{AreRows, IsAt, at, HasEntries, HasRepeat};
ghost use Rattle.fab_reach_base.specs.fab_zoning.Edits.{Puts};
ghost use Rattle.fab_store_load.specs.Others.{HasOther};

use crate::kind::{Kind, Value};
use crate::maps::put;
use fab_reach_base::zoning::Key;
use std::alloc::{AllocError, Allocator};
use std::collections::BTreeMap;

/// Puts a value at a key of a name where no other value is there, and says whether none is.
fn put_under<Q: Key, K: Key, V: Value, A: Allocator + Copy>(
    alloc: A,
    maps: &mut BTreeMap<Q, BTreeMap<K, V, A>, A>,
    name: Q,
    key: K,
    value: V,
) -> Result<bool, AllocError>
    ensures puts { IfOk result (λ is_free. OnTrue is_free (Puts ((name, key), value) (IsAt Q.cmp K.cmp maps.old) (IsAt Q.cmp K.cmp maps.new))) }
    ensures some { IfOk result (λ is_free. OnTrue is_free (HasEntries Q.cmp K.cmp maps.old → HasEntries Q.cmp K.cmp maps.new)) }
    ensures other { IfOk result (λ is_free. OnFalse is_free (HasOther (at Q.cmp K.cmp maps.old) (name, key) value)) }
{
    match maps.get_mut(&name) {
        Some(map) => {
            let is_free = put(map, key, value)?;
            Ok(is_free)
        }
        None => {
            let mut map = BTreeMap::new(alloc);
            map.insert(key, value)?;
            maps.insert(name, map)?;
            Ok(true)
        }
    }
}

/// The maps whose entries, under their names, the rows of the kind say, or none where two of them
/// have one name and one key and differ. No map is empty.
///
/// # Errors
/// `AllocError` where there is no memory.
pub fn maps_of<R, Q: Key, K: Key, V: Value, S: Kind<R, ((Q, K), V)>, A: Allocator + Copy>(
    alloc: A,
    kind: &S,
    rows: &[R],
) -> Result<Option<BTreeMap<Q, BTreeMap<K, V, A>, A>>, AllocError>
    ensures rows { IfOk result (λ found. MatchOption found (HasRepeat (S.row_of kind.now) rows.now) (λ maps. AreRows (S.row_of kind.now) rows.now (IsAt Q.cmp K.cmp maps))) }
    ensures some { IfOk result (λ found. MatchOption found (Unit {0}) (HasEntries Q.cmp K.cmp)) }
{
    let mut maps = BTreeMap::new(alloc);
    for row in rows {
        let Some(entry) = kind.entry(row) else {
            continue;
        };
        if !put_under(alloc, &mut maps, entry.0.0, entry.0.1, entry.1)? {
            return Ok(None);
        }
    }
    Ok(Some(maps))
}
