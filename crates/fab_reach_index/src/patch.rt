//! How a map of sets goes from one world to the next: some keys get new sets, for which there is room.
ghost use Rattle.std.specs.Prelude.{◌≡◌, false, IsTrue, OnOk, IsSome, Some, cond};
ghost use Rattle.std.specs.BTreeMap.{get, is_at};
ghost use Rattle.fab_lemmas.specs.MapsOfSets.{tree_has};
ghost use Rattle.fab_reach_books.specs.Renewed.{patched};
ghost use Rattle.fab_reach_index.specs.Patches.{Keeps, HasRoomFor};

use fab_zoning::Key;
use std::alloc::{AllocError, Allocator};
use std::collections::{BTreeMap, BTreeSet};

/// Notes a key, and makes a place for it: an empty set, where there was none.
fn make_place<Q: Key, K: Ord + Drop, A: Allocator + Copy>(
    alloc: A,
    map: &mut BTreeMap<Q, BTreeSet<K, A>, A>,
    noted: &mut BTreeMap<Q, BTreeSet<K, A>, A>,
    key: Q,
) -> Result<(), AllocError>
    ensures kept { Keeps Q.cmp K.cmp map.old map.new }
    ensures stays { (q : Q) → IsSome (get Q.cmp map.old q) → IsSome (get Q.cmp map.new q) }
    ensures room { OnOk result (IsSome (get Q.cmp map.new key)) }
{
    noted.insert(key, BTreeSet::new(alloc))?;
    if !map.contains_key(&key) {
        map.insert(key, BTreeSet::new(alloc))?;
    }
    Ok(())
}

/// Makes a place for each key of a patch, and notes these keys. No set is changed.
///
/// # Errors
/// `AllocError` where there is no memory: some keys have a place then, and these are noted.
pub fn make_places<Q: Key, K: Ord + Drop, A: Allocator + Copy>(
    alloc: A,
    map: &mut BTreeMap<Q, BTreeSet<K, A>, A>,
    noted: &mut BTreeMap<Q, BTreeSet<K, A>, A>,
    patch: &BTreeMap<Q, BTreeSet<K, A>, A>,
) -> Result<(), AllocError>
    ensures kept { Keeps Q.cmp K.cmp map.old map.new }
    ensures room { OnOk result (HasRoomFor Q.cmp patch.now map.new) }
{
    for (key, _set) in patch {
        make_place(alloc, map, noted, *key)?;
    }
    Ok(())
}

/// Whether the set at the key is there and empty.
fn is_empty_at<Q: Key, K: Ord + Drop, A: Allocator + Copy>(
    map: &BTreeMap<Q, BTreeSet<K, A>, A>,
    key: &Q,
) -> bool
    ensures { IsTrue result → (k : K) → tree_has Q.cmp K.cmp map.now key.now k ≡ false }
{
    match map.get(key) {
        Some(set) => set.is_empty(),
        None => false,
    }
}

/// Takes the set at the key out, if it is empty. It takes no memory.
fn clear_place<Q: Key, K: Ord + Drop, A: Allocator + Copy>(
    map: &mut BTreeMap<Q, BTreeSet<K, A>, A>,
    key: &Q,
)
    ensures { Keeps Q.cmp K.cmp map.old map.new }
{
    if is_empty_at(map, key) {
        let _set = map.remove(key);
    }
}

/// Takes out the sets at the noted keys that are empty. It takes no memory.
pub fn clear_places<Q: Key, K: Ord + Drop, A: Allocator + Copy>(
    map: &mut BTreeMap<Q, BTreeSet<K, A>, A>,
    noted: &BTreeMap<Q, BTreeSet<K, A>, A>,
)
    ensures { Keeps Q.cmp K.cmp map.old map.new }
{
    for (key, _set) in noted {
        clear_place(map, key);
    }
}

/// Puts a set in its place, if it is there. It takes no memory.
fn put<Q: Key, K: Ord + Drop, A: Allocator + Copy>(
    map: &mut BTreeMap<Q, BTreeSet<K, A>, A>,
    key: Q,
    set: BTreeSet<K, A>,
)
    ensures { IsSome (get Q.cmp map.old key) → (q : Q) → get Q.cmp map.new q ≡ cond (is_at (Q.cmp key) q) (Some set) (get Q.cmp map.old q) }
{
    if let Some(place) = map.get_mut(&key) {
        *place = set;
    }
}

/// Puts the new sets in their places, if these are there. It takes no memory.
pub fn put_all<Q: Key, K: Ord + Drop, A: Allocator + Copy>(
    map: &mut BTreeMap<Q, BTreeSet<K, A>, A>,
    patch: BTreeMap<Q, BTreeSet<K, A>, A>,
)
    ensures { HasRoomFor Q.cmp patch map.old → (q : Q) (k : K) → tree_has Q.cmp K.cmp map.new q k ≡ patched Q.cmp K.cmp patch map.old q k }
{
    for (key, set) in patch {
        put(map, key, set);
    }
}
