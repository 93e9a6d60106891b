//! Maps of sets, once some items have gone and others have come: the new sets of the keys whose sets
//! differ.
ghost use Rattle.std.specs.Prelude.{◌≡◌, ◌↔◌, true, false, IsSome, IfOk, OnOk};
ghost use Rattle.std.specs.BTreeMap.{get};
ghost use Rattle.std.specs.BTreeSet.{contains};
ghost use Rattle.std.specs.Option.{option_copied};
ghost use Rattle.fab_lemmas.specs.MapsOfSets.{in_tree};
ghost use Rattle.fab_reach_base.specs.Adding.{Adds};
ghost use Rattle.fab_reach_index.specs.Inner.Regathering.{HasIn, IsLeftAt, IsLeft, AreLeft};
ghost use Rattle.fab_reach_books.specs.Renewed.{patched};
ghost use Rattle.fab_reach_index.specs.Patches.{HasRoomFor};

use fab_zoning::Key;
use std::alloc::{AllocError, Allocator};
use std::collections::{BTreeMap, BTreeSet};

/// Whether the item is among these, if there are any.
fn is_among<K: Key, A: Allocator + Copy>(these: Option<&BTreeSet<K, A>>, item: &K) -> bool
    ensures { result ≡ in_tree K.cmp (option_copied these.entry) item.now }
{
    match these {
        Some(these) => these.contains(item),
        None => false,
    }
}

/// Adds the item, unless it is gone.
fn add_unless_gone<K: Key, A: Allocator + Copy>(
    items: &mut BTreeSet<K, A>,
    gone: Option<&BTreeSet<K, A>>,
    item: &K,
) -> Result<(), AllocError>
    ensures { OnOk result (Adds (λ x. (x ≡ item.now) × (in_tree K.cmp (option_copied gone.entry) x ≡ false)) (HasIn K.cmp items.old) (HasIn K.cmp items.new)) }
{
    if !is_among(gone, item) {
        items.insert(*item)?;
    }
    Ok(())
}

/// Adds the items, but for those that are gone.
fn add_left<K: Key, A: Allocator + Copy>(
    items: &mut BTreeSet<K, A>,
    gone: Option<&BTreeSet<K, A>>,
    these: &BTreeSet<K, A>,
) -> Result<(), AllocError>
    ensures { OnOk result (Adds (λ x. HasIn K.cmp these.now x × (in_tree K.cmp (option_copied gone.entry) x ≡ false)) (HasIn K.cmp items.old) (HasIn K.cmp items.new)) }
{
    for item in these {
        add_unless_gone(items, gone, item)?;
    }
    Ok(())
}

/// Adds the items, if there are any, but for those that are gone.
///
/// # Errors
/// `AllocError` where there is no memory: some may have been added.
pub fn add_some_left<K: Key, A: Allocator + Copy>(
    items: &mut BTreeSet<K, A>,
    gone: Option<&BTreeSet<K, A>>,
    these: Option<&BTreeSet<K, A>>,
) -> Result<(), AllocError>
    ensures { OnOk result (Adds (λ x. (in_tree K.cmp (option_copied these.entry) x ≡ true) × (in_tree K.cmp (option_copied gone.entry) x ≡ false)) (HasIn K.cmp items.old) (HasIn K.cmp items.new)) }
{
    if let Some(these) = these {
        add_left(items, gone, these)?;
    }
    Ok(())
}

/// The set at a key, but for what is gone, and with what is come.
fn set_at<Q: Key, K: Key, A: Allocator + Copy>(
    alloc: A,
    old: &BTreeMap<Q, BTreeSet<K, A>, A>,
    gone: &BTreeMap<Q, BTreeSet<K, A>, A>,
    come: &BTreeMap<Q, BTreeSet<K, A>, A>,
    key: &Q,
) -> Result<BTreeSet<K, A>, AllocError>
    ensures { IfOk result (IsLeft Q.cmp K.cmp old.now gone.now come.now key.now) }
{
    let mut items = BTreeSet::new(alloc);
    add_some_left(&mut items, gone.get(key), old.get(key))?;
    add_some_left(&mut items, None, come.get(key))?;
    Ok(items)
}

/// Puts the set of each of the keys.
fn put_sets<Q: Key, K: Key, A: Allocator + Copy>(
    alloc: A,
    sets: &mut BTreeMap<Q, BTreeSet<K, A>, A>,
    old: &BTreeMap<Q, BTreeSet<K, A>, A>,
    gone: &BTreeMap<Q, BTreeSet<K, A>, A>,
    come: &BTreeMap<Q, BTreeSet<K, A>, A>,
    keys: &BTreeMap<Q, BTreeSet<K, A>, A>,
) -> Result<(), AllocError>
    ensures left { OnOk result (AreLeft Q.cmp K.cmp old.now gone.now come.now sets.old → AreLeft Q.cmp K.cmp old.now gone.now come.now sets.new) }
    ensures kept { OnOk result ((q : Q) → IsSome (get Q.cmp sets.old q) → IsSome (get Q.cmp sets.new q)) }
    ensures there { OnOk result (HasRoomFor Q.cmp keys.now sets.new) }
{
    for (key, _items) in keys {
        let items = set_at(alloc, old, gone, come, key)?;
        sets.insert(*key, items)?;
    }
    Ok(())
}

/// The new sets of the keys at which items are gone or come.
///
/// # Errors
/// `AllocError` where there is no memory.
pub fn regathered<Q: Key, K: Key, A: Allocator + Copy>(
    alloc: A,
    old: &BTreeMap<Q, BTreeSet<K, A>, A>,
    gone: &BTreeMap<Q, BTreeSet<K, A>, A>,
    come: &BTreeMap<Q, BTreeSet<K, A>, A>,
) -> Result<BTreeMap<Q, BTreeSet<K, A>, A>, AllocError>
    ensures { IfOk result (λ sets. (q : Q) (k : K) → (patched Q.cmp K.cmp sets old.now q k ≡ true) ↔ IsLeftAt Q.cmp K.cmp old.now gone.now come.now q k) }
{
    let mut sets = BTreeMap::new(alloc);
    put_sets(alloc, &mut sets, old, gone, come, gone)?;
    put_sets(alloc, &mut sets, old, gone, come, come)?;
    Ok(sets)
}
