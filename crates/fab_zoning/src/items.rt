//! Sets under names, item by item.
ghost use Rattle.std.specs.Prelude.{◌≡◌, true, false, Some, OnOk, OnErr};
ghost use Rattle.std.specs.Bool.{OnTrue, OnFalse};
ghost use Rattle.std.specs.Option.{option_copied};
ghost use Rattle.std.specs.BTreeMap.{IsUnchanged, get, is_at};
ghost use Rattle.std.specs.BTreeSet.{BTreeSet as TreeSet, contains};
ghost use Rattle.fab_names.specs.Orders.{name_cmp};
ghost use Rattle.fab_zoning_rows.specs.fab_lemmas.MapsOfSets.{in_tree, seen_sets};
ghost use Rattle.fab_zoning.specs.Edits.{Puts, Takes, IsIn, HasItems, IsItem, HasSome};

use crate::key::Key;
use fab_names::Name;
use std::alloc::{AllocError, Allocator};
use std::collections::{BTreeMap, BTreeSet};

/// Puts an item into the set of a key.
///
/// # Errors
/// `AllocError` where there is no memory. The sets are then as they were.
pub fn put_in_tree<Q: Key, X: Key, A: Allocator + Copy>(
    alloc: A,
    sets: &mut BTreeMap<Q, BTreeSet<X, A>, A>,
    key: Q,
    item: X,
) -> Result<(), AllocError>
    ensures puts { OnOk result (Puts (key, item) (IsIn Q.cmp X.cmp sets.old) (IsIn Q.cmp X.cmp sets.new)) }
    ensures some { OnOk result (HasItems Q.cmp X.cmp sets.old → HasItems Q.cmp X.cmp sets.new) }
    ensures err { OnErr result (IsUnchanged sets.old sets.new) }
{
    match sets.get_mut(&key) {
        Some(set) => {
            set.insert(item)?;
            Ok(())
        }
        None => {
            let mut set = BTreeSet::new(alloc);
            set.insert(item)?;
            sets.insert(key, set)?;
            Ok(())
        }
    }
}

/// Takes an item out of the set of a key, if it is there. The set stays, also an empty one. It takes no
/// memory.
pub fn take_from<Q: Key, X: Key, A: Allocator + Copy>(
    sets: &mut BTreeMap<Q, BTreeSet<X, A>, A>,
    key: &Q,
    item: &X,
)
    ensures takes { Takes (key.now, item.now) (IsIn Q.cmp X.cmp sets.old) (IsIn Q.cmp X.cmp sets.new) }
    ensures rest { (q : Q) → is_at (Q.cmp key.now) q ≡ false → get Q.cmp sets.new q ≡ get Q.cmp sets.old q }
{
    if let Some(set) = sets.get_mut(key) {
        set.remove(item);
    }
}

/// Whether there is no set, or nothing in it.
fn is_bare<X: Key, A: Allocator>(set: Option<&BTreeSet<X, A>>) -> bool
    ensures bare { OnTrue result ((x : X) → in_tree X.cmp (option_copied set.entry) x ≡ false) }
    ensures some { OnFalse result ((x : X) × (in_tree X.cmp (option_copied set.entry) x ≡ true)) }
{
    match set {
        Some(set) => set.is_empty(),
        None => true,
    }
}

/// Drops the set of a key, if nothing is in it.
fn drop_empty<Q: Key, X: Key, A: Allocator + Copy>(
    sets: &mut BTreeMap<Q, BTreeSet<X, A>, A>,
    key: &Q,
)
    ensures same { (q : Q) (x : X) → in_tree X.cmp (get Q.cmp sets.new q) x ≡ in_tree X.cmp (get Q.cmp sets.old q) x }
    ensures some { ((q : Q) (s : TreeSet X) → is_at (Q.cmp key.now) q ≡ false → get Q.cmp sets.old q ≡ Some s → (x : X) × (contains X.cmp s x ≡ true)) → HasItems Q.cmp X.cmp sets.new }
{
    if is_bare(sets.get(key)) {
        sets.remove(key);
    }
}

/// Puts an item into the set of a name.
///
/// # Errors
/// `AllocError` where there is no memory. The sets are then as they were.
pub fn put_item<X: Key, A: Allocator + Copy>(
    alloc: A,
    sets: &mut BTreeMap<Name, BTreeSet<X, A>, A>,
    name: Name,
    item: X,
) -> Result<(), AllocError>
    ensures puts { OnOk result (Puts (name, item) (IsItem (seen_sets name_cmp X.cmp sets.old.entries)) (IsItem (seen_sets name_cmp X.cmp sets.new.entries))) }
    ensures some { OnOk result (HasSome (seen_sets name_cmp X.cmp sets.old.entries) → HasSome (seen_sets name_cmp X.cmp sets.new.entries)) }
    ensures err { OnErr result (IsUnchanged sets.old sets.new) }
{
    put_in_tree(alloc, sets, name, item)
}

/// Takes an item out of the set of a name, if it is there, and the set too where nothing is left in
/// it. It takes no memory.
pub fn take_item<X: Key, A: Allocator + Copy>(
    sets: &mut BTreeMap<Name, BTreeSet<X, A>, A>,
    name: &Name,
    item: &X,
)
    ensures takes { Takes (name.now, item.now) (IsItem (seen_sets name_cmp X.cmp sets.old.entries)) (IsItem (seen_sets name_cmp X.cmp sets.new.entries)) }
    ensures some { HasSome (seen_sets name_cmp X.cmp sets.old.entries) → HasSome (seen_sets name_cmp X.cmp sets.new.entries) }
{
    take_from(sets, name, item);
    drop_empty(sets, name);
}
