//! Whether a map may have one key more.
ghost use Rattle.std.specs.FinMap as map;
ghost use Rattle.std.specs.Bool.{OnTrue, OnFalse};
ghost use Rattle.fab_lemmas.specs.Room.{IsFull, HasRoom};

use std::alloc::Allocator;
use std::collections::BTreeMap;

/// Whether the key is new, and there are as many keys as there may be. It takes no memory.
pub fn is_full<Q: Ord, V, A: Allocator>(tree: &BTreeMap<Q, V, A>, key: &Q, most: usize) -> bool
    ensures full { OnTrue result (IsFull (map.from_entries {R = Q.cmp} tree.now.entries) key.now most) }
    ensures room { OnFalse result (HasRoom (map.from_entries {R = Q.cmp} tree.now.entries) key.now most) }
{
    tree.len() >= most && !tree.contains_key(key)
}
