//! Places that a step makes in an index: those that stay empty are taken out, and no others.

use crate::named::named;
use crate::worlds::Heap;
use fab_reach_index::Index;
use fab_test_alloc::Refusing;
use std::collections::BTreeSet;
use std::process::Abort;

/// An index with a set for the first host: of the first storage group, or of none.
fn one_set<'a>(rt: &impl Abort, heap: Heap<'a>, is_empty: bool) -> Index<Heap<'a>> {
    let mut groups = BTreeSet::new(heap);
    if !is_empty {
        groups.insert(named(rt, "g1")).expect(rt, "a group");
    }
    let mut index = Index::empty(heap);
    let added: Result<_, _> = index.groups.insert(named(rt, "db1"), groups);
    added.expect(rt, "a set");
    index
}

/// Whether the place that a step makes in an index that has nothing is there in the end.
fn stays(rt: &impl Abort, heap: Heap<'_>, is_empty: bool, is_taken: bool) -> bool {
    let patch = one_set(rt, heap, is_empty);
    let mut index = Index::empty(heap);
    let mut noted = Index::empty(heap);
    index.make_room(heap, &mut noted, &patch).expect(rt, "room");
    assert!(rt; index.groups.contains_key(&named(rt, "db1")));
    if is_taken {
        index.take(patch);
    }
    index.clear(&noted);
    index.groups.contains_key(&named(rt, "db1"))
}

/// It stays where the step that fills it is taken, and nowhere else.
#[test]
fn a_place_that_stays_empty_goes(rt: HostRuntime) {
    let heap = Refusing::new(rt.alloc());
    assert!(rt; stays(&rt, &heap, false, true));
    assert!(rt; !stays(&rt, &heap, false, false));
    assert!(rt; !stays(&rt, &heap, true, true));
}
