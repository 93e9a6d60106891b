//! A book that is led from one world to another.
ghost use Rattle.fab_reach_base.specs.Serving.{IsServing};
ghost use Rattle.fab_reach_base.specs.Views.{seen};
ghost use Rattle.fab_reach_books.specs.Rows.{IsRowDiff};

use crate::named::named;
use crate::worlds::Heap;
use fab_reach::IndexBook;
use fab_reach_base::View;
use fab_reach_books::{PathBook, RowDiff, ViewSight, row_diff};
use fab_world::World;
use std::process::Abort;

/// How many paths the host has in a book.
fn paths_of<'a, B: PathBook<Heap<'a>>>(rt: &impl Abort, book: &B) -> usize {
    book.of_host(&named(rt, "db1")).expect(rt, "paths").len()
}

/// Takes a step that is ready: whether no memory was asked for, if that is looked at.
fn is_adopted<'a, B: PathBook<Heap<'a>>>(
    heap: Heap<'a>,
    book: &mut B,
    ready: B::Ready,
    is_bare: bool,
) -> bool {
    if is_bare {
        heap.refuse_after(0);
    }
    let _delta = book.adopt(ready);
    !(is_bare && heap.has_refused())
}

/// Makes the step ready to the world after, and takes it: whether there was memory for it, and none was asked
/// for where the step was taken, if that is wanted. Ends the test where a step for which there is no memory
/// moves the book.
fn is_stepped<'a, B: PathBook<Heap<'a>>>(
    rt: &impl Abort,
    heap: Heap<'a>,
    book: &mut B,
    before: &View<'_, Heap<'a>>,
    after: &View<'_, Heap<'a>>,
    diff: &RowDiff<Heap<'a>>,
    is_bare: bool,
) -> bool
    requires stands { B.stands book.old (seen before.now) }
    requires serving { IsServing (seen after.now) }
    requires diff { IsRowDiff (seen before.now) (seen after.now) diff.now.gone.items diff.now.come.items }
{
    let mut sight = ViewSight::new(heap, *after);
    match book.prepare(before, diff, &mut sight) {
        Ok(ready) => is_adopted(heap, book, ready, is_bare),
        Err(_) => {
            assert!(rt; paths_of(rt, book) == 1);
            false
        }
    }
}

/// The same, where the rows that differ are looked for.
fn is_led<'a, B: PathBook<Heap<'a>>>(
    rt: &impl Abort,
    heap: Heap<'a>,
    book: &mut B,
    before: &View<'_, Heap<'a>>,
    after: &View<'_, Heap<'a>>,
    is_bare: bool,
) -> bool
    requires stands { B.stands book.old (seen before.now) }
    requires serving { IsServing (seen after.now) }
{
    match row_diff(heap, before, after) {
        Ok(diff) => is_stepped(rt, heap, book, before, after, &diff, is_bare),
        Err(_) => false,
    }
}

/// The same of a book that is opened at the world before.
fn leads_by<'a, B: PathBook<Heap<'a>>>(
    rt: &impl Abort,
    heap: Heap<'a>,
    before: &View<'_, Heap<'a>>,
    after: &View<'_, Heap<'a>>,
    is_bare: bool,
) -> bool {
    assert!(rt; before.is_serving());
    assert!(rt; after.is_serving());
    match B::open(heap, before) {
        Ok(book) => {
            let mut book = book;
            is_led(rt, heap, &mut book, before, after, is_bare)
        }
        Err(_) => false,
    }
}

/// The same over two worlds, in the first of which the host has a path.
pub fn leads<'a>(
    rt: &impl Abort,
    heap: Heap<'a>,
    before: &World<Heap<'a>>,
    after: &World<Heap<'a>>,
    is_bare: bool,
) -> bool {
    let before = View::of(&before.inventory, &before.config);
    let after = View::of(&after.inventory, &after.config);
    leads_by::<IndexBook<Heap<'a>>>(rt, heap, &before, &after, is_bare)
}
