//! As many paths as there may be, and more.
ghost use Rattle.fab_reach_base.specs.Serving.{IsServing};
ghost use Rattle.fab_reach_base.specs.Views.{seen};
ghost use Rattle.fab_reach_books.specs.Rows.{IsRowDiff};

use crate::worlds::{Heap, hold, planned, put_volume};
use fab_inventory::{HolderKind, Inventory, PortRow};
use fab_names::{Fabric, Place, Wwn};
use fab_reach::{Config, IndexBook};
use fab_reach_base::{PathsFault, View, few_paths};
use fab_reach_books::{Limited, PathBook, RowDiff, ViewSight, row_diff};
use fab_test_alloc::Refusing;
use fab_world::World;
use std::process::Abort;

/// The ports of these numbers, of three digits, before the last.
fn ports(rt: &(impl Abort + AllocGlobal), first: u64, end: u64) -> Vec<Wwn> {
    let mut ports = Vec::new(rt.alloc());
    for number in first..end {
        let text = format!(in rt.alloc(); "1000000000000{number}").expect(rt, "memory");
        ports
            .push(Wwn::read(text.as_str()).expect(rt, "a port"))
            .expect(rt, "memory");
    }
    ports
}

/// Fabric A lists the ports 100 to 195, all at one place.
fn list(inventory: &mut Inventory<Heap<'_>>, rt: &(impl Abort + AllocGlobal)) {
    let mut rows = Vec::new(rt.alloc());
    for port in &ports(rt, 100, 196) {
        let row = PortRow::plain(*port, Wwn::new(1), Place::new(1, 1));
        rows.push(row).expect(rt, "memory");
    }
    inventory
        .import(Fabric::A, rows.as_slice())
        .expect(rt, "a port list");
}

/// So many volumes of the array.
fn put_volumes(inventory: &mut Inventory<Heap<'_>>, rt: &(impl Abort + AllocGlobal), count: u64) {
    for number in 0..count {
        let name = format!(in rt.alloc(); "v{number}").expect(rt, "memory");
        put_volume(inventory, rt, name.as_str());
    }
}

/// The host has so many ports, the array has 32 and so many volumes.
fn stock<'a>(
    rt: &(impl Abort + AllocGlobal),
    heap: Heap<'a>,
    initiators: u64,
    volumes: u64,
) -> Inventory<Heap<'a>> {
    let mut inventory = Inventory::new(heap);
    let end = initiators.saturating_add(100);
    list(&mut inventory, rt);
    let (initiators, targets) = (ports(rt, 100, end), ports(rt, 164, 196));
    hold(&mut inventory, rt, HolderKind::Host, "h", &initiators);
    hold(&mut inventory, rt, HolderKind::Array, "arr1", &targets);
    put_volumes(&mut inventory, rt, volumes);
    inventory
}

/// The default zone permits, and an exposed group gives the host so many volumes at all targets.
fn plan(rt: &(impl Abort + AllocGlobal), volumes: u64) -> String {
    let front = "default A permit\nhg.put hosts blue h\nsg.new g blue arr1\nsg.host g hosts\n";
    let mut text = String::from_str(rt.alloc(), front).expect(rt, "memory");
    for number in 164..196 {
        write!(text, "sg.target g 1000000000000{number}\n").expect(rt, "memory");
    }
    for number in 0..volumes {
        write!(text, "sg.map g {number} v{number}\n").expect(rt, "memory");
    }
    text.push_str("sg.expose g\n").expect(rt, "memory");
    text
}

/// How many paths there are, or none where there are more than there may be.
fn few<'a>(
    rt: &impl Abort,
    heap: Heap<'a>,
    inventory: &Inventory<Heap<'a>>,
    config: &Config<Heap<'a>>,
) -> Option<usize> {
    match few_paths(heap, inventory, config) {
        Ok(paths) => Some(paths.len()),
        Err(PathsFault::TooMany) => None,
        Err(PathsFault::Memory) => panic!(rt; "memory"),
    }
}

/// Over a sight that stops past the limit the step is made ready just where there are few paths.
fn assert_step<'a, B: PathBook<Heap<'a>>>(
    rt: &impl Abort,
    heap: Heap<'a>,
    book: &mut B,
    before: &View<'_, Heap<'a>>,
    after: &View<'_, Heap<'a>>,
    diff: &RowDiff<Heap<'a>>,
    few: bool,
)
    requires stands { B.stands book.old (seen before.now) }
    requires serving { IsServing (seen after.now) }
    requires diff { IsRowDiff (seen before.now) (seen after.now) diff.now.gone.items diff.now.come.items }
{
    let mut sight = Limited::new(heap, ViewSight::new(heap, *after));
    let is_ready = book.prepare(before, diff, &mut sight).is_ok();
    assert!(rt; is_ready == few && sight.is_over() != few);
}

/// The same, where the rows that differ are looked for.
fn assert_led<'a, B: PathBook<Heap<'a>>>(
    rt: &impl Abort,
    heap: Heap<'a>,
    book: &mut B,
    before: &View<'_, Heap<'a>>,
    after: &View<'_, Heap<'a>>,
    few: bool,
)
    requires stands { B.stands book.old (seen before.now) }
    requires serving { IsServing (seen after.now) }
{
    let diff = row_diff(heap, before, after).expect(rt, "a difference");
    assert_step(rt, heap, book, before, after, &diff, few);
}

/// The same of a book that is opened at the world before.
fn assert_stop<'a, B: PathBook<Heap<'a>>>(
    rt: &impl Abort,
    heap: Heap<'a>,
    before: &View<'_, Heap<'a>>,
    after: &View<'_, Heap<'a>>,
    few: bool,
) {
    assert!(rt; before.is_serving());
    assert!(rt; after.is_serving());
    let mut book = B::open(heap, before).expect(rt, "a book");
    assert_led(rt, heap, &mut book, before, after, few);
}

/// Initiators, volumes, and how many paths are listed under the limit: of 65,536, of 65,472, and of 66,528,
/// which are too many.
type Case = (u64, u64, Option<usize>);

const CASES: &[Case] = &[
    (64, 32, Some(65_536)),
    (62, 33, Some(65_472)),
    (63, 33, None),
];

/// So many paths are listed, and a sight that stops tells whether there may be.
fn assert_case(rt: &(impl Abort + AllocGlobal), heap: Heap<'_>, case: Case) {
    let inventory = stock(rt, heap, case.0, case.1);
    let bare = World::new(heap);
    let text = plan(rt, case.1);
    let config = planned(rt, heap, &inventory, &bare.config, text.as_str());
    assert!(rt; few(rt, heap, &inventory, &config) == case.2);
    let worlds = (
        View::of(&inventory, &bare.config),
        View::of(&inventory, &config),
    );
    assert_stop::<IndexBook<Heap<'_>>>(rt, heap, &worlds.0, &worlds.1, case.2.is_some());
}

#[test]
fn paths_limit(rt: HostRuntime) {
    let heap = Refusing::new(rt.alloc());
    for case in CASES {
        assert_case(&rt, &heap, *case);
    }
}
