//! How many bytes a plan takes that is kept.
use fab_plans_text::{PlanText, read_plan};
use linked_list_allocator::LocalHeap;
use std::alloc::Global;
use std::process::Abort;

/// The text of 200 steps, each with a list of 157 names of a letter: 65,200 bytes, whose steps take
/// two million.
fn long_text(rt: &(impl Abort + AllocGlobal)) -> String<Global> {
    let names = " a".repeat(rt.alloc(), 157).expect(rt, "memory");
    let step = format!(in rt.alloc(); "set.put A n{names}\n").expect(rt, "memory");
    step.repeat(rt.alloc(), 200).expect(rt, "memory")
}

/// The text that is kept of a long plan, in this memory. Its steps are let go.
fn long_kept<'a>(rt: &(impl Abort + AllocGlobal), heap: &'a LocalHeap) -> PlanText<&'a LocalHeap> {
    let text = long_text(rt);
    let steps = read_plan(heap, text.as_str()).expect(rt, "a plan");
    assert!(rt; heap.used() > 2_000_000);
    PlanText::of(heap, &steps).expect(rt, "a text")
}

#[test]
fn a_kept_plan_takes_its_text(rt: HostRuntime) {
    let heap = LocalHeap::new(rt.alloc(), 1 << 23).expect(&rt, "memory");
    let before = heap.used();
    let kept = long_kept(&rt, &heap);
    let bytes = kept.as_str().len();
    let held = heap.used().saturating_sub(before);
    assert!(&rt; bytes == 65_200 && held <= bytes.saturating_add(100));
}
