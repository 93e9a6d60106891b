//! A writer that fails while an answer is printed.

use fab_desk_base::Reply;
use fab_files::{Form, print};
use fab_files_base::PrintFault;
use fab_test_wire::streams::Breaking;
use fab_wire_answers::answers::Answer;
use std::alloc::Global;

/// What a writer has taken of `{"revision":7}` that takes five bytes a write, and fails at the first,
/// second or third.
const BEGINNINGS: &[&str] = &["", "{\"rev", "{\"revision"];

/// Whether printing to a writer that takes five bytes a write, and fails at this write, ends there:
/// it has taken just this beginning of the text, though it would take more.
fn ends_at(rt: &impl AllocGlobal, answer: &Answer<Global>, k: u64, taken: &str) -> bool {
    let mut writer = Breaking::new(rt.alloc(), 5, k);
    let came = matches!(
        print(rt.alloc(), &mut writer, Form::Json, answer),
        Err(PrintFault::Stream)
    );
    came && writer.taken() == taken.as_bytes()
}

/// A writer that fails is not asked again.
#[test]
fn writer_fails(rt: HostRuntime) {
    let answer: Answer<Global> = Answer::Replied(Reply::Changed { revision: 7 });
    for (k, taken) in BEGINNINGS.iter().enumerate() {
        assert!(rt; ends_at(&rt, &answer, k as u64, taken));
    }
}
