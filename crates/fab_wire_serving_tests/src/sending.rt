//! Answers that a stream takes, or takes but for one write.

use super::doubles::{Brittle, Ticking};
use super::echo::Echo;
use fab_wire_deadlines::deadline::Deadline;
use fab_wire_log::Shown;
use fab_wire_serving::connection::serve_stream;
use std::alloc::Global;
use std::process::Abort;
use std::time::{Duration, Instant};

/// What the log shows of a connection over a stream of which one write fails, and how many writes there
/// were.
fn came(rt: &impl Abort, alloc: Global, told: &'static [u8], fails_at: u64) -> (&'static str, u64) {
    let clock = Ticking::by(0);
    let stream = Brittle::new(told, fails_at);
    let start = Instant::now(&clock).expect(rt, "a clock");
    let deadline = Deadline::after(start, Duration::from_secs(1));
    let mut echo = Echo::over(None);
    let came = serve_stream(alloc, &clock, &mut echo, 0, &stream, &stream, deadline);
    let shown = match came.shown::<Echo<'_>>() {
        Shown::Status(_) => "answered",
        Shown::Word(word) => word,
    };
    (shown, stream.writes())
}

/// What is told, the write that fails, what the log shows, and how many writes there were. At `*` the
/// answer has 640 pieces of 65536 bytes.
const SENT: &[(&[u8], u64, &str, u64)] = &[
    (b"a", u64::MAX, "answered", 1),
    (b"a", 0, "unsent", 1),
    (b"*", 0, "unsent", 1),
    (b"*", 7, "unsent", 8),
];

#[test]
fn no_write_follows_one_that_failed(rt: HostRuntime) {
    for &(told, fails_at, shown, writes) in SENT {
        assert!(rt; came(&rt, rt.alloc(), told, fails_at) == (shown, writes));
    }
}
