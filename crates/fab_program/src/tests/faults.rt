//! Runs whose clock tells nothing, whose standard input or output fails, or whose files are too large.

use super::runs::{QUIET, Run, are_run, put};
use fab_policy_base::TRIAL_POLICY;
use std::process::Abort;

/// A question on standard input to a new desk in memory.
const ASKED: Run<'static> = Run {
    words: "sandesk once",
    input: "GET /active/A HTTP/1.1\r\nAuthorization: Bearer t-ada\r\n\r\n",
    ..QUIET
};

/// Its answer.
const ANSWER: &str =
    "HTTP/1.1 200 OK\r\nContent-Type: application/json\r\nContent-Length: 56\r\nConnection: close\r\n\r\n{\"active\":null,\"default\":\"deny\",\"fabric\":\"A\",\"zones\":[]}";

/// The answer; then the writer fails at its first write, or the reader at its first read; and there is no
/// moment, which is told first.
const FAULTS: &[Run<'static>] = &[
    Run {
        output: ANSWER,
        ..ASKED
    },
    Run {
        write: 0,
        errors: "sandesk: stream\n",
        status: 3,
        ..ASKED
    },
    Run {
        read: 0,
        errors: "sandesk: stream\n",
        status: 3,
        ..ASKED
    },
    Run {
        moment: None,
        read: 0,
        write: 0,
        errors: "sandesk: clock\n",
        status: 3,
        ..ASKED
    },
];

#[test]
fn streams_and_the_clock_fail(rt: HostRuntime) {
    are_run(&rt, &rt, FAULTS);
}

/// A file: its name, what it begins with, what fills it, and how many bytes it has.
type Filled = (&'static str, &'static str, u8, usize);

/// Port lists and policies with as many bytes as they may have, and with one more.
const FILES: &[Filled] = &[
    ("most.csv", "", b'a', 1_048_576),
    ("more.csv", "", b'a', 1_048_577),
    ("most.toml", TRIAL_POLICY, b'\n', 1_048_576),
    ("more.toml", TRIAL_POLICY, b'\n', 1_048_577),
];

fn fill(host: &HostRuntime, rt: &(impl Abort + AllocGlobal), file: &Filled) {
    let mut bytes = Vec::from_slice(rt.alloc(), file.1.as_bytes()).expect(rt, "memory");
    bytes.resize(file.3, file.2).expect(rt, "memory");
    put(host, rt, file.0, bytes.as_slice());
}

/// What is made of these files.
const SIZES: &[Run<'static>] = &[
    Run {
        words: "sandesk init --db size.db",
        ..QUIET
    },
    Run {
        words: "sandesk import --db size.db --policy most.toml --token t-ada --fabric A --file most.csv",
        output: "{\"code\":7,\"error\":\"bad-body\",\"line\":1}\n",
        status: 1,
        ..QUIET
    },
    Run {
        words: "sandesk import --db size.db --policy most.toml --token t-ada --fabric A --file more.csv",
        output: "{\"code\":6,\"error\":\"too-large\"}\n",
        status: 1,
        ..QUIET
    },
    Run {
        words: "sandesk import --db size.db --policy more.toml --token t-ada --fabric A --file most.csv",
        errors: "sandesk: policy\n",
        status: 3,
        ..QUIET
    },
];

#[test]
fn files_are_limited(rt: HostRuntime) {
    for file in FILES {
        fill(&rt, &rt, file);
    }
    are_run(&rt, &rt, SIZES);
}
