//! A clock that goes on, and moments that are given: at which one the policy is asked.

use super::runs::{QUIET, Run, are_run, put};

/// The policy lets imports through in the first minute of 1970 alone.
const POLICY: &str = r#"[[callers]]
name = "ada"
token = "t-ada"
roles = []
tenants = "*"
[[windows]]
name = "first-minute"
weekly = [[4320, 4321]]
[[rules]]
name = "in-time"
actions = ["import"]
window = "first-minute"
"#;

/// An import of an empty list in that minute.
const IMPORT: Run<'static> = Run {
    words: "sandesk import --db clock.db --policy clock.toml --token t-ada --fabric A --file clock.csv",
    moment: Some(59),
    output: "{\"revision\":1}\n",
    ..QUIET
};

/// The same behind it.
const LATE: Run<'static> = Run {
    moment: Some(60),
    output: "{\"code\":8,\"error\":\"denied\",\"need\":\"window\",\"rule\":1,\"rule_name\":\"in-time\"}\n",
    status: 1,
    ..IMPORT
};

/// The last second of the minute and the next one, by the clock and as given: the moment is what the clock
/// tells first, and where one is given the clock is not asked.
const RUNS: &[Run<'static>] = &[
    Run {
        words: "sandesk init --db clock.db",
        moment: None,
        ..QUIET
    },
    IMPORT,
    LATE,
    Run {
        words: "sandesk import --db clock.db --policy clock.toml --token t-ada --fabric A --file clock.csv --now 60",
        moment: Some(59),
        ..LATE
    },
    Run {
        words: "sandesk import --db clock.db --policy clock.toml --token t-ada --fabric A --file clock.csv --now 59",
        moment: None,
        output: "{\"revision\":2}\n",
        ..IMPORT
    },
];

#[test]
fn the_clock_goes_on(rt: HostRuntime) {
    put(&rt, &rt, "clock.toml", POLICY.as_bytes());
    put(&rt, &rt, "clock.csv", b"port_name,node_name,domain,port\n");
    are_run(&rt, &rt, RUNS);
}
