//! Runs of the program, each by the words of its command line: what it reads and writes, and its exit
//! status. The desk stands in a file, which each run opens anew.

use super::answers::exchange_in;
use crate::running::run;
use fab_policy_base::TRIAL_POLICY;
use fab_test_wire::rows::{FIRST_PLAN, FIRST_STAGED, WORLD};
use fab_test_wire::streams::{Breaking, Slow};
use std::cell::Cell;
use std::fs;
use std::process::Abort;

/// A run: its words; what its clock tells, which goes on by a second each time that it is asked; its
/// standard input, and the read of it that fails; the write of its standard output that fails; what it
/// writes to its two outputs, and its exit status.
#[derive(Clone, Copy)]
pub struct Run<'t> {
    pub words: &'t str,
    pub moment: Option<u64>,
    pub input: &'t str,
    pub read: u64,
    pub write: u64,
    pub output: &'t str,
    pub errors: &'t str,
    pub status: u8,
}

/// A run without standard input at moment 0, of which no read and no write fails, which writes nothing
/// and is done.
pub const QUIET: Run<'static> = Run {
    words: "sandesk",
    moment: Some(0),
    input: "",
    read: u64::MAX,
    write: u64::MAX,
    output: "",
    errors: "",
    status: 0,
};

/// The words of a command line, parted by spaces, of which the first is the program's name.
pub fn words_from(rt: &(impl Abort + AllocGlobal), text: &str) -> Vec<String> {
    let mut words = Vec::new(rt.alloc());
    for word in text.split(' ') {
        let word = String::from_str(rt.alloc(), word).expect(rt, "memory");
        words.push(word).expect(rt, "room");
    }
    words
}

/// Ends the test where the run has written something else, or its exit status is another.
fn has_written(rt: &impl Abort, run: &Run<'_>, output: &[u8], errors: &[u8], status: u8) {
    let is_written = output == run.output.as_bytes() && errors == run.errors.as_bytes();
    if !is_written || status != run.status {
        panic!(rt;
            "{}: {status} {}{}",
            run.words,
            str::from_utf8(output).unwrap_or("no text"),
            str::from_utf8(errors).unwrap_or("no text")
        );
    }
}

/// What the clock tells. It goes on by a second.
fn tick(clock: &Cell<Option<u64>>) -> Option<u64> {
    let moment = clock.get();
    clock.set(moment.map(|told| told.saturating_add(1)));
    moment
}

/// Runs the program so, and compares what it writes.
fn is_run(host: &HostRuntime, rt: &(impl Abort + AllocGlobal), wanted: &Run<'_>) {
    let words = words_from(rt, wanted.words);
    let clock = Cell::new(wanted.moment);
    let mut output = Breaking::new(rt.alloc(), usize::MAX, wanted.write);
    let mut errors = Vec::new(rt.alloc());
    let status = run(
        host,
        words.as_slice(),
        || tick(&clock),
        Slow::new(wanted.input.as_bytes(), usize::MAX, wanted.read),
        &mut output,
        &mut errors,
    );
    has_written(rt, wanted, output.taken(), errors.as_slice(), status);
}

/// Runs the program as these tell, one after the other.
pub fn are_run(host: &HostRuntime, rt: &(impl Abort + AllocGlobal), runs: &[Run<'_>]) {
    for run in runs {
        is_run(host, rt, run);
    }
}

/// Makes a file, or empties it, and writes these bytes.
pub fn put(host: &HostRuntime, rt: &impl Abort, name: &str, bytes: &[u8]) {
    fs::write(host, name, bytes).expect(rt, "a file");
}

/// Has the desk in the file answer a request, as a line of a table tells both.
fn is_answered(host: &HostRuntime, rt: &(impl Abort + AllocGlobal), line: &str) {
    let exchange = exchange_in(rt, line);
    let wanted = Run {
        words: "sandesk once --db round.db --policy round.toml",
        input: exchange.request.as_str(),
        output: exchange.answer.as_str(),
        ..QUIET
    };
    is_run(host, rt, &wanted);
}

/// Has the desk in the file answer requests, one after the other, but for so many of the first.
fn are_answered(host: &HostRuntime, rt: &(impl Abort + AllocGlobal), lines: &[&str], but: usize) {
    for line in lines.iter().skip(but) {
        is_answered(host, rt, line);
    }
}

/// The ports of the worked world in fabric A.
const PORTS: &str = "\
port_name,node_name,domain,port
10:00:00:00:00:00:00:01,20:00:00:00:00:00:00:01,1,1
10:00:00:00:00:00:00:02,20:00:00:00:00:00:00:02,12,5
10:00:00:00:00:00:00:03,20:00:00:00:00:00:00:03,12,5
50:00:00:00:00:00:00:01,50:00:00:00:00:00:00:00,1,2
50:00:00:00:00:00:00:02,50:00:00:00:00:00:00:00,1,3
";

/// A desk in a new file, and its first import.
const MADE: &[Run<'static>] = &[
    Run {
        words: "sandesk init --db round.db",
        ..QUIET
    },
    Run {
        words: "sandesk import --db round.db --policy round.toml --token t-ada --fabric A --file round.csv",
        output: "{\"revision\":1}\n",
        ..QUIET
    },
];

/// What the first worked plan would gain and change, before it is activated.
const TRIED: &[Run<'static>] = &[
    Run {
        words: "sandesk dryrun --db round.db --policy round.toml --token t-ada --plan p1",
        output: "{\"gained\":[{\"fabric\":\"A\",\"initiator\":\"10:00:00:00:00:00:00:01\",\"lun\":0,\"target\":\"50:00:00:00:00:00:00:01\",\"volume\":\"v1\"}],\"lost\":[],\"plan\":\"p1\"}\n",
        ..QUIET
    },
    Run {
        words: "sandesk diff --db round.db --policy round.toml --token t-ada --plan p1",
        output: "\
revision 6
- meta active.A -
+ meta active.A s1
+ zoning A alias disk wwpn=50:00:00:00:00:00:00:01
+ zoning A zone z1 wwpn=10:00:00:00:00:00:00:01
+ zoning A zone z1 alias=disk
+ zoning A set s1 z1
+ active A z1 wwpn=10:00:00:00:00:00:00:01
+ active A z1 wwpn=50:00:00:00:00:00:00:01
+ groups host hosts1 blue
+ groups storage g1 blue arr1 exposed
+ group_parts host hosts1 host db1
+ group_parts storage g1 hostgroup hosts1
+ group_parts storage g1 target 50:00:00:00:00:00:00:01
+ group_parts storage g1 unit 0 v1
paths: 0 lost, 1 gained; hosts left on one fabric: none; hosts left without a path: none
",
        ..QUIET
    },
];

/// An import into fabric B, where nothing is active, leaves the paths of the first host of the worked world,
/// which are told as texts.
const PATHS_AND_REPORT: &[Run<'static>] = &[
    Run {
        words: "sandesk import --db round.db --policy round.toml --token t-ada --fabric B --file no-ports.csv",
        output: "{\"revision\":8}\n",
        ..QUIET
    },
    Run {
        words: "sandesk export --db round.db --policy round.toml --token t-ada --fabric B",
        output: "fabric B\nactive -\ndefault deny\n",
        ..QUIET
    },
    Run {
        words: "sandesk paths --db round.db --policy round.toml --token t-ada --host db1",
        output: "fabric,host,initiator,target,volume,lun\nA,db1,10:00:00:00:00:00:00:01,50:00:00:00:00:00:00:01,v1,0\n",
        ..QUIET
    },
    Run {
        words: "sandesk report --db round.db --policy round.toml --token t-ada --host db1",
        output: "HOST                     VOLUME                        A      B STATE\ndb1                      v1                            1      0 ONE\n",
        ..QUIET
    },
];

/// Who reaches its volume; which hosts there are; what an import of no port would lose, where none may be
/// lost; a plan that is not there; and a file and a policy that no desk is asked about.
const LOOKED: &[Run<'static>] = &[
    Run {
        words: "sandesk who --db round.db --policy round.toml --token t-ada --volume v1 --json",
        output: "[{\"a\":1,\"b\":0,\"groups\":[\"g1\"],\"host\":\"db1\",\"tenant\":\"blue\",\"units\":[0]}]\n",
        ..QUIET
    },
    Run {
        words: "sandesk list --db round.db --policy round.toml --token t-ada hosts --json",
        output: "[{\"kind\":\"host\",\"name\":\"db1\",\"ports\":[\"10:00:00:00:00:00:00:01\"],\"tenant\":\"blue\"},{\"kind\":\"host\",\"name\":\"db2\",\"ports\":[\"10:00:00:00:00:00:00:02\",\"10:00:00:00:00:00:00:03\"],\"tenant\":\"green\"}]\n",
        ..QUIET
    },
    Run {
        words: "sandesk tryimport --db round.db --policy round.toml --token t-ada --fabric A --file no-ports.csv --most-lost 0",
        output: "\
ports: 0 listed, 0 new, 0 moved, 5 logged out
paths: 0 gained, 1 lost (1 host); over A alone or B alone afterwards: none; without a path afterwards: 1 host: db1
refused: 1 > 0
",
        status: 1,
        ..QUIET
    },
    Run {
        words: "sandesk diff --db round.db --policy round.toml --token t-ada --plan p9",
        output: "{\"code\":9,\"error\":\"not-found\"}\n",
        status: 1,
        ..QUIET
    },
    Run {
        words: "sandesk check --ports round.csv",
        output: "round.csv: sound\n",
        ..QUIET
    },
    Run {
        words: "sandesk explain --policy round.toml --caller eve --action approve",
        output: "rule 2 `signers` holds\nallowed\n",
        ..QUIET
    },
];

#[test]
fn file_round(rt: HostRuntime) {
    put(&rt, &rt, "round.toml", TRIAL_POLICY.as_bytes());
    put(&rt, &rt, "round.csv", PORTS.as_bytes());
    put(
        &rt,
        &rt,
        "no-ports.csv",
        "port_name,node_name,domain,port\n".as_bytes(),
    );
    are_run(&rt, &rt, MADE);
    are_answered(&rt, &rt, WORLD, 1);
    are_answered(&rt, &rt, &[FIRST_STAGED], 0);
    are_run(&rt, &rt, TRIED);
    are_answered(&rt, &rt, FIRST_PLAN, 1);
    are_run(&rt, &rt, PATHS_AND_REPORT);
    are_run(&rt, &rt, LOOKED);
}

/// A dry run over a database that is not there, which makes none.
const NOT_THERE: Run<'static> = Run {
    words: "sandesk dryrun --db none.db --policy status.toml --token t-ada --plan p9",
    errors: "sandesk: file\n",
    status: 3,
    ..QUIET
};

/// What is done, what the desk refuses, words that are wrong, and what fails.
const STATUSES: &[Run<'static>] = &[
    Run {
        words: "sandesk init --db status.db",
        ..QUIET
    },
    NOT_THERE,
    NOT_THERE,
    Run {
        words: "sandesk dryrun --db status.db --policy status.toml --token t-ada --plan p9",
        output: "{\"code\":9,\"error\":\"not-found\"}\n",
        status: 1,
        ..QUIET
    },
    Run {
        words: "sandesk once --db status.db",
        errors: "sandesk: words\n",
        status: 2,
        ..QUIET
    },
    Run {
        words: "sandesk init --db status.db",
        errors: "sandesk: file\n",
        status: 3,
        ..QUIET
    },
];

#[test]
fn exit_statuses(rt: HostRuntime) {
    put(&rt, &rt, "status.toml", TRIAL_POLICY.as_bytes());
    are_run(&rt, &rt, STATUSES);
}
