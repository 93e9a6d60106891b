//! Databases that somebody else changed: what the program says of each, and which status it ends with,
//! each time that it is asked.

use super::runs::{QUIET, Run, are_run, put};
use fab_policy_base::TRIAL_POLICY;
use sqlite::{Alter, Connection};
use std::process::Abort;

/// A database: its name, the statement that changed it, the words that make it and ask of it, and the line
/// that is said then.
type Changed = [&'static str; 5];

const CHANGED: &[Changed] = &[
    [
        "meta.db",
        "UPDATE meta SET value = '01' WHERE key = 'revision'",
        "sandesk init --db meta.db",
        "sandesk export --db meta.db --policy unsound.toml --token t-ada --fabric A",
        "sandesk: damaged meta\n",
    ],
    [
        "zoning.db",
        "INSERT INTO zoning VALUES ('A', 'set', 's1', 'z9')",
        "sandesk init --db zoning.db",
        "sandesk paths --db zoning.db --policy unsound.toml --token t-ada --host db1",
        "sandesk: damaged zoning\n",
    ],
    [
        "newer.db",
        "UPDATE meta SET value = '3' WHERE key = 'schema'",
        "sandesk init --db newer.db",
        "sandesk once --db newer.db --policy unsound.toml",
        "sandesk: newer-schema 3\n",
    ],
    [
        "fewer.db",
        "DROP TABLE paths",
        "sandesk init --db fewer.db",
        "sandesk serve --db fewer.db --policy unsound.toml --listen 127.0.0.1:0 --count 1",
        "sandesk: store\n",
    ],
];

/// Makes the statement over a connection, which ends.
fn execute<S: Alter + Drop>(rt: &impl Abort, connection: Connection<S>, statement: &str) {
    let mut connection = connection;
    assert!(rt; connection.execute(statement, &[]).is_ok());
}

/// Changes a database behind the desk's back.
fn change(host: &HostRuntime, rt: &impl Abort, name: &str, statement: &str) {
    match Connection::open(host, name) {
        Ok(connection) => execute(rt, connection, statement),
        Err(_) => panic!(rt; "no database"),
    }
}

/// Asks of a database that was changed.
fn is_refused(host: &HostRuntime, rt: &(impl Abort + AllocGlobal), changed: &Changed) {
    let [name, statement, made, asked, line] = *changed;
    let init = Run {
        words: made,
        ..QUIET
    };
    let refused = Run {
        words: asked,
        errors: line,
        status: 3,
        ..QUIET
    };
    are_run(host, rt, &[init]);
    change(host, rt, name, statement);
    are_run(host, rt, &[refused, refused]);
}

#[test]
fn unsound_tables_are_told(rt: HostRuntime) {
    put(&rt, &rt, "unsound.toml", TRIAL_POLICY.as_bytes());
    for changed in CHANGED {
        is_refused(&rt, &rt, changed);
    }
}
