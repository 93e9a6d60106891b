//! How many statements a store makes.

use fab_store_sql::ALL;

/// How many plans of statements a connection keeps, by their texts. SQLite's crate does not hand the number
/// out: it is written here once more, and does not follow where that crate takes another.
const KEPT_PLANS: usize = 64;

/// Each table is made, read, and has rows added and removed; and paths are read by their host.
#[test]
fn plans_of_all_statements_are_kept(rt: HostRuntime) {
    assert!(rt; ALL.len() < KEPT_PLANS / 4);
}
