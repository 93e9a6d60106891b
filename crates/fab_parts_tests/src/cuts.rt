//! The worked policy, which is also that of trials, and what it is where it is cut behind a byte.
use fab_policy::base::TRIAL_POLICY;
use fab_policy::{Policy, PolicyFault};
use fab_policy_text::ReadPolicy;
use std::process::Abort;

/// The worked policy.
pub const WORKED: &str = r#"[[callers]]
name = "ada"
token = "t-ada"
roles = ["operator"]
tenants = "*"
[[callers]]
name = "bob"
token = "t-bob"
roles = ["approver"]
tenants = "*"
[[callers]]
name = "cyd"
token = "t-cyd"
roles = ["operator"]
tenants = ["blue"]
[[callers]]
name = "dan"
token = "t-dan"
roles = ["approver"]
tenants = "*"
[[callers]]
name = "eve"
token = "t-eve"
roles = []
tenants = ["green"]
[[windows]]
name = "early"
weekly = [[60, 120]]
freeze = [[350000, 351000]]
[[rules]]
name = "ops"
actions = ["import", "inventory", "stage", "withdraw", "dryrun", "activate", "rollback"]
role = "operator"
[[rules]]
name = "signers"
actions = ["approve"]
[[rules]]
name = "two-eyes"
actions = ["activate"]
fabric = "B"
approvals = 2
approver = "approver"
fresh = true
[[rules]]
name = "quiet"
actions = ["activate"]
fabric = "B"
window = "early"
[[rules]]
name = "own"
actions = ["import", "inventory", "activate", "rollback"]
scope = "own"
"#;

/// Behind how many bytes a policy ends: where each table has the keys that it needs, and the last
/// line has its value.
const READ: &[usize] = &[
    0, 75, 76, 151, 152, 232, 233, 308, 309, 380, 381, 428, 429, 456, 457, 568, 569, 586, 587, 635,
    636, 686, 687, 699, 700, 713, 714, 735, 736, 748, 749, 796, 797, 809, 810, 826, 827, 907, 908,
    921, 922,
];

/// Whether the first bytes of the text, so many, are a policy. Ends the test where there is no memory
/// to tell.
fn is_policy(rt: &(impl Abort + AllocGlobal), end: usize) -> bool {
    let text = WORKED.get(..end).expect(rt, "a beginning");
    match Policy::read(rt.alloc(), text) {
        Ok(_) => true,
        Err(PolicyFault::Memory) => panic!(rt; "memory"),
        Err(_) => false,
    }
}

/// The first cut that is read as a policy where it is none, or refused where it is one.
fn first_wrong(rt: &(impl Abort + AllocGlobal)) -> Option<usize> {
    for end in 0..=WORKED.len() {
        if is_policy(rt, end) != READ.contains(&end) {
            return Some(end);
        }
    }
    None
}

#[test]
fn policy_cut(rt: HostRuntime) {
    assert_eq!(rt; first_wrong(&rt), None);
}

#[test]
fn trial_is_under_the_worked_policy(rt: HostRuntime) {
    assert_eq!(rt; TRIAL_POLICY, WORKED);
}
