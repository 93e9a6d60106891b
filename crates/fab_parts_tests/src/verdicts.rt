//! Verdicts of the worked policy on activations by ada, on fabric B. Some of them no request can ask for: the
//! author's own approval, and one caller's twice.
use crate::cuts::WORKED;
use crate::named::named;
use fab_names::Fabric;
use fab_policy::{Act, Action, Approval, Need, PlanApprovals, Policy, Verdict, decide};
use fab_policy_text::ReadPolicy;
use std::process::Abort;

/// Who approved ada's plan, and at which revision.
type Given = (&'static str, u64);

/// A moment, two approvals, and the number of the rule that denies the activation, its name and its need,
/// where one does.
type Case = (u64, Given, Given, Option<Denied>);

type Denied = (usize, &'static str, Need);

/// Too few approvals, and out of the window.
const TWO_EYES: Option<Denied> = Some((3, "two-eyes", Need::Approvals));

const QUIET: Option<Denied> = Some((4, "quiet", Need::Window));

/// At revision 6.
const CASES: &[Case] = &[
    (349200, ("bob", 6), ("dan", 6), None),
    (349200, ("bob", 6), ("dan", 5), TWO_EYES),
    (349200, ("ada", 6), ("bob", 6), TWO_EYES),
    (349200, ("bob", 6), ("bob", 6), TWO_EYES),
    (350999, ("bob", 6), ("dan", 6), QUIET),
    (351000, ("bob", 6), ("dan", 6), None),
];

fn approval(rt: &impl Abort, given: Given) -> Approval {
    Approval {
        caller: named(rt, given.0),
        revision: given.1,
    }
}

/// Whether the verdict is this.
fn is_verdict(verdict: &Verdict, denied: Option<Denied>) -> bool {
    match (verdict, denied) {
        (Verdict::Allowed, None) => true,
        (Verdict::Denied { rule, name, need }, Some((number, text, wanted))) => {
            *rule == number && name.as_str() == text && *need == wanted
        }
        _ => false,
    }
}

/// Whether the policy says of the case what it should.
fn is_decided(rt: &impl Abort, policy: &Policy, case: &Case) -> bool {
    let approvals = [approval(rt, case.1), approval(rt, case.2)];
    let act = Act {
        caller: policy.caller("t-ada").expect(rt, "ada"),
        action: Action::Activate,
        fabrics: &[Fabric::B],
        touched: &[],
        moment: case.0,
        plan: Some(PlanApprovals {
            author: named(rt, "ada"),
            approvals: &approvals,
        }),
        revision: 6,
    };
    is_verdict(&decide(policy, &act), case.3)
}

#[test]
fn worked_verdicts(rt: HostRuntime) {
    let policy = Policy::read(rt.alloc(), WORKED).expect(&rt, "a policy");
    for case in CASES {
        assert!(rt; is_decided(&rt, &policy, case));
    }
}
