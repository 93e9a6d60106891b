//! Laws of verdicts, and those of policies and their texts. Nothing runs here.
ghost use Rattle.std.specs.Prelude.{◌≡◌};
ghost use Rattle.fab_policy.specs.Verdicts.{IsVerdict};
ghost use Rattle.fab_policy.specs.declared.act.Verdict.{Verdict};

use crate::act::Act;
use fab_policy_base::Policy;
pub use fab_policy_base::laws::policy_is_sound;

/// A policy has one verdict on an act at most.
pub fn one_verdict(policy: &Policy, act: &Act)
    ensures { (v w : Verdict) → IsVerdict policy.now act.now v → IsVerdict policy.now act.now w → v ≡ w }
{
    let _policy = policy;
    let _act = act;
}
