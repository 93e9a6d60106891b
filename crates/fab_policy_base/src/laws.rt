//! Laws of policies. Nothing runs here.
ghost use Rattle.fab_policy_base.specs.Sound.{IsSound};

use crate::policy::Policy;

/// In every policy names and tokens stand once, each window that a rule names is there, and no
/// limit is passed.
pub fn policy_is_sound(policy: &Policy)
    ensures { IsSound policy.now }
{
    let _callers = &policy.callers;
}
