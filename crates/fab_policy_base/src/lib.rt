//! The policy of a change desk as a value: callers, windows and rules.
//!
//! `Policy::caller` finds the caller of a token. That names stand once, and more, is an invariant of the
//! type: `laws::policy_is_sound` says it. Its text is read in `fab_policy_text`. The verdicts are
//! `fab_policy`'s, which hands on what stands here.
#![tactic(auto)]

mod caller;
mod fault;
mod key;
pub mod laws;
pub mod limits;
mod policy;
mod text;
mod trial;

pub use caller::CallerId;
pub use fault::PolicyFault;
pub use key::{Key, is_word_of};
pub use policy::{
    Action, Caller, Freeze, Policy, Quorum, Rule, Scope, Tenants, WEEK_MINUTES, WeekSpan, Window,
};
pub use text::Text;
pub use trial::TRIAL_POLICY;
