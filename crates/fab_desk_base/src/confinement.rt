//! Confinement to the caller's tenants.
ghost use Rattle.std.specs.Prelude.{◌≡◌, ℕ, List, true};
ghost use Rattle.fab_policy.specs.fab_policy_base.Callers.{sees, HasToken};
ghost use Rattle.fab_policy.specs.fab_policy_base.Policies.{PolicyRows};
ghost use Rattle.fab_world.specs.Worlds.{WorldRows, records_of};
ghost use Rattle.fab_desk_base.specs.Answers.{Request, IsStep};
ghost use Rattle.fab_desk_base.specs.Touching.{MovesPathOf};
ghost use Rattle.fab_desk_base.specs.Laws.{ConfinesPaths};

use crate::Reply;
use std::alloc::Allocator;

/// Where for imports, changes of the inventory, activations and rollbacks some rule without a fabric
/// has a scope, no request gains or loses a path whose host or volume has a tenant that is not the
/// caller's: after it of a path gained, before it of one lost.
pub fn paths_are_confined<A: Allocator + Copy>(reply: &Reply<A>)
    ensures { (p : PolicyRows) → ConfinesPaths p → (w : WorldRows) (q : Request A) (new : WorldRows) → IsStep p w q reply.now new
        → (id : ℕ) → HasToken p q.token id → (t : List ℕ) → MovesPathOf (records_of w) (records_of new) t → sees p id t ≡ true }
{
    let _reply = reply;
}
