//! Dry runs and activations.
ghost use Rattle.std.specs.Prelude.{ℕ, List};
ghost use Rattle.fab_policy.specs.fab_policy_base.Policies.{PolicyRows};
ghost use Rattle.fab_world.specs.Worlds.{WorldRows};
ghost use Rattle.fab_desk_base.specs.Answers.{IsCarriedOut};
ghost use Rattle.fab_desk_base.specs.declared.command.Command.TheVariants.{DryRun, Activate};
ghost use Rattle.fab_desk_base.specs.Laws.{TellsActivation};

use crate::Reply;
use std::alloc::Allocator;

/// A dry run that is carried out lists just the paths that the activation of the plan gains and
/// loses in the same world: by whichever callers, at whichever moments, and by whichever policies.
pub fn dry_run_tells_activation<A: Allocator + Copy>(tried: &Reply<A>, done: &Reply<A>)
    ensures { (p o : PolicyRows) (w : WorldRows) (i j : ℕ) (caller other : List ℕ) (moment later : ℕ) (n : List ℕ) (a b : WorldRows)
        → IsCarriedOut p w i caller moment (DryRun n) tried.now a → IsCarriedOut o w j other later (Activate n) done.now b → TellsActivation n tried.now done.now }
{
    let _tried = tried;
    let _done = done;
}
