//! Plans that are tried.
ghost use Rattle.fab_program_looks.specs.Told.{TellsPlan};
ghost use Rattle.fab_world.specs.Soundness.{IsSound};
ghost use Rattle.fab_world.specs.Worlds.{records_of};

use crate::told::{print_plan, print_refusal};
use fab_files_base::End;
use fab_files_tries::looks_tries::try_plan;
use fab_names::Name;
use fab_policy::Policy;
use fab_program_outside::Fault;
use fab_reach_books::PathBook;
use fab_world::World;
use std::alloc::Global;
use std::io::Write;

/// Tells what the activation of a plan would do.
///
/// # Errors
/// `Memory`; `Stream` where the writer failed.
pub fn plan_at<B: PathBook<Global>, W: Write + Drop>(
    alloc: Global,
    world: &World<Global>,
    book: &mut B,
    policy: &Policy,
    token: &str,
    moment: u64,
    plan: Name,
    is_json: bool,
    writer: W,
) -> Result<(W, End), Fault>
    requires sound { IsSound world.now }
    requires stands { B.stands book.old (records_of world.now) }
    ensures { TellsPlan W.contents world.now policy.now token.now moment plan is_json writer result }
{
    match try_plan(alloc, world, book, policy, token, moment, plan) {
        Ok(tried) => print_plan(alloc, writer, &tried, is_json),
        Err(fault) => print_refusal(alloc, writer, fault),
    }
}
