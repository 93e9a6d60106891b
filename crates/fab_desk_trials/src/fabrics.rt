//! The fabrics that a command names.
ghost use Rattle.std.specs.Prelude.{◌≡◌, ◌↔◌, Contains, IsTrue};
ghost use Rattle.fab_reach_base.specs.fab_names.declared.fabric.Fabric.{Fabric};
ghost use Rattle.fab_reach_base.specs.fab_names.declared.fabric.Fabric.TheVariants as fabric;
ghost use Rattle.fab_world.specs.fab_plans.Steps.{fabric_of};
ghost use Rattle.fab_world.specs.fab_plans_base.Steps.{PlanStep};
ghost use Rattle.fab_world.specs.Worlds.{WorldRows};
ghost use Rattle.fab_desk_base.specs.Commands.{NamesFabric};
ghost use Rattle.fab_desk_trials.specs.Named.{AreSteps};

use fab_desk_base::Command;
use fab_reach_base::names::Fabric;
use fab_world::plans::base::{Action, Step};
use fab_world::plans::zoned;
use std::alloc::Allocator;

/// Whether the step is of the zoning of the fabric.
fn is_of<A: Allocator + Copy>(step: &Step<A>, fabric: Fabric) -> bool
    ensures { IsTrue result ↔ (fabric_of step.now ≡ Some fabric) }
{
    match step.action() {
        Action::Zoning(action) => zoned(action) == fabric,
        Action::Mapping(_) => false,
    }
}

/// Whether some step is of the zoning of the fabric.
fn are_of<A: Allocator + Copy>(steps: &[Step<A>], fabric: Fabric) -> bool
    ensures { IsTrue result ↔ ((s : PlanStep) × Contains steps.now s × (fabric_of s ≡ Some fabric)) }
{
    steps.iter().any(|step| is_of(step, fabric))
}

/// Whether the command names the fabric: an import its own, and a plan those of its steps of zoning,
/// which are these.
fn names_fabric<A: Allocator + Copy>(
    command: &Command<A>,
    steps: &[Step<A>],
    fabric: Fabric,
) -> bool
    ensures { (w : WorldRows) → AreSteps w command.now steps.now → IsTrue result ↔ NamesFabric w command.now fabric }
{
    if let Command::Import { fabric: own, .. } = command {
        return *own == fabric;
    }
    are_of(steps, fabric)
}

/// The fabrics of which this holds.
fn chosen(a: bool, b: bool) -> &'static [Fabric]
    ensures a { Contains result.now fabric.A ↔ IsTrue a }
    ensures b { Contains result.now fabric.B ↔ IsTrue b }
{
    match (a, b) {
        (true, true) => &[Fabric::A, Fabric::B],
        (true, false) => &[Fabric::A],
        (false, true) => &[Fabric::B],
        (false, false) => &[],
    }
}

/// The fabrics that the command names, whose plan has these steps. It takes no memory.
pub fn fabrics_of<A: Allocator + Copy>(command: &Command<A>, steps: &[Step<A>]) -> &'static [Fabric]
    ensures { (w : WorldRows) → AreSteps w command.now steps.now → (f : Fabric) → Contains result.now f ↔ NamesFabric w command.now f }
{
    let a = names_fabric(command, steps, Fabric::A);
    let b = names_fabric(command, steps, Fabric::B);
    chosen(a, b)
}
