//! The steps of plans.
ghost use Rattle.std.specs.Prelude.{◌≡◌};
ghost use Rattle.fab_plans_base.specs.Forms.{keyword_of};
ghost use Rattle.fab_plans_base.specs.Plans.{IsStep};

use crate::{Keyword, MappingAction, ZoningAction};
use std::alloc::Allocator;
use std::marker::Model;

/// What a step of a plan does.
#[derive(Drop)]
pub enum Action<A: Allocator + Copy> {
    /// It changes the zoning of a fabric.
    Zoning(ZoningAction<A>),
    /// It changes the mapping of volumes.
    Mapping(MappingAction<A>),
}

/// A step of a plan: an action that some line of a plan text spells.
///
/// So a list in it has 1 to 255 items, equal ones counted, and a logical unit number is at most
/// 16383. A contract sees a step as what its line says: its action, with its lists as lists.
pub struct Step<A: Allocator + Copy> {
    action: Action<A>,
}

// It is written out, so that a caller does not prove again how each part is dropped.
impl<A: Allocator + Copy> Drop for Step<A> {
    fn drop(self) {
        let Step { action: _ } = self;
    }
}

impl<A: Allocator + Copy> Model for Step<A> {
    ghost use Rattle.fab_plans_base.specs.Steps.{PlanStep};

    ghost Value = { PlanStep };

    ghost use Rattle.fab_plans_base.specs.Actions.{step_of};
    ghost use Rattle.fab_plans_base.specs.Plans.{IsStep};

    ghost view = { λ s. step_of s.action };

    ghost invariant = { λ s. IsStep (step_of s.action) };
}

impl<A: Allocator + Copy> Step<A> {
    ghost use Rattle.fab_plans_base.specs.Actions.{step_of};

    /// The step of an action that some line spells: the lists of the action have 1 to 255 items,
    /// an alias is given no alias as a member, and a logical unit number is at most 16383.
    pub fn new(action: Action<A>) -> Self
        requires { IsStep (step_of action) }
        ensures { result ≡ step_of action }
    {
        Step { action }
    }

    /// What the step does.
    pub fn action(&self) -> &Action<A>
        ensures value { step_of result.now ≡ self.now }
        ensures valid { IsStep self.now }
    {
        &self.action
    }

    /// The first word of the step's lines.
    pub fn keyword(&self) -> Keyword
        ensures value { result ≡ keyword_of self.now }
        ensures valid { IsStep self.now }
    {
        match &self.action {
            Action::Zoning(action) => Keyword::Zoning(action.keyword()),
            Action::Mapping(action) => Keyword::Mapping(action.keyword()),
        }
    }
}
