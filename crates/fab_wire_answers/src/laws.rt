//! What holds of every answer.

ghost use Rattle.std.specs.Prelude.{◌≡◌, true};
ghost use Rattle.fab_wire_answers.specs.Bodies.{body_of};
ghost use Rattle.fab_wire_answers.specs.Messages.{PhrasesAreStandard};
ghost use Rattle.fab_wire_answers.specs.Orders.{in_order};

use crate::answers::Answer;
use std::alloc::Allocator;

/// The keys of each object of a body are in the order of their bytes, each once.
pub fn keys_are_in_order<A: Allocator + Copy>(answer: &Answer<A>)
    ensures { in_order (body_of answer.now) ≡ true }
{}

/// The phrases of the answers are those of the crate `http`.
pub fn phrases_are_standard()
    ensures { PhrasesAreStandard }
{}
