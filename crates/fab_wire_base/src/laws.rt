//! Laws of the wire: what holds of every path that has a route, and of every input.

ghost use Rattle.fab_wire_base.specs.Matching.{FoundMatches};
ghost use Rattle.fab_wire_base.specs.Captures.{FirstCaptures, SecondCaptures};
ghost use Rattle.fab_wire_base.specs.Spelling.{AskedIsKnown, SpellsOne, SpellsSome};
ghost use Rattle.fab_wire_base.specs.Whole.{BeginningsTell};
ghost use Rattle.fab_wire_base.specs.Limits.{most_head, most_lines, most_body};
ghost use Rattle.std.specs.Prelude.{◌≡◌};

use crate::head::{MOST_HEAD, MOST_LINES};
use crate::requests::MOST_BODY;

/// The constants are the limits that the definitions name.
pub fn constants_are_the_limits()
    ensures head { MOST_HEAD ≡ most_head }
    ensures lines { MOST_LINES ≡ most_lines }
    ensures body { MOST_BODY ≡ most_body }
{}

/// A path whose route is found matches the pattern of the route.
pub fn found_path_matches()
    ensures { FoundMatches }
{}

/// What the first name of a route's path captures, as matchit has it, is the segment behind the
/// second slash.
pub fn first_part_is_captured()
    ensures { FirstCaptures }
{}

/// What the second name of a route's path captures is the segment behind the third slash.
pub fn second_part_is_captured()
    ensures { SecondCaptures }
{}

/// Whoever sends the request that an input spells is known.
pub fn asked_token_is_known()
    ensures { AskedIsKnown }
{}

/// An input spells one thing.
pub fn inputs_spell_one_thing()
    ensures { SpellsOne }
{}

/// Every input spells something.
pub fn every_input_spells_something()
    ensures { SpellsSome }
{}

/// What a beginning spells that is whole, each input spells that begins so.
pub fn beginnings_tell()
    ensures { BeginningsTell }
{}
