//! What holds of the limits of plan texts.
ghost use Rattle.std.specs.Prelude.{◌≡◌};
ghost use Rattle.fab_plans_base.specs.Limits.{most_bytes, most_steps, most_items, last_unit};

use crate::{LAST_UNIT, MOST_BYTES, MOST_ITEMS, MOST_STEPS};

/// The constants are the limits that the definitions name.
pub fn constants_are_the_limits()
    ensures bytes { MOST_BYTES ≡ most_bytes }
    ensures steps { MOST_STEPS ≡ most_steps }
    ensures items { MOST_ITEMS ≡ most_items }
    ensures unit { LAST_UNIT ≡ last_unit }
{}
