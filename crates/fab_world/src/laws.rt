//! Laws of worlds. Nothing runs here.
ghost use Rattle.std.specs.Prelude.{◌≡◌};
ghost use Rattle.fab_world.specs.Limits.{most_changes, most_plans};

use crate::limits::{MOST_CHANGES, MOST_PLANS};

/// The constants are the limits that the definitions tell.
pub fn constants_are_the_limits()
    ensures plans { MOST_PLANS ≡ most_plans }
    ensures changes { MOST_CHANGES ≡ most_changes }
{}
