//! Laws of paths: a law is the contract of a function that does nothing.
ghost use Rattle.std.specs.Prelude.{◌≡◌, ◌⊎◌, ℕ, List};
ghost use Rattle.fab_reach_base.specs.Limits.{most_paths};
ghost use Rattle.fab_reach_base.specs.Records.{Records};
ghost use Rattle.fab_reach_base.specs.Orders.{path_cmp, path_order, IsListOf};
ghost use Rattle.fab_reach_base.specs.Reach.{AreJoined, IsOffered, Reaches, ReachesFrom};
ghost use Rattle.fab_reach_base.specs.declared.path.Path.{Path};
ghost use Rattle.fab_reach_base.specs.Serving.{IsServing};
ghost use Rattle.fab_reach_base.specs.Soundness.{IsSoundBeside};

use crate::MOST_PATHS;

/// The constant is the limit that the definitions tell.
pub fn constants_are_the_limits()
    ensures { MOST_PATHS ≡ most_paths }
{}

/// Paths are ordered by fabric, initiator, target, volume, unit.
pub fn paths_in_order()
    ensures { (x y : Path) → path_cmp x y ≡ path_order x y }
{}

/// Two listings of one world are equal.
pub fn one_listing()
    ensures { (w : Records) (xs ys : List Path) → IsListOf (Reaches w) xs → IsListOf (Reaches w) ys → xs ≡ ys }
{}

/// The ports of a path are known, logged in at its fabric, and may communicate there.
pub fn path_ports_are_joined()
    ensures { (w : Records) (x : Path) → Reaches w x → AreJoined w x }
{}

/// An exposed storage group has the target of a path, and its volume at its unit.
pub fn path_is_offered()
    ensures { (w : Records) (x : Path) → Reaches w x → IsOffered w x }
{}

/// A book may stand at each world whose configuration is sound beside its inventory.
pub fn sound_worlds_serve()
    ensures { (w : Records) → IsSoundBeside w.inventory w.config → IsServing w }
{}

/// A path is there in a world, or it is not: a search through the active rows, the storage groups and
/// their host groups tells which.
pub fn paths()
    ensures { (w : Records) (x : Path) → Reaches w x ⊎ ¬ Reaches w x }
{}

/// The same of a path of a host.
pub fn paths_of_hosts()
    ensures { (w : Records) (host : List ℕ) (x : Path) → ReachesFrom w host x ⊎ ¬ ReachesFrom w host x }
{}
