//! Laws of links: a law is the contract of a function that does nothing.
ghost use Rattle.std.specs.Prelude.{◌≡◌, ◌↔◌, ℕ, List};
ghost use Rattle.fab_mapping.specs.Soundness.{Fits};
ghost use Rattle.fab_reach_base.specs.Records.{Records};
ghost use Rattle.fab_looks.specs.Links.{Holds, IsMissing, IsReached, AreKnown};
ghost use Rattle.fab_looks.specs.declared.link.Link.{Link};
ghost use Rattle.fab_looks.specs.declared.link.Link.TheVariants.{Joined};

/// All links are there exactly where the host reaches the volume, and both are known.
pub fn links_are_paths()
    ensures { (w : Records) (host volume : List ℕ) → Holds w host volume Joined ↔ (AreKnown w host volume × IsReached w host volume) }
{}

/// Where the mapping fits the inventory, all links are there exactly where the host reaches the
/// volume.
pub fn links_are_reach()
    ensures { (w : Records) (host volume : List ℕ) → Fits w.inventory w.config.mapping → Holds w host volume Joined ↔ IsReached w host volume }
{}

/// One link at most is the first that is missing.
pub fn one_missing()
    ensures { (w : Records) (host volume : List ℕ) (k l : Link) → IsMissing w host volume k → IsMissing w host volume l → k ≡ l }
{}

/// Where a link is missing, not all links are there.
pub fn missing_is_not_all()
    ensures { (w : Records) (host volume : List ℕ) (l : Link) → IsMissing w host volume l → ¬ Holds w host volume Joined }
{}

/// Where the mapping fits the inventory and a link is missing, no path of the host leads to the
/// volume.
pub fn missing_is_no_reach()
    ensures { (w : Records) (host volume : List ℕ) (l : Link) → Fits w.inventory w.config.mapping → IsMissing w host volume l → ¬ IsReached w host volume }
{}
