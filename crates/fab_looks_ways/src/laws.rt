//! Laws of pairs: a law is the contract of a function that does nothing.
ghost use Rattle.std.specs.Prelude.{◌≡◌};
ghost use Rattle.fab_looks_ways.specs.Pairs.{ends_cmp, ends_order};
ghost use Rattle.fab_looks_ways.specs.declared.ends.Ends.{Ends};

/// Ends are ordered by fabric, initiator, target.
pub fn ends_in_order()
    ensures { (x y : Ends) → ends_cmp x y ≡ ends_order x y }
{}
