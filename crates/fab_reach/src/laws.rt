//! Laws of the pairs to ask about: a law is the contract of a function that does nothing.
ghost use Rattle.std.specs.Prelude.{ℕ, List, Bool};
ghost use Rattle.std.specs.BTreeSet.{BTreeSet};
ghost use Rattle.fab_names.specs.declared.fabric.Fabric.{Fabric};
ghost use Rattle.fab_reach_base.specs.Records.{Records};
ghost use Rattle.fab_reach_books.specs.Inner.Moving.{IsMoving};
ghost use Rattle.fab_reach_moves.specs.Moves.{AreMoved, AreTouched, AreFlagged};
ghost use Rattle.fab_reach_pairs.specs.Inner.Finding.{IsFound};

/// The pairs that are found by moved ports, touched storage groups and flags are those to ask about.
pub fn found_pairs_are_moving()
    ensures { (w v : Records) (moved : BTreeSet ℕ) (touched : BTreeSet (List ℕ)) (flagged : Fabric → Bool) → AreMoved w v moved → AreTouched w v touched → AreFlagged w v flagged
        → (p q : ℕ) → (IsFound w v moved touched flagged p q → IsMoving w v p q) × (¬ IsFound w v moved touched flagged p q → ¬ IsMoving w v p q) }
{}
