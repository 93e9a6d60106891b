//! Keys that their order tells apart.
ghost use Rattle.std.specs.Prelude.{◌≡◌};
ghost use Rattle.std.specs.declared.cmp.Ordering.TheVariants.{Equal};

use fab_names::{Fabric, Member, Name, Wwn};

/// A key that its order tells apart.
pub trait Key: Ord + Copy + Drop {
    ghost exact: { (x y : Self) → Self.Ord.cmp x y ≡ Equal → x ≡ y };
}

impl Key for u16 {
    ghost use Rattle.std.specs.FinSet.{nat_cmp-IsAntisymmetric};

    ghost exact = { nat_cmp-IsAntisymmetric };
}

impl Key for Wwn {
    ghost use Rattle.std.specs.FinSet.{nat_cmp-IsAntisymmetric};

    ghost exact = { nat_cmp-IsAntisymmetric };
}

impl Key for Fabric {
    ghost use Rattle.fab_names.proofs.OrderLaws.{fabric_exact};

    ghost exact = { fabric_exact };
}

impl Key for Name {
    ghost use Rattle.fab_names.proofs.OrderLaws.{name_exact};

    ghost exact = { name_exact };
}

impl Key for Member {
    ghost use Rattle.fab_names.proofs.OrderLaws.{member_exact};

    ghost exact = { member_exact };
}

impl<A: Key, B: Key> Key for (A, B) {
    ghost use Rattle.std.proofs.lemmas.Map.Lookups.{exact_pairs};

    ghost exact = { exact_pairs A.Ord.cmp B.Ord.cmp A.exact B.exact };
}
