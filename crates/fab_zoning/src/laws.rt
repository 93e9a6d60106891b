//! Laws of zoning that no single call states.
ghost use Rattle.fab_zoning.specs.Joins.{JoinedIsSymmetric, ReasonIsSymmetric};

/// Two ports that are joined are joined the other way round too, and by the same zone.
pub fn joined_is_symmetric()
    ensures joined { JoinedIsSymmetric }
    ensures why { ReasonIsSymmetric }
{}
