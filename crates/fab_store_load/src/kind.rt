//! Rows of one kind among rows of several.
ghost use Rattle.std.specs.Prelude.{◌≡◌, Option, Some, true};

/// A value that `==` tells apart.
pub trait Value: Eq + Copy + Drop {
    ghost same: { (x y : Self) → Self.PartialEq.eq x y ≡ true → x ≡ y };
}

/// A kind of rows: those that say an entry `E`.
pub trait Kind<R, E> {
    // the entry that a row says, where it is of this kind
    ghost said: { Self → R → Option E };

    // the row that says the entry
    ghost row_of: { Self → E → R };

    /// The entry that the row says, where it is of this kind.
    fn entry(&self, row: &R) -> Option<E>
        ensures { result ≡ said self.now row.now };

    ghost says: { (k : Self) (e : E) → said k (row_of k e) ≡ Some e };

    ghost only: { (k : Self) (r : R) (e : E) → said k r ≡ Some e → r ≡ row_of k e };
}
