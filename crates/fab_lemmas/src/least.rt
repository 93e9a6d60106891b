//! The lesser of two values that there may be.
ghost use Rattle.std.specs.Prelude.{◌≡◌};
ghost use Rattle.fab_lemmas.specs.Firsts.{lesser};

/// The lesser of two values, or the one that there is. It takes no memory.
pub fn lesser<T: Ord + Copy + Drop>(a: Option<T>, b: Option<T>) -> Option<T>
    ensures { result ≡ lesser T.cmp a b }
{
    let Some(first) = a else {
        return b;
    };
    match b {
        Some(second) => Some(first.min(second)),
        None => Some(first),
    }
}
