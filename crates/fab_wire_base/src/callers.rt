//! Who is a caller: what tells it.

ghost use Rattle.std.specs.Prelude.{◌≡◌, List, ℕ, Bool, option_map};
ghost use Rattle.fab_wire_base.specs.Callers.{known_token};

/// Tells whose tokens are known.
pub trait Callers {
    ghost knows_token: { Self → List ℕ → Bool };

    /// Whether a token is a caller's.
    fn knows(&self, token: &[u8]) -> bool
        ensures { result ≡ knows_token self.now token.now };
}

/// A token, if it is a caller's.
pub fn known<'t, C: Callers>(callers: &C, token: Option<&'t [u8]>) -> Option<&'t [u8]>
    ensures { option_map (λ found. found.now) result
        ≡ known_token (C.knows_token callers.now) (option_map (λ given. given.now) token.entry) }
{
    match token {
        Some(token) => {
            if callers.knows(token) {
                Some(token)
            } else {
                None
            }
        }
        None => None,
    }
}
