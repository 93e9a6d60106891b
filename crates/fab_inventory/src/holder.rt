//! Holders of ports, and volumes.
ghost use Rattle.std.specs.Prelude.{◌≡◌};
ghost use Rattle.fab_inventory.specs.Words.{kind_text};

use fab_names::Name;

/// What a holder is. Hosts and arrays share one space of names.
#[derive(Clone, Copy, PartialEq, Eq)]
pub enum HolderKind {
    /// Its ports are initiators.
    Host,
    /// Its ports are targets, and volumes are on it.
    Array,
}

impl HolderKind {
    /// The word for the kind: `host` or `array`.
    pub fn word(self) -> &'static str
        ensures { result.now ≡ kind_text self }
    {
        match self {
            HolderKind::Host => "host",
            HolderKind::Array => "array",
        }
    }
}

/// A host or an array. A port is held by one holder at most.
#[derive(Clone, Copy, PartialEq, Eq)]
pub struct Holder {
    /// Whether it is a host or an array.
    pub kind: HolderKind,
    /// Whose it is.
    pub tenant: Name,
}

/// A volume: a named capacity on an array (SNIA Swordfish).
#[derive(Clone, Copy, PartialEq, Eq)]
pub struct Volume {
    /// The array that it is on.
    pub array: Name,
    /// Whose it is.
    pub tenant: Name,
    /// How many bytes it has: 1 to 9223372036854775807.
    pub bytes: u64,
}
