//! The flag of the default zone.
ghost use Rattle.std.specs.Prelude.{◌≡◌};
ghost use Rattle.fab_zoning.specs.Zonings.{flag_of, flag_text, permits};

/// Whether ports in no zone of the active set may communicate with one another: what the default
/// zone permits (FC-GS, Fabric Zone Server).
#[derive(Clone, Copy)]
pub enum DefaultFlag {
    /// They may.
    Permit,
    /// They may not.
    Deny,
}

impl DefaultFlag {
    /// The flag that permits, or the one that denies.
    pub fn permitting(permit: bool) -> DefaultFlag
        ensures { result ≡ flag_of permit }
    {
        if permit {
            DefaultFlag::Permit
        } else {
            DefaultFlag::Deny
        }
    }

    /// Whether the flag permits.
    pub fn permits(self) -> bool
        ensures { result ≡ permits self }
    {
        match self {
            DefaultFlag::Permit => true,
            DefaultFlag::Deny => false,
        }
    }

    /// The word for the flag: `permit` or `deny`.
    pub fn word(self) -> &'static str
        ensures { result.now ≡ flag_text self }
    {
        match self {
            DefaultFlag::Permit => "permit",
            DefaultFlag::Deny => "deny",
        }
    }
}
