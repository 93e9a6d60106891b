//! Names from bytes that may be no text, as they come in a request or a file.
ghost use Rattle.std.specs.Prelude.{ℕ, MatchOption};
ghost use Rattle.fab_names.specs.Fabrics.{SpellsFabric};
ghost use Rattle.fab_names.specs.Names.{IsNameText, SpellsName};
ghost use Rattle.fab_names.specs.WorldWideNames.{SpellsWwn};
ghost use Rattle.fab_names.specs.Addresses.{SpellsAddress};
ghost use Rattle.fab_names.specs.declared.fabric.Fabric as fabrics;

use crate::address::Address;
use crate::fabric::Fabric;
use crate::name::Name;
use crate::wwn::Wwn;
use std::str;

/// The fabric that bytes spell, if they spell one.
pub fn read_fabric(bytes: &[u8]) -> Option<Fabric>
    ensures { MatchOption result ((fabric : fabrics.Fabric) → ¬ (SpellsFabric bytes.now fabric))
        (SpellsFabric bytes.now) }
{
    let Ok(text) = str::from_utf8(bytes) else {
        return None;
    };
    match Fabric::read(text) {
        Ok(fabric) => Some(fabric),
        Err(_) => None,
    }
}

/// The name that bytes are, if they are one.
pub fn read_name(bytes: &[u8]) -> Option<Name>
    ensures { MatchOption result (¬ (IsNameText bytes.now)) (SpellsName bytes.now) }
{
    let Ok(text) = str::from_utf8(bytes) else {
        return None;
    };
    match Name::read(text) {
        Ok(name) => Some(name),
        Err(_) => None,
    }
}

/// The world-wide name that bytes spell, if they spell one.
pub fn read_wwn(bytes: &[u8]) -> Option<Wwn>
    ensures { MatchOption result ((n : ℕ) → ¬ (SpellsWwn bytes.now n)) (SpellsWwn bytes.now) }
{
    let Ok(text) = str::from_utf8(bytes) else {
        return None;
    };
    match Wwn::read(text) {
        Ok(wwn) => Some(wwn),
        Err(_) => None,
    }
}

/// The address that bytes spell, if they spell one.
pub fn read_address(bytes: &[u8]) -> Option<Address>
    ensures { MatchOption result ((n : ℕ) → ¬ (SpellsAddress bytes.now n)) (SpellsAddress bytes.now) }
{
    let Ok(text) = str::from_utf8(bytes) else {
        return None;
    };
    match Address::read(text) {
        Ok(address) => Some(address),
        Err(_) => None,
    }
}
