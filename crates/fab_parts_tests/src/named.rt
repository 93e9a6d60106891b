//! The names that texts spell.
use fab_names::Name;
use std::process::Abort;

/// The name that the text spells.
pub fn named(rt: &impl Abort, text: &str) -> Name {
    Name::read(text).expect(rt, "a name")
}
