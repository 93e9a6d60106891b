//! The exposed storage groups of each host, where some hosts get new ones.
ghost use Rattle.std.specs.Prelude.{◌≡◌, ℕ, List};
ghost use Rattle.std.specs.Option.{option_copied};
ghost use Rattle.fab_lemmas.specs.MapsOfSets.{in_tree};
ghost use Rattle.fab_names.specs.Orders.{name_cmp};
ghost use Rattle.fab_reach_books.specs.Renewed.{patched};

use fab_names::Name;
use std::alloc::Allocator;
use std::collections::{BTreeMap, BTreeSet};

/// The exposed storage groups of each host: a new set where the host has one, and else the old one.
#[derive(Clone, Copy)]
pub struct RenewedGroups<'a, A: Allocator + Copy> {
    /// The new sets.
    pub new: &'a BTreeMap<Name, BTreeSet<Name, A>, A>,
    /// The old sets.
    pub old: &'a BTreeMap<Name, BTreeSet<Name, A>, A>,
}

impl<'a, A: Allocator + Copy> RenewedGroups<'a, A> {
    /// The storage groups of a host, if it has a set. It takes no memory.
    pub fn of(&self, host: &Name) -> Option<&'a BTreeSet<Name, A>>
        ensures { (n : List ℕ) → in_tree name_cmp (option_copied result) n ≡ patched name_cmp name_cmp self.now.new.now self.now.old.now host.now n }
    {
        match self.new.get(host) {
            Some(groups) => Some(groups),
            None => self.old.get(host),
        }
    }
}
