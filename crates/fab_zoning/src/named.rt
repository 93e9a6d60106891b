//! Sets under names: what is there and what is not, what uses a key, whether there is room, and
//! the set of one name put or taken out.
ghost use Rattle.std.specs.Prelude.{◌≡◌, true, MatchOption, All, IfOk, OnOk, OnErr};
ghost use Rattle.std.specs.FinMap as map;
ghost use Rattle.std.specs.FinSet as set;
ghost use Rattle.std.specs.BTreeMap.{IsUnchanged};
ghost use Rattle.std.specs.Bool.{OnTrue, OnFalse};
ghost use Rattle.fab_names.specs.Orders.{name_cmp, member_cmp};
ghost use Rattle.fab_zoning_rows.specs.fab_lemmas.MapsOfSets.{seen_set, seen_sets, HasNoUser, IsFirstUser};
ghost use Rattle.fab_zoning_rows.specs.fab_lemmas.Room.{IsFull, HasRoom};
ghost use Rattle.fab_zoning.specs.Steps.{NamesKnown};
ghost use Rattle.fab_zoning_rows.specs.fab_lemmas.Firsts.{IsFirstWithout};
ghost use Rattle.fab_names.specs.declared.member.Member.TheVariants.{Alias};

use fab_names::{Member, Name};
use fab_zoning_rows::lemmas::set_of;
use std::alloc::{AllocError, Allocator};
use std::collections::{BTreeMap, BTreeSet};

/// Whether there is a set of this name.
#[tactic(auto, using(crate::proofs::Changes::known))]
pub fn knows<K: Ord, A: Allocator>(sets: &BTreeMap<Name, BTreeSet<K, A>, A>, name: &Name) -> bool
    ensures { result ≡ map.contains_key (seen_sets name_cmp K.cmp sets.now.entries) name.now }
{
    sets.contains_key(name)
}

/// The set of the listed members.
///
/// # Errors
/// `AllocError` where there is no memory.
#[tactic(auto, using(crate::proofs::Changes::listed_members))]
pub fn members_of<A: Allocator + Copy>(
    alloc: A,
    members: &[Member],
) -> Result<BTreeSet<Member, A>, AllocError>
    ensures { IfOk result (λ made. seen_set member_cmp made ≡ set.from_list members.now) }
{
    let members = set_of(alloc, members)?;
    Ok(members)
}

/// The set of the listed names.
///
/// # Errors
/// `AllocError` where there is no memory.
#[tactic(auto, using(crate::proofs::Changes::listed_names))]
pub fn names_of<A: Allocator + Copy>(
    alloc: A,
    names: &[Name],
) -> Result<BTreeSet<Name, A>, AllocError>
    ensures { IfOk result (λ made. seen_set name_cmp made ≡ set.from_list names.now) }
{
    let names = set_of(alloc, names)?;
    Ok(names)
}

/// Puts a set under the name, in place of the one that was there.
///
/// # Errors
/// `AllocError` where there is no memory. The sets are then as they were.
#[tactic(auto, using(crate::proofs::Changes::put_in))]
pub fn put<K: Ord + Drop, A: Allocator + Copy>(
    sets: &mut BTreeMap<Name, BTreeSet<K, A>, A>,
    name: Name,
    own: BTreeSet<K, A>,
) -> Result<(), AllocError>
    ensures ok { OnOk result (seen_sets name_cmp K.cmp sets.new.entries ≡ map.insert (seen_sets name_cmp K.cmp sets.old.entries) name (seen_set K.cmp own)) }
    ensures err { OnErr result (IsUnchanged sets.old sets.new) }
{
    sets.insert(name, own)?;
    Ok(())
}

/// Takes out the set of this name, if there is one.
#[tactic(auto, using(crate::proofs::Changes::taken_out))]
pub fn take_out<K: Ord + Drop, A: Allocator + Copy>(
    sets: &mut BTreeMap<Name, BTreeSet<K, A>, A>,
    name: &Name,
)
    ensures { seen_sets name_cmp K.cmp sets.new.entries ≡ map.remove (seen_sets name_cmp K.cmp sets.old.entries) name.now }
{
    sets.remove(name);
}

/// The first name whose set has the key.
pub fn first_user<'a, K: Ord, A: Allocator>(
    sets: &'a BTreeMap<Name, BTreeSet<K, A>, A>,
    key: &K,
) -> Option<&'a Name>
    ensures { MatchOption result (HasNoUser (seen_sets name_cmp K.cmp sets.now.entries) key.now) (λ name. IsFirstUser (seen_sets name_cmp K.cmp sets.now.entries) key.now name.now) }
{
    for (name, set) in sets {
        if set.contains(key) {
            return Some(name);
        }
    }
    None
}

/// Whether the name is new, and there are as many names as there may be.
pub fn is_full<K: Ord, A: Allocator>(
    sets: &BTreeMap<Name, BTreeSet<K, A>, A>,
    name: &Name,
    most: usize,
) -> bool
    ensures full { OnTrue result (IsFull (seen_sets name_cmp K.cmp sets.now.entries) name.now most) }
    ensures room { OnFalse result (HasRoom (seen_sets name_cmp K.cmp sets.now.entries) name.now most) }
{
    fab_zoning_rows::lemmas::is_full(sets, name, most)
}

/// The first alias that the members name and that is not there.
pub fn first_unknown_alias<A: Allocator>(
    aliases: &BTreeMap<Name, BTreeSet<Member, A>, A>,
    members: &[Member],
) -> Option<Name>
    ensures { MatchOption result
        (All (NamesKnown (map.contains_key (seen_sets name_cmp member_cmp aliases.now.entries))) members.now)
        (λ name. IsFirstWithout (NamesKnown (map.contains_key (seen_sets name_cmp member_cmp aliases.now.entries))) members.now (Alias name)) }
{
    for member in members {
        if let Member::Alias(alias) = member {
            if !aliases.contains_key(alias) {
                return Some(*alias);
            }
        }
    }
    None
}

/// The first of the names that is not there.
pub fn first_unknown<K: Ord, A: Allocator>(
    sets: &BTreeMap<Name, BTreeSet<K, A>, A>,
    names: &[Name],
) -> Option<Name>
    ensures { MatchOption result
        (All (λ name. map.contains_key (seen_sets name_cmp K.cmp sets.now.entries) name ≡ true) names.now)
        (IsFirstWithout (λ name. map.contains_key (seen_sets name_cmp K.cmp sets.now.entries) name ≡ true) names.now) }
{
    for name in names {
        if !sets.contains_key(name) {
            return Some(*name);
        }
    }
    None
}
