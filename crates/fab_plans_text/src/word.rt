//! The words that follow the first word of a line.
ghost use Rattle.std.specs.Prelude.{◌≡◌, [], ◌∷◌, map, length, replicate, MatchResult};
ghost use Rattle.fab_plans_base.specs.Values.{SpellsValue, SpellsValues, texts_of, a_fabric, a_name, a_flag, a_member, a_port_member, a_wwn, a_unit, of_fabric, of_name, of_flag, of_member, of_port_member, of_wwn, of_unit};
ghost use Rattle.fab_plans_text.specs.Faults.{IsMisread, IsFirstFault, MemoryOr};

use crate::{LAST_UNIT, PlanFaultKind};
use fab_names::{Fabric, Member, Name, Wwn, read_number};
use fab_plans_base::zoning::DefaultFlag;
use std::alloc::Allocator;

/// Reads a fabric.
fn read_fabric(word: &str) -> Result<Fabric, PlanFaultKind>
    ensures { MatchResult result (λ f. SpellsValue word.now (of_fabric f)) (IsMisread a_fabric word.now) }
{
    match Fabric::read(word) {
        Ok(fabric) => Ok(fabric),
        Err(_) => Err(PlanFaultKind::Fabric),
    }
}

/// Reads a name.
fn read_name(word: &str) -> Result<Name, PlanFaultKind>
    ensures { MatchResult result (λ n. SpellsValue word.now (of_name n)) (IsMisread a_name word.now) }
{
    match Name::read(word) {
        Ok(name) => Ok(name),
        Err(_) => Err(PlanFaultKind::Name),
    }
}

/// Reads the flag of the default zone.
fn read_flag(word: &str) -> Result<DefaultFlag, PlanFaultKind>
    ensures { MatchResult result (λ f. SpellsValue word.now (of_flag f)) (IsMisread a_flag word.now) }
{
    match word {
        "permit" => Ok(DefaultFlag::Permit),
        "deny" => Ok(DefaultFlag::Deny),
        _ => Err(PlanFaultKind::Flag),
    }
}

/// Reads a member.
fn read_member(word: &str) -> Result<Member, PlanFaultKind>
    ensures { MatchResult result (λ m. SpellsValue word.now (of_member m)) (IsMisread a_member word.now) }
{
    match Member::read(word) {
        Ok(member) => Ok(member),
        Err(_) => Err(PlanFaultKind::Member),
    }
}

/// Reads a member that is no alias.
fn read_port_member(word: &str) -> Result<Member, PlanFaultKind>
    ensures { MatchResult result (λ m. SpellsValue word.now (of_port_member m)) (IsMisread a_port_member word.now) }
{
    match Member::read(word) {
        Ok(Member::Alias(_)) | Err(_) => Err(PlanFaultKind::Member),
        Ok(member) => Ok(member),
    }
}

/// Reads a world-wide name.
fn read_wwn(word: &str) -> Result<Wwn, PlanFaultKind>
    ensures { MatchResult result (λ w. SpellsValue word.now (of_wwn w)) (IsMisread a_wwn word.now) }
{
    match Wwn::read(word) {
        Ok(wwn) => Ok(wwn),
        Err(_) => Err(PlanFaultKind::Wwn),
    }
}

/// Reads a logical unit number.
fn read_unit(word: &str) -> Result<u16, PlanFaultKind>
    ensures { MatchResult result (λ u. SpellsValue word.now (of_unit u)) (IsMisread a_unit word.now) }
{
    let Some(number) = read_number(word.as_bytes()) else {
        return Err(PlanFaultKind::Number);
    };
    if number > u128::from(LAST_UNIT) {
        return Err(PlanFaultKind::Number);
    }
    Ok(number as u16)
}

/// Reads a fabric and a name.
pub(crate) fn fabric_name(words: &[&str]) -> Result<(Fabric, Name), PlanFaultKind>
    requires { length words.now ≡ 2 }
    ensures { MatchResult result
        (λ r. SpellsValues (texts_of words.now) (of_fabric r.0 ∷ of_name r.1 ∷ []))
        (IsFirstFault (a_fabric ∷ a_name ∷ []) (texts_of words.now)) }
{
    let fabric = read_fabric(words[0])?;
    let name = read_name(words[1])?;
    Ok((fabric, name))
}

/// Reads a fabric and a flag.
pub(crate) fn fabric_flag(words: &[&str]) -> Result<(Fabric, DefaultFlag), PlanFaultKind>
    requires { length words.now ≡ 2 }
    ensures { MatchResult result
        (λ r. SpellsValues (texts_of words.now) (of_fabric r.0 ∷ of_flag r.1 ∷ []))
        (IsFirstFault (a_fabric ∷ a_flag ∷ []) (texts_of words.now)) }
{
    Ok((read_fabric(words[0])?, read_flag(words[1])?))
}

/// Reads one fabric.
pub(crate) fn fabric(words: &[&str]) -> Result<Fabric, PlanFaultKind>
    requires { length words.now ≡ 1 }
    ensures { MatchResult result
        (λ f. SpellsValues (texts_of words.now) (of_fabric f ∷ []))
        (IsFirstFault (a_fabric ∷ []) (texts_of words.now)) }
{
    read_fabric(words[0])
}

/// Reads one name.
pub(crate) fn name(words: &[&str]) -> Result<Name, PlanFaultKind>
    requires { length words.now ≡ 1 }
    ensures { MatchResult result
        (λ n. SpellsValues (texts_of words.now) (of_name n ∷ []))
        (IsFirstFault (a_name ∷ []) (texts_of words.now)) }
{
    read_name(words[0])
}

/// Reads two names.
pub(crate) fn two_names(words: &[&str]) -> Result<(Name, Name), PlanFaultKind>
    requires { length words.now ≡ 2 }
    ensures { MatchResult result
        (λ r. SpellsValues (texts_of words.now) (of_name r.0 ∷ of_name r.1 ∷ []))
        (IsFirstFault (a_name ∷ a_name ∷ []) (texts_of words.now)) }
{
    let first = read_name(words[0])?;
    let second = read_name(words[1])?;
    Ok((first, second))
}

/// Reads three names.
pub(crate) fn three_names(words: &[&str]) -> Result<(Name, Name, Name), PlanFaultKind>
    requires { length words.now ≡ 3 }
    ensures { MatchResult result
        (λ r. SpellsValues (texts_of words.now) (of_name r.0 ∷ of_name r.1 ∷ of_name r.2 ∷ []))
        (IsFirstFault (a_name ∷ a_name ∷ a_name ∷ []) (texts_of words.now)) }
{
    let first = read_name(words[0])?;
    let second = read_name(words[1])?;
    let third = read_name(words[2])?;
    Ok((first, second, third))
}

/// Reads a name and a world-wide name.
pub(crate) fn name_wwn(words: &[&str]) -> Result<(Name, Wwn), PlanFaultKind>
    requires { length words.now ≡ 2 }
    ensures { MatchResult result
        (λ r. SpellsValues (texts_of words.now) (of_name r.0 ∷ of_wwn r.1 ∷ []))
        (IsFirstFault (a_name ∷ a_wwn ∷ []) (texts_of words.now)) }
{
    let name = read_name(words[0])?;
    let wwn = read_wwn(words[1])?;
    Ok((name, wwn))
}

/// Reads a name and a logical unit number.
pub(crate) fn name_unit(words: &[&str]) -> Result<(Name, u16), PlanFaultKind>
    requires { length words.now ≡ 2 }
    ensures { MatchResult result
        (λ r. SpellsValues (texts_of words.now) (of_name r.0 ∷ of_unit r.1 ∷ []))
        (IsFirstFault (a_name ∷ a_unit ∷ []) (texts_of words.now)) }
{
    let name = read_name(words[0])?;
    let unit = read_unit(words[1])?;
    Ok((name, unit))
}

/// Reads a name, a logical unit number and a name.
pub(crate) fn name_unit_name(words: &[&str]) -> Result<(Name, u16, Name), PlanFaultKind>
    requires { length words.now ≡ 3 }
    ensures { MatchResult result
        (λ r. SpellsValues (texts_of words.now) (of_name r.0 ∷ of_unit r.1 ∷ of_name r.2 ∷ []))
        (IsFirstFault (a_name ∷ a_unit ∷ a_name ∷ []) (texts_of words.now)) }
{
    let name = read_name(words[0])?;
    let unit = read_unit(words[1])?;
    let last = read_name(words[2])?;
    Ok((name, unit, last))
}

/// Reads names.
pub(crate) fn names<A: Allocator>(alloc: A, words: &[&str]) -> Result<Vec<Name, A>, PlanFaultKind>
    ensures { MatchResult result
        (λ v. SpellsValues (texts_of words.now) (map of_name v.items))
        (MemoryOr (IsFirstFault (replicate (length words.now) a_name) (texts_of words.now))) }
{
    let mut names = Vec::new(alloc);
    for word in words {
        names.push(read_name(word)?)?;
    }
    Ok(names)
}

/// Reads members.
pub(crate) fn members<A: Allocator>(
    alloc: A,
    words: &[&str],
) -> Result<Vec<Member, A>, PlanFaultKind>
    ensures { MatchResult result
        (λ v. SpellsValues (texts_of words.now) (map of_member v.items))
        (MemoryOr (IsFirstFault (replicate (length words.now) a_member) (texts_of words.now))) }
{
    let mut members = Vec::new(alloc);
    for word in words {
        members.push(read_member(word)?)?;
    }
    Ok(members)
}

/// Reads members that are no aliases.
pub(crate) fn port_members<A: Allocator>(
    alloc: A,
    words: &[&str],
) -> Result<Vec<Member, A>, PlanFaultKind>
    ensures { MatchResult result
        (λ v. SpellsValues (texts_of words.now) (map of_port_member v.items))
        (MemoryOr (IsFirstFault (replicate (length words.now) a_port_member) (texts_of words.now))) }
{
    let mut members = Vec::new(alloc);
    for word in words {
        members.push(read_port_member(word)?)?;
    }
    Ok(members)
}
