//! The words of zoning lines that follow the first.
ghost use Rattle.std.specs.Prelude.{length};
ghost use Rattle.fab_plans_base.specs.Values.{texts_of};
ghost use Rattle.fab_plans_base.specs.Forms.{form_of, Takes};
ghost use Rattle.fab_plans_text.specs.Faults.{ReadsWords};
ghost use Rattle.fab_plans_base.specs.declared.keyword.Keyword.TheVariants.{Zoning};

use crate::word::{fabric, fabric_flag, fabric_name, members, names, port_members};
use crate::{Action, PlanFaultKind, Step, ZoningAction, ZoningKeyword};
use std::alloc::Allocator;

/// Reads a fabric, a name and members that are no aliases.
fn alias_put<A: Allocator + Copy>(alloc: A, words: &[&str]) -> Result<Step<A>, PlanFaultKind>
    requires { Takes (form_of (Zoning ZoningKeyword.AliasPut)) (length words.now) }
    ensures { ReadsWords (Zoning ZoningKeyword.AliasPut) (texts_of words.now) result }
{
    let (fabric, name) = fabric_name(&words[..2])?;
    let members = port_members(alloc, &words[2..])?;
    Ok(Step::new(Action::Zoning(ZoningAction::AliasPut {
        fabric,
        name,
        members,
    })))
}

/// Reads a fabric, a name and members.
fn zone_put<A: Allocator + Copy>(alloc: A, words: &[&str]) -> Result<Step<A>, PlanFaultKind>
    requires { Takes (form_of (Zoning ZoningKeyword.ZonePut)) (length words.now) }
    ensures { ReadsWords (Zoning ZoningKeyword.ZonePut) (texts_of words.now) result }
{
    let (fabric, name) = fabric_name(&words[..2])?;
    let members = members(alloc, &words[2..])?;
    Ok(Step::new(Action::Zoning(ZoningAction::ZonePut {
        fabric,
        name,
        members,
    })))
}

/// Reads a fabric, a name and names of zones.
fn set_put<A: Allocator + Copy>(alloc: A, words: &[&str]) -> Result<Step<A>, PlanFaultKind>
    requires { Takes (form_of (Zoning ZoningKeyword.SetPut)) (length words.now) }
    ensures { ReadsWords (Zoning ZoningKeyword.SetPut) (texts_of words.now) result }
{
    let (fabric, name) = fabric_name(&words[..2])?;
    let zones = names(alloc, &words[2..])?;
    Ok(Step::new(Action::Zoning(ZoningAction::SetPut {
        fabric,
        name,
        zones,
    })))
}

/// Reads the words that follow the first of a zoning line.
///
/// # Errors
/// The first fault of the words, or `Memory`.
pub(crate) fn zoning_words<A: Allocator + Copy>(
    alloc: A,
    keyword: ZoningKeyword,
    words: &[&str],
) -> Result<Step<A>, PlanFaultKind>
    requires { Takes (form_of (Zoning keyword)) (length words.now) }
    ensures { ReadsWords (Zoning keyword) (texts_of words.now) result }
{
    match keyword {
        ZoningKeyword::AliasPut => alias_put(alloc, words),
        ZoningKeyword::ZonePut => zone_put(alloc, words),
        ZoningKeyword::SetPut => set_put(alloc, words),
        ZoningKeyword::AliasDrop => {
            let (fabric, name) = fabric_name(words)?;
            Ok(Step::new(Action::Zoning(ZoningAction::AliasDrop { fabric, name })))
        }
        ZoningKeyword::ZoneDrop => {
            let (fabric, name) = fabric_name(words)?;
            Ok(Step::new(Action::Zoning(ZoningAction::ZoneDrop { fabric, name })))
        }
        ZoningKeyword::SetDrop => {
            let (fabric, name) = fabric_name(words)?;
            Ok(Step::new(Action::Zoning(ZoningAction::SetDrop { fabric, name })))
        }
        ZoningKeyword::Activate => {
            let (fabric, set) = fabric_name(words)?;
            Ok(Step::new(Action::Zoning(ZoningAction::Activate { fabric, set })))
        }
        ZoningKeyword::Deactivate => {
            let fabric = fabric(words)?;
            Ok(Step::new(Action::Zoning(ZoningAction::Deactivate { fabric })))
        }
        ZoningKeyword::Default => {
            let (fabric, flag) = fabric_flag(words)?;
            Ok(Step::new(Action::Zoning(ZoningAction::Default { fabric, flag })))
        }
    }
}
