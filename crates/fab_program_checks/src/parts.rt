//! The parts of lists in the words of the command line.
ghost use Rattle.std.specs.Prelude.{◌≡◌, OnOk, IfOk, map, option_map};
ghost use Rattle.fab_names.specs.Names.{SpellsName};
ghost use Rattle.fab_program_words.specs.Lists.{SpellsApproval, parts_of};
ghost use Rattle.fab_program_checks.specs.Parts.{AddsRead, AreRead, AreReadIn};

use fab_names::Name;
use fab_policy::Approval;
use fab_program_words::approval_of;
use std::alloc::{AllocError, Global};

/// What stands between commas.
fn parts_of(alloc: Global, text: &str) -> Result<Vec<&str>, AllocError>
    ensures { IfOk result (λ parts. map (λ part. part.now) parts.items ≡ parts_of text.now) }
{
    text.split(',').collect(alloc)
}

/// Adds the name that a part spells, if it spells one.
fn add_name(names: &mut Vec<Name>, part: &str) -> Result<(), AllocError>
    ensures { OnOk result (AddsRead SpellsName part.now names.old.items names.new.items) }
{
    if let Ok(name) = Name::read(part) {
        names.push(name)?;
    }
    Ok(())
}

/// The names that parts spell.
fn read_names(alloc: Global, parts: &[&str]) -> Result<Vec<Name>, AllocError>
    ensures { IfOk result (λ names. AreRead SpellsName (map (λ part. part.now) parts.now) names.items) }
{
    let mut names = Vec::new(alloc);
    for part in parts {
        add_name(&mut names, part)?;
    }
    Ok(names)
}

/// The names that a list spells, in their order; none where there is no list.
///
/// # Errors
/// `AllocError` where there is no memory.
pub fn names_in(alloc: Global, text: Option<&str>) -> Result<Vec<Name>, AllocError>
    ensures { IfOk result (λ names. AreReadIn SpellsName (option_map (λ t. t.now) text.entry) names.items) }
{
    match text {
        Some(text) => read_names(alloc, &parts_of(alloc, text)?),
        None => Ok(Vec::new(alloc)),
    }
}

/// Adds the approval that a part spells, if it spells one.
fn add_approval(approvals: &mut Vec<Approval>, part: &str) -> Result<(), AllocError>
    ensures { OnOk result (AddsRead SpellsApproval part.now approvals.old.items approvals.new.items) }
{
    if let Some(approval) = approval_of(part) {
        approvals.push(approval)?;
    }
    Ok(())
}

/// The approvals that parts spell.
fn read_approvals(alloc: Global, parts: &[&str]) -> Result<Vec<Approval>, AllocError>
    ensures { IfOk result (λ approvals. AreRead SpellsApproval (map (λ part. part.now) parts.now) approvals.items) }
{
    let mut approvals = Vec::new(alloc);
    for part in parts {
        add_approval(&mut approvals, part)?;
    }
    Ok(approvals)
}

/// The approvals that a list spells, in their order; none where there is no list.
///
/// # Errors
/// `AllocError` where there is no memory.
pub fn approvals_in(alloc: Global, text: Option<&str>) -> Result<Vec<Approval>, AllocError>
    ensures { IfOk result (λ approvals. AreReadIn SpellsApproval (option_map (λ t. t.now) text.entry) approvals.items) }
{
    match text {
        Some(text) => read_approvals(alloc, &parts_of(alloc, text)?),
        None => Ok(Vec::new(alloc)),
    }
}
