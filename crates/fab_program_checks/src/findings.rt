//! What is found in the bytes of a file.
ghost use Rattle.fab_program_checks.specs.Findings.{IsFindingOf, IsListFinding, IsPlanFinding, IsPolicyFinding, IsPortsFinding, IsTextFinding, IsWarnedOf};

use fab_plans_text::{PlanFault, PlanFaultKind, read_plan};
use fab_policy_base::{Policy, PolicyFault};
use fab_policy_looks::{Warning, warnings_of};
use fab_policy_text::ReadPolicy;
use fab_program_outside::{Fault, is_too_large};
use fab_wire_requests::port_list::{FileFault, read_ports};
use std::alloc::Global;
use std::str;

/// What is found in a file.
#[derive(Drop)]
pub enum Finding {
    /// Nothing is wrong with it.
    Sound,
    /// It spells a policy, in which this is worth a look.
    Warned(Vec<Warning>),
    /// It has more than 1048576 bytes.
    TooLarge,
    /// Its bytes are no text.
    NoText,
    /// It spells no policy, and this is a fault of it.
    Policy(PolicyFault),
    /// It spells no plan, and this is its first fault.
    Plan(PlanFault),
    /// It is no port list, and this is the number of its first faulty record, of which the header is 1.
    Record(usize),
}

/// What is found in the bytes of a policy.
///
/// # Errors
/// `Memory`.
pub fn find_policy(alloc: Global, bytes: &[u8]) -> Result<Finding, Fault>
    ensures { IsTextFinding IsPolicyFinding bytes.now result }
{
    if is_too_large(bytes) {
        return Ok(Finding::TooLarge);
    }
    match str::from_utf8(bytes) {
        Ok(text) => find_in_policy(alloc, text),
        Err(_no_text) => Ok(Finding::NoText),
    }
}

/// What is found in the text of a policy.
fn find_in_policy(alloc: Global, text: &str) -> Result<Finding, Fault>
    ensures { IsPolicyFinding text.now result }
{
    match Policy::read(alloc, text) {
        Ok(policy) => warned(alloc, &policy),
        Err(fault) => finding_of(fault),
    }
}

/// The finding of a policy that is none but for what is worth a look.
fn warned(alloc: Global, policy: &Policy) -> Result<Finding, Fault>
    ensures { IsWarnedOf policy.now result }
{
    match warnings_of(alloc, policy) {
        Ok(warnings) => Ok(Finding::Warned(warnings)),
        Err(_) => Err(Fault::Memory),
    }
}

/// The finding of a policy that is refused, unless there was no memory.
fn finding_of(fault: PolicyFault) -> Result<Finding, Fault>
    ensures { IsFindingOf fault result }
{
    match fault {
        PolicyFault::Memory => Err(Fault::Memory),
        other => Ok(Finding::Policy(other)),
    }
}

/// What is found in the bytes of a plan.
///
/// # Errors
/// `Memory`.
pub fn find_plan(alloc: Global, bytes: &[u8]) -> Result<Finding, Fault>
    ensures { IsTextFinding IsPlanFinding bytes.now result }
{
    if is_too_large(bytes) {
        return Ok(Finding::TooLarge);
    }
    match str::from_utf8(bytes) {
        Ok(text) => find_in_plan(alloc, text),
        Err(_no_text) => Ok(Finding::NoText),
    }
}

/// What is found in the text of a plan.
fn find_in_plan(alloc: Global, text: &str) -> Result<Finding, Fault>
    ensures { IsPlanFinding text.now result }
{
    match read_plan(alloc, text) {
        Ok(_steps) => Ok(Finding::Sound),
        Err(fault) => match fault.kind {
            PlanFaultKind::Memory => Err(Fault::Memory),
            _ => Ok(Finding::Plan(fault)),
        },
    }
}

/// What is found in the bytes of a port list.
///
/// # Errors
/// `Memory`.
pub fn find_ports(alloc: Global, bytes: &[u8]) -> Result<Finding, Fault>
    ensures { IsPortsFinding bytes.now result }
{
    if is_too_large(bytes) {
        Ok(Finding::TooLarge)
    } else {
        find_in_ports(alloc, bytes)
    }
}

/// What is found in the bytes of a port list that is not too large.
fn find_in_ports(alloc: Global, bytes: &[u8]) -> Result<Finding, Fault>
    ensures { IsListFinding bytes.now result }
{
    match read_ports(alloc, alloc, bytes) {
        Ok(_rows) => Ok(Finding::Sound),
        Err(FileFault::Line(line)) => Ok(Finding::Record(line)),
        Err(FileFault::Memory) => Err(Fault::Memory),
    }
}
