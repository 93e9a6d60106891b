//! Plan texts.
ghost use Rattle.std.specs.Prelude.{◌≡◌, ◌≢◌, ◌<◌, ◌≤◌, List, [], ◌∷◌, length, MatchResult, IfSome, IfNone, IfOk, IfErr, ◌⊎◌};
ghost use Rattle.std.specs.Str.{IsUtf8};
ghost use Rattle.fab_plans_base.specs.Limits.{most_bytes, most_steps};
ghost use Rattle.fab_plans_base.specs.Texts.{lines_of, words_of, IsCut};
ghost use Rattle.fab_plans_base.specs.Steps.{PlanStep};
ghost use Rattle.fab_plans_base.specs.Plans.{SpellsStep, AreRead, Spells};
ghost use Rattle.fab_plans_text.specs.Faults.{IsFaultAt, HasTooManyLines, HasFaultyLine, IsPlanFault};
ghost use Rattle.fab_plans_text.specs.declared.fault.PlanFaultKind.TheVariants as kind;

use crate::line::read_step;
use crate::measure::is_short;
use crate::{MOST_BYTES, MOST_STEPS, PlanFault, PlanFaultKind, Step};
use std::alloc::Allocator;

/// The first line of a text and what follows it, where the line is ended by a line feed.
fn cut_line(text: &str) -> Option<(&str, &str)>
    ensures some { IfSome result (λ parts. IsCut text.now parts.0.now parts.1.now) }
    ensures none { IfNone result (text.now ≢ [] → lines_of text.now ≡ text.now ∷ []) }
{
    text.split_once('\n')
}

/// The first line of a text, and what follows it.
fn first_line(text: &str) -> (&str, &str)
    requires { text.now ≢ [] }
    ensures cut { IsCut text.now result.0.now result.1.now }
    ensures text { IsUtf8 result.1.now }
{
    match cut_line(text) {
        Some((line, rest)) => (line, rest),
        None => (text, ""),
    }
}

/// Reads the line of this number.
///
/// # Errors
/// `Steps` where a plan has no line of this number, else the first fault of the line, or `Memory`.
fn read_line<A: Allocator + Copy>(alloc: A, line: &str, number: usize) -> Result<Step<A>, PlanFault>
    ensures ok { IfOk result (λ step. SpellsStep (words_of line.now) step × (number ≤ most_steps)) }
    ensures fault { IfErr result (λ fault. (fault.kind ≡ kind.Memory) ⊎ IsFaultAt number (words_of line.now) fault) }
{
    if number > MOST_STEPS {
        return Err(PlanFault {
            line: number,
            kind: PlanFaultKind::Steps,
        });
    }
    match read_step(alloc, line) {
        Ok(step) => Ok(step),
        Err(kind) => Err(PlanFault { line: number, kind }),
    }
}

/// Reads the lines of a text.
fn read_lines<A: Allocator + Copy>(alloc: A, text: &str) -> Result<Vec<Step<A>, A>, PlanFault>
    requires some { text.now ≢ [] }
    requires short { length text.now ≤ most_bytes }
    ensures ok { IfOk result (λ steps. AreRead text.now steps.items) }
    ensures fault { IfErr result (λ fault. (fault.kind ≡ kind.Memory) ⊎ (HasTooManyLines text.now fault ⊎ HasFaultyLine text.now fault)) }
    ensures only { (steps : List PlanStep) → Spells text.now steps
        → MatchResult result (λ read. read.items ≡ steps) (λ fault. fault.kind ≡ kind.Memory) }
{
    let mut steps = Vec::new(alloc);
    let mut rest = text;
    while !rest.is_empty() {
        let (line, after) = first_line(rest);
        match read_line(alloc, line, steps.len() + 1) {
            Ok(step) => steps.push(step)?,
            Err(fault) => return Err(fault),
        }
        rest = after;
    }
    Ok(steps)
}

/// Reads a plan text: 1 to 200 lines, each ended by a line feed, which the last may lack.
///
/// # Errors
/// The fault that stands first: the text's own length, then the first line with a fault, in it the
/// number of lines, its first word, the number of its words and the words from left to right,
/// last the length of the printed form. `Memory` where there is no memory.
pub fn read_plan<A: Allocator + Copy>(alloc: A, text: &str) -> Result<Vec<Step<A>, A>, PlanFault>
    ensures ok { IfOk result (λ steps. Spells text.now steps.items) }
    ensures fault { IfErr result (λ fault. (fault.kind ≡ kind.Memory) ⊎ IsPlanFault text.now fault) }
    // What spells steps is read as these steps, unless memory runs out.
    ensures only { (steps : List PlanStep) → Spells text.now steps
        → MatchResult result (λ read. read.items ≡ steps) (λ fault. fault.kind ≡ kind.Memory) }
{
    if text.len() > MOST_BYTES {
        return Err(PlanFault {
            line: 0,
            kind: PlanFaultKind::Text,
        });
    }
    if text.is_empty() {
        return Err(PlanFault {
            line: 1,
            kind: PlanFaultKind::Empty,
        });
    }
    let steps = match read_lines(alloc, text) {
        Ok(steps) => steps,
        Err(fault) => return Err(fault),
    };
    if !is_short(&steps) {
        return Err(PlanFault {
            line: 0,
            kind: PlanFaultKind::Text,
        });
    }
    Ok(steps)
}
