//! The words of what is wrong with a plan.
ghost use Rattle.std.specs.Prelude.{◌≡◌};
ghost use Rattle.fab_program_checks.specs.Lines as lines;

use fab_plans_text::PlanFaultKind;

/// What is wrong with a line of a plan, or with the whole text.
#[tactic(auto, unfolding(crate::specs::Lines::plan_words))]
pub fn plan_words(kind: PlanFaultKind) -> &'static str
    ensures { result.now ≡ lines.plan_words kind }
{
    match kind {
        PlanFaultKind::Text => "the text is longer than 65536 bytes",
        PlanFaultKind::Empty => "there is no line",
        PlanFaultKind::Steps => "there are more than 200 lines",
        PlanFaultKind::Word => "the first word begins no step",
        PlanFaultKind::Count => "too many words, or too few, stand behind the first",
        PlanFaultKind::Fabric => "a word is no fabric",
        PlanFaultKind::Name => "a word is no name",
        PlanFaultKind::Wwn => "a word is no world-wide name",
        PlanFaultKind::Number => "a word is no number of its range",
        PlanFaultKind::Member => "a word is no member",
        PlanFaultKind::Flag => "a word is neither permit nor deny",
        PlanFaultKind::Memory => "out of memory",
    }
}
