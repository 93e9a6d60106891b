//! The lines of what a policy finds of an act.
ghost use Rattle.std.specs.Prelude.{◌≡◌, ◌++◌};
ghost use Rattle.fab_files_policy.specs.Findings as lines;
ghost use Rattle.fab_files_policy.specs.Findings.{denied_words, explained_text, finding_lines, findings_lines, holds_word, met_words, named_words, needs_lines, opens_words, quorum_lines, quorum_words, role_line, rule_words, scope_line, shut_words, tenants_line, verdict_line, window_line, window_words};
ghost use Rattle.fab_wire_streams.specs.Taking.{Takes};

use fab_names::Name;
use fab_policy::Verdict;
use fab_policy_looks::{QuorumNeed, RoleNeed, RuleFinding, WindowNeed};
use fab_wire_streams::sink::{Sink, put_all};
use fab_wire_streams::streams::WriteFailed;
use itoa::Buffer;

/// Puts whether a need is met, at the end of its line.
#[tactic(auto, unfolding(crate::specs::Findings::met_words))]
fn put_met<S: Sink>(sink: &mut S, is_met: bool) -> Result<(), WriteFailed>
    ensures { Takes S.took S.cut sink.old (met_words is_met) sink.new result }
{
    if is_met {
        sink.take(b": met\n")
    } else {
        sink.take(b": not met\n")
    }
}

/// Puts a need by its word and a name.
fn put_named<S: Sink>(sink: &mut S, word: &str, name: &Name) -> Result<(), WriteFailed>
    ensures { Takes S.took S.cut sink.old (named_words word.now name.now) sink.new result }
{
    let texts = [word.as_bytes(), name.as_bytes(), b"`".as_slice()];
    put_all(sink, &texts)
}

/// Puts the line of a role, if one is asked for.
fn put_role<S: Sink>(sink: &mut S, need: &Option<RoleNeed>) -> Result<(), WriteFailed>
    ensures { Takes S.took S.cut sink.old (role_line need.now) sink.new result }
{
    let Some(need) = need else {
        return Ok(());
    };
    let Ok(()) = put_named(sink, "  role `", &need.role) else {
        return Err(WriteFailed);
    };
    put_met(sink, need.is_met)
}

/// Puts the line of own tenants, if they are asked for.
fn put_scope<S: Sink>(sink: &mut S, is_met: Option<bool>) -> Result<(), WriteFailed>
    ensures { Takes S.took S.cut sink.old (scope_line is_met) sink.new result }
{
    match is_met {
        Some(true) => sink.take(b"  scope `own`: met\n"),
        Some(false) => sink.take(b"  scope `own`: not met\n"),
        None => Ok(()),
    }
}

/// Puts when a window opens.
fn put_opens<S: Sink>(sink: &mut S, moment: u64) -> Result<(), WriteFailed>
    ensures { Takes S.took S.cut sink.old (opens_words moment) sink.new result }
{
    let mut digits = Buffer::new();
    let texts = [
        b": not met, opens at ".as_slice(),
        digits.format(moment).as_bytes(),
        b"\n".as_slice(),
    ];
    put_all(sink, &texts)
}

/// Puts when a window opens that is not open, if it ever does.
fn put_shut<S: Sink>(sink: &mut S, opens: Option<u64>) -> Result<(), WriteFailed>
    ensures { Takes S.took S.cut sink.old (shut_words opens) sink.new result }
{
    match opens {
        Some(moment) => put_opens(sink, moment),
        None => sink.take(b": not met, never opens\n"),
    }
}

/// Puts whether a window is open, or when it opens.
fn put_open<S: Sink>(sink: &mut S, is_met: bool, opens: Option<u64>) -> Result<(), WriteFailed>
    ensures { Takes S.took S.cut sink.old (window_words is_met opens) sink.new result }
{
    if is_met {
        sink.take(b": met\n")
    } else {
        put_shut(sink, opens)
    }
}

/// Puts the line of a window, if one is asked for.
fn put_window<S: Sink>(sink: &mut S, need: &Option<WindowNeed>) -> Result<(), WriteFailed>
    ensures { Takes S.took S.cut sink.old (window_line need.now) sink.new result }
{
    let Some(need) = need else {
        return Ok(());
    };
    let Ok(()) = put_named(sink, "  window `", &need.window) else {
        return Err(WriteFailed);
    };
    put_open(sink, need.is_met, need.opens)
}

/// Puts how many callers count for a quorum, of how many.
fn put_count<S: Sink>(sink: &mut S, counted: usize, asked: usize) -> Result<(), WriteFailed>
    ensures { Takes S.took S.cut sink.old (quorum_words counted asked) sink.new result }
{
    let (mut first, mut second) = (Buffer::new(), Buffer::new());
    let texts = [
        b"  approvals ".as_slice(),
        first.format(counted).as_bytes(),
        b" of ".as_slice(),
        second.format(asked).as_bytes(),
    ];
    put_all(sink, &texts)
}

/// Puts whether each tenant is signed for, where that is asked for.
fn put_tenants<S: Sink>(sink: &mut S, is_asked: bool, is_met: bool) -> Result<(), WriteFailed>
    ensures { Takes S.took S.cut sink.old (tenants_line is_asked is_met) sink.new result }
{
    if !is_asked {
        return Ok(());
    }
    if is_met {
        sink.take(b"  each_tenant: met\n")
    } else {
        sink.take(b"  each_tenant: not met\n")
    }
}

/// Puts the lines of approvals, if they are asked for.
fn put_quorum<S: Sink>(sink: &mut S, need: &Option<QuorumNeed>) -> Result<(), WriteFailed>
    ensures { Takes S.took S.cut sink.old (quorum_lines need.now) sink.new result }
{
    let Some(need) = need else {
        return Ok(());
    };
    let Ok(()) = put_count(sink, need.counted, need.asked) else {
        return Err(WriteFailed);
    };
    let Ok(()) = put_met(sink, need.is_met) else {
        return Err(WriteFailed);
    };
    put_tenants(sink, need.each_tenant, need.is_each_signed)
}

/// Whether the role is there, if one is asked for.
fn is_role_met(need: &Option<RoleNeed>) -> bool
    ensures { result ≡ lines.is_role_met need.now }
{
    match need {
        Some(need) => need.is_met,
        None => true,
    }
}

/// Whether the tenants are own, if that is asked for.
fn is_scope_met(need: Option<bool>) -> bool
    ensures { result ≡ lines.is_scope_met need }
{
    match need {
        Some(is_met) => is_met,
        None => true,
    }
}

/// Whether the window is open, if one is asked for.
fn is_window_met(need: &Option<WindowNeed>) -> bool
    ensures { result ≡ lines.is_window_met need.now }
{
    match need {
        Some(need) => need.is_met,
        None => true,
    }
}

/// Whether the approvals are there, if they are asked for.
fn is_quorum_met(need: &Option<QuorumNeed>) -> bool
    ensures { result ≡ lines.is_quorum_met need.now }
{
    match need {
        Some(need) => need.is_met && (!need.each_tenant || need.is_each_signed),
        None => true,
    }
}

/// Whether all needs of the rule are met.
fn holds(found: &RuleFinding) -> bool
    ensures { result ≡ lines.holds found.now }
{
    is_role_met(&found.role)
        && (is_scope_met(found.scope)
            && (is_window_met(&found.window) && is_quorum_met(&found.approvals)))
}

/// The end of a rule's line.
fn holds_word(holds: bool) -> &'static str
    ensures { result.now ≡ holds_word holds }
{
    if holds { "` holds\n" } else { "` fails\n" }
}

/// Puts a rule by its number and its name.
fn put_rule<S: Sink>(sink: &mut S, number: usize, name: &Name) -> Result<(), WriteFailed>
    ensures { Takes S.took S.cut sink.old (rule_words number name.now) sink.new result }
{
    let mut digits = Buffer::new();
    let texts = [
        b"rule ".as_slice(),
        digits.format(number).as_bytes(),
        b" `".as_slice(),
        name.as_bytes(),
    ];
    put_all(sink, &texts)
}

/// Puts the lines of a role and of own tenants.
fn put_caller_needs<S: Sink>(sink: &mut S, found: &RuleFinding) -> Result<(), WriteFailed>
    ensures { Takes S.took S.cut sink.old (role_line found.now.role ++ scope_line found.now.scope) sink.new result }
{
    let Ok(()) = put_role(sink, &found.role) else {
        return Err(WriteFailed);
    };
    put_scope(sink, found.scope)
}

/// Puts the lines of a window and of approvals.
fn put_other_needs<S: Sink>(sink: &mut S, found: &RuleFinding) -> Result<(), WriteFailed>
    ensures { Takes S.took S.cut sink.old (window_line found.now.window ++ quorum_lines found.now.approvals) sink.new result }
{
    let Ok(()) = put_window(sink, &found.window) else {
        return Err(WriteFailed);
    };
    put_quorum(sink, &found.approvals)
}

/// Puts a line for each need of the rule.
fn put_needs<S: Sink>(sink: &mut S, found: &RuleFinding) -> Result<(), WriteFailed>
    ensures { Takes S.took S.cut sink.old (needs_lines found.now) sink.new result }
{
    let Ok(()) = put_caller_needs(sink, found) else {
        return Err(WriteFailed);
    };
    put_other_needs(sink, found)
}

/// Puts the lines of a rule and of its needs.
fn put_finding<S: Sink>(sink: &mut S, found: &RuleFinding) -> Result<(), WriteFailed>
    ensures { Takes S.took S.cut sink.old (finding_lines found.now) sink.new result }
{
    let Ok(()) = put_rule(sink, found.number, &found.name) else {
        return Err(WriteFailed);
    };
    let Ok(()) = sink.take(holds_word(holds(found)).as_bytes()) else {
        return Err(WriteFailed);
    };
    put_needs(sink, found)
}

/// Puts the lines of rules.
fn put_findings<S: Sink>(sink: &mut S, findings: &[RuleFinding]) -> Result<(), WriteFailed>
    ensures { Takes S.took S.cut sink.old (findings_lines findings.now) sink.new result }
{
    for found in findings {
        let Ok(()) = put_finding(sink, found) else {
            return Err(WriteFailed);
        };
    }
    Ok(())
}

/// Puts what is in the way.
fn put_denied<S: Sink>(
    sink: &mut S,
    number: usize,
    name: &Name,
    need: &str,
) -> Result<(), WriteFailed>
    ensures { Takes S.took S.cut sink.old (denied_words number name.now need.now) sink.new result }
{
    let mut digits = Buffer::new();
    let texts = [
        b"denied: rule ".as_slice(),
        digits.format(number).as_bytes(),
        b" `".as_slice(),
        name.as_bytes(),
        b"`, need ".as_slice(),
        need.as_bytes(),
        b"\n".as_slice(),
    ];
    put_all(sink, &texts)
}

/// Puts the line of a verdict.
fn put_verdict<S: Sink>(sink: &mut S, verdict: &Verdict) -> Result<(), WriteFailed>
    ensures { Takes S.took S.cut sink.old (verdict_line verdict.now) sink.new result }
{
    match verdict {
        Verdict::Allowed => sink.take(b"allowed\n"),
        Verdict::Denied { rule, name, need } => put_denied(sink, *rule, name, need.word()),
    }
}

/// Puts of each rule that applies whether it holds, with its needs, and then the verdict.
///
/// # Errors
/// `WriteFailed` where the sink fails. It has taken a beginning then.
pub fn put_explained<S: Sink>(
    sink: &mut S,
    findings: &[RuleFinding],
    verdict: &Verdict,
) -> Result<(), WriteFailed>
    ensures { Takes S.took S.cut sink.old (explained_text findings.now verdict.now) sink.new result }
{
    let Ok(()) = put_findings(sink, findings) else {
        return Err(WriteFailed);
    };
    put_verdict(sink, verdict)
}
