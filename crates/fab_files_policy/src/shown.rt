//! A policy in TOML, as its file has it, but for the tokens.
ghost use Rattle.std.specs.List.{flat_map};
ghost use Rattle.fab_policy_base.specs.Words.{action_word};
ghost use Rattle.fab_policy_base.specs.Policies.{tenants_of};
ghost use Rattle.fab_files_policy.specs.Shown.{action_lines, caller_lines, count_line, fabric_line, flag_line, freeze_line, freeze_lines, item_line, item_lines, list_lines, maybe_line, needs_lines, pair_line, policy_text, quorum_lines, rule_lines, said, scope_line, span_line, subject_lines, tenants_lines, text_line, times_lines, weekly_lines, window_lines};
ghost use Rattle.fab_wire_streams.specs.Taking.{Takes};

use fab_names::{Fabric, Name};
use fab_policy_base::{
    Action, Caller, Freeze, Policy, Quorum, Rule, Scope, Tenants, WeekSpan, Window,
};
use fab_wire_streams::sink::{Sink, put_all};
use fab_wire_streams::streams::WriteFailed;
use itoa::Buffer;

/// Puts a fixed text.
#[tactic(auto, unfolding(crate::specs::Shown::said))]
fn put_said<S: Sink>(sink: &mut S, text: &str) -> Result<(), WriteFailed>
    ensures { Takes S.took S.cut sink.old (said text.now) sink.new result }
{
    sink.take(text.as_bytes())
}

/// Puts a key and a name.
fn put_name<S: Sink>(sink: &mut S, key: &str, name: &Name) -> Result<(), WriteFailed>
    ensures { Takes S.took S.cut sink.old (text_line key.now name.now) sink.new result }
{
    let texts = [
        key.as_bytes(),
        b" = \"".as_slice(),
        name.as_bytes(),
        b"\"\n".as_slice(),
    ];
    put_all(sink, &texts)
}

/// Puts a key and a text.
fn put_text<S: Sink>(sink: &mut S, key: &str, text: &str) -> Result<(), WriteFailed>
    ensures { Takes S.took S.cut sink.old (text_line key.now text.now) sink.new result }
{
    let texts = [
        key.as_bytes(),
        b" = \"".as_slice(),
        text.as_bytes(),
        b"\"\n".as_slice(),
    ];
    put_all(sink, &texts)
}

/// Puts a key and a name, if there is one.
fn put_maybe<S: Sink>(sink: &mut S, key: &str, name: &Option<Name>) -> Result<(), WriteFailed>
    ensures { Takes S.took S.cut sink.old (maybe_line key.now name.now) sink.new result }
{
    match name {
        Some(name) => put_name(sink, key, name),
        None => Ok(()),
    }
}

/// Puts an element of a list: a text.
fn put_item<S: Sink>(sink: &mut S, text: &[u8]) -> Result<(), WriteFailed>
    ensures { Takes S.took S.cut sink.old (item_line text.now) sink.new result }
{
    let texts = [b"  \"".as_slice(), text, b"\",\n".as_slice()];
    put_all(sink, &texts)
}

/// Puts an element of a list: a pair of numbers.
fn put_pair<S: Sink>(sink: &mut S, from: u64, until: u64) -> Result<(), WriteFailed>
    ensures { Takes S.took S.cut sink.old (pair_line from until) sink.new result }
{
    let (mut first, mut second) = (Buffer::new(), Buffer::new());
    let texts = [
        b"  [".as_slice(),
        first.format(from).as_bytes(),
        b", ".as_slice(),
        second.format(until).as_bytes(),
        b"],\n".as_slice(),
    ];
    put_all(sink, &texts)
}

/// Puts a name, as an element of a list.
fn put_name_item<S: Sink>(sink: &mut S, name: &Name) -> Result<(), WriteFailed>
    ensures { Takes S.took S.cut sink.old (item_line name.now) sink.new result }
{
    put_item(sink, name.as_bytes())
}

/// Puts names, as elements of a list.
fn put_names<S: Sink>(sink: &mut S, names: &[Name]) -> Result<(), WriteFailed>
    ensures { Takes S.took S.cut sink.old (item_lines names.now) sink.new result }
{
    for name in names {
        let Ok(()) = put_name_item(sink, name) else {
            return Err(WriteFailed);
        };
    }
    Ok(())
}

/// Puts a key and a list of names.
fn put_list<S: Sink>(sink: &mut S, key: &str, names: &[Name]) -> Result<(), WriteFailed>
    ensures { Takes S.took S.cut sink.old (list_lines key.now names.now) sink.new result }
{
    let Ok(()) = put_said(sink, key) else {
        return Err(WriteFailed);
    };
    let Ok(()) = put_names(sink, names) else {
        return Err(WriteFailed);
    };
    put_said(sink, "]\n")
}

/// Puts the tenants of a caller.
fn put_tenants<S: Sink>(sink: &mut S, tenants: &Tenants) -> Result<(), WriteFailed>
    ensures { Takes S.took S.cut sink.old (tenants_lines (tenants_of tenants.now)) sink.new result }
{
    match tenants {
        Tenants::All => put_said(sink, "tenants = \"*\"\n"),
        Tenants::Listed(names) => put_list(sink, "tenants = [\n", names),
    }
}

/// Puts a caller without the token.
fn put_caller<S: Sink>(sink: &mut S, caller: &Caller) -> Result<(), WriteFailed>
    ensures { Takes S.took S.cut sink.old (caller_lines caller.now) sink.new result }
{
    let Ok(()) = put_said(sink, "[[callers]]\n") else {
        return Err(WriteFailed);
    };
    let Ok(()) = put_name(sink, "name", &caller.name) else {
        return Err(WriteFailed);
    };
    let Ok(()) = put_list(sink, "roles = [\n", &caller.roles) else {
        return Err(WriteFailed);
    };
    put_tenants(sink, &caller.tenants)
}

/// Puts callers without their tokens.
fn put_callers<S: Sink>(sink: &mut S, callers: &[Caller]) -> Result<(), WriteFailed>
    ensures { Takes S.took S.cut sink.old (flat_map caller_lines callers.now) sink.new result }
{
    for caller in callers {
        let Ok(()) = put_caller(sink, caller) else {
            return Err(WriteFailed);
        };
    }
    Ok(())
}

/// Puts a part of the week.
#[tactic(auto, unfolding(crate::specs::Shown::span_line))]
fn put_span<S: Sink>(sink: &mut S, span: &WeekSpan) -> Result<(), WriteFailed>
    ensures { Takes S.took S.cut sink.old (span_line span.now) sink.new result }
{
    put_pair(sink, span.from, span.until)
}

/// Puts parts of the week.
fn put_spans<S: Sink>(sink: &mut S, spans: &[WeekSpan]) -> Result<(), WriteFailed>
    ensures { Takes S.took S.cut sink.old (flat_map span_line spans.now) sink.new result }
{
    for span in spans {
        let Ok(()) = put_span(sink, span) else {
            return Err(WriteFailed);
        };
    }
    Ok(())
}

/// Puts a freeze.
#[tactic(auto, unfolding(crate::specs::Shown::freeze_line))]
fn put_freeze<S: Sink>(sink: &mut S, freeze: &Freeze) -> Result<(), WriteFailed>
    ensures { Takes S.took S.cut sink.old (freeze_line freeze.now) sink.new result }
{
    put_pair(sink, freeze.from, freeze.until)
}

/// Puts freezes.
fn put_freezes<S: Sink>(sink: &mut S, freezes: &[Freeze]) -> Result<(), WriteFailed>
    ensures { Takes S.took S.cut sink.old (flat_map freeze_line freezes.now) sink.new result }
{
    for freeze in freezes {
        let Ok(()) = put_freeze(sink, freeze) else {
            return Err(WriteFailed);
        };
    }
    Ok(())
}

/// Puts the parts of the week of a window.
fn put_weekly<S: Sink>(sink: &mut S, spans: &[WeekSpan]) -> Result<(), WriteFailed>
    ensures { Takes S.took S.cut sink.old (weekly_lines spans.now) sink.new result }
{
    let Ok(()) = put_said(sink, "weekly = [\n") else {
        return Err(WriteFailed);
    };
    let Ok(()) = put_spans(sink, spans) else {
        return Err(WriteFailed);
    };
    put_said(sink, "]\n")
}

/// Puts the freezes of a window.
fn put_freeze_list<S: Sink>(sink: &mut S, freezes: &[Freeze]) -> Result<(), WriteFailed>
    ensures { Takes S.took S.cut sink.old (freeze_lines freezes.now) sink.new result }
{
    let Ok(()) = put_said(sink, "freeze = [\n") else {
        return Err(WriteFailed);
    };
    let Ok(()) = put_freezes(sink, freezes) else {
        return Err(WriteFailed);
    };
    put_said(sink, "]\n")
}

/// Puts when a window is open.
fn put_times<S: Sink>(sink: &mut S, window: &Window) -> Result<(), WriteFailed>
    ensures { Takes S.took S.cut sink.old (times_lines window.now) sink.new result }
{
    let Ok(()) = put_weekly(sink, &window.weekly) else {
        return Err(WriteFailed);
    };
    put_freeze_list(sink, &window.freeze)
}

/// Puts a window.
fn put_window<S: Sink>(sink: &mut S, window: &Window) -> Result<(), WriteFailed>
    ensures { Takes S.took S.cut sink.old (window_lines window.now) sink.new result }
{
    let Ok(()) = put_said(sink, "[[windows]]\n") else {
        return Err(WriteFailed);
    };
    let Ok(()) = put_name(sink, "name", &window.name) else {
        return Err(WriteFailed);
    };
    put_times(sink, window)
}

/// Puts windows.
fn put_windows<S: Sink>(sink: &mut S, windows: &[Window]) -> Result<(), WriteFailed>
    ensures { Takes S.took S.cut sink.old (flat_map window_lines windows.now) sink.new result }
{
    for window in windows {
        let Ok(()) = put_window(sink, window) else {
            return Err(WriteFailed);
        };
    }
    Ok(())
}

/// Puts an action, as an element of a list.
fn put_action<S: Sink>(sink: &mut S, action: &Action) -> Result<(), WriteFailed>
    ensures { Takes S.took S.cut sink.old (item_line (action_word action.now)) sink.new result }
{
    put_item(sink, action.word().as_bytes())
}

/// Puts actions, as elements of a list.
fn put_actions<S: Sink>(sink: &mut S, actions: &[Action]) -> Result<(), WriteFailed>
    ensures { Takes S.took S.cut sink.old (action_lines actions.now) sink.new result }
{
    for action in actions {
        let Ok(()) = put_action(sink, action) else {
            return Err(WriteFailed);
        };
    }
    Ok(())
}

/// Puts the name of a rule, and what it is about.
fn put_subject<S: Sink>(sink: &mut S, rule: &Rule) -> Result<(), WriteFailed>
    ensures { Takes S.took S.cut sink.old (subject_lines rule.now) sink.new result }
{
    let Ok(()) = put_said(sink, "[[rules]]\n") else {
        return Err(WriteFailed);
    };
    let Ok(()) = put_name(sink, "name", &rule.name) else {
        return Err(WriteFailed);
    };
    let Ok(()) = put_said(sink, "actions = [\n") else {
        return Err(WriteFailed);
    };
    let Ok(()) = put_actions(sink, &rule.actions) else {
        return Err(WriteFailed);
    };
    put_said(sink, "]\n")
}

/// Puts a fabric, if there is one.
fn put_fabric<S: Sink>(sink: &mut S, fabric: Option<Fabric>) -> Result<(), WriteFailed>
    ensures { Takes S.took S.cut sink.old (fabric_line fabric) sink.new result }
{
    match fabric {
        Some(fabric) => put_text(sink, "fabric", fabric.as_str()),
        None => Ok(()),
    }
}

/// Puts the scope, if there is one.
fn put_scope<S: Sink>(sink: &mut S, scope: Option<Scope>) -> Result<(), WriteFailed>
    ensures { Takes S.took S.cut sink.old (scope_line scope) sink.new result }
{
    match scope {
        Some(_own) => put_said(sink, "scope = \"own\"\n"),
        None => Ok(()),
    }
}

/// Puts a line, where it holds.
fn put_flag<S: Sink>(sink: &mut S, line: &str, holds: bool) -> Result<(), WriteFailed>
    ensures { Takes S.took S.cut sink.old (flag_line line.now holds) sink.new result }
{
    if holds { put_said(sink, line) } else { Ok(()) }
}

/// Puts how many approvals are asked for.
fn put_count<S: Sink>(sink: &mut S, count: usize) -> Result<(), WriteFailed>
    ensures { Takes S.took S.cut sink.old (count_line count) sink.new result }
{
    let mut digits = Buffer::new();
    let texts = [
        b"approvals = ".as_slice(),
        digits.format(count).as_bytes(),
        b"\n".as_slice(),
    ];
    put_all(sink, &texts)
}

/// Puts the approvals that are asked for, if they are.
fn put_quorum<S: Sink>(sink: &mut S, quorum: &Option<Quorum>) -> Result<(), WriteFailed>
    ensures { Takes S.took S.cut sink.old (quorum_lines quorum.now) sink.new result }
{
    let Some(quorum) = quorum else {
        return Ok(());
    };
    let Ok(()) = put_count(sink, quorum.count) else {
        return Err(WriteFailed);
    };
    let Ok(()) = put_maybe(sink, "approver", &quorum.approver) else {
        return Err(WriteFailed);
    };
    let Ok(()) = put_flag(sink, "fresh = true\n", quorum.fresh) else {
        return Err(WriteFailed);
    };
    put_flag(sink, "each_tenant = true\n", quorum.each_tenant)
}

/// Puts the needs of a rule.
fn put_needs<S: Sink>(sink: &mut S, rule: &Rule) -> Result<(), WriteFailed>
    ensures { Takes S.took S.cut sink.old (needs_lines rule.now) sink.new result }
{
    let Ok(()) = put_maybe(sink, "role", &rule.role) else {
        return Err(WriteFailed);
    };
    let Ok(()) = put_scope(sink, rule.scope) else {
        return Err(WriteFailed);
    };
    let Ok(()) = put_maybe(sink, "window", &rule.window) else {
        return Err(WriteFailed);
    };
    put_quorum(sink, &rule.approvals)
}

/// Puts a rule.
fn put_rule<S: Sink>(sink: &mut S, rule: &Rule) -> Result<(), WriteFailed>
    ensures { Takes S.took S.cut sink.old (rule_lines rule.now) sink.new result }
{
    let Ok(()) = put_subject(sink, rule) else {
        return Err(WriteFailed);
    };
    let Ok(()) = put_fabric(sink, rule.fabric) else {
        return Err(WriteFailed);
    };
    put_needs(sink, rule)
}

/// Puts rules.
fn put_rules<S: Sink>(sink: &mut S, rules: &[Rule]) -> Result<(), WriteFailed>
    ensures { Takes S.took S.cut sink.old (flat_map rule_lines rules.now) sink.new result }
{
    for rule in rules {
        let Ok(()) = put_rule(sink, rule) else {
            return Err(WriteFailed);
        };
    }
    Ok(())
}

/// Puts a policy in TOML, as its file has it, but for the tokens.
///
/// # Errors
/// `WriteFailed` where the sink fails. It has taken a beginning then.
pub fn put_policy<S: Sink>(sink: &mut S, policy: &Policy) -> Result<(), WriteFailed>
    ensures { Takes S.took S.cut sink.old (policy_text policy.now) sink.new result }
{
    let Ok(()) = put_callers(sink, policy.callers()) else {
        return Err(WriteFailed);
    };
    let Ok(()) = put_windows(sink, policy.windows()) else {
        return Err(WriteFailed);
    };
    put_rules(sink, policy.rules())
}
