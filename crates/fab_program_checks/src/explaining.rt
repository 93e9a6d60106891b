//! What a policy says of a command.
ghost use Rattle.std.specs.Prelude.{◌≡◌};
ghost use Rattle.fab_files_policy.specs.Findings.{explained_text};
ghost use Rattle.fab_files_policy.specs.Shown.{policy_text};
ghost use Rattle.fab_program_checks.specs.Explains as explains;
ghost use Rattle.fab_program_checks.specs.Explains.{ExplainComes, ExplainsAct, ExplainsDeed, ExplainsOf, ExplainsUnder, end_of_verdict, nobody_line};
ghost use Rattle.fab_wire_streams.specs.Taking.{Takes};

use crate::deeds::{act_of, caller_named};
use crate::parts::{approvals_in, names_in};
use fab_files_base::{End, Printable};
use fab_files_policy::{put_explained, put_policy};
use fab_names::Name;
use fab_policy::{Act, CallerId, Policy, Verdict, decide};
use fab_policy_looks::{RuleFinding, find_rules};
use fab_program_outside::{Fault, Files, policy_of, print_as};
use fab_program_words::{Deed, Explain, ExplainOf};
use fab_wire_streams::sink::{Sink, put_all};
use fab_wire_streams::streams::WriteFailed;
use std::alloc::Global;
use std::io::Write;

/// What a policy finds of an act, as lines.
#[derive(Clone, Copy)]
struct ExplainedText<'f> {
    findings: &'f [RuleFinding],
    verdict: Verdict,
}

impl Printable for ExplainedText<'_> {
    ghost text = { λ e. explained_text e.findings.now e.verdict };

    fn put<S: Sink>(&self, sink: &mut S) -> Result<(), WriteFailed> {
        put_explained(sink, self.findings, &self.verdict)
    }
}

/// A policy without its tokens.
#[derive(Clone, Copy)]
struct PolicyText<'p>(&'p Policy);

impl Printable for PolicyText<'_> {
    ghost text = { λ p. policy_text p.0.now };

    fn put<S: Sink>(&self, sink: &mut S) -> Result<(), WriteFailed> {
        put_policy(sink, self.0)
    }
}

/// That nobody has a name.
#[derive(Clone, Copy)]
struct NobodyText(Name);

impl Printable for NobodyText {
    ghost text = { λ n. nobody_line n.0 };

    fn put<S: Sink>(&self, sink: &mut S) -> Result<(), WriteFailed> {
        put_nobody(sink, &self.0)
    }
}

/// Puts that nobody has the name.
fn put_nobody<S: Sink>(sink: &mut S, name: &Name) -> Result<(), WriteFailed>
    ensures { Takes S.took S.cut sink.old (nobody_line name.now) sink.new result }
{
    let texts = [
        b"no caller `".as_slice(),
        name.as_bytes(),
        b"`\n".as_slice(),
    ];
    put_all(sink, &texts)
}

/// How it ends where this is the verdict.
fn end_of(verdict: &Verdict) -> End
    ensures { result ≡ end_of_verdict verdict.now }
{
    match verdict {
        Verdict::Allowed => End::Done,
        Verdict::Denied { .. } => End::Refused,
    }
}

/// Prints what a policy finds of an act.
fn explain_act<W: Write + Drop>(
    alloc: Global,
    policy: &Policy,
    act: &Act,
    writer: W,
) -> Result<(W, End), Fault>
    ensures { ExplainsAct W.contents policy.now act.now writer result }
{
    let Ok(found) = find_rules(alloc, policy, act) else {
        return Err(Fault::Memory);
    };
    let verdict = decide(policy, act);
    let text = ExplainedText {
        findings: found.as_slice(),
        verdict,
    };
    print_as(alloc, writer, &text, end_of(&verdict))
}

/// Prints what a policy finds of the act of a caller.
fn explain_of<W: Write + Drop>(
    alloc: Global,
    policy: &Policy,
    deed: &Deed<'_>,
    caller: CallerId,
    moment: u64,
    writer: W,
) -> Result<(W, End), Fault>
    ensures { ExplainsOf W.contents policy.now deed.entry.now caller moment writer result }
{
    let Ok(touched) = names_in(alloc, deed.tenants) else {
        return Err(Fault::Memory);
    };
    let Ok(approvals) = approvals_in(alloc, deed.approved) else {
        return Err(Fault::Memory);
    };
    let act = act_of(
        deed,
        caller,
        moment,
        touched.as_slice(),
        approvals.as_slice(),
    );
    explain_act(alloc, policy, &act, writer)
}

/// Prints what a policy finds of a command.
fn explain_deed<W: Write + Drop>(
    alloc: Global,
    policy: &Policy,
    deed: &Deed<'_>,
    moment: u64,
    writer: W,
) -> Result<(W, End), Fault>
    ensures { ExplainsDeed W.contents policy.now deed.entry.now moment writer result }
{
    match caller_named(policy, &deed.caller) {
        Some(caller) => explain_of(alloc, policy, deed, caller, moment, writer),
        None => print_as(alloc, writer, &NobodyText(deed.caller), End::Refused),
    }
}

/// Prints what is asked of a policy.
fn explain_under<W: Write + Drop>(
    alloc: Global,
    policy: &Policy,
    of: &ExplainOf<'_>,
    moment: Result<u64, Fault>,
    writer: W,
) -> Result<(W, End), Fault>
    ensures { ExplainsUnder W.contents policy.now of.now moment writer result }
{
    match of {
        ExplainOf::Rules => print_as(alloc, writer, &PolicyText(policy), End::Done),
        ExplainOf::Deed(deed) => match moment {
            Ok(moment) => explain_deed(alloc, policy, deed, moment, writer),
            Err(fault) => Err(fault),
        },
    }
}

/// The moment that is given, if one is.
pub fn now_in(of: &ExplainOf<'_>) -> Option<u64>
    ensures { result ≡ explains.now_in of.now }
{
    match of {
        ExplainOf::Rules => None,
        ExplainOf::Deed(deed) => deed.now,
    }
}

/// Tells what a policy says of a command, rule by rule, with the verdict, which ends it; or shows the
/// policy without its tokens. The writer is handed back, and has just that text.
///
/// # Errors
/// `File` where the policy's file is not there, or cannot be opened or read; `Policy` where it spells
/// none; why there is no moment, where a command is asked for; `Memory`; `Stream` where the writer failed.
pub fn explain<O: Files, W: Write + Drop>(
    alloc: Global,
    outside: &O,
    asked: &Explain<'_>,
    moment: Result<u64, Fault>,
    writer: W,
) -> Result<(W, End), Fault>
    ensures { ExplainComes O.Files O.File.remaining W.contents outside.now asked.now moment writer result }
{
    match policy_of(alloc, outside, asked.policy) {
        Ok(policy) => explain_under(alloc, &policy, &asked.of, moment, writer),
        Err(fault) => Err(fault),
    }
}
