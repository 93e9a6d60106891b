//! The lines that tell what is found in a file.
ghost use Rattle.std.specs.Prelude.{◌++◌, codes};
ghost use Rattle.fab_program_checks.specs.Lines.{finding_line, finding_text, finding_words, number_words, plan_fault_words, quoted_words};
ghost use Rattle.fab_policy_base.specs.Told.{fault_text};
ghost use Rattle.fab_wire_streams.specs.Taking.{Takes};

use crate::findings::Finding;
use crate::notes::{put_mode, put_warnings, warnings_in};
use crate::words::plan_words;
use fab_files_base::Printable;
use fab_plans_text::PlanFault;
use fab_policy_base::PolicyFault;
use fab_wire_streams::sink::{Sink, put_all};
use fab_wire_streams::streams::WriteFailed;
use itoa::Buffer;

/// A file and what is found in it, as lines: what is wrong, and behind it what is worth a look.
#[derive(Clone, Copy)]
pub struct FindingText<'f> {
    /// The path of the file, as it was given.
    pub path: &'f str,
    /// What is found in it.
    pub finding: &'f Finding,
    /// The mode of a file that has tokens in it, if it is known.
    pub mode: Option<u32>,
}

impl Printable for FindingText<'_> {
    ghost text = { λ l. finding_text l.path.now l.finding.now l.mode };

    fn put<S: Sink>(&self, sink: &mut S) -> Result<(), WriteFailed> {
        let Ok(()) = put_line(sink, self.path, self.finding) else {
            return Err(WriteFailed);
        };
        let Ok(()) = put_warnings(sink, self.path, warnings_in(self.finding)) else {
            return Err(WriteFailed);
        };
        put_mode(sink, self.path, self.mode)
    }
}

/// Puts the line of a file and what is wrong with it.
fn put_line<S: Sink>(sink: &mut S, path: &str, finding: &Finding) -> Result<(), WriteFailed>
    ensures { Takes S.took S.cut sink.old (finding_line path.now finding.now) sink.new result }
{
    let texts = [path.as_bytes(), b": ".as_slice()];
    let Ok(()) = put_all(sink, &texts) else {
        return Err(WriteFailed);
    };
    let Ok(()) = put_finding(sink, finding) else {
        return Err(WriteFailed);
    };
    sink.take(b"\n")
}

/// Puts the words of what is found.
fn put_finding<S: Sink>(sink: &mut S, finding: &Finding) -> Result<(), WriteFailed>
    ensures { Takes S.took S.cut sink.old (finding_words finding.now) sink.new result }
{
    match finding {
        Finding::Sound | Finding::Warned(_) => sink.take(b"sound"),
        Finding::TooLarge => sink.take(b"longer than 1048576 bytes"),
        Finding::NoText => sink.take(b"no text in UTF-8"),
        Finding::Policy(fault) => put_policy_fault(sink, fault),
        Finding::Plan(fault) => put_plan_fault(sink, *fault),
        Finding::Record(line) => put_record(sink, *line),
    }
}

/// Puts the words of a fault of a policy.
fn put_policy_fault<S: Sink>(sink: &mut S, fault: &PolicyFault) -> Result<(), WriteFailed>
    ensures { Takes S.took S.cut sink.old (fault_text fault.now) sink.new result }
{
    match fault {
        PolicyFault::Text => sink.take(b"the text is no TOML"),
        PolicyFault::Missing(key) => put_quoted(sink, key.word(), "` is missing"),
        PolicyFault::WrongType(key) => put_quoted(sink, key.word(), "` has a wrong value"),
        PolicyFault::Unknown(name) => put_quoted(sink, name.as_str(), "` is not known"),
        PolicyFault::Repeated(name) => put_quoted(sink, name.as_str(), "` is repeated"),
        PolicyFault::Limit(key) => put_quoted(sink, key.word(), "` is too long"),
        PolicyFault::Memory => sink.take(b"out of memory"),
    }
}

/// Puts a quoted word, and what is said of it behind the closing quote.
fn put_quoted<S: Sink>(sink: &mut S, word: &str, said: &str) -> Result<(), WriteFailed>
    ensures { Takes S.took S.cut sink.old (quoted_words word.now said.now) sink.new result }
{
    let texts = [b"`".as_slice(), word.as_bytes(), said.as_bytes()];
    put_all(sink, &texts)
}

/// Puts the words of a fault of a plan, behind the number of its line if it is a line's.
fn put_plan_fault<S: Sink>(sink: &mut S, fault: PlanFault) -> Result<(), WriteFailed>
    ensures { Takes S.took S.cut sink.old (plan_fault_words fault) sink.new result }
{
    let words = plan_words(fault.kind);
    if fault.line == 0 {
        return sink.take(words.as_bytes());
    }
    let Ok(()) = put_number(sink, "line ", fault.line) else {
        return Err(WriteFailed);
    };
    sink.take(words.as_bytes())
}

/// Puts the words of a port list whose first faulty record is this.
fn put_record<S: Sink>(sink: &mut S, line: usize) -> Result<(), WriteFailed>
    ensures { Takes S.took S.cut sink.old (number_words (codes "record ") line ++ codes "it is no port's, or the header is another") sink.new result }
{
    let Ok(()) = put_number(sink, "record ", line) else {
        return Err(WriteFailed);
    };
    sink.take(b"it is no port's, or the header is another")
}

/// Puts a word with a number, a colon and a space.
fn put_number<S: Sink>(sink: &mut S, word: &str, number: usize) -> Result<(), WriteFailed>
    ensures { Takes S.took S.cut sink.old (number_words word.now number) sink.new result }
{
    let mut digits = Buffer::new();
    let texts = [
        word.as_bytes(),
        digits.format(number).as_bytes(),
        b": ".as_slice(),
    ];
    put_all(sink, &texts)
}
