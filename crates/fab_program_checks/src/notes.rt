//! The lines of what is worth a look in a file.
ghost use Rattle.std.specs.Prelude.{◌≡◌, ◌++◌, []};
ghost use Rattle.fab_policy_base.specs.Words.{action_word};
ghost use Rattle.fab_policy_looks.specs.declared.warnings.Warning.TheVariants as warnings;
ghost use Rattle.fab_program_checks.specs.Notes as notes;
ghost use Rattle.fab_program_checks.specs.Notes.{mode_line, mode_words, more_words, naming_words, octal, octal_digit, open_line, rule_words, unruled_words, warning_head, warning_line, warning_lines, warning_words};
ghost use Rattle.fab_wire_streams.specs.Taking.{Takes};

use crate::findings::Finding;
use fab_names::Name;
use fab_policy_base::Action;
use fab_policy_looks::Warning;
use fab_wire_streams::sink::{Sink, put_all};
use fab_wire_streams::streams::WriteFailed;
use itoa::Buffer;

/// What is worth a look in a file of which this is found.
pub fn warnings_in(finding: &Finding) -> &[Warning]
    ensures { result.now ≡ notes.warnings_in finding.now }
{
    match finding {
        Finding::Warned(warnings) => warnings.as_slice(),
        _ => &[],
    }
}

/// Puts a rule by its number and its name, and what is said of it.
fn put_rule<S: Sink>(
    sink: &mut S,
    number: usize,
    name: &Name,
    said: &str,
) -> Result<(), WriteFailed>
    ensures { Takes S.took S.cut sink.old (rule_words number name.now said.now) sink.new result }
{
    let mut digits = Buffer::new();
    let texts = [
        b"rule ".as_slice(),
        digits.format(number).as_bytes(),
        b" `".as_slice(),
        name.as_bytes(),
        b"` ".as_slice(),
        said.as_bytes(),
    ];
    put_all(sink, &texts)
}

/// Puts a word, and what is said behind it.
fn put_naming<S: Sink>(sink: &mut S, word: &[u8], said: &str) -> Result<(), WriteFailed>
    ensures { Takes S.took S.cut sink.old (naming_words word.now said.now) sink.new result }
{
    let texts = [word, said.as_bytes()];
    put_all(sink, &texts)
}

/// Puts how many are asked for, and that there are fewer.
fn put_more<S: Sink>(sink: &mut S, asked: usize, there: usize) -> Result<(), WriteFailed>
    ensures { Takes S.took S.cut sink.old (more_words asked there) sink.new result }
{
    let (mut first, mut second) = (Buffer::new(), Buffer::new());
    let texts = [
        first.format(asked).as_bytes(),
        b" > ".as_slice(),
        second.format(there).as_bytes(),
    ];
    put_all(sink, &texts)
}

/// Puts that no rule is about an action.
fn put_unruled<S: Sink>(sink: &mut S, action: Action) -> Result<(), WriteFailed>
    ensures { Takes S.took S.cut sink.old (unruled_words (action_word action)) sink.new result }
{
    let texts = [
        b"no rule is about `".as_slice(),
        action.word().as_bytes(),
        b"`: nobody may do it".as_slice(),
    ];
    put_all(sink, &texts)
}

/// Puts a rule, what is said of it, a word, and what is said behind it.
fn put_rule_of<S: Sink>(
    sink: &mut S,
    number: usize,
    name: &Name,
    said: &str,
    of: &[u8],
    behind: &str,
) -> Result<(), WriteFailed>
    ensures { Takes S.took S.cut sink.old (rule_words number name.now said.now ++ naming_words of.now behind.now) sink.new result }
{
    let Ok(()) = put_rule(sink, number, name, said) else {
        return Err(WriteFailed);
    };
    put_naming(sink, of, behind)
}

/// Puts that a rule asks for more approvals than callers may give.
fn put_quorum<S: Sink>(
    sink: &mut S,
    number: usize,
    name: &Name,
    asked: usize,
    there: usize,
) -> Result<(), WriteFailed>
    ensures { Takes S.took S.cut sink.old (warning_words (warnings.Approvals number name.now asked there)) sink.new result }
{
    let said = "asks for more approvals than callers may give: ";
    let Ok(()) = put_rule(sink, number, name, said) else {
        return Err(WriteFailed);
    };
    put_more(sink, asked, there)
}

/// Puts that a rule asks for a role that no caller has.
fn put_role<S: Sink>(
    sink: &mut S,
    number: usize,
    name: &Name,
    role: &Name,
) -> Result<(), WriteFailed>
    ensures { Takes S.took S.cut sink.old (warning_words (warnings.Role number name.now role.now)) sink.new result }
{
    let behind = "`, which no caller has";
    put_rule_of(
        sink,
        number,
        name,
        "asks for role `",
        role.as_bytes(),
        behind,
    )
}

/// Puts that a rule asks for a window that is never open.
fn put_window<S: Sink>(
    sink: &mut S,
    number: usize,
    name: &Name,
    window: &Name,
) -> Result<(), WriteFailed>
    ensures { Takes S.took S.cut sink.old (warning_words (warnings.Window number name.now window.now)) sink.new result }
{
    let word = window.as_bytes();
    let behind = "`, which is never open";
    put_rule_of(sink, number, name, "asks for window `", word, behind)
}

/// Puts that a rule asks for approvals of an action before which a plan has none.
fn put_early<S: Sink>(
    sink: &mut S,
    number: usize,
    name: &Name,
    action: Action,
) -> Result<(), WriteFailed>
    ensures { Takes S.took S.cut sink.old (warning_words (warnings.Early number name.now action)) sink.new result }
{
    let behind = "`, before which a plan has none";
    let word = action.word().as_bytes();
    put_rule_of(sink, number, name, "asks for approvals of `", word, behind)
}

/// Puts the words of what is worth a look.
fn put_words<S: Sink>(sink: &mut S, warning: &Warning) -> Result<(), WriteFailed>
    ensures { Takes S.took S.cut sink.old (warning_words warning.now) sink.new result }
{
    match warning {
        Warning::Fabric { number, name } => {
            let said = "is about a fabric, and no command of its actions names one";
            put_rule(sink, *number, name, said)
        }
        Warning::Role { number, name, role } => put_role(sink, *number, name, role),
        Warning::Window {
            number,
            name,
            window,
        } => put_window(sink, *number, name, window),
        Warning::Plan { number, name } => {
            let said = "asks for approvals, and no command of its actions is about a plan";
            put_rule(sink, *number, name, said)
        }
        Warning::Early {
            number,
            name,
            action,
        } => put_early(sink, *number, name, *action),
        Warning::Approvals {
            number,
            name,
            asked,
            there,
        } => put_quorum(sink, *number, name, *asked, *there),
        Warning::Unruled(action) => put_unruled(sink, *action),
    }
}

/// Puts the path of a file, and that what comes is a warning.
fn put_head<S: Sink>(sink: &mut S, path: &str) -> Result<(), WriteFailed>
    ensures { Takes S.took S.cut sink.old (warning_head path.now) sink.new result }
{
    let texts = [path.as_bytes(), b": warning: ".as_slice()];
    put_all(sink, &texts)
}

/// Puts the line of what is worth a look.
fn put_warning<S: Sink>(sink: &mut S, path: &str, warning: &Warning) -> Result<(), WriteFailed>
    ensures { Takes S.took S.cut sink.old (warning_line path.now warning.now) sink.new result }
{
    let Ok(()) = put_head(sink, path) else {
        return Err(WriteFailed);
    };
    let Ok(()) = put_words(sink, warning) else {
        return Err(WriteFailed);
    };
    sink.take(b"\n")
}

/// Puts a line for each thing that is worth a look.
pub fn put_warnings<S: Sink>(
    sink: &mut S,
    path: &str,
    warnings: &[Warning],
) -> Result<(), WriteFailed>
    ensures { Takes S.took S.cut sink.old (warning_lines path.now warnings.now) sink.new result }
{
    for warning in warnings {
        let Ok(()) = put_warning(sink, path, warning) else {
            return Err(WriteFailed);
        };
    }
    Ok(())
}

/// Whether others than the owner and the group may read a file of this mode.
fn is_open_mode(mode: u32) -> bool
    ensures { result ≡ notes.is_open_mode mode }
{
    mode / 4 % 2 == 1
}

/// The last octal digit of a number.
fn octal_digit(number: u32) -> u8
    ensures { result ≡ octal_digit number }
{
    b'0' + (number % 8) as u8
}

/// The last four octal digits of a number.
#[tactic(auto, unfolding(crate::specs::Notes::octal))]
fn octal(number: u32) -> [u8; 4]
    ensures { result ≡ octal number }
{
    [
        octal_digit(number / 512),
        octal_digit(number / 64),
        octal_digit(number / 8),
        octal_digit(number),
    ]
}

/// Puts a mode.
fn put_digits<S: Sink>(sink: &mut S, mode: u32) -> Result<(), WriteFailed>
    ensures { Takes S.took S.cut sink.old (mode_words mode) sink.new result }
{
    let digits = octal(mode);
    let texts = [b"mode ".as_slice(), digits.as_slice()];
    put_all(sink, &texts)
}

/// Puts the line of a mode by which others may read the file.
fn put_open<S: Sink>(sink: &mut S, path: &str, mode: u32) -> Result<(), WriteFailed>
    ensures { Takes S.took S.cut sink.old (open_line path.now mode) sink.new result }
{
    let Ok(()) = put_head(sink, path) else {
        return Err(WriteFailed);
    };
    let Ok(()) = put_digits(sink, mode) else {
        return Err(WriteFailed);
    };
    sink.take(b": others may read the tokens\n")
}

/// Puts the line of a mode, if it is told and others may read the file by it.
pub fn put_mode<S: Sink>(sink: &mut S, path: &str, mode: Option<u32>) -> Result<(), WriteFailed>
    ensures { Takes S.took S.cut sink.old (mode_line path.now mode) sink.new result }
{
    let Some(mode) = mode else {
        return Ok(());
    };
    if !is_open_mode(mode) {
        return Ok(());
    }
    put_open(sink, path, mode)
}
