//! Command lines: which words are refused, and what help tells.
use clap::error::ErrorKind;
use fab_program_options::{SUBCOMMANDS, Subcommand, WordsFault, read_words};
use std::process::Abort;

/// Words that `clap` refuses, or for which it tells help.
const REFUSED: &[(&str, ErrorKind)] = &[
    ("init", ErrorKind::MissingRequiredArgument),
    ("init --db", ErrorKind::InvalidValue),
    ("init --db d --db d", ErrorKind::ArgumentConflict),
    ("init --db d --now 1", ErrorKind::UnknownArgument),
    ("init --db d e", ErrorKind::UnknownArgument),
    (
        "serve --db d --policy p --listen :0 --now 1",
        ErrorKind::UnknownArgument,
    ),
    (
        "serve --db d --listen :0",
        ErrorKind::MissingRequiredArgument,
    ),
    ("once --now -1", ErrorKind::UnknownArgument),
    (
        "import --db d --policy p --token t --fabric A",
        ErrorKind::MissingRequiredArgument,
    ),
    (
        "paths --db d --policy p --token t",
        ErrorKind::MissingRequiredArgument,
    ),
    (
        "report --db d --policy p --token t --host db1 --now 3",
        ErrorKind::UnknownArgument,
    ),
    ("check --db d", ErrorKind::UnknownArgument),
    (
        "explain --caller ada --action stage",
        ErrorKind::MissingRequiredArgument,
    ),
    (
        "tryimport --db d --policy p --token t --fabric A --file f.csv --most-lost",
        ErrorKind::InvalidValue,
    ),
    (
        "tryimport --db d --policy p --token t --fabric A",
        ErrorKind::MissingRequiredArgument,
    ),
    (
        "tryimport --db d --policy p --token t --fabric A --file f.csv --now 7",
        ErrorKind::UnknownArgument,
    ),
    (
        "import --db d --policy p --token t --fabric A --file f.csv --most-lost 0",
        ErrorKind::UnknownArgument,
    ),
    (
        "diff --db d --policy p --token t",
        ErrorKind::MissingRequiredArgument,
    ),
    (
        "diff --db d --policy p --token t --plan p1 --now 5",
        ErrorKind::UnknownArgument,
    ),
    ("", ErrorKind::MissingSubcommand),
    ("serv", ErrorKind::InvalidSubcommand),
    ("--db d", ErrorKind::UnknownArgument),
    ("help", ErrorKind::DisplayHelp),
    ("help init", ErrorKind::DisplayHelp),
    ("--help", ErrorKind::DisplayHelp),
    ("dryrun -h", ErrorKind::DisplayHelp),
];

/// A text of the test's own.
fn text_of(rt: &(impl Abort + AllocGlobal), text: &str) -> String {
    String::from_str(rt.alloc(), text).expect(rt, "memory")
}

/// The words of a line, behind the program's name.
fn words_of(rt: &(impl Abort + AllocGlobal), line: &str) -> Vec<String> {
    let mut words = Vec::new(rt.alloc());
    words.push(text_of(rt, "sandesk")).expect(rt, "memory");
    for word in line.split(' ') {
        if !word.is_empty() {
            words.push(text_of(rt, word)).expect(rt, "memory");
        }
    }
    words
}

/// Whether the line is refused for this.
fn is_refused(rt: &(impl Abort + AllocGlobal), line: &str, kind: ErrorKind) -> bool {
    let words = words_of(rt, line);
    match read_words(rt.alloc(), &words) {
        Err(WordsFault::Refused(error)) => error.kind() == kind,
        _ => false,
    }
}

#[test]
fn lines_are_refused(rt: HostRuntime) {
    for &(line, kind) in REFUSED {
        assert!(rt; is_refused(&rt, line, kind));
    }
}

/// Whether the help that the words ask for has all of these texts.
fn tells(rt: &(impl Abort + AllocGlobal), words: &[String], texts: &[&str]) -> bool {
    let Err(WordsFault::Refused(error)) = read_words(rt.alloc(), words) else {
        return false;
    };
    let help = format!(in rt.alloc(); "{error}").expect(rt, "memory");
    texts.iter().all(|text| help.contains(*text))
}

/// The words that ask for a subcommand's help.
fn help_of(rt: &(impl Abort + AllocGlobal), subcommand: Subcommand) -> Vec<String> {
    let mut words = words_of(rt, subcommand.name());
    words.push(text_of(rt, "--help")).expect(rt, "memory");
    words
}

/// What a subcommand's help has to tell: what it is for, an example, and its options.
fn taught(rt: &(impl Abort + AllocGlobal), subcommand: Subcommand) -> Vec<&'static str> {
    let mut texts = Vec::new(rt.alloc());
    texts.push(subcommand.about()).expect(rt, "memory");
    texts.push(subcommand.example()).expect(rt, "memory");
    for option in subcommand.access() {
        texts.push(option.help()).expect(rt, "memory");
    }
    for option in subcommand.required() {
        texts.push(option.help()).expect(rt, "memory");
    }
    for option in subcommand.optional() {
        texts.push(option.help()).expect(rt, "memory");
    }
    texts
}

/// Whether a subcommand's help has its example and its options.
fn teaches(rt: &(impl Abort + AllocGlobal), subcommand: Subcommand) -> bool {
    let texts = taught(rt, subcommand);
    let words = help_of(rt, subcommand);
    tells(rt, &words, &texts)
}

/// Whether the program's help has each subcommand.
fn lists_all(rt: &(impl Abort + AllocGlobal)) -> bool {
    let words = words_of(rt, "help");
    let mut texts = Vec::new(rt.alloc());
    for subcommand in &SUBCOMMANDS {
        texts.push(subcommand.name()).expect(rt, "memory");
        texts.push(subcommand.about()).expect(rt, "memory");
    }
    tells(rt, &words, &texts)
}

#[test]
fn help_teaches(rt: HostRuntime) {
    for subcommand in &SUBCOMMANDS {
        assert!(rt; teaches(&rt, *subcommand));
    }
    assert!(rt; lists_all(&rt));
}
