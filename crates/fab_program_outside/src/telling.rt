//! What is told on standard error, and the exit statuses that go with it.
ghost use Rattle.std.specs.Prelude.{◌≡◌};
ghost use Rattle.fab_wire_streams.specs.Taking.{Takes};
ghost use Rattle.fab_program_outside.specs.Faults.{line_of, word_line, detail_line, words_line};
ghost use Rattle.fab_program_outside.specs.Telling.{IsTold, args_status, args_line};

use crate::args::ArgsFault;
use crate::faults::Fault;
use fab_wire_streams::sink::{Sink, put_all};
use fab_wire_streams::streams::WriteFailed;
use itoa::Buffer;

/// The exit status of what could not be done; the standard error has a line that says why.
const FAILED: u8 = 3;

/// The exit status of a command line that is wrong, or asks for help.
const WRONG_WORDS: u8 = 2;

/// Puts a line of one word.
fn put_word<E: Sink>(errors: &mut E, word: &str) -> Result<(), WriteFailed>
    ensures { Takes E.took E.cut errors.old (word_line word.now) errors.new result }
{
    let texts = [b"sandesk: ".as_slice(), word.as_bytes(), b"\n".as_slice()];
    put_all(errors, &texts)
}

/// Puts a line of a word and what it is about.
fn put_detail<E: Sink>(errors: &mut E, word: &str, detail: &str) -> Result<(), WriteFailed>
    ensures { Takes E.took E.cut errors.old (detail_line word.now detail.now) errors.new result }
{
    let texts = [
        b"sandesk: ".as_slice(),
        word.as_bytes(),
        b" ".as_slice(),
        detail.as_bytes(),
        b"\n".as_slice(),
    ];
    put_all(errors, &texts)
}

/// Puts the line of a fault.
fn put_fault<E: Sink>(errors: &mut E, fault: Fault) -> Result<(), WriteFailed>
    ensures { Takes E.took E.cut errors.old (line_of fault) errors.new result }
{
    match fault {
        Fault::Damaged(table) => put_detail(errors, fault.word(), table.name()),
        Fault::NewerSchema(schema) => {
            put_detail(errors, fault.word(), Buffer::new().format(schema))
        }
        _ => put_word(errors, fault.word()),
    }
}

/// Tells in one line what failed, and gives the exit status. A line that is not taken whole is not
/// tried again.
pub fn fail<E: Sink>(errors: &mut E, fault: Fault) -> u8
    ensures status { result ≡ 3 }
    ensures told { IsTold E.took E.cut errors.old (line_of fault) errors.new }
{
    let _ = put_fault(errors, fault);
    FAILED
}

/// Tells that a word of the command line has not its text form, and gives the exit status. Which word
/// it is is not told, since it may be a token.
pub fn refuse_text<E: Sink>(errors: &mut E) -> u8
    ensures status { result ≡ 2 }
    ensures told { IsTold E.took E.cut errors.old words_line errors.new }
{
    let _ = put_word(errors, "words");
    WRONG_WORDS
}

/// Tells why there are no words, and gives the exit status.
pub fn refuse_args<E: Sink>(errors: &mut E, fault: ArgsFault) -> u8
    ensures status { result ≡ args_status fault }
    ensures told { IsTold E.took E.cut errors.old (args_line fault) errors.new }
{
    match fault {
        ArgsFault::NotText => refuse_text(errors),
        ArgsFault::Memory => fail(errors, Fault::Memory),
    }
}
