//! The lines of a plan text.
ghost use Rattle.std.specs.Prelude.{length, MatchResult};
ghost use Rattle.fab_plans_base.specs.Texts.{words_of};
ghost use Rattle.fab_plans_base.specs.Values.{texts_of};
ghost use Rattle.fab_plans_base.specs.Forms.{form_of, Takes};
ghost use Rattle.fab_plans_base.specs.Plans.{SpellsStep};
ghost use Rattle.fab_plans_text.specs.Faults.{IsLineFault, MemoryOr, ReadsWords};

use crate::mapping_line::mapping_words;
use crate::zoning_line::zoning_words;
use crate::{Keyword, PlanFaultKind, Step};
use fab_plans_base::words::{count_spaces, first_word, words_in};
use std::alloc::Allocator;

/// Reads the words that follow the first.
fn read_words<A: Allocator + Copy>(
    alloc: A,
    keyword: Keyword,
    words: &[&str],
) -> Result<Step<A>, PlanFaultKind>
    requires { Takes (form_of keyword) (length words.now) }
    ensures { ReadsWords keyword (texts_of words.now) result }
{
    match keyword {
        Keyword::Zoning(keyword) => zoning_words(alloc, keyword, words),
        Keyword::Mapping(keyword) => mapping_words(alloc, keyword, words),
    }
}

/// Reads the step that a line, without its line feed, spells.
///
/// # Errors
/// The first fault of the line, or `Memory`.
pub(crate) fn read_step<A: Allocator + Copy>(alloc: A, line: &str) -> Result<Step<A>, PlanFaultKind>
    ensures { MatchResult result (SpellsStep (words_of line.now)) (MemoryOr (IsLineFault (words_of line.now))) }
{
    let Some(keyword) = Keyword::read(first_word(line)) else {
        return Err(PlanFaultKind::Word);
    };
    if !keyword.takes(count_spaces(line.as_bytes())) {
        return Err(PlanFaultKind::Count);
    }
    let words = words_in(alloc, line)?;
    read_words(alloc, keyword, &words[1..])
}
