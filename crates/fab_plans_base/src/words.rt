//! The words of a line of a plan text: they are cut at each space.
ghost use Rattle.std.specs.Prelude.{◌≡◌, ◌==◌, count_by, ℕ, List, ◌∷◌, IfOk};
ghost use Rattle.fab_plans_base.specs.Texts.{words_of};
ghost use Rattle.fab_plans_base.specs.Values.{texts_of};

use std::alloc::{AllocError, Allocator};

/// The first word of a line.
pub fn first_word(line: &str) -> &str
    ensures { (others : List (List ℕ)) × (words_of line.now ≡ result.now ∷ others) }
{
    match line.split_once(' ') {
        Some((word, _)) => word,
        None => line,
    }
}

/// How many spaces a line has: one more word is between each two, though it may be empty.
pub fn count_spaces(line: &[u8]) -> usize
    ensures { result ≡ count_by (λ c. c == 32) line.now }
{
    line.iter().filter(|c| **c == b' ').count()
}

/// The words of a line: a space ends each but the last, so that two spaces have an empty word between them.
///
/// # Errors
/// `AllocError` where there is no memory for a list of them.
pub fn words_in<A: Allocator>(alloc: A, line: &str) -> Result<Vec<&str, A>, AllocError>
    ensures { IfOk result (λ words. texts_of words.items ≡ words_of line.now) }
{
    line.split(' ').collect(alloc)
}
