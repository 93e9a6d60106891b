//! Texts of a known number of words.
ghost use Rattle.std.specs.Prelude.{◌≡◌, ◌≢◌, ◌<◌, [], ◌∷◌, length, MatchOption};
ghost use Rattle.fab_store_tables.specs.Words.{words_of};

/// The first word of a text and what follows its space, where it has a space.
pub fn first_word(text: &str) -> Option<(&str, &str)>
    ensures { MatchOption result (words_of text.now ≡ text.now ∷ [])
        (λ parts. words_of text.now ≡ parts.0.now ∷ words_of parts.1.now) }
{
    text.split_once(' ')
}

/// The text as its one word.
fn one_word(text: &str) -> Option<&str>
    ensures { MatchOption result (length (words_of text.now) ≢ 1) (λ word. words_of text.now ≡ word.now ∷ []) }
{
    match first_word(text) {
        Some(_) => None,
        None => Some(text),
    }
}

/// The two words of a text.
pub fn two_words(text: &str) -> Option<(&str, &str)>
    ensures { MatchOption result (length (words_of text.now) ≢ 2)
        (λ found. words_of text.now ≡ found.0.now ∷ found.1.now ∷ []) }
{
    let Some(parts) = first_word(text) else {
        return None;
    };
    let Some(second) = one_word(parts.1) else {
        return None;
    };
    Some((parts.0, second))
}

/// The three words of a text.
pub fn three_words(text: &str) -> Option<(&str, &str, &str)>
    ensures { MatchOption result (length (words_of text.now) ≢ 3)
        (λ found. words_of text.now ≡ found.0.now ∷ found.1.now ∷ found.2.now ∷ []) }
{
    let Some(parts) = first_word(text) else {
        return None;
    };
    let Some(others) = two_words(parts.1) else {
        return None;
    };
    Some((parts.0, others.0, others.1))
}

/// The four words of a text.
pub fn four_words(text: &str) -> Option<(&str, &str, &str, &str)>
    ensures { MatchOption result (length (words_of text.now) ≢ 4)
        (λ found. words_of text.now ≡ found.0.now ∷ found.1.now ∷ found.2.now ∷ found.3.now ∷ []) }
{
    let Some(parts) = first_word(text) else {
        return None;
    };
    let Some(others) = three_words(parts.1) else {
        return None;
    };
    Some((parts.0, others.0, others.1, others.2))
}

/// The five words of a text.
pub fn five_words(text: &str) -> Option<(&str, &str, &str, &str, &str)>
    ensures { MatchOption result (length (words_of text.now) ≢ 5)
        (λ found. words_of text.now ≡ found.0.now ∷ found.1.now ∷ found.2.now ∷ found.3.now ∷ found.4.now ∷ []) }
{
    let Some(parts) = first_word(text) else {
        return None;
    };
    let Some(others) = four_words(parts.1) else {
        return None;
    };
    Some((parts.0, others.0, others.1, others.2, others.3))
}
