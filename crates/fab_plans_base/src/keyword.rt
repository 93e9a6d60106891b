//! The first words of lines.
ghost use Rattle.std.specs.Prelude.{◌≡◌, ◌+◌, ◌<◌, ◌≤◌, IsTrue, IfSome, IfNone, ◌↔◌};
ghost use Rattle.fab_plans_base.specs.Limits.{most_items};
ghost use Rattle.fab_plans_base.specs.Forms.{keyword_text, form_of, Takes};
ghost use Rattle.fab_plans_base.specs.declared.keyword.Keyword.{Keyword};

use crate::{MOST_ITEMS, MappingKeyword, ZoningKeyword};

/// The first word of a line, which says what its step does.
#[derive(Clone, Copy)]
pub enum Keyword {
    /// A word of zoning.
    Zoning(ZoningKeyword),
    /// A word of mapping.
    Mapping(MappingKeyword),
}

impl Keyword {
    /// The keyword of a word, where it is one.
    pub fn read(word: &str) -> Option<Keyword>
        ensures some { IfSome result (λ keyword. word.now ≡ keyword_text keyword) }
        ensures none { IfNone result ((keyword : Keyword) → ¬ (word.now ≡ keyword_text keyword)) }
    {
        if let Some(keyword) = ZoningKeyword::read(word) {
            return Some(Keyword::Zoning(keyword));
        }
        match MappingKeyword::read(word) {
            Some(keyword) => Some(Keyword::Mapping(keyword)),
            None => None,
        }
    }

    /// The word.
    pub fn as_str(self) -> &'static str
        ensures { result.now ≡ keyword_text self }
    {
        match self {
            Keyword::Zoning(keyword) => keyword.as_str(),
            Keyword::Mapping(keyword) => keyword.as_str(),
        }
    }

    /// Whether so many words may follow it.
    pub fn takes(self, count: usize) -> bool
        ensures { IsTrue result ↔ Takes (form_of self) count }
    {
        match self {
            Keyword::Zoning(keyword) => keyword.takes(count),
            Keyword::Mapping(keyword) => keyword.takes(count),
        }
    }
}

/// Whether so many words are two and a list.
pub(crate) fn fits_list(count: usize) -> bool
    ensures { IsTrue result ↔ ((2 < count) × (count ≤ 2 + most_items)) }
{
    2 < count && count <= 2 + MOST_ITEMS
}
