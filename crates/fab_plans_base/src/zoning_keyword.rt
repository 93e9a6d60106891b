//! The first words of zoning lines.
ghost use Rattle.std.specs.Prelude.{◌≡◌, IsTrue, IfSome, IfNone, ◌↔◌};
ghost use Rattle.fab_plans_base.specs.Forms.{keyword_text, form_of, Takes};
ghost use Rattle.fab_plans_base.specs.declared.zoning_keyword.ZoningKeyword.{ZoningKeyword};
ghost use Rattle.fab_plans_base.specs.declared.keyword.Keyword.TheVariants.{Zoning};

use crate::keyword::fits_list;

/// The first word of a line of zoning.
#[derive(Clone, Copy)]
pub enum ZoningKeyword {
    /// `alias.put`
    AliasPut,
    /// `alias.drop`
    AliasDrop,
    /// `zone.put`
    ZonePut,
    /// `zone.drop`
    ZoneDrop,
    /// `set.put`
    SetPut,
    /// `set.drop`
    SetDrop,
    /// `activate`
    Activate,
    /// `deactivate`
    Deactivate,
    /// `default`
    Default,
}

impl ZoningKeyword {
    /// The keyword of a word, where it is one of zoning.
    pub(crate) fn read(word: &str) -> Option<ZoningKeyword>
        ensures some { IfSome result (λ keyword. word.now ≡ keyword_text (Zoning keyword)) }
        ensures none { IfNone result ((keyword : ZoningKeyword) → ¬ (word.now ≡ keyword_text (Zoning keyword))) }
    {
        match word {
            "alias.put" => Some(ZoningKeyword::AliasPut),
            "alias.drop" => Some(ZoningKeyword::AliasDrop),
            "zone.put" => Some(ZoningKeyword::ZonePut),
            "zone.drop" => Some(ZoningKeyword::ZoneDrop),
            "set.put" => Some(ZoningKeyword::SetPut),
            "set.drop" => Some(ZoningKeyword::SetDrop),
            "activate" => Some(ZoningKeyword::Activate),
            "deactivate" => Some(ZoningKeyword::Deactivate),
            "default" => Some(ZoningKeyword::Default),
            _ => None,
        }
    }

    /// The word.
    pub(crate) fn as_str(self) -> &'static str
        ensures { result.now ≡ keyword_text (Zoning self) }
    {
        match self {
            ZoningKeyword::AliasPut => "alias.put",
            ZoningKeyword::AliasDrop => "alias.drop",
            ZoningKeyword::ZonePut => "zone.put",
            ZoningKeyword::ZoneDrop => "zone.drop",
            ZoningKeyword::SetPut => "set.put",
            ZoningKeyword::SetDrop => "set.drop",
            ZoningKeyword::Activate => "activate",
            ZoningKeyword::Deactivate => "deactivate",
            ZoningKeyword::Default => "default",
        }
    }

    /// Whether so many words may follow it.
    pub(crate) fn takes(self, count: usize) -> bool
        ensures { IsTrue result ↔ Takes (form_of (Zoning self)) count }
    {
        match self {
            ZoningKeyword::AliasPut | ZoningKeyword::ZonePut | ZoningKeyword::SetPut => {
                fits_list(count)
            }
            ZoningKeyword::AliasDrop
            | ZoningKeyword::ZoneDrop
            | ZoningKeyword::SetDrop
            | ZoningKeyword::Activate
            | ZoningKeyword::Default => count == 2,
            ZoningKeyword::Deactivate => count == 1,
        }
    }
}
