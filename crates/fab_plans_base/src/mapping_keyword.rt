//! The first words of mapping lines.
ghost use Rattle.std.specs.Prelude.{◌≡◌, IsTrue, IfSome, IfNone, ◌↔◌};
ghost use Rattle.fab_plans_base.specs.Forms.{keyword_text, form_of, Takes};
ghost use Rattle.fab_plans_base.specs.declared.mapping_keyword.MappingKeyword.{MappingKeyword};
ghost use Rattle.fab_plans_base.specs.declared.keyword.Keyword.TheVariants.{Mapping};

use crate::keyword::fits_list;

/// The first word of a line of mapping.
#[derive(Clone, Copy)]
pub enum MappingKeyword {
    /// `hg.put`
    HostGroupPut,
    /// `hg.drop`
    HostGroupDrop,
    /// `sg.new`
    GroupNew,
    /// `sg.drop`
    GroupDrop,
    /// `sg.host`
    GroupHost,
    /// `sg.unhost`
    GroupUnhost,
    /// `sg.target`
    GroupTarget,
    /// `sg.untarget`
    GroupUntarget,
    /// `sg.map`
    GroupMap,
    /// `sg.unmap`
    GroupUnmap,
    /// `sg.expose`
    GroupExpose,
    /// `sg.hide`
    GroupHide,
}

impl MappingKeyword {
    /// The keyword of a word, where it is one of mapping.
    pub(crate) fn read(word: &str) -> Option<MappingKeyword>
        ensures some { IfSome result (λ keyword. word.now ≡ keyword_text (Mapping keyword)) }
        ensures none { IfNone result ((keyword : MappingKeyword) → ¬ (word.now ≡ keyword_text (Mapping keyword))) }
    {
        match word {
            "hg.put" => Some(MappingKeyword::HostGroupPut),
            "hg.drop" => Some(MappingKeyword::HostGroupDrop),
            "sg.new" => Some(MappingKeyword::GroupNew),
            "sg.drop" => Some(MappingKeyword::GroupDrop),
            "sg.host" => Some(MappingKeyword::GroupHost),
            "sg.unhost" => Some(MappingKeyword::GroupUnhost),
            "sg.target" => Some(MappingKeyword::GroupTarget),
            "sg.untarget" => Some(MappingKeyword::GroupUntarget),
            "sg.map" => Some(MappingKeyword::GroupMap),
            "sg.unmap" => Some(MappingKeyword::GroupUnmap),
            "sg.expose" => Some(MappingKeyword::GroupExpose),
            "sg.hide" => Some(MappingKeyword::GroupHide),
            _ => None,
        }
    }

    /// The word.
    pub(crate) fn as_str(self) -> &'static str
        ensures { result.now ≡ keyword_text (Mapping self) }
    {
        match self {
            MappingKeyword::HostGroupPut => "hg.put",
            MappingKeyword::HostGroupDrop => "hg.drop",
            MappingKeyword::GroupNew => "sg.new",
            MappingKeyword::GroupDrop => "sg.drop",
            MappingKeyword::GroupHost => "sg.host",
            MappingKeyword::GroupUnhost => "sg.unhost",
            MappingKeyword::GroupTarget => "sg.target",
            MappingKeyword::GroupUntarget => "sg.untarget",
            MappingKeyword::GroupMap => "sg.map",
            MappingKeyword::GroupUnmap => "sg.unmap",
            MappingKeyword::GroupExpose => "sg.expose",
            MappingKeyword::GroupHide => "sg.hide",
        }
    }

    /// Whether so many words may follow it.
    pub(crate) fn takes(self, count: usize) -> bool
        ensures { IsTrue result ↔ Takes (form_of (Mapping self)) count }
    {
        match self {
            MappingKeyword::HostGroupPut => fits_list(count),
            MappingKeyword::GroupNew | MappingKeyword::GroupMap => count == 3,
            MappingKeyword::GroupHost
            | MappingKeyword::GroupUnhost
            | MappingKeyword::GroupTarget
            | MappingKeyword::GroupUntarget
            | MappingKeyword::GroupUnmap => count == 2,
            MappingKeyword::HostGroupDrop
            | MappingKeyword::GroupDrop
            | MappingKeyword::GroupExpose
            | MappingKeyword::GroupHide => count == 1,
        }
    }
}
