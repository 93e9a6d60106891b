//! Lists in a word of the command line: names, or approvals, with commas between.
ghost use Rattle.std.specs.Prelude.{◌≡◌, ◌↔◌, ◌∷◌, [], IfNone, IfSome, IsTrue, MatchOption};
ghost use Rattle.std.specs.Str.{IsUtf8};
ghost use Rattle.fab_names.specs.Names.{IsNameText};
ghost use Rattle.fab_policy.specs.declared.act.Approval.{Approval};
ghost use Rattle.fab_program_words.specs.Lists.{IsListText, IsPart, IsPartCut, SpellsApproval, parts_of};

use crate::values::number_of;
use fab_names::Name;
use fab_policy::Approval;

/// What the parts of a list are.
#[derive(Clone, Copy)]
pub enum Part {
    /// A name.
    Name,
    /// The name of who approved, `@` and the revision.
    Approval,
}

/// The approval that a text spells, if it spells one.
pub fn approval_of(text: &str) -> Option<Approval>
    ensures { MatchOption result ((a : Approval) → ¬ SpellsApproval text.now a) (SpellsApproval text.now) }
{
    let Some((name, revision)) = text.split_once('@') else {
        return None;
    };
    let Ok(caller) = Name::read(name) else {
        return None;
    };
    let Some(revision) = number_of(revision) else {
        return None;
    };
    Some(Approval { caller, revision })
}

/// Whether the text is that of a name.
fn is_name(text: &str) -> bool
    ensures { IsTrue result ↔ IsNameText text.now }
{
    match Name::read(text) {
        Ok(_name) => true,
        Err(_) => false,
    }
}

/// Whether the text is that of an approval.
fn is_approval(text: &str) -> bool
    ensures { IsTrue result ↔ IsPart Part.Approval text.now }
{
    match approval_of(text) {
        Some(_approval) => true,
        None => false,
    }
}

/// Whether the text is that of a part of this kind.
fn is_part(kind: Part, text: &str) -> bool
    ensures { IsTrue result ↔ IsPart kind text.now }
{
    match kind {
        Part::Name => is_name(text),
        Part::Approval => is_approval(text),
    }
}

/// The first part of a text, and the text behind the comma that ends it, if one does.
fn cut_part(text: &str) -> Option<(&str, &str)>
    ensures some { IfSome result (λ parts. IsPartCut text.now parts.0.now parts.1.now) }
    ensures none { IfNone result (parts_of text.now ≡ text.now ∷ []) }
    ensures text { IfSome result (λ parts. IsUtf8 parts.1.now) }
{
    text.split_once(',')
}

/// Whether each part of the text is of this kind.
pub fn is_list(kind: Part, text: &str) -> bool
    ensures { IsTrue result ↔ IsListText kind text.now }
{
    let mut rest = text;
    while let Some((part, more)) = cut_part(rest) {
        if !is_part(kind, part) {
            return false;
        }
        rest = more;
    }
    is_part(kind, rest)
}
