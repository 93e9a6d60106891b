//! Laws of the texts of policies. Nothing runs here.
ghost use Rattle.std.specs.Prelude.{◌≡◌};
ghost use Rattle.fab_policy_base.specs.Policies.{PolicyRows};
ghost use Rattle.fab_policy_text.specs.Tables.{SpellsPolicy};

/// A text spells one policy at most.
pub fn one_policy(text: &str)
    ensures { (p q : PolicyRows) → SpellsPolicy text.now p → SpellsPolicy text.now q → p ≡ q }
{
    let _text = text;
}
