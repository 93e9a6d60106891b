//! The keys of a policy's text.
ghost use Rattle.std.specs.Prelude.{◌≡◌, Some};
ghost use Rattle.fab_policy_base.specs.Words.{key_word, is_word_of};

use std::fmt;

/// A key of a policy's text.
#[derive(Clone, Copy, Debug)]
pub enum Key {
    /// The callers of a policy.
    Callers,
    /// The windows of a policy.
    Windows,
    /// The rules of a policy.
    Rules,
    /// The name of a caller, a window or a rule.
    Name,
    /// The token of a caller.
    Token,
    /// The roles of a caller.
    Roles,
    /// The tenants of a caller.
    Tenants,
    /// The parts of each week in which a window is open.
    Weekly,
    /// The times in which a window is not open.
    Freeze,
    /// The actions that a rule speaks of.
    Actions,
    /// The fabric that a rule speaks of.
    Fabric,
    /// The role that a rule asks for.
    Role,
    /// The scope that a rule asks for.
    Scope,
    /// The window that a rule asks for.
    Window,
    /// The number of approvals that a rule asks for.
    Approvals,
    /// The role of those who approve.
    Approver,
    /// Whether approvals count at the present revision alone.
    Fresh,
    /// Whether each touched tenant has an approval of its own.
    EachTenant,
}

impl Key {
    /// The word of the key, as it stands in the text.
    pub fn word(self) -> &'static str
        ensures { result.now ≡ key_word self }
    {
        match self {
            Key::Callers => "callers",
            Key::Windows => "windows",
            Key::Rules => "rules",
            Key::Name => "name",
            Key::Token => "token",
            Key::Roles => "roles",
            Key::Tenants => "tenants",
            Key::Weekly => "weekly",
            Key::Freeze => "freeze",
            Key::Actions => "actions",
            Key::Fabric => "fabric",
            Key::Role => "role",
            Key::Scope => "scope",
            Key::Window => "window",
            Key::Approvals => "approvals",
            Key::Approver => "approver",
            Key::Fresh => "fresh",
            Key::EachTenant => "each_tenant",
        }
    }
}

impl fmt::Display for Key {
    ghost output = { λ key. Some (key_word key) };

    fn fmt<W: fmt::Write>(&self, f: &mut fmt::Formatter<W>) -> fmt::Result {
        f.pad(self.word())
    }
}

/// Whether the text is the word of one of the keys.
pub fn is_word_of(keys: &[Key], text: &str) -> bool
    ensures { result ≡ is_word_of keys.now text.now }
{
    keys.iter().any(|key| key.word() == text)
}
