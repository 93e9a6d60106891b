//! Why a policy's text is refused.
ghost use Rattle.std.specs.Prelude.{Some};
ghost use Rattle.fab_policy_base.specs.Told.{fault_text};

use crate::key::Key;
use crate::text::Text;
use fab_names::Name;
use std::error::Error;
use std::fmt;

/// Why a policy's text is refused. Where several faults stand in a text, any one of them is
/// answered.
#[derive(Debug, Drop)]
pub enum PolicyFault {
    /// The text is no TOML.
    Text,
    /// A table lacks the key.
    Missing(Key),
    /// The value at the key is of another type, out of its range or not of its text form.
    WrongType(Key),
    /// A key that no such table has, or the name of no action, fabric, scope or window.
    Unknown(Text),
    /// A caller, a window or a rule of this name has a name that an earlier one has, a caller of
    /// this name a token that an earlier one has, or a rule the name that stands for no rule.
    Repeated(Name),
    /// The list at the key is longer than it may be.
    Limit(Key),
    /// There was no memory.
    Memory,
}

impl fmt::Display for PolicyFault {
    ghost output = { λ e. Some (fault_text e) };

    fn fmt<W: fmt::Write>(&self, f: &mut fmt::Formatter<W>) -> fmt::Result {
        match self {
            PolicyFault::Text => write!(f, "the text is no TOML"),
            PolicyFault::Missing(key) => write!(f, "`{key}` is missing"),
            PolicyFault::WrongType(key) => write!(f, "`{key}` has a wrong value"),
            PolicyFault::Unknown(name) => write!(f, "`{name}` is not known"),
            PolicyFault::Repeated(name) => write!(f, "`{name}` is repeated"),
            PolicyFault::Limit(key) => write!(f, "`{key}` is too long"),
            PolicyFault::Memory => write!(f, "out of memory"),
        }
    }
}

impl Error for PolicyFault {}
