//! Names that stand for nothing.
ghost use Rattle.std.specs.Prelude.{◌≡◌};
ghost use Rattle.fab_policy_base.specs.declared.fault.PolicyFault.TheVariants as fault;
ghost use Rattle.fab_policy_text.specs.Shapes.{IsMemory};

use fab_policy_base::{PolicyFault, Text};
use std::alloc::Global;

/// The fault of a name that stands for nothing.
pub(crate) fn unknown(alloc: Global, name: &str) -> PolicyFault
    ensures { ¬ IsMemory result → result ≡ fault.Unknown name.now }
{
    match Text::new(alloc, name) {
        Ok(name) => PolicyFault::Unknown(name),
        Err(_) => PolicyFault::Memory,
    }
}
