//! The two fabrics.
ghost use Rattle.std.specs.Prelude.{◌≡◌, Some, IfOk, IfErr, OnErr};
ghost use Rattle.std.specs.String.{string_bytes};
ghost use Rattle.fab_names.specs.Fabrics.{SpellsFabric, fabric_text};
ghost use Rattle.fab_names.specs.Faults.{IsFabricFault};
ghost use Rattle.fab_names.specs.declared.fabric.Fabric.{Fabric};

use crate::NameFault;
use std::alloc::{AllocError, Allocator};
use std::fmt;

/// One of the two fabrics, `A` before `B`.
#[derive(Clone, Copy, PartialEq, Eq, PartialOrd, Ord)]
pub enum Fabric {
    /// Fabric A.
    A,
    /// Fabric B.
    B,
}

impl Fabric {
    /// Reads `A` or `B`.
    ///
    /// # Errors
    /// `Empty`, or `BadChar` where the text is another one.
    pub fn read(text: &str) -> Result<Fabric, NameFault>
        ensures ok { IfOk result (SpellsFabric text.now) }
        ensures err { OnErr result ((fabric : Fabric) → ¬ SpellsFabric text.now fabric) }
        ensures fault { IfErr result (IsFabricFault text.now) }
    {
        match text {
            "A" => Ok(Fabric::A),
            "B" => Ok(Fabric::B),
            "" => Err(NameFault::Empty),
            _ => Err(NameFault::BadChar),
        }
    }

    /// The letter of the fabric.
    pub fn as_str(self) -> &'static str
        ensures { result.now ≡ fabric_text self }
    {
        match self {
            Fabric::A => "A",
            Fabric::B => "B",
        }
    }

    /// The printed form: the letter.
    ///
    /// # Errors
    /// `AllocError` where there is no memory.
    pub fn print<A: Allocator>(self, alloc: A) -> Result<String<A>, AllocError>
        ensures { IfOk result (λ text. string_bytes text ≡ fabric_text self) }
    {
        self.as_str().to_string(alloc)
    }
}

impl fmt::Display for Fabric {
    ghost output = { λ fabric. Some (fabric_text fabric) };

    fn fmt<W: fmt::Write>(&self, f: &mut fmt::Formatter<W>) -> fmt::Result {
        f.pad(self.as_str())
    }
}
