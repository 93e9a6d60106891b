//! Configurations.
ghost use Rattle.std.specs.Prelude.{◌≡◌, IfOk};
ghost use Rattle.fab_reach_base.specs.Records.{zoning_at};

use fab_mapping::Mapping;
use fab_mapping::base::names::Fabric;
use fab_zoning::Zoning;
use std::alloc::{AllocError, Allocator};
use std::marker::Model;

/// The zoning of both fabrics, and the mapping.
///
/// A contract sees it as a `ConfigRows`.
pub struct Config<A: Allocator + Copy> {
    /// The zoning of fabric A.
    pub a: Zoning<A>,
    /// The zoning of fabric B.
    pub b: Zoning<A>,
    /// The host groups and the storage groups, of both fabrics.
    pub mapping: Mapping<A>,
}

// It is written out, so that a caller does not prove again how each part is dropped.
impl<A: Allocator + Copy> Drop for Config<A> {
    fn drop(self) {
        let Config {
            a: _,
            b: _,
            mapping: _,
        } = self;
    }
}

impl<A: Allocator + Copy> Model for Config<A> {
    ghost use Rattle.fab_reach_base.specs.Records.{ConfigRows, config_code};

    ghost Value = { ConfigRows };

    ghost coded = { config_code };

    ghost view = { λ a. record { a = a.a; b = a.b; mapping = a.mapping } };
}

impl<A: Allocator + Copy> Config<A> {
    /// The zoning of a fabric.
    pub fn zoning(&self, fabric: Fabric) -> &Zoning<A>
        ensures { result.now ≡ zoning_at self.now fabric }
    {
        match fabric {
            Fabric::A => &self.a,
            Fabric::B => &self.b,
        }
    }

    /// The mapping.
    pub fn mapping(&self) -> &Mapping<A>
        ensures { result.now ≡ self.now.mapping }
    {
        &self.mapping
    }

    /// An equal configuration.
    ///
    /// # Errors
    /// `AllocError` where there is no memory.
    pub fn copy(&self) -> Result<Self, AllocError>
        ensures { IfOk result (λ copy. copy ≡ self.now) }
    {
        Ok(Config {
            a: self.a.copy()?,
            b: self.b.copy()?,
            mapping: self.mapping.copy()?,
        })
    }
}
