//! What is to be done where the settings tell a schema.
ghost use Rattle.std.specs.Prelude.{◌≡◌, false, IfErr, IfOk, IsTrue};
ghost use Rattle.fab_store_migration.specs.Judging.{IsRefused, IsOlder};
ghost use Rattle.fab_store_migration.specs.declared.judging.Shape.TheVariants.{Present, Old};

use fab_store_rows::SCHEMA;

/// Why tables are not brought to the schema.
#[derive(Clone, Copy, Debug, Drop)]
pub enum MigrationFault {
    /// The settings tell this schema, which is newer.
    NewerSchema(u64),
    /// The settings tell no schema that ever was.
    NoSchema,
    /// A call of the database was refused, or its tables are not those of the schema that is told.
    Store,
    /// There was no memory.
    Memory,
}

/// Which tables a database has.
#[derive(Clone, Copy, Drop)]
pub(crate) enum Shape {
    /// Those of the present schema.
    Present,
    /// Those of the schema before.
    Old,
    /// Others.
    Other,
}

/// Whether tables of this shape, which tell this schema, are to be brought to the present one.
pub(crate) fn judged(told: Option<u64>, shape: Shape) -> Result<bool, MigrationFault>
    ensures older { IfOk result (λ older. IsTrue older → (shape ≡ Old) × IsOlder told) }
    ensures present { IfOk result (λ older. older ≡ false → shape ≡ Present) }
    ensures refused { IfErr result (IsRefused told) }
{
    let Some(schema) = told else {
        return Err(MigrationFault::NoSchema);
    };
    if schema == 0 {
        return Err(MigrationFault::NoSchema);
    }
    if schema > SCHEMA {
        return Err(MigrationFault::NewerSchema(schema));
    }
    match shape {
        Shape::Present if schema == SCHEMA => Ok(false),
        Shape::Old if schema != SCHEMA => Ok(true),
        _ => Err(MigrationFault::Store),
    }
}
