//! Names that stand as captured parts in the path of a request.

ghost use Rattle.std.specs.Prelude.{IfOk};
ghost use Rattle.fab_wire_base.specs.Parts.{IsWwnPart, IsFabricPart, IsNamePart};

use crate::routes::decoded_segment;
use fab_names::{Fabric, Name, Wwn, read_fabric, read_name, read_wwn};
use std::alloc::{AllocError, Allocator};

/// The world-wide name that the part of a path behind so many slashes spells, if it spells one.
///
/// # Errors
/// `AllocError` where there is no memory.
pub fn wwn_part<A: Allocator>(
    alloc: A,
    path: &[u8],
    slashes: usize,
) -> Result<Option<Wwn>, AllocError>
    ensures { IfOk result (IsWwnPart slashes path.now) }
{
    let part = decoded_segment(alloc, path, slashes)?;
    Ok(read_wwn(part.as_slice()))
}

/// The fabric that the part of a path behind so many slashes spells, if it spells one.
///
/// # Errors
/// `AllocError` where there is no memory.
pub fn fabric_part<A: Allocator>(
    alloc: A,
    path: &[u8],
    slashes: usize,
) -> Result<Option<Fabric>, AllocError>
    ensures { IfOk result (IsFabricPart slashes path.now) }
{
    let part = decoded_segment(alloc, path, slashes)?;
    Ok(read_fabric(part.as_slice()))
}

/// The name that the part of a path behind so many slashes is, if it is one.
///
/// # Errors
/// `AllocError` where there is no memory.
pub fn name_part<A: Allocator>(
    alloc: A,
    path: &[u8],
    slashes: usize,
) -> Result<Option<Name>, AllocError>
    ensures { IfOk result (IsNamePart slashes path.now) }
{
    let part = decoded_segment(alloc, path, slashes)?;
    Ok(read_name(part.as_slice()))
}
