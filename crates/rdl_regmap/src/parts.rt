//! The parts of the register map of a description.

ghost use Rattle.std.specs.Prelude.{IfOk, IfErr};
ghost use Rattle.rdl_map.specs.Maps.{IsMapOf};
ghost use Rattle.rdl_elab.specs.Refusals.{IsFine, Refuses};

use rdl_elab::description::check_rdl;
use rdl_map::map::{Parts, parts_of};
use rdl_tree::fault::RdlFault;
use rdl_tree::tree::RdlFile;
use std::alloc::Global;

/// The parts of the register map of a description, or the least code that it is refused for, at the
/// first of its places.
pub fn map_parts(alloc: Global, file: &RdlFile) -> Result<Parts, RdlFault>
    ensures map { IfOk result (λ m. IsMapOf file.now m) }
    ensures fine { IfOk result (λ _. IsFine file.now) }
    ensures refused { IfErr result (λ fault. Refuses file.now fault) }
{
    check_rdl(alloc, file)?;
    let Some(parts) = parts_of(alloc, file)? else {
        unreachable!()
    };
    Ok(parts)
}
