//! The register map of a description.

ghost use Rattle.std.specs.Prelude.{◌≡◌, true, IfOk, IfErr};
ghost use Rattle.rdl_tree.specs.Tree.{fits};
ghost use Rattle.rdl_elab.specs.Refusals.{IsFine, Refuses};
ghost use Rattle.rdl_regmap.specs.RegMaps as spec;

use crate::parts::map_parts;
use field_policies::map::RegMap;
use rdl_map::map::Parts;
use rdl_tree::fault::RdlFault;
use rdl_tree::tree::RdlFile;
use std::alloc::Global;

// The register map of valid parts.
fn reg_map(parts: Parts) -> RegMap
    requires { spec.IsValid parts }
    ensures { spec.parts_in result ≡ parts }
{
    RegMap {
        bus_width: parts.bus_width as u32,
        words: parts.words,
        fields: parts.fields,
        inputs: parts.inputs,
    }
}

/// The register map of a description (SystemRDL 2.0, clauses 5 and 9 to 13), or the least code that it is
/// refused for, names before properties before values before places before sizes, at the first of its
/// places.
pub fn elaborate_rdl(alloc: Global, file: &RdlFile) -> Result<RegMap, RdlFault>
    requires { fits file.now ≡ true }
    ensures map { IfOk result (λ m. spec.IsRegMapOf file.now m) }
    ensures fine { IfOk result (λ _. IsFine file.now) }
    ensures refused { IfErr result (λ fault. Refuses file.now fault) }
{
    let parts = map_parts(alloc, file)?;
    Ok(reg_map(parts))
}
