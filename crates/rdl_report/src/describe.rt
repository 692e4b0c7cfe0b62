//! From the bytes of a description to the report of its register map.

ghost use Rattle.std.specs.Prelude.{IfOk, IfErr};
ghost use Rattle.rdl_report.specs.Described as spec;

use map_report::lines::map_report;
use rdl_parse::parse_rdl;
use rdl_regmap::elaborate::elaborate_rdl;
use rdl_tree::fault::RdlFault;
use rdl_tree::scan::scan_rdl;
use std::alloc::Global;
use std::vec::Vec;

/// The report of the register map of a description, a line for each field; or the refusal that is due:
/// that of its tokens, else that of its tree, else the least code of those that a tree is refused for, at
/// the first of its places.
pub fn describe(alloc: Global, bytes: &[u8]) -> Result<Vec<u8>, RdlFault>
    ensures map { IfOk result (λ text. spec.IsMapText bytes.now text.items) }
    ensures refused { IfErr result (spec.Refuses bytes.now) }
{
    let tokens = scan_rdl(alloc, bytes)?;
    let file = parse_rdl(alloc, &tokens)?;
    let map = elaborate_rdl(alloc, &file)?;
    let text = map_report(alloc, &map)?;
    Ok(text)
}
