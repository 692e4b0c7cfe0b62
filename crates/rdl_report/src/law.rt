//! What the bytes of a description determine.

ghost use Rattle.rdl_report.specs.OneAnswer as spec;

use rdl_elab::description::one_answer as one_refusal;
use rdl_tree::scan::one_answer as one_scan;

/// A law: bytes that have a register map aren't refused, and those that are refused are for one code at one
/// place.
pub fn one_answer()
    ensures { spec.HasOneAnswer }
{
    one_scan();
    one_refusal();
}
