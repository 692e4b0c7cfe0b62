//! Laws of a field's hardware, as functions that do nothing: each one's contract is the law.

ghost use Rattle.field_edges.specs.Kinds.{KindsAreMachines};

/// The side of each kind of field gives what the register machine gives.
pub fn kinds_are_machines()
    ensures { KindsAreMachines }
{}
