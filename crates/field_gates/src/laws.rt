//! Laws of the field step by bits, as functions that do nothing: each one's contract is the law.

ghost use Rattle.field_gates.specs.Laws.{FieldStepIsMachines};

/// The field step by bits gives what the register machine gives.
pub fn field_step_is_machines()
    ensures { FieldStepIsMachines }
{}
