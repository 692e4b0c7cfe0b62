//! Laws of expressions as wires, as functions that do nothing: each one's contract is the law.

ghost use Rattle.expr_gates.specs.Laws.{ExpressionsAreMachines, GivenAreMachines, GatesAreMachines, MasksAreMachines};

/// The wires of an expression have the value that the register machine reads.
pub fn expressions_are_machines()
    ensures { ExpressionsAreMachines }
{}

/// The wire of an expression of one bit that may be missing is true where the register machine is
/// given it.
pub fn given_are_machines()
    ensures { GivenAreMachines }
{}

/// The wire of a gate of one bit is true where the register machine finds it open.
pub fn gates_are_machines()
    ensures { GatesAreMachines }
{}

/// The wires of a gate of many bits are true where the register machine finds it open.
pub fn masks_are_machines()
    ensures { MasksAreMachines }
{}
