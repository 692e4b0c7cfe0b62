//! Laws of the side of hardware, as functions that do nothing: each one's contract is the law.

ghost use Rattle.side_gates.specs.Laws.{PlainSideIsMachines, CounterSideIsMachines, IntrSideIsMachines, SourcesAreMachines};

/// The side of a plain field gives what the register machine gives.
pub fn plain_side_is_machines()
    ensures { PlainSideIsMachines }
{}

/// The side of a counter gives what the register machine gives, and its count is the machine's.
pub fn counter_side_is_machines()
    ensures { CounterSideIsMachines }
{}

/// The side of an interrupt field gives what the register machine gives.
pub fn intr_side_is_machines()
    ensures { IntrSideIsMachines }
{}

/// What hardware gives to a field, as wires, is what the register machine sees of it.
pub fn sources_are_machines()
    ensures { SourcesAreMachines }
{}
